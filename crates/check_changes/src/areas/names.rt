//! Areas by name.
ghost use Rattle.std.specs.Prelude.{◌≡◌, IfOk};
ghost use Rattle.std.proofs.Props.{props};
ghost use Rattle.check_findings.specs.Areas.{HasFirstAreas};
ghost use Rattle.check_findings.specs.MapFindings.{namesake};
ghost use Rattle.check_changes.specs.Areas.{is_first_of_name};

use crate::images::Both;
use check_findings::{AreaNames, NumberedArea};
use std::alloc::{AllocError, Global};

/// The areas of a map, and the first area of each name.
#[derive(Drop)]
pub struct NamedAreas<'a> {
    pub all: &'a [NumberedArea],
    names: AreaNames<'a>,
    ghost notes: { HasFirstAreas names all.now } by { Prim.hlevel props },
}

/// The areas of both maps.
pub type NamedBoth<'a> = Both<NamedAreas<'a>>;

impl<'a> NamedAreas<'a> {
    /// Returns these areas with an index of their names, or an error if an allocation failed.
    pub fn of(alloc: Global, all: &'a [NumberedArea]) -> Result<NamedAreas<'a>, AllocError>
        ensures { IfOk result (λ areas. areas.all.now ≡ all.now) }
    {
        let names = AreaNames::of(alloc, all)?;
        Ok(NamedAreas { all, names })
    }

    /// Returns the first area with this area's name.
    pub fn namesake(&self, area: &'a NumberedArea) -> Option<NumberedArea>
        ensures { result ≡ namesake area.now self.now.all.now }
    {
        self.names.get(area.area.text())
    }

    /// Returns whether the area is the first of its name.
    pub fn is_first(&self, area: &'a NumberedArea) -> bool
        ensures { result ≡ is_first_of_name self.now.all.now area.now }
    {
        self.namesake(area)
            .is_some_and(|first| first.number == area.number)
    }
}
