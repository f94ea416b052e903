//! Lists of area names.
ghost use Rattle.std.specs.Prelude.{◌≡◌, ◌++◌, ◌&&◌, map, IfOk};
ghost use Rattle.std.proofs.Props.{props};
ghost use Rattle.check_findings.specs.ImageFindings.{has_one_of, is_named_in};
ghost use Rattle.check_findings.specs.declared.areas.NumberedArea.{NumberedArea};
ghost use Rattle.check_report.specs.Reports.{is_preserved, kept_names};
ghost use Rattle.check_report.specs.Rows.{area_name, names_in};

use crate::inspection::Changes;
use crate::request::Request;
use check_findings::{NameSet, Need, NumberedArea};
use std::alloc::{AllocError, Global};

/// Names of areas in order, and the same names for searches.
#[derive(Drop)]
pub struct KnownNames<'a> {
    pub names: Vec<&'a [u8]>,
    set: NameSet<'a>,
    ghost same: { (area : NumberedArea) →
        is_named_in set area ≡ has_one_of (names_in names.items) area } by { Prim.hlevel props },
}

impl<'a> KnownNames<'a> {
    /// Returns a table of these names, or an error if an allocation failed.
    pub fn of(alloc: Global, names: Vec<&'a [u8]>) -> Result<KnownNames<'a>, AllocError>
        ensures { IfOk result (λ known. known.names.items ≡ names.entry.items) }
    {
        let mut set = NameSet::new(alloc);
        set.add_all(&names)?;
        Ok(KnownNames { names, set })
    }

    /// Returns whether the area has one of the names.
    pub fn have(&self, area: &NumberedArea) -> bool
        ensures { result ≡ has_one_of (names_in self.now.names.items) area.now }
    {
        self.set.contains(area)
    }
}

/// Returns the area names of the needs, in order, or an error if an allocation failed.
pub fn need_areas<'a>(alloc: Global, needs: &[Need<'a>]) -> Result<Vec<&'a [u8]>, AllocError>
    ensures { IfOk result (λ names. names_in names.items ≡ map (λ n. n.area.now) needs.now) }
{
    needs.iter().map(|need| need.area).collect(alloc)
}

/// Returns these names, and the names of these areas.
pub fn with_areas<'a>(
    alloc: Global,
    more: &[&'a [u8]],
    areas: &'a [NumberedArea],
) -> Result<Vec<&'a [u8]>, AllocError>
    ensures { IfOk result (λ names. names_in names.items ≡ names_in more.now
        ++ map area_name areas.now) }
{
    let areas = areas.iter().map(|area| area.area.text());
    more.iter().map(|name| *name).chain(areas).collect(alloc)
}

const PRESERVE: u16 = 8;

/// Returns whether the area has the flag PRESERVE.
pub fn is_preserved(area: &NumberedArea) -> bool
    ensures { result ≡ is_preserved area.now }
{
    area.area.flags % (2 * PRESERVE) >= PRESERVE
}

fn is_preserved_if(keeps_preserved: bool, area: &NumberedArea) -> bool
    ensures { result ≡ (keeps_preserved && is_preserved area.now) }
{
    keeps_preserved && is_preserved(area)
}

/// Returns the names of areas that must not change: the given names and, on request, of areas with
/// the flag PRESERVE in either map.
pub fn kept_names<'a>(
    alloc: Global,
    request: Request<'a>,
    new_areas: &'a [NumberedArea],
    changes: &'a Changes,
) -> Result<Vec<&'a [u8]>, AllocError>
    ensures { IfOk result (λ names. names_in names.items
        ≡ kept_names request.entry new_areas.now changes.now) }
{
    let areas = changes.old.areas_or(new_areas).iter().chain(new_areas);
    let areas = areas.filter(|area| is_preserved_if(request.keeps_preserved, area));
    let names = areas.map(|area| area.area.text());
    let given = request.kept.iter().map(|name| *name);
    given.chain(names).collect(alloc)
}
