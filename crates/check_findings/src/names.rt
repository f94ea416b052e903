//! Areas by name.

ghost use Rattle.std.specs.Prelude.{◌≡◌, [], ◌∷◌, ◌++◌, List, IfOk, OnOk};
ghost use Rattle.check_findings.specs.declared.areas.NumberedArea.{NumberedArea};

use crate::areas::NumberedArea;
use std::alloc::{AllocError, Global};
use std::collections::BTreeMap;

/// The first area of each name.
#[derive(Drop)]
pub struct AreaNames<'a> {
    first: BTreeMap<&'a [u8], NumberedArea>,
}

impl<'a> AreaNames<'a> {
    ghost use Rattle.check_findings.specs.Areas.{area_for, HasFirstAreas};

    /// Returns the names of these areas.
    pub fn of(alloc: Global, areas: &'a [NumberedArea]) -> Result<AreaNames<'a>, AllocError>
        ensures { IfOk result (λ names. HasFirstAreas names areas.now) }
    {
        let mut names = AreaNames {
            first: BTreeMap::new(alloc),
        };
        for area in areas {
            names.add(area)?;
        }
        Ok(names)
    }

    /// Returns the first area with the name.
    pub fn get(&self, name: &'a [u8]) -> Option<NumberedArea>
        ensures { result ≡ area_for self.now name.now }
    {
        self.first.get(&name).copied()
    }

    fn add(&mut self, area: &'a NumberedArea) -> Result<(), AllocError>
        ensures { (before : List NumberedArea) → HasFirstAreas self.old before →
            OnOk result (HasFirstAreas self.new (before ++ area.now ∷ [])) }
    {
        let name = area.area.text();
        if self.get(name).is_none() {
            self.first.insert(name, *area)?;
        }
        Ok(())
    }
}
