//! Smallest sizes of areas by offset.
ghost use Rattle.std.specs.Prelude.{◌≡◌, ◌∷◌, [], ◌++◌, List, IfOk, OnOk};
ghost use Rattle.check_findings.specs.declared.areas.NumberedArea.{NumberedArea};
ghost use Rattle.check_findings.specs.ImageFindings.{has_smaller, knows_smaller};

use crate::areas::NumberedArea;
use std::alloc::{AllocError, Global};
use std::collections::BTreeMap;

/// The size of a minimal area with room for an entry.
const HEAD: u32 = 24;

/// The smallest size of an area with room for an entry, by offset.
#[derive(Drop)]
pub struct Starts {
    smallest: BTreeMap<u32, u32>,
}

impl Starts {
    /// Returns the smallest size at each offset of these areas, or an error if an allocation
    /// failed.
    pub fn of(alloc: Global, areas: &[NumberedArea]) -> Result<Starts, AllocError>
        ensures { IfOk result (λ starts. knows_smaller starts ≡ has_smaller areas.now) }
    {
        let mut starts = Starts {
            smallest: BTreeMap::new(alloc),
        };
        for area in areas {
            starts.add(area)?;
        }
        Ok(starts)
    }

    fn add(&mut self, area: &NumberedArea) -> Result<(), AllocError>
        ensures { (before : List NumberedArea) → knows_smaller self.old ≡ has_smaller before →
            OnOk result (knows_smaller self.new ≡ has_smaller (before ++ area.now ∷ [])) }
    {
        let size = area.area.size;
        if size >= HEAD && !self.has_smaller(area) {
            self.smallest.insert(area.area.offset, size)?;
        }
        Ok(())
    }

    /// Returns whether the table has a smaller area at the same offset.
    pub fn has_smaller(&self, area: &NumberedArea) -> bool
        ensures { result ≡ knows_smaller self.now area.now }
    {
        self.smallest
            .get(&area.area.offset)
            .is_some_and(|smallest| *smallest < area.area.size)
    }
}
