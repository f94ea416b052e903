//! Pairs of areas.
ghost use Rattle.std.specs.Prelude.{◌≡◌, ◌≤◌, length, IfSome, IfOk};
ghost use Rattle.std.specs.List.{flat_map};
ghost use Rattle.check_findings.specs.Lists.{Gains};
ghost use Rattle.check_changes.specs.Areas.{pairs, gone_of, is_same_size};
ghost use Rattle.check_changes.specs.Areas.{regions_of, same_size_regions};
ghost use Rattle.check_changes.specs.Images.{LieWithin};
ghost use Rattle.flash_device.specs.Pages.{Lists};

use crate::areas::change::{AreaChange, AreaDifference};
use crate::areas::names::NamedBoth;
use crate::images::{Lengths, RegionPair};
use check_findings::{NumberedArea, push_if};
use flash_device::Region;
use std::alloc::{AllocError, Global};

/// An area of the new map, and the first old area with its name.
#[derive(Clone, Copy, Drop)]
pub struct AreaPair {
    pub old: Option<NumberedArea>,
    pub new: NumberedArea,
}

impl AreaPair {
    /// Returns the areas as regions, if they end inside images of these lengths.
    pub fn regions(&self, lens: Lengths) -> Option<RegionPair>
        ensures regions { result ≡ regions_of lens self.now }
        ensures inside { IfSome result (LieWithin lens) }
    {
        let (old, new) = (self.old?.area, self.new.area);
        let old = Region::within(u64::from(old.offset), u64::from(old.size), lens.old)?;
        let new = Region::within(u64::from(new.offset), u64::from(new.size), lens.new)?;
        Some(RegionPair { old, new })
    }

    /// Returns whether both areas have the same number of bytes. Returns false without an old area.
    pub fn is_same_size(&self) -> bool
        ensures { result ≡ is_same_size self.now }
    {
        self.old
            .is_some_and(|old| old.area.size == self.new.area.size)
    }

    /// Returns the regions, if the areas have one size.
    pub fn same_size_regions(&self, lens: Lengths) -> Option<RegionPair>
        ensures regions { result ≡ same_size_regions lens self.now }
        ensures inside { IfSome result (LieWithin lens) }
        ensures same_size { IfSome result (λ r. r.old.size ≡ r.new.size) }
    {
        if !self.is_same_size() {
            return None;
        }
        self.regions(lens)
    }
}

/// Returns the first new area of each name, in order, with its first old namesake.
pub fn pairs<'a>(alloc: Global, areas: &NamedBoth<'a>) -> Result<Vec<AreaPair>, AllocError>
    ensures found { Lists result (pairs areas.now.old.all.now areas.now.new.all.now) }
    ensures count { IfOk result (λ found. length found.items ≤ length areas.now.new.all.now) }
{
    let mut pairs = Vec::new(alloc);
    for area in areas.new.all {
        let pair = AreaPair {
            old: areas.old.namesake(area),
            new: *area,
        };
        push_if(&mut pairs, areas.new.is_first(area), pair)?;
    }
    Ok(pairs)
}

/// Pushes the old areas without a new namesake, the first of each name.
pub fn push_gone<'a>(changes: &mut Vec<AreaChange>, areas: &NamedBoth<'a>) -> Result<(), AllocError>
    ensures { Gains changes.old changes.new result
        (flat_map (gone_of areas.now.old.all.now areas.now.new.all.now) areas.now.old.all.now) }
{
    for area in areas.old.all {
        let is_gone = areas.old.is_first(area) && areas.new.namesake(area).is_none();
        let (area, what) = (*area, AreaDifference::Gone);
        push_if(changes, is_gone, AreaChange { area, what })?;
    }
    Ok(())
}
