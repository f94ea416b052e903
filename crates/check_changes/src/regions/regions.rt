//! The changes of each region's components.
ghost use Rattle.std.specs.Prelude.{◌≡◌, ◌+◌, ◌-◌, ◌*◌, ◌^◌, ◌<◌, ◌≤◌, ◌++◌, List, length, OnOk};
ghost use Rattle.check_findings.specs.ImageFindings.{region_area, region_areas, sum_sizes};
ghost use Rattle.check_findings.specs.declared.areas.NumberedArea.{NumberedArea};
ghost use Rattle.check_changes.specs.Images.{OnBoth, lengths};
ghost use Rattle.check_changes.specs.Regions.{HasReadAreas, entry_ranges, region_changes, region_changes_in};
ghost use Rattle.flash_device.specs.Pages.{Lists};

use crate::areas::{AreaPair, NamedAreas};
use crate::components::component_changes;
use crate::fault::ChangeFault;
use crate::images::{Images, RegionPair, taken};
use crate::regions::change::{ComponentChanges, RegionChange};
use check_findings::{ImageFinding, NumberedArea, entry_region, push, push_if};
use flash_device::Flash;
use std::alloc::Global;
use std::hash::RandomState;

/// Returns the parts of two regions that entries can fill.
fn entry_regions(regions: RegionPair) -> RegionPair
    requires old { regions.old.start + regions.old.size < 2 ^ 64 }
    requires new { regions.new.start + regions.new.size < 2 ^ 64 }

    ensures { result ≡ entry_ranges regions }
{
    RegionPair {
        old: entry_region(regions.old),
        new: entry_region(regions.new),
    }
}

/// Pushes the changes of a region's components from the first old area of its name, if any. A
/// comparison subtracts the old area's size from `left`.
fn push_changes<'a, F: Flash, G: Flash>(
    alloc: Global,
    keys: RandomState,
    changes: &mut Vec<RegionChange>,
    images: &mut Images<F, G>,
    left: &mut u64,
    olds: &NamedAreas<'a>,
    finding: &'a ImageFinding,
) -> Result<(), ChangeFault>
    ensures fewer { left.new ≤ left.old }
    ensures calls { let areas = region_area finding.now in let bytes = sum_sizes areas in
        let compared = left.old - left.new in HasReadAreas
        (record { old_bytes = compared; new_bytes = bytes; count = length areas })
        images.old images.new result }
    ensures changes { OnBoth images.old (λ x y. OnOk result ((rest : List NumberedArea)
        → changes.new.items ++ region_changes_in left.new x y olds.now.all.now rest
        ≡ changes.old.items ++ region_changes_in left.old x y olds.now.all.now
        (region_area finding.now ++ rest))) }
{
    let ImageFinding::Region { area, .. } = finding else {
        return Ok(());
    };
    let pair = AreaPair {
        old: olds.namesake(area),
        new: *area,
    };
    let Some(regions) = taken(left, pair.regions(images.lengths())) else {
        let change = RegionChange::NotCompared(*area);
        return Ok(push_if(changes, pair.old.is_some(), change)?);
    };
    let found = component_changes(alloc, keys, images, entry_regions(regions))?;
    let change = RegionChange::Compared {
        area: *area,
        changes: ComponentChanges::new(found),
    };
    Ok(push(changes, change)?)
}

/// Returns the changes of components for each region in these findings, in order, from the first
/// old area of its name; none without a namesake. The compared old areas, nested or not, have at
/// most as many bytes as the old image. Returns `OldDevice` or `NewDevice` exactly if that device
/// refused a read.
pub fn region_changes<'a, F: Flash, G: Flash>(
    alloc: Global,
    keys: RandomState,
    images: &mut Images<F, G>,
    old_areas: &'a [NumberedArea],
    findings: &'a [ImageFinding],
) -> Result<Vec<RegionChange>, ChangeFault>
    requires total { sum_sizes (region_areas findings.now) ≤ 8 * (lengths images.old).new }

    // On any devices.
    ensures calls { let lens = lengths images.old in
        let count = length (region_areas findings.now) in
        HasReadAreas (record { old_bytes = lens.old; new_bytes = 8 * lens.new; count = count })
        images.old images.new result }

    // On honest devices.
    ensures changes { OnBoth images.old
        (λ x y. Lists result (region_changes x old_areas.now y findings.now)) }
{
    let olds = NamedAreas::of(alloc, old_areas)?;
    let mut left = images.lengths().old;
    let mut changes = Vec::new(alloc);
    for finding in findings {
        push_changes(alloc, keys, &mut changes, images, &mut left, &olds, finding)?;
    }
    Ok(changes)
}
