//! The comparison of components.
ghost use Rattle.std.specs.Prelude.{◌≡◌, ◌+◌, ◌-◌, ◌/◌, ◌≤◌, ◌<◌, ◌^◌, slice_range};
ghost use Rattle.std.specs.Str.{bytes_eq};
ghost use Rattle.cbfs_walk.specs.Cells.{attributes_start, content_end, content_start};
ghost use Rattle.check_changes.specs.Components.{difference};
ghost use Rattle.check_changes.specs.Components.{IsListedIn};
ghost use Rattle.check_changes.specs.Images.{HasCompared, LieOn, OnBothIn};
ghost use Rattle.flash_device.specs.Pages.{Returns};

use crate::areas::blocks_of;
use crate::components::change::ComponentDifference;
use crate::components::listing::Listed;
use crate::fault::ChangeFault;
use crate::images::{Images, RegionPair};
use cbfs_walk::Cell;
use flash_device::{Flash, Region};
use std::ops::Range;

/// Returns the first difference between two components.
#[tactic(auto, using(crate::proofs::ComponentLemmas::ChangeLemmas::name_first))]
pub fn difference<F: Flash, G: Flash>(
    images: &mut Images<F, G>,
    regions: RegionPair,
    old: &Listed,
    new: &Listed,
) -> Result<Option<ComponentDifference>, ChangeFault>
    requires regions { LieOn images.old regions }
    requires listed { IsListedIn regions.old.size old.now × IsListedIn regions.new.size new.now }

    ensures calls { HasCompared (2 + new.now.cell.span / 4096) images.old images.new result }
    ensures difference { OnBothIn images.old regions
        (λ x y. Returns result (difference x y old.now.cell new.now.cell)) }
{
    let (old, new) = (&old.cell, &new.cell);
    if old.head.kind != new.head.kind {
        return Ok(Some(ComponentDifference::Type));
    }
    if old.head.len != new.head.len {
        return Ok(Some(ComponentDifference::Length));
    }
    let (a, b) = (content(old), content(new));
    if !same_range(images, regions, a, b)? {
        return Ok(Some(ComponentDifference::Content));
    }
    let (a, b) = (attributes(old), attributes(new));
    if !same_range(images, regions, a, b)? {
        return Ok(Some(ComponentDifference::Attributes));
    }
    Ok(None)
}

fn content(cell: &Cell) -> Range<u64>
    requires { cell.now.at + (cell.now.head.offset + cell.now.head.len) < 2 ^ 32 }
    ensures { result ≡ record { start = content_start cell.now; end = content_end cell.now } }
{
    let start = cell.at + u64::from(cell.head.offset);
    start..start + u64::from(cell.head.len)
}

fn attributes(cell: &Cell) -> Range<u64>
    requires { cell.now.at + cell.now.head.offset < 2 ^ 32 }
    ensures { result ≡ record { start = attributes_start cell.now; end = content_start cell.now } }
{
    let start = match cell.head.attributes_offset {
        0 => cell.head.offset,
        start => start,
    };
    cell.at + u64::from(start)..cell.at + u64::from(cell.head.offset)
}

/// Returns whether these ranges of the regions have equal bytes.
fn same_range<F: Flash, G: Flash>(
    images: &mut Images<F, G>,
    regions: RegionPair,
    old: Range<u64>,
    new: Range<u64>,
) -> Result<bool, ChangeFault>
    requires regions { LieOn images.old regions }
    requires old { (old.start ≤ old.end) × (old.end ≤ regions.old.size) }
    requires new { (new.start ≤ new.end) × (new.end ≤ regions.new.size) }

    ensures calls { HasCompared (1 + (new.end - new.start) / 4096) images.old images.new result }
    ensures same { OnBothIn images.old regions (λ x y. Returns result
        (bytes_eq (slice_range x old.start old.end) (slice_range y new.start new.end))) }
{
    let lens = images.lengths();
    let n = old.end - old.start;
    if n != new.end - new.start {
        return Ok(false);
    }
    let Some(old) = Region::within(regions.old.start() + old.start, n, lens.old) else {
        unreachable!()
    };
    let Some(new) = Region::within(regions.new.start() + new.start, n, lens.new) else {
        unreachable!()
    };
    same_bytes(images, RegionPair { old, new })
}

/// Returns whether two regions of one size have the same bytes. It ends at the first different
/// block. Returns `OldDevice` or `NewDevice` exactly if that device refused a read.
pub fn same_bytes<F: Flash, G: Flash>(
    images: &mut Images<F, G>,
    regions: RegionPair,
) -> Result<bool, ChangeFault>
    requires { LieOn images.old regions × (regions.old.size ≡ regions.new.size) }

    ensures calls { HasCompared (1 + regions.new.size / 4096) images.old images.new result }
    ensures same { OnBothIn images.old regions (λ x y. Returns result (bytes_eq x y)) }
{
    for number in 0..blocks_of(regions.new.size()) {
        if images.is_different(regions, number)? {
            return Ok(false);
        }
    }
    Ok(true)
}
