//! Slots of vboot whose signed bytes an update changes, but not their signatures.
ghost use Rattle.std.specs.Prelude.{◌≡◌, ◌+◌, ◌*◌, ◌/◌, map, IfSome};
ghost use Rattle.std.specs.Str.{bytes_eq};
ghost use Rattle.check_changes.specs.Images.{HasCompared, LieWithin, OnBoth, lengths};
ghost use Rattle.check_report.specs.Effects.{Adds};
ghost use Rattle.check_report.specs.Rows.{seen_row};
ghost use Rattle.check_report.specs.SlotChanges.{both_pass, differ_within, is_outdated};
ghost use Rattle.check_report.specs.SlotChanges.{if_outdated, mapped, outdated_row};
ghost use Rattle.check_report.specs.SlotChanges.{outdated_slots, ranges_named, signed_in};
ghost use Rattle.check_findings.specs.Lists.{Gains};
ghost use Rattle.flash_device.specs.Pages.{Lists, Returns};

use crate::fault::WriteFault;
use crate::rows::{Row, RowWriter, Verdict};
use board_findings::{BoardFinding, Slot, SlotFinding, region_named};
use board_structures::SignedSlot;
use check_changes::{Areas, ChangeFault, Images, Lengths, RegionPair, same_bytes};
use check_findings::push_if;
use flash_device::{Flash, Region, Sink};
use std::alloc::Global;

/// Returns the first areas with this name, if both lie inside their images.
fn regions_named(areas: Areas<'_>, name: &[u8], lens: Lengths) -> Option<RegionPair>
    ensures regions { result
        ≡ ranges_named lens areas.entry.old.now areas.entry.new.now name.now }
    ensures inside { IfSome result (LieWithin lens) }
{
    let old = region_named(areas.old, name, lens.old)?;
    let new = region_named(areas.new, name, lens.new)?;
    Some(RegionPair { old, new })
}

/// Returns whether both images have the area, with the same bytes.
fn is_kept<F: Flash, G: Flash>(
    images: &mut Images<F, G>,
    areas: Areas<'_>,
    name: &[u8],
) -> Result<bool, ChangeFault>
    ensures calls { HasCompared (1 + (lengths images.old).new / 4096)
        images.old images.new result }
    ensures kept { OnBoth images.old (λ x y. Returns result
        (both_pass bytes_eq (mapped x areas.entry.old.now) (mapped y areas.entry.new.now)
        name.now)) }
{
    let Some(regions) = regions_named(areas, name, images.lengths()) else {
        return Ok(false);
    };
    if regions.old.size() != regions.new.size() {
        return Ok(false);
    }
    same_bytes(images, regions)
}

/// Returns whether both images have the area with at least n bytes, and its first n bytes differ.
fn differ_within<F: Flash, G: Flash>(
    images: &mut Images<F, G>,
    areas: Areas<'_>,
    name: &[u8],
    n: u64,
) -> Result<bool, ChangeFault>
    ensures calls { HasCompared (1 + (lengths images.old).new / 4096)
        images.old images.new result }
    ensures differ { OnBoth images.old (λ x y. Returns result
        (both_pass (differ_within n) (mapped x areas.entry.old.now) (mapped y areas.entry.new.now)
        name.now)) }
{
    let lens = images.lengths();
    let Some(regions) = regions_named(areas, name, lens) else {
        return Ok(false);
    };
    if regions.old.size() < n || regions.new.size() < n {
        return Ok(false);
    }
    let old = Region::within(regions.old.start(), n, lens.old);
    let new = Region::within(regions.new.start(), n, lens.new);
    let (Some(old), Some(new)) = (old, new) else {
        unreachable!()
    };
    Ok(!same_bytes(images, RegionPair { old, new })?)
}

/// Returns whether both images have the same signatures of a slot, and different bytes among the n
/// signed ones.
fn is_outdated<F: Flash, G: Flash>(
    images: &mut Images<F, G>,
    areas: Areas<'_>,
    slot: Slot,
    n: u64,
) -> Result<bool, ChangeFault>
    ensures calls { HasCompared (2 + 2 * ((lengths images.old).new / 4096))
        images.old images.new result }
    ensures outdated { OnBoth images.old (λ x y. Returns result
        (is_outdated (mapped x areas.entry.old.now) (mapped y areas.entry.new.now) slot n)) }
{
    if !is_kept(images, areas, slot.block_name())? {
        return Ok(false);
    }
    differ_within(images, areas, slot.body_name(), n)
}

/// Returns the number of bytes that a slot's signatures sign, by the findings about a board.
fn signed_in(findings: &[BoardFinding], wanted: Slot) -> Option<u64>
    ensures { result ≡ signed_in wanted findings.now }
{
    for finding in findings {
        if let BoardFinding::Slot(SlotFinding { slot, state }) = finding {
            if let (true, SignedSlot::Sound(len)) = (wanted == *slot, state) {
                return Some(u64::from(*len));
            }
        }
    }
    None
}

/// Appends a slot if it is outdated.
fn push_if_outdated<F: Flash, G: Flash>(
    slots: &mut Vec<Slot>,
    images: &mut Images<F, G>,
    areas: Areas<'_>,
    findings: &[BoardFinding],
    slot: Slot,
) -> Result<(), ChangeFault>
    ensures calls { HasCompared (2 + 2 * ((lengths images.old).new / 4096))
        images.old images.new result }
    ensures slots { OnBoth images.old (λ x y. Gains slots.old slots.new result (if_outdated
        (mapped x areas.entry.old.now) (mapped y areas.entry.new.now) findings.now slot)) }
{
    let Some(len) = signed_in(findings, slot) else {
        return Ok(());
    };
    let is_outdated = is_outdated(images, areas, slot, len)?;
    Ok(push_if(slots, is_outdated, slot)?)
}

/// Returns the slots whose signed bytes differ from those of the old image, and whose signatures do
/// not, by the findings about the board of the new image. Returns `OldDevice` or `NewDevice`
/// exactly if that device refused a read.
pub fn outdated_slots<F: Flash, G: Flash>(
    alloc: Global,
    images: &mut Images<F, G>,
    areas: Areas<'_>,
    findings: &[BoardFinding],
) -> Result<Vec<Slot>, ChangeFault>
    ensures calls { HasCompared (4 + 4 * ((lengths images.old).new / 4096))
        images.old images.new result }
    ensures slots { OnBoth images.old (λ x y. Lists result (outdated_slots
        (mapped x areas.entry.old.now) (mapped y areas.entry.new.now) findings.now)) }
{
    let mut slots = Vec::new(alloc);
    push_if_outdated(&mut slots, images, areas, findings, Slot::A)?;
    push_if_outdated(&mut slots, images, areas, findings, Slot::B)?;
    Ok(slots)
}

/// Returns the row of an outdated slot.
fn outdated_row<'a>(slot: Slot) -> Row<'a>
    ensures { seen_row result ≡ outdated_row slot }
{
    let what = "signed bytes changed, but not the signatures";
    let row = Verdict::Bad.row("slot-outdated", what);
    row.in_area(slot.block_name())
}

/// Adds a row for each outdated slot, in order. Returns `Output` if the sink failed, and `Memory`
/// if an allocation failed.
pub fn add_outdated_slots<W: Sink + Drop>(
    rows: &mut RowWriter<W>,
    slots: &[Slot],
) -> Result<(), WriteFault>
    ensures { Adds W.Sink result rows.old rows.new (map outdated_row slots.now) }
{
    for slot in slots {
        rows.add(outdated_row(*slot))?;
    }
    Ok(())
}
