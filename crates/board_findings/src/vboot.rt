//! The structures of vboot.
ghost use Rattle.std.specs.Prelude.{◌+◌, ◌*◌, ◌/◌, length};
ghost use Rattle.flash_device.specs.Pages.{HasReadBy, OnHonest, Returns};
ghost use Rattle.check_findings.specs.Faults.{by_device};
ghost use Rattle.check_findings.specs.Lists.{Gains};
ghost use Rattle.board_findings.specs.BoardFindings.{gbb_part, slot_body, slot_part};

use crate::area::region_named;
use crate::components::{components_in, last_end};
use crate::finding::{BoardFinding, Slot, SlotFinding};
use board_structures::{SlotBody, read_gbb, read_signed_slot};
use check_findings::{CheckFault, NumberedArea};
use flash_device::{Flash, Paged};
use std::alloc::Global;

/// Appends the finding about the Google Binary Block, if the area GBB lies inside the image.
pub fn push_gbb<F: Flash>(
    paged: &mut Paged<F>,
    areas: &[NumberedArea],
    findings: &mut Vec<BoardFinding>,
) -> Result<(), CheckFault>
    ensures after { HasReadBy by_device (length paged.old.device.content / 4096 + 5)
        paged.old paged.new result }
    ensures found { OnHonest paged.old.device (λ image. Gains findings.old findings.new result
        (gbb_part (record { image = image; areas = areas.now }))) }
{
    let Some(area) = region_named(areas, b"GBB", paged.len()) else {
        return Ok(());
    };
    let state = read_gbb(paged, area)?;
    Ok(findings.push(BoardFinding::Gbb(state))?)
}

/// Returns the size of a slot's body, and the end of its last component's entry.
fn slot_body<F: Flash>(
    alloc: Global,
    paged: &mut Paged<F>,
    areas: &[NumberedArea],
    slot: Slot,
) -> Result<SlotBody, CheckFault>
    ensures calls { HasReadBy by_device (length paged.old.device.content / 60 + 1)
        paged.old paged.new result }
    ensures body { OnHonest paged.old.device (λ image.
        Returns result (slot_body (record { image = image; areas = areas.now }) slot)) }
{
    let Some(region) = region_named(areas, slot.body_name(), paged.len()) else {
        return Ok(SlotBody { end: 0, size: 0 });
    };
    let components = components_in(alloc, paged, region)?;
    let end = last_end(&components);
    let size = region.size();
    Ok(SlotBody { end, size })
}

/// Appends the finding about a slot, if the area with the slot's signatures lies inside the image.
pub fn push_slot<F: Flash>(
    alloc: Global,
    paged: &mut Paged<F>,
    areas: &[NumberedArea],
    slot: Slot,
    findings: &mut Vec<BoardFinding>,
) -> Result<(), CheckFault>
    ensures after { HasReadBy by_device (length paged.old.device.content / 60
        + 2 * (length paged.old.device.content / 4096) + 7) paged.old paged.new result }
    ensures found { OnHonest paged.old.device (λ image. Gains findings.old findings.new result
        (slot_part slot (record { image = image; areas = areas.now }))) }
{
    let Some(area) = region_named(areas, slot.block_name(), paged.len()) else {
        return Ok(());
    };
    let body = slot_body(alloc, paged, areas, slot)?;
    let state = read_signed_slot(paged, area, body)?;
    Ok(findings.push(BoardFinding::Slot(SlotFinding { slot, state }))?)
}
