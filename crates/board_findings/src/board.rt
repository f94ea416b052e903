//! The check of a board.
ghost use Rattle.std.specs.Prelude.{length};
ghost use Rattle.flash_device.specs.Pages.{HasReadBy, Lists, OnHonest};
ghost use Rattle.check_findings.specs.Faults.{by_device};
ghost use Rattle.board_findings.specs.BoardFindings.{board_findings, board_reads};

use crate::coreboot::push_coreboot;
use crate::finding::{BoardFinding, Slot};
use crate::intel::{push_descriptor, push_partition_table};
use crate::vboot::{push_gbb, push_slot};
use check_findings::{CheckFault, NumberedArea};
use flash_device::{Flash, Paged};
use std::alloc::Global;

/// Returns the findings about each structure that the image has, in this order: the flash
/// descriptor and the areas that aren't its regions, the partition table of the Management Engine,
/// the reset vector, the master header, the Google Binary Block, and the slots A and B.
///
/// `areas` are the areas of the flash map. A structure is searched in the first area with its
/// name, if the area lies inside the image. No digest of a content is computed.
///
/// Returns `Device` exactly if the device refused a read, and `Memory` if an allocation failed.
pub fn check_board<F: Flash>(
    alloc: Global,
    paged: &mut Paged<F>,
    areas: &[NumberedArea],
) -> Result<Vec<BoardFinding>, CheckFault>
    // On any device.
    ensures after { HasReadBy by_device (board_reads (length paged.old.device.content))
        paged.old paged.new result }

    // On an honest device.
    ensures found { OnHonest paged.old.device (λ image. Lists result
        (board_findings (record { image = image; areas = areas.now }))) }
{
    let mut findings = Vec::new(alloc);
    push_descriptor(paged, areas, &mut findings)?;
    push_partition_table(paged, areas, &mut findings)?;
    push_coreboot(alloc, paged, areas, &mut findings)?;
    push_gbb(paged, areas, &mut findings)?;
    push_slot(alloc, paged, areas, Slot::A, &mut findings)?;
    push_slot(alloc, paged, areas, Slot::B, &mut findings)?;
    Ok(findings)
}
