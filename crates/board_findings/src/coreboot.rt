//! The reset vector, the firmware interface table and the master header, by the bootblock and the
//! other components of COREBOOT.
ghost use Rattle.std.specs.Prelude.{◌≡◌, ◌+◌, ◌/◌, ◌^◌, ◌<◌, ◌∷◌, ◌++◌, ◌&&◌, [], length, ◌==◌, if◌then◌else◌};
ghost use Rattle.std.specs.Option.{option_map_or};
ghost use Rattle.flash_device.specs.Pages.{HasReadBy, OnHonest};
ghost use Rattle.flash_device.specs.Regions.{LiesOn, bytes_in};
ghost use Rattle.check_findings.specs.Faults.{by_device};
ghost use Rattle.check_findings.specs.Lists.{Gains, only_if};
ghost use Rattle.board_structures.specs.FirmwareTables.{firmware_table_in, table_reads};
ghost use Rattle.board_structures.specs.MasterHeaders.{master_header_in};
ghost use Rattle.board_structures.specs.ResetVectors.{reset_vector_in};
ghost use Rattle.board_findings.specs.BoardFindings.{Board, firmware_table_part, master_header_part, reset_vector_part, table_findings};
ghost use Rattle.board_findings.specs.declared.finding.BoardFinding.TheVariants as found;

use crate::area::region_named;
use crate::components::{Placed, components_in, first_header, has_bootblock_to};
use crate::finding::{BoardFinding, HeaderFinding};
use board_structures::{FirmwareTable, read_firmware_table, read_master_header, read_reset_vector};
use check_findings::{CheckFault, NumberedArea};
use flash_device::{Flash, Paged};
use flash_map::Region;
use std::alloc::Global;

/// Returns whether the image has a bootblock of x86: COREBOOT, with the range `region`, ends both
/// with a bootblock and with the image of `image_len` bytes.
fn is_x86(region: Region, image_len: u64, ends_with_bootblock: bool) -> bool
    requires { region.start + region.size < 2 ^ 64 }
    ensures { result ≡ (region.start + region.size == image_len && ends_with_bootblock) }
{
    region.start() + region.size() == image_len && ends_with_bootblock
}

/// Appends the finding about the reset vector under a bootblock of x86.
fn push_reset_vector<F: Flash>(
    paged: &mut Paged<F>,
    is_x86: bool,
    findings: &mut Vec<BoardFinding>,
) -> Result<(), CheckFault>
    ensures after { HasReadBy by_device 1 paged.old paged.new result }
    ensures found { OnHonest paged.old.device (λ image. Gains findings.old findings.new result
        (only_if is_x86 (found.ResetVector (reset_vector_in image)))) }
{
    if is_x86 {
        let state = read_reset_vector(paged)?;
        findings.push(BoardFinding::ResetVector(state))?;
    }
    Ok(())
}

/// Appends the finding about the firmware interface table under a bootblock of x86, unless the
/// table is absent.
fn push_firmware_table<F: Flash>(
    paged: &mut Paged<F>,
    is_x86: bool,
    findings: &mut Vec<BoardFinding>,
) -> Result<(), CheckFault>
    requires { length paged.old.device.content < 2 ^ 32 }

    ensures after { HasReadBy by_device (table_reads (length paged.old.device.content) + 3)
        paged.old paged.new result }
    ensures found { OnHonest paged.old.device (λ image. Gains findings.old findings.new result
        (if is_x86 then table_findings (firmware_table_in image) else [])) }
{
    if !is_x86 {
        return Ok(());
    }
    match read_firmware_table(paged)? {
        FirmwareTable::Absent => Ok(()),
        state => Ok(findings.push(BoardFinding::FirmwareTable(state))?),
    }
}

/// Appends the finding about the first master header of COREBOOT, if any.
fn push_master_header<F: Flash>(
    paged: &mut Paged<F>,
    region: Region,
    ends_with_bootblock: bool,
    header: Option<Placed>,
    findings: &mut Vec<BoardFinding>,
) -> Result<(), CheckFault>
    requires { LiesOn region paged.old.device }

    ensures after { HasReadBy by_device 2 paged.old paged.new result }
    ensures found { OnHonest paged.old.device (λ image. Gains findings.old findings.new result
        (option_map_or (λ c. found.MasterHeader (record {
          state = master_header_in region.start c.start (bytes_in region image);
          ends_with_bootblock = ends_with_bootblock;
        }) ∷ []) header [])) }
{
    let Some(header) = header else {
        return Ok(());
    };
    let state = read_master_header(paged, region, header.start)?;
    Ok(findings.push(BoardFinding::MasterHeader(HeaderFinding {
        state,
        ends_with_bootblock,
    }))?)
}

/// Appends the findings about the reset vector, the firmware interface table and the master header.
pub fn push_coreboot<F: Flash>(
    alloc: Global,
    paged: &mut Paged<F>,
    areas: &[NumberedArea],
    findings: &mut Vec<BoardFinding>,
) -> Result<(), CheckFault>
    ensures after { HasReadBy by_device (table_reads (length paged.old.device.content)
        + length paged.old.device.content / 60 + 7) paged.old paged.new result }
    ensures found { OnHonest paged.old.device (λ image.
        let board : Board = record { image = image; areas = areas.now } in
        Gains findings.old findings.new result
        (reset_vector_part board ++ firmware_table_part board ++ master_header_part board)) }
{
    let Some(region) = region_named(areas, b"COREBOOT", paged.len()) else {
        return Ok(());
    };
    let components = components_in(alloc, paged, region)?;
    let is_end = has_bootblock_to(&components, region.size());
    let header = first_header(&components);
    let is_x86 = is_x86(region, paged.len(), is_end);
    push_reset_vector(paged, is_x86, findings)?;
    push_firmware_table(paged, is_x86, findings)?;
    push_master_header(paged, region, is_end, header, findings)
}
