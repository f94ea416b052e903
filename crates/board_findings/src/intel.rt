//! The files of Intel.
ghost use Rattle.std.specs.Prelude.{◌≡◌, ◌+◌, ◌/◌, [], length};
ghost use Rattle.std.specs.Option.{option_map, option_to_list};
ghost use Rattle.flash_device.specs.Pages.{HasReadBy, OnHonest};
ghost use Rattle.check_findings.specs.Faults.{by_device};
ghost use Rattle.check_findings.specs.Lists.{Gains};
ghost use Rattle.board_structures.specs.Descriptors.{difference_in, difference_of};
ghost use Rattle.board_findings.specs.BoardFindings.{areas_in, descriptor_part, differences_of, partition_table_part};

use crate::area::{first_area, region_named};
use crate::finding::BoardFinding;
use board_structures::{
    AreaDifference, Descriptor, DescriptorRegion, FlashRange, RegionTable, read_descriptor,
    read_partition_table,
};
use check_findings::{CheckFault, NumberedArea};
use flash_device::{Flash, Paged};
use std::alloc::AllocError;

fn difference_of(
    region: DescriptorRegion,
    described: FlashRange,
    area: FlashRange,
) -> Option<AreaDifference>
    ensures { result ≡ difference_of region described area }
{
    if described == area {
        return None;
    }
    Some(AreaDifference {
        region,
        described,
        area,
    })
}

/// Returns the difference between a region and the first area with the region's name, if any.
fn difference(
    areas: &[NumberedArea],
    table: &RegionTable,
    region: DescriptorRegion,
) -> Option<AreaDifference>
    ensures { result ≡ difference_in region table.now (areas_in areas.now) }
{
    let Some(described) = table.range(region) else {
        return None;
    };
    let Some(area) = first_area(areas, region.area_name()) else {
        return None;
    };
    let area = FlashRange {
        offset: area.area.offset,
        size: area.area.size,
    };
    difference_of(region, described, area)
}

/// Appends a finding for each region of `regions` that differs from the area with its name, by the
/// table of a descriptor.
fn push_differences(
    areas: &[NumberedArea],
    table: &RegionTable,
    regions: &[DescriptorRegion],
    findings: &mut Vec<BoardFinding>,
) -> Result<(), AllocError>
    ensures { Gains findings.old findings.new result
        (differences_of areas.now table.now regions.now) }
{
    for region in regions {
        if let Some(found) = difference(areas, table, *region) {
            findings.push(BoardFinding::Region(found))?;
        }
    }
    Ok(())
}

/// Appends the findings about the flash descriptor and about areas that differ from its regions, if
/// the area SI_DESC lies inside the image.
pub fn push_descriptor<F: Flash>(
    paged: &mut Paged<F>,
    areas: &[NumberedArea],
    findings: &mut Vec<BoardFinding>,
) -> Result<(), CheckFault>
    ensures after { HasReadBy by_device (length paged.old.device.content / 4096 + 2)
        paged.old paged.new result }
    ensures found { OnHonest paged.old.device (λ image. Gains findings.old findings.new result
        (descriptor_part (record { image = image; areas = areas.now }))) }
{
    let Some(area) = region_named(areas, b"SI_DESC", paged.len()) else {
        return Ok(());
    };
    let state = read_descriptor(paged, area)?;
    findings.push(BoardFinding::Descriptor(state))?;
    match &state {
        Descriptor::Described(table) => {
            let regions = &DescriptorRegion::ALL;
            Ok(push_differences(areas, table, regions, findings)?)
        }
        Descriptor::Blank => Ok(()),
        Descriptor::CutOff => Ok(()),
        Descriptor::NoSignature => Ok(()),
        Descriptor::TableOutside => Ok(()),
    }
}

/// Appends the finding about the partition table of the Management Engine, if the area SI_ME lies
/// inside the image.
pub fn push_partition_table<F: Flash>(
    paged: &mut Paged<F>,
    areas: &[NumberedArea],
    findings: &mut Vec<BoardFinding>,
) -> Result<(), CheckFault>
    ensures after { HasReadBy by_device (length paged.old.device.content / 4096 + 2)
        paged.old paged.new result }
    ensures found { OnHonest paged.old.device (λ image. Gains findings.old findings.new result
        (partition_table_part (record { image = image; areas = areas.now }))) }
{
    let Some(area) = region_named(areas, b"SI_ME", paged.len()) else {
        return Ok(());
    };
    let state = read_partition_table(paged, area)?;
    Ok(findings.push(BoardFinding::PartitionTable(state))?)
}
