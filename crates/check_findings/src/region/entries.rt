//! The region check.
ghost use Rattle.std.specs.Prelude.{◌+◌, ◌/◌};
ghost use Rattle.flash_device.specs.Pages.{OnHonestIn, Lists, HasReadBy};
ghost use Rattle.flash_device.specs.Regions.{LiesOn};
ghost use Rattle.cbfs_walk.specs.Cells.{IsCellOn, IsCellIn, cell_in};
ghost use Rattle.cbfs_walk.specs.Walks.{StandsIn};
ghost use Rattle.check_findings.specs.Faults.{by_device};
ghost use Rattle.check_findings.specs.Lists.{Gains};
ghost use Rattle.check_findings.specs.RegionFindings.{cell_findings, region_findings};
ghost use Rattle.check_findings.specs.RegionFindings.{walk_findings};

use crate::fault::CheckFault;
use crate::lists::push_if;
use crate::region::attributes::attribute_fault;
use crate::region::entry_counts::EntryCounts;
use crate::region::finding::{Content, HashFinding, Name, RegionFinding};
use crate::region::shadows::mark_shadowed;
use crate::region::tail::push_tail;
use cbfs_anchor::first_hash;
use cbfs_walk::{
    Cell, Step, Walk, WalkFault, cells_stand_in_their_image, check_hash, name, packing,
};
use flash_device::{Flash, Paged, Region};
use std::alloc::Global;
use std::hash::RandomState;

fn push_cell<F: Flash>(
    alloc: Global,
    paged: &mut Paged<F>,
    region: Region,
    cell: &Cell,
    findings: &mut Vec<RegionFinding>,
) -> Result<(), CheckFault>
    requires { IsCellOn IsCellIn region cell.now paged.old.device }

    ensures calls { HasReadBy by_device (5 + cell.now.span / 960) paged.old paged.new result }
    ensures found { OnHonestIn paged.old.device region (λ x. StandsIn x cell.now → Gains
        findings.old findings.new result (cell_findings cell.now.at (cell_in x cell.now))) }
{
    cells_stand_in_their_image();
    if cell.head.is_free() {
        let is_deleted = cell.head.kind == 0;
        return Ok(push_if(findings, is_deleted, RegionFinding::Deleted { at: cell.at })?);
    }
    let mut field = [0; 256];
    let len = name(paged, region, cell, &mut field)?;
    let compression = packing(paged, region, cell)?;
    let stored = first_hash(paged, region, cell)?;
    let fault = attribute_fault(paged, region, cell)?;
    let state = check_hash(paged, region, cell)?;
    let content = Content {
        start: cell.at + u64::from(cell.head.offset),
        kind: cell.head.kind,
        len: cell.head.len,
        compression,
        hash: HashFinding::of(state),
        stored,
        fault,
    };
    Ok(findings.push(RegionFinding::Component {
        at: cell.at,
        name: Name::copied(alloc, &field[..len])?,
        is_shadowed: false,
        content,
    })?)
}

/// Returns the findings of a region, entry by entry, without marks of shadowed components.
fn walk_region<F: Flash>(
    alloc: Global,
    paged: &mut Paged<F>,
    region: Region,
) -> Result<Vec<RegionFinding>, CheckFault>
    requires { LiesOn region paged.old.device }

    ensures calls { HasReadBy by_device (region.size / 10 + 2) paged.old paged.new result }
    ensures findings { OnHonestIn paged.old.device region (λ x. Lists result (walk_findings x)) }
{
    let mut findings = Vec::new(alloc);
    let mut count = EntryCounts::new(region.size());
    let mut walk = Walk::new(region);
    loop {
        match walk.next(paged) {
            Ok(Step::Cell(cell)) => {
                push_cell(alloc, paged, region, &cell, &mut findings)?;
                count = count.with(&cell);
            }
            Ok(Step::Tail(_)) => {
                push_tail(paged, region, count.at, &mut findings)?;
                return Ok(count.counts_at_end(findings)?);
            }
            Ok(Step::End) => {
                findings.push(RegionFinding::Complete)?;
                return Ok(count.counts_at_end(findings)?);
            }
            Err(WalkFault::Damaged { at, kind }) => {
                findings.push(RegionFinding::Damaged { at, kind })?;
                return Ok(count.counts_at_end(findings)?);
            }
            Err(WalkFault::RegionShape) => {
                findings.push(RegionFinding::BadSize)?;
                return Ok(findings);
            }
            Err(WalkFault::NotCbfs) => {
                findings.push(RegionFinding::NotCbfs)?;
                return Ok(findings);
            }
            Err(WalkFault::Device) => return Err(CheckFault::Device),
        }
    }
}

/// Returns the findings of a region, entry by entry. The hash keys don't change them. Returns
/// `Device` exactly if a read failed, and `Memory` if an allocation failed.
pub fn check_region<F: Flash>(
    alloc: Global,
    keys: RandomState,
    paged: &mut Paged<F>,
    region: Region,
) -> Result<Vec<RegionFinding>, CheckFault>
    requires { LiesOn region paged.old.device }

    // On any device.
    ensures calls { HasReadBy by_device (region.size / 10 + 2) paged.old paged.new result }

    // On an honest device.
    ensures findings { OnHonestIn paged.old.device region (λ x. Lists result (region_findings x)) }
{
    let mut findings = walk_region(alloc, paged, region)?;
    mark_shadowed(alloc, keys, &mut findings)?;
    Ok(findings)
}
