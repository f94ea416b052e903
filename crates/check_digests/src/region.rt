//! The digests of the components of a region.
ghost use Rattle.std.specs.Prelude.{◌≡◌, ◌+◌, ◌/◌};
ghost use Rattle.flash_device.specs.Pages.{HasReadBy, OnHonestIn};
ghost use Rattle.flash_device.specs.Regions.{LiesOn};
ghost use Rattle.cbfs_walk.specs.Cells.{IsCellIn, IsCellOn, PassesChecks, cell_in};
ghost use Rattle.cbfs_walk.specs.Cells.{content_end, content_start};
ghost use Rattle.cbfs_walk.specs.Hashes.{content_at};
ghost use Rattle.cbfs_walk.specs.Walks.{ReadsIn, StandsIn};
ghost use Rattle.check_digests.specs.Digests.{cell_digests, content_digest, region_digests};
ghost use Rattle.check_digests.specs.Digests.{compared};
ghost use Rattle.check_findings.specs.Faults.{by_device};
ghost use Rattle.check_findings.specs.Lists.{Gains};

use crate::digests::ComponentDigests;
use cbfs_walk::{
    Cell, HashState, Step, Walk, WalkFault, cells_stand_in_their_image, check_hash, piece_in,
};
use check_findings::{CheckFault, push};
use flash_device::{Flash, FlashFault, Paged, Region};
use flash_format::Digest;
use sha2::{Digest as _, Sha256};
use std::alloc::Global;

/// Bytes per read. Ordered reads of up to 256 bytes cost one device call per window.
const HASHED_AT_ONCE: u64 = 256;

/// Returns the stored digest that a check compared.
fn compared(state: HashState) -> Option<Digest>
    ensures { result ≡ compared state }
{
    match state {
        HashState::Valid(digest) | HashState::Invalid(digest) => Some(digest),
        HashState::Absent | HashState::Unsupported => None,
    }
}

/// Returns SHA-256 of the content.
#[tactic(auto, using(cbfs_walk::proofs::Checks::content_fits))]
fn content_digest<F: Flash>(
    paged: &mut Paged<F>,
    region: Region,
    cell: &Cell,
) -> Result<[u8; 32], FlashFault>
    requires { IsCellOn PassesChecks region cell.now paged.old.device }

    ensures { ReadsIn region (content_start cell.now) (content_end cell.now) paged.old paged.new
        result (λ x digest. digest ≡ content_digest (content_at x cell.now)) }
{
    let mut hasher = Sha256::new();
    let mut at = cell.at + u64::from(cell.head.offset);
    let end = at + u64::from(cell.head.len);
    while at < end {
        let n = (end - at).min(HASHED_AT_ONCE);
        let bytes = piece_in(paged, region, at, n as usize)?;
        hasher.update(bytes);
        at += n;
    }
    Ok(hasher.finalize())
}

/// Appends the digests of a component. An empty entry has none.
fn push_digests<F: Flash>(
    alloc: Global,
    paged: &mut Paged<F>,
    region: Region,
    cell: &Cell,
    all: &mut Vec<ComponentDigests>,
) -> Result<(), CheckFault>
    requires { IsCellOn IsCellIn region cell.now paged.old.device }

    ensures calls { HasReadBy by_device (2 + cell.now.span / 1920) paged.old paged.new result }
    ensures digests { OnHonestIn paged.old.device region (λ x. StandsIn x cell.now →
        Gains all.old all.new result (cell_digests cell.now.at (cell_in x cell.now))) }
{
    cells_stand_in_their_image();
    if cell.head.is_free() {
        return Ok(());
    }
    let state = check_hash(paged, region, cell)?;
    let content = content_digest(paged, region, cell)?;
    let digests = ComponentDigests::new(alloc, compared(state), content)?;
    Ok(push(all, digests)?)
}

/// Appends the digests of the components of a region, up to a damage.
pub fn push_region<F: Flash>(
    alloc: Global,
    paged: &mut Paged<F>,
    region: Region,
    all: &mut Vec<ComponentDigests>,
) -> Result<(), CheckFault>
    requires { LiesOn region paged.old.device }

    ensures calls { HasReadBy by_device (region.size / 20 + 2) paged.old paged.new result }
    ensures digests { OnHonestIn paged.old.device region
        (λ x. Gains all.old all.new result (region_digests x)) }
{
    let mut walk = Walk::new(region);
    loop {
        match walk.next(paged) {
            Ok(Step::Cell(cell)) => push_digests(alloc, paged, region, &cell, all)?,
            Ok(Step::Tail(_)) => return Ok(()),
            Ok(Step::End) => return Ok(()),
            Err(fault) => match fault {
                WalkFault::Device => return Err(CheckFault::Device),
                _ => return Ok(()),
            },
        }
    }
}
