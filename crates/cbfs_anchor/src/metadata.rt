//! The metadata of a region, as a message of a hasher.
ghost use Rattle.std.specs.Prelude.{◌≡◌, ◌⊎◌, ℕ, ◌+◌, ◌/◌, ◌≤◌, drop, List, ◌++◌, IfOk, OnOk, Ok, Err, MatchResult};
ghost use Rattle.flash_format.specs.Components.{cell_attributes, component_at};
ghost use Rattle.flash_format.specs.Entry.{name_end};
ghost use Rattle.flash_device.specs.Pages.{HasAnswered, HasReadBy, IfFound, OnHonestIn};
ghost use Rattle.flash_device.specs.Regions.{LiesOn};
ghost use Rattle.cbfs_walk.specs.Cells.{IsCellOn, IsCellIn, IsComponentIn, cell_in};
ghost use Rattle.cbfs_walk.specs.Walks.{ReadsIn, ReadsCellAs, StandsIn, reads_over};
ghost use Rattle.cbfs_anchor.specs.Algorithms.{Holds, algorithm_of};
ghost use Rattle.cbfs_anchor.specs.Faults.{by_device};
ghost use Rattle.cbfs_anchor.specs.Metadata.{cell_metadata, component_fault, metadata_in, stored_hash, terminated};

use crate::algorithm::Algorithm;
use crate::demand::{Demand, LONGEST_METADATA, StoredHash, fault_of};
use crate::fault::SealFault;
use crate::hasher::Hasher;
use cbfs_walk::{
    Cell, Step, Walk, cells_stand_in_their_image, first_attribute, name_end, piece_in, value_at,
};
use flash_device::{Flash, FlashFault, Paged, Region};
use flash_format::AttrHead;

/// Bytes per read. Ordered reads of up to 256 bytes cost one device call per window.
const READ_AT_ONCE: u64 = 256;

/// Returns a component's first hash attribute.
#[tactic(auto, using(cbfs_walk::proofs::Checks::content_fits))]
pub fn first_hash<F: Flash>(
    paged: &mut Paged<F>,
    region: Region,
    cell: &Cell,
) -> Result<Option<StoredHash>, FlashFault>
    requires { IsCellOn IsComponentIn region cell.now paged.old.device }

    ensures calls { HasAnswered (reads_over cell.now.head.offset) paged.old paged.new result }
    ensures hash { ReadsCellAs paged.old region cell.now result
        (λ x. stored_hash (cell_attributes x)) }
{
    match first_attribute(paged, region, cell, AttrHead::HASH)? {
        Some((at, head)) => Ok(Some(StoredHash {
            number: value_at(paged, region, at + 8)?,
            len: head.len - 12,
        })),
        None => Ok(None),
    }
}

/// Returns a component's fault.
fn component_fault<F: Flash>(
    paged: &mut Paged<F>,
    region: Region,
    cell: &Cell,
    demand: Demand,
    algorithm: Algorithm,
) -> Result<Option<SealFault>, FlashFault>
    requires { IsCellOn IsComponentIn region cell.now paged.old.device }

    ensures calls { HasAnswered (reads_over cell.now.head.offset) paged.old paged.new result }
    ensures fault { ReadsCellAs paged.old region cell.now result
        (λ x. component_fault demand algorithm (component_at cell.now.at x)) }
    ensures own { IfFound result (λ fault. by_device fault ≡ 0) }
{
    let hash = first_hash(paged, region, cell)?;
    Ok(fault_of(
        demand,
        algorithm,
        cell.at,
        cell.head.kind,
        cell.head.offset,
        hash,
    ))
}

/// Passes the bytes before a component's content to a hasher, the last byte of the name field as
/// NUL: coreboot terminates a name in memory before it hashes.
#[tactic(auto, using(crate::proofs::Hashes::has_field, crate::proofs::Hashes::content_fits))]
fn hash_terminated<F: Flash>(
    paged: &mut Paged<F>,
    region: Region,
    cell: &Cell,
    hasher: &mut Hasher,
) -> Result<(), FlashFault>
    requires cell { IsCellOn IsComponentIn region cell.now paged.old.device }
    requires short { cell.now.head.offset ≤ 256 }

    ensures calls { HasAnswered 2 paged.old paged.new result }
    ensures algorithm { algorithm_of hasher.new ≡ algorithm_of hasher.old }
    ensures hashed { OnHonestIn paged.old.device region (λ x. (message : List ℕ)
        → Holds hasher.old message → OnOk result (Holds hasher.new (message ++ terminated
        (name_end cell.now.head) cell.now.head.offset (drop cell.now.at x)))) }
{
    let end = name_end(&cell.head);
    let bytes = piece_in(paged, region, cell.at, end as usize - 1)?;
    hasher.update(bytes);
    hasher.update(&[0]);
    let at = cell.at + u64::from(end);
    let bytes = piece_in(paged, region, at, (cell.head.offset - end) as usize)?;
    hasher.update(bytes);
    Ok(())
}

/// Passes a cell's metadata to a hasher.
fn hash_cell<F: Flash>(
    paged: &mut Paged<F>,
    region: Region,
    cell: &Cell,
    demand: Demand,
    algorithm: Algorithm,
    hasher: &mut Hasher,
) -> Result<(), SealFault>
    requires { IsCellOn IsCellIn region cell.now paged.old.device }

    ensures calls { HasReadBy by_device (3 + cell.now.span / 3840) paged.old paged.new result }
    ensures algorithm { algorithm_of hasher.new ≡ algorithm_of hasher.old }
    ensures hashed { OnHonestIn paged.old.device region (λ x. StandsIn x cell.now
        → (message : List ℕ) → Holds hasher.old message → MatchResult result
        (λ done. (more : List ℕ) × Holds hasher.new (message ++ more)
        × (cell_metadata demand algorithm cell.now.at (cell_in x cell.now) ≡ Ok more))
        (λ fault. (fault ≡ SealFault.Device)
        ⊎ (cell_metadata demand algorithm cell.now.at (cell_in x cell.now) ≡ Err fault))) }
{
    cells_stand_in_their_image();
    if cell.head.is_free() {
        return Ok(());
    }
    if let Some(fault) = component_fault(paged, region, cell, demand, algorithm)? {
        return Err(fault);
    }
    if cell.head.offset <= LONGEST_METADATA {
        hash_terminated(paged, region, cell, hasher)?;
    }
    Ok(())
}

/// Hashes the metadata of a region.
pub fn hash_metadata<F: Flash>(
    paged: &mut Paged<F>,
    region: Region,
    algorithm: Algorithm,
    demand: Demand,
) -> Result<Hasher, SealFault>
    requires { LiesOn region paged.old.device }

    ensures calls { HasReadBy by_device (region.size / 16 + 2) paged.old paged.new result }
    ensures algorithm { IfOk result (λ hasher. algorithm_of hasher ≡ algorithm) }
    ensures hashed { OnHonestIn paged.old.device region (λ x. MatchResult result
        (λ hasher. (message : List ℕ) × Holds hasher message
        × (metadata_in demand algorithm x ≡ Ok message))
        (λ fault. (fault ≡ SealFault.Device) ⊎ (metadata_in demand algorithm x ≡ Err fault))) }
{
    let mut hasher = Hasher::new(algorithm);
    let mut walk = Walk::new(region);
    loop {
        match walk.next(paged)? {
            Step::Cell(cell) => {
                hash_cell(paged, region, &cell, demand, algorithm, &mut hasher)?;
            }
            Step::Tail(_) | Step::End => return Ok(hasher),
        }
    }
}

/// Hashes the bytes of a range.
pub fn hash_range<F: Flash>(
    paged: &mut Paged<F>,
    range: Region,
    algorithm: Algorithm,
) -> Result<Hasher, FlashFault>
    requires { LiesOn range paged.old.device }

    ensures algorithm { IfOk result (λ hasher. algorithm_of hasher ≡ algorithm) }
    ensures hashed { ReadsIn range 0 range.size paged.old paged.new result
        (λ x hasher. Holds hasher x) }
{
    let mut hasher = Hasher::new(algorithm);
    let end = range.size();
    let mut at = 0;
    while at < end {
        let n = (end - at).min(READ_AT_ONCE);
        let bytes = piece_in(paged, range, at, n as usize)?;
        hasher.update(bytes);
        at += n;
    }
    Ok(hasher)
}
