//! The addition of a component.
ghost use Rattle.std.specs.Prelude.{ℕ, List, ◌≡◌, ◌+◌, ◌/◌, ◌<◌, ◌≤◌, length, Err};
ghost use Rattle.std.specs.Prelude.{IsTrue, IfOk, IfSome};
ghost use Rattle.flash_format.specs.Made.{hash_len};
ghost use Rattle.flash_device.specs.Device.{Reads, fault_count};
ghost use Rattle.flash_device.specs.Pages.{HasChanged, HasCopiedIn, OnHonest, Returns, as_copy};
ghost use Rattle.flash_device.specs.Regions.{LiesOn};
ghost use Rattle.cbfs_edit.specs.Changes.{IsAddition, by_device, by_source};
ghost use Rattle.cbfs_edit.specs.Additions.{algorithm_of, argument_fault, choice_of, digest_of};
ghost use Rattle.cbfs_edit.specs.Additions.{new_component, wanted_for};

use crate::fault::EditFault;
use crate::hashing::Hashing;
use crate::insertion::describe;
use crate::place::{Spot, Wanted, find_place};
use crate::region_writes::write_empty_entry;
use flash_device::{CopyInFault, Flash, Paged, Region, Source, Unwatched};
use flash_format::{Algorithm, Digest, has_nul, meta_len};
use sha2::{Sha256, Sha512};

/// The digest to store.
#[derive(Clone, Copy)]
pub enum HashChoice {
    /// No digest.
    Plain,
    Sha256,
    Sha512,
}

impl HashChoice {
    /// Returns the digest's algorithm, if any.
    pub fn algorithm(self) -> Option<Algorithm>
        ensures { result ≡ algorithm_of self }
    {
        match self {
            HashChoice::Plain => None,
            HashChoice::Sha256 => Some(Algorithm::Sha256),
            HashChoice::Sha512 => Some(Algorithm::Sha512),
        }
    }
}

impl From<Algorithm> for HashChoice {
    ghost from_gives = { λ algorithm choice. choice ≡ choice_of algorithm };

    fn from(algorithm: Algorithm) -> HashChoice {
        match algorithm {
            Algorithm::Sha256 => HashChoice::Sha256,
            Algorithm::Sha512 => HashChoice::Sha512,
        }
    }
}

/// A component's position: offsets from the region's start, in bytes.
#[derive(Clone, Copy, Debug, PartialEq, Eq)]
pub struct Placed {
    /// The offset of the component's header, a multiple of 64.
    pub header: u64,
    /// The offset of the content's first byte.
    pub content: u64,
}

/// Copies the source to an offset, and returns its digest, computed in the same pass.
#[tactic(auto, unfolding(cbfs_walk::specs::Hashes::hashed_by))]
fn copy_content<F: Flash, S: Source>(
    paged: &mut Paged<F>,
    at: u64,
    hash: HashChoice,
    source: &mut S,
) -> Result<Option<Digest>, CopyInFault>
    requires { at + length (S.facts source.old).content ≤ length paged.old.device.content }

    ensures after { HasCopiedIn at (length (S.facts source.old).content) paged.old.device
        paged.new.device (S.facts source.old) (S.facts source.new) (as_copy result) }
    ensures digest_len { IfOk result (λ digest.
        (content : List ℕ) → hash_len digest ≡ hash_len (digest_of hash content)) }

    // For an honest source.
    ensures digest { IsTrue (S.facts source.old).honest
        → Returns result (digest_of hash (S.facts source.old).content) }
{
    match hash.algorithm() {
        None => {
            let n = source.len();
            paged.copy_in_watched(at, n, source, &mut Unwatched)?;
            Ok(None)
        }
        Some(Algorithm::Sha256) => {
            let digest = copy_hashed::<F, S, Sha256>(paged, at, source)?;
            Ok(Some(Digest::Sha256(digest)))
        }
        Some(Algorithm::Sha512) => {
            let digest = copy_hashed::<F, S, Sha512>(paged, at, source)?;
            Ok(Some(Digest::Sha512(digest)))
        }
    }
}

fn copy_hashed<F: Flash, S: Source, H: sha2::Digest>(
    paged: &mut Paged<F>,
    at: u64,
    source: &mut S,
) -> Result<H::Output, CopyInFault>
    requires { at + length (S.facts source.old).content ≤ length paged.old.device.content }

    ensures after { HasCopiedIn at (length (S.facts source.old).content) paged.old.device
        paged.new.device (S.facts source.old) (S.facts source.new) (as_copy result) }

    // For an honest source.
    ensures digest { IsTrue (S.facts source.old).honest →
        IfOk result (H.digest_of (S.facts source.old).content) }
{
    let mut hashing = Hashing::<H>::new();
    let n = source.len();
    paged.copy_in_watched(at, n, source, &mut hashing)?;
    Ok(hashing.finish())
}

pub fn wanted_of(name: &[u8], hash: HashChoice, len: u32, spot: Spot) -> Wanted
    requires { length name.now ≤ 127 }
    ensures { (kind : ℕ) (content : List ℕ) → len ≡ length content
        → result ≡ wanted_for (new_component name.now kind hash content) spot }
{
    Wanted {
        metadata_len: meta_len(name.len(), attribute_len(hash)) as u32,
        len,
        spot,
    }
}

/// Returns the first error that depends on no device.
pub fn argument_fault(name: &[u8], kind: u32, spot: Spot) -> Option<EditFault>
    ensures { result ≡ argument_fault name.now kind spot }
{
    if name.is_empty() || name.len() > 127 || has_nul(name) {
        return Some(EditFault::BadName);
    }
    if kind == 0 || kind == 0xffff_ffff {
        return Some(EditFault::BadType);
    }
    match spot {
        Spot::Aligned(0) => Some(EditFault::BadAlign),
        Spot::Aligned(_) | Spot::First | Spot::Fixed(_) => None,
    }
}

fn attribute_len(hash: HashChoice) -> usize
    ensures is { (content : List ℕ) → result ≡ hash_len (digest_of hash content) }
    ensures short { result ≤ 76 }
{
    match hash.algorithm() {
        None => 0,
        Some(algorithm) => 12 + algorithm.digest_len(),
    }
}

/// Adds a component with the whole source as content, at the least allowed place in the first free
/// space with room, and returns its position. The remaining free space becomes empty entries. Those
/// of the region's last four bytes that follow the content remain. Only a content at a fixed place,
/// or the gap before it, covers the others.
///
/// The errors, in this order, are: invalid name, type, alignment or region size, no entry at the
/// region's start, first damaged entry, existing name, no space. On an honest device, only a device
/// or source fault can leave a change. After a source fault, the components are the same as before.
/// After a device fault, they are the same, or include the complete new component, if the source is
/// honest too.
///
/// For example, this adds a raw component (0x50) with a SHA-256 digest to the region COREBOOT of an
/// image in `paged`:
///
/// ```text
/// let coreboot = region(&mut paged, b"COREBOOT")?;
/// let hash = HashChoice::Sha256;
/// let placed = add(&mut paged, coreboot, b"config", 0x50, hash, Spot::First, &mut source)?;
/// ```
pub fn add<F: Flash, S: Source>(
    paged: &mut Paged<F>,
    region: Region,
    name: &[u8],
    kind: u32,
    hash: HashChoice,
    spot: Spot,
    source: &mut S,
) -> Result<Placed, EditFault>
    requires { LiesOn region paged.old.device }

    ensures after { HasChanged region (region.size / 16 + region.size / 2048 + 7)
        (fault_count by_device result) paged.old paged.new }
    ensures source { Reads (length (S.facts source.old).content / 4096 + 1)
        (fault_count by_source result) (S.facts source.old) (S.facts source.new) }

    ensures words { IfSome (argument_fault name.now kind spot) (λ fault.
        (result ≡ Err fault) × (paged.new ≡ paged.old) × (source.new ≡ source.old)) }
    ensures effect { OnHonest paged.old.device (λ image. IsAddition region
        (new_component name.now kind hash) spot (S.facts source.old) result image
        paged.new.device.content) }
{
    if let Some(fault) = argument_fault(name, kind, spot) {
        return Err(fault);
    }
    let wanted = wanted_of(name, hash, source.len() as u32, spot);
    let place = find_place(paged, region, name, wanted)?;
    write_empty_entry(paged, region, place.run)?;
    let digest = copy_content(paged, region.start() + place.content, hash, source)?;
    describe(paged, region, name, kind, &digest, wanted, place)?;
    Ok(Placed {
        header: place.header,
        content: place.content,
    })
}
