//! Digests of contents.
ghost use Rattle.std.specs.Prelude.{◌≡◌, ◌⊎◌, ◌+◌, ◌≤◌, slice_range};
ghost use Rattle.flash_format.specs.declared.digest.Digest.TheVariants as digests;
ghost use Rattle.flash_format.specs.Components.{cell_attributes, cell_content};
ghost use Rattle.flash_format.specs.Made.{algorithm};
ghost use Rattle.flash_device.specs.Pages.{HasAnswered, HasRead, ReadsAs};
ghost use Rattle.flash_device.specs.Regions.{Reaches};
ghost use Rattle.cbfs_walk.specs.Walks.{ReadsIn, reads_over, ReadsCellAs};
ghost use Rattle.cbfs_walk.specs.Cells.{IsCellOn, IsComponentIn, PassesChecks, content_start, content_end};
ghost use Rattle.cbfs_walk.specs.AttrWalks.{attributes_in};
ghost use Rattle.cbfs_walk.specs.Hashes.{hashed_by, stored_digest, comparison, hash_state, content_at};

use crate::attribute_walk::{first_attribute, value_at};
use crate::cell::Cell;
use crate::region_reads::piece_in;
use flash_device::{Flash, FlashFault, Paged, Region};
use flash_format::{Algorithm, AttrHead, Digest};
use sha2::{Sha256, Sha512};

/// The result of a digest check.
#[derive(Clone, Copy, Debug, PartialEq, Eq)]
pub enum HashState {
    /// No hash attribute.
    Absent,
    /// Equal digests.
    Valid(Digest),
    /// Different digests.
    Invalid(Digest),
    /// An unknown algorithm, or a truncated digest.
    Unsupported,
}

/// Bytes per read. Ordered reads of up to 256 bytes cost one device call per window.
const HASHED_AT_ONCE: u64 = 256;

/// Compares a component's stored content with the digest in its first hash attribute.
#[tactic(auto, using(crate::proofs::Digests::state_found, crate::proofs::Checks::content_fits))]
pub fn check_hash<F: Flash>(
    paged: &mut Paged<F>,
    region: Region,
    cell: &Cell,
) -> Result<HashState, FlashFault>
    requires { IsCellOn IsComponentIn region cell.now paged.old.device }

    ensures calls { HasAnswered (reads_over cell.now.span) paged.old paged.new result }
    ensures unread { (result ≡ Ok HashState.Absent) ⊎ (result ≡ Ok HashState.Unsupported)
        → HasRead (reads_over cell.now.head.offset) 0 paged.old paged.new }

    ensures value { ReadsAs paged.old region result
        (λ x. hash_state (attributes_in x cell.now) (content_at x cell.now)) }
    ensures state { ReadsCellAs paged.old region cell.now result
        (λ x. hash_state (cell_attributes x) (cell_content x)) }
{
    match first_attribute(paged, region, cell, AttrHead::HASH)? {
        Some((at, head)) => match stored_digest(paged, region, at + 8, head.len - 8)? {
            Some(stored) => {
                let computed = content_digest(paged, region, cell, &stored)?;
                Ok(comparison(stored, &computed))
            }
            None => Ok(HashState::Unsupported),
        },
        None => Ok(HashState::Absent),
    }
}

fn comparison(stored: Digest, computed: &Digest) -> HashState
    ensures { result ≡ comparison stored computed.now }
{
    if stored.bytes() == computed.bytes() {
        HashState::Valid(stored)
    } else {
        HashState::Invalid(stored)
    }
}

/// Returns the digest in a hash attribute, or `None` if unsupported or truncated.
fn stored_digest<F: Flash>(
    paged: &mut Paged<F>,
    region: Region,
    at: u64,
    n: u32,
) -> Result<Option<Digest>, FlashFault>
    requires reach { Reaches region (at + n) paged.old.device }
    requires least { 4 ≤ n }

    ensures { ReadsIn region at (at + n) paged.old paged.new result
        (λ x stored. stored ≡ stored_digest (slice_range x at (at + n))) }
{
    let number = value_at(paged, region, at)?;
    let Some(algorithm) = Algorithm::numbered(number) else {
        return Ok(None);
    };
    let len = algorithm.digest_len();
    if (n as usize) < 4 + len {
        return Ok(None);
    }
    let bytes = piece_in(paged, region, at + 4, len)?;
    Ok(Some(Digest::read(algorithm, bytes)))
}

#[tactic(auto, unfolding(crate::specs::Hashes::hashed_by))]
fn content_digest<F: Flash>(
    paged: &mut Paged<F>,
    region: Region,
    cell: &Cell,
    stored: &Digest,
) -> Result<Digest, FlashFault>
    requires { IsCellOn PassesChecks region cell.now paged.old.device }

    ensures { ReadsIn region (content_start cell.now) (content_end cell.now) paged.old paged.new
        result (λ x digest. digest ≡ hashed_by (algorithm stored.now) (content_at x cell.now)) }
{
    match stored {
        Digest::Sha256(_) => Ok(Digest::Sha256(hash_content::<F, Sha256>(paged, region, cell)?)),
        Digest::Sha512(_) => Ok(Digest::Sha512(hash_content::<F, Sha512>(paged, region, cell)?)),
    }
}

#[tactic(auto, using(crate::proofs::Checks::content_fits))]
fn hash_content<F: Flash, D: sha2::Digest>(
    paged: &mut Paged<F>,
    region: Region,
    cell: &Cell,
) -> Result<D::Output, FlashFault>
    requires { IsCellOn PassesChecks region cell.now paged.old.device }

    ensures { ReadsIn region (content_start cell.now) (content_end cell.now) paged.old paged.new
        result (λ x. D.digest_of (content_at x cell.now)) }
{
    let mut hasher = D::new();
    let mut at = cell.at + u64::from(cell.head.offset);
    let end = at + u64::from(cell.head.len);
    while at < end {
        let n = (end - at).min(HASHED_AT_ONCE);
        let bytes = piece_in(paged, region, at, n as usize)?;
        hasher.update(bytes);
        at += n;
    }
    Ok(hasher.finalize())
}
