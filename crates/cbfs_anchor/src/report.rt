//! Inspections of an image.
ghost use Rattle.std.specs.Prelude.{◌≡◌, ℕ, List, ◌+◌, ◌≤◌, IfOk, length};
ghost use Rattle.flash_device.specs.Pages.{HasAnswered, OnHonest};
ghost use Rattle.cbfs_anchor.specs.Algorithms.{Holds, algorithm_of};
ghost use Rattle.cbfs_anchor.specs.Layout.{anchor_len};
ghost use Rattle.cbfs_anchor.specs.Seals.{IsReport, survey_by};

use crate::anchor::{Anchor, DIGESTS_PLACE};
use crate::hasher::Hasher;
use flash_device::{Flash, FlashFault, Paged};

/// The state of an image's anchor.
#[derive(Clone, Copy)]
pub struct Report {
    pub anchor: Anchor,
    /// The digest of the metadata that the anchor should have, and zeros.
    pub metadata: [u8; 64],
    /// The digest of the flash map that the anchor should have, and zeros.
    pub map: [u8; 64],
    /// The anchor has the digest of the metadata.
    pub metadata_valid: bool,
    /// The anchor has the digest of the flash map.
    pub map_valid: bool,
}

/// Compares an anchor with the digests of two messages.
pub fn report_of<F: Flash>(
    paged: &mut Paged<F>,
    anchor: Anchor,
    metadata: Hasher,
    map: Hasher,
) -> Result<Report, FlashFault>
    requires inside { anchor.at + anchor_len anchor.algorithm ≤ length paged.old.device.content }
    requires metadata { algorithm_of metadata ≡ anchor.algorithm }
    requires map { algorithm_of map ≡ anchor.algorithm }

    ensures calls { HasAnswered 1 paged.old paged.new result }
    ensures anchor { IfOk result (λ report. report.anchor ≡ anchor) }
    ensures report { OnHonest paged.old.device (λ image. (message bytes : List ℕ)
        → Holds metadata message → Holds map bytes
        → IfOk result (IsReport (survey_by anchor message bytes) image)) }
{
    let _len = paged.len();
    let n = anchor.algorithm.digest_len();
    let mut metadata_digest = [0; 64];
    metadata.finish(&mut metadata_digest[..n]);
    let mut map_digest = [0; 64];
    map.finish(&mut map_digest[..n]);
    let stored = paged.piece(anchor.at + DIGESTS_PLACE, n + n)?;
    let metadata_valid = stored[..n] == metadata_digest[..n];
    let map_valid = stored[n..n + n] == map_digest[..n];
    Ok(Report {
        anchor,
        metadata: metadata_digest,
        map: map_digest,
        metadata_valid,
        map_valid,
    })
}
