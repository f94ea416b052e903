//! The search for the anchor.
ghost use Rattle.std.specs.Prelude.{◌≡◌, ◌⊎◌, ◌+◌, ◌/◌, ◌≤◌, IfOk, IsErrOf, slice_index};
ghost use Rattle.memchr.specs.Find.{FindsNeedle};
ghost use Rattle.flash_device.specs.Pages.{OnHonestIn, HasReadBy, IfFound};
ghost use Rattle.flash_device.specs.Regions.{LiesOn, Reaches};
ghost use Rattle.cbfs_walk.specs.Walks.{ReadsIn};
ghost use Rattle.cbfs_anchor.specs.Faults.{by_device};
ghost use Rattle.cbfs_anchor.specs.Layout.{magic, anchor_in, anchor_len, has_header};

use crate::algorithm::Algorithm;
use crate::fault::SealFault;
use cbfs_walk::{piece_in, read_in};
use flash_device::{Flash, FlashFault, Paged, Region};
use memchr::memmem;

/// The first bytes of an anchor.
const MAGIC: [u8; 8] = [0xad, 0x4d, 0x64, 0x74, 0x48, 0x73, 0x68, 0x15];

/// The first bytes of an ELF file.
const ELF_MAGIC: [u8; 4] = *b"\x7fELF";

/// The first bytes of Qualcomm's MBN header.
const MBN_MAGIC: [u8; 4] = [0xd1, 0xdc, 0x4b, 0x84];

/// The offset of the algorithm's number.
const ALGORITHM_PLACE: u64 = 11;

/// The offset of the digests.
pub const DIGESTS_PLACE: u64 = 12;

/// Bytes per read. Ordered reads of up to 256 bytes cost one device call per window.
const READ_AT_ONCE: u64 = 256;

/// An anchor at an offset in the image.
#[derive(Clone, Copy, Debug, PartialEq, Eq)]
pub struct Anchor {
    pub at: u64,
    pub algorithm: Algorithm,
}

/// Returns the position of the first magic in a range.
fn find_magic<F: Flash>(paged: &mut Paged<F>, range: Region) -> Result<Option<u64>, FlashFault>
    requires { LiesOn range paged.old.device }

    ensures magic { ReadsIn range 0 range.size paged.old paged.new result
        (λ x found. FindsNeedle x magic 0 found) }
    ensures inside { IfFound result (λ place. place + 8 ≤ range.size) }
{
    let end = range.size();
    let mut at = 0;
    while end - at > READ_AT_ONCE {
        let bytes = piece_in(paged, range, at, READ_AT_ONCE as usize)?;
        match memmem::find(bytes, &MAGIC) {
            Some(place) => return Ok(Some(at + place as u64)),
            // A magic across the next piece begins in the last seven bytes.
            None => at += READ_AT_ONCE - 7,
        }
    }
    let bytes = piece_in(paged, range, at, (end - at) as usize)?;
    match memmem::find(bytes, &MAGIC) {
        Some(place) => Ok(Some(at + place as u64)),
        None => Ok(None),
    }
}

fn byte_in<F: Flash>(paged: &mut Paged<F>, range: Region, at: u64) -> Result<u8, FlashFault>
    requires { Reaches range (at + 1) paged.old.device }

    ensures { ReadsIn range at at paged.old paged.new result
        (λ x byte. byte ≡ slice_index x at) }
{
    let mut byte = [0];
    read_in(paged, range, at, &mut byte)?;
    Ok(byte[0])
}

/// Returns whether a range begins with the header of an ELF file or an MBN file.
pub fn has_header<F: Flash>(paged: &mut Paged<F>, range: Region) -> Result<bool, FlashFault>
    requires { LiesOn range paged.old.device }

    ensures { ReadsIn range 0 0 paged.old paged.new result (λ x header. header ≡ has_header x) }
{
    let n = range.size().min(4) as usize;
    let bytes = piece_in(paged, range, 0, n)?;
    Ok(bytes.starts_with(&ELF_MAGIC) || bytes.starts_with(&MBN_MAGIC))
}

/// Returns the anchor at the first magic in a range.
pub fn find_anchor<F: Flash>(paged: &mut Paged<F>, range: Region) -> Result<Anchor, SealFault>
    requires { LiesOn range paged.old.device }

    ensures calls { HasReadBy by_device (range.size / 3840 + 2) paged.old paged.new result }
    ensures inside { IfOk result (λ a. (range.start ≤ a.at)
        × (a.at + anchor_len a.algorithm ≤ range.start + range.size)) }
    ensures anchor { OnHonestIn paged.old.device range (λ x. IsErrOf result SealFault.Device
        ⊎ (result ≡ anchor_in range.start x)) }
{
    let Some(place) = find_magic(paged, range)? else {
        return Err(SealFault::NoAnchor);
    };
    if range.size() < place + DIGESTS_PLACE {
        return Err(SealFault::CutOff);
    }
    let number = byte_in(paged, range, place + ALGORITHM_PLACE)?;
    let Some(algorithm) = Algorithm::numbered(u32::from(number)) else {
        return Err(SealFault::UnknownAlgorithm);
    };
    if range.size() < place + DIGESTS_PLACE + 2 * algorithm.digest_len() as u64 {
        return Err(SealFault::CutOff);
    }
    Ok(Anchor {
        at: range.start() + place,
        algorithm,
    })
}
