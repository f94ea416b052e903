//! Names of components.
ghost use Rattle.std.specs.Prelude.{◌≡◌, ◌⊎◌, [], ◌+◌, ◌≤◌, IfOk, MatchResult, length, take};
ghost use Rattle.std.specs.List.{before_first};
ghost use Rattle.flash_format.specs.Entry.{is_nul};
ghost use Rattle.flash_device.specs.Pages.{HasReadBy, OnHonest};
ghost use Rattle.flash_map.specs.Fmap.{map_reads};
ghost use Rattle.cbfs_anchor.specs.Faults.{by_device};
ghost use Rattle.cbfs_anchor.specs.ComponentNames.{name_at};

use crate::fault::SealFault;
use flash_device::{Flash, Paged};

/// The length of an entry's head in bytes.
const HEAD: u64 = 24;

/// Writes the name of the component at a position of COREBOOT to the front of `out`, and returns
/// its length: the bytes after the head, up to the first NUL, at most 256.
pub fn name_at<F: Flash>(
    paged: &mut Paged<F>,
    at: u64,
    out: &mut [u8; 256],
) -> Result<usize, SealFault>
    // On any device.
    ensures calls { HasReadBy by_device (map_reads paged.old.device + 1)
        paged.old paged.new result }
    ensures short { IfOk result (λ n. n ≤ 256) }

    // On an honest device.
    ensures name { OnHonest paged.old.device (λ image. MatchResult result
        (λ n. take n out.new ≡ name_at at image)
        (λ fault. (fault ≡ SealFault.Device) ⊎ (name_at at image ≡ []))) }
{
    let region = flash_map::region(paged, b"COREBOOT")?;
    let len = paged.len();
    if at > len {
        return Ok(0);
    }
    let start = region.start() + at + HEAD;
    if start > len {
        return Ok(0);
    }
    let n = (len - start).min(256) as usize;
    paged.read_small(start, &mut out[..n])?;
    Ok(text_len(&out[..n]))
}

fn text_len(bytes: &[u8]) -> usize
    ensures { result ≡ length (before_first is_nul bytes.now) }
{
    bytes.iter().take_while(|byte| **byte != 0).count()
}
