//! Writes into a region. A failed write leaves arbitrary bytes in its piece.
ghost use Rattle.std.specs.Prelude.{◌≡◌, ◌⊎◌, ◌+◌, ◌/◌, ◌≤◌, length, replicate};
ghost use Rattle.flash_format.specs.Made.{header_length};
ghost use Rattle.flash_device.specs.Device.{overwritten, SameOutside};
ghost use Rattle.flash_device.specs.Regions.{LiesOn, Reaches};
ghost use Rattle.cbfs_edit.specs.Changes.{HasWrittenIn, IsEmptied};
ghost use Rattle.cbfs_edit.specs.Removals.{IsCellRange, removed, space_end};

use crate::group::CellRange;
use flash_device::{Flash, FlashFault, MemSource, Paged, Region, Unwatched};
use flash_format::{HEADER_LENGTH, empty_header};

/// Replaces a header atomically.
pub fn commit_in<F: Flash>(
    paged: &mut Paged<F>,
    region: Region,
    at: u64,
    bytes: &[u8; HEADER_LENGTH],
) -> Result<(), FlashFault>
    requires { Reaches region (at + header_length) paged.old.device }

    ensures { HasWrittenIn region 1 (λ x. overwritten x at bytes.now)
        (λ x y. (y ≡ x) ⊎ (y ≡ overwritten x at bytes.now)) paged.old paged.new result }
{
    paged.commit(region.start() + at, bytes)
}

/// Writes n copies of a byte.
pub fn fill_in<F: Flash>(
    paged: &mut Paged<F>,
    region: Region,
    at: u64,
    n: u64,
    byte: u8,
) -> Result<(), FlashFault>
    requires { Reaches region (at + n) paged.old.device }

    ensures { HasWrittenIn region ((n + 4095) / 4096)
        (λ x. overwritten x at (replicate n byte)) (SameOutside at n) paged.old paged.new result }
{
    paged.fill(region.start() + at, n, byte)
}

/// Writes a few bytes at an offset.
pub fn write_in<F: Flash>(
    paged: &mut Paged<F>,
    region: Region,
    at: u64,
    bytes: &[u8],
) -> Result<(), FlashFault>
    requires reach { Reaches region (at + length bytes.now) paged.old.device }
    requires short { length bytes.now ≤ 4096 }

    ensures { HasWrittenIn region 1 (λ x. overwritten x at bytes.now)
        (SameOutside at (length bytes.now)) paged.old paged.new result }
{
    let mut source = MemSource::new(bytes);
    let at = region.start() + at;
    match paged.copy_in_watched(at, bytes.len() as u64, &mut source, &mut Unwatched) {
        Ok(()) => Ok(()),
        Err(_) => Err(FlashFault),
    }
}

/// Writes a single empty entry in place of a group, its header first.
pub fn write_empty_entry<F: Flash>(
    paged: &mut Paged<F>,
    region: Region,
    group: CellRange,
) -> Result<(), FlashFault>
    requires region { LiesOn region paged.old.device }
    requires group { IsCellRange group region.size }

    ensures { HasWrittenIn region (region.size / 4096 + 2) (λ x. removed x group)
        (λ x y. (y ≡ x) ⊎ IsEmptied group (space_end region.size group.end) x y)
        paged.old paged.new result }
{
    let kept = group.end == region.size();
    let header = empty_header((group.end - group.start) as u32, kept);
    commit_in(paged, region, group.start, &header)?;
    let space = group.start + HEADER_LENGTH as u64;
    let len = space_end(region, group.end) - space;
    fill_in(paged, region, space, len, 0xff)
}

/// Returns the end of the erased space in free cells. The region's last four bytes remain.
pub fn space_end(region: Region, end: u64) -> u64
    requires { 64 ≤ end }
    ensures { result ≡ space_end region.size end }
{
    if end == region.size() { end - 4 } else { end }
}
