//! Ordered reads in a region.
ghost use Rattle.std.specs.Prelude.{◌≡◌, ◌+◌, ◌≤◌, length, slice_range, IfOk};
ghost use Rattle.std.specs.Borrow.{sem};
ghost use Rattle.std.specs.Io.BufRead.{Rests};
ghost use Rattle.flash_device.specs.Device.{refusals};
ghost use Rattle.flash_device.specs.Pages.{OnHonestIn};
ghost use Rattle.flash_device.specs.Regions.{Reaches};
ghost use Rattle.flash_device.specs.contracts.paged.Paged.{the_row};
ghost use Rattle.cbfs_walk.specs.Walks.{Passes, ReadsIn};

use flash_device::{Flash, FlashFault, Paged, Region};

/// Reads bytes at a position in the region.
#[inline]
pub fn read_in<F: Flash>(
    paged: &mut Paged<F>,
    region: Region,
    at: u64,
    out: &mut [u8],
) -> Result<(), FlashFault>
    requires reach { Reaches region (at + length out.old) paged.old.device }
    requires short { length out.old ≤ 256 }

    ensures { ReadsIn region at at paged.old paged.new result
        (λ x read. out.new ≡ slice_range x at (at + length out.old)) }
{
    paged.read_small(region.start() + at, out)
}

/// Returns n bytes at a position in the region.
#[inline]
pub fn piece_in<F: Flash>(
    paged: &mut Paged<F>,
    region: Region,
    at: u64,
    n: usize,
) -> Result<&[u8], FlashFault>
    requires reach { Reaches region (at + n) paged.old.device }
    requires short { n ≤ 256 }

    ensures* passes { sem 𝓛 (Rests (the_row F.row F.Flash) paged.entry (λ new.
        Passes region at at (refusals result) paged.old new)) }
    ensures size { IfOk result (λ bytes. length bytes.now ≡ n) }
    ensures read { OnHonestIn paged.old.device region (λ x.
        IfOk result (λ bytes. bytes.now ≡ slice_range x at (at + n))) }
{
    paged.piece(region.start() + at, n)
}
