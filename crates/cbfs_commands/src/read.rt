//! The command `read`.

ghost use Rattle.std.specs.Prelude.{◌+◌, ◌/◌, ◌≤◌, length, slice_range};
ghost use Rattle.cbfs_commands.specs.Outcomes.{printed_in};
ghost use Rattle.cbfs_commands.specs.Outcomes.{HasOutput, shows};
ghost use Rattle.flash_device.specs.Device.{call_limit};

use cbfs_requests::Refusal;
use flash_device::{Flash, Paged, Sink};

/// Writes a range of the image.
pub fn copy_out<F: Flash, W: Sink>(
    paged: &mut Paged<F>,
    start: u64,
    size: u64,
    out: &mut W,
) -> Result<(), Refusal>
    requires { start + size ≤ length paged.old.device.content }

    ensures { HasOutput W.Sink ((size + 4095) / 4096) paged.old paged.new out.old out.new result
        (λ image. shows (slice_range image start (start + size))) }
{
    paged.copy_out(start, size, out)?;
    Ok(())
}

/// Writes the bytes of a region.
pub fn read<F: Flash, W: Sink>(
    paged: &mut Paged<F>,
    name: &[u8],
    out: &mut W,
) -> Result<(), Refusal>
    ensures { HasOutput W.Sink (call_limit paged.old.device) paged.old paged.new out.old out.new
        result (λ image. printed_in image name.now shows) }
{
    let region = flash_map::region(paged, name)?;
    copy_out(paged, region.start(), region.size(), out)
}
