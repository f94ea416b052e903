//! The command `remove`.

ghost use Rattle.std.specs.Prelude.{OnOk};
ghost use Rattle.flash_device.specs.Device.{Device};
ghost use Rattle.flash_device.specs.Pages.{OnHonest};
ghost use Rattle.cbfs_commands.specs.Effects.{HasEffect, effect};
ghost use Rattle.cbfs_commands.specs.Used.{HasUsed};
ghost use Rattle.cbfs_requests.specs.Requests.{on_region, remove};

use crate::mapped::{Used, mapped_region};
use cbfs_requests::Refusal;
use flash_device::{Flash, Paged};

/// Replaces the first component with the name by free space. A success stores the image's flash
/// map in `used`.
pub fn remove<F: Flash>(
    paged: &mut Paged<F>,
    region: &[u8],
    name: &[u8],
    used: &mut Option<Used>,
) -> Result<(), Refusal>
    ensures effect { (source : Device) → HasEffect (effect (on_region region.now (remove name.now)))
        paged.old.device paged.new.device source source result }
    ensures used { OnHonest paged.old.device
        (λ image. OnOk result (HasUsed image region.now used.new)) }
{
    let region = mapped_region(paged, region, used)?;
    cbfs_edit::remove(paged, region, name)?;
    Ok(())
}
