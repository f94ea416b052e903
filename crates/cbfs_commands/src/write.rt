//! The command `write`.

ghost use Rattle.std.specs.Prelude.{OnOk};
ghost use Rattle.flash_device.specs.Pages.{OnHonest};
ghost use Rattle.cbfs_commands.specs.Effects.{HasEffect, effect};
ghost use Rattle.cbfs_commands.specs.Used.{HasUsed};
ghost use Rattle.cbfs_requests.specs.Requests.{on_region, write};

use crate::mapped::{Used, mapped_region};
use cbfs_requests::Refusal;
use flash_device::{Flash, Paged, Source};

/// Replaces a region with a source of the same size, from front to back. A success stores the
/// flash map that the image had, and the region, in `used`.
pub fn write<F: Flash, S: Source>(
    paged: &mut Paged<F>,
    name: &[u8],
    source: &mut S,
    used: &mut Option<Used>,
) -> Result<(), Refusal>
    ensures effect { HasEffect (effect (on_region name.now write)) paged.old.device
        paged.new.device (S.facts source.old) (S.facts source.new) result }
    ensures used { OnHonest paged.old.device
        (λ image. OnOk result (HasUsed image name.now used.new)) }
{
    let region = mapped_region(paged, name, used)?;
    if source.len() != region.size() {
        return Err(Refusal::SourceSize);
    }
    paged.copy_in(region.start(), region.size(), source)?;
    Ok(())
}
