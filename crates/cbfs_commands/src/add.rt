//! The command `add`.

ghost use Rattle.std.specs.Prelude.{OnOk};
ghost use Rattle.flash_device.specs.Pages.{OnHonest};
ghost use Rattle.cbfs_commands.specs.Effects.{HasEffect, effect};
ghost use Rattle.cbfs_commands.specs.Used.{HasUsed};
ghost use Rattle.cbfs_requests.specs.Requests.{add, on_region};

use crate::mapped::{Used, mapped_region};
use cbfs_edit::{HashChoice, Spot};
use cbfs_requests::Refusal;
use flash_device::{Flash, Paged, Source};

/// Adds the source to the region as a component's content. A success stores the image's flash map
/// and the region in `used`.
pub fn add<F: Flash, S: Source>(
    paged: &mut Paged<F>,
    region: &[u8],
    name: &[u8],
    kind: u32,
    hash: HashChoice,
    spot: Spot,
    source: &mut S,
    used: &mut Option<Used>,
) -> Result<(), Refusal>
    ensures effect { HasEffect (effect (on_region region.now (add name.now kind hash spot)))
        paged.old.device paged.new.device (S.facts source.old) (S.facts source.new) result }
    ensures used { OnHonest paged.old.device
        (λ image. OnOk result (HasUsed image region.now used.new)) }
{
    let region = mapped_region(paged, region, used)?;
    cbfs_edit::add(paged, region, name, kind, hash, spot, source)?;
    Ok(())
}
