//! The command `create`.

ghost use Rattle.std.specs.Prelude.{◌≡◌, ◌+◌, ◌*◌, ◌/◌, ◌≤◌, All, fold, length, map, OnOk, OnErr};
ghost use Rattle.std.specs.Prelude.{Err};
ghost use Rattle.flash_device.specs.Device.{Calls, refusals};
ghost use Rattle.flash_device.specs.Laws.{with_edit};
ghost use Rattle.flash_device.specs.Pages.{OnHonest};
ghost use Rattle.cbfs_edit.specs.Changes.{formatted};
ghost use Rattle.cbfs_requests.specs.declared.command.TheConstants.{MOST_REGIONS};
ghost use Rattle.cbfs_commands.specs.Creations.{IsPlace};
ghost use Rattle.cbfs_commands.specs.Effects.{HasEffect, effect};
ghost use Rattle.cbfs_requests.specs.Requests.{create};

use crate::create::plan::read_plan;
use cbfs_edit::{EditFault, format};
use cbfs_requests::Refusal;
use flash_device::{Flash, Paged, Region, Source};

fn format_place<F: Flash>(paged: &mut Paged<F>, place: Region) -> Result<(), Refusal>
    requires { IsPlace (length paged.old.device.content) place }

    ensures calls { Calls (length paged.old.device.content / 4096 + 2) (refusals result)
        paged.old.device paged.new.device }
    ensures is { OnErr result (result ≡ Err Refusal.Device) }
    ensures formatted { OnHonest paged.old.device (λ image.
        OnOk result (paged.new.device.content ≡ with_edit place formatted image)) }
{
    let _len = paged.len();
    match format(paged, place) {
        Ok(()) => Ok(()),
        Err(_) => Err(Refusal::Device),
    }
}

/// Formats each region as an empty entry, in order.
fn format_all<F: Flash>(paged: &mut Paged<F>, mut places: &[Region]) -> Result<(), Refusal>
    requires { All (IsPlace (length paged.old.device.content)) places.now }

    ensures calls { Calls (length places.entry.now * (length paged.old.device.content / 4096 + 2))
        (refusals result) paged.old.device paged.new.device }
    ensures is { OnErr result (result ≡ Err Refusal.Device) }
    ensures formatted { OnHonest paged.old.device (λ image. OnOk result (paged.new.device.content
        ≡ fold (λ x place. with_edit place formatted x) image places.entry.now)) }
{
    while let [place, rest @ ..] = places {
        format_place(paged, *place)?;
        places = rest;
    }
    Ok(())
}

/// Creates the image from the source's flashmap: 0xff throughout, the flashmap in the area FMAP,
/// and each named region as an empty entry. All checks precede the first write.
pub fn create<F: Flash, S: Source>(
    paged: &mut Paged<F>,
    names: &[&[u8]],
    source: &mut S,
) -> Result<(), Refusal>
    requires { length names.now ≤ MOST_REGIONS }
    ensures { HasEffect (effect (create (map (λ name. name.now) names.now)))
        paged.old.device paged.new.device (S.facts source.old) (S.facts source.new) result }
{
    let image_len = paged.len();
    let plan = read_plan(names, source, image_len)?;
    paged.fill(0, image_len, 0xff)?;
    paged.copy_in(plan.map.start(), plan.map_len, source)?;
    format_all(paged, plan.regions.as_slice())?;
    Ok(())
}
