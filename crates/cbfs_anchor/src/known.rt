//! The anchor of an image whose flash map is known.
ghost use Rattle.std.specs.Prelude.{◌≡◌, ◌⊎◌, ◌+◌, ◌*◌, ◌/◌, ◌≤◌, IfOk, IsErrOf, length};
ghost use Rattle.flash_device.specs.Pages.{OnHonest, HasReadBy};
ghost use Rattle.flash_device.specs.Regions.{LiesOn};
ghost use Rattle.flash_map.specs.Fmap.{map_end};
ghost use Rattle.cbfs_anchor.specs.Faults.{by_device};
ghost use Rattle.cbfs_anchor.specs.Places.{place_with};
ghost use Rattle.cbfs_anchor.specs.Seals.{IsOutdatedBy, IsReported, inspection_reads_with, survey_with};
ghost use Rattle.cbfs_anchor.specs.declared.demand.Demand.TheVariants.{Nothing};

use crate::demand::Demand;
use crate::fault::SealFault;
use crate::place::{AnchorPlace, area_range, place_by};
use crate::report::Report;
use crate::sealing::inspect_place;
use flash_device::{Flash, Paged};
use flash_map::FoundMap;

/// Finds COREBOOT and the range with the anchor, by the image's flash map.
pub fn place_with_map<F: Flash>(
    paged: &mut Paged<F>,
    map: &FoundMap,
) -> Result<AnchorPlace, SealFault>
    requires { map_end map.now ≤ length paged.old.device.content }

    ensures calls { HasReadBy by_device (2 * map.now.head.nareas
        + length paged.old.device.content / 16 + 2) paged.old paged.new result }
    ensures map { IfOk result (λ place. LiesOn place.map paged.old.device) }
    ensures coreboot { IfOk result (λ place. LiesOn place.coreboot paged.old.device) }
    ensures anchor { IfOk result (λ place. LiesOn place.anchor paged.old.device) }
    ensures place { OnHonest paged.old.device (λ image. IsErrOf result SealFault.Device
        ⊎ (result ≡ place_with image map.now)) }
{
    let coreboot = area_range(paged, map, b"COREBOOT")?;
    place_by(paged, map, coreboot)
}

/// Returns the state of the anchor by this flash map, or the first error.
fn inspect_with_map<F: Flash>(
    paged: &mut Paged<F>,
    demand: Demand,
    map: &FoundMap,
) -> Result<Report, SealFault>
    requires { map_end map.now ≤ length paged.old.device.content }

    ensures calls { HasReadBy by_device (inspection_reads_with map.now paged.old.device)
        paged.old paged.new result }
    ensures report { OnHonest paged.old.device (λ image.
        IsReported (survey_with demand image map.now) result image) }
{
    let place = place_with_map(paged, map)?;
    inspect_place(paged, demand, &place)
}

/// Returns whether an image has an anchor by this flash map with an outdated digest, or the first
/// error.
pub fn is_outdated_with_map<F: Flash>(
    paged: &mut Paged<F>,
    map: &FoundMap,
) -> Result<bool, SealFault>
    requires { map_end map.now ≤ length paged.old.device.content }

    ensures calls { HasReadBy by_device (inspection_reads_with map.now paged.old.device)
        paged.old paged.new result }
    ensures outdated { OnHonest paged.old.device (λ image.
        IsOutdatedBy (survey_with Nothing image map.now) result image) }
{
    let report = inspect_with_map(paged, Demand::Nothing, map)?;
    Ok(!(report.metadata_valid && report.map_valid))
}
