//! The flash map, COREBOOT, and the range with the anchor.
ghost use Rattle.std.specs.Prelude.{◌≡◌, ◌⊎◌, ◌+◌, ◌/◌, ◌^◌, ◌<◌, ◌≤◌, IfOk, IsErrOf, length};
ghost use Rattle.flash_device.specs.Pages.{OnHonest, OnHonestIn, HasReadBy};
ghost use Rattle.flash_device.specs.Regions.{LiesOn};
ghost use Rattle.flash_map.specs.Fmap.{map_end};
ghost use Rattle.cbfs_anchor.specs.Faults.{by_device};
ghost use Rattle.cbfs_anchor.specs.Places.{area_range, component_place, place_by, place_in, place_reads, map_range, is_misplaced, share_bytes};

use crate::fault::SealFault;
use cbfs_walk::{cells_stand_in_their_image, find};
use flash_device::{Flash, Paged, Region};
use flash_map::{FoundMap, area_named, find_fmap, region_of_area};

const BOOTBLOCK: u32 = 1;

/// The ranges of the flash map, of COREBOOT, and of the bytes that may have the anchor.
#[derive(Clone, Copy, Drop)]
pub struct AnchorPlace {
    pub map: Region,
    pub coreboot: Region,
    pub anchor: Region,
    /// The last range is the content of a component.
    pub in_component: bool,
}

/// Returns the first area with the name.
pub fn area_range<F: Flash>(
    paged: &mut Paged<F>,
    map: &FoundMap,
    name: &[u8],
) -> Result<Region, SealFault>
    requires { map_end map.now ≤ length paged.old.device.content }

    ensures calls { HasReadBy by_device map.now.head.nareas paged.old paged.new result }
    ensures inside { IfOk result (λ range. LiesOn range paged.old.device) }
    ensures range { OnHonest paged.old.device (λ image. IsErrOf result SealFault.Device
        ⊎ (result ≡ area_range image map.now name.now)) }
{
    let area = area_named(paged, map, name)?;
    Ok(region_of_area(area, paged.len())?)
}

/// Returns the content of the first component named `bootblock`, if it has the type.
fn component_place<F: Flash>(
    paged: &mut Paged<F>,
    map: Region,
    coreboot: Region,
) -> Result<AnchorPlace, SealFault>
    requires { LiesOn coreboot paged.old.device }

    ensures calls { HasReadBy by_device (coreboot.size / 16 + 2) paged.old paged.new result }
    ensures ranges { IfOk result (λ place. (place.map ≡ map) × (place.coreboot ≡ coreboot)
        × LiesOn place.anchor paged.old.device) }
    ensures place { OnHonestIn paged.old.device coreboot (λ x. IsErrOf result SealFault.Device
        ⊎ (result ≡ component_place map coreboot x)) }
{
    cells_stand_in_their_image();
    let Some(cell) = find(paged, coreboot, b"bootblock")? else {
        return Err(SealFault::NoAnchor);
    };
    if cell.head.kind != BOOTBLOCK {
        return Err(SealFault::NoAnchor);
    }
    let start = coreboot.start() + cell.at + u64::from(cell.head.offset);
    match Region::within(start, u64::from(cell.head.len), paged.len()) {
        Some(anchor) => Ok(AnchorPlace {
            map,
            coreboot,
            anchor,
            in_component: true,
        }),
        None => Err(SealFault::RegionOutside),
    }
}

/// Returns the places after COREBOOT is found.
pub fn place_by<F: Flash>(
    paged: &mut Paged<F>,
    map: &FoundMap,
    coreboot: Region,
) -> Result<AnchorPlace, SealFault>
    requires inside { map_end map.now ≤ length paged.old.device.content }
    requires coreboot { LiesOn coreboot paged.old.device }

    ensures calls { HasReadBy by_device (map.now.head.nareas + coreboot.size / 16 + 2)
        paged.old paged.new result }
    ensures ranges { IfOk result (λ place. (place.map ≡ map_range map.now)
        × (place.coreboot ≡ coreboot) × LiesOn place.anchor paged.old.device) }
    ensures place { OnHonest paged.old.device (λ image. IsErrOf result SealFault.Device
        ⊎ (result ≡ place_by image map.now coreboot)) }
{
    let Some(range) = Region::within(map.at, map.head.map_len(), paged.len()) else {
        return Err(SealFault::NoFmap);
    };
    match area_named(paged, map, b"BOOTBLOCK")? {
        Some(area) => Ok(AnchorPlace {
            map: range,
            coreboot,
            anchor: region_of_area(Some(area), paged.len())?,
            in_component: false,
        }),
        None => component_place(paged, range, coreboot),
    }
}

/// Finds the flash map, COREBOOT, and the range with the anchor.
pub fn find_place<F: Flash>(paged: &mut Paged<F>) -> Result<AnchorPlace, SealFault>
    ensures calls { HasReadBy by_device (place_reads paged.old.device) paged.old paged.new result }
    ensures map { IfOk result (λ place. LiesOn place.map paged.old.device) }
    ensures coreboot { IfOk result (λ place. LiesOn place.coreboot paged.old.device) }
    ensures anchor { IfOk result (λ place. LiesOn place.anchor paged.old.device) }
    ensures place { OnHonest paged.old.device (λ image. IsErrOf result SealFault.Device
        ⊎ (result ≡ place_in image)) }
{
    let Some(map) = find_fmap(paged)? else {
        return Err(SealFault::NoFmap);
    };
    let coreboot = area_range(paged, &map, b"COREBOOT")?;
    place_by(paged, &map, coreboot)
}

/// Returns whether two ranges have a common byte.
fn share_bytes(r: Region, s: Region) -> bool
    requires first { r.start + r.size < 2 ^ 64 }
    requires second { s.start + s.size < 2 ^ 64 }
    ensures { result ≡ share_bytes r s }
{
    r.start() < s.start() + s.size() && s.start() < r.start() + r.size()
}

/// Returns whether the digests lie in the flash map, or in COREBOOT outside the component.
pub fn is_misplaced(place: &AnchorPlace, digests: Region) -> bool
    requires map { place.now.map.start + place.now.map.size < 2 ^ 64 }
    requires coreboot { place.now.coreboot.start + place.now.coreboot.size < 2 ^ 64 }
    requires digests { digests.start + digests.size < 2 ^ 64 }
    ensures { result ≡ is_misplaced place.now digests }
{
    share_bytes(digests, place.map) || (!place.in_component && share_bytes(digests, place.coreboot))
}
