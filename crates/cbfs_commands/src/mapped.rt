//! A region, and the flash map that has it.
ghost use Rattle.std.specs.Prelude.{◌≡◌, ◌⊎◌, IfOk, OnOk, IsErrOf};
ghost use Rattle.flash_device.specs.Pages.{HasReadBy, OnHonest};
ghost use Rattle.flash_device.specs.Regions.{LiesOn};
ghost use Rattle.flash_map.specs.Fmap.{map_reads};
ghost use Rattle.flash_map.specs.Regions.{by_device, region_of};
ghost use Rattle.cbfs_commands.specs.Used.{HasUsed};

use flash_device::{Flash, Paged, Region};
use flash_map::{FoundMap, StoreFault, area_named, find_fmap, region_of_area};

/// The flash map that a command used, and the region that it has there.
#[derive(Clone, Copy, Drop)]
pub struct Used {
    pub map: FoundMap,
    pub region: Region,
}

/// Returns the region of the first area with the name, like `region` of flash_map, and stores it
/// with the flash map in `used`.
#[tactic(auto, unfolding(flash_map::specs::Regions::region_of))]
pub fn mapped_region<F: Flash>(
    paged: &mut Paged<F>,
    name: &[u8],
    used: &mut Option<Used>,
) -> Result<Region, StoreFault>
    ensures calls { HasReadBy by_device (map_reads paged.old.device) paged.old paged.new result }
    ensures inside { IfOk result (λ region. LiesOn region paged.old.device) }
    ensures answer { OnHonest paged.old.device
        (λ image. IsErrOf result StoreFault.Device ⊎ (result ≡ region_of image name.now)) }
    ensures used { OnHonest paged.old.device
        (λ image. OnOk result (HasUsed image name.now used.new)) }
{
    let Some(map) = find_fmap(paged)? else {
        return Err(StoreFault::NoFmap);
    };
    let area = area_named(paged, &map, name)?;
    let region = region_of_area(area, paged.len())?;
    *used = Some(Used { map, region });
    Ok(region)
}
