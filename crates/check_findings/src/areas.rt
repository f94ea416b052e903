//! The areas of a flash map.

ghost use Rattle.std.specs.Prelude.{◌≡◌, ◌*◌, ◌≤◌, length, IfOk, IfSome};
ghost use Rattle.flash_format.specs.Flashmap.{area_len};
ghost use Rattle.flash_device.specs.Pages.{OnHonest, Lists, HasReadBy};
ghost use Rattle.check_findings.specs.Areas.{image_areas, map_areas};
ghost use Rattle.check_findings.specs.Faults.{by_device};
ghost use Rattle.flash_map.specs.Fmap.{found_in, map_end, map_reads};

use crate::fault::CheckFault;
use flash_device::{Flash, Paged};
use flash_format::Area;
use flash_map::{FoundMap, area, find_fmap};
use std::alloc::Global;

/// An area with its index in the map.
#[derive(Clone, Copy, Drop)]
pub struct NumberedArea {
    pub number: u16,
    pub area: Area,
}

/// The flash map of an image.
#[derive(Drop)]
pub struct ImageMap {
    pub found: Option<FoundMap>,
    pub areas: Vec<NumberedArea>,
}

/// Returns the image's map and areas, or `Device` exactly if a read failed.
pub fn image_map<F: Flash>(alloc: Global, paged: &mut Paged<F>) -> Result<ImageMap, CheckFault>
    ensures calls { HasReadBy by_device (map_reads paged.old.device) paged.old paged.new result }
    ensures inside { IfOk result (λ map.
        IfSome map.found (λ found. map_end found ≤ length paged.old.device.content)) }
    ensures fits { IfOk result (λ map.
        area_len * length map.areas.items ≤ length paged.old.device.content) }
    ensures found { OnHonest paged.old.device
        (λ image. IfOk result (λ map. map.found ≡ found_in image)) }
    ensures areas { OnHonest paged.old.device
        (λ image. IfOk result (λ map. map.areas.items ≡ image_areas image)) }
{
    let Some(found) = find_fmap(paged)? else {
        let areas = Vec::new(alloc);
        return Ok(ImageMap { found: None, areas });
    };
    let areas = map_areas(alloc, paged, &found)?;
    let found = Some(found);
    Ok(ImageMap { found, areas })
}

#[tactic(auto, unfolding(flash_format::specs::Flashmap::areas_from))]
fn map_areas<F: Flash>(
    alloc: Global,
    paged: &mut Paged<F>,
    map: &FoundMap,
) -> Result<Vec<NumberedArea>, CheckFault>
    requires { map_end map.now ≤ length paged.old.device.content }

    ensures calls { HasReadBy by_device map.now.head.nareas paged.old paged.new result }
    ensures count { IfOk result (λ areas. length areas.items ≡ map.now.head.nareas) }
    ensures areas { OnHonest paged.old.device (λ image. Lists result (map_areas image map.now)) }
{
    let mut areas = Vec::new(alloc);
    for number in 0..map.head.nareas {
        let area = area(paged, map, number)?;
        areas.push(NumberedArea { number, area })?;
    }
    Ok(areas)
}
