//! The line that names the areas of a flash map.

ghost use Rattle.std.specs.Prelude.{◌≡◌, ◌++◌, ◌≤◌, IfOk, OnOk, length, map};
ghost use Rattle.flash_device.specs.Pages.{HasReadBy, OnHonest};
ghost use Rattle.flash_map.specs.Fmap.{map_end, map_reads};
ghost use Rattle.cbfs_mistakes.specs.Areas.{area_names, areas_line};
ghost use Rattle.cbfs_mistakes.specs.Faults.{by_device};

use crate::list_fault::ListFault;
use crate::names_line::push_names;
use crate::near::near_first;
use flash_device::{Flash, Paged};
use flash_map::{FoundMap, area, find_fmap};
use std::alloc::Global;

/// Returns the names of a map's areas.
fn area_names<F: Flash>(
    alloc: Global,
    paged: &mut Paged<F>,
    found: &FoundMap,
) -> Result<Vec<Vec<u8>>, ListFault>
    requires { map_end found.now ≤ length paged.old.device.content }

    ensures calls { HasReadBy by_device found.now.head.nareas paged.old paged.new result }
    ensures names { OnHonest paged.old.device (λ image. IfOk result (λ names.
        map (λ name. name.items) names.items ≡ area_names image found.now)) }
{
    let mut names = Vec::new(alloc);
    for i in 0..found.head.nareas {
        let area = area(paged, found, i)?;
        let name = area.text().to_vec(alloc)?;
        if names.push(name).is_err() {
            return Err(ListFault::Memory);
        }
    }
    Ok(names)
}

/// Appends the line that names the areas of the image's flash map, if the image has a flash map
/// with areas. Names near `given` come first. Errors: a failed read, or an allocation failure.
pub fn push_areas<F: Flash>(
    alloc: Global,
    out: &mut Vec<u8>,
    paged: &mut Paged<F>,
    given: &[u8],
) -> Result<(), ListFault>
    ensures calls { HasReadBy by_device (map_reads paged.old.device) paged.old paged.new result }
    ensures line { OnHonest paged.old.device (λ image.
        OnOk result (out.new.items ≡ out.old.items ++ areas_line image given.now)) }
{
    let Some(map) = find_fmap(paged)? else {
        return Ok(());
    };
    let names = area_names(alloc, paged, &map)?;
    let sorted = near_first(alloc, given, names.as_slice())?;
    push_names(out, "cbfstool: its areas are: ", sorted.as_slice())?;
    Ok(())
}
