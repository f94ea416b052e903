//! The note on a region that `write` has replaced.
ghost use Rattle.std.specs.Prelude.{◌≡◌, ◌⊎◌, ◌+◌, ◌<◌, ◌≤◌, None, false, length};
ghost use Rattle.std.specs.List.{list_any};
ghost use Rattle.flash_device.specs.Pages.{HasAnswered, OnHonest, Returns};
ghost use Rattle.flash_map.specs.Fmap.{areas_of, map_end};
ghost use Rattle.cbfs_requests.specs.Requests.{request_of};
ghost use Rattle.cbfs_commands.specs.MapNotes.{contains_others, is_inside, is_other_in, range_of_map};
ghost use Rattle.cbfs_commands.specs.MapNotes.{region_note, replaced_region, share_a_byte};
ghost use Rattle.cbfs_commands.specs.Notes.{may_outdate};

use crate::mapped::Used;
use crate::note::stands;
use cbfs_requests::{Command, Refusal};
use flash_device::{Flash, FlashFault, Paged, Region};
use flash_format::Area;
use flash_map::{FoundMap, area};

/// A note on the region that a `write` has replaced.
#[derive(Clone, Copy, Debug, PartialEq, Eq)]
pub enum RegionNote {
    /// The region holds a byte of the flash map.
    HoldsMap,
    /// The region contains other areas of the flash map.
    ContainsAreas,
}

/// Returns whether the offset is one of `size` bytes from `start` on.
fn is_inside(start: u64, size: u64, at: u64) -> bool
    ensures { result ≡ is_inside (record { start = start; size = size }) at }
{
    start <= at && at - start < size
}

/// Returns whether the region holds a byte of the map.
fn holds_map(region: &Region, map: &FoundMap) -> bool
    ensures { result ≡ share_a_byte region.now (range_of_map map.now) }
{
    let (start, size) = (region.start(), region.size());
    let map_len = map.head.map_len();
    (0 < size && is_inside(map.at, map_len, start))
        || (0 < map_len && is_inside(start, size, map.at))
}

/// Returns whether an area with another name, which is not empty, lies in the region.
fn is_other_in(region: &Region, name: &[u8], area: &Area) -> bool
    ensures { result ≡ is_other_in region.now name.now area.now }
{
    let start = u64::from(area.offset);
    !area.name_is(name)
        && 0 < area.size
        && region.start() <= start
        && area.end() - region.start() <= region.size()
}

/// Returns whether the map has an area with another name in the region.
fn has_other_in<F: Flash>(
    paged: &mut Paged<F>,
    map: &FoundMap,
    region: &Region,
    name: &[u8],
) -> Result<bool, FlashFault>
    requires { map_end map.now ≤ length paged.old.device.content }

    ensures calls { HasAnswered map.now.head.nareas paged.old paged.new result }
    ensures has { OnHonest paged.old.device (λ image. Returns result
        (list_any (is_other_in region.now name.now) (areas_of image map.now))) }
{
    for i in 0..map.head.nareas {
        let area = area(paged, map, i)?;
        if is_other_in(region, name, &area) {
            return Ok(true);
        }
    }
    Ok(false)
}

/// Returns whether the map still stands, and has an area with another name in the region.
fn contains_others<F: Flash>(
    paged: &mut Paged<F>,
    used: &Used,
    name: &[u8],
) -> Result<bool, FlashFault>
    ensures calls { HasAnswered (used.now.map.head.nareas + 1) paged.old paged.new result }
    ensures has { OnHonest paged.old.device
        (λ image. Returns result (contains_others used.now name.now image)) }
{
    if !stands(paged, &used.map)? {
        return Ok(false);
    }
    has_other_in(paged, &used.map, &used.region, name)
}

/// Returns the note on a region that was replaced.
fn replaced_region<F: Flash>(
    paged: &mut Paged<F>,
    used: &Used,
    name: &[u8],
) -> Result<Option<RegionNote>, FlashFault>
    ensures calls { HasAnswered (used.now.map.head.nareas + 1) paged.old paged.new result }
    ensures note { OnHonest paged.old.device
        (λ image. Returns result (replaced_region image name.now used.now)) }
{
    if holds_map(&used.region, &used.map) {
        return Ok(Some(RegionNote::HoldsMap));
    }
    if contains_others(paged, used, name)? {
        return Ok(Some(RegionNote::ContainsAreas));
    }
    Ok(None)
}

/// Returns the note that is due after a command: a `write` succeeded, and its region holds a byte
/// of the flash map, or contains another area of it. `used` is the flash map and the region that
/// the command used. A device fault leaves out the note.
pub fn region_note<F: Flash>(
    paged: &mut Paged<F>,
    command: &Command,
    used: &Option<Used>,
    answer: Result<(), Refusal>,
) -> Option<RegionNote>
    ensures silent { may_outdate (request_of command.now) answer ≡ false
        → (result ≡ None) × (paged.new ≡ paged.old) }
    ensures unchanged { OnHonest paged.old.device (λ image. paged.new.device.content ≡ image) }
    ensures note { OnHonest paged.old.device (λ image.
        (result ≡ region_note (request_of command.now) answer used.now image)
        ⊎ ((result ≡ None) × (paged.old.device.faults < paged.new.device.faults))) }
{
    match (command, answer, used) {
        (Command::Write { region }, Ok(()), Some(used)) => {
            match replaced_region(paged, used, region) {
                Ok(note) => note,
                Err(FlashFault) => None,
            }
        }
        _ => None,
    }
}
