//! The plan of a new image.

ghost use Rattle.std.specs.Prelude.{◌≡◌, ◌+◌, ◌/◌, ◌≤◌, length, map, nat_lt, IfOk};
ghost use Rattle.std.specs.List.{list_any};
ghost use Rattle.std.specs.Result.{result_map_both};
ghost use Rattle.flash_format.specs.Flashmap.{area_len};
ghost use Rattle.cbfs_commands.specs.Creations.{AnswersBySource, plan_for};
ghost use Rattle.cbfs_commands.specs.Laws.{IsSoundPlan};
ghost use Rattle.cbfs_commands.specs.Creations.{region_places, share_bytes, some_overlap};

use crate::create::flashmap::first_areas;
use arrayvec::ArrayVec;
use cbfs_requests::{MOST_REGIONS, Refusal};
use cbfs_walk::has_bad_size;
use flash_device::{Region, Source};
use flash_format::Area;
use flash_map::{map_in_source, region_of_area};

/// The ranges of a new image.
#[derive(Drop)]
pub struct Plan {
    /// The flashmap's area.
    pub map: Region,
    /// The flashmap's length in bytes.
    pub map_len: u64,
    /// In the order of the command line.
    pub regions: ArrayVec<Region, MOST_REGIONS>,
}

/// Returns areas with valid sizes for a CBFS.
fn region_places(
    areas: &[Option<Area>],
    image_len: u64,
) -> Result<ArrayVec<Region, MOST_REGIONS>, Refusal>
    requires { length areas.now ≤ MOST_REGIONS }
    ensures { result_map_both (λ places. places.items) (λ refusal. refusal) result
        ≡ region_places image_len areas.now }
{
    let mut places = ArrayVec::new();
    for i in 0..areas.len() {
        let place = region_of_area(areas[i], image_len)?;
        if has_bad_size(place.size()) {
            return Err(Refusal::RegionShape);
        }
        places.push(place);
    }
    Ok(places)
}

fn share_bytes(a: &Region, b: &Region) -> bool
    ensures { result ≡ share_bytes a.now b.now }
{
    begins_before_end(a, b) && begins_before_end(b, a)
}

fn begins_before_end(a: &Region, b: &Region) -> bool
    ensures { result ≡ nat_lt a.now.start (b.now.start + b.now.size) }
{
    a.start() < b.start() || a.start() - b.start() < b.size()
}

fn overlaps_any(place: &Region, others: &[Region]) -> bool
    ensures { result ≡ list_any (share_bytes place.now) others.now }
{
    others.iter().any(|other| share_bytes(place, other))
}

fn some_overlap(mut places: &[Region]) -> bool
    ensures { result ≡ some_overlap places.entry.now }
{
    while let [first, rest @ ..] = places {
        if overlaps_any(first, rest) {
            return true;
        }
        places = rest;
    }
    false
}

/// Returns the plan of an image of `image_len` bytes with the named regions.
#[tactic(auto, unfolding(crate::specs::Creations::plan_for))]
pub fn read_plan<S: Source>(
    names: &[&[u8]],
    source: &mut S,
    image_len: u64,
) -> Result<Plan, Refusal>
    requires { length names.now ≤ MOST_REGIONS }

    ensures plan { AnswersBySource S.facts (length (S.facts source.old).content / area_len + 1)
        source.old source.new result (plan_for image_len (map (λ name. name.now) names.now)) }
    ensures sound { IfOk result (IsSoundPlan image_len (S.facts source.old).content) }
{
    let Some(head) = map_in_source(source)? else {
        return Err(Refusal::TableBad);
    };
    if u64::from(head.size) != image_len {
        return Err(Refusal::TableBad);
    }
    let found = first_areas(source, &head, names)?;
    let map = match region_of_area(found.map, image_len) {
        Ok(place) if place.size() >= head.map_len() => place,
        _ => return Err(Refusal::FmapArea),
    };
    let regions = region_places(&found.regions[..names.len()], image_len)?;
    if overlaps_any(&map, &regions) || some_overlap(&regions) {
        return Err(Refusal::FmapArea);
    }
    Ok(Plan {
        map,
        map_len: head.map_len(),
        regions,
    })
}
