//! The source's flashmap.

ghost use Rattle.std.specs.Prelude.{◌≡◌, ◌⊎◌, ◌≤◌, ◌++◌, ◌∷◌, [], List, Option, length, map};
ghost use Rattle.std.specs.Prelude.{take, drop, IfOk, IfErr};
ghost use Rattle.std.specs.Option.{ok_or, option_map};
ghost use lib.Chars.{codes};
ghost use Rattle.flash_format.specs.declared.flashmap.Area.{Area};
ghost use Rattle.flash_format.specs.Flashmap.{fmap_head_len, map_len, areas_from};
ghost use Rattle.flash_device.specs.Device.{Reads, refusals};
ghost use Rattle.flash_device.specs.Pages.{OnHonest};
ghost use Rattle.flash_map.specs.Fmap.{first_area, map_head};
ghost use Rattle.cbfs_commands.specs.Creations.{AnswersBySource};

use cbfs_requests::{MOST_REGIONS, Refusal};
use flash_device::{Source, SourceFault};
use flash_format::{Area, FmapHead};
use flash_map::{area_in_source, map_in_source};

const MAP_AREA: &[u8] = b"FMAP";

/// Returns the image's size according to the flashmap's header. Errors: an invalid or truncated
/// flashmap (18), and read errors (3).
pub fn create_size<S: Source>(source: &mut S) -> Result<u32, Refusal>
    ensures size { AnswersBySource S.facts 1 source.old source.new result
        (λ content. ok_or (option_map (λ h. h.size) (map_head content)) Refusal.TableBad) }
    ensures refusals { IfErr result (λ r. (r ≡ Refusal.Source) ⊎ (r ≡ Refusal.TableBad)) }
{
    match map_in_source(source)? {
        Some(head) => Ok(head.size),
        None => Err(Refusal::TableBad),
    }
}

/// The first areas with the names of the map and of each region.
#[derive(Drop)]
pub struct FoundAreas {
    pub map: Option<Area>,
    /// An entry per name, then `None`.
    pub regions: [Option<Area>; MOST_REGIONS],
}

/// Returns the first area with the name so far.
fn noted(before: Option<Area>, name: &[u8], area: &Area) -> Option<Area>
    ensures { (seen : List Area) → before ≡ first_area seen name.now
        → result ≡ first_area (seen ++ area.now ∷ []) name.now }
{
    match before {
        Some(first) => Some(first),
        None if area.name_is(name) => Some(*area),
        None => None,
    }
}

fn note_each(found: &mut [Option<Area>; MOST_REGIONS], names: &[&[u8]], area: &Area)
    requires { length names.now ≤ MOST_REGIONS }
    ensures { (seen : List Area) (rest : List (Option Area)) →
        found.old ≡ map (first_area seen) (map (λ n. n.now) names.now) ++ rest →
        found.new ≡ map (first_area (seen ++ area.now ∷ [])) (map (λ n. n.now) names.now) ++ rest }
{
    for i in 0..names.len() {
        found[i] = noted(found[i], names[i], area);
    }
}

/// Finds the first area with each name, in one pass.
pub fn first_areas<S: Source>(
    source: &mut S,
    head: &FmapHead,
    names: &[&[u8]],
) -> Result<FoundAreas, SourceFault>
    requires inside { map_len head.now ≤ length (S.facts source.old).content }
    requires few { length names.now ≤ MOST_REGIONS }

    ensures calls { Reads head.now.nareas (refusals result) (S.facts source.old)
        (S.facts source.new) }

    ensures areas { OnHonest (S.facts source.old) (λ content. IfOk result (λ found.
        let areas = areas_from head.now.nareas (drop fmap_head_len content) in
        (found.map ≡ first_area areas (codes "FMAP")) × (take (length names.now) found.regions
        ≡ map (first_area areas) (map (λ n. n.now) names.now)))) }
{
    let mut found = FoundAreas {
        map: None,
        regions: [None; MOST_REGIONS],
    };
    for i in 0..head.nareas {
        let area = area_in_source(source, head, i)?;
        found.map = noted(found.map, MAP_AREA, &area);
        note_each(&mut found.regions, names, &area);
    }
    Ok(found)
}
