//! The check of a flash map.

ghost use Rattle.std.specs.Prelude.{◌+◌, ◌*◌, ◌/◌, ◌≤◌, length, IfOk, IfSome};
ghost use Rattle.flash_format.specs.Flashmap.{area_len};
ghost use Rattle.flash_map.specs.Fmap.{found_in, map_end};
ghost use Rattle.flash_device.specs.Pages.{HasReadBy};
ghost use Rattle.check_findings.specs.Faults.{by_device};
ghost use Rattle.check_findings.specs.Lists.{GivesPart};
ghost use Rattle.check_findings.specs.MapFindings.{map_findings};
ghost use Rattle.check_findings.specs.Areas.{image_areas};

use crate::areas::{ImageMap, NumberedArea, image_map};
use crate::fault::CheckFault;
use crate::map::finding::MapFinding;
use crate::map::findings::findings_of;
use flash_device::{Flash, Paged};
use flash_map::{FoundMap, find_fmap_from};
use std::alloc::Global;

/// A map's findings, with the map and its areas.
#[derive(Drop)]
pub struct CheckedMap {
    pub findings: Vec<MapFinding>,
    pub found: Option<FoundMap>,
    /// All areas, in order; empty without a map.
    pub areas: Vec<NumberedArea>,
}

/// Returns the findings of the image's map in the order of `MapFinding`, or `Device` exactly if a
/// read failed.
pub fn check_map<F: Flash>(alloc: Global, paged: &mut Paged<F>) -> Result<CheckedMap, CheckFault>
    ensures calls { HasReadBy by_device (length paged.old.device.content
        + length paged.old.device.content / area_len + 16) paged.old paged.new result }
    ensures inside { IfOk result (λ map.
        IfSome map.found (λ found. map_end found ≤ length paged.old.device.content)) }
    ensures fits { IfOk result (λ map.
        area_len * length map.areas.items ≤ length paged.old.device.content) }
    ensures found { GivesPart paged.old result (λ map. map.found) found_in }
    ensures answer { GivesPart paged.old result (λ map. map.findings.items) map_findings }
    ensures areas { GivesPart paged.old result (λ map. map.areas.items) image_areas }
{
    let len = paged.len();
    let ImageMap { found, areas } = image_map(alloc, paged)?;
    let findings = match found {
        Some(map) => {
            let next = find_fmap_from(paged, map.at + 1)?;
            findings_of(alloc, len, &map, next, &areas)?
        }
        None => vec![in alloc; MapFinding::NoMap]?,
    };
    Ok(CheckedMap {
        findings,
        found,
        areas,
    })
}
