//! The findings of a map and its areas.

ghost use Rattle.std.specs.Prelude.{◌≡◌, ◌+◌, ◌^◌, ◌<◌, ◌≤◌};
ghost use Rattle.std.specs.List.{find, flat_map};
ghost use Rattle.std.specs.Str.{is_utf8};
ghost use lib.Chars.{codes};
ghost use Rattle.check_findings.specs.Areas.{has_name};
ghost use Rattle.flash_format.specs.Flashmap.{map_len};
ghost use Rattle.check_findings.specs.Lists.{Gains};
ghost use Rattle.check_findings.specs.MapFindings.{area_findings, findings_of, map_area_findings};
ghost use Rattle.flash_device.specs.Pages.{Lists};

use crate::areas::NumberedArea;
use crate::lists::{Pushed, push_if};
use crate::map::finding::{MapFinding, MapFindings};
use crate::map::names::push_name_findings;
use crate::map::overlaps::push_overlap_findings;
use flash_map::FoundMap;
use std::alloc::{AllocError, Global};

/// Returns the findings in an image of `len` bytes. `next` is the map at the next higher offset.
pub fn findings_of(
    alloc: Global,
    len: u64,
    map: &FoundMap,
    next: Option<FoundMap>,
    areas: &[NumberedArea],
) -> Result<MapFindings, AllocError>
    requires { map.now.at + map_len map.now.head ≤ len }
    ensures { Lists result (findings_of len map.now next areas.now) }
{
    let mut findings = Vec::new(alloc);
    let has_other_size = u64::from(map.head.size) != len;
    findings.push(MapFinding::Map(*map))?;
    if let Some(next) = next {
        findings.push(MapFinding::OtherMap(next))?;
    }
    push_if(&mut findings, has_other_size, MapFinding::OtherSize)?;
    push_area_findings(&mut findings, len, areas)?;
    push_name_findings(alloc, &mut findings, areas)?;
    push_overlap_findings(&mut findings, areas)?;
    push_map_area_findings(&mut findings, map, areas)?;
    Ok(findings)
}

fn push_area_findings(findings: &mut MapFindings, len: u64, areas: &[NumberedArea]) -> Pushed
    ensures { Gains findings.old findings.new result (flat_map (area_findings len) areas.now) }
{
    for a in areas {
        let is_bytes = !is_text(a.area.text());
        push_if(findings, a.area.end() > len, MapFinding::AreaOutside(*a))?;
        push_if(findings, a.area.size == 0, MapFinding::AreaEmpty(*a))?;
        push_if(findings, is_bytes, MapFinding::AreaNameNotText(*a))?;
    }
    Ok(())
}

/// Returns whether the bytes are UTF-8.
pub fn is_text(bytes: &[u8]) -> bool
    ensures { result ≡ is_utf8 bytes.now }
{
    str::from_utf8(bytes).is_ok()
}

fn push_map_area_findings(
    findings: &mut MapFindings,
    map: &FoundMap,
    areas: &[NumberedArea],
) -> Pushed
    requires { map.now.at + map_len map.now.head < 2 ^ 64 }
    ensures { Gains findings.old findings.new result (map_area_findings map.now areas.now) }
{
    let map_end = map.at + map.head.map_len();
    let area = map_area(areas);
    let begins_with_it = match area {
        Some(NumberedArea { area, .. }) => {
            u64::from(area.offset) == map.at && map_end <= area.end()
        }
        None => false,
    };
    push_if(findings, !begins_with_it, MapFinding::MapAreaMisses(area))
}

fn map_area(areas: &[NumberedArea]) -> Option<NumberedArea>
    ensures { result ≡ find (has_name (codes "FMAP")) areas.now }
{
    areas.iter().copied().find(|a| a.area.name_is(b"FMAP"))
}
