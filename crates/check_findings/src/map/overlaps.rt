//! Areas that overlap without nesting.

ghost use Rattle.std.specs.Prelude.{◌≡◌};
ghost use Rattle.std.specs.List.{find};
ghost use Rattle.check_findings.specs.Lists.{Gains};
ghost use Rattle.check_findings.specs.MapFindings.{ends_inside, overlap, overlap_findings};

use crate::areas::NumberedArea;
use crate::lists::{Pushed, push};
use crate::map::finding::{MapFinding, MapFindings};
use flash_format::Area;

/// The limit of pairwise comparisons. All 65535 areas of a map would take seconds.
const MOST_COMPARED: usize = 4096;

/// Appends for each area the first area that overlaps it without nesting, or a single finding above
/// 4096 areas. Returns an error if an allocation failed.
pub fn push_overlap_findings(findings: &mut MapFindings, areas: &[NumberedArea]) -> Pushed
    ensures { Gains findings.old findings.new result (overlap_findings areas.now) }
{
    if areas.len() > MOST_COMPARED {
        return push(findings, MapFinding::TooManyAreas);
    }
    for a in areas {
        if let Some(other) = first_overlap(areas, a) {
            findings.push(MapFinding::Overlap { area: *a, other })?;
        }
    }
    Ok(())
}

fn first_overlap(areas: &[NumberedArea], a: &NumberedArea) -> Option<NumberedArea>
    ensures { result ≡ find (overlap a.now) areas.now }
{
    areas.iter().copied().find(|b| ends_inside(&a.area, &b.area) || ends_inside(&b.area, &a.area))
}

fn ends_inside(a: &Area, b: &Area) -> bool
    ensures { result ≡ ends_inside a.now b.now }
{
    a.offset < b.offset && u64::from(b.offset) < a.end() && a.end() < b.end()
}
