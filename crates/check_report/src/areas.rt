//! Rows of changed maps and areas.
ghost use Rattle.std.specs.Prelude.{◌≡◌, option_map, option_to_list};
ghost use Rattle.check_report.specs.Rows.{names_in, of_area, seen_row};
ghost use Rattle.check_report.specs.ChangeRows.{area_change_rows, area_rows, change_row};
ghost use Rattle.check_report.specs.ChangeRows.{map_change_row};

use crate::kept::change_verdict;
use crate::names::KnownNames;
use crate::rows::{Row, Verdict};
use check_changes::{AreaChange, AreaDifference, MapChange};
use check_findings::NumberedArea;

/// Returns the row of a change of the flash map itself. Another name or base address is bad on
/// request.
pub fn map_change_row<'a>(is_strict: bool, change: &MapChange) -> Row<'a>
    ensures { seen_row result ≡ map_change_row is_strict change.now }
{
    let (v, strict) = (Verdict::Change, change_verdict(is_strict));
    match change {
        MapChange::NoOldMap => v.row("no-old-map", "the old image has no flashmap"),
        MapChange::MovedFrom(at) => v.row("map-moved", "flashmap moved from").number(*at),
        MapChange::BaseFrom(base) => {
            strict
                .row("map-base", "base address changed from")
                .number(*base)
        }
        MapChange::NameChanged => strict.row("map-name", "name of the flashmap changed"),
    }
}

/// Returns the row of a difference, without its area. A kept area counts all different blocks,
/// other areas count those outside smaller areas, if any.
fn area_row<'a>(is_kept: bool, is_vital: bool, what: AreaDifference) -> Option<Row<'a>>
    ensures { option_to_list (option_map seen_row result) ≡ area_rows is_kept is_vital what }
{
    let v = change_verdict(is_kept);
    let row = match what {
        AreaDifference::Added => v.row("area-added", "area added"),
        AreaDifference::Gone => change_verdict(is_vital).row("area-gone", "area gone"),
        AreaDifference::MovedFrom(at) => {
            v.row("area-moved", "area moved from").number(u64::from(at))
        }
        AreaDifference::ResizedFrom(size) => {
            let resized = v.row("area-resized", "area resized from");
            resized.number(u64::from(size))
        }
        AreaDifference::FlagsFrom(flags) => {
            let changed = v.row("area-flags", "flags changed from");
            changed.number(u64::from(flags))
        }
        AreaDifference::Differs { blocks, own } => {
            let blocks = if is_kept { blocks } else { own };
            if blocks == 0 {
                return None;
            }
            v.row("area-changed", "erase blocks differ")
                .count(u64::from(blocks))
        }
        AreaDifference::NotCompared => v.row("area-not-compared", "not compared"),
    };
    Some(row)
}

/// Returns the row of a change, if any. Changes of kept areas are bad, and removals of vital areas.
#[tactic(auto, unfolding(crate::specs::ChangeRows::area_change_rows))]
pub fn area_change_row<'a>(
    kept: &KnownNames<'_>,
    vital: &KnownNames<'_>,
    change: &'a AreaChange,
) -> Option<Row<'a>>
    ensures { option_to_list (option_map seen_row result) ≡ area_change_rows
        (names_in kept.now.names.items) (names_in vital.now.names.items) change.now }
{
    let area = &change.area;
    let row = area_row(kept.have(area), vital.have(area), change.what)?;
    Some(row.of(area))
}

/// Returns the row of an area without a comparison of components.
pub fn not_compared_row<'a>(is_kept: bool, area: &'a NumberedArea) -> Row<'a>
    ensures { seen_row result ≡ of_area area.now
        (change_row is_kept "components-not-compared" "components not compared") }
{
    let v = change_verdict(is_kept);
    v.row("components-not-compared", "components not compared")
        .of(area)
}
