//! Areas that must not change.
ghost use Rattle.std.specs.Prelude.{◌≡◌, ◌++◌, ◌&&◌, ◌==◌, if◌then◌else◌, length, not};
ghost use Rattle.std.specs.List.{list_any};
ghost use Rattle.check_findings.specs.Areas.{has_name};
ghost use Rattle.check_report.specs.Effects.{Adds};
ghost use Rattle.check_report.specs.Reports.{absent_rows, both_areas, is_preserved, missing_rows};
ghost use Rattle.check_report.specs.declared.rows.row.Verdict.TheVariants.{Bad, Change};

use crate::fault::WriteFault;
use crate::findings::missing_row;
use crate::inspection::Changes;
use crate::names::is_preserved;
use crate::request::Request;
use crate::rows::{RowWriter, Value, Verdict};
use check_findings::NumberedArea;
use flash_device::Sink;

/// Returns the verdict of a change: bad in an area that must not change.
pub fn change_verdict(is_kept: bool) -> Verdict
    ensures { result ≡ (if is_kept then Bad else Change) }
{
    if is_kept {
        Verdict::Bad
    } else {
        Verdict::Change
    }
}

fn is_there(old_areas: &[NumberedArea], new_areas: &[NumberedArea], name: &[u8]) -> bool
    ensures { result ≡ list_any (has_name name.now) (old_areas.now ++ new_areas.now) }
{
    let mut areas = old_areas.iter().chain(new_areas);
    areas.any(|area| area.area.name_is(name))
}

/// Adds a row for each kept name that neither image has.
fn add_missing<W: Sink + Drop>(
    rows: &mut RowWriter<W>,
    request: Request<'_>,
    new_areas: &[NumberedArea],
    changes: &Changes,
) -> Result<(), WriteFault>
    ensures { Adds W.Sink result rows.old rows.new
        (missing_rows request.entry new_areas.now changes.now) }
{
    let old_areas = changes.old.areas_or(new_areas);
    for name in request.kept {
        let missing = missing_row(Value::Name(name));
        rows.add_if(!is_there(old_areas, new_areas, name), missing)?;
    }
    Ok(())
}

fn has_preserved(old_areas: &[NumberedArea], new_areas: &[NumberedArea]) -> bool
    ensures { result ≡ list_any is_preserved (old_areas.now ++ new_areas.now) }
{
    let mut areas = old_areas.iter().chain(new_areas);
    areas.any(|area| is_preserved(area))
}

/// Returns whether areas with the flag PRESERVE must not change, and neither image has one.
fn lacks_preserved(request: Request<'_>, new_areas: &[NumberedArea], changes: &Changes) -> bool
    ensures { result ≡ (request.entry.keeps_preserved
        && not (list_any is_preserved (both_areas request.entry new_areas.now changes.now))) }
{
    let has_some = has_preserved(changes.old.areas_or(new_areas), new_areas);
    request.keeps_preserved && !has_some
}

/// Returns whether a request that keeps no area by its name is strict.
fn is_strict_without_names(request: Request<'_>) -> bool
    ensures { result ≡ (request.entry.is_strict && length request.entry.kept.now == 0) }
{
    request.is_strict && request.kept.is_empty()
}

/// Adds rows for what is to be kept and neither image has: one for each kept name, and one if areas
/// with the flag PRESERVE are asked for and there are none.
pub fn add_absent<W: Sink + Drop>(
    rows: &mut RowWriter<W>,
    request: Request<'_>,
    new_areas: &[NumberedArea],
    changes: &Changes,
) -> Result<(), WriteFault>
    ensures { Adds W.Sink result rows.old rows.new
        (absent_rows request.entry new_areas.now changes.now) }
{
    add_missing(rows, request, new_areas, changes)?;
    let verdict = Verdict::of_finding(is_strict_without_names(request));
    let none = verdict.row("none-preserved", "no area has the flag PRESERVE");
    rows.add_if(lacks_preserved(request, new_areas, changes), none)
}
