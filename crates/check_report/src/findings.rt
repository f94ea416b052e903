//! Rows of an image's findings, and of unmet needs.
ghost use Rattle.std.specs.Prelude.{◌≡◌, slice_get};
ghost use Rattle.std.specs.Option.{option_map_or};
ghost use Rattle.check_report.specs.declared.rows.field.Value.TheVariants.{Dash};
ghost use Rattle.check_report.specs.Fields.{name_value, seen_value};
ghost use Rattle.check_report.specs.Rows.{seen_row};
ghost use Rattle.check_report.specs.Effects.{Adds};
ghost use Rattle.check_findings.specs.declared.map.finding.MapFinding.TheVariants.{MapAreaMisses};
ghost use Rattle.check_report.specs.FindingRows.{finding_rows, map_row, missing_row, need_row};
ghost use Rattle.check_report.specs.FindingRows.{need_rows};

use crate::anchor::anchor_row;
use crate::fault::WriteFault;
use crate::region::add_region;
use crate::request::Asked;
use crate::rows::{Row, RowWriter, Value, Verdict};
use check_findings::{HashRules, ImageFinding, MapFinding, Need, NeedFinding, NumberedArea, unmet};
use flash_device::Sink;

/// Returns the row of a name without an area.
pub fn missing_row(area: Value<'_>) -> Row<'_>
    ensures { seen_row result ≡ missing_row (seen_value area.entry) }
{
    let mut row = Verdict::Bad.row("no-area", "no such area");
    row.area = area;
    row
}

fn name_at<'a>(names: &[&'a [u8]], n: usize) -> Value<'a>
    ensures { seen_value result
        ≡ option_map_or (λ name. name_value name.now) (slice_get names.now n) (seen_value Dash) }
{
    let name = names.get(n).copied();
    name.map_or(Value::Dash, Value::Name)
}

/// Returns the row of a finding of the flash map.
fn map_row(finding: &MapFinding) -> Row<'_>
    ensures { seen_row result ≡ map_row finding.now }
{
    let (bad, remark) = (Verdict::Bad, Verdict::Remark);
    match finding {
        MapFinding::NoMap => bad.row("no-map", "no flashmap"),
        MapFinding::Map(map) => remark.row("map", "flashmap").at(map.at),
        MapFinding::OtherMap(map) => remark.row("other-map", "another flashmap").at(map.at),
        MapFinding::OtherSize => {
            let what = "the flashmap states another size than the image has";
            bad.row("map-size", what)
        }
        MapFinding::AreaOutside(area) => bad.row("area-outside", "ends outside the image").of(area),
        MapFinding::AreaEmpty(area) => remark.row("area-empty", "has no bytes").of(area),
        MapFinding::AreaNameNotText(area) => remark.row("area-name", "name isn't UTF-8").of(area),
        MapFinding::SameName { area, first } => {
            let same = bad.row("area-same-name", "has the name of an earlier area");
            same.of(area).other(first)
        }
        MapFinding::Overlap { area, other } => {
            bad.row("area-overlaps", "overlaps").of(area).other(other)
        }
        MapFinding::TooManyAreas => {
            bad.row("too-many-areas", "too many areas to look for overlaps")
        }
        MapFinding::MapAreaMisses(area) => map_area_row(area),
    }
}

fn map_area_row(area: &Option<NumberedArea>) -> Row<'_>
    ensures { seen_row result ≡ map_row (MapAreaMisses area.now) }
{
    match area {
        None => Verdict::Bad.row("no-map-area", "no area FMAP"),
        Some(area) => {
            let row = Verdict::Bad.row("map-area", "doesn't begin with the flashmap");
            row.of(area)
        }
    }
}

/// Adds the rows of findings in order. `names` are the given area names.
pub fn add_findings<W: Sink + Drop>(
    rows: &mut RowWriter<W>,
    asked: Asked,
    findings: &[ImageFinding],
    names: &[&[u8]],
) -> Result<(), WriteFault>
    ensures { Adds W.Sink result rows.old rows.new (finding_rows asked names.now findings.now) }
{
    for finding in findings {
        match finding {
            ImageFinding::Map(of_map) => rows.add(map_row(of_map))?,
            ImageFinding::Anchor(of_anchor) => rows.add(anchor_row(of_anchor))?,
            ImageFinding::Region {
                area,
                anchor,
                findings,
            } => {
                let rules = HashRules {
                    needs_all: asked.needs_hashes,
                    anchor: *anchor,
                };
                add_region(rows, asked, rules, area.area.text(), findings.as_slice())?;
            }
            ImageFinding::NotChecked { area, is_named } => {
                let what = "isn't checked: checked areas would exceed twice the image";
                let row = Verdict::of_finding(*is_named).row("area-not-checked", what);
                rows.add(row.of(area))?;
            }
            ImageFinding::NoArea(number) => rows.add(missing_row(name_at(names, *number)))?,
        }
    }
    Ok(())
}

fn need_row<'a>(finding: NeedFinding) -> Row<'a>
    ensures { seen_row result ≡ need_row finding }
{
    let bad = Verdict::Bad;
    match finding {
        NeedFinding::Missing => bad.row("need-missing", "needed component isn't there"),
        NeedFinding::Elsewhere(at) => {
            bad.row("need-elsewhere", "needed component is elsewhere")
                .at(at)
        }
    }
}

/// Adds a row for each unmet need.
pub fn add_needs<W: Sink + Drop>(
    rows: &mut RowWriter<W>,
    findings: &[ImageFinding],
    needs: &[Need<'_>],
) -> Result<(), WriteFault>
    ensures { Adds W.Sink result rows.old rows.new (need_rows findings.now needs.now) }
{
    for need in needs {
        if let Some(finding) = unmet(findings, *need) {
            rows.add(need_row(finding).of_component(need.area, need.name))?;
        }
    }
    Ok(())
}
