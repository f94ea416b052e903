//! The areas of a flash map as lines of a table.
ghost use Rattle.std.specs.Prelude.{◌≡◌, ◌&&◌, ◌==◌, length, map, nat_le, if◌then◌else◌};
ghost use Rattle.std.specs.List.{find, list_any};
ghost use Rattle.check_changes.specs.Areas.{is_first_of_name};
ghost use Rattle.check_findings.specs.Areas.{has_name};
ghost use Rattle.check_report.specs.AreaLines.{area_fields, area_line, area_lines, change_value};
ghost use Rattle.check_report.specs.AreaLines.{change_word, difference_word, is_change_of};
ghost use Rattle.check_report.specs.AreaLines.{is_checked, is_region_of};
ghost use Rattle.check_report.specs.AreaLines.{unchanged_word, word_if};
ghost use Rattle.check_report.specs.Fields.{seen_field, seen_value};
ghost use Rattle.check_report.specs.Effects.{PrintsLines};
ghost use lib.Chars.{codes};

use crate::fault::WriteFault;
use crate::inspection::Inspection;
use crate::names::is_preserved;
use crate::rows::{Field, Printer, Value};
use check_changes::{AreaChange, AreaDifference};
use check_findings::{ImageFinding, NumberedArea};
use flash_device::Sink;

/// The most areas of a printed table.
const MOST: usize = 128;

fn word_if(holds: bool, word: &'static str) -> Value<'static>
    ensures { seen_value result ≡ word_if holds word.now }
{
    if holds {
        Value::Text(word)
    } else {
        Value::Absent
    }
}

fn is_region_of(area: &NumberedArea, finding: &ImageFinding) -> bool
    ensures { result ≡ is_region_of area.now finding.now }
{
    match finding {
        ImageFinding::Region { area: region, .. } => region.number == area.number,
        _ => false,
    }
}

/// Returns whether the area is checked as a CBFS.
fn is_checked(findings: &[ImageFinding], area: &NumberedArea) -> bool
    ensures { result ≡ is_checked findings.now area.now }
{
    findings.iter().any(|finding| is_region_of(area, finding))
}

fn difference_word(what: AreaDifference) -> &'static str
    ensures { result.now ≡ difference_word what }
{
    match what {
        AreaDifference::Added => "new",
        AreaDifference::Gone => "gone",
        AreaDifference::MovedFrom(_) => "moved",
        AreaDifference::ResizedFrom(_) => "resized",
        AreaDifference::FlagsFrom(_) => "other flags",
        AreaDifference::Differs { .. } => "changed",
        AreaDifference::NotCompared => "not compared",
    }
}

fn is_change_of(area: &NumberedArea, change: &AreaChange) -> bool
    ensures { result ≡ is_change_of area.now change.now }
{
    !matches!(change.what, AreaDifference::Gone) && change.area.number == area.number
}

fn area_named(areas: &[NumberedArea], name: &[u8]) -> Option<NumberedArea>
    ensures { result ≡ find (has_name name.now) areas.now }
{
    areas.iter().copied().find(|area| area.area.name_is(name))
}

/// Returns whether the area is the first of its name.
fn is_first_of_name(areas: &[NumberedArea], area: &NumberedArea) -> bool
    ensures { result ≡ is_first_of_name areas.now area.now }
{
    match area_named(areas, area.area.text()) {
        Some(first) => first.number == area.number,
        None => false,
    }
}

/// Returns the word for an area without a change. The bytes of a second area of a name are not
/// compared.
fn unchanged_word(areas: &[NumberedArea], area: &NumberedArea) -> &'static str
    ensures { result.now ≡ unchanged_word areas.now area.now }
{
    if is_first_of_name(areas, area) {
        "unchanged"
    } else {
        "not compared"
    }
}

fn first_change(changes: &[AreaChange], area: &NumberedArea) -> Option<AreaChange>
    ensures { result ≡ find (is_change_of area.now) changes.now }
{
    changes
        .iter()
        .copied()
        .find(|change| is_change_of(area, change))
}

/// Returns what flashing does to the area, in words.
fn change_word(areas: &[NumberedArea], changes: &[AreaChange], area: &NumberedArea) -> &'static str
    ensures { result.now ≡ change_word areas.now changes.now area.now }
{
    match first_change(changes, area) {
        Some(change) => difference_word(change.what),
        None => unchanged_word(areas, area),
    }
}

impl Inspection {
    fn change_value(&self, area: &NumberedArea) -> Value<'static>
        ensures { seen_value result ≡ change_value self.now area.now }
    {
        match &self.changes {
            Some(changes) => {
                let areas = &changes.comparison.areas;
                Value::Text(change_word(&self.areas, areas, area))
            }
            None => Value::Absent,
        }
    }

    fn area_fields<'a>(&self, area: &'a NumberedArea) -> [Field<'a>; 6]
        ensures { map seen_field result ≡ area_fields self.now area.now }
    {
        let is_checked = is_checked(&self.findings, area);
        [
            ("place", Value::Place(area.area.offset)),
            ("size", Value::Offset(u64::from(area.area.size))),
            ("name", Value::Name(area.area.text())),
            ("change", self.change_value(area)),
            ("preserve", word_if(is_preserved(area), "flag PRESERVE")),
            ("cbfs", word_if(is_checked, "cbfs")),
        ]
    }

    /// Returns whether the areas are few enough for a table.
    fn has_area_table(&self) -> bool
        ensures { result ≡ nat_le (length self.now.areas.items) 128 }
    {
        self.areas.as_slice().len() <= MOST
    }

    fn list_all_areas<W: Sink + Drop>(
        &self,
        areas: &[NumberedArea],
        printer: &mut Printer<W>,
    ) -> Result<(), WriteFault>
        ensures { PrintsLines W.Sink result printer.old printer.new
            (map (area_line self.now) areas.now) }
    {
        for area in areas {
            printer.line("area", &self.area_fields(area))?;
        }
        Ok(())
    }

    /// Prints the areas of the image's map in order, if there are at most 128.
    pub(crate) fn list_areas<W: Sink + Drop>(
        &self,
        printer: &mut Printer<W>,
    ) -> Result<(), WriteFault>
        ensures { PrintsLines W.Sink result printer.old printer.new (area_lines self.now) }
    {
        if self.has_area_table() {
            self.list_all_areas(&self.areas, printer)
        } else {
            Ok(())
        }
    }
}
