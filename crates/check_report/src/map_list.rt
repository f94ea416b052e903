//! The list of areas.
ghost use Rattle.std.specs.Prelude.{◌≡◌, map};
ghost use Rattle.check_report.specs.Reports.{map_fields, map_line};
ghost use Rattle.check_report.specs.Fields.{seen_field};
ghost use Rattle.check_report.specs.Effects.{PrintsLines};

use crate::fault::WriteFault;
use crate::rows::{Field, Printer, Value};
use check_findings::NumberedArea;
use flash_device::Sink;

fn map_fields<'a>(area: &'a NumberedArea) -> [Field<'a>; 4]
    ensures { map seen_field result ≡ map_fields area.now }
{
    [
        ("area", Value::Name(area.area.text())),
        ("offset", Value::Offset(u64::from(area.area.offset))),
        ("size", Value::Count(u64::from(area.area.size))),
        ("flags", Value::Offset(u64::from(area.area.flags))),
    ]
}

/// Prints the areas of a flash map, in the order of the map.
pub fn list_map<W: Sink + Drop>(
    printer: &mut Printer<W>,
    areas: &[NumberedArea],
) -> Result<(), WriteFault>
    ensures { PrintsLines W.Sink result printer.old printer.new (map map_line areas.now) }
{
    for area in areas {
        printer.line("area", &map_fields(area))?;
    }
    Ok(())
}
