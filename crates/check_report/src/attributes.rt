//! Rows of the attributes of components.
ghost use Rattle.std.specs.Prelude.{◌≡◌};
ghost use Rattle.check_report.specs.AttributeRows.{attribute_rows, fault_row, fault_text};
ghost use Rattle.check_report.specs.Effects.{Adds};
ghost use Rattle.check_report.specs.Rows.{seen_row};

use crate::fault::WriteFault;
use crate::rows::{Row, RowWriter, Verdict};
use check_findings::AttributeFault;
use flash_device::Sink;

fn fault_text(fault: AttributeFault) -> &'static str
    ensures { result.now ≡ fault_text fault }
{
    match fault {
        AttributeFault::BehindEnd => "an attribute stands behind the end of the attributes",
        AttributeFault::CompressionLength => "compression attribute hasn't 16 bytes",
        AttributeFault::DigestLength => "digest attribute has a wrong length",
        AttributeFault::UnknownAlgorithm => "digest has an unknown algorithm",
        AttributeFault::SecondDigest => "second digest: only the first is compared",
        AttributeFault::NoStage => "stage has no stage attribute of 24 bytes",
        AttributeFault::EntryOutside => "entry point of the stage lies outside its memory",
    }
}

/// Returns the row of a fault at a component.
fn fault_row<'a>(region: &'a [u8], at: u64, name: &'a [u8], fault: AttributeFault) -> Row<'a>
    ensures { seen_row result ≡ fault_row region.now at name.now fault }
{
    let row = Verdict::Bad.row("attributes-invalid", fault_text(fault));
    row.at_component(region, at, name)
}

/// Adds the row of the first fault of a component's attributes, if any. `at` is the offset of its
/// entry in the region, in bytes. Returns `Output` if the sink failed, and `Memory` if an
/// allocation failed.
pub fn add_attributes<W: Sink + Drop>(
    rows: &mut RowWriter<W>,
    region: &[u8],
    at: u64,
    name: &[u8],
    fault: Option<AttributeFault>,
) -> Result<(), WriteFault>
    ensures { Adds W.Sink result rows.old rows.new (attribute_rows region.now at name.now fault) }
{
    match fault {
        Some(fault) => rows.add(fault_row(region, at, name, fault)),
        None => Ok(()),
    }
}
