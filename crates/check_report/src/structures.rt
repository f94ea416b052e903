//! Rows of the structures that an update loses.
ghost use Rattle.std.specs.Prelude.{◌≡◌, map};
ghost use Rattle.check_report.specs.Effects.{Adds};
ghost use Rattle.check_report.specs.Rows.{seen_row};
ghost use Rattle.check_report.specs.StructureRows.{area_of, gone_text, structure_row};

use crate::fault::WriteFault;
use crate::rows::{Row, RowWriter, Verdict};
use board_findings::Structure;
use flash_device::Sink;

/// Returns the name of the area in which the structure is looked for.
fn area_of(structure: Structure) -> &'static [u8]
    ensures { result.now ≡ area_of structure }
{
    match structure {
        Structure::FlashDescriptor => b"SI_DESC",
        Structure::Region(region) => region.area_name(),
        Structure::PartitionTable => b"SI_ME",
        Structure::Bootblock => b"COREBOOT",
        Structure::FirmwareTable => b"COREBOOT",
        Structure::MasterHeader => b"COREBOOT",
        Structure::Gbb => b"GBB",
        Structure::Slot(slot) => slot.block_name(),
    }
}

fn gone_text(structure: Structure) -> &'static str
    ensures { result.now ≡ gone_text structure }
{
    match structure {
        Structure::FlashDescriptor => "flash descriptor is gone",
        Structure::Region(_) => "region of the flash descriptor is unused now",
        Structure::PartitionTable => "partition table of the ME is gone",
        Structure::Bootblock => "no bootblock ends the image any more",
        Structure::FirmwareTable => "firmware interface table is gone",
        Structure::MasterHeader => "master header is gone",
        Structure::Gbb => "GBB is gone",
        Structure::Slot(_) => "signatures of the slot are gone",
    }
}

/// Returns the row of a structure that the old image has and the new one has not.
fn structure_row<'a>(structure: Structure) -> Row<'a>
    ensures { seen_row result ≡ structure_row structure }
{
    let row = Verdict::Bad.row("structure-gone", gone_text(structure));
    row.in_area(area_of(structure))
}

/// Adds a row for each lost structure, in order. Returns `Output` if the sink failed, and `Memory`
/// if an allocation failed.
pub fn add_lost_structures<W: Sink + Drop>(
    rows: &mut RowWriter<W>,
    lost: &[Structure],
) -> Result<(), WriteFault>
    ensures { Adds W.Sink result rows.old rows.new (map structure_row lost.now) }
{
    for structure in lost {
        rows.add(structure_row(*structure))?;
    }
    Ok(())
}
