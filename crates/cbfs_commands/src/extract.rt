//! The command `extract`.

ghost use Rattle.std.specs.Prelude.{◌≡◌, ◌+◌, ◌/◌, false};
ghost use Rattle.flash_format.specs.Head.{is_free};
ghost use Rattle.flash_device.specs.Regions.{bytes_in};
ghost use Rattle.cbfs_walk.specs.Cells.{cell_in};
ghost use Rattle.flash_format.specs.Components.{component_at};
ghost use Rattle.cbfs_commands.specs.Outcomes.{extract_region, printed_component, printed_in};
ghost use Rattle.cbfs_commands.specs.Outcomes.{HasOutput, IsCellOf};
ghost use Rattle.flash_device.specs.Device.{call_limit};

use crate::read::copy_out;
use cbfs_requests::Refusal;
use cbfs_walk::{Cell, cells_stand_in_their_image, find, packing};
use flash_device::{Flash, Paged, Region, Sink};

fn extract_component<F: Flash, W: Sink>(
    paged: &mut Paged<F>,
    region: Region,
    cell: &Cell,
    out: &mut W,
) -> Result<(), Refusal>
    requires cell { IsCellOf region cell.now paged.old.device }
    requires used { is_free cell.now.head ≡ false }

    ensures { HasOutput W.Sink (cell.now.span / 3840 + 2) paged.old paged.new out.old out.new result
        (λ image. printed_component (component_at cell.now.at
        (cell_in (bytes_in region image) cell.now))) }
{
    cells_stand_in_their_image();
    if packing(paged, region, cell)? != 0 {
        return Err(Refusal::Compressed);
    }
    let start = region.start() + cell.at + u64::from(cell.head.offset);
    copy_out(paged, start, u64::from(cell.head.len), out)
}

/// Writes the content of the first component with the name, and reads no later cells.
pub fn extract<F: Flash, W: Sink>(
    paged: &mut Paged<F>,
    region: &[u8],
    name: &[u8],
    out: &mut W,
) -> Result<(), Refusal>
    ensures { HasOutput W.Sink (call_limit paged.old.device) paged.old paged.new out.old out.new
        result (λ image. printed_in image region.now (λ x. extract_region x name.now)) }
{
    let region = flash_map::region(paged, region)?;
    match find(paged, region, name)? {
        Some(cell) => extract_component(paged, region, &cell, out),
        None => Err(Refusal::NotFound),
    }
}
