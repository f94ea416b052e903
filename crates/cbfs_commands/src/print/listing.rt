//! The command `print`.

ghost use Rattle.std.specs.Prelude.{◌≡◌, ◌+◌, ◌/◌, OnOk, if◌then◌else◌};
ghost use Rattle.flash_device.specs.Pages.{HasAnswered, OnHonest};
ghost use Rattle.flash_device.specs.Regions.{LiesOn, bytes_in};
ghost use Rattle.cbfs_commands.specs.Outcomes.{print_region, printed_in};
ghost use Rattle.cbfs_commands.specs.Rows.{cell_row, shown_cell};
ghost use Rattle.cbfs_commands.specs.Outcomes.{HasOutput, IsCellOf, shows};
ghost use Rattle.cbfs_walk.specs.Cells.{cell_in};
ghost use Rattle.flash_device.specs.Device.{call_limit};

use crate::print::details::print_details;
use crate::row::{Row, set_row_text};
use arrayvec::ArrayVec;
use cbfs_requests::Refusal;
use cbfs_walk::{Cell, Step, Walk, cells_stand_in_their_image, name, packing};
use flash_device::{Flash, FlashFault, Paged, Region, Sink, put_all};

/// Formats a cell's row. A fault leaves arbitrary bytes in the buffer.
fn set_cell_row<F: Flash>(
    paged: &mut Paged<F>,
    region: Region,
    cell: &Cell,
    buffer: &mut Row,
) -> Result<(), FlashFault>
    requires { IsCellOf region cell.now paged.old.device }

    ensures calls { HasAnswered (2 + cell.now.span / 3840) paged.old paged.new result }
    ensures row { OnHonest paged.old.device (λ image.
        OnOk result (buffer.new.items
        ≡ cell_row cell.now.at (cell_in (bytes_in region image) cell.now))) }
{
    cells_stand_in_their_image();
    if cell.head.is_free() {
        set_row_text(buffer, cell.at, &cell.head, None, 0);
        return Ok(());
    }
    let mut field = [0; 256];
    let len = name(paged, region, cell, &mut field)?;
    let value = packing(paged, region, cell)?;
    set_row_text(buffer, cell.at, &cell.head, Some(&field[..len]), value);
    Ok(())
}

/// Prints a cell's row, and if verbose a component's lines.
fn print_cell<F: Flash, W: Sink>(
    paged: &mut Paged<F>,
    region: Region,
    cell: &Cell,
    verbose: bool,
    buffer: &mut Row,
    out: &mut W,
) -> Result<(), Refusal>
    requires { IsCellOf region cell.now paged.old.device }

    ensures { HasOutput W.Sink (2 + cell.now.span / 3840 + (if verbose then 1 + cell.now.span / 8
        + cell.now.span / 3840 else 0)) paged.old paged.new out.old out.new result (λ image.
        shows (shown_cell verbose cell.now.at (cell_in (bytes_in region image) cell.now))) }
{
    cells_stand_in_their_image();
    set_cell_row(paged, region, cell, buffer)?;
    put_all(out, buffer.as_slice())?;
    if verbose && !cell.head.is_free() {
        return print_details(paged, region, cell, buffer, out);
    }
    Ok(())
}

fn print_region<F: Flash, W: Sink>(
    paged: &mut Paged<F>,
    region: Region,
    verbose: bool,
    out: &mut W,
) -> Result<(), Refusal>
    requires { LiesOn region paged.old.device }

    ensures { HasOutput W.Sink ((if verbose then region.size / 4 else region.size / 16) + 2)
        paged.old paged.new out.old out.new result
        (λ image. print_region (bytes_in region image) verbose) }
{
    let mut buffer = ArrayVec::new();
    let mut walk = Walk::new(region);
    while let Step::Cell(cell) = walk.next(paged)? {
        print_cell(paged, region, &cell, verbose, &mut buffer, out)?;
    }
    Ok(())
}

/// Prints the cells of a region.
pub fn print<F: Flash, W: Sink>(
    paged: &mut Paged<F>,
    name: &[u8],
    verbose: bool,
    out: &mut W,
) -> Result<(), Refusal>
    ensures { HasOutput W.Sink (call_limit paged.old.device) paged.old paged.new out.old out.new
        result (λ image. printed_in image name.now (λ x. print_region x verbose)) }
{
    let region = flash_map::region(paged, name)?;
    print_region(paged, region, verbose, out)
}
