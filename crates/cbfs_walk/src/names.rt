//! Names of components.
ghost use Rattle.std.specs.Prelude.{◌≡◌, ◌+◌, ◌≤◌, false, length, take, drop, IfOk};
ghost use Rattle.std.specs.List.{before_first};
ghost use Rattle.std.specs.Str.{bytes_eq};
ghost use Rattle.flash_format.specs.Entry.{name_field, name_end, is_terminated, is_nul};
ghost use Rattle.flash_format.specs.Components.{cell_name};
ghost use Rattle.flash_device.specs.Pages.{HasAnswered, OnHonestIn};
ghost use Rattle.cbfs_walk.specs.Walks.{ReadsIn, StandsIn, ReadsCellAs};
ghost use Rattle.cbfs_walk.specs.Cells.{IsCellOn, IsComponentIn, cell_in};

use crate::cell::Cell;
use crate::region_reads::piece_in;
use flash_device::{Flash, FlashFault, Paged, Region};
use flash_format::Head;

const LONGEST: usize = 255;

/// Writes a component's name without its NUL to the front of `out`, and returns its length. Other
/// bytes of `out`, and all bytes after a fault, are unspecified.
#[tactic(auto, using(crate::proofs::CellNames::has_field))]
pub fn name<F: Flash>(
    paged: &mut Paged<F>,
    region: Region,
    cell: &Cell,
    out: &mut [u8; 256],
) -> Result<usize, FlashFault>
    requires { IsCellOn IsComponentIn region cell.now paged.old.device }

    ensures calls { HasAnswered 1 paged.old paged.new result }
    ensures short { IfOk result (λ n. n ≤ 255) }

    ensures name { OnHonestIn paged.old.device region (λ x. StandsIn x cell.now
        → IfOk result (λ n. take n out.new ≡ cell_name (cell_in x cell.now))) }
    ensures len { ReadsCellAs paged.old region cell.now result (λ x. length (cell_name x)) }
{
    let n = (name_end(&cell.head) as usize - 24).min(LONGEST);
    let bytes = piece_in(paged, region, cell.at + 24, n)?;
    out[..n].copy_from_slice(bytes);
    Ok(text_len(bytes))
}

/// Returns whether a component has the name.
#[tactic(auto, using(crate::proofs::CellNames::has_field))]
pub fn name_is<F: Flash>(
    paged: &mut Paged<F>,
    region: Region,
    cell: &Cell,
    name: &[u8],
) -> Result<bool, FlashFault>
    requires { IsCellOn IsComponentIn region cell.now paged.old.device }

    ensures calls { HasAnswered 1 paged.old paged.new result }

    ensures named { ReadsCellAs paged.old region cell.now result
        (λ x. bytes_eq (cell_name x) name.now) }
{
    if name.len() > LONGEST || name.len() >= name_end(&cell.head) as usize - 24 {
        return Ok(false);
    }
    // The name and its NUL.
    let bytes = piece_in(paged, region, cell.at + 24, name.len() + 1)?;
    Ok(&bytes[..text_len(bytes)] == name)
}

/// Returns whether the first 256 bytes of the name field include a NUL.
#[tactic(auto, using(crate::proofs::CellNames::has_field))]
pub fn has_name_end<F: Flash>(
    paged: &mut Paged<F>,
    region: Region,
    cell: &Cell,
) -> Result<bool, FlashFault>
    requires { IsCellOn IsComponentIn region cell.now paged.old.device }

    ensures { ReadsIn region (cell.now.at + 24) (cell.now.at + 24) paged.old paged.new result
        (λ x ends. ends ≡ is_terminated (name_field cell.now.head (drop cell.now.at x))) }
{
    let n = (name_end(&cell.head) as usize - 24).min(256);
    let bytes = piece_in(paged, region, cell.at + 24, n)?;
    Ok(bytes.contains(&0))
}

/// Returns the end of a component's name field, relative to the entry.
pub fn name_end(head: &Head) -> u32
    ensures { result ≡ name_end head.now }
{
    if head.attributes_offset == 0 {
        head.offset
    } else {
        head.attributes_offset
    }
}

fn text_len(bytes: &[u8]) -> usize
    ensures { result ≡ length (before_first is_nul bytes.now) }
{
    bytes.iter().take_while(|b| **b != 0).count()
}
