//! The search by name.
ghost use Rattle.std.specs.Prelude.{◌≡◌, ◌<◌, ◌⊎◌, ◌&&◌, not, false, IsErrOf, IsTrue, IfOk, ◌+◌, ◌/◌};
ghost use Rattle.std.specs.Str.{bytes_eq};
ghost use Rattle.flash_format.specs.Head.{is_free};
ghost use Rattle.flash_format.specs.Components.{cell_name, component_at};
ghost use Rattle.flash_device.specs.Pages.{HasAnswered, OnHonestIn, HasReadBy, IfFound, HasRead};
ghost use Rattle.std.specs.Option.{option_map};
ghost use Rattle.std.specs.Result.{result_map_both};
ghost use Rattle.flash_device.specs.Regions.{LiesOn};
ghost use Rattle.cbfs_walk.specs.Cells.{IsCellOn, IsCellIn, PassesChecks, cell_in};
ghost use Rattle.cbfs_walk.specs.Walks.{StandsIn, ReadsCellAs, by_device};
ghost use Rattle.cbfs_walk.specs.Search.{component_in};
ghost use Rattle.cbfs_walk.specs.declared.cell.Cell.{Cell};

use crate::cell::Cell;
use crate::names::name_is;
use crate::walk::{Step, Walk, WalkFault};
use flash_device::{Flash, FlashFault, Paged, Region};

/// Returns the first component with the name. Otherwise returns the damage at the end of the cells,
/// or `None`. Later cells are not read.
pub fn find<F: Flash>(
    paged: &mut Paged<F>,
    region: Region,
    name: &[u8],
) -> Result<Option<Cell>, WalkFault>
    requires { LiesOn region paged.old.device }

    ensures calls { HasReadBy by_device (region.size / 16 + 2) paged.old paged.new result }
    ensures found { IfFound result (λ c. HasRead ((c.at + c.span) / 16) 0 paged.old paged.new) }
    ensures cell { IfFound result (λ c. IsCellIn region.size c × (is_free c.head ≡ false)) }

    ensures answer { OnHonestIn paged.old.device region (λ x. IsErrOf result WalkFault.Device
        ⊎ (component_in x name.now ≡ result_map_both (option_map (λ (c : Cell).
        component_at c.at (cell_in x c))) (λ fault. fault) result)) }
    ensures stands { OnHonestIn paged.old.device region (λ x. IfFound result (StandsIn x)) }
{
    let mut walk = Walk::new(region);
    loop {
        match walk.next(paged)? {
            Step::Cell(cell) => {
                if is_component(paged, region, &cell, name)? {
                    return Ok(Some(cell));
                }
            }
            Step::Tail(_) | Step::End => return Ok(None),
        }
    }
}

/// Returns whether a cell is a component with the name. Free space is not read.
pub fn is_component<F: Flash>(
    paged: &mut Paged<F>,
    region: Region,
    cell: &Cell,
    name: &[u8],
) -> Result<bool, FlashFault>
    requires { IsCellOn PassesChecks region cell.now paged.old.device }

    ensures calls { HasAnswered 1 paged.old paged.new result }
    ensures component { IfOk result (λ is. IsTrue is → is_free cell.now.head ≡ false) }
    ensures no_call { IsTrue (is_free cell.now.head) → paged.new ≡ paged.old }

    ensures named { ReadsCellAs paged.old region cell.now result
        (λ x. not (is_free cell.now.head) && bytes_eq (cell_name x) name.now) }
{
    if cell.head.is_free() {
        return Ok(false);
    }
    name_is(paged, region, cell, name)
}
