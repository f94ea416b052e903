//! The line that names the components of a region.

ghost use Rattle.std.specs.Prelude.{◌≡◌, ◌++◌, ◌+◌, ◌/◌, [], ◌∷◌, IfOk, OnOk, map, if◌then◌else◌};
ghost use Rattle.flash_format.specs.Components.{cell_name};
ghost use Rattle.flash_format.specs.Head.{is_free};
ghost use Rattle.flash_device.specs.Pages.{HasReadBy, OnHonest, OnHonestIn};
ghost use Rattle.flash_device.specs.Regions.{LiesOn};
ghost use Rattle.cbfs_walk.specs.Cells.{IsCellOn, IsCellIn, cell_in};
ghost use Rattle.cbfs_walk.specs.Walks.{StandsIn};
ghost use Rattle.cbfs_mistakes.specs.Components.{component_names, components_line, listing_reads};
ghost use Rattle.cbfs_mistakes.specs.Faults.{by_device};

use crate::list_fault::ListFault;
use crate::names_line::push_names;
use crate::near::near_first;
use cbfs_walk::{Cell, Step, Walk, WalkFault, cells_stand_in_their_image, name};
use flash_device::{Flash, Paged, Region};
use flash_map::{StoreFault, region};
use std::alloc::Global;

/// Appends the name of a component. Free space has none.
fn push_cell_name<F: Flash>(
    alloc: Global,
    paged: &mut Paged<F>,
    region: Region,
    cell: &Cell,
    names: &mut Vec<Vec<u8>>,
) -> Result<(), ListFault>
    requires { IsCellOn IsCellIn region cell.now paged.old.device }

    ensures calls { HasReadBy by_device 1 paged.old paged.new result }
    ensures named { OnHonestIn paged.old.device region (λ x. StandsIn x cell.now → OnOk result
        (map (λ name. name.items) names.new.items ≡ map (λ name. name.items) names.old.items
        ++ (if is_free cell.now.head then [] else cell_name (cell_in x cell.now) ∷ []))) }
{
    if cell.head.is_free() {
        return Ok(());
    }
    let mut field = [0; 256];
    let len = name(paged, region, cell, &mut field)?;
    let text = field[..len].to_vec(alloc)?;
    if names.push(text).is_err() {
        return Err(ListFault::Memory);
    }
    Ok(())
}

/// Returns the names of a region's components, up to a damage.
fn component_names<F: Flash>(
    alloc: Global,
    paged: &mut Paged<F>,
    region: Region,
) -> Result<Vec<Vec<u8>>, ListFault>
    requires { LiesOn region paged.old.device }

    ensures calls { HasReadBy by_device (region.size / 24 + 2) paged.old paged.new result }
    ensures names { OnHonestIn paged.old.device region (λ x. IfOk result (λ names.
        map (λ name. name.items) names.items ≡ component_names x)) }
{
    let mut names = Vec::new(alloc);
    let mut walk = Walk::new(region);
    loop {
        match walk.next(paged) {
            Ok(Step::Cell(cell)) => push_cell_name(alloc, paged, region, &cell, &mut names)?,
            Ok(Step::Tail(_)) => return Ok(names),
            Ok(Step::End) => return Ok(names),
            Err(fault) => match fault {
                WalkFault::Device => return Err(ListFault::Device),
                _ => return Ok(names),
            },
        }
    }
}

/// Appends the line that names the components of the region `area` of the image, if the image has
/// the region and the region has a component. Names near `given` come first. Errors: a failed read,
/// or an allocation failure.
pub fn push_components<F: Flash>(
    alloc: Global,
    out: &mut Vec<u8>,
    paged: &mut Paged<F>,
    area: &[u8],
    given: &[u8],
) -> Result<(), ListFault>
    ensures calls { HasReadBy by_device (listing_reads paged.old.device)
        paged.old paged.new result }
    ensures line { OnHonest paged.old.device (λ image. OnOk result
        (out.new.items ≡ out.old.items ++ components_line image area.now given.now)) }
{
    let range = match region(paged, area) {
        Ok(range) => range,
        Err(StoreFault::Device) => return Err(ListFault::Device),
        Err(_) => return Ok(()),
    };
    let names = component_names(alloc, paged, range)?;
    let sorted = near_first(alloc, given, names.as_slice())?;
    push_names(out, "cbfstool: its components are: ", sorted.as_slice())?;
    Ok(())
}
