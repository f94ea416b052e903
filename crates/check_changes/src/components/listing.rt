//! The components of a region.
ghost use Rattle.std.specs.Prelude.{◌≡◌, ◌+◌, ◌/◌, ◌≤◌, All, IfOk, OnOk, not};
ghost use Rattle.flash_device.specs.Pages.{OnHonestIn, HasReadBy};
ghost use Rattle.flash_device.specs.Regions.{LiesOn};
ghost use Rattle.cbfs_walk.specs.Cells.{IsCellOn, IsCellIn, cell_in};
ghost use Rattle.cbfs_walk.specs.Walks.{StandsIn};
ghost use Rattle.check_changes.specs.Components.{IsListedIn, listed_in, spans};
ghost use Rattle.check_findings.specs.Lists.{Gains, only_if};
ghost use Rattle.flash_format.specs.Components.{cell_name};
ghost use Rattle.flash_format.specs.Head.{is_free};
ghost use Rattle.check_findings.specs.Faults.{by_device};

use cbfs_walk::{Cell, Step, Walk, WalkFault, cells_stand_in_their_image, name};
use check_findings::{CheckFault, Name, push};
use flash_device::{Flash, Paged, Region};
use std::alloc::{AllocError, Global};

/// A component from a walk.
#[derive(Drop)]
pub struct Listed {
    pub name: Name,
    pub cell: Cell,
}

impl Listed {
    /// Returns a copy of the name, or an error if an allocation failed.
    pub fn copied_name(&self, alloc: Global) -> Result<Name, AllocError>
        ensures { IfOk result (λ name. name ≡ self.now.name) }
    {
        Name::copied(alloc, self.name.as_slice())
    }
}

fn list_cell<F: Flash>(
    alloc: Global,
    paged: &mut Paged<F>,
    region: Region,
    cell: &Cell,
    all: &mut Vec<Listed>,
) -> Result<(), CheckFault>
    requires { IsCellOn IsCellIn region cell.now paged.old.device }

    ensures calls { HasReadBy by_device 1 paged.old paged.new result }
    ensures cells { OnOk result (All (IsListedIn region.size) all.old.items
        → All (IsListedIn region.size) all.new.items) }
    ensures room { OnOk result (spans all.new.items ≤ spans all.old.items + cell.now.span) }
    ensures listed { OnHonestIn paged.old.device region (λ x. StandsIn x cell.now →
        Gains all.old all.new result (only_if (not (is_free cell.now.head))
        (record { name = cell_name (cell_in x cell.now); cell = cell.now }))) }
{
    cells_stand_in_their_image();
    if cell.head.is_free() {
        return Ok(());
    }
    let mut field = [0; 256];
    let len = name(paged, region, cell, &mut field)?;
    let name = Name::copied(alloc, &field[..len])?;
    Ok(push(all, Listed { name, cell: *cell })?)
}

/// Returns the components of a region in order, up to a damage; none without a valid shape.
pub fn components<F: Flash>(
    alloc: Global,
    paged: &mut Paged<F>,
    region: Region,
) -> Result<Vec<Listed>, CheckFault>
    requires { LiesOn region paged.old.device }

    ensures calls { HasReadBy by_device (region.size / 24 + 2) paged.old paged.new result }
    ensures lists { IfOk result (λ all. All (IsListedIn region.size) all.items
        × (spans all.items ≤ region.size)
        × OnHonestIn paged.old.device region (λ x. all.items ≡ listed_in x)) }
{
    let mut all = Vec::new(alloc);
    let mut walk = Walk::new(region);
    loop {
        match walk.next(paged) {
            Ok(Step::Cell(cell)) => list_cell(alloc, paged, region, &cell, &mut all)?,
            Ok(Step::Tail(_)) => return Ok(all),
            Ok(Step::End) => return Ok(all),
            Err(fault) => match fault {
                WalkFault::Device => return Err(CheckFault::Device),
                _ => return Ok(all),
            },
        }
    }
}
