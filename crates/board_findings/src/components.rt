//! Components of a CBFS area, by their types and the ranges of their contents.
ghost use Rattle.std.specs.Prelude.{◌≡◌, ◌+◌, ◌/◌, ◌^◌, ◌<◌};
ghost use Rattle.std.specs.List.{find, list_any};
ghost use Rattle.flash_device.specs.Pages.{HasReadBy, Lists, OnHonest, OnHonestIn};
ghost use Rattle.flash_device.specs.Regions.{LiesOn};
ghost use Rattle.check_findings.specs.Faults.{by_device};
ghost use Rattle.check_findings.specs.Lists.{Gains};
ghost use Rattle.board_findings.specs.Components.{cell_placed, components_in, entry_end};
ghost use Rattle.board_findings.specs.Components.{is_bootblock_to, is_header, last_end, placed_in};

use cbfs_walk::{Cell, Step, Walk, WalkFault};
use check_findings::{CheckFault, entry_region, push_if};
use flash_device::{Flash, Paged};
use flash_map::Region;
use std::alloc::{AllocError, Global};

/// The type of a bootblock.
const BOOTBLOCK: u32 = 1;

/// The type of a master header.
const HEADER: u32 = 2;

/// The unit of entries, in bytes.
const UNIT: u64 = 64;

/// The type of a component, and the range of its content in the area.
#[derive(Clone, Copy, Drop)]
pub struct Placed {
    pub kind: u32,
    pub start: u32,
    pub len: u32,
}

impl Placed {
    /// Returns the offset after the content.
    fn end(&self) -> u64
        ensures { result ≡ self.now.start + self.now.len }
    {
        u64::from(self.start) + u64::from(self.len)
    }

    /// Returns the offset after the entry.
    fn entry_end(&self) -> u64
        ensures { result ≡ entry_end self.now }
    {
        (self.end() + (UNIT - 1)) / UNIT * UNIT
    }

    fn is_bootblock_to(&self, end: u64) -> bool
        ensures { result ≡ is_bootblock_to end self.now }
    {
        self.kind == BOOTBLOCK && self.end() == end
    }

    fn is_header(&self) -> bool
        ensures { result ≡ is_header self.now }
    {
        self.kind == HEADER
    }
}

/// Appends the component of a cell. Free space has none.
fn push_placed(components: &mut Vec<Placed>, cell: &Cell) -> Result<(), AllocError>
    requires { cell.now.at + cell.now.head.offset < 2 ^ 32 }

    ensures { Gains components.old components.new result (cell_placed cell.now) }
{
    let placed = Placed {
        kind: cell.head.kind,
        start: cell.at as u32 + cell.head.offset,
        len: cell.head.len,
    };
    push_if(components, !cell.head.is_free(), placed)
}

/// Returns the components of a region in order, up to a damage; none without a valid shape.
fn placed_in<F: Flash>(
    alloc: Global,
    paged: &mut Paged<F>,
    region: Region,
) -> Result<Vec<Placed>, CheckFault>
    requires { LiesOn region paged.old.device }

    ensures calls { HasReadBy by_device (region.size / 60 + 1) paged.old paged.new result }
    ensures found { OnHonestIn paged.old.device region (λ x. Lists result (placed_in x)) }
{
    let mut components = Vec::new(alloc);
    let mut walk = Walk::new(region);
    loop {
        match walk.next(paged) {
            Ok(Step::Cell(cell)) => push_placed(&mut components, &cell)?,
            Ok(Step::Tail(_)) => return Ok(components),
            Ok(Step::End) => return Ok(components),
            Err(fault) => match fault {
                WalkFault::Device => return Err(CheckFault::Device),
                _ => return Ok(components),
            },
        }
    }
}

/// Returns the components of the area with the range `region`, in order, up to a damage. The
/// entries of an area end at the last multiple of 64 bytes. Returns `Device` exactly if a read
/// failed, and `Memory` if an allocation failed.
pub fn components_in<F: Flash>(
    alloc: Global,
    paged: &mut Paged<F>,
    region: Region,
) -> Result<Vec<Placed>, CheckFault>
    requires { LiesOn region paged.old.device }

    ensures calls { HasReadBy by_device (region.size / 60 + 1) paged.old paged.new result }
    ensures found { OnHonest paged.old.device (λ image. Lists result (components_in image region)) }
{
    placed_in(alloc, paged, entry_region(region))
}

/// Returns whether a bootblock ends at this offset.
pub fn has_bootblock_to(components: &[Placed], end: u64) -> bool
    ensures { result ≡ list_any (is_bootblock_to end) components.now }
{
    components
        .iter()
        .any(|component| component.is_bootblock_to(end))
}

/// Returns the first master header.
pub fn first_header(components: &[Placed]) -> Option<Placed>
    ensures { result ≡ find is_header components.now }
{
    components
        .iter()
        .copied()
        .find(|component| component.is_header())
}

/// Returns the end of the last component's entry, or 0 without a component.
pub fn last_end(components: &[Placed]) -> u64
    ensures { result ≡ last_end components.now }
{
    let mut end = 0;
    for component in components {
        end = component.entry_end();
    }
    end
}
