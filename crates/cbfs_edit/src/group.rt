//! The search for a removal's cells.
ghost use Rattle.std.specs.Prelude.{◌≡◌, ℕ, ◌+◌, ◌<◌, List, [], ◌∷◌, IfOk, IfErr};
ghost use Rattle.flash_device.specs.Pages.{HasAnswered, OnHonestIn};
ghost use Rattle.flash_device.specs.Regions.{LiesOn};
ghost use Rattle.cbfs_walk.specs.Cells.{IsCellOn, IsCellIn, cell_in};
ghost use Rattle.cbfs_walk.specs.Walks.{StandsIn};
ghost use Rattle.cbfs_edit.specs.Removals.{IsCellRange, removal_in};
ghost use Rattle.cbfs_edit.specs.Searches.{group_by, HasSearched, IsBefore};

use crate::fault::EditFault;
use cbfs_walk::{Cell, Step, Walk, cells_stand_in_their_image, name_is};
use flash_device::{Flash, FlashFault, Paged, Region};

/// Adjacent cells. Both offsets are relative to the region's start, and multiples of 64.
#[derive(Clone, Copy, Debug, PartialEq, Eq)]
pub struct CellRange {
    pub start: u64,
    pub end: u64,
}

/// The range of a removed component with the adjacent free cells.
pub type Freed = CellRange;

/// The state of the search.
#[derive(Clone, Copy)]
pub enum Search {
    /// No component yet. `start` is the start of the free cells directly before the offset.
    Looking { start: u64 },
    /// The component with its adjacent free cells, up to the offset.
    Growing(CellRange),
    Whole(CellRange),
}

/// Finds the first component with the name, and the adjacent free cells. Any damage is an error.
pub fn find_group<F: Flash>(
    paged: &mut Paged<F>,
    region: Region,
    name: &[u8],
) -> Result<CellRange, EditFault>
    requires { LiesOn region paged.old.device }

    ensures { HasSearched (λ x. removal_in x name.now) region
        (λ group. IsCellRange group region.size) paged.old paged.new result }
{
    let mut walk = Walk::new(region);
    let mut search = Search::Looking { start: 0 };
    loop {
        match walk.next(paged)? {
            Step::Cell(cell) => search = search_over(paged, region, &cell, name, search)?,
            Step::Tail(_) | Step::End => return group_in(search),
        }
    }
}

/// Advances the search over a cell.
#[tactic(auto, unfolding(crate::specs::Removals::group_from, crate::specs::Removals::row_end))]
fn search_over<F: Flash>(
    paged: &mut Paged<F>,
    region: Region,
    cell: &Cell,
    name: &[u8],
    search: Search,
) -> Result<Search, FlashFault>
    requires cell { IsCellOn IsCellIn region cell.now paged.old.device }
    requires before { IsBefore cell.now.at search }

    ensures calls { HasAnswered 1 paged.old paged.new result }
    ensures before { IfOk result (IsBefore (cell.now.at + cell.now.span)) }
    ensures passed { OnHonestIn paged.old.device region (λ x. StandsIn x cell.now → IfOk result
        (λ next. (cells : List (List ℕ)) → group_by name.now search cell.now.at (cell_in x cell.now
        ∷ cells) ≡ group_by name.now next (cell.now.at + cell.now.span) cells)) }
{
    cells_stand_in_their_image();
    let end = cell.at + cell.span;
    match search {
        Search::Looking { start } => {
            if cell.head.is_free() {
                return Ok(Search::Looking { start });
            }
            if name_is(paged, region, cell, name)? {
                return Ok(Search::Growing(CellRange { start, end }));
            }
            Ok(Search::Looking { start: end })
        }
        Search::Growing(group) => {
            if cell.head.is_free() {
                return Ok(Search::Growing(CellRange {
                    start: group.start,
                    end: group.end + cell.span,
                }));
            }
            Ok(Search::Whole(group))
        }
        Search::Whole(group) => Ok(Search::Whole(group)),
    }
}

#[tactic(auto, unfolding(crate::specs::Removals::group_from, crate::specs::Removals::row_end))]
fn group_in(search: Search) -> Result<CellRange, EditFault>
    ensures is { (name : List ℕ) (at : ℕ) → result ≡ group_by name search at [] }
    ensures group { (at : ℕ) → IsBefore at search → IfOk result (λ group. IsCellRange group at) }
    ensures fault { IfErr result (λ fault. fault ≡ EditFault.NotFound) }
{
    match search {
        Search::Looking { .. } => Err(EditFault::NotFound),
        Search::Growing(group) | Search::Whole(group) => Ok(group),
    }
}
