//! The search for the largest content that has a place.
ghost use Rattle.std.specs.Option.{option_map_or};
ghost use Rattle.std.specs.Prelude.{◌≡◌, ℕ, ◌+◌, ◌/◌, ◌^◌, ◌<◌, ◌⊎◌, List, [], ◌∷◌, length, Err};
ghost use Rattle.std.specs.Prelude.{None, false, is_some, nat_lt, if◌then◌else◌, IsErrOf, IfOk, IfSome};
ghost use Rattle.flash_device.specs.Pages.{HasReadBy, OnHonestIn};
ghost use Rattle.flash_device.specs.Regions.{LiesIn, LiesOn, bytes_in};
ghost use Rattle.cbfs_walk.specs.Cells.{IsCellIn, cell_in};
ghost use Rattle.cbfs_walk.specs.Walks.{StandsIn};
ghost use Rattle.cbfs_edit.specs.Additions.{argument_fault, new_component, wanted_for};
ghost use Rattle.cbfs_edit.specs.Changes.{by_device};
ghost use Rattle.cbfs_edit.specs.Places.{first_place, is_bad_align, runs};
ghost use Rattle.cbfs_edit.specs.Removals.{IsCellRange};
ghost use Rattle.cbfs_edit.specs.Rooms.{is_within, larger_of, largest_content_in, room_in, room_of};
ghost use Rattle.cbfs_edit.specs.Searches.{HasSearched, IsRoomSurvey, room_by};

use crate::addition::{HashChoice, argument_fault, wanted_of};
use crate::fault::EditFault;
use crate::group::CellRange;
use crate::place::{Spot, Wanted, content_limit, place_in};
use cbfs_walk::{Cell, Step, Walk, cells_stand_in_their_image};
use flash_device::{Flash, Paged, Region};

/// The state of the search.
#[derive(Clone, Copy)]
pub struct RoomSurvey {
    /// The free cells directly before the offset.
    pub row: CellRange,
    /// The length of the largest content with a place in earlier runs.
    pub largest: Option<u64>,
}

/// Returns the length of the largest content that `add` takes with these arguments, if the region
/// has no component with the name. Returns `None` if not even an empty content has a place.
///
/// The errors, in this order, are: invalid name, type, alignment or region size, no entry at the
/// region's start, first damaged entry.
pub fn largest_content<F: Flash>(
    paged: &mut Paged<F>,
    region: Region,
    name: &[u8],
    kind: u32,
    hash: HashChoice,
    spot: Spot,
) -> Result<Option<u64>, EditFault>
    requires { LiesOn region paged.old.device }

    ensures calls { HasReadBy by_device (region.size / 16 + 1) paged.old paged.new result }
    ensures words { IfSome (argument_fault name.now kind spot)
        (λ fault. (result ≡ Err fault) × (paged.new ≡ paged.old)) }
    ensures answer { OnHonestIn paged.old.device region (λ x. IsErrOf result EditFault.Device
        ⊎ (result ≡ largest_content_in x name.now kind hash spot)) }

    // A content has a place exactly if it is not larger.
    ensures exact { OnHonestIn paged.old.device region (λ x. IfOk result (λ largest.
        (content : List ℕ) → is_some (first_place (wanted_for
        (new_component name.now kind hash content) spot) (length x) (runs x))
        ≡ is_within largest (length content))) }
{
    if let Some(fault) = argument_fault(name, kind, spot) {
        return Err(fault);
    }
    find_room(paged, region, wanted_of(name, hash, 0, spot))
}

/// Finds the largest content with a place. `empty` is the request with an empty content.
fn find_room<F: Flash>(
    paged: &mut Paged<F>,
    region: Region,
    empty: Wanted,
) -> Result<Option<u64>, EditFault>
    requires region { LiesOn region paged.old.device }
    requires spot { is_bad_align empty.spot ≡ false }

    ensures { HasSearched (room_of empty) region (λ largest. Unit {0})
        paged.old paged.new result }
{
    let mut walk = Walk::new(region);
    let mut survey = RoomSurvey {
        row: CellRange { start: 0, end: 0 },
        largest: None,
    };
    loop {
        match walk.next(paged)? {
            Step::Cell(cell) => survey = room_over(region, &cell, empty, survey),
            Step::Tail(_) | Step::End => return Ok(room_so_far(empty, region, survey)),
        }
    }
}

/// Advances the search over a cell.
#[tactic(auto, unfolding(crate::specs::Places::runs_from))]
fn room_over(region: Region, cell: &Cell, empty: Wanted, survey: RoomSurvey) -> RoomSurvey
    requires cell { IsCellIn region.size cell.now }
    requires before { IsRoomSurvey empty region.size cell.now.at survey }

    ensures before { IsRoomSurvey empty region.size (cell.now.at + cell.now.span) result }
    ensures passed { (image : List ℕ) → LiesIn region image → (let x = bytes_in region image in
        StandsIn x cell.now → (cells : List (List ℕ)) → room_by empty region.size survey
        (cell_in x cell.now ∷ cells) ≡ room_by empty region.size result cells) }
{
    cells_stand_in_their_image();
    let end = survey.row.end + cell.span;
    if cell.head.is_free() {
        return RoomSurvey {
            row: CellRange {
                start: survey.row.start,
                end,
            },
            largest: survey.largest,
        };
    }
    RoomSurvey {
        row: CellRange { start: end, end },
        largest: room_so_far(empty, region, survey),
    }
}

/// Returns the largest content at the end of a row of free cells.
fn room_so_far(empty: Wanted, region: Region, survey: RoomSurvey) -> Option<u64>
    requires { IsRoomSurvey empty region.size survey.row.end survey }

    ensures { result ≡ larger_of survey.largest (if nat_lt survey.row.start survey.row.end
        then room_in empty region.size survey.row else None) }
{
    if survey.row.start < survey.row.end {
        return larger_of(survey.largest, room_in(empty, region, survey.row));
    }
    survey.largest
}

fn larger_of(largest: Option<u64>, other: Option<u64>) -> Option<u64>
    ensures { result ≡ larger_of largest other }
{
    match (largest, other) {
        (Some(n), Some(m)) => Some(n.max(m)),
        (Some(n), None) => Some(n),
        (None, other) => other,
    }
}

/// Returns the length of the largest content with a place in a run.
fn room_in(empty: Wanted, region: Region, run: CellRange) -> Option<u64>
    requires spot { is_bad_align empty.spot ≡ false }
    requires run { IsCellRange run region.size }
    requires small { region.size < 2 ^ 32 }

    ensures { result ≡ room_in empty region.size run }
{
    match place_in(empty, region, run) {
        Some(place) => Some(content_limit(empty.spot, region, run.end) - place.content),
        None => None,
    }
}
