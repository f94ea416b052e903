//! The search for a new component's place.
ghost use Rattle.std.specs.Option.{option_or};
ghost use Rattle.std.specs.Prelude.{◌≡◌, ℕ, ◌+◌, ◌/◌, ◌^◌, ◌<◌, ◌≤◌, List, [], ◌∷◌, None};
ghost use Rattle.std.specs.Prelude.{false, nat_lt, if◌then◌else◌, IfOk, IfErr, IfSome};
ghost use Rattle.flash_device.specs.Pages.{HasAnswered, OnHonestIn};
ghost use Rattle.flash_device.specs.Regions.{LiesOn};
ghost use Rattle.cbfs_walk.specs.Cells.{IsCellOn, IsCellIn, cell_in};
ghost use Rattle.cbfs_walk.specs.Walks.{StandsIn};
ghost use Rattle.cbfs_edit.specs.Removals.{IsCellRange};
ghost use Rattle.cbfs_edit.specs.Changes.{IsOwn};
ghost use Rattle.cbfs_edit.specs.Places.{LiesInItsRun, is_bad_align, content_limit, least_allowed_from};
ghost use Rattle.cbfs_edit.specs.Places.{place_in, placing_in};
ghost use Rattle.cbfs_edit.specs.Searches.{HasSearched, IsSurvey, place_by};

use crate::fault::EditFault;
use crate::group::CellRange;
use crate::region_writes::space_end;
use cbfs_walk::{Cell, Step, Walk, cells_stand_in_their_image, name_is};
use flash_device::{Flash, FlashFault, Paged, Region};

/// The allowed start of a component's content, relative to the region's start. The search takes the
/// first free space with room at an allowed place, and the least such place in it.
#[derive(Clone, Copy)]
pub enum Spot {
    /// Anywhere before the region's last four bytes.
    First,
    /// A multiple of a nonzero number (`-a`), before the last four bytes.
    Aligned(u32),
    /// A fixed place (`-b`). The content may cover the last four bytes.
    Fixed(u32),
}

/// The requested size and start.
#[derive(Clone, Copy)]
pub struct Wanted {
    /// The length without the gap before the content.
    pub metadata_len: u32,
    pub len: u32,
    pub spot: Spot,
}

/// A component's place, relative to the region's start.
#[derive(Clone, Copy)]
pub struct Place {
    pub run: CellRange,
    pub header: u64,
    pub content: u64,
}

/// The state of the search.
#[derive(Clone, Copy)]
pub struct Survey {
    /// The free cells directly before the offset.
    pub row: CellRange,
    /// Whether an earlier component has the name.
    pub exists: bool,
    /// The first place in earlier runs.
    pub place: Option<Place>,
}

/// Finds a new component's place. Any damage is an error.
pub fn find_place<F: Flash>(
    paged: &mut Paged<F>,
    region: Region,
    name: &[u8],
    wanted: Wanted,
) -> Result<Place, EditFault>
    requires region { LiesOn region paged.old.device }
    requires spot { is_bad_align wanted.spot ≡ false }

    ensures { HasSearched (λ x. placing_in x name.now wanted) region
        (LiesInItsRun wanted region.size) paged.old paged.new result }
{
    let mut walk = Walk::new(region);
    let mut survey = Survey {
        row: CellRange { start: 0, end: 0 },
        exists: false,
        place: None,
    };
    loop {
        match walk.next(paged)? {
            Step::Cell(cell) => {
                survey = survey_over(paged, region, &cell, name, wanted, survey)?
            }
            Step::Tail(_) | Step::End => return answer_of(wanted, region, survey),
        }
    }
}

/// Advances the search over a cell.
#[tactic(auto, unfolding(crate::specs::Places::runs_from))]
fn survey_over<F: Flash>(
    paged: &mut Paged<F>,
    region: Region,
    cell: &Cell,
    name: &[u8],
    wanted: Wanted,
    survey: Survey,
) -> Result<Survey, FlashFault>
    requires cell { IsCellOn IsCellIn region cell.now paged.old.device }
    requires before { IsSurvey wanted region.size cell.now.at survey }

    ensures calls { HasAnswered 1 paged.old paged.new result }
    ensures before { IfOk result (IsSurvey wanted region.size (cell.now.at + cell.now.span)) }
    ensures passed { OnHonestIn paged.old.device region (λ x. StandsIn x cell.now
        → IfOk result (λ next. (cells : List (List ℕ)) → place_by name.now wanted region.size survey
        (cell_in x cell.now ∷ cells) ≡ place_by name.now wanted region.size next cells)) }
{
    cells_stand_in_their_image();
    let end = survey.row.end + cell.span;
    if cell.head.is_free() {
        return Ok(Survey {
            row: CellRange {
                start: survey.row.start,
                end,
            },
            exists: survey.exists,
            place: survey.place,
        });
    }
    let named = name_is(paged, region, cell, name)?;
    let place = place_so_far(wanted, region, survey);
    Ok(Survey {
        row: CellRange { start: end, end },
        exists: survey.exists | named,
        place,
    })
}

fn answer_of(wanted: Wanted, region: Region, survey: Survey) -> Result<Place, EditFault>
    requires { IsSurvey wanted region.size survey.row.end survey }

    ensures is { (name : List ℕ) → result ≡ place_by name wanted region.size survey [] }
    ensures fits { IfOk result (LiesInItsRun wanted region.size) }
    ensures fault { IfErr result IsOwn }
{
    if survey.exists {
        return Err(EditFault::Exists);
    }
    match place_so_far(wanted, region, survey) {
        None => Err(EditFault::NoSpace),
        Some(place) => Ok(place),
    }
}

/// Returns the first place at the end of a row of free cells.
fn place_so_far(wanted: Wanted, region: Region, survey: Survey) -> Option<Place>
    requires { IsSurvey wanted region.size survey.row.end survey }

    ensures is { result ≡ option_or survey.place (if nat_lt survey.row.start survey.row.end
        then place_in wanted region.size survey.row else None) }
    ensures fits { IfSome result (LiesInItsRun wanted region.size) }
{
    match survey.place {
        Some(place) => Some(place),
        None => {
            if survey.row.start < survey.row.end {
                return place_in(wanted, region, survey.row);
            }
            None
        }
    }
}

/// Returns the least allowed place in a run. The header lies at the last multiple of 64 with room
/// for the metadata.
pub fn place_in(wanted: Wanted, region: Region, run: CellRange) -> Option<Place>
    requires spot { is_bad_align wanted.spot ≡ false }
    requires run { IsCellRange run region.size }
    requires small { region.size < 2 ^ 32 }

    ensures is { result ≡ place_in wanted region.size run }
    ensures fits { IfSome result (LiesInItsRun wanted region.size) }
{
    let from = run.start + u64::from(wanted.metadata_len);
    let content = least_allowed_from(wanted.spot, from);
    if content < from {
        return None;
    }
    let limit = content_limit(wanted.spot, region, run.end);
    if limit < content + u64::from(wanted.len) {
        return None;
    }
    Some(Place {
        run,
        header: (content - u64::from(wanted.metadata_len)) / 64 * 64,
        content,
    })
}

/// Returns the least allowed place from `from` on, or a lower place if the spot allows none.
fn least_allowed_from(spot: Spot, from: u64) -> u64
    requires small { from < 2 ^ 33 }
    requires some { is_bad_align spot ≡ false }
    ensures is { result ≡ least_allowed_from spot from }
    ensures small { result < 2 ^ 34 }
{
    match spot {
        Spot::First => from,
        Spot::Aligned(unit) => from.next_multiple_of(u64::from(unit)),
        Spot::Fixed(place) => u64::from(place),
    }
}

/// Returns the upper bound of the content's end.
pub fn content_limit(spot: Spot, region: Region, end: u64) -> u64
    requires { 64 ≤ end }
    ensures { result ≡ content_limit spot region.size end }
{
    match spot {
        Spot::First | Spot::Aligned(_) => space_end(region, end),
        Spot::Fixed(_) => end,
    }
}
