//! Laws of outcomes: functions without code.

ghost use Rattle.std.specs.Prelude.{◌≡◌, ℕ, List, Ok};
ghost use Rattle.cbfs_edit.specs.Additions.{NewComponent};
ghost use Rattle.cbfs_edit.specs.Laws.{IsAdded};
ghost use Rattle.cbfs_edit.specs.declared.place.Place.{Place};
ghost use Rattle.cbfs_edit.specs.declared.place.Spot.{Spot};
ghost use Rattle.cbfs_commands.specs.Creations.{plan_for};
ghost use Rattle.cbfs_commands.specs.Laws.{AdditionsAreExtracted, IsSoundPlan, LinesAreReadBack};
ghost use Rattle.cbfs_commands.specs.Laws.{OutcomesDependOnBytes};
ghost use Rattle.cbfs_commands.specs.declared.create.plan.Plan.{Plan};

/// Proves that an outcome's own answer is never a fault of the device, the output or the source,
/// that writing back the output of `read` leaves the image unchanged, and that a command on a
/// region depends only on the flash map, the bytes of the region and the source.
pub fn outcomes_depend_on_bytes()
    ensures { OutcomesDependOnBytes }
{}

/// Proves that the flashmap of a plan fits its area, that all named regions lie in the image with
/// valid sizes, and that these ranges don't overlap. For an image below 2^32, `create` formats each
/// named region as an empty entry. Other areas are not covered.
pub fn plans_are_sound()
    ensures { (n : ℕ) (names : List (List ℕ)) (source : List ℕ) (plan : Plan)
        → plan_for n names source ≡ Ok plan → IsSoundPlan n source plan }
{}

/// Proves that `extract` returns the content of an addition, if the image's map keeps the region.
/// Contents with a valid map, and regions over the map, can change the map. Preconditions: region,
/// type and content below 2^32, and a digest of the algorithm's length.
pub fn additions_are_extracted()
    ensures { (x : List ℕ) (new : NewComponent) (spot : Spot) (place : Place)
        → IsAdded x new spot place → AdditionsAreExtracted x new place }
{}

/// Proves that printed lines determine their values, for any later text and numbers below 2^64: a
/// cell's row the offset, type and content length, and a component's name and compression; an
/// area's line its name up to the NUL, offset, size and flags; a map's line its offset, name, size
/// and number of areas.
pub fn lines_are_read_back()
    ensures { LinesAreReadBack }
{}
