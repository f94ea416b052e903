//! Laws of walks: functions without code.
ghost use Rattle.std.specs.Prelude.{◌≡◌, ℕ, ◌%◌, ◌≤◌, List, length};
ghost use Rattle.flash_format.specs.Cut.{Cut};
ghost use Rattle.flash_device.specs.Regions.{Range, LiesIn, bytes_in};
ghost use Rattle.cbfs_walk.specs.Cells.{IsCellIn};
ghost use Rattle.cbfs_walk.specs.Walks.{answer_at, StandsIn};
ghost use Rattle.cbfs_walk.specs.CellReadings.{reading_of, ReadsCells, by_answer};
ghost use Rattle.cbfs_walk.specs.Laws.{GoesOn, CellBytes, SearchesFindTheFirst};
ghost use Rattle.cbfs_walk.specs.declared.cell.Cell.{Cell};
ghost use Rattle.cbfs_walk.specs.declared.walk.WalkFault.{WalkFault};

/// Proves that a walk's result is the next part of the region's cut.
pub fn walks_follow_the_cut()
    ensures { (x : List ℕ) (at : ℕ) → at ≤ length x → at % 64 ≡ 0 → GoesOn x at (answer_at x at) }
{}

/// Proves that a loop over a walk computes any function of a cut defined cell by cell.
pub fn readings_take_steps<A>()
    ensures { (refuse : WalkFault → A) (read : ℕ → Cut → A) (each : List ℕ → Cell → A → A)
        → ReadsCells read each → (x : List ℕ) (at : ℕ) → at ≤ length x → at % 64 ≡ 0
        → reading_of refuse read x at ≡ by_answer refuse read each x (answer_at x at) }
{}

/// Proves that a cell's head, length and content equal the image's bytes.
pub fn cells_stand_in_their_image()
    ensures { (region : Range) (image : List ℕ) (c : Cell) → LiesIn region image
        → IsCellIn region.size c → StandsIn (bytes_in region image) c → CellBytes region image c }
{}

/// Proves that a search returns the first component with the name and, in a region of valid shape,
/// finds each name in the list.
pub fn listed_components_are_found()
    ensures { SearchesFindTheFirst }
{}
