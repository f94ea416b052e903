//! Laws of writes: contracts without code.

ghost use Rattle.std.specs.Prelude.{◌≡◌, ℕ, ◌+◌, ◌≤◌, List, length};
ghost use Rattle.flash_device.specs.Device.{overwritten};
ghost use Rattle.flash_device.specs.Regions.{Range, LiesIn, bytes_in};
ghost use Rattle.flash_device.specs.Laws.{WritesInRegions, LieApart, with_edit};

/// Proves the effect of image writes on a region.
pub fn writes_are_seen_by_regions()
    ensures { WritesInRegions }
{}

/// Proves that writes to separate ranges commute.
pub fn separate_writes_swap()
    ensures { (x : List ℕ) (a : ℕ) (u : List ℕ) (b : ℕ) (v : List ℕ) → a + length u ≤ b
        → b ≤ length x → overwritten (overwritten x a u) b v ≡ overwritten (overwritten x b v) a u }
{}

/// Proves that size-preserving edits of separate regions commute.
pub fn separate_edits_swap()
    ensures { (image : List ℕ) (r s : Range) (first last : List ℕ → List ℕ) → LiesIn r image
        → LiesIn s image → LieApart r s
        → length (first (bytes_in r image)) ≡ r.size → length (last (bytes_in s image)) ≡ s.size
        → with_edit s last (with_edit r first image) ≡ with_edit r first (with_edit s last image) }
{}
