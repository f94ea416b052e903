//! A law of written maps: a contract without code.
ghost use Rattle.std.specs.Prelude.{ℕ, ◌≤◌, List, ◌++◌, length};
ghost use Rattle.flash_format.specs.declared.flashmap.Area.{Area};
ghost use Rattle.flash_format.specs.declared.flashmap.FmapHead.{FmapHead};
ghost use Rattle.flash_format.specs.Laws.{IsReadAsMap, NoMapBelow};
ghost use Rattle.flash_device.specs.Device.{overwritten};
ghost use Rattle.flash_map.specs.Fmap.{FindsMap};

/// Proves that a search finds a written map, if no valid map begins lower.
pub fn written_maps_are_found()
    ensures { (h : FmapHead) (areas : List Area) (bytes image : List ℕ) (q : ℕ)
        → ((more : List ℕ) → IsReadAsMap h areas (bytes ++ more)) → q ≤ length image
        → let now = overwritten image q bytes in NoMapBelow now q → FindsMap h areas now q }
{}
