//! A law about compiled tables, as a contract.
ghost use Rattle.std.specs.Prelude.{ℕ, ◌≤◌, List, length};
ghost use Rattle.flash_device.specs.Device.{overwritten};
ghost use Rattle.flash_map.specs.Fmap.{FindsMap, NoMapBelow};
ghost use Rattle.fmd_lang.specs.Words.{words};
ghost use Rattle.fmd_lang.specs.Grammar.{IsSection, Tree};
ghost use Rattle.fmd_lang.specs.Table.{IsTable, table_head};
ghost use Rattle.fmd_lang.specs.declared.table.Table.{Table};
ghost use Rattle.fmap_compiler.specs.Outcome.{Compiles};

/// A search finds a compiled table in an image, with the areas, unless a valid map has a lower
/// offset, for example in a nested image.
pub fn compiled_maps_are_found()
    ensures { (text bytes image : List ℕ) (q : ℕ) → Compiles text bytes → q ≤ length image
        → let now = overwritten image q bytes in
        NoMapBelow now q → (tree : Tree) × (table : Table) × IsSection tree (words text)
        × IsTable tree table × FindsMap (table_head table) table.areas.items now q }
{}
