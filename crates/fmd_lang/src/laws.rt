//! Laws of the definitions: each contract is a law.

ghost use Rattle.std.specs.Prelude.{◌≡◌, ◌≢◌, ◌↔◌, ℕ, List, ◌++◌, Some, None, Ok, false, map};
ghost use Rattle.flash_format.specs.Laws.{IsReadAsMap};
ghost use Rattle.fmd_lang.specs.Table.{table_bytes, table_head, IsTable, layout_fault};
ghost use Rattle.fmd_lang.specs.Grammar.{Tree, IsSection, names};
ghost use Rattle.fmd_lang.specs.Positions.{section_words};
ghost use Rattle.fmd_lang.specs.Words.{Word, words};
ghost use Rattle.fmd_lang.specs.Faults.{first_fault};
ghost use Rattle.fmd_lang.specs.declared.fault.Expected.{Expected};
ghost use Rattle.fmd_lang.specs.Layout.{ambiguous_sibling, places_of, ArePlaced};
ghost use Rattle.fmd_lang.specs.declared.row.Sibling.{Sibling};
ghost use Rattle.fmd_lang.specs.declared.row.Place.{Place};

use crate::fault::FmdFault;
use crate::table::Table;

/// A text has at most one tree.
pub fn one_tree(text: &[u8])
    ensures { (t u : Tree) → IsSection t (words text.now) → IsSection u (words text.now) → t ≡ u }
{}

/// A text with a tree has no unexpected token.
pub fn trees_have_no_misplaced_word(text: &[u8])
    ensures { (t : Tree) (at : ℕ) (what : Expected) → IsSection t (words text.now)
        → first_fault text.now ≢ Some (FmdFault.Expected at what) }
{}

/// A text without a fault has a tree.
pub fn faultless_texts_have_a_tree(text: &[u8])
    requires { first_fault text.now ≡ None }
    ensures { (t : Tree) × IsSection t (words text.now) }
{}

/// Valid places are the computed ones, and have no fault.
pub fn laid_sections_have_no_fault()
    ensures { (parent : ℕ) (row : List Sibling) (places : List Place)
        → (ambiguous_sibling false row ≡ None) × ArePlaced parent 0 row places
        ↔ (places_of parent row ≡ Ok places) }
{}

/// A tree has at most one table.
pub fn one_table(one: &Table, other: &Table)
    ensures { (t : Tree) → IsTable t one.now → IsTable t other.now
        → (table_head one.now ≡ table_head other.now)
        × (one.now.areas.items ≡ other.now.areas.items) }
{}

/// The table of a text and layout without faults, followed by any bytes, parses as a valid map.
pub fn tables_are_maps(text: &[u8], table: &Table)
    requires { first_fault text.now ≡ None }
    ensures { (t : Tree) (more : List ℕ) → IsSection t (words text.now) → layout_fault t ≡ None
        → IsTable t table.now
        → IsReadAsMap (table_head table.now) table.now.areas.items (table_bytes table.now ++ more) }
{}

/// The names outside parentheses are those of the sections, in preorder.
pub fn names_are_those_of_the_sections(text: &[u8])
    ensures { (t : Tree) → IsSection t (words text.now)
        → map (λ (w : Word). w.bytes) (section_words false (words text.now)) ≡ names t }
{}
