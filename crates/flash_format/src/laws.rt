//! Laws of the definitions: contracts without code.

ghost use Rattle.std.specs.Prelude.{◌≡◌, ℕ, ◌+◌, ◌-◌, ◌++◌, ◌^◌, ◌%◌, ◌<◌, ◌≤◌, true, false, List, [], ◌∷◌, length, drop, All, IfSome, MatchOption, Option, Some};
ghost use Rattle.std.specs.List.{concat, flat_map};
ghost use Rattle.flash_format.specs.declared.digest.Digest.{Digest};
ghost use Rattle.flash_format.specs.Made.{name_padding, header_length, empty_entry, IsDigest, IsMade, hash_len, made, made_metadata, meta_length, name_room};
ghost use Rattle.flash_format.specs.Head.{head_of, is_free, round64};
ghost use Rattle.flash_format.specs.Entry.{cell, entry};
ghost use Rattle.flash_format.specs.Cut.{End, cut, IsCell, IsCut};
ghost use Rattle.flash_format.specs.Components.{component_at};
ghost use Rattle.flash_format.specs.Splices.{AllFree, CellsBetween, splice};
ghost use Rattle.flash_format.specs.Placings.{HasOneMoreComponent, DecodesAs, IsFreeSpace, space_cells};
ghost use Rattle.flash_format.specs.TypeNames.{name_of_type, type_of_text};
ghost use Rattle.flash_format.specs.Flashmap.{fmap_head_len, fmap_head_of, fmap_head_bytes, area_len, area_of, area_bytes, is_map, is_map_name, map_from};
ghost use Rattle.flash_format.specs.Laws.{EntriesAreReadAlike, CutsGoOn, GroupsAreReplaced, NoMapBelow, IsReadAsMap, PrintedTextsAreReadBack};

use crate::flashmap::{Area, FmapHead};
use crate::head::HEADER_LENGTH;

/// Equates the code's lengths and the definitions.
pub fn lengths_are_defined()
    ensures header { HEADER_LENGTH ≡ header_length }
    ensures map_head { FmapHead.LENGTH ≡ fmap_head_len }
    ensures area { Area.LENGTH ≡ area_len }
{}

/// Proves that a cell's length is valid, and that later bytes don't affect a cell. Only the head
/// affects a free cell.
pub fn entries_are_read_alike()
    ensures { (x : List ℕ) (span : ℕ) → entry x ≡ cell span → EntriesAreReadAlike x span }
{}

/// Proves that every region has a unique division into cells and a remainder.
pub fn cuts_are_made_of_cells()
    ensures every { (x : List ℕ) → length x % 64 ≡ 0
        → (rest : List ℕ) × IsCut x (cut x).cells rest (cut x).end }
    ensures unique { (x : List ℕ) (cells : List (List ℕ)) (rest : List ℕ) (e : End)
        → IsCut x cells rest e → cut x ≡ record { cells = cells; end = e } }
{}

/// Proves that a cut, or a list of components, can resume after any cell.
pub fn cuts_go_on()
    ensures { CutsGoOn }
{}

/// Proves that an empty entry is a free cell, whatever follows its header.
pub fn empty_headers_are_free_cells()
    ensures { (size : ℕ) (bytes : List ℕ) → IsFreeSpace size bytes → 0 < size → size % 64 ≡ 0
        → size < 2 ^ 32 → IsCell bytes × (is_free (head_of bytes) ≡ true) }
{}

/// Proves that replaced cells change no other component, and that an empty entry adds no component.
pub fn groups_are_replaced()
    ensures { (x : List ℕ) (a b : ℕ) (g : CellsBetween x a b) (new : List (List ℕ)) → All IsCell new
        → a + length (concat new) ≡ b → GroupsAreReplaced x a b g new }
{}

/// Proves that a written cell decodes to its component, whatever follows its metadata and content.
pub fn made_cells_are_read_as_made()
    ensures made { (name : List ℕ) (kind : ℕ) (digest : Option Digest) (gap : ℕ)
        (content more : List ℕ) → IsMade name kind digest gap content
        → let component = made_metadata name kind digest gap (length content) ++ content in
        DecodesAs name kind digest content (component ++ more) (round64 (length component)) }
    ensures len { (name : List ℕ) (kind : ℕ) (digest : Option Digest) (gap : ℕ) (content : List ℕ)
        (last : Option (List ℕ)) → IsDigest digest → IfSome last (λ bytes. length bytes ≡ 4)
        → length (made name kind digest gap content last)
        ≡ round64 (meta_length (length name) (hash_len digest) + gap + length content) }
    ensures room { (k : ℕ)
        → (k < name_room k) × (name_room k % name_padding ≡ 0) × (name_room k ≤ k + name_padding) }
{}

/// Proves that placing a component adds exactly one component, and changes no other.
pub fn components_are_placed()
    ensures placed { (x : List ℕ) (start end : ℕ) (g : CellsBetween x start end)
        (before used after : List ℕ) → AllFree g.group → IsFreeSpace (length before) before
        → IsFreeSpace (length after) after → IsCell used → is_free (head_of used) ≡ false
        → length before % 64 ≡ 0 → start + length (before ++ (used ++ after)) ≡ end
        → end - start < 2 ^ 32
        → HasOneMoreComponent x start end g (space_cells before ++ (used ∷ []) ++ space_cells after)
        (component_at (start + length before) used)
        (splice x start end (before ++ (used ++ after))) }
    ensures empty_entries { (size : ℕ) (last : Option (List ℕ)) → 64 ≤ size
        → IfSome last (λ bytes. length bytes ≡ 4) → IsFreeSpace size (empty_entry size last) }
{}

/// Proves that an image's map is the lowest valid map.
pub fn maps_are_the_lowest()
    ensures { (image : List ℕ) → MatchOption (map_from 0 image) (NoMapBelow image (length image))
        (λ q. (is_map (drop q image) ≡ true) × NoMapBelow image q) }
{}

/// Proves that a valid encoded map decodes to its head and areas, whatever follows, if each of them
/// decodes alone, as `read_back` of `FmapHead::write` and `Area::write` ensures.
pub fn maps_are_read_back()
    ensures { (h : FmapHead) (areas : List Area) (more : List ℕ)
        → fmap_head_of (fmap_head_bytes h) ≡ h → All (λ a. area_of (area_bytes a) ≡ a) areas
        → h.major ≡ 1 → is_map_name h.name ≡ true → h.nareas ≡ length areas
        → IsReadAsMap h areas (fmap_head_bytes h ++ flat_map area_bytes areas ++ more) }
{}

/// Proves that a type's name decodes to the type.
pub fn type_names_are_read_back()
    ensures { (n : ℕ) (name : List ℕ) → name_of_type n ≡ Some name → type_of_text name ≡ Some n }
{}

/// Proves that different names and numbers have different texts without tabs.
pub fn printed_texts_are_read_back()
    ensures { PrintedTextsAreReadBack }
{}
