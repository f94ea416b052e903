//! The laws of this crate at literal images, in numbers. A law that holds of no image would prove
//! none of these.
ghost use Rattle.std.specs.Prelude.{◌≡◌, [], ◌∷◌, false, replicate, slice_range};
ghost use lib.Chars.{codes};
ghost use Rattle.cbfs_anchor.specs.Samples.{free_cell, named_cell, small_found, small_image, small_map};
ghost use Rattle.cbfs_edit.specs.Additions.{added};
ghost use Rattle.cbfs_edit.specs.Changes.{IsOneFreeCell};
ghost use Rattle.cbfs_requests.specs.Requests.{IsFault, layout, on_region, read, write};
ghost use Rattle.cbfs_commands.specs.Creations.{created_image};
ghost use Rattle.cbfs_commands.specs.Effects.{effect};
ghost use Rattle.cbfs_commands.specs.Outcomes.{extract_region, shows};
ghost use Rattle.cbfs_commands.specs.Rows.{area_line, map_line, shown_cell};
ghost use Rattle.cbfs_commands.specs.Samples.{area_of_size, changed_image, new_data, place_in_free, small_plan};

use crate::laws::{
    additions_are_extracted, lines_are_read_back, outcomes_depend_on_bytes, plans_are_sound,
};

/// `outcomes_depend_on_bytes` at an image of 320 bytes, whose region COREBOOT is an empty entry of
/// 64 bytes: `write` of this entry changes nothing, `read` returns it also after a change of
/// another byte, and no answer of `layout` is a fault.
pub fn a_read_region_is_written_back()
    ensures back { (effect (on_region (codes "COREBOOT") write)).outcome small_image free_cell
        ≡ record { printout = shows []; image = small_image } }
    ensures changed { ((effect (on_region (codes "COREBOOT") read)).outcome changed_image
        []).printout ≡ shows free_cell }
    ensures own { ¬ IsFault ((effect layout).outcome small_image []).printout.answer }
{
    outcomes_depend_on_bytes();
}

/// `plans_are_sound` at the flash map of this image: bytes 192 to 256 of the created image are one
/// free cell.
pub fn a_planned_region_is_free()
    ensures { IsOneFreeCell (slice_range (created_image 320 small_plan small_map) 192 256) }
{
    plans_are_sound();
}

/// `additions_are_extracted` at the empty entry: `extract` of the added `a` returns `DATA`.
pub fn an_added_content_is_extracted()
    ensures { extract_region (added free_cell new_data place_in_free) (codes "a")
        ≡ shows (codes "DATA") }
{
    additions_are_extracted();
}

/// `lines_are_read_back` at areas of 16 and 17 bytes, a component at the offsets 0 and 64, and maps
/// at the offsets 0 and 1: their lines differ.
pub fn lines_of_two_numbers_differ()
    ensures areas { ¬ (area_line (area_of_size 16) ≡ area_line (area_of_size 17)) }
    ensures cells { ¬ (shown_cell false 0 (named_cell 97) ≡ shown_cell false 64 (named_cell 97)) }
    ensures maps { ¬ (map_line small_found ≡ map_line (record small_found { at = 1 })) }
{
    lines_are_read_back();
}
