//! Laws about boards, as the contracts of functions without effect.
ghost use Rattle.std.specs.Prelude.{◌≡◌, ◌↔◌, Contains, List, false};
ghost use Rattle.std.specs.List.{list_any};
ghost use Rattle.board_findings.specs.BoardFindings.{Board, board_findings};
ghost use Rattle.board_findings.specs.Laws.{HasSoundStructures};
ghost use Rattle.board_findings.specs.StructureLaws.{IsLost, after_erasure, before_erasure};
ghost use Rattle.board_findings.specs.Structures.{lost_structures};
ghost use Rattle.board_findings.specs.Verdicts.{is_bad};
ghost use Rattle.board_findings.specs.declared.finding.BoardFinding.{BoardFinding};
ghost use Rattle.board_findings.specs.declared.structure.Structure.{Structure};
ghost use Rattle.board_findings.specs.declared.structure.Structure.TheVariants as structures;

use board_structures::{
    areas_without_difference_are_their_regions, signed_slots_are_covered, sound_blocks_are_usable,
    sound_descriptors_have_a_signature, sound_headers_are_of_their_area,
    sound_partition_tables_have_a_marker, sound_reset_vectors_have_code, sound_tables_are_usable,
};

/// If no finding is bad, each structure of the image is blank or satisfies its rule.
pub fn sound_boards_have_sound_structures()
    ensures { (b : Board) → list_any is_bad (board_findings b) ≡ false → HasSoundStructures b }
{
    sound_descriptors_have_a_signature();
    areas_without_difference_are_their_regions();
    sound_partition_tables_have_a_marker();
    sound_reset_vectors_have_code();
    sound_tables_are_usable();
    sound_headers_are_of_their_area();
    sound_blocks_are_usable();
    signed_slots_are_covered();
}

/// A structure is listed as lost exactly if the old image has the structure and the new image has
/// not. A region is compared only if the new image has a flash descriptor with a table of regions.
pub fn lost_structures_are_gone()
    ensures { (old new : List BoardFinding) (structure : Structure) →
        Contains (lost_structures old new) structure ↔ IsLost old new structure }
{}

/// An example: an erased flash descriptor is lost, and a GBB in both images is not.
pub fn erased_descriptors_are_lost()
    ensures gone { Contains (lost_structures before_erasure after_erasure)
        structures.FlashDescriptor }
    ensures kept { Contains (lost_structures before_erasure after_erasure) structures.Gbb → ⊥ }
{
    lost_structures_are_gone();
}
