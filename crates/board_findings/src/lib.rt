//! Checks the structures that a board boots from beside CBFS, by the flash map of an image.
#![tactic(auto)]

mod area;
mod board;
mod components;
mod coreboot;
mod finding;
mod intel;
mod laws;
mod structure;
mod vboot;

pub use area::region_named;
pub use board::check_board;
pub use finding::{BoardFinding, HeaderFinding, Slot, SlotFinding};
pub use laws::{
    erased_descriptors_are_lost, lost_structures_are_gone, sound_boards_have_sound_structures,
};
pub use structure::{Structure, lost_structures};
