//! Walks over the cells of a CBFS region, and the search for components.
//!
//! No function allocates memory. Even a device with false results keeps a walk in its region.
#![tactic(auto)]

mod attribute_walk;
mod cell;
mod hashes;
mod laws;
mod names;
mod region_reads;
mod search;
mod walk;

pub use attribute_walk::{AttrWalk, attributes, first_attribute, packing, value_at};
pub use cell::Cell;
pub use hashes::{HashState, check_hash};
pub use laws::{
    cells_stand_in_their_image, listed_components_are_found, readings_take_steps,
    walks_follow_the_cut,
};
pub use names::{name, name_end, name_is};
pub use region_reads::{piece_in, read_in};
pub use search::{find, is_component};
pub use walk::{Step, Walk, WalkFault, front_at, has_bad_size};
