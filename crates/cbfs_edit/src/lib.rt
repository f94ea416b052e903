//! Edits CBFS regions on a device: additions, removals, lists of both, and formatting.
//!
//! No call allocates memory. The first commit of an edit is the header of a single empty entry. On
//! an honest device, a device fault at any call leaves the components of before or after the edit.
#![tactic(auto)]

mod addition;
mod edit;
mod fault;
mod formatting;
mod group;
mod hashing;
mod insertion;
mod laws;
mod place;
mod region_writes;
mod removal;
mod room;

pub use addition::{HashChoice, Placed, add};
pub use edit::{Edit, Reply, apply_all};
pub use fault::EditFault;
pub use formatting::format;
pub use group::{CellRange, Freed};
pub use laws::{
    additions_add_one_component, formatted_regions_are_free, removals_take_one_component,
    searches_are_exact,
};
pub use place::Spot;
pub use removal::remove;
pub use room::largest_content;
