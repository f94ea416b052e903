//! The commands on an image.
#![tactic(auto)]

mod add;
mod create;
mod execution;
mod extract;
mod laws;
mod layout;
mod map_notes;
mod mapped;
mod note;
mod numbers;
mod print;
mod read;
mod region_notes;
mod remove;
mod row;
mod write;

pub use cbfs_requests::{Command, MOST_REGIONS, Refusal};
pub use create::create_size;
pub use execution::{run, run_with_map};
pub use laws::{
    additions_are_extracted, lines_are_read_back, outcomes_depend_on_bytes, plans_are_sound,
};
pub use map_notes::{MapNote, map_note};
pub use mapped::Used;
pub use note::is_note_due;
pub use numbers::{
    a_planned_region_is_free, a_read_region_is_written_back, an_added_content_is_extracted,
    lines_of_two_numbers_differ,
};
pub use region_notes::{RegionNote, region_note};
