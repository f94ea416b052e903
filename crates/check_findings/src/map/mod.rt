//! The check of a flash map.

mod checked_map;
mod finding;
mod findings;
mod names;
mod overlaps;

pub use checked_map::{CheckedMap, check_map};
pub use finding::MapFinding;
pub use findings::is_text;
