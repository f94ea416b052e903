//! The check of a CBFS region, entry by entry.

mod attributes;
mod entries;
mod entry_counts;
mod finding;
mod range;
mod shadows;
mod start;
mod tail;

pub use entries::check_region;
pub use finding::{AttributeFault, Content, HashFinding, Name, RegionFinding};
pub use range::{check_range, entry_region};
pub use start::has_entry_at;
