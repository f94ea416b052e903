//! Compares the components of two images.

mod change;
mod regions;

pub use change::{ComponentChanges, RegionChange};
pub use regions::region_changes;
