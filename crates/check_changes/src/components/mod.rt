//! Compares the components of two CBFS regions.

mod change;
mod comparison;
mod first;
mod listing;
mod region_comparison;

pub use change::{ComponentChange, ComponentDifference};
pub use comparison::same_bytes;
pub use region_comparison::component_changes;
