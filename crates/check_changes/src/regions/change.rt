//! The changes of a region.
use crate::components::ComponentChange;
use check_findings::{Elements, NumberedArea};

/// The changes between the components of two regions.
pub type ComponentChanges = Elements<ComponentChange>;

/// The changes of components in an area.
#[derive(Drop)]
pub enum RegionChange {
    /// The changes from the first old area of its name.
    Compared {
        area: NumberedArea,
        changes: ComponentChanges,
    },
    /// An area ends outside its image, or the limit of compared bytes is reached.
    NotCompared(NumberedArea),
}
