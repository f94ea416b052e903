//! Compares two flash images: flash maps, areas, blocks, and components of CBFS regions.
#![tactic(auto)]

mod anchor;
mod areas;
mod components;
mod fault;
mod images;
mod laws;
mod regions;

pub use anchor::{AnchorChange, anchor_change};
pub use areas::{
    AreaChange, AreaDifference, Areas, ImageChanges, MapChange, image_changes, map_changes,
};
pub use components::{ComponentChange, ComponentDifference, component_changes, same_bytes};
pub use fault::ChangeFault;
pub use images::{Both, Images, Lengths, RegionPair};
pub use laws::differences_are_reported;
pub use regions::{ComponentChanges, RegionChange, region_changes};
