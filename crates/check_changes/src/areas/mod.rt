//! Compares flash maps, areas and blocks.

mod areas;
mod blocks;
mod change;
mod holders;
mod map;
mod names;
mod pairs;

pub use areas::{Areas, ImageChanges, image_changes};
pub use blocks::blocks_of;
pub use change::{AreaChange, AreaDifference, MapChange};
pub use map::map_changes;
pub use names::NamedAreas;
pub use pairs::AreaPair;
