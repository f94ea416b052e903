//! Searches for a flash map, its areas, and regions by name.
#![tactic(auto)]

mod laws;
mod search;

pub use flash_device::Region;
pub use laws::written_maps_are_found;
pub use search::{
    FoundMap, StoreFault, area, area_in_source, area_named, find_fmap, find_fmap_from,
    map_in_source, region, region_of_area,
};
