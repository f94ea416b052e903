//! Checks a flash image: its flash map and its CBFS regions.
#![tactic(auto)]

mod anchor;
mod areas;
mod fault;
mod image;
mod laws;
mod lists;
mod map;
mod names;
mod region;

pub use anchor::{AnchorFinding, AnchorSpot, Bootblock, CheckedAnchor, check_anchor};
pub use areas::{ImageMap, NumberedArea, image_map};
pub use fault::CheckFault;
pub use image::{
    CheckedImage, HashRules, ImageFinding, NameSet, Need, NeedFinding, NeededPlace, RegionFindings,
    cbfs_areas, check_image, has_long_metadata, unmet,
};
pub use laws::{
    blank_tails_are_known, clean_maps_are_sound, counts_are_of_the_entries,
    faultless_attributes_are_read_alike, fit_images_are_sealed, fit_images_are_whole,
    fit_regions_are_whole, needs_are_there, other_digests_are_reported,
    two_image_lengths_are_checked, unshadowed_components_are_found,
};
pub use lists::{Elements, push, push_if};
pub use map::{CheckedMap, MapFinding, check_map, is_text};
pub use names::AreaNames;
pub use region::{
    AttributeFault, Content, HashFinding, Name, RegionFinding, check_region, entry_region,
};
