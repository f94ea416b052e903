//! The anchor of CBFS verification: a digest of all metadata and one of the flash map.
#![tactic(auto)]

mod algorithm;
mod anchor;
mod demand;
mod fault;
mod hasher;
mod known;
mod laws;
mod metadata;
mod names;
mod numbers;
mod place;
mod report;
mod sealing;

pub use algorithm::Algorithm;
pub use anchor::{Anchor, find_anchor};
pub use demand::{Demand, StoredHash, has_hash_of};
pub use fault::SealFault;
pub use known::{is_outdated_with_map, place_with_map};
pub use laws::{
    changed_metadata_is_hashed, sealed_images_are_valid, seals_keep_map_and_components,
    seals_keep_the_anchor,
};
pub use metadata::first_hash;
pub use names::name_at;
pub use numbers::{
    a_renamed_component_is_hashed, a_seal_keeps_map_and_entry, a_sealed_anchor_is_at_its_place,
    a_sealed_image_has_its_digest,
};
pub use place::AnchorPlace;
pub use report::Report;
pub use sealing::{inspect, inspect_anchor, is_outdated, seal};
