//! Computes the digests of the components of a flash image.
//!
//! A listing of an image needs them, and a check does not. No function writes to the device.
#![tactic(auto)]

mod digests;
mod image;
mod region;

pub use digests::ComponentDigests;
pub use image::component_digests;
