//! Checks an image: its flash map and CBFS regions. A check allocates memory for findings, and
//! never writes to the device.

mod choice;
mod finding;
mod image;
mod names;
mod needs;
mod starts;
mod verdict;

pub use choice::cbfs_areas;
pub use finding::{ImageFinding, RegionFindings};
pub use image::{CheckedImage, check_image};
pub use names::NameSet;
pub use needs::{Need, NeedFinding, NeededPlace, unmet};
pub use verdict::{HashRules, has_long_metadata};
