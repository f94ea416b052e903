//! The check of the anchor of CBFS verification: the bootblock's digests of the metadata of
//! COREBOOT and of the flash map.

mod checked_anchor;
mod finding;

pub use checked_anchor::{CheckedAnchor, check_anchor};
pub use finding::{AnchorFinding, AnchorSpot, Bootblock};
