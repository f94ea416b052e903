//! Findings of an image.

use crate::anchor::AnchorFinding;
use crate::areas::NumberedArea;
use crate::lists::Elements;
use crate::map::MapFinding;
use crate::region::RegionFinding;
use cbfs_anchor::Anchor;

/// The findings of a region.
pub type RegionFindings = Elements<RegionFinding>;

/// A finding of an image.
#[derive(Drop)]
pub enum ImageFinding {
    Map(MapFinding),
    Anchor(AnchorFinding),
    /// An area that was checked as a CBFS region.
    Region {
        area: NumberedArea,
        /// The image's anchor, if its firmware loads components from the region.
        anchor: Option<Anchor>,
        findings: RegionFindings,
    },
    /// With it, the checked areas would exceed the limit. `is_named`: the name is expected.
    NotChecked {
        area: NumberedArea,
        is_named: bool,
    },
    /// The index of a given name without an area.
    NoArea(usize),
}
