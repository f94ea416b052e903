//! Findings of an anchor.
use cbfs_anchor::Algorithm;

/// The bootblock with the anchor.
#[derive(Clone, Copy)]
pub enum Bootblock {
    /// The area BOOTBLOCK.
    Area,
    /// The component `bootblock` of COREBOOT.
    Component,
}

/// The place of an anchor.
#[derive(Clone, Copy)]
pub struct AnchorSpot {
    pub bootblock: Bootblock,
    /// The anchor's offset in BOOTBLOCK or COREBOOT, in bytes.
    pub at: u64,
}

/// A finding of an anchor.
#[derive(Clone, Copy, Drop)]
pub enum AnchorFinding {
    /// Whether the anchor has the digest of the metadata of COREBOOT.
    Metadata {
        spot: AnchorSpot,
        algorithm: Algorithm,
        is_valid: bool,
    },
    /// Whether the anchor has the digest of the flash map.
    FlashMap {
        spot: AnchorSpot,
        algorithm: Algorithm,
        is_valid: bool,
    },
    /// COREBOOT is damaged, so the digests aren't checked.
    NotChecked(AnchorSpot),
    /// The anchor's algorithm isn't one of the five.
    UnknownAlgorithm(Bootblock),
    /// The anchor ends after the area or the component.
    CutOff(Bootblock),
}
