//! The changes between two flash maps.
use check_findings::NumberedArea;

/// A difference between an area and the first old area of its name.
#[derive(Clone, Copy, Drop)]
pub enum AreaDifference {
    Added,
    Gone,
    /// The old offset.
    MovedFrom(u32),
    /// The old size.
    ResizedFrom(u32),
    /// The old flags.
    FlagsFrom(u16),
    /// The areas have one size and other bytes. `blocks` counts different blocks of 4096 bytes from
    /// the area's start. `own` omits blocks inside a smaller area, if that area has the same shift
    /// and size in both maps, and lies in both images.
    Differs { blocks: u32, own: u32 },
    /// The areas have one size, but one ends outside its image, or the limit of compared bytes is
    /// reached.
    NotCompared,
}

/// A change between the areas of two images.
#[derive(Clone, Copy, Drop)]
pub struct AreaChange {
    /// The new area, or the old one if it is gone.
    pub area: NumberedArea,
    pub what: AreaDifference,
}

/// A change of the flash map itself.
#[derive(Clone, Copy, Drop)]
pub enum MapChange {
    NoOldMap,
    /// The old map's offset.
    MovedFrom(u64),
    /// The old base address.
    BaseFrom(u64),
    NameChanged,
}
