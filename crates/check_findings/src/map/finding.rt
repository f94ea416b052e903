//! Findings of a flash map.

use crate::areas::NumberedArea;
use flash_map::FoundMap;

/// The findings of a flash map, in order.
pub type MapFindings = Vec<MapFinding>;

/// A finding of a flash map.
#[derive(Clone, Copy, Drop)]
pub enum MapFinding {
    /// The image has no valid map. No other finding follows.
    NoMap,
    /// The flash map of the image.
    Map(FoundMap),
    /// The next valid map at a higher offset. Other readers may use it.
    OtherMap(FoundMap),
    /// The map's size isn't the image's.
    OtherSize,
    /// The area ends after the image.
    AreaOutside(NumberedArea),
    /// The area's size is 0.
    AreaEmpty(NumberedArea),
    /// The area's name isn't UTF-8.
    AreaNameNotText(NumberedArea),
    /// An earlier area has the name, so no command finds this area. `first` is the first area with
    /// the name.
    SameName {
        area: NumberedArea,
        first: NumberedArea,
    },
    /// Neither area contains the other. `other` is the first such area.
    Overlap {
        area: NumberedArea,
        other: NumberedArea,
    },
    /// The map has more than 4096 areas, so overlaps aren't checked.
    TooManyAreas,
    /// The first area `FMAP`, if any, doesn't begin with the whole map. coreboot's tools refuse it.
    MapAreaMisses(Option<NumberedArea>),
}
