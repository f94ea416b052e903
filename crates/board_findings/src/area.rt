//! Areas by name.
ghost use Rattle.std.specs.Prelude.{◌≡◌, ◌+◌, ◌≤◌, IfSome};
ghost use Rattle.std.specs.List.{find};
ghost use Rattle.check_findings.specs.Areas.{has_name};
ghost use Rattle.board_findings.specs.Components.{range_named};

use check_findings::NumberedArea;
use flash_map::Region;

/// Returns the first area named `name`.
pub fn first_area(areas: &[NumberedArea], name: &[u8]) -> Option<NumberedArea>
    ensures { result ≡ find (has_name name.now) areas.now }
{
    areas.iter().copied().find(|area| area.area.name_is(name))
}

/// Returns the range of the first area named `name`, if the area lies inside an image of
/// `image_len` bytes.
pub fn region_named(areas: &[NumberedArea], name: &[u8], image_len: u64) -> Option<Region>
    ensures range { result ≡ range_named image_len areas.now name.now }
    ensures inside { IfSome result (λ region. region.start + region.size ≤ image_len) }
{
    let area = first_area(areas, name)?;
    let start = u64::from(area.area.offset);
    Region::within(start, u64::from(area.area.size), image_len)
}
