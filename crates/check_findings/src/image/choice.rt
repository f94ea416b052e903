//! The choice of areas to check.
ghost use Rattle.std.specs.Prelude.{◌≤◌, All, IsTrue, length, IfOk};
ghost use Rattle.flash_device.specs.Pages.{HasAnswered, OnHonest, Returns, Lists, HasReadBy};
ghost use Rattle.check_findings.specs.Faults.{by_device};
ghost use Rattle.check_findings.specs.Areas.{area_end};
ghost use Rattle.check_findings.specs.ImageFindings.{cbfs_areas, is_wanted, wanted_areas};
ghost use Rattle.check_findings.specs.ImageFindings.{is_named_in, knows_smaller};

use crate::areas::NumberedArea;
use crate::fault::CheckFault;
use crate::image::names::NameSet;
use crate::image::starts::Starts;
use crate::lists::push_if;
use crate::region::has_entry_at;
use flash_device::{Flash, FlashFault, Paged, Region};
use std::alloc::Global;

/// Returns the CBFS areas: each lies inside the image, begins with an entry, and is the smallest
/// such area at its offset.
pub fn cbfs_areas<F: Flash>(
    alloc: Global,
    paged: &mut Paged<F>,
    areas: &[NumberedArea],
) -> Result<Vec<NumberedArea>, CheckFault>
    ensures calls { HasReadBy by_device (length areas.now) paged.old paged.new result }
    ensures areas { OnHonest paged.old.device (λ image. Lists result (cbfs_areas image areas.now)) }
{
    let none = NameSet::new(alloc);
    wanted_areas(alloc, paged, &none, areas)
}

/// Returns the areas to check, in order.
pub fn wanted_areas<F: Flash>(
    alloc: Global,
    paged: &mut Paged<F>,
    expected: &NameSet,
    areas: &[NumberedArea],
) -> Result<Vec<NumberedArea>, CheckFault>
    ensures calls { HasReadBy by_device (length areas.now) paged.old paged.new result }
    ensures inside { IfOk result (λ wanted.
        All (λ a. area_end a.area ≤ length paged.old.device.content) wanted.items) }
    ensures count { IfOk result (λ wanted. length wanted.items ≤ length areas.now) }
    ensures areas { OnHonest paged.old.device (λ image.
        Lists result (wanted_areas image (is_named_in expected.now) areas.now)) }
{
    let starts = Starts::of(alloc, areas)?;
    let mut wanted = Vec::new(alloc);
    for area in areas {
        let is_wanted = is_wanted(paged, expected, &starts, area)?;
        push_if(&mut wanted, is_wanted, *area)?;
    }
    Ok(wanted)
}

fn is_wanted<F: Flash>(
    paged: &mut Paged<F>,
    expected: &NameSet,
    starts: &Starts,
    area: &NumberedArea,
) -> Result<bool, FlashFault>
    ensures calls { HasAnswered 1 paged.old paged.new result }
    ensures inside { IfOk result (λ wanted. IsTrue wanted →
        area_end area.now.area ≤ length paged.old.device.content) }
    ensures wanted { OnHonest paged.old.device (λ image. Returns result
        (is_wanted image (is_named_in expected.now) (knows_smaller starts.now) area.now)) }
{
    let start = u64::from(area.area.offset);
    let size = u64::from(area.area.size);
    let Some(region) = Region::within(start, size, paged.len()) else {
        return Ok(false);
    };
    Ok(expected.contains(area) || (!starts.has_smaller(area) && has_entry_at(paged, region, 0)?))
}
