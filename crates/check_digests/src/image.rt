//! The digests of the components of an image.
ghost use Rattle.std.specs.Prelude.{◌*◌, ◌+◌, ◌/◌, ◌≤◌, All, length};
ghost use Rattle.flash_format.specs.Flashmap.{area_len};
ghost use Rattle.flash_device.specs.Pages.{HasReadBy, Lists, OnHonest};
ghost use Rattle.check_digests.specs.Digests.{digests_in, image_digests, region_digests};
ghost use Rattle.check_findings.specs.Areas.{area_end};
ghost use Rattle.check_findings.specs.Faults.{by_device};
ghost use Rattle.check_findings.specs.ImageFindings.{AreChecked, entry_bytes};
ghost use Rattle.check_findings.specs.ImageFindings.{region_area, region_areas, sum_sizes};
ghost use Rattle.check_findings.specs.Lists.{Gains};

use crate::digests::ComponentDigests;
use crate::region::push_region;
use check_findings::{CheckFault, ImageFinding, NumberedArea, entry_region};
use flash_device::{Flash, Paged, Region};
use std::alloc::Global;

/// Appends the digests of the components of an area. The bytes after the area's last multiple of
/// 64 have no component.
fn push_area<F: Flash>(
    alloc: Global,
    paged: &mut Paged<F>,
    area: &NumberedArea,
    all: &mut Vec<ComponentDigests>,
) -> Result<(), CheckFault>
    requires inside { area_end area.now.area ≤ length paged.old.device.content }

    ensures calls { HasReadBy by_device (area.now.area.size / 20 + 2) paged.old paged.new result }
    ensures digests { OnHonest paged.old.device (λ image.
        Gains all.old all.new result (region_digests (entry_bytes image area.now))) }
{
    let start = u64::from(area.area.offset);
    let size = u64::from(area.area.size);
    match Region::within(start, size, paged.len()) {
        Some(region) => push_region(alloc, paged, entry_region(region), all),
        None => unreachable!(),
    }
}

/// Appends the digests of the components of a finding's area, if the finding is about a checked
/// area.
fn push_finding<F: Flash>(
    alloc: Global,
    paged: &mut Paged<F>,
    finding: &ImageFinding,
    all: &mut Vec<ComponentDigests>,
) -> Result<(), CheckFault>
    requires { All (λ a. area_end a.area ≤ length paged.old.device.content)
        (region_area finding.now) }

    ensures calls { let areas = region_area finding.now in HasReadBy by_device
        (sum_sizes areas / 20 + 2 * length areas) paged.old paged.new result }
    ensures digests { OnHonest paged.old.device (λ image.
        Gains all.old all.new result (digests_in image (region_area finding.now))) }
{
    match finding {
        ImageFinding::Region { area, .. } => push_area(alloc, paged, area, all),
        _ => Ok(()),
    }
}

/// Returns the digests of each component of the checked areas, in the order of the findings of
/// `check_image`: the stored digest, and SHA-256 of the content. Returns `Device` exactly if the
/// device refused a read, and `Memory` if an allocation failed.
pub fn component_digests<F: Flash>(
    alloc: Global,
    paged: &mut Paged<F>,
    findings: &[ImageFinding],
) -> Result<Vec<ComponentDigests>, CheckFault>
    requires areas { let n = length paged.old.device.content in
        AreChecked n (n / area_len) 0 (region_areas findings.now) }

    // On any device.
    ensures calls { HasReadBy by_device (3 * length paged.old.device.content / 20)
        paged.old paged.new result }

    // On an honest device.
    ensures digests { OnHonest paged.old.device
        (λ image. Lists result (image_digests image findings.now)) }
{
    let mut all = Vec::new(alloc);
    for finding in findings {
        push_finding(alloc, paged, finding, &mut all)?;
    }
    Ok(all)
}
