//! The digests of listed components.
ghost use Rattle.std.specs.Prelude.{◌*◌, ◌/◌, [], length, if◌then◌else◌};
ghost use Rattle.flash_format.specs.Flashmap.{area_len};
ghost use Rattle.flash_device.specs.Pages.{HasReadBy, Lists, OnHonest};
ghost use Rattle.check_digests.specs.Digests.{image_digests};
ghost use Rattle.check_findings.specs.Faults.{by_device};
ghost use Rattle.check_findings.specs.ImageFindings.{AreChecked, region_areas};

use crate::request::Asked;
use check_digests::{ComponentDigests, component_digests};
use check_findings::{CheckFault, ImageFinding};
use flash_device::{Flash, Paged};
use std::alloc::Global;

/// Returns the digests of the components of the checked areas if a list is asked for, otherwise
/// none, without a read.
pub fn digests_on_request<F: Flash>(
    alloc: Global,
    paged: &mut Paged<F>,
    asked: Asked,
    findings: &[ImageFinding],
) -> Result<Vec<ComponentDigests>, CheckFault>
    requires { let n = length paged.old.device.content in
        AreChecked n (n / area_len) 0 (region_areas findings.now) }

    // On any device.
    ensures calls { HasReadBy by_device (3 * length paged.old.device.content / 20)
        paged.old paged.new result }

    // On an honest device.
    ensures digests { OnHonest paged.old.device (λ image. Lists result
        (if asked.lists then image_digests image findings.now else [])) }
{
    if asked.lists {
        component_digests(alloc, paged, findings)
    } else {
        Ok(Vec::new(alloc))
    }
}
