//! Starts of entries.
ghost use Rattle.flash_device.specs.Pages.{HasAnswered, ReadsAs};
ghost use Rattle.flash_device.specs.Regions.{Reaches};
ghost use Rattle.check_findings.specs.RegionFindings.{has_entry_at};

use cbfs_walk::front_at;
use flash_device::{Flash, FlashFault, Paged, Region};

/// Returns whether an entry, damaged or not, begins at this offset.
pub fn has_entry_at<F: Flash>(
    paged: &mut Paged<F>,
    region: Region,
    at: u64,
) -> Result<bool, FlashFault>
    requires { Reaches region at paged.old.device }

    // On any device.
    ensures calls { HasAnswered 1 paged.old paged.new result }

    // On an honest device.
    ensures has { ReadsAs paged.old region result (has_entry_at at) }
{
    let head = front_at(paged, region, at)?;
    Ok(head.is_some())
}
