//! Regions of any size. Their entries end at the last multiple of 64 bytes.
ghost use Rattle.std.specs.Prelude.{◌≡◌, ◌+◌, ◌/◌, ◌^◌, ◌<◌};
ghost use Rattle.flash_device.specs.Pages.{HasReadBy, Lists, OnHonest};
ghost use Rattle.flash_device.specs.Regions.{LiesOn};
ghost use Rattle.check_findings.specs.Faults.{by_device};
ghost use Rattle.check_findings.specs.RegionFindings.{entry_range, is_unaligned, range_findings};

use crate::fault::CheckFault;
use crate::lists::push_if;
use crate::region::entries::check_region;
use crate::region::finding::RegionFinding;
use flash_device::{Flash, Paged, Region};
use std::alloc::Global;
use std::hash::RandomState;

/// The alignment of entries, in bytes.
const ALIGNMENT: u64 = 64;

/// Returns the part of a region that entries can fill. It ends at the last multiple of 64 bytes.
pub fn entry_region(region: Region) -> Region
    requires { region.start + region.size < 2 ^ 64 }

    ensures { result ≡ entry_range region }
{
    let size = region.size() - region.size() % ALIGNMENT;
    match Region::within(region.start(), size, u64::MAX) {
        Some(part) => part,
        None => unreachable!(),
    }
}

/// Returns whether a region has room for an entry, but a size that is no multiple of 64 bytes.
fn is_unaligned(region: Region) -> bool
    ensures { result ≡ is_unaligned region }
{
    region.size() > ALIGNMENT && region.size() % ALIGNMENT != 0
}

/// Returns the findings of a region of any size: those of its entries, and a last one if the region
/// is unaligned. The hash keys don't change them. Returns `Device` exactly if a read failed, and
/// `Memory` if an allocation failed.
pub fn check_range<F: Flash>(
    alloc: Global,
    keys: RandomState,
    paged: &mut Paged<F>,
    region: Region,
) -> Result<Vec<RegionFinding>, CheckFault>
    requires { LiesOn region paged.old.device }

    // On any device.
    ensures calls { HasReadBy by_device (region.size / 10 + 2) paged.old paged.new result }

    // On an honest device.
    ensures findings { OnHonest paged.old.device
        (λ image. Lists result (range_findings image region)) }
{
    let mut findings = check_region(alloc, keys, paged, entry_region(region))?;
    push_if(
        &mut findings,
        is_unaligned(region),
        RegionFinding::UnalignedSize,
    )?;
    Ok(findings)
}
