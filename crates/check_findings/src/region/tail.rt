//! The bytes after the entries.
ghost use Rattle.std.specs.Prelude.{◌≡◌, ◌+◌, ◌-◌, ◌/◌, ◌^◌, ◌<◌, length};
ghost use Rattle.std.specs.List.{position_from};
ghost use Rattle.flash_device.specs.Pages.{HasAnswered, OnHonestIn, HasReadBy, ReadsAs};
ghost use Rattle.flash_device.specs.Regions.{Reaches};
ghost use Rattle.check_findings.specs.Faults.{by_device};
ghost use Rattle.check_findings.specs.Lists.{Gains};
ghost use Rattle.check_findings.specs.RegionFindings.{first_filled, is_filled, later_entries};
ghost use Rattle.check_findings.specs.RegionFindings.{tail_findings};

use crate::fault::CheckFault;
use crate::lists::push_if;
use crate::region::finding::RegionFinding;
use crate::region::start::has_entry_at;
use flash_device::{Flash, FlashFault, PIECE, Paged, Region};

/// Returns the offset of the first byte except 0xff and 0x00. The bytes begin at `at`.
fn first_filled(bytes: &[u8], at: u64) -> Option<u64>
    requires { at + length bytes.now < 2 ^ 64 }
    ensures { result ≡ position_from is_filled at bytes.now }
{
    for (i, b) in bytes.iter().enumerate() {
        if !(*b == 0xff || *b == 0x00) {
            return Some(at + i as u64);
        }
    }
    None
}

/// Searches from `at` on, except in the region's last four bytes.
fn find_filled<F: Flash>(
    paged: &mut Paged<F>,
    region: Region,
    at: u64,
) -> Result<Option<u64>, FlashFault>
    requires { Reaches region at paged.old.device }

    ensures calls { HasAnswered ((region.size - at + 4095) / 4096) paged.old paged.new result }
    ensures found { ReadsAs paged.old region result (first_filled at) }
{
    let len = (region.size() - at).saturating_sub(4);
    for i in 0..(len + 4095) / 4096 {
        let place = at + 4096 * i;
        let n = (len - 4096 * i).min(PIECE as u64);
        let bytes = paged.piece(region.start() + place, n as usize)?;
        if let Some(filled) = first_filled(bytes, place) {
            return Ok(Some(filled));
        }
    }
    Ok(None)
}

/// Searches at `at`, and at each multiple of 64 bytes later.
fn push_entries<F: Flash>(
    paged: &mut Paged<F>,
    region: Region,
    at: u64,
    findings: &mut Vec<RegionFinding>,
) -> Result<(), CheckFault>
    requires { Reaches region at paged.old.device }

    ensures calls { HasReadBy by_device ((region.size - at) / 64) paged.old paged.new result }
    ensures found { OnHonestIn paged.old.device region
        (λ x. Gains findings.old findings.new result (later_entries at x)) }
{
    let lines = (region.size() - at) / 64;
    for i in 0..lines {
        let at = at + 64 * i;
        let has_entry = has_entry_at(paged, region, at)?;
        push_if(findings, has_entry, RegionFinding::TailEntry { at })?;
    }
    Ok(())
}

/// Adds the findings of the tail at this offset.
pub fn push_tail<F: Flash>(
    paged: &mut Paged<F>,
    region: Region,
    at: u64,
    findings: &mut Vec<RegionFinding>,
) -> Result<(), CheckFault>
    requires { Reaches region at paged.old.device }

    ensures calls { HasReadBy by_device (1 + (region.size - at) / 32) paged.old paged.new result }
    ensures found { OnHonestIn paged.old.device region
        (λ x. Gains findings.old findings.new result (tail_findings at x)) }
{
    findings.push(RegionFinding::Tail { at })?;
    let Some(filled) = find_filled(paged, region, at)? else {
        return Ok(());
    };
    findings.push(RegionFinding::TailFilled { at: filled })?;
    push_entries(paged, region, at, findings)
}
