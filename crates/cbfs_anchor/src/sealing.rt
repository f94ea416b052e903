//! Inspections and seals of an image.
ghost use Rattle.std.specs.Prelude.{◌≡◌, ◌+◌, ◌*◌, ◌/◌, ◌&&◌, ◌++◌, ◌≤◌, take, length, IsTrue, IfOk, IsErrOf, OnOk};
ghost use Rattle.flash_device.specs.Device.{Calls, SameOutside, call_limit, fault_count, overwritten, refusals};
ghost use Rattle.flash_device.specs.Pages.{HasAnswered, HasRead, HasReadBy, IfFound, OnHonest, OnHonestIn};
ghost use Rattle.flash_device.specs.Regions.{LiesOn};
ghost use Rattle.cbfs_anchor.specs.Algorithms.{digest_len};
ghost use Rattle.cbfs_anchor.specs.Faults.{by_device};
ghost use Rattle.cbfs_anchor.specs.Layout.{anchor_len};
ghost use Rattle.cbfs_anchor.specs.Seals.{IsInspection, IsOutdated, IsReported, IsSeal, inspection_reads, place_inspection_reads, report_digests, survey_at, survey_from, writing_fault};

use crate::anchor::{Anchor, DIGESTS_PLACE, find_anchor, has_header};
use crate::demand::Demand;
use crate::fault::SealFault;
use crate::metadata::{hash_metadata, hash_range};
use crate::place::{AnchorPlace, find_place, is_misplaced};
use crate::report::{Report, report_of};
use arrayvec::ArrayVec;
use flash_device::{Flash, FlashFault, MemSource, Paged, Region, Unwatched};
use flash_format::push_text;

/// Returns why an anchor's digests can't be written.
fn writing_fault<F: Flash>(
    paged: &mut Paged<F>,
    demand: Demand,
    place: &AnchorPlace,
    anchor: Anchor,
) -> Result<Option<SealFault>, FlashFault>
    requires map { LiesOn place.now.map paged.old.device }
    requires coreboot { LiesOn place.now.coreboot paged.old.device }
    requires range { LiesOn place.now.anchor paged.old.device }
    requires inside { anchor.at + anchor_len anchor.algorithm ≤ length paged.old.device.content }

    ensures calls { HasAnswered 1 paged.old paged.new result }
    ensures own { IfFound result (λ fault. by_device fault ≡ 0) }
    ensures fault { OnHonestIn paged.old.device place.now.anchor (λ x. IfOk result (λ fault.
        fault ≡ writing_fault demand place.now anchor x)) }
{
    if demand == Demand::Nothing {
        return Ok(None);
    }
    let len = 2 * anchor.algorithm.digest_len() as u64;
    let Some(digests) = Region::within(anchor.at + DIGESTS_PLACE, len, paged.len()) else {
        return Ok(Some(SealFault::CutOff));
    };
    if is_misplaced(place, digests) {
        return Ok(Some(SealFault::Misplaced));
    }
    if has_header(paged, place.anchor)? {
        return Ok(Some(SealFault::OwnDigest));
    }
    Ok(None)
}

/// Computes the digests of an anchor, and compares them with its own.
pub fn inspect_anchor<F: Flash>(
    paged: &mut Paged<F>,
    demand: Demand,
    place: &AnchorPlace,
    anchor: Anchor,
) -> Result<Report, SealFault>
    requires map { LiesOn place.now.map paged.old.device }
    requires coreboot { LiesOn place.now.coreboot paged.old.device }
    requires range { LiesOn place.now.anchor paged.old.device }
    requires inside { anchor.at + anchor_len anchor.algorithm ≤ length paged.old.device.content }

    ensures calls { HasReadBy by_device (length paged.old.device.content / 16
        + length paged.old.device.content / 3840 + 5) paged.old paged.new result }
    ensures anchor { IfOk result (λ report. report.anchor ≡ anchor) }
    ensures report { OnHonest paged.old.device (λ image.
        IsReported (survey_at demand image place.now anchor) result image) }
{
    if let Some(fault) = writing_fault(paged, demand, place, anchor)? {
        return Err(fault);
    }
    let metadata = hash_metadata(paged, place.coreboot, anchor.algorithm, demand)?;
    let map = hash_range(paged, place.map, anchor.algorithm)?;
    Ok(report_of(paged, anchor, metadata, map)?)
}

/// Returns the state of the anchor in a found range, or the first error.
pub fn inspect_place<F: Flash>(
    paged: &mut Paged<F>,
    demand: Demand,
    place: &AnchorPlace,
) -> Result<Report, SealFault>
    requires map { LiesOn place.now.map paged.old.device }
    requires coreboot { LiesOn place.now.coreboot paged.old.device }
    requires range { LiesOn place.now.anchor paged.old.device }

    ensures calls { HasReadBy by_device (place_inspection_reads paged.old.device)
        paged.old paged.new result }
    ensures inside { IfOk result (λ report. report.anchor.at + anchor_len report.anchor.algorithm
        ≤ length paged.old.device.content) }
    ensures report { OnHonest paged.old.device (λ image.
        IsReported (survey_from demand image place.now) result image) }
{
    let anchor = find_anchor(paged, place.anchor)?;
    inspect_anchor(paged, demand, place, anchor)
}

/// Returns the state of an image's anchor, or the first error.
pub fn inspect<F: Flash>(paged: &mut Paged<F>, demand: Demand) -> Result<Report, SealFault>
    ensures calls { HasReadBy by_device (inspection_reads paged.old.device)
        paged.old paged.new result }
    ensures inside { IfOk result (λ report. report.anchor.at + anchor_len report.anchor.algorithm
        ≤ length paged.old.device.content) }
    ensures report { OnHonest paged.old.device (IsInspection demand result) }
{
    let place = find_place(paged)?;
    inspect_place(paged, demand, &place)
}

/// Returns whether an image has an anchor with an outdated digest, or the first error.
pub fn is_outdated<F: Flash>(paged: &mut Paged<F>) -> Result<bool, SealFault>
    ensures calls { HasReadBy by_device (inspection_reads paged.old.device)
        paged.old paged.new result }
    ensures outdated { OnHonest paged.old.device (IsOutdated result) }
{
    let report = inspect(paged, Demand::Nothing)?;
    Ok(!(report.metadata_valid && report.map_valid))
}

/// Writes both digests of a report by one call.
fn write_digests<F: Flash>(paged: &mut Paged<F>, report: &Report) -> Result<(), FlashFault>
    requires { report.now.anchor.at + anchor_len report.now.anchor.algorithm
        ≤ length paged.old.device.content }

    ensures calls { Calls 1 (refusals result) paged.old.device paged.new.device }
    ensures written { OnHonest paged.old.device (λ image. OnOk result
        (paged.new.device.content ≡ overwritten image (report.now.anchor.at + 12)
        (report_digests report.now))) }
    ensures outside { OnHonest paged.old.device (λ image. SameOutside (report.now.anchor.at + 12)
        (2 * digest_len report.now.anchor.algorithm) image paged.new.device.content) }
{
    let _len = paged.len();
    let n = report.anchor.algorithm.digest_len();
    let mut bytes: ArrayVec<u8, 128> = ArrayVec::new();
    push_text(&mut bytes, &report.metadata[..n]);
    push_text(&mut bytes, &report.map[..n]);
    let bytes = bytes.as_slice();
    let mut source = MemSource::new(bytes);
    let at = report.anchor.at + DIGESTS_PLACE;
    match paged.copy_in_watched(at, bytes.len() as u64, &mut source, &mut Unwatched) {
        Ok(()) => Ok(()),
        Err(_) => Err(FlashFault),
    }
}

/// Renews both digests of an image's anchor, and returns the state before. If both are right
/// already, nothing is written. Each error except `Device` comes before the first write.
pub fn seal<F: Flash>(paged: &mut Paged<F>, demand: Demand) -> Result<Report, SealFault>
    ensures calls { Calls (call_limit paged.old.device) (fault_count by_device result)
        paged.old.device paged.new.device }
    ensures read_only { IfOk result (λ report.
        IsTrue (report.metadata_valid && report.map_valid)
        → HasRead (call_limit paged.old.device) 0 paged.old paged.new) }
    ensures effect { OnHonest paged.old.device (λ image.
        IsSeal demand result image paged.new.device.content) }
{
    let report = inspect(paged, demand)?;
    if report.metadata_valid && report.map_valid {
        return Ok(report);
    }
    write_digests(paged, &report)?;
    Ok(report)
}
