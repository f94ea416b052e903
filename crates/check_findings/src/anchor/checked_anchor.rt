//! The check of an anchor.
ghost use Rattle.std.specs.Prelude.{◌≡◌, [], ◌⊎◌, ◌+◌, ◌/◌, ◌≤◌, length, option_to_list, IfOk, IfSome, None};
ghost use Rattle.std.specs.Result.{result_ok};
ghost use Rattle.flash_device.specs.Pages.{HasReadBy, Lists, OnHonest};
ghost use Rattle.flash_device.specs.Regions.{LiesOn};
ghost use Rattle.flash_map.specs.Fmap.{found_in, map_end};
ghost use Rattle.cbfs_anchor.specs.Layout.{anchor_len};
ghost use Rattle.cbfs_anchor.specs.Seals.{survey_at};
ghost use Rattle.cbfs_anchor.specs.declared.demand.Demand.TheVariants.{Nothing};
ghost use Rattle.check_findings.specs.Faults.{by_device};
ghost use Rattle.check_findings.specs.Anchors as of;
ghost use Rattle.check_findings.specs.Anchors.{IsAnchorCheck, anchor_at, bootblock_of, spot_of};

use crate::anchor::finding::{AnchorFinding, AnchorSpot, Bootblock};
use crate::fault::CheckFault;
use cbfs_anchor::{
    Anchor, AnchorPlace, Demand, SealFault, find_anchor, inspect_anchor, place_with_map,
};
use flash_device::{Flash, Paged};
use flash_map::FoundMap;
use std::alloc::{AllocError, Global};

/// An image's anchor, if any, and its findings.
#[derive(Drop)]
pub struct CheckedAnchor {
    pub anchor: Option<Anchor>,
    pub findings: Vec<AnchorFinding>,
}

fn no_anchor(alloc: Global) -> CheckedAnchor
    ensures anchor { result.anchor ≡ None }
    ensures findings { result.findings.items ≡ [] }
{
    CheckedAnchor {
        anchor: None,
        findings: Vec::new(alloc),
    }
}

fn bootblock_of(place: &AnchorPlace) -> Bootblock
    ensures { result ≡ bootblock_of place.now }
{
    if place.in_component {
        Bootblock::Component
    } else {
        Bootblock::Area
    }
}

fn spot_of(place: &AnchorPlace, anchor: Anchor) -> AnchorSpot
    ensures { result ≡ spot_of place.now anchor }
{
    let start = if place.in_component {
        place.coreboot.start()
    } else {
        place.anchor.start()
    };
    AnchorSpot {
        bootblock: bootblock_of(place),
        at: anchor.at.saturating_sub(start),
    }
}

/// Returns the finding of an anchor that can't be used, if any.
fn fault_finding(bootblock: Bootblock, fault: SealFault) -> Option<AnchorFinding>
    ensures { result ≡ of.fault_finding bootblock fault }
{
    match fault {
        SealFault::UnknownAlgorithm => Some(AnchorFinding::UnknownAlgorithm(bootblock)),
        SealFault::CutOff => Some(AnchorFinding::CutOff(bootblock)),
        _ => None,
    }
}

/// Compares the digests of an anchor with those that it should have.
fn digest_findings<F: Flash>(
    alloc: Global,
    paged: &mut Paged<F>,
    place: &AnchorPlace,
    anchor: Anchor,
) -> Result<Vec<AnchorFinding>, CheckFault>
    requires map { LiesOn place.now.map paged.old.device }
    requires coreboot { LiesOn place.now.coreboot paged.old.device }
    requires range { LiesOn place.now.anchor paged.old.device }
    requires inside { anchor.at + anchor_len anchor.algorithm ≤ length paged.old.device.content }

    ensures calls { HasReadBy by_device (length paged.old.device.content / 16
        + length paged.old.device.content / 3840 + 5) paged.old paged.new result }
    ensures findings { OnHonest paged.old.device (λ image. Lists result (of.digest_findings image
        (spot_of place.now anchor) anchor.algorithm (survey_at Nothing image place.now anchor))) }
{
    let spot = spot_of(place, anchor);
    let algorithm = anchor.algorithm;
    match inspect_anchor(paged, Demand::Nothing, place, anchor) {
        Ok(report) => {
            let metadata = AnchorFinding::Metadata {
                spot,
                algorithm,
                is_valid: report.metadata_valid,
            };
            let map = AnchorFinding::FlashMap {
                spot,
                algorithm,
                is_valid: report.map_valid,
            };
            Ok(vec![in alloc; metadata, map]?)
        }
        Err(fault) => {
            if fault == SealFault::Device {
                return Err(CheckFault::Device);
            }
            Ok(vec![in alloc; AnchorFinding::NotChecked(spot)]?)
        }
    }
}

/// Checks the anchor at a place.
fn check_place<F: Flash>(
    alloc: Global,
    paged: &mut Paged<F>,
    place: &AnchorPlace,
) -> Result<CheckedAnchor, CheckFault>
    requires map { LiesOn place.now.map paged.old.device }
    requires coreboot { LiesOn place.now.coreboot paged.old.device }
    requires range { LiesOn place.now.anchor paged.old.device }

    ensures calls { HasReadBy by_device (length paged.old.device.content / 16
        + length paged.old.device.content / 1920 + 7) paged.old paged.new result }
    ensures anchor { OnHonest paged.old.device (λ image. IfOk result (λ checked.
        checked.anchor ≡ result_ok (anchor_at image place.now))) }
    ensures findings { OnHonest paged.old.device (λ image. IfOk result (λ checked.
        checked.findings.items ≡ of.findings_at image place.now (anchor_at image place.now))) }
{
    match find_anchor(paged, place.anchor) {
        Ok(anchor) => {
            let findings = digest_findings(alloc, paged, place, anchor)?;
            let anchor = Some(anchor);
            Ok(CheckedAnchor { anchor, findings })
        }
        Err(fault) => {
            if fault == SealFault::Device {
                return Err(CheckFault::Device);
            }
            let mut findings = Vec::new(alloc);
            if let Some(finding) = fault_finding(bootblock_of(place), fault) {
                findings.push(finding)?;
            }
            let anchor = None;
            Ok(CheckedAnchor { anchor, findings })
        }
    }
}

/// Returns the anchor of an image with this flash map, and its findings. Returns `Device` exactly
/// if a read failed, and `Memory` if an allocation failed.
pub fn check_anchor<F: Flash>(
    alloc: Global,
    paged: &mut Paged<F>,
    found: Option<FoundMap>,
) -> Result<CheckedAnchor, CheckFault>
    requires { IfSome found (λ map. map_end map ≤ length paged.old.device.content) }

    ensures calls { HasReadBy by_device (length paged.old.device.content / 5 + 16)
        paged.old paged.new result }
    ensures checked { OnHonest paged.old.device (λ image. found ≡ found_in image
        → IfOk result (IsAnchorCheck image)) }
{
    let Some(map) = found else {
        return Ok(no_anchor(alloc));
    };
    match place_with_map(paged, &map) {
        Ok(place) => check_place(alloc, paged, &place),
        Err(fault) => {
            if fault == SealFault::Device {
                return Err(CheckFault::Device);
            }
            Ok(no_anchor(alloc))
        }
    }
}
