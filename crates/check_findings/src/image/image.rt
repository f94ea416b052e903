//! The image check.
ghost use Rattle.std.specs.Prelude.{ℕ, List, All, ◌≡◌, ◌+◌, ◌-◌, ◌*◌, ◌/◌, ◌≤◌, [], ◌∷◌};
ghost use Rattle.std.specs.Prelude.{length, map, IfOk, nat_le, if◌then◌else◌};
ghost use Rattle.flash_format.specs.Flashmap.{area_len};
ghost use Rattle.flash_map.specs.Fmap.{found_in};
ghost use Rattle.flash_device.specs.Pages.{OnHonest, Returns, Lists, HasReadBy};
ghost use Rattle.check_findings.specs.Anchors.{image_anchor};
ghost use Rattle.check_findings.specs.Areas.{area_end, image_areas};
ghost use Rattle.check_findings.specs.declared.image.finding.ImageFinding.TheVariants.{Anchor as OfAnchor, Map};
ghost use Rattle.check_findings.specs.Faults.{by_device};
ghost use Rattle.check_findings.specs.ImageFindings as of;
ghost use Rattle.check_findings.specs.ImageFindings.{image_findings};
ghost use Rattle.check_findings.specs.ImageFindings.{is_named_in, left_after, names_in};
ghost use Rattle.check_findings.specs.ImageFindings.{AreChecked, region_area, region_areas};
ghost use Rattle.check_findings.specs.Lists.{GivesPart};
ghost use Rattle.flash_device.specs.Device.{call_limit};

use crate::anchor::{AnchorFinding, check_anchor};
use crate::areas::NumberedArea;
use crate::fault::CheckFault;
use crate::image::choice::wanted_areas;
use crate::image::finding::{ImageFinding, RegionFindings};
use crate::image::names::{NameSet, push_missing};
use crate::map::{MapFinding, check_map};
use crate::region::check_range;
use cbfs_anchor::Anchor;
use flash_device::{Flash, Paged, Region};
use flash_map::FoundMap;
use std::alloc::{AllocError, Global};
use std::hash::RandomState;

/// The limit of checked bytes, in image lengths.
const MAX_IMAGES: u64 = 2;

/// Returns whether a firmware with CBFS verification loads components from an area: COREBOOT and
/// the two slots of vboot.
fn is_loaded_from(area: &NumberedArea) -> bool
    ensures { result ≡ of.is_loaded_from area.now }
{
    area.area.name_is(b"COREBOOT")
        || (area.area.name_is(b"FW_MAIN_A") || area.area.name_is(b"FW_MAIN_B"))
}

/// Returns the anchor, if its firmware loads components from the area.
fn covering(anchor: Option<Anchor>, area: &NumberedArea) -> Option<Anchor>
    ensures { result ≡ of.covering anchor area.now }
{
    if is_loaded_from(area) { anchor } else { None }
}

/// Checks an area of at most `left` bytes, and subtracts its size.
fn area_finding<F: Flash>(
    alloc: Global,
    keys: RandomState,
    paged: &mut Paged<F>,
    expected: &NameSet,
    anchor: Option<Anchor>,
    area: NumberedArea,
    left: &mut u64,
) -> Result<ImageFinding, CheckFault>
    requires { area_end area.area ≤ length paged.old.device.content }

    ensures calls { HasReadBy by_device
        ((left.old - left.new) / 10 + 2) paged.old paged.new result }
    ensures left { left.new ≡ left_after left.old area }
    ensures area { IfOk result (λ finding. region_area finding
        ≡ (if nat_le area.area.size left.old then area ∷ [] else [])) }
    ensures found { OnHonest paged.old.device (λ image.
        Returns result (of.area_finding image anchor (is_named_in expected.now) left.old area)) }
{
    let start = u64::from(area.area.offset);
    let size = u64::from(area.area.size);
    let is_named = expected.contains(&area);
    match Region::within(start, size, paged.len()) {
        Some(region) if size <= *left => {
            *left -= size;
            let findings = RegionFindings::new(check_range(alloc, keys, paged, region)?);
            let anchor = covering(anchor, &area);
            Ok(ImageFinding::Region {
                area,
                anchor,
                findings,
            })
        }
        _ => Ok(ImageFinding::NotChecked { area, is_named }),
    }
}

fn areas_findings<F: Flash>(
    alloc: Global,
    keys: RandomState,
    paged: &mut Paged<F>,
    expected: &NameSet,
    anchor: Option<Anchor>,
    areas: &[NumberedArea],
) -> Result<Vec<ImageFinding>, CheckFault>
    requires { All (λ a. area_end a.area ≤ length paged.old.device.content) areas.now }

    ensures calls { HasReadBy by_device
        (length paged.old.device.content / 5 + 2 * length areas.now) paged.old paged.new result }
    ensures checked { IfOk result (λ all. AreChecked (length paged.old.device.content)
        (length areas.now) 0 (region_areas all.items)) }
    ensures found { OnHonest paged.old.device (λ image. Lists result
        (of.areas_findings image anchor (is_named_in expected.now) (2 * length image) areas.now)) }
{
    let mut left = MAX_IMAGES * paged.len();
    let mut findings = Vec::new(alloc);
    for area in areas {
        let finding = area_finding(alloc, keys, paged, expected, anchor, *area, &mut left)?;
        findings.push(finding)?;
    }
    Ok(findings)
}

fn map_part(alloc: Global, found: &[MapFinding]) -> Result<Vec<ImageFinding>, AllocError>
    ensures { Lists result (map Map found.now) }
{
    let findings = found.iter().map(|finding| ImageFinding::Map(*finding));
    findings.collect(alloc)
}

fn anchor_part(alloc: Global, found: &[AnchorFinding]) -> Result<Vec<ImageFinding>, AllocError>
    ensures { Lists result (map OfAnchor found.now) }
{
    let findings = found.iter().map(|finding| ImageFinding::Anchor(*finding));
    findings.collect(alloc)
}

/// An image's findings, map, areas and anchor.
#[derive(Drop)]
pub struct CheckedImage {
    pub found: Option<FoundMap>,
    /// All areas, in map order; empty without a map.
    pub areas: Vec<NumberedArea>,
    pub anchor: Option<Anchor>,
    pub findings: Vec<ImageFinding>,
}

/// Returns the findings of an image: of its map, its anchor, its checked areas in map order, and
/// each of `names` without an area.
///
/// An area inside the image is checked if its name is in `names` or `expected` or is `COREBOOT`, or
/// if it is the smallest area at its offset that begins with an entry. An area isn't checked if the
/// sum of sizes would exceed two image lengths.
///
/// Returns `Device` exactly if the device refused a read, and `Memory` if an allocation failed.
///
/// For example, this checks an image in `paged`, with the area FW_MAIN_A:
///
/// ```text
/// let keys = RandomState::new(rt)?;
/// let checked = check_image(alloc, keys, &mut paged, &[b"FW_MAIN_A"], &[])?;
/// ```
pub fn check_image<F: Flash>(
    alloc: Global,
    keys: RandomState,
    paged: &mut Paged<F>,
    names: &[&[u8]],
    expected: &[&[u8]],
) -> Result<CheckedImage, CheckFault>
    // On any device.
    ensures calls { HasReadBy by_device (call_limit paged.old.device) paged.old paged.new result }
    ensures few { HasReadBy by_device (3 * length paged.old.device.content / 2 + 32)
        paged.old paged.new result }
    ensures count { IfOk result (λ checked.
        area_len * length checked.areas.items ≤ length paged.old.device.content) }
    ensures regions { IfOk result (λ checked. AreChecked (length paged.old.device.content)
        (length paged.old.device.content / area_len) 0 (region_areas checked.findings.items)) }

    // On an honest device.
    ensures findings { GivesPart paged.old result (λ checked. checked.findings.items)
        (λ image. image_findings image (names_in names.now) (names_in expected.now)) }
    ensures found { GivesPart paged.old result (λ checked. checked.found) found_in }
    ensures areas { GivesPart paged.old result (λ checked. checked.areas.items) image_areas }
    ensures anchor { GivesPart paged.old result (λ checked. checked.anchor) image_anchor }
{
    let map = check_map(alloc, paged)?;
    let anchor = check_anchor(alloc, paged, map.found)?;
    let mut findings = map_part(alloc, &map.findings)?;
    let mut anchors = anchor_part(alloc, &anchor.findings)?;
    findings.append(&mut anchors)?;
    let set = NameSet::of(alloc, names, expected)?;
    let wanted = wanted_areas(alloc, paged, &set, &map.areas)?;
    let mut regions = areas_findings(alloc, keys, paged, &set, anchor.anchor, &wanted)?;
    // Both lists can be long. They are freed before the next list needs memory.
    drop(wanted);
    findings.append(&mut regions)?;
    drop(regions);
    push_missing(alloc, &mut findings, names, &map.areas)?;
    Ok(CheckedImage {
        found: map.found,
        areas: map.areas,
        anchor: anchor.anchor,
        findings,
    })
}
