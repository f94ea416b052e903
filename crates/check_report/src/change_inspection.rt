//! The check of a new image.
ghost use Rattle.std.specs.Prelude.{◌+◌, ◌*◌, ◌/◌, IfOk, Some, length};
ghost use Rattle.flash_device.specs.Pages.{HasReadBy};
ghost use Rattle.flash_map.specs.Fmap.{found_in};
ghost use Rattle.check_findings.specs.Anchors.{image_anchor};
ghost use Rattle.check_findings.specs.Areas.{image_areas};
ghost use Rattle.check_findings.specs.Faults.{by_device};
ghost use Rattle.check_findings.specs.ImageFindings as of;
ghost use Rattle.check_findings.specs.Lists.{GivesPart};
ghost use Rattle.check_changes.specs.Images.{HasReadFor, OnBoth, lengths};
ghost use Rattle.check_report.specs.Reports.{Checks, board_of};

use crate::inspection::{Changes, Comparison, Inspection, OldImage};
use crate::listed_digests::digests_on_request;
use crate::names::{need_areas, with_areas};
use crate::request::Request;
use crate::slot_changes::outdated_slots;
use board_findings::{BoardFinding, check_board, lost_structures};
use cbfs_anchor::Anchor;
use check_changes::{
    Areas, ChangeFault, Images, anchor_change, image_changes, map_changes, region_changes,
};
use check_findings::{CheckFault, cbfs_areas, check_anchor, check_image, image_map};
use flash_device::{Flash, Paged};
use std::alloc::Global;
use std::hash::RandomState;

/// What a comparison needs of an old image.
#[derive(Drop)]
pub struct OldFindings {
    pub image: OldImage,
    pub anchor: Option<Anchor>,
    pub board: Vec<BoardFinding>,
}

/// Reads the flash map, the anchor and the structures of an old image. No digest of a content is
/// computed. Returns `Device` exactly if the device refused a read.
fn old_findings<F: Flash>(alloc: Global, paged: &mut Paged<F>) -> Result<OldFindings, CheckFault>
    // On any device.
    ensures after { HasReadBy by_device (length paged.old.device.content + 56)
        paged.old paged.new result }

    // On an honest device.
    ensures map { GivesPart paged.old result (λ old. old.image.map.found) found_in }
    ensures areas { GivesPart paged.old result (λ old. old.image.map.areas.items) image_areas }
    ensures regions { GivesPart paged.old result (λ old. old.image.regions.items)
        (λ x. of.cbfs_areas x (image_areas x)) }
    ensures anchor { GivesPart paged.old result (λ old. old.anchor) image_anchor }
    ensures board { GivesPart paged.old result (λ old. old.board.items) board_of }
{
    let map = image_map(alloc, paged)?;
    let anchor = check_anchor(alloc, paged, map.found)?.anchor;
    let board = check_board(alloc, paged, &map.areas)?;
    let regions = cbfs_areas(alloc, paged, &map.areas)?;
    Ok(OldFindings {
        image: OldImage { map, regions },
        anchor,
        board,
    })
}

/// Checks a new image, and compares it with an old image. The hash keys don't change the result.
/// Returns `OldDevice` or `NewDevice` exactly if that device refused a read.
pub fn inspect_change<F: Flash, G: Flash>(
    alloc: Global,
    keys: RandomState,
    images: &mut Images<F, G>,
    request: Request<'_>,
) -> Result<Inspection, ChangeFault>
    // On any devices.
    ensures after { HasReadFor (2 * (lengths images.old).old + (lengths images.old).new / 2 + 64)
        (3 * (lengths images.old).new + 72) images.old images.new result }

    // On honest devices.
    ensures checked { OnBoth images.old (λ x y. IfOk result (Checks request.entry (Some x) y)) }
{
    let old = old_findings(alloc, &mut images.old_image).map_err(ChangeFault::of_old)?;

    let needed = need_areas(alloc, request.needs)?;
    let expected = with_areas(alloc, &needed, &old.image.regions)?;
    let checked = check_image(alloc, keys, &mut images.new_image, request.areas, &expected);
    let checked = checked.map_err(ChangeFault::of_new)?;
    drop(expected);
    let new_image = &mut images.new_image;
    let board = check_board(alloc, new_image, &checked.areas);
    let board = board.map_err(ChangeFault::of_new)?;
    let structures = lost_structures(alloc, &old.board, &board)?;

    let old_areas = old.image.areas_or(&checked.areas);
    let areas = Areas {
        old: old_areas,
        new: &checked.areas,
    };
    let map = map_changes(alloc, old.image.map.found, checked.found)?;
    let changes = image_changes(alloc, images, areas)?;
    let outdated = outdated_slots(alloc, images, areas, &board)?;
    let regions = region_changes(alloc, keys, images, old_areas, &checked.findings)?;
    let new_image = &mut images.new_image;
    let digests = digests_on_request(alloc, new_image, request.asked, &checked.findings);
    let digests = digests.map_err(ChangeFault::of_new)?;
    let comparison = Comparison {
        old_len: images.old_image.len(),
        new_len: images.new_image.len(),
        blocks: changes.blocks,
        map,
        anchor: anchor_change(old.anchor, checked.anchor),
        structures,
        outdated,
        areas: changes.areas,
        regions,
    };
    Ok(Inspection {
        areas: checked.areas,
        findings: checked.findings,
        board,
        digests,
        changes: Some(Changes {
            comparison,
            old: old.image,
        }),
    })
}
