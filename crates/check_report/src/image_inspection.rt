//! The check of one image.
ghost use Rattle.std.specs.Prelude.{◌≡◌, None, IfOk};
ghost use Rattle.flash_device.specs.Device.{fault_count, call_limit};
ghost use Rattle.flash_device.specs.Pages.{OnHonest, HasReadBy};
ghost use Rattle.check_changes.specs.Images.{by_new, by_old};
ghost use Rattle.check_report.specs.Reports.{Checks};

use crate::inspection::Inspection;
use crate::listed_digests::digests_on_request;
use crate::names::need_areas;
use crate::request::Request;
use board_findings::check_board;
use check_changes::ChangeFault;
use check_findings::check_image;
use flash_device::{Flash, Paged};
use std::alloc::Global;
use std::hash::RandomState;

/// Checks an image and the structures that its board boots from. The hash keys don't change the
/// findings. Returns `NewDevice` exactly if the device refused a read.
pub fn inspect_image<F: Flash>(
    alloc: Global,
    keys: RandomState,
    paged: &mut Paged<F>,
    request: Request<'_>,
) -> Result<Inspection, ChangeFault>
    // On any device.
    ensures after { HasReadBy by_new (call_limit paged.old.device) paged.old paged.new result }
    ensures side { fault_count by_old result ≡ 0 }

    // On an honest device.
    ensures checked { OnHonest paged.old.device (λ x. IfOk result (Checks request.entry None x)) }
{
    let expected = need_areas(alloc, request.needs)?;
    let checked = check_image(alloc, keys, paged, request.areas, &expected);
    let checked = checked.map_err(ChangeFault::of_new)?;
    let board = check_board(alloc, paged, &checked.areas);
    let board = board.map_err(ChangeFault::of_new)?;
    let digests = digests_on_request(alloc, paged, request.asked, &checked.findings);
    let digests = digests.map_err(ChangeFault::of_new)?;
    Ok(Inspection {
        areas: checked.areas,
        findings: checked.findings,
        board,
        digests,
        changes: None,
    })
}
