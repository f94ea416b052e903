//! Lists of edits.
ghost use Rattle.std.specs.Prelude.{◌≡◌, length, sum_by};
ghost use Rattle.flash_device.specs.Pages.{HasChanged};
ghost use Rattle.flash_device.specs.Regions.{LiesOn};
ghost use Rattle.cbfs_edit.specs.Changes.{by_device};
ghost use Rattle.cbfs_edit.specs.Changes.{Run, Step, edit_calls, faults_of};

use crate::addition::{HashChoice, Placed, add};
use crate::fault::EditFault;
use crate::group::Freed;
use crate::place::Spot;
use crate::removal::remove;
use flash_device::{Flash, Paged, Region, Source};

/// An edit of a region.
#[derive(Drop)]
pub enum Edit<'a, S> {
    /// Adds a component, by `add`.
    Add {
        name: &'a [u8],
        /// The CBFS type.
        kind: u32,
        hash: HashChoice,
        spot: Spot,
        source: S,
    },
    /// Removes a component, by `remove`.
    Remove {
        name: &'a [u8],
    },
}

/// The reply to an edit.
#[derive(Clone, Copy, Debug, PartialEq, Eq)]
pub enum Reply {
    /// An addition's position.
    Placed(Placed),
    /// A removal's freed range.
    Freed(Freed),
    Refused(EditFault),
}

/// Applies the edits in order. An error does not stop the later edits.
pub fn apply_all<F: Flash, S: Source>(
    paged: &mut Paged<F>,
    region: Region,
    edits: &mut [Edit<'_, S>],
    replies: &mut [Reply],
)
    requires region { LiesOn region paged.old.device }
    requires same_length { length edits.old ≡ length replies.old }

    ensures after { HasChanged region (sum_by (edit_calls region.size) edits.old)
        (sum_by (faults_of by_device) replies.new) paged.old paged.new }
    ensures run { Run S.facts region edits.old edits.new replies.new paged.old.device
        paged.new.device }
{
    for i in 0..edits.len() {
        replies[i] = apply(paged, region, &mut edits[i]);
    }
}

fn apply<F: Flash, S: Source>(paged: &mut Paged<F>, region: Region, edit: &mut Edit<'_, S>) -> Reply
    requires { LiesOn region paged.old.device }

    ensures after { HasChanged region (edit_calls region.size edit.old)
        (faults_of by_device result) paged.old paged.new }
    ensures step { Step S.facts region edit.old edit.new paged.old.device result paged.new.device }
{
    match edit {
        Edit::Add {
            name,
            kind,
            hash,
            spot,
            source,
        } => match add(paged, region, name, *kind, *hash, *spot, source) {
            Ok(placed) => Reply::Placed(placed),
            Err(fault) => Reply::Refused(fault),
        },
        Edit::Remove { name } => match remove(paged, region, name) {
            Ok(group) => Reply::Freed(group),
            Err(fault) => Reply::Refused(fault),
        },
    }
}
