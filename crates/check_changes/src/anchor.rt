//! The change of the anchor of CBFS verification.
ghost use Rattle.std.specs.Prelude.{◌≡◌};
ghost use Rattle.check_changes.specs.Anchors as of;

use cbfs_anchor::{Algorithm, Anchor};

/// A change of the image's anchor.
#[derive(Clone, Copy, Drop)]
pub enum AnchorChange {
    Added,
    Gone,
    /// The old anchor has another algorithm.
    AlgorithmFrom(Algorithm),
}

/// Returns the change from an old anchor to a new one, if any.
pub fn anchor_change(old: Option<Anchor>, new: Option<Anchor>) -> Option<AnchorChange>
    ensures { result ≡ of.anchor_change old new }
{
    match (old, new) {
        (None, None) => None,
        (None, Some(_)) => Some(AnchorChange::Added),
        (Some(_), None) => Some(AnchorChange::Gone),
        (Some(old), Some(new)) => {
            if old.algorithm.number() == new.algorithm.number() {
                None
            } else {
                Some(AnchorChange::AlgorithmFrom(old.algorithm))
            }
        }
    }
}
