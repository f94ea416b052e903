//! The errors of edits.
ghost use Rattle.std.specs.Prelude.{◌≡◌};
ghost use Rattle.cbfs_edit.specs.Changes.{copy_edit_fault};
ghost use Rattle.cbfs_edit.specs.Removals.{edit_fault_of};
ghost use Rattle.cbfs_edit.specs.declared.fault.EditFault.TheVariants.{Device};

use cbfs_walk::WalkFault;
use flash_device::{CopyInFault, FlashFault};
use flash_format::DamageKind;

/// The errors of edits. The number in parentheses is the number that docs/FORMAT.md has for it.
/// On an honest device: after `Device`, the components are the same as before or as after the edit,
/// if the source of an addition is honest too. After `Source`, they are the same as before. Other
/// errors change nothing.
#[derive(Clone, Copy, Debug, PartialEq, Eq)]
pub enum EditFault {
    /// Device I/O error (1).
    Device,
    /// Read error of the content's source (3).
    Source,
    /// Region size 0, or not a multiple of 64 (7).
    RegionShape,
    /// No entry at the region's start (8).
    NotCbfs,
    /// Damaged entry at this offset from the region's start, by the first failed check (9).
    Damaged { at: u64, kind: DamageKind },
    /// No component with the name (10).
    NotFound,
    /// Existing component with the name (11).
    Exists,
    /// No free space with room for the component at an allowed place (12).
    NoSpace,
    /// Empty name, name of more than 127 bytes, or NUL in the name (14).
    BadName,
    /// Type 0 or 0xffffffff, the types of free space (15).
    BadType,
    /// Alignment 0 (16).
    BadAlign,
}

impl From<FlashFault> for EditFault {
    ghost from_gives = { λ _ fault. fault ≡ Device };

    fn from(_: FlashFault) -> EditFault {
        EditFault::Device
    }
}

impl From<CopyInFault> for EditFault {
    ghost from_gives = { λ was now. now ≡ copy_edit_fault was };

    fn from(fault: CopyInFault) -> EditFault {
        match fault {
            CopyInFault::Device => EditFault::Device,
            CopyInFault::Source => EditFault::Source,
        }
    }
}

impl From<WalkFault> for EditFault {
    ghost from_gives = { λ walk_fault fault. fault ≡ edit_fault_of walk_fault };

    fn from(fault: WalkFault) -> EditFault {
        match fault {
            WalkFault::Device => EditFault::Device,
            WalkFault::RegionShape => EditFault::RegionShape,
            WalkFault::NotCbfs => EditFault::NotCbfs,
            WalkFault::Damaged { at, kind } => EditFault::Damaged { at, kind },
        }
    }
}
