//! The error of a failed listing of names.

ghost use Rattle.std.specs.Prelude.{◌≡◌};
ghost use Rattle.cbfs_mistakes.specs.declared.list_fault.ListFault.TheVariants as faults;

use flash_device::FlashFault;
use std::alloc::AllocError;

/// The error of a failed listing of names.
#[derive(Clone, Copy, Debug, PartialEq, Eq)]
pub enum ListFault {
    /// A failed read.
    Device,
    /// An allocation failure.
    Memory,
}

impl From<FlashFault> for ListFault {
    ghost from_gives = { λ _ fault. fault ≡ faults.Device };

    fn from(_: FlashFault) -> ListFault {
        ListFault::Device
    }
}

impl From<AllocError> for ListFault {
    ghost from_gives = { λ _ fault. fault ≡ faults.Memory };

    fn from(_: AllocError) -> ListFault {
        ListFault::Memory
    }
}
