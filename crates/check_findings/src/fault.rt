//! Errors of searches that allocate.
ghost use Rattle.std.specs.Prelude.{◌≡◌};
ghost use Rattle.check_findings.specs.declared.fault.CheckFault.TheVariants as faults;

use flash_device::FlashFault;
use std::alloc::{AllocError, AllocFailed};

/// The error of a search or check, which then has no result.
#[derive(Clone, Copy, Debug, PartialEq, Eq, Drop)]
pub enum CheckFault {
    /// A read failed.
    Device,
    /// An allocation failed.
    Memory,
}

impl From<FlashFault> for CheckFault {
    ghost from_gives = { λ _ fault. fault ≡ faults.Device };

    fn from(_: FlashFault) -> CheckFault {
        CheckFault::Device
    }
}

impl From<AllocError> for CheckFault {
    ghost from_gives = { λ _ fault. fault ≡ faults.Memory };

    fn from(_: AllocError) -> CheckFault {
        CheckFault::Memory
    }
}

impl<T: Drop> From<AllocFailed<T>> for CheckFault {
    ghost from_gives = { λ _ fault. fault ≡ faults.Memory };

    fn from(_: AllocFailed<T>) -> CheckFault {
        CheckFault::Memory
    }
}
