//! Errors of a comparison.
ghost use Rattle.std.specs.Prelude.{◌≡◌};
ghost use Rattle.check_changes.specs.declared.fault.ChangeFault.TheVariants as faults;

use check_findings::CheckFault;
use std::alloc::AllocError;

/// The error of a comparison, which then has no changes.
#[derive(Clone, Copy, Debug, PartialEq, Eq)]
pub enum ChangeFault {
    /// The old image's device refused a read.
    OldDevice,
    /// The new image's device refused a read.
    NewDevice,
    Memory,
}

impl ChangeFault {
    ghost use Rattle.check_changes.specs.Images.{of_check};

    /// Returns the fault of a check of the old image.
    pub fn of_old(fault: CheckFault) -> ChangeFault
        ensures { result ≡ of_check faults.OldDevice fault }
    {
        match fault {
            CheckFault::Device => ChangeFault::OldDevice,
            CheckFault::Memory => ChangeFault::Memory,
        }
    }

    /// Returns the fault of a check of the new image.
    pub fn of_new(fault: CheckFault) -> ChangeFault
        ensures { result ≡ of_check faults.NewDevice fault }
    {
        match fault {
            CheckFault::Device => ChangeFault::NewDevice,
            CheckFault::Memory => ChangeFault::Memory,
        }
    }
}

impl From<AllocError> for ChangeFault {
    ghost from_gives = { λ _ fault. fault ≡ faults.Memory };

    fn from(_: AllocError) -> ChangeFault {
        ChangeFault::Memory
    }
}
