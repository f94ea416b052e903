//! Errors of a report.
ghost use Rattle.std.specs.Prelude.{◌≡◌};
ghost use Rattle.check_report.specs.declared.fault.WriteFault.TheVariants as writes;

pub use check_changes::ChangeFault as ReportFault;
use flash_device::SinkFault;
use std::alloc::AllocError;

/// The error of an incomplete report.
#[derive(Clone, Copy, Debug, PartialEq, Eq)]
pub enum WriteFault {
    Memory,
    Output,
}

impl From<AllocError> for WriteFault {
    ghost from_gives = { λ _ fault. fault ≡ writes.Memory };

    fn from(_: AllocError) -> WriteFault {
        WriteFault::Memory
    }
}

impl From<SinkFault> for WriteFault {
    ghost from_gives = { λ _ fault. fault ≡ writes.Output };

    fn from(_: SinkFault) -> WriteFault {
        WriteFault::Output
    }
}
