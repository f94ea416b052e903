//! The errors of a run.

ghost use Rattle.std.specs.Prelude.{◌≡◌};
ghost use Rattle.fmd_lang.specs.declared.fault.FmdFault.TheVariants as faults;
ghost use Rattle.fmap_compiler.specs.declared.refusal.Refusal.TheVariants as refusals;

use crate::reader::ReadFault;
use flash_device::SinkFault;
use fmd_lang::FmdFault;
use std::alloc::AllocError;
use thiserror::Error;

/// The errors of a run, by number.
#[derive(Clone, Copy, Debug, PartialEq, Eq, Error)]
pub enum Refusal {
    /// 1 to 16, the number of the fault: invalid descriptor, or allocation failure.
    #[error("{0}")]
    Descriptor(FmdFault),
    /// 17: read error, without output.
    #[error("read fault")]
    Read,
    /// 18: output error, or a writer without progress. The output is a proper prefix of the table.
    #[error("output fault")]
    Output,
}

impl From<FmdFault> for Refusal {
    ghost from_gives = { λ fault refusal. refusal ≡ refusals.Descriptor fault };

    fn from(fault: FmdFault) -> Refusal {
        Refusal::Descriptor(fault)
    }
}

impl From<AllocError> for Refusal {
    ghost from_gives = { λ _ refusal. refusal ≡ refusals.Descriptor faults.Memory };

    fn from(_: AllocError) -> Refusal {
        Refusal::Descriptor(FmdFault::Memory)
    }
}

impl From<ReadFault> for Refusal {
    ghost from_gives = { λ _ refusal. refusal ≡ refusals.Read };

    fn from(_: ReadFault) -> Refusal {
        Refusal::Read
    }
}

impl From<SinkFault> for Refusal {
    ghost from_gives = { λ _ refusal. refusal ≡ refusals.Output };

    fn from(_: SinkFault) -> Refusal {
        Refusal::Output
    }
}
