//! Failures, and the exit status.
ghost use Rattle.std.specs.Prelude.{◌≡◌};
ghost use Rattle.std.specs.IoError.{error_kind};
ghost use Rattle.fmap_steps.specs.Failures.{exit_status, out_of_memory, words_failure};
ghost use Rattle.fmap_steps.specs.declared.failure.Failure.TheVariants as failures;
ghost use Rattle.fmap_compiler.specs.declared.refusal.Refusal.TheVariants as refusals;

use flash_store::SinkFault;
use fmap_compiler::Refusal;
use fmd_lang::FmdFault;
use std::alloc::AllocFailed;
use std::io::{self, ErrorKind};
use thiserror::Error;

/// The reason for exit status 1 or 2; its text is the error message.
#[derive(Clone, Copy, Debug, PartialEq, Eq, Error)]
pub enum Failure {
    /// Invalid arguments.
    #[error("bad command line")]
    Usage,
    /// Invalid descriptor, I/O error or allocation failure.
    #[error("{0}")]
    Refused(Refusal),
}

impl From<Refusal> for Failure {
    ghost from_gives = { λ refusal failure. failure ≡ failures.Refused refusal };

    fn from(refusal: Refusal) -> Failure {
        Failure::Refused(refusal)
    }
}

impl From<SinkFault> for Failure {
    ghost from_gives = { λ _ failure. failure ≡ failures.Refused refusals.Output };

    fn from(_: SinkFault) -> Failure {
        Failure::Refused(Refusal::Output)
    }
}

impl<T: Drop> From<AllocFailed<T>> for Failure {
    ghost from_gives = { λ _ failure. failure ≡ out_of_memory };

    fn from(_: AllocFailed<T>) -> Failure {
        Failure::Refused(Refusal::Descriptor(FmdFault::Memory))
    }
}

/// Returns the failure for arguments that can't be read: one is not UTF-8, or memory is missing.
pub fn failure_of_words(fault: &io::Error) -> Failure
    ensures { result ≡ words_failure (error_kind fault.now) }
{
    match fault.kind() {
        ErrorKind::OutOfMemory => Failure::Refused(Refusal::Descriptor(FmdFault::Memory)),
        _ => Failure::Usage,
    }
}

/// Returns the exit status.
pub fn status_of(answer: Result<(), Failure>) -> u8
    ensures { result ≡ exit_status answer }
{
    match answer {
        Ok(()) => 0,
        Err(Failure::Usage) => 2,
        Err(Failure::Refused(_)) => 1,
    }
}
