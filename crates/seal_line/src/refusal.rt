//! Refusals, and the exit status.
ghost use Rattle.std.specs.Prelude.{◌≡◌};
ghost use Rattle.std.specs.IoError.{error_kind};
ghost use Rattle.seal_line.specs.Refusals.{exit_status, opening_refusal, words_refusal};
ghost use Rattle.seal_line.specs.declared.refusal.Refusal.TheVariants as refusals;

use cbfs_anchor::SealFault;
use flash_store::OpenFault;
use std::alloc::AllocError;
use std::io::{self, ErrorKind};
use thiserror::Error;

/// The reason for exit status 1 or 2; its text is the error message.
#[derive(Clone, Copy, Debug, PartialEq, Eq, Error)]
pub enum Refusal {
    #[error("bad command line (see cbfsseal --help)")]
    Usage,
    #[error("out of memory")]
    Memory,
    #[error("image too large")]
    TooLarge,
    #[error("output fault")]
    Output,
    #[error("{0}")]
    Seal(SealFault),
}

impl From<OpenFault> for Refusal {
    ghost from_gives = { λ fault refusal. refusal ≡ opening_refusal fault };

    fn from(fault: OpenFault) -> Refusal {
        match fault {
            OpenFault::Failed(_) => Refusal::Seal(SealFault::Device),
            OpenFault::TooLarge => Refusal::TooLarge,
            OpenFault::Memory => Refusal::Memory,
        }
    }
}

impl From<SealFault> for Refusal {
    ghost from_gives = { λ fault refusal. refusal ≡ refusals.Seal fault };

    fn from(fault: SealFault) -> Refusal {
        Refusal::Seal(fault)
    }
}

impl From<AllocError> for Refusal {
    ghost from_gives = { λ _ refusal. refusal ≡ refusals.Memory };

    fn from(_: AllocError) -> Refusal {
        Refusal::Memory
    }
}

/// Returns the refusal for arguments that can't be read: one is not UTF-8, or memory is missing.
pub fn refusal_of_words(fault: &io::Error) -> Refusal
    ensures { result ≡ words_refusal (error_kind fault.now) }
{
    match fault.kind() {
        ErrorKind::OutOfMemory => Refusal::Memory,
        _ => Refusal::Usage,
    }
}

/// Returns the exit status.
pub fn status_of(answer: Result<(), Refusal>) -> u8
    ensures { result ≡ exit_status answer }
{
    match answer {
        Ok(()) => 0,
        Err(Refusal::Usage) => 2,
        Err(_) => 1,
    }
}
