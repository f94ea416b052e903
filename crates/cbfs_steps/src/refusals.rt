//! Refusals of files and arguments, and the exit status.
ghost use Rattle.std.specs.Prelude.{◌≡◌};
ghost use Rattle.std.specs.IoError.{error_kind};
ghost use Rattle.cbfs_steps.specs.Progresses.{exit_status, opening_refusal, words_refusal};

use crate::steps::Step;
use cbfs_requests::Refusal;
use flash_store::OpenFault;
use std::io::{self, ErrorKind};

impl Step {
    /// Returns the refusal of a step that can't open its file.
    pub fn refusal(self, fault: OpenFault) -> Refusal
        ensures { result ≡ opening_refusal self fault }
    {
        match (fault, self) {
            (OpenFault::TooLarge, _) => Refusal::TooLarge,
            (OpenFault::Memory, _) => Refusal::Memory,
            (OpenFault::Failed(_), Step::OpenInput) => Refusal::Source,
            (OpenFault::Failed(_), Step::MakeOutput) => Refusal::Output,
            (OpenFault::Failed(_), _) => Refusal::Device,
        }
    }
}

/// Returns the refusal for arguments that can't be read: one is not UTF-8, or memory is missing.
pub fn refusal_of_words(fault: &io::Error) -> Refusal
    ensures { result ≡ words_refusal (error_kind fault.now) }
{
    match fault.kind() {
        ErrorKind::OutOfMemory => Refusal::Memory,
        _ => Refusal::Usage,
    }
}

/// Returns the exit status of a command.
pub fn status_of(answer: Result<(), Refusal>) -> u8
    ensures { result ≡ exit_status answer }
{
    match answer {
        Ok(()) => 0,
        Err(Refusal::Usage) => 2,
        Err(_) => 1,
    }
}
