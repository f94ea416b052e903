//! The steps of fmaptool, in order, and the failure of a step.
ghost use Rattle.std.specs.Prelude.{◌≡◌};
ghost use Rattle.std.specs.IoError.{error_kind};
ghost use Rattle.fmap_steps.specs.Failures.{step_failure};
ghost use Rattle.fmap_steps.specs.Steps.{steps_of};

use crate::failure::Failure;
use crate::line::Invocation;
use fmap_compiler::Refusal;
use fmd_lang::FmdFault;
use std::io::{self, ErrorKind};

/// A step of fmaptool.
#[derive(Clone, Copy, Debug, PartialEq, Eq)]
pub enum Step {
    /// Prints the usage on standard output.
    PrintUsage,
    /// Opens INPUT for reading.
    OpenInput,
    /// Reads the identity of INPUT, because OUTPUT must be another file.
    IdentifyInput,
    /// Creates or empties OUTPUT.
    MakeOutput,
    /// Compiles the descriptor, and collects the table.
    Run,
    /// Writes the rest of the collected table.
    WriteOutput,
}

const COMPILATION: [Step; 5] = [
    Step::OpenInput,
    Step::IdentifyInput,
    Step::MakeOutput,
    Step::Run,
    Step::WriteOutput,
];

/// Returns the steps, in order. No step follows a failed one.
pub fn steps_of(invocation: &Invocation<'_>) -> &'static [Step]
    ensures { result.now ≡ steps_of invocation.now }
{
    match invocation {
        Invocation::Usage => &[Step::PrintUsage],
        Invocation::Compile { .. } => &COMPILATION,
    }
}

impl Step {
    /// Returns the failure of a step whose system call has failed: a read error of INPUT, an output
    /// error, or an allocation failure of an opening.
    pub fn failure(self, fault: &io::Error) -> Failure
        ensures { result ≡ step_failure self (error_kind fault.now) }
    {
        match (self, fault.kind()) {
            (Step::PrintUsage | Step::Run | Step::WriteOutput, _) => {
                Failure::Refused(Refusal::Output)
            }
            (_, ErrorKind::OutOfMemory) => Failure::Refused(Refusal::Descriptor(FmdFault::Memory)),
            (Step::MakeOutput, _) => Failure::Refused(Refusal::Output),
            (_, _) => Failure::Refused(Refusal::Read),
        }
    }
}
