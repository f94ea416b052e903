//! What follows the refusal of a step.
ghost use Rattle.std.specs.Prelude.{◌≡◌};
ghost use Rattle.cbfs_steps.specs.Progresses.{answer_of, progress_after, takes};

use crate::steps::Step;
use cbfs_requests::Refusal;

/// How far a command is.
#[derive(Clone, Copy, Debug, PartialEq, Eq)]
pub enum Progress {
    /// No step was refused.
    Going,
    /// The run was refused. Its output is still written.
    RunRefused(Refusal),
    /// Another step was refused. No step follows.
    Ended(Refusal),
}

impl Progress {
    /// Returns whether a step is taken.
    pub fn takes(self, step: Step) -> bool
        ensures { result ≡ takes self step }
    {
        match self {
            Progress::Going => true,
            Progress::RunRefused(_) => matches!(step, Step::Unlock | Step::WriteOutput),
            Progress::Ended(_) => false,
        }
    }

    /// Returns the progress after a step. The first refusal remains.
    pub fn after(self, step: Step, answer: Result<(), Refusal>) -> Progress
        ensures { result ≡ progress_after self step answer }
    {
        match (self, step, answer) {
            (Progress::Going, Step::Run, Err(refusal)) => Progress::RunRefused(refusal),
            (Progress::Going, _, Err(refusal)) => Progress::Ended(refusal),
            (progress, _, _) => progress,
        }
    }

    /// Returns the refusal of the command, if any.
    pub fn answer(self) -> Result<(), Refusal>
        ensures { result ≡ answer_of self }
    {
        match self {
            Progress::Going => Ok(()),
            Progress::RunRefused(refusal) => Err(refusal),
            Progress::Ended(refusal) => Err(refusal),
        }
    }
}
