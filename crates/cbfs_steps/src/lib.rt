//! The steps of a command of cbfstool: which files it opens, in which order and with which lock,
//! what follows a refusal, and the exit status.
#![tactic(auto)]

mod laws;
mod numbers;
mod progress;
mod refusals;
mod steps;

pub use laws::{refusals_end_commands, steps_are_in_order, uses_are_those_of_commands};
pub use numbers::{
    a_layout_leaves_two_bytes, a_refused_change_has_three_steps, commands_have_three_or_four_steps,
};
pub use progress::Progress;
pub use refusals::{refusal_of_words, status_of};
pub use steps::{FileUse, Step, file_use, lock_of, steps_of};
