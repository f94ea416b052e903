//! The commands of a command line, and the errors of commands.
#![tactic(auto)]

mod command;
mod refusal;

pub use command::{Command, MOST_REGIONS};
pub use refusal::Refusal;
