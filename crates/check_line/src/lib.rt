//! The command line of cbfscheck, parsed by clap.
#![tactic(auto)]

mod fault;
mod laws;
mod line;
mod need;
mod option_files;
mod reading;
mod words;

pub use fault::{LineFault, WordFault};
pub use laws::{needs_are_split, options_are_split};
pub use line::{CheckLine, Invocation};
pub use option_files::{Argument, option_file, whole_line};
pub use reading::read_check;
