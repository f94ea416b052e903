//! The command line of cbfstool, parsed by clap into a command.
#![tactic(auto)]

mod line;
mod words;

pub use line::{Line, read_line, refused_kind};
