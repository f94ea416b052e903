//! The compiler of flashmap descriptors.
#![tactic(auto)]

mod compiler;
mod laws;
mod reader;
mod refusal;

pub use compiler::{run, run_with_text};
pub use laws::compiled_maps_are_found;
pub use reader::{ReadFault, ReadText, TextReader};
pub use refusal::Refusal;
