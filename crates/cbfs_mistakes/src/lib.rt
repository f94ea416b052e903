//! The mistake of a command line that cbfstool refuses, and the lines of its explanation.
#![tactic(auto)]

mod areas;
mod components;
mod laws;
mod line;
mod list_fault;
mod message;
mod mistake;
mod names_line;
mod near;
mod room;
mod search;
mod subject;
mod suggestion;
mod synopsis;

pub use areas::push_areas;
pub use components::push_components;
pub use laws::{commands_are_those_of_clap, long_names_are_known, near_commands_are_known};
pub use list_fault::ListFault;
pub use message::push_explanation;
pub use mistake::{MissingOptions, Mistake, NumberOption, WordFault};
pub use room::push_room;
pub use search::find_mistake;
pub use subject::push_subject;
