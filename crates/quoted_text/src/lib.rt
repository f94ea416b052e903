//! Texts for a terminal: arguments, paths and names in messages, and whether messages are
//! explained.
#![tactic(auto)]

mod condition;
mod shown;

pub use condition::is_explained;
pub use shown::push_shown;
