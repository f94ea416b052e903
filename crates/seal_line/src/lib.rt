//! The arguments of cbfsseal, its refusals, and the text of a report.
#![tactic(auto)]

mod digest_lines;
mod line;
mod named_component;
mod refusal;

pub use digest_lines::{REPORT_LEN, report_text};
pub use line::{Invocation, SealLine, read_seal};
pub use named_component::{NAME_LEN, component_name, component_of};
pub use refusal::{Refusal, refusal_of_words, status_of};
