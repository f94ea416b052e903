//! The language of flashmap descriptors (`.fmd`).
#![tactic(auto)]

mod fault;
pub mod laws;
mod layout;
mod names;
mod number;
mod parser;
mod position;
mod row;
mod section;
mod table;
mod word;

pub use fault::{Expected, FmdFault};
pub use layout::lay_out;
pub use parser::{TEXT_LIMIT, parse};
pub use position::{Position, position_at, section_place};
pub use section::Section;
pub use table::{Table, encode};
