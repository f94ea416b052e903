//! The command `print`.

mod details;
mod listing;

pub use listing::print;
