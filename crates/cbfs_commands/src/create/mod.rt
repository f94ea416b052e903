//! The command `create`.

mod creation;
mod flashmap;
mod plan;

pub use creation::create;
pub use flashmap::create_size;
