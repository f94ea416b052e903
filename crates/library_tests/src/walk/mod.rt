mod hashes;
mod store;
pub mod walks;
