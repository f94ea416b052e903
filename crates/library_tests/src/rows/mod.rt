//! The examples of docs/EXAMPLES.md: whole texts, refusals and images, with literal bytes.
pub mod add;
pub mod create;
pub mod descriptors;
mod devices;
mod hashes;
pub mod hostile;
pub mod line;
mod memory;
mod print;
mod remove;
mod stops;
pub mod support;
