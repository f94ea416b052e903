//! Edits and commands.
pub mod actions;
mod commands;
pub mod halves;
mod lists;
mod stops;
pub mod support;
