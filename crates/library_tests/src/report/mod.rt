//! Checks of images, and reports.
mod areas;
mod components;
mod findings;
mod image;
mod map;
mod region;
mod regions;
pub mod reports;
mod rows;
mod support;
