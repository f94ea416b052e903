//! Reports the problems of a flash image, and the changes of a new image.
//!
//! A check allocates memory for its findings, and never changes an honest device. The report needs
//! memory for a single row.
#![tactic(auto)]

mod anchor;
mod area_lines;
mod areas;
mod attributes;
mod board;
mod change_inspection;
mod changes;
mod component_list;
mod fault;
mod findings;
mod image_inspection;
mod inspection;
mod kept;
mod laws;
mod listed_digests;
mod map_list;
mod names;
mod region;
mod request;
mod rows;
mod slot_changes;
mod structures;
mod tables;

pub use change_inspection::inspect_change;
pub use check_changes::Images;
pub use check_findings::{Need, NeededPlace};
pub use fault::{ReportFault, WriteFault};
pub use image_inspection::inspect_image;
pub use inspection::{Changes, Comparison, Inspection, OldImage, WrittenReport};
pub use laws::{
    columns_are_aligned, listed_components_have_digests, rows_tell_what_is_bad,
    terminals_show_the_rows_of_the_text,
};
pub use request::{Asked, Files, Request};
pub use rows::{Colours, Form};
