//! Proves the meaning of findings for commands of `cbfstool`. No code runs.
#![tactic(auto)]

mod attributes;
mod laws;
mod needs;
mod numbers;
mod reports;

pub use attributes::{attributes_with_a_fault_are_known, sound_attributes_have_no_fault};
pub use laws::{
    fit_images_are_extracted, fit_images_are_listed, fit_regions_are_listed,
    largest_content_is_taken,
};
pub use needs::{a_content_ends_with_its_area, needs_are_met_by_position};
pub use numbers::{
    a_clean_map_is_sound, a_fit_image_is_whole, a_fit_region_is_whole, a_need_is_there,
    a_region_has_one_component, a_small_image_is_checked, an_erased_tail_is_blank,
    an_unshadowed_component_is_found,
};
pub use reports::{a_bad_row_is_shown, a_damaged_entry_has_a_bad_row, a_difference_is_reported};
