//! The laws of this crate at literal images, in numbers. A law that holds of no image would prove
//! none of these.
ghost use Rattle.std.specs.Prelude.{◌≡◌, ◌≢◌, [], ◌∷◌, take, slice_range, IsOkAnd};
ghost use Rattle.flash_format.specs.Components.{component_at};
ghost use Rattle.cbfs_anchor.specs.declared.algorithm.Algorithm.TheVariants.{Sha1};
ghost use Rattle.cbfs_anchor.specs.declared.demand.Demand.TheVariants.{Found};
ghost use Rattle.cbfs_anchor.specs.Algorithms.{digest_by};
ghost use Rattle.cbfs_anchor.specs.Metadata.{all_metadata};
ghost use Rattle.cbfs_anchor.specs.Samples.{free_cell, named_cell, small_image, small_map, small_survey};
ghost use Rattle.cbfs_anchor.specs.Seals.{sealed, survey_in};

use crate::laws::{
    changed_metadata_is_hashed, sealed_images_are_valid, seals_keep_map_and_components,
    seals_keep_the_anchor,
};

/// `sealed_images_are_valid` at an image of 320 bytes with an anchor of SHA-1 from byte 256 on and
/// no component: 20 bytes from byte 268 on are the digest of no metadata, and a second seal changes
/// nothing.
pub fn a_sealed_image_has_its_digest()
    ensures valid { take 20 (slice_range (sealed small_survey small_image) 268 308)
        ≡ digest_by Sha1 [] }
    ensures again { sealed small_survey (sealed small_survey small_image)
        ≡ sealed small_survey small_image }
{
    sealed_images_are_valid();
}

/// `seals_keep_map_and_components` at this image: its first 182 bytes are still the map, and the
/// bytes from 192 to 256 still the empty entry.
pub fn a_seal_keeps_map_and_entry()
    ensures map { slice_range (sealed small_survey small_image) 0 182 ≡ small_map }
    ensures entry { slice_range (sealed small_survey small_image) 192 256 ≡ free_cell }
{
    seals_keep_map_and_components();
}

/// `seals_keep_the_anchor` at this image: the anchor of the sealed image is at byte 256.
pub fn a_sealed_anchor_is_at_its_place()
    ensures { IsOkAnd (survey_in Found (sealed small_survey small_image))
        (λ s. (s.anchor.at ≡ 256) × (s.anchor.algorithm ≡ Sha1)) }
{
    seals_keep_the_anchor();
}

/// `changed_metadata_is_hashed` at the names `a` and `b` of a component.
pub fn a_renamed_component_is_hashed()
    ensures { all_metadata (component_at 0 (named_cell 97) ∷ [])
        ≢ all_metadata (component_at 0 (named_cell 98) ∷ []) }
{
    changed_metadata_is_hashed();
}
