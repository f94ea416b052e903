//! The laws about findings at literal regions and images, in numbers. A law that holds of no image
//! would prove none of these.
ghost use Rattle.std.specs.Prelude.{◌≡◌, ◌==◌, ℕ, Ok, true, false, [], ◌∷◌, ◌++◌, IsOkAnd, IsSomeAnd, None, Some, length, replicate};
ghost use lib.Chars.{codes};
ghost use Rattle.flash_format.specs.Components.{components};
ghost use Rattle.cbfs_walk.specs.Search.{component_in};
ghost use Rattle.check_findings.specs.Laws.{IsBlankTail};
ghost use Rattle.check_findings.specs.RegionFindings.{component_content};
ghost use Rattle.std.specs.List.{find};
ghost use Rattle.flash_map.specs.Regions.{region_of};
ghost use Rattle.check_findings.specs.Areas.{has_name, map_areas};
ghost use Rattle.check_findings.specs.ImageFindings.{bytes_of, entry_bytes, image_findings};
ghost use Rattle.check_findings.specs.ImageFindings.{region_areas};
ghost use Rattle.check_findings.specs.MapFindings.{begins_with_map};
ghost use Rattle.check_findings.specs.declared.image.needs.Need.{Need};
ghost use Rattle.check_findings.specs.declared.image.needs.NeededPlace.TheVariants.{At};
ghost use Rattle.check_laws.specs.Samples.{coreboot_area, small_found, small_image, small_region};

use check_findings::{
    blank_tails_are_known, clean_maps_are_sound, counts_are_of_the_entries, fit_images_are_whole,
    fit_regions_are_whole, needs_are_there, two_image_lengths_are_checked,
    unshadowed_components_are_found,
};

/// `fit_regions_are_whole` at a region of 128 bytes: a search finds its component, with 4 bytes
/// from byte 28 on.
pub fn a_fit_region_is_whole()
    ensures { IsOkAnd (component_in small_region (codes "a")) (λ found. IsSomeAnd found (λ c.
        ((component_content c).start ≡ 28) × ((component_content c).len ≡ 4))) }
{
    fit_regions_are_whole();
}

/// `unshadowed_components_are_found` at this region.
pub fn an_unshadowed_component_is_found()
    ensures { IsOkAnd (component_in small_region (codes "a")) (λ found. IsSomeAnd found (λ c.
        ((component_content c).start ≡ 28) × ((component_content c).len ≡ 4))) }
{
    unshadowed_components_are_found();
}

/// `counts_are_of_the_entries` at this region.
pub fn a_region_has_one_component()
    ensures { length (components small_region) ≡ 1 }
{
    counts_are_of_the_entries();
}

/// `blank_tails_are_known` at a tail of 64 erased bytes, and at a tail with another byte.
pub fn an_erased_tail_is_blank()
    ensures blank { IsBlankTail 64 (replicate 128 0xff) }
    ensures filled { ¬ IsBlankTail 64 (replicate 100 0xff ++ 0x55 ∷ replicate 27 0xff) }
{
    blank_tails_are_known();
}

/// `clean_maps_are_sound` at an image of 320 bytes: the map states the image's size, and the area
/// FMAP begins with the map.
pub fn a_clean_map_is_sound()
    ensures size { length small_image ≡ 320 }
    ensures held { IsSomeAnd (find (has_name (codes "FMAP")) (map_areas small_image small_found))
        (λ a. begins_with_map small_found a ≡ true) }
{
    clean_maps_are_sound();
}

/// `fit_images_are_whole` at this image: COREBOOT is found from byte 192 on, and the component is
/// found in COREBOOT.
pub fn a_fit_image_is_whole()
    ensures found { region_of small_image (codes "COREBOOT")
        ≡ Ok (record { start = 192; size = 128 }) }
    ensures component { IsOkAnd (component_in (bytes_of small_image coreboot_area) (codes "a"))
        (λ found. IsSomeAnd found (λ c. (component_content c).start ≡ 28)) }
{
    fit_images_are_whole();
}

/// `two_image_lengths_are_checked` at this image: its area COREBOOT, of 128 bytes, is checked.
pub fn a_small_image_is_checked()
    ensures { region_areas (image_findings small_image [] []) ≡ coreboot_area ∷ [] }
{
    two_image_lengths_are_checked();
}

/// `needs_are_there` at this image: `COREBOOT:a@28` is met, so a search finds the component, with
/// a content from byte 28 on.
pub fn a_need_is_there()
    ensures { (need : Need) → need.area.now ≡ codes "COREBOOT" → need.name.now ≡ codes "a"
        → need.place ≡ At 28 → IsOkAnd (component_in (entry_bytes small_image coreboot_area)
        (codes "a")) (λ found. IsSomeAnd found (λ c. ((component_content c).start == 28) ≡ true)) }
{
    needs_are_there();
}
