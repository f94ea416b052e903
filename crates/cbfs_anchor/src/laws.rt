//! Laws about seals, as contracts of functions without effect.
ghost use Rattle.std.specs.Prelude.{◌≡◌, ◌≢◌, ℕ, ◌<◌, List, ◌∷◌, ◌++◌, true, false, Ok, Some};
ghost use Rattle.flash_device.specs.Regions.{LiesIn, bytes_in};
ghost use Rattle.flash_format.specs.Components.{Component};
ghost use Rattle.flash_map.specs.Fmap.{found_in};
ghost use Rattle.flash_map.specs.declared.search.FoundMap.{FoundMap};
ghost use Rattle.cbfs_anchor.specs.declared.anchor.Anchor.{Anchor};
ghost use Rattle.cbfs_anchor.specs.declared.demand.Demand.{Demand};
ghost use Rattle.cbfs_anchor.specs.declared.demand.Demand.TheVariants.{Nothing};
ghost use Rattle.cbfs_anchor.specs.declared.place.AnchorPlace.{AnchorPlace};
ghost use Rattle.cbfs_anchor.specs.Layout.{digests_range};
ghost use Rattle.cbfs_anchor.specs.Places.{is_misplaced};
ghost use Rattle.cbfs_anchor.specs.Metadata.{all_metadata, metadata};
ghost use Rattle.cbfs_anchor.specs.Seals.{Survey, has_digests, sealed, survey_by, survey_in, survey_with};

/// A sealed image has both digests, so a second seal finds nothing to write and changes nothing.
pub fn sealed_images_are_valid()
    ensures valid { (a : Anchor) (message map image : List ℕ) → LiesIn (digests_range a) image
        → let s = survey_by a message map in has_digests s (sealed s image) ≡ true }
    ensures again { (a : Anchor) (message map image : List ℕ) → LiesIn (digests_range a) image
        → let s = survey_by a message map in sealed s (sealed s image) ≡ sealed s image }
{}

/// A seal whose digests are not misplaced keeps the flash map, and the region of the components if
/// an area has the anchor.
pub fn seals_keep_map_and_components()
    ensures map { (place : AnchorPlace) (a : Anchor) (message map image : List ℕ)
        → LiesIn (digests_range a) image → is_misplaced place (digests_range a) ≡ false
        → bytes_in place.map (sealed (survey_by a message map) image) ≡ bytes_in place.map image }
    ensures components { (place : AnchorPlace) (a : Anchor) (message map image : List ℕ)
        → LiesIn (digests_range a) image → is_misplaced place (digests_range a) ≡ false
        → place.in_component ≡ false → bytes_in place.coreboot
        (sealed (survey_by a message map) image) ≡ bytes_in place.coreboot image }
{}

/// An inspection of a sealed image finds the same anchor at the same place, and the same digests to
/// be stored. With a known flash map, this holds for any image. A search finds the same map if it
/// begins before the anchor: below a map, the bytes of a digest might form another. `demand` is not
/// `Nothing`, which accepts digests inside the flash map or COREBOOT.
pub fn seals_keep_the_anchor()
    ensures by_map { (demand : Demand) (image : List ℕ) (map : FoundMap) (s : Survey)
        → demand ≢ Nothing → survey_with demand image map ≡ Ok s
        → survey_with demand (sealed s image) map ≡ Ok s }
    ensures found { (demand : Demand) (image : List ℕ) (map : FoundMap) (s : Survey)
        → demand ≢ Nothing → found_in image ≡ Some map → map.at < s.anchor.at
        → survey_in demand image ≡ Ok s → survey_in demand (sealed s image) ≡ Ok s }
{}

/// A component with other metadata changes the bytes that the digest is made of.
pub fn changed_metadata_is_hashed()
    ensures { (earlier later : List Component) (c d : Component) → metadata c ≢ metadata d
        → all_metadata (earlier ++ c ∷ later) ≢ all_metadata (earlier ++ d ∷ later) }
{}
