//! Laws about findings, as contracts of functions without effect.
ghost use Rattle.std.specs.Prelude.{◌≡◌, ◌≢◌, ◌↔◌, ◌+◌, ◌*◌, ◌<◌, ◌≤◌, ℕ, Bool, List, [], ◌∷◌, Contains, IsOkAnd, IsSomeAnd, None, Ok, Some, length, true, false};
ghost use Rattle.std.specs.List.{filter, find, list_any, sum_by};
ghost use Rattle.flash_format.specs.Cut.{cut};
ghost use Rattle.flash_format.specs.Entry.{Attribute, attributes};
ghost use Rattle.flash_format.specs.Head.{head_of, is_free};
ghost use Rattle.flash_format.specs.Components.{Component, components};
ghost use Rattle.cbfs_walk.specs.Search.{component_in};
ghost use Rattle.cbfs_walk.specs.Shapes.{shape_fault};
ghost use Rattle.flash_map.specs.declared.search.FoundMap.{FoundMap};
ghost use Rattle.check_findings.specs.Areas.{has_name, map_areas};
ghost use Rattle.check_findings.specs.Attributes.{fault_after, is_used, walked};
ghost use Rattle.check_findings.specs.declared.map.finding.MapFinding.TheVariants.{Map};
ghost use Rattle.check_findings.specs.declared.region.finding.RegionFinding.TheVariants.{Tail};
ghost use Rattle.check_findings.specs.declared.region.finding.RegionFinding.TheVariants as findings;
ghost use Rattle.check_findings.specs.MapFindings.{map_findings};
ghost use Rattle.check_findings.specs.RegionFindings.{component_content, region_findings};
ghost use Rattle.check_findings.specs.RegionFindings.{entry_counts, tail_findings};
ghost use Rattle.check_findings.specs.ImageFindings.{entry_bytes, image_findings};
ghost use Rattle.check_findings.specs.ImageFindings.{areas_to_check, region_areas, sum_sizes};
ghost use Rattle.check_findings.specs.declared.areas.NumberedArea.{NumberedArea};
ghost use Rattle.check_findings.specs.declared.image.finding.ImageFinding.TheVariants.{NotChecked};
ghost use Rattle.check_findings.specs.Needs.{is_met, unmet};
ghost use Rattle.check_findings.specs.declared.image.needs.Need.{Need};
ghost use Rattle.check_findings.specs.Laws.{InFitImages, IsBlankTail, IsSound};
ghost use Rattle.check_findings.specs.Laws.{InFitRegions, IsFit, IsWhole};
ghost use Rattle.check_findings.specs.Laws.{HasDigests, is_other_map, is_other_metadata};
ghost use Rattle.check_findings.specs.Anchors.{anchor_findings, image_anchor};
ghost use Rattle.check_findings.specs.Verdicts.{is_bad};
ghost use Rattle.cbfs_anchor.specs.Seals.{Survey, stored_map, stored_metadata, survey_in};
ghost use Rattle.cbfs_anchor.specs.declared.anchor.Anchor.{Anchor};
ghost use Rattle.cbfs_anchor.specs.declared.demand.Demand.TheVariants.{Nothing};

/// If a map has no finding but its position, it has the image's size, and no later map exists. Each
/// area lies inside the image, has bytes and a text name that finds it, and nests with each area.
/// The area `FMAP` contains the map.
pub fn clean_maps_are_sound()
    ensures { (image : List ℕ) (map : FoundMap) → map_findings image ≡ Map map ∷ [] →
        IsSound image map (map_areas image map) }
{}

/// In a region of a good size with a first entry, a search finds each unshadowed component by name.
pub fn unshadowed_components_are_found()
    ensures { (x : List ℕ) (c : Component) → shape_fault x ≡ None → Contains (components x) c →
        ¬ Contains (region_findings x) (findings.Component c.at c.name true (component_content c)) →
        component_in x c.name ≡ Ok (Some c) }
{}

/// The tail has no finding but its offset exactly if its bytes, except the region's last four, are
/// 0xff or 0x00.
pub fn blank_tails_are_known()
    ensures { (at : ℕ) (x : List ℕ) → IsBlankTail at x ↔ (tail_findings at x ≡ Tail at ∷ []) }
{}

/// The counts of a region's entries are the number of its components and the bytes of its free
/// cells.
pub fn counts_are_of_the_entries()
    ensures { (x : List ℕ) → let n = entry_counts (length x) (cut x).cells in
        (n.components ≡ length (components x)) × (n.free ≡ sum_by length
        (filter (λ c. is_free (head_of c)) (cut x).cells)) }
{}

/// If the attributes of a component of this type have no fault, then the attributes with a used tag
/// that coreboot walks are exactly those that commands list.
pub fn faultless_attributes_are_read_alike()
    ensures { (kind : ℕ) (list : List ℕ) (all : List Attribute) → attributes list ≡ Some all →
        fault_after kind [] (walked list) ≡ None → filter is_used (walked list) ≡ all }
{}

/// A region without bad findings has a good size, a first entry, no damaged entry, matching digests
/// and a blank tail, and a search finds each component by name. The digest of `intel_fit` may
/// differ under an anchor. Each component has at most 256 bytes before its content. Its attributes,
/// as coreboot walks them, have no fault: none stands behind the end of the list, compression and
/// digest have the lengths that coreboot expects, and a stage has an entry point in its memory.
pub fn fit_regions_are_whole()
    ensures { InFitRegions IsWhole }
{}

/// In an image without bad findings, a command finds each checked area by name, and its bytes up to
/// the last multiple of 64 are a region as above.
pub fn fit_images_are_whole()
    ensures { InFitImages IsFit }
{}

/// If the areas to check have at most two image lengths together, all of them are checked. An area
/// is left out only if the checked areas and this area have more than two image lengths together.
pub fn two_image_lengths_are_checked()
    ensures all { (image : List ℕ) (names expected : List (List ℕ)) →
        sum_sizes (areas_to_check image names expected) ≤ 2 * length image →
        region_areas (image_findings image names expected)
        ≡ areas_to_check image names expected }
    ensures left_out { (image : List ℕ) (names expected : List (List ℕ)) (a : NumberedArea)
        (is_expected : Bool) → let all = image_findings image names expected in
        Contains all (NotChecked a is_expected) →
        2 * length image < sum_sizes (region_areas all) + a.area.size }
{}

/// If the findings meet a need, a search in its area finds its component at the required position.
/// The search ends at the area's last multiple of 64 bytes.
pub fn needs_are_there()
    ensures { (image : List ℕ) (names expected : List (List ℕ)) (need : Need) →
        let all = image_findings image names expected in unmet all need ≡ None
        → IsSomeAnd (find (has_name need.area.now) (region_areas all)) (λ a. IsOkAnd
        (component_in (entry_bytes image a) need.name.now) (λ found. IsSomeAnd found
        (λ c. is_met need.place (component_content c) a.area.size ≡ true))) }
{}

/// In an image without bad findings, the anchor, if any, has both digests that it should have.
pub fn fit_images_are_sealed()
    ensures { (needs : Bool) (image : List ℕ) (names expected : List (List ℕ)) (a : Anchor) →
        list_any (is_bad needs) (image_findings image names expected) ≡ false →
        image_anchor image ≡ Some a →
        (s : Survey) × (survey_in Nothing image ≡ Ok s) × HasDigests image s }
{}

/// The findings report another digest exactly if the anchor's digest isn't the one that it should
/// have.
pub fn other_digests_are_reported()
    ensures metadata { (image : List ℕ) (s : Survey) → survey_in Nothing image ≡ Ok s →
        (list_any is_other_metadata (anchor_findings image) ≡ true)
        ↔ (stored_metadata s.anchor image ≢ s.metadata) }
    ensures map { (image : List ℕ) (s : Survey) → survey_in Nothing image ≡ Ok s →
        (list_any is_other_map (anchor_findings image) ≡ true)
        ↔ (stored_map s.anchor image ≢ s.map) }
{}
