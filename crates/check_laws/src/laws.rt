//! Laws about commands without bad findings, and about `add`, as contracts of functions without
//! effect.
ghost use Rattle.check_findings.specs.Laws.{InFitImages, InFitRegions};
ghost use Rattle.check_findings.specs.RegionFindings.{region_findings};
ghost use Rattle.check_findings.specs.declared.region.finding.RegionFinding.TheVariants.{LargestContent};
ghost use Rattle.cbfs_edit.specs.Places.{first_place, runs};
ghost use Rattle.cbfs_edit.specs.declared.place.Spot.TheVariants.{First};
ghost use Rattle.cbfs_edit.specs.declared.place.Wanted.{Wanted};
ghost use Rattle.cbfs_walk.specs.Shapes.{shape_fault};
ghost use Rattle.std.specs.Prelude.{◌≡◌, ◌↔◌, ◌%◌, ◌≤◌, ℕ, Bool, true, Contains, List, None, Some, is_some, length};
ghost use Rattle.cbfs_commands.specs.Outcomes.{extract_region, print_region, printed_component, printed_in};
ghost use Rattle.cbfs_commands.specs.Outcomes.{shows};
ghost use Rattle.cbfs_commands.specs.Rows.{rows_from};
ghost use Rattle.flash_format.specs.Components.{Component, components};
ghost use Rattle.flash_format.specs.Cut.{cut};
ghost use Rattle.flash_format.specs.Flashmap.{text_of};
ghost use Rattle.check_findings.specs.ImageFindings.{bytes_of};

use check_findings::{fit_images_are_whole, fit_regions_are_whole};

/// `print` lists all entries of a region without bad findings, and succeeds.
pub fn fit_regions_are_listed()
    ensures { InFitRegions (λ anchor x. (verbose : Bool) →
        print_region x verbose ≡ shows (rows_from verbose 0 (cut x).cells)) }
{
    fit_regions_are_whole();
}

/// In an image without bad findings, `print` lists all entries of each checked area, by name, if
/// the area's size is a multiple of 64 bytes. `print` refuses an area of another size.
pub fn fit_images_are_listed()
    ensures { InFitImages (λ image a. (verbose : Bool) → a.area.size % 64 ≡ 0 →
        printed_in image (text_of a.area.name) (λ x. print_region x verbose)
        ≡ shows (rows_from verbose 0 (cut (bytes_of image a)).cells)) }
{
    fit_images_are_whole();
}

/// In an image without bad findings, `extract` returns the content of each uncompressed component
/// of a checked area, by both names, if the area's size is a multiple of 64 bytes.
pub fn fit_images_are_extracted()
    ensures { InFitImages (λ image a. (c : Component) → a.area.size % 64 ≡ 0 →
        Contains (components (bytes_of image a)) c → printed_in image (text_of a.area.name)
        (λ x. extract_region x c.name) ≡ printed_component c) }
{
    fit_images_are_whole();
}

/// In a region of a good size with a first entry, `add` without `-A`, `-a` and `-b`, with a name of
/// at most 3 bytes, takes exactly the contents up to the reported largest content. 28 bytes hold
/// the header, the name and its NUL.
pub fn largest_content_is_taken()
    ensures { (x : List ℕ) (n : ℕ) → shape_fault x ≡ None
        → let wanted : Wanted = record { metadata_len = 28; len = n; spot = First } in
        (is_some (first_place wanted (length x) (runs x)) ≡ true) ↔ ((largest : ℕ)
        × Contains (region_findings x) (LargestContent (Some largest)) × (n ≤ largest)) }
{}
