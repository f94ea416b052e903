//! The laws about changes and rows at literal images and findings, in numbers. A law that holds of
//! no image would prove none of these.
ghost use Rattle.std.specs.Prelude.{◌≡◌, ◌+◌, ◌<◌, ◌≤◌, ◌⊎◌, ℕ, false, [], ◌∷◌, ◌++◌, replicate};
ghost use Rattle.std.specs.List.{Any};
ghost use lib.Chars.{codes};
ghost use Rattle.check_findings.specs.declared.region.finding.RegionFinding.TheVariants.{Complete};
ghost use Rattle.check_findings.specs.declared.region.finding.RegionFinding.TheVariants.{Damaged};
ghost use Rattle.flash_format.specs.declared.head.DamageKind.TheVariants.{Extent};
ghost use Rattle.check_changes.specs.Areas.{area_changes};
ghost use Rattle.check_changes.specs.declared.areas.change.AreaDifference.TheVariants.{Differs};
ghost use Rattle.check_changes.specs.declared.areas.change.AreaDifference.TheVariants.{NotCompared};
ghost use Rattle.check_report.specs.FindingRows.{finding_rows};
ghost use Rattle.check_report.specs.Rows.{row, shown_rows, verdict_word};
ghost use Rattle.check_report.specs.declared.request.Asked.{Asked};
ghost use Rattle.check_report.specs.declared.rows.row.Verdict.TheVariants.{Bad, Remark};
ghost use Rattle.check_laws.specs.Samples.{found_in_area, inner_area};

use check_changes::differences_are_reported;
use check_report::rows_tell_what_is_bad;

/// `differences_are_reported` at two images of 8 bytes, with an area of 4 bytes from byte 2 on. The
/// images differ in byte 5, and a change of an area with byte 5 is reported: blocks of the area
/// differ, or are not compared.
pub fn a_difference_is_reported()
    ensures { Any (λ change. (change.area.area.offset ≤ 5)
        × (5 < change.area.area.offset + change.area.area.size) × ((change.what ≡ NotCompared)
        ⊎ ((blocks : ℕ) × (own : ℕ) × (change.what ≡ Differs blocks own) × (0 < own))))
        (area_changes (replicate 8 0) (inner_area ∷ [])
        (0 ∷ 0 ∷ 0 ∷ 0 ∷ 0 ∷ 1 ∷ 0 ∷ 0 ∷ []) (inner_area ∷ [])) }
{
    differences_are_reported();
}

/// `rows_tell_what_is_bad` at an area with a damaged entry, and at an area without an unused tail:
/// only the first area has a row with the verdict `bad`.
pub fn a_damaged_entry_has_a_bad_row()
    ensures damaged { (asked : Asked) → Any (λ row. verdict_word row.verdict ≡ codes "bad")
        (finding_rows asked [] (found_in_area (Damaged 64 Extent))) }
    ensures complete { (asked : Asked) → ¬ Any (λ row. verdict_word row.verdict ≡ codes "bad")
        (finding_rows asked [] (found_in_area Complete)) }
{
    rows_tell_what_is_bad();
}

/// `rows_tell_what_is_bad` at 20 remarks of the same kind, of which 16 are shown: a row with the
/// verdict `bad` is shown only if a bad row follows the remarks.
pub fn a_bad_row_is_shown()
    ensures bad { Any (λ row. verdict_word row.verdict ≡ codes "bad") (shown_rows false
        (replicate 20 (row Remark "tail" "unused tail") ++ row Bad "no-cbfs" "no CBFS" ∷ [])) }
    ensures remarks { ¬ Any (λ row. verdict_word row.verdict ≡ codes "bad") (shown_rows false
        (replicate 20 (row Remark "tail" "unused tail"))) }
{
    rows_tell_what_is_bad();
}
