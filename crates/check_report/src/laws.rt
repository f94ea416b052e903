//! Laws about rows, as the contract of a function without effect.
ghost use Rattle.std.specs.Prelude.{◌≡◌, ℕ, Bool, List, [], false, true, IfSome, Some, length};
ghost use Rattle.std.specs.Borrow.{Bor};
ghost use Rattle.std.specs.List.{All, list_any};
ghost use Rattle.check_findings.specs.declared.image.finding.ImageFinding.{ImageFinding};
ghost use Rattle.check_findings.specs.ImageFindings.{image_findings};
ghost use Rattle.check_findings.specs.Verdicts.{is_bad};
ghost use Rattle.check_digests.specs.Digests.{image_digests};
ghost use Rattle.board_findings.specs.declared.finding.BoardFinding.{BoardFinding};
ghost use Rattle.board_findings.specs.Verdicts as boards;
ghost use Rattle.check_report.specs.declared.inspection.Inspection.{Inspection};
ghost use Rattle.check_report.specs.declared.request.Asked.{Asked};
ghost use Rattle.check_report.specs.declared.request.Request.{Request};
ghost use Rattle.check_report.specs.BoardRows.{board_rows};
ghost use Rattle.check_report.specs.declared.rows.row.Verdict.TheVariants.{Bad, Change, Remark};
ghost use Rattle.check_report.specs.Fields.{Line};
ghost use Rattle.check_report.specs.Rows.{SeenRow, has_bad, report_rows, rows_by_verdict};
ghost use Rattle.check_report.specs.Rows.{selected, shown_rows};
ghost use Rattle.check_report.specs.Tables.{BeginsInColumns, cells, widths};
ghost use Rattle.check_report.specs.FindingRows.{finding_rows};
ghost use Rattle.check_report.specs.Reports.{inspection_rows, listed_components};

/// A row of the findings is bad exactly if a finding is bad, also about the structures of a board,
/// and a shown row exactly if a row is bad. If no row is bad, no structure is lost, and no slot has
/// outdated signatures.
pub fn rows_tell_what_is_bad()
    ensures findings { (asked : Asked) (names : List (Bor (List ℕ))) (found : List ImageFinding)
        → has_bad (finding_rows asked names found) ≡ list_any (is_bad asked.needs_hashes) found }
    ensures board { (found : List BoardFinding) →
        has_bad (board_rows found) ≡ list_any boards.is_bad found }
    ensures structures { (request : Request) (i : Inspection)
        → has_bad (inspection_rows request i) ≡ false
        → IfSome i.changes (λ c. (c.comparison.structures.items ≡ [])
        × (c.comparison.outdated.items ≡ [])) }
    ensures limits { (rows : List SeenRow) → has_bad (shown_rows false rows) ≡ has_bad rows }
{}

/// A report for a terminal has the bad rows and the changes of the report as text, also those for
/// hidden rows, in the same order. With `-v` it has the same remarks, and without it none.
pub fn terminals_show_the_rows_of_the_text()
    ensures bad { (is_verbose : Bool) (rows : List SeenRow)
        → selected (Some Bad) (rows_by_verdict is_verbose rows)
        ≡ selected (Some Bad) (report_rows is_verbose rows) }
    ensures changes { (is_verbose : Bool) (rows : List SeenRow)
        → selected (Some Change) (rows_by_verdict is_verbose rows)
        ≡ selected (Some Change) (report_rows is_verbose rows) }
    ensures remarks { (rows : List SeenRow) → selected (Some Remark) (rows_by_verdict true rows)
        ≡ selected (Some Remark) (report_rows true rows) }
    ensures hidden { (rows : List SeenRow)
        → selected (Some Remark) (rows_by_verdict false rows) ≡ [] }
{}

/// In the lines of a table, the cells of each column begin at one place, below its heading, and so
/// do the first cells after the columns.
pub fn columns_are_aligned()
    ensures lines { (heading : List (List ℕ)) (lines : List Line)
        → All (λ line. BeginsInColumns (widths heading lines) (cells line)) lines }
    ensures heading { (heading : List (List ℕ)) (lines : List Line)
        → BeginsInColumns (widths heading lines) heading }
{}

/// Each component of a list has its digests: an image has as many digests as listed components.
pub fn listed_components_have_digests()
    ensures { (image : List ℕ) (names expected : List (List ℕ))
        → let all = image_findings image names expected in
        length (image_digests image all) ≡ length (listed_components all) }
{}
