//! Laws about changes, as contracts of functions without effect.
ghost use Rattle.std.specs.Prelude.{ℕ, ◌+◌, Contains, IsTrue, List, Some};
ghost use Rattle.std.specs.List.{list_any};
ghost use Rattle.check_findings.specs.declared.areas.NumberedArea.{NumberedArea};
ghost use Rattle.check_changes.specs.Areas.{area_changes, pairs};
ghost use Rattle.check_changes.specs.Laws.{DifferAt, reports};

/// If two areas of one name and size lie in their images and differ in a byte, an area with this
/// byte is reported as different or not compared.
pub fn differences_are_reported()
    ensures { (x y : List ℕ) (olds news : List NumberedArea) (old new : NumberedArea) (i : ℕ) →
        Contains (pairs olds news) (record { old = Some old; new = new }) → DifferAt x y old new i →
        IsTrue (list_any (reports (new.area.offset + i)) (area_changes x olds y news)) }
{}
