//! When `--need` is met, as laws and in numbers.
ghost use Rattle.std.specs.Prelude.{◌≡◌, ◌↔◌, ◌+◌, ℕ, true, None, Some};
ghost use lib.Chars.{codes};
ghost use Rattle.check_findings.specs.Needs.{is_met, unmet};
ghost use Rattle.check_findings.specs.declared.image.needs.Need.{Need};
ghost use Rattle.check_findings.specs.declared.image.needs.NeededPlace.TheVariants.{At, End};
ghost use Rattle.check_findings.specs.declared.image.needs.NeedFinding.TheVariants.{Elsewhere};
ghost use Rattle.check_findings.specs.declared.region.finding.Content.{Content};
ghost use Rattle.check_laws.specs.Samples.{found_content};

/// A content is at the end of its area exactly if the content ends with the area, and at an offset
/// exactly if the content starts at the offset.
pub fn needs_are_met_by_position()
    ensures end { (content : Content) (size : ℕ)
        → (is_met End content size ≡ true) ↔ (content.start + content.len ≡ size) }
    ensures at { (content : Content) (size start : ℕ)
        → (is_met (At start) content size ≡ true) ↔ (content.start ≡ start) }
{}

/// In an area of 128 bytes, 28 bytes from byte 100 on meet `A:a@end`. If they begin 1 or 4 bytes
/// earlier, or if 27 or 24 bytes begin at 100, they do not.
pub fn a_content_ends_with_its_area()
    ensures at_the_end { (need : Need) → need.area.now ≡ codes "A" → need.name.now ≡ codes "a"
        → need.place ≡ End → unmet (found_content 100 28) need ≡ None }
    ensures one_before { (need : Need) → need.area.now ≡ codes "A" → need.name.now ≡ codes "a"
        → need.place ≡ End → unmet (found_content 99 28) need ≡ Some (Elsewhere 99) }
    ensures four_before { (need : Need) → need.area.now ≡ codes "A" → need.name.now ≡ codes "a"
        → need.place ≡ End → unmet (found_content 96 28) need ≡ Some (Elsewhere 96) }
    ensures one_less { (need : Need) → need.area.now ≡ codes "A" → need.name.now ≡ codes "a"
        → need.place ≡ End → unmet (found_content 100 27) need ≡ Some (Elsewhere 100) }
    ensures four_less { (need : Need) → need.area.now ≡ codes "A" → need.name.now ≡ codes "a"
        → need.place ≡ End → unmet (found_content 100 24) need ≡ Some (Elsewhere 100) }
{}
