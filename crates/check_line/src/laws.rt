//! Laws about needs and option files, as the contracts of functions without effect.

ghost use Rattle.std.specs.Prelude.{◌≡◌, ◌∷◌, [], None, Some};
ghost use lib.Chars.{codes};
ghost use Rattle.check_findings.specs.declared.image.needs.NeededPlace.TheVariants.{Any, At, End};
ghost use Rattle.check_line.specs.CheckWords.{need_in};
ghost use Rattle.check_line.specs.OptionFiles.{nested_line, path_of, words_in};

/// In a need, the first colon ends the area, and the last `@` begins the place.
pub fn needs_are_split()
    ensures last_at { need_in (codes "A:a@b@28") ≡ Some (record {
      area = codes "A";
      name = codes "a@b";
      place = At 28;
    }) }
    ensures first_colon { need_in (codes "A:a:b") ≡ Some (record {
      area = codes "A";
      name = codes "a:b";
      place = Any;
    }) }
    ensures both { need_in (codes "A:a:b@c:d@0x1c") ≡ Some (record {
      area = codes "A";
      name = codes "a:b@c:d";
      place = At 28;
    }) }
    ensures end { need_in (codes "A:end@end") ≡ Some (record {
      area = codes "A";
      name = codes "end";
      place = End;
    }) }
    ensures no_place { need_in (codes "A:a@b") ≡ None }
{}

/// A line of an option file is an option, or an option and its value. Other lines are comments and
/// empty lines.
pub fn options_are_split()
    ensures option { words_in (codes "--all-hashed\n") ≡ codes "--all-hashed" ∷ [] }
    ensures value { words_in (codes "-r COREBOOT") ≡ codes "-r" ∷ codes "COREBOOT" ∷ [] }
    ensures rest_of_line { words_in (codes "--keep A B") ≡ codes "--keep" ∷ codes "A B" ∷ [] }
    ensures tabs { words_in (codes "\t--keep \t A\t\n") ≡ codes "--keep" ∷ codes "A" ∷ [] }
    ensures carriage_returns { words_in (codes "-v\r\n--list\r\n")
        ≡ codes "-v" ∷ codes "--list" ∷ [] }
    ensures comments { words_in (codes "# -v\n\n  # -r A\n--list") ≡ codes "--list" ∷ [] }
    ensures no_option { words_in (codes "\n \r\n# -v") ≡ [] }
    ensures nested { nested_line (codes "-v\n @a b\n@c") ≡ Some (codes "@a b") }
    ensures not_nested { nested_line (codes "--keep @a\n# @b") ≡ None }
    ensures path { path_of (codes "@a") ≡ Some (codes "a") }
    ensures no_path { path_of (codes "./@a") ≡ None }
{}
