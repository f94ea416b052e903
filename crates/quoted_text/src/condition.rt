//! When a refusal is explained.

ghost use Rattle.std.specs.Prelude.{◌≡◌};
ghost use Rattle.std.specs.Option.{option_copied};
ghost use Rattle.quoted_text.specs.Explanations.{is_explained};

/// Returns true if the lines after a refusal are printed: standard error is a terminal, or the
/// variable `CBFSTOOL_EXPLAIN` of the environment is `1`.
pub fn is_explained(is_terminal: bool, variable: Option<&str>) -> bool
    ensures { result ≡ is_explained is_terminal (option_copied variable.entry) }
{
    is_terminal || variable.is_some_and(|value| value == "1")
}
