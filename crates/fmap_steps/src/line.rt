//! The arguments: INPUT and OUTPUT.
ghost use Rattle.std.specs.Prelude.{◌≡◌};
ghost use Rattle.fmap_steps.specs.Steps.{invocation_of};

use crate::failure::Failure;

/// What the arguments ask for.
#[derive(Clone, Copy, Debug, PartialEq, Eq)]
pub enum Invocation<'a> {
    /// No arguments: prints the usage.
    Usage,
    /// Compiles the descriptor of a file into a table in another file.
    Compile { input: &'a str, output: &'a str },
}

/// Parses the arguments after the program's name: none, or two paths. The error is `Usage`.
pub fn read_words<'a>(words: &'a [&'a str]) -> Result<Invocation<'a>, Failure>
    ensures { result ≡ invocation_of words.entry.now }
{
    match words {
        [] => Ok(Invocation::Usage),
        [input, output] => Ok(Invocation::Compile { input, output }),
        _ => Err(Failure::Usage),
    }
}
