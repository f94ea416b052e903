//! Errors of a command line.

ghost use Rattle.std.specs.Prelude.{◌≡◌, ◌++◌, OnOk};
ghost use Rattle.check_line.specs.Shown.{fault_text, mistake_text, nested_text};
ghost use Rattle.check_line.specs.Shown.{word_text};
ghost use Rattle.check_line.specs.declared.fault.LineFault.TheVariants.{Memory};

use quoted_text::push_shown;
use std::alloc::AllocError;

/// The mistake of an argument or an option's value.
#[derive(Clone, Copy, Debug, PartialEq, Eq)]
pub enum WordFault {
    /// An unknown option.
    UnknownOption,
    /// A third path.
    TooManyPaths,
    /// An option without its value.
    MissingValue,
    /// A value for an option without values.
    UnneededValue,
    /// An option given again; the argument completes the second.
    GivenTwice,
    /// An empty name in a list of areas.
    BadAreas,
    /// A need other than `AREA:NAME` or `AREA:NAME@OFFSET`.
    BadNeed,
}

impl WordFault {
    fn text(self) -> &'static str
        ensures { result.now ≡ mistake_text self }
    {
        match self {
            WordFault::UnknownOption => "unknown option",
            WordFault::TooManyPaths => "too many images:",
            WordFault::MissingValue => "no value for option",
            WordFault::UnneededValue => "unexpected value in",
            WordFault::GivenTwice => "an option is given twice at",
            WordFault::BadAreas => "bad list of areas",
            WordFault::BadNeed => "bad need",
        }
    }
}

/// An error of the command line.
#[derive(Clone, Copy, Debug, PartialEq, Eq)]
pub enum LineFault<'a> {
    /// A wrong argument or value.
    Word { fault: WordFault, word: &'a str },
    /// No path.
    NoImage,
    /// One path for an option which compares two images.
    NoNewImage,
    /// A line of an option file that names another option file.
    NestedFile { path: &'a str, line: &'a str },
    /// An allocation failure.
    Memory,
}

impl From<AllocError> for LineFault<'_> {
    ghost from_gives = { λ _ fault. fault ≡ Memory };

    fn from(_: AllocError) -> Self {
        LineFault::Memory
    }
}

fn push_word(out: &mut Vec<u8>, fault: WordFault, word: &str) -> Result<(), AllocError>
    ensures { OnOk result (out.new.items ≡ out.old.items
        ++ word_text fault word.now) }
{
    out.extend_from_slice(fault.text().as_bytes())?;
    out.extend_from_slice(b" '")?;
    push_shown(out, word)?;
    out.extend_from_slice(b"'")
}

fn push_nested(out: &mut Vec<u8>, path: &str, line: &str) -> Result<(), AllocError>
    ensures { OnOk result (out.new.items ≡ out.old.items ++ nested_text path.now line.now) }
{
    push_shown(out, path)?;
    out.extend_from_slice(b": option files do not nest: '")?;
    push_shown(out, line)?;
    out.extend_from_slice(b"'")
}

impl LineFault<'_> {
    /// Appends the text of an error.
    pub fn push_text(&self, out: &mut Vec<u8>) -> Result<(), AllocError>
        ensures { OnOk result (out.new.items ≡ out.old.items ++ fault_text self.now) }
    {
        match self {
            LineFault::Word { fault, word } => push_word(out, *fault, word),
            LineFault::NoImage => out.extend_from_slice(b"no image"),
            LineFault::NoNewImage => {
                out.extend_from_slice(b"--flash, --keep and --keep-preserved need two images")
            }
            LineFault::NestedFile { path, line } => push_nested(out, path, line),
            LineFault::Memory => out.extend_from_slice(b"out of memory"),
        }
    }
}
