//! The lines that explain a mistake.

ghost use Rattle.std.specs.Prelude.{◌≡◌, ◌++◌, OnOk};
ghost use lib.Chars.{codes};
ghost use Rattle.cbfs_mistakes.specs.Messages.{between, ending, explanation, meant_command, missing_text};
ghost use Rattle.cbfs_mistakes.specs.Messages.{mistake_text, named, number_text, pair, quoted, types_text};
ghost use Rattle.cbfs_mistakes.specs.Messages.{when, word_texts};
ghost use Rattle.cbfs_mistakes.specs.Synopses.{usage_of};

use crate::mistake::{MissingOptions, Mistake, NumberOption, WordFault};
use crate::suggestion::push_suggestion;
use crate::synopsis::synopsis_of;
use quoted_text::push_shown;
use std::alloc::AllocError;

const ALL_COMMANDS: &str = "\
COMMAND [OPTIONS]
commands: print layout extract add remove read write create";

/// The names of the types of components.
const TYPES: &str = ": bootblock, cbfs header, legacy stage, stage, simple elf, fit_payload, \
optionrom, bootsplash, raw, vsa, mbi, microcode, fsp, mrc, cmos_default, spd, \
mrc_cache, cmos_layout";

impl WordFault {
    /// Returns the texts before and after the argument.
    fn texts(self) -> (&'static str, &'static str)
        ensures { (result.0.now, result.1.now) ≡ word_texts self }
    {
        match self {
            WordFault::Help => ("", " is not supported: see the manual page cbfstool(1)"),
            WordFault::EarlyOption => ("", " precedes the command: options follow it"),
            WordFault::UnknownCommand => ("", " is no command"),
            WordFault::UnknownOption => ("", " is no option of this command"),
            WordFault::MissingValue => ("option ", " has no value"),
            WordFault::GivenTwice => ("option ", " is given twice"),
            WordFault::Unexpected => ("", " is not expected"),
        }
    }
}

impl NumberOption {
    fn text(self) -> &'static str
        ensures { result.now ≡ number_text self }
    {
        match self {
            NumberOption::Alignment => "-a takes a number below 2^32 such as 4096 or 0x1000, not ",
            NumberOption::Base => "-b takes a number below 2^32 such as 4096 or 0x1000, not ",
        }
    }
}

fn types_text() -> &'static str
    ensures { result.now ≡ types_text }
{
    TYPES
}

fn push_str(out: &mut Vec<u8>, text: &str) -> Result<(), AllocError>
    ensures { OnOk result (out.new.items ≡ out.old.items ++ text.now) }
{
    out.extend_from_slice(text.as_bytes())
}

/// Appends an argument in quotation marks.
fn push_quoted(out: &mut Vec<u8>, text: &str) -> Result<(), AllocError>
    ensures { OnOk result (out.new.items ≡ out.old.items ++ quoted text.now) }
{
    out.extend_from_slice(b"'")?;
    push_shown(out, text)?;
    out.extend_from_slice(b"'")
}

/// Appends a text and an argument in quotation marks.
fn push_ending(out: &mut Vec<u8>, before: &str, word: &str) -> Result<(), AllocError>
    ensures { OnOk result
        (out.new.items ≡ out.old.items ++ ending before.now word.now) }
{
    push_str(out, before)?;
    push_quoted(out, word)
}

/// Appends an argument in quotation marks between two texts.
pub fn push_between(
    out: &mut Vec<u8>,
    before: &str,
    word: &str,
    after: &str,
) -> Result<(), AllocError>
    ensures { OnOk result
        (out.new.items ≡ out.old.items ++ between before.now word.now after.now) }
{
    push_ending(out, before, word)?;
    push_str(out, after)
}

/// Appends two arguments with a text before each.
fn push_pair(
    out: &mut Vec<u8>,
    before: &str,
    first: &str,
    middle: &str,
    second: &str,
) -> Result<(), AllocError>
    ensures { OnOk result (out.new.items ≡ out.old.items
        ++ pair before.now first.now middle.now second.now) }
{
    push_str(out, before)?;
    push_shown(out, first)?;
    push_str(out, middle)?;
    push_shown(out, second)
}

/// Appends a region and a component in quotation marks, with a text between them.
pub fn push_named(
    out: &mut Vec<u8>,
    region: &str,
    middle: &str,
    name: &str,
) -> Result<(), AllocError>
    ensures { OnOk result
        (out.new.items ≡ out.old.items ++ named region.now middle.now name.now) }
{
    push_ending(out, "cbfstool: the region ", region)?;
    push_between(out, middle, name, "\n")
}

fn push_if(out: &mut Vec<u8>, given: bool, text: &str) -> Result<(), AllocError>
    ensures { OnOk result (out.new.items ≡ out.old.items ++ when given text.now) }
{
    if given {
        return push_str(out, text);
    }
    Ok(())
}

fn push_missing(out: &mut Vec<u8>, options: MissingOptions) -> Result<(), AllocError>
    ensures { OnOk result (out.new.items ≡ out.old.items ++ missing_text options) }
{
    push_if(out, options.flash_map, " -M FLASHMAP")?;
    push_if(out, options.name, " -n NAME")?;
    push_if(out, options.file, " -f FILE")?;
    push_if(out, options.kind, " -t TYPE")
}

impl Mistake<'_> {
    fn push_text(&self, out: &mut Vec<u8>) -> Result<(), AllocError>
        ensures { OnOk result (out.new.items ≡ out.old.items ++ mistake_text self.now) }
    {
        match self {
            Mistake::NoImage => push_str(out, "no arguments"),
            Mistake::NotText => push_str(out, "an argument is not UTF-8"),
            Mistake::NoCommand(image) => push_ending(out, "no command after the image ", image),
            Mistake::Swapped { image, command } => {
                let text = "the image comes before the command: cbfstool ";
                push_pair(out, text, image, " ", command)
            }
            Mistake::Word { fault, word } => {
                let (before, after) = fault.texts();
                push_between(out, before, word, after)
            }
            Mistake::Missing { command, options } => {
                push_shown(out, command)?;
                push_str(out, " needs")?;
                push_missing(out, *options)
            }
            Mistake::TwoPlaces => push_str(out, "-a and -b exclude each other"),
            Mistake::BadNumber { option, value } => push_ending(out, option.text(), value),
            Mistake::UnknownType(value) => {
                let before = "-t takes a number below 2^32 or one of these names, not ";
                push_between(out, before, value, types_text())
            }
            Mistake::UnknownHash(value) => {
                push_ending(out, "-A takes sha256 or sha512, not ", value)
            }
            Mistake::EmptyRegion(list) => push_ending(out, "-r has an empty name in ", list),
            Mistake::TooManyRegions => push_str(out, "-r takes at most 16 names"),
        }
    }
}

fn push_line(out: &mut Vec<u8>, before: &str, text: &str) -> Result<(), AllocError>
    ensures { OnOk result
        (out.new.items ≡ out.old.items ++ before.now ++ text.now ++ codes "\n") }
{
    push_str(out, before)?;
    push_str(out, text)?;
    push_str(out, "\n")
}

fn push_usage(out: &mut Vec<u8>, command: &str) -> Result<(), AllocError>
    ensures { OnOk result (out.new.items ≡ out.old.items ++ usage_of command.now) }
{
    let arguments = synopsis_of(command).unwrap_or(ALL_COMMANDS);
    push_line(out, "usage: cbfstool IMAGE ", arguments)
}

/// Returns the command of the printed usage.
fn meant_command<'a>(words: &[&'a str], mistake: &Mistake<'a>) -> &'a str
    ensures { result.now ≡ meant_command words.now mistake.now }
{
    match mistake {
        Mistake::Swapped { command, .. } => command,
        _ => words.get(1).copied().unwrap_or(""),
    }
}

/// Appends the lines that explain the mistake of the arguments: the mistake, the known command or
/// option near a wrong argument, and the usage.
pub fn push_explanation(
    out: &mut Vec<u8>,
    words: &[&str],
    mistake: &Mistake<'_>,
) -> Result<(), AllocError>
    ensures { OnOk result (out.new.items ≡ out.old.items ++ explanation words.now mistake.now) }
{
    push_str(out, "cbfstool: ")?;
    mistake.push_text(out)?;
    push_str(out, "\n")?;
    let command = meant_command(words, mistake);
    push_suggestion(out, command, mistake)?;
    push_usage(out, command)
}
