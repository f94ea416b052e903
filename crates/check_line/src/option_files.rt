//! Option files: an argument `@PATH` stands for the arguments in the file.

ghost use Rattle.std.specs.Prelude.{◌≡◌, ◌++◌, ◌<◌, ◌∷◌, [], IfSome, None, OnOk, Some, length};
ghost use Rattle.std.specs.Prelude.{if◌then◌else◌, option_map};
ghost use Rattle.std.specs.List.{flat_map, position};
ghost use Rattle.std.specs.Option.{option_copied, option_map_or};
ghost use Rattle.check_line.specs.CheckWords.{Gives, nested, texts};
ghost use Rattle.check_line.specs.OptionFiles.{first_nested, is_blank, lines_of, names_file};
ghost use Rattle.check_line.specs.OptionFiles.{nested_in, nested_line, option_words, path_of};
ghost use Rattle.check_line.specs.OptionFiles.{words_for, words_in, words_in_line};

use crate::fault::LineFault;
use std::alloc::{AllocError, Global};

/// An argument after the program's name.
#[derive(Drop)]
pub enum Argument<'a> {
    /// An argument that stands for itself.
    Word(&'a str),
    /// An argument `@PATH`, with the text of the file.
    File { path: &'a str, text: String },
}

/// Returns the path, if an argument is `@PATH`.
pub fn option_file<'a>(word: &'a str) -> Option<&'a str>
    ensures { option_copied result ≡ path_of word.entry.now }
{
    word.strip_prefix('@')
}

/// Returns the first line without white space at its start and end, and the text after its line
/// feed.
fn first_line<'a>(text: &'a str) -> (&'a str, Option<&'a str>)
    ensures lines { lines_of text.entry.now
        ≡ result.0.now ∷ option_map_or lines_of (option_copied result.1) [] }
    ensures shorter { IfSome result.1 (λ rest. length rest.now < length text.entry.now) }
{
    match text.split_once('\n') {
        Some((line, rest)) => (line.trim(), Some(rest)),
        None => (text.trim(), None),
    }
}

/// Returns the number of bytes before the first blank.
fn first_blank(line: &str) -> Option<usize>
    ensures { result ≡ position is_blank line.now }
{
    line.as_bytes()
        .iter()
        .position(|byte| *byte == b' ' || *byte == b'\t')
}

/// Appends the option of a line, and its value after blanks.
fn push_option<'a>(words: &mut Vec<&'a str>, line: &'a str) -> Result<(), AllocError>
    ensures { OnOk result (texts words.new.items
        ≡ texts words.old.items ++ option_words line.entry.now) }
{
    let Some(n) = first_blank(line) else {
        words.push(line)?;
        return Ok(());
    };
    let (option, value) = line.split_at(n);
    words.push(option)?;
    words.push(value.trim_start())?;
    Ok(())
}

/// Appends the arguments in a line. Refuses a line that names another option file.
fn push_line<'a>(
    words: &mut Vec<&'a str>,
    path: &'a str,
    line: &'a str,
) -> Result<(), LineFault<'a>>
    ensures { Gives
        (if names_file line.entry.now then Some (nested path.entry.now line.entry.now) else None)
        (λ _. texts words.new.items ≡ texts words.old.items ++ words_in_line line.entry.now)
        result }
{
    if line.starts_with('@') {
        return Err(LineFault::NestedFile { path, line });
    }
    if line.is_empty() || line.starts_with('#') {
        return Ok(());
    }
    push_option(words, line)?;
    Ok(())
}

/// Appends the arguments in a text. Refuses the first line that names another option file.
fn push_words<'a>(
    words: &mut Vec<&'a str>,
    path: &'a str,
    text: &'a str,
) -> Result<(), LineFault<'a>>
    ensures { Gives (option_map (nested path.entry.now) (nested_line text.entry.now))
        (λ _. texts words.new.items ≡ texts words.old.items ++ words_in text.entry.now) result }
{
    let mut rest = Some(text);
    while let Some(lines) = rest {
        let (line, others) = first_line(lines);
        push_line(words, path, line)?;
        rest = others;
    }
    Ok(())
}

/// Appends what stands for an argument: itself, or the arguments in its file.
fn push_argument<'a>(
    words: &mut Vec<&'a str>,
    argument: &'a Argument<'a>,
) -> Result<(), LineFault<'a>>
    ensures { Gives (nested_in argument.entry.now) (λ _. texts words.new.items
        ≡ texts words.old.items ++ words_for argument.entry.now) result }
{
    match argument {
        Argument::Word(word) => {
            if words.push(word).is_err() {
                return Err(LineFault::Memory);
            }
            Ok(())
        }
        Argument::File { path, text } => push_words(words, path, text.as_str()),
    }
}

/// Returns the arguments, with those in its file for each argument `@PATH`. Refuses the first line
/// of a file that names another option file.
pub fn whole_line<'a>(
    alloc: Global,
    arguments: &'a [Argument<'a>],
) -> Result<Vec<&'a str>, LineFault<'a>>
    ensures { Gives (first_nested arguments.entry.now)
        (λ words. texts words.items ≡ flat_map words_for arguments.entry.now) result }
{
    let mut words = Vec::new(alloc);
    for argument in arguments {
        push_argument(&mut words, argument)?;
    }
    Ok(words)
}
