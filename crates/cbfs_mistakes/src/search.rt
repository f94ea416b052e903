//! The mistake of a command line, and the wrong argument of a line that clap refuses.

ghost use Rattle.std.specs.Prelude.{◌≡◌, ◌≢◌, IfOk, IfSome, MatchBool, is_err, is_some};
ghost use Rattle.cbfs_line.specs.CommandLine.{command_in};
ghost use Rattle.cbfs_mistakes.specs.Mistakes.{IsMistake, IsRefusal};
ghost use Rattle.cbfs_mistakes.specs.Synopses.{is_command};
ghost use Rattle.cbfs_mistakes.specs.WrongWords.{commandless, AreSearched, IsRefusedFor, IsWrong, Spares};
ghost use Rattle.cbfs_mistakes.specs.WrongWords.{is_option, option_at, texts, unknown, word_mistake};

use crate::line::line_mistake;
use crate::mistake::{Mistake, WordFault};
use crate::synopsis::is_command;
use cbfs_line::{read_line, refused_kind};
use clap::error::ErrorKind;
use std::alloc::{AllocError, Global};

/// Returns true if clap refuses the arguments after IMAGE with the kind.
fn refuses<'a>(alloc: Global, words: &'a [&'a str], kind: ErrorKind) -> Result<bool, AllocError>
    ensures { IfOk result (λ answer. MatchBool answer (IsRefusedFor kind words.entry.now)
        (Spares kind words.entry.now)) }
{
    match refused_kind(alloc, words)? {
        None => Ok(false),
        Some(other) => Ok(other == kind),
    }
}

/// The number of arguments among which the wrong argument is sought. A line with more than 16
/// arguments has a wrong argument among the first 17, since each option is accepted once.
const SEARCHED: usize = 64;

/// Returns the first arguments if clap refuses them with the error `kind`, or else all arguments.
fn searched<'a>(
    alloc: Global,
    words: &'a [&'a str],
    kind: ErrorKind,
) -> Result<&'a [&'a str], AllocError>
    requires { IsRefusedFor kind words.now }
    ensures { IfOk result (λ first. AreSearched kind words.entry.now first.now) }
{
    if words.len() <= SEARCHED {
        return Ok(words);
    }
    let first = &words[..SEARCHED];
    if refuses(alloc, first, kind)? {
        return Ok(first);
    }
    Ok(words)
}

/// The preceding argument, if any, and an argument.
type Place<'a> = (Option<&'a str>, &'a str);

/// Returns the first argument from which on clap refuses with the kind.
fn wrong_word<'a>(
    alloc: Global,
    words: &'a [&'a str],
    kind: ErrorKind,
) -> Result<Place<'a>, AllocError>
    requires refused { IsRefusedFor kind words.now }
    requires named { kind ≢ ErrorKind.MissingSubcommand }
    ensures { IfOk result (λ place. IsWrong kind words.entry.now place.0 place.1) }
{
    let mut n = words.len() - 1;
    while n > 0 && refuses(alloc, &words[..n], kind)? {
        n -= 1;
    }
    if n == 0 {
        return Ok((None, words[n]));
    }
    Ok((Some(words[n - 1]), words[n]))
}

fn is_option(word: &str) -> bool
    ensures { result ≡ is_option word.now }
{
    word.starts_with('-') && word.len() > 1
}

fn commandless<'a>(image: &'a str) -> Mistake<'a>
    ensures { result ≡ commandless image.entry }
{
    if is_option(image) {
        let (fault, word) = (WordFault::EarlyOption, image);
        return Mistake::Word { fault, word };
    }
    Mistake::NoCommand(image)
}

fn unknown<'a>(image: &'a str, before: Option<&'a str>, word: &'a str) -> Mistake<'a>
    ensures { result ≡ unknown image.entry before.entry word.entry }
{
    let fault = match before {
        None if is_option(word) => WordFault::EarlyOption,
        None if is_option(image) => {
            let (fault, word) = (WordFault::EarlyOption, image);
            return Mistake::Word { fault, word };
        }
        None if is_command(image) => {
            let (image, command) = (word, image);
            return Mistake::Swapped { image, command };
        }
        None => WordFault::UnknownCommand,
        Some(_) if is_option(word) => WordFault::UnknownOption,
        Some(_) => WordFault::Unexpected,
    };
    Mistake::Word { fault, word }
}

fn option_at<'a>(before: Option<&'a str>, word: &'a str) -> &'a str
    ensures { result ≡ option_at before.entry word.entry }
{
    match before {
        Some(option) if !is_option(word) => option,
        _ => word,
    }
}

fn word_mistake<'a>(
    kind: ErrorKind,
    image: &'a str,
    before: Option<&'a str>,
    word: &'a str,
) -> Mistake<'a>
    ensures { result ≡ word_mistake kind image.entry before.entry word.entry }
{
    match kind {
        ErrorKind::DisplayHelp => {
            let fault = WordFault::Help;
            Mistake::Word { fault, word }
        }
        ErrorKind::InvalidValue => {
            let fault = WordFault::MissingValue;
            Mistake::Word { fault, word }
        }
        ErrorKind::ArgumentConflict => {
            let (fault, word) = (WordFault::GivenTwice, option_at(before, word));
            Mistake::Word { fault, word }
        }
        _ => unknown(image, before, word),
    }
}

/// Returns the mistake of arguments that clap refuses with the kind.
fn refusal<'a>(
    alloc: Global,
    image: &'a str,
    words: &'a [&'a str],
    kind: ErrorKind,
) -> Result<Mistake<'a>, AllocError>
    requires { IsRefusedFor kind words.now }
    ensures { IfOk result (IsRefusal image.entry words.entry.now) }
{
    if kind == ErrorKind::MissingSubcommand {
        return Ok(commandless(image));
    }
    let first = searched(alloc, words, kind)?;
    let (before, word) = wrong_word(alloc, first, kind)?;
    Ok(word_mistake(kind, image, before, word))
}

/// Returns the mistake of the arguments after the program's name, or None if they are a command.
/// The first mistake is reported: a wrong argument, then all missing options, then a bad value.
pub fn find_mistake<'a>(
    alloc: Global,
    words: &'a [&'a str],
) -> Result<Option<Mistake<'a>>, AllocError>
    ensures exact { IfOk result (λ found.
        is_some found ≡ is_err (command_in (texts words.entry.now))) }
    ensures cause { IfOk result (λ found. IfSome found (IsMistake words.entry.now)) }
{
    let Some((image, rest)) = words.split_first() else {
        return Ok(Some(Mistake::NoImage));
    };
    if let Some(kind) = refused_kind(alloc, rest)? {
        return Ok(Some(refusal(alloc, image, rest, kind)?));
    }
    match read_line(alloc, words) {
        Ok(line) => line_mistake(alloc, &line),
        Err(_) => Err(AllocError),
    }
}
