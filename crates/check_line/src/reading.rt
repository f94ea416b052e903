//! Parses the arguments, and finds the wrong argument.

ghost use Rattle.std.specs.Prelude.{◌≡◌, ◌⊎◌, IfOk, MatchBool, MatchResult};
ghost use Rattle.clap.specs.Words.{found_of, matches_of, rows_of};
ghost use Rattle.clap.specs.declared.error.kind.ErrorKind.TheVariants.{OutOfMemory};
ghost use Rattle.check_line.specs.CheckWords.{Answers, IsAccepted, IsRefusedFor, IsWrong, Spares};
ghost use Rattle.check_line.specs.CheckWords.{AreSearched, check_words, request_in, texts};
ghost use Rattle.check_line.specs.CheckWords.{word_fault};

use crate::fault::{LineFault, WordFault};
use crate::line::{Invocation, line_of};
use crate::words::whole_command;
use clap::ArgMatches;
use clap::error::ErrorKind;
use std::alloc::{AllocError, Global};

/// Returns the first argument before `--` for the help or the version.
fn request_in<'a>(words: &'a [&'a str]) -> Option<&'a str>
    ensures { result ≡ request_in words.entry.now }
{
    words
        .iter()
        .copied()
        .take_while(|word| *word != "--")
        .find(|word| matches!(*word, "-h" | "--help" | "--version"))
}

/// Returns clap's matches, or the kind of its error.
fn parse<'a>(alloc: Global, words: &'a [&'a str]) -> Result<ArgMatches<'a>, ErrorKind>
    ensures { MatchResult result (λ matches. IsAccepted words.entry.now
        × (rows_of (found_of matches) ≡ matches_of check_words (texts words.entry.now)))
        (λ kind. (kind ≡ OutOfMemory) ⊎ IsRefusedFor kind words.entry.now) }
{
    let Ok(command) = whole_command(alloc) else {
        return Err(ErrorKind::OutOfMemory);
    };
    match command.try_get_matches_from(words) {
        Ok(matches) => Ok(matches),
        Err(error) => Err(error.kind()),
    }
}

/// Returns true if clap refuses the arguments with the kind.
fn refuses<'a>(alloc: Global, words: &'a [&'a str], kind: ErrorKind) -> Result<bool, AllocError>
    ensures { IfOk result (λ answer. MatchBool answer (IsRefusedFor kind words.entry.now)
        (Spares kind words.entry.now)) }
{
    match parse(alloc, words) {
        Ok(_matches) => Ok(false),
        Err(ErrorKind::OutOfMemory) => Err(AllocError),
        Err(other) => Ok(other == kind),
    }
}

/// The number of arguments among which the wrong one is sought. A line with more than 16 has a
/// wrong one among its first 17, since each option is accepted once.
const SEARCHED: usize = 64;

/// Returns the first arguments if clap refuses these with the kind, or else all.
fn searched<'a>(
    alloc: Global,
    words: &'a [&'a str],
    kind: ErrorKind,
) -> Result<&'a [&'a str], AllocError>
    requires { IsRefusedFor kind words.now }
    ensures { IfOk result (λ first. AreSearched kind words.entry.now first.now) }
{
    if words.len() <= SEARCHED {
        return Ok(words);
    }
    let first = &words[..SEARCHED];
    if refuses(alloc, first, kind)? {
        return Ok(first);
    }
    Ok(words)
}

/// Returns the first argument from which on clap refuses with the kind.
fn wrong_word<'a>(
    alloc: Global,
    words: &'a [&'a str],
    kind: ErrorKind,
) -> Result<&'a str, AllocError>
    requires { IsRefusedFor kind words.now }
    ensures { IfOk result (λ word. IsWrong kind words.entry.now word) }
{
    let mut n = words.len() - 1;
    while n > 0 && refuses(alloc, &words[..n], kind)? {
        n -= 1;
    }
    Ok(words[n])
}

fn word_fault(kind: ErrorKind, word: &str) -> WordFault
    ensures { result ≡ word_fault kind word.now }
{
    match kind {
        ErrorKind::InvalidValue => WordFault::MissingValue,
        ErrorKind::TooManyValues => WordFault::UnneededValue,
        ErrorKind::ArgumentConflict => WordFault::GivenTwice,
        _ if word.starts_with('-') && word.len() > 1 => WordFault::UnknownOption,
        _ => WordFault::TooManyPaths,
    }
}

/// Parses the arguments after the program's name: IMAGE, or OLD and NEW, and options, in any order.
/// The first `-h`, `--help` or `--version` before `--` decides.
pub fn read_check<'a>(alloc: Global, words: &'a [&'a str]) -> Result<Invocation<'a>, LineFault<'a>>
    ensures { Answers words.entry.now result }
{
    match request_in(words) {
        Some(word) if word == "--version" => return Ok(Invocation::Version),
        Some(_) => return Ok(Invocation::Help),
        None => {}
    }
    match parse(alloc, words) {
        Ok(matches) => Ok(Invocation::Check(line_of(alloc, &matches)?)),
        Err(ErrorKind::OutOfMemory) => Err(LineFault::Memory),
        Err(ErrorKind::DisplayHelp) => Ok(Invocation::Help),
        Err(kind) => {
            let words = searched(alloc, words, kind)?;
            let word = wrong_word(alloc, words, kind)?;
            let fault = word_fault(kind, word);
            Err(LineFault::Word { fault, word })
        }
    }
}
