//! The arguments: IMAGE and options, in any order.
ghost use Rattle.std.specs.Prelude.{◌≡◌, ◌++◌, count_by, filter, not};
ghost use Rattle.std.specs.List.{find, list_all};
ghost use Rattle.std.specs.Str.{bytes_eq};
ghost use Rattle.seal_line.specs.SealWords.{after_end, before_end, has_known_options, invocation_of};
ghost use Rattle.seal_line.specs.SealWords.{is_known, is_option, only, request_in};

use crate::refusal::Refusal;
use cbfs_anchor::Demand;

/// The arguments of a seal.
#[derive(Clone, Copy)]
pub struct SealLine<'a> {
    /// The path of the image.
    pub image: &'a str,
    /// Prints both digests (`-v`).
    pub is_verbose: bool,
    /// `Loaded`, or `Found` with `--allow-unhashed`.
    pub demand: Demand,
}

/// What the arguments ask for.
#[derive(Clone, Copy)]
pub enum Invocation<'a> {
    /// No arguments: the usage, with the status of a bad command line.
    Usage,
    Help,
    Version,
    Seal(SealLine<'a>),
}

/// Returns the arguments before and after the first `--`, which ends the options.
fn split_at_end<'a>(words: &'a [&'a str]) -> (&'a [&'a str], &'a [&'a str])
    ensures before { result.0.now ≡ before_end words.entry.now }
    ensures after { result.1.now ≡ after_end words.entry.now }
{
    match words.iter().position(|word| *word == "--") {
        Some(n) => (&words[..n], &words[n + 1..]),
        None => (words, &[]),
    }
}

/// Returns the first argument for the help or the version.
fn request_in<'a>(words: &'a [&'a str]) -> Option<&'a str>
    ensures { result ≡ request_in words.entry.now }
{
    words
        .iter()
        .copied()
        .find(|word| matches!(*word, "-h" | "--help" | "--version"))
}

fn is_option(word: &str) -> bool
    ensures { result ≡ is_option word.now }
{
    word.starts_with('-') && word.len() > 1
}

fn is_known(word: &str) -> bool
    ensures { result ≡ is_known word.now }
{
    !is_option(word) || word == "-v" || word == "--allow-unhashed"
}

/// Returns how often an option is given.
fn uses(words: &[&str], option: &str) -> usize
    ensures { result ≡ count_by (λ word. bytes_eq word.now option.now) words.now }
{
    words.iter().filter(|word| **word == option).count()
}

fn are_known(words: &[&str]) -> bool
    ensures { result ≡ list_all (λ word. is_known word.now) words.now }
{
    words.iter().all(|word| is_known(word))
}

/// Returns true if all options are known, and none is given twice.
fn has_known_options(words: &[&str]) -> bool
    ensures { result ≡ has_known_options words.now }
{
    are_known(words) && uses(words, "-v") < 2 && uses(words, "--allow-unhashed") < 2
}

fn count_paths(words: &[&str]) -> usize
    ensures { result ≡ count_by (λ word. not (is_option word.now)) words.now }
{
    words.iter().filter(|word| !is_option(word)).count()
}

fn first_path<'a>(words: &'a [&'a str]) -> Option<&'a str>
    ensures { result ≡ find (λ word. not (is_option word.now)) words.entry.now }
{
    words.iter().copied().find(|word| !is_option(word))
}

/// Returns the only path: of the arguments before `--` those that are no options, and all after it.
fn only_path<'a>(before: &'a [&'a str], after: &'a [&'a str]) -> Option<&'a str>
    ensures { result ≡ only (filter (λ word. not (is_option word.now)) before.entry.now
        ++ after.entry.now) }
{
    if count_paths(before).saturating_add(after.len()) != 1 {
        return None;
    }
    match (first_path(before), after) {
        (Some(path), _) => Some(path),
        (None, [path, ..]) => Some(path),
        (None, []) => None,
    }
}

/// Parses the arguments after the program's name. The first `-h`, `--help` or `--version` before
/// `--` decides. Refuses an unknown or repeated option, and no path or more than one.
pub fn read_seal<'a>(words: &'a [&'a str]) -> Result<Invocation<'a>, Refusal>
    ensures { result ≡ invocation_of words.entry.now }
{
    if words.is_empty() {
        return Ok(Invocation::Usage);
    }
    let (before, after) = split_at_end(words);
    match request_in(before) {
        Some(word) if word == "--version" => return Ok(Invocation::Version),
        Some(_) => return Ok(Invocation::Help),
        None => {}
    }
    if !has_known_options(before) {
        return Err(Refusal::Usage);
    }
    let Some(image) = only_path(before, after) else {
        return Err(Refusal::Usage);
    };
    let demand = if uses(before, "--allow-unhashed") == 1 {
        Demand::Found
    } else {
        Demand::Loaded
    };
    Ok(Invocation::Seal(SealLine {
        image,
        is_verbose: uses(before, "-v") == 1,
        demand,
    }))
}
