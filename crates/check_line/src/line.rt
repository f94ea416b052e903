//! Requests of a command line.

ghost use Rattle.std.specs.Prelude.{◌≡◌, ◌==◌, ◌<◌, ◌∷◌, IfOk, IfSome, Some, filter_map, length, map};
ghost use Rattle.std.specs.Option.{option_copied};
ghost use Rattle.std.specs.List.{list_any};
ghost use Rattle.clap.specs.Words.{first_of, found_of, rows_of};
ghost use Rattle.check_findings.specs.Needs.{need_bytes};
ghost use Rattle.check_line.specs.CheckWords.{Gives, IsLineOf, bad_areas, bad_need, complaint_in};
ghost use Rattle.check_line.specs.CheckWords.{is_set, need_in, parts_of, texts};

use crate::fault::{LineFault, WordFault};
use crate::need::need_of;
use check_findings::Need;
use clap::ArgMatches;
use std::alloc::{AllocError, Global};

/// A request.
#[derive(Drop)]
pub enum Invocation<'a> {
    Help,
    Version,
    Check(CheckLine<'a>),
}

/// A check of an image, or of a new image against an old.
#[derive(Drop)]
pub struct CheckLine<'a> {
    /// The path of the only or old image.
    pub image: &'a str,
    pub new_image: Option<&'a str>,
    /// The areas to check even without an entry at their start (`-r`).
    pub areas: Vec<&'a [u8]>,
    /// Reports all rows, and missing digests (`-v`).
    pub is_verbose: bool,
    /// Prints one JSON document (`--json`).
    pub is_json: bool,
    /// Lists the components of the checked areas (`--list`).
    pub lists: bool,
    /// The areas which must not change (`--keep`).
    pub kept: Vec<&'a [u8]>,
    /// Adds the areas with the flag PRESERVE (`--keep-preserved`).
    pub keeps_preserved: bool,
    /// Checks an image that is to be flashed over the old one (`--flash`).
    pub is_flash: bool,
    /// Requires all digests (`--all-hashed`).
    pub needs_hashes: bool,
    /// The required components (`--need`).
    pub needs: Vec<Need<'a>>,
}

fn names_of<'a>(alloc: Global, list: &'a str) -> Result<Vec<&'a [u8]>, AllocError>
    ensures { IfOk result (λ names. texts names.items ≡ parts_of (Some list.entry.now)) }
{
    list.as_bytes().split(|byte| *byte == b',').collect(alloc)
}

fn has_empty(names: &[&[u8]]) -> bool
    ensures { result ≡ list_any (λ name. length name == 0) (texts names.now) }
{
    names.iter().any(|name| name.is_empty())
}

/// Returns the names in an option's list. Refuses an empty name.
fn names_given<'a>(alloc: Global, list: Option<&'a str>) -> Result<Vec<&'a [u8]>, LineFault<'a>>
    ensures { Gives (bad_areas (option_copied list.entry))
        (λ names. texts names.items ≡ parts_of (option_copied list.entry)) result }
{
    let Some(list) = list else {
        return Ok(Vec::new(alloc));
    };
    let names = names_of(alloc, list)?;
    if has_empty(names.as_slice()) {
        let (fault, word) = (WordFault::BadAreas, list);
        return Err(LineFault::Word { fault, word });
    }
    Ok(names)
}

fn first_part<'a>(list: &'a str) -> (&'a str, Option<&'a str>)
    ensures parts { parts_of (Some list.entry.now)
        ≡ result.0.now ∷ parts_of (option_copied result.1) }
    ensures shorter { IfSome result.1 (λ rest. length rest.now < length list.entry.now) }
{
    match list.split_once(',') {
        Some((part, rest)) => (part, Some(rest)),
        None => (list, None),
    }
}

/// Returns the needs in an option's list. Refuses the first bad part.
fn needs_given<'a>(alloc: Global, list: Option<&'a str>) -> Result<Vec<Need<'a>>, LineFault<'a>>
    ensures { Gives (bad_need (option_copied list.entry)) (λ needs. map need_bytes needs.items
        ≡ filter_map need_in (parts_of (option_copied list.entry))) result }
{
    let mut needs = Vec::new(alloc);
    let mut rest = list;
    while let Some(parts) = rest {
        let (word, others) = first_part(parts);
        let Some(need) = need_of(word) else {
            let fault = WordFault::BadNeed;
            return Err(LineFault::Word { fault, word });
        };
        if needs.push(need).is_err() {
            return Err(LineFault::Memory);
        }
        rest = others;
    }
    Ok(needs)
}

fn text<'a>(matches: &ArgMatches<'a>, id: &str) -> Option<&'a str>
    ensures { option_copied result ≡ first_of id.now (rows_of (found_of matches.now)) }
{
    matches.get_str(id)
}

fn is_set(matches: &ArgMatches<'_>, id: &str) -> bool
    ensures { result ≡ is_set (first_of id.now (rows_of (found_of matches.now))) }
{
    text(matches, id).is_some_and(|text| text == "true")
}

/// Returns the check of clap's matches. Refuses missing images and bad lists.
pub fn line_of<'a>(alloc: Global, matches: &ArgMatches<'a>) -> Result<CheckLine<'a>, LineFault<'a>>
    ensures { Gives (complaint_in (rows_of (found_of matches.now)))
        (IsLineOf (rows_of (found_of matches.now))) result }
{
    let (new_image, keep) = (text(matches, "new"), text(matches, "keep"));
    let keeps_preserved = is_set(matches, "keep-preserved");
    let is_flash = is_set(matches, "flash");
    let Some(image) = text(matches, "image") else {
        return Err(LineFault::NoImage);
    };
    if (keep.is_some() || keeps_preserved || is_flash) && new_image.is_none() {
        return Err(LineFault::NoNewImage);
    }
    Ok(CheckLine {
        image,
        new_image,
        areas: names_given(alloc, text(matches, "areas"))?,
        is_verbose: is_set(matches, "verbose"),
        is_json: is_set(matches, "json"),
        lists: is_set(matches, "list"),
        kept: names_given(alloc, keep)?,
        keeps_preserved,
        is_flash,
        needs_hashes: is_set(matches, "all-hashed"),
        needs: needs_given(alloc, text(matches, "need"))?,
    })
}
