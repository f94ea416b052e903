//! The required components of `--need`.

ghost use Rattle.std.specs.Path.{rsplit_once};
ghost use Rattle.std.specs.Prelude.{◌≡◌, option_map};
ghost use Rattle.check_findings.specs.Needs.{need_bytes};
ghost use Rattle.check_line.specs.CheckWords.{named_in, need_in, needed_place};

use check_findings::{Need, NeededPlace};
use flash_format::read_number;

/// Parses a number of bytes, or `end`.
#[tactic(auto, unfolding(flash_format::specs::Numbers::number_of))]
fn place_of(offset: &str) -> Option<NeededPlace>
    ensures { result ≡ needed_place offset.now }
{
    if offset == "end" {
        return Some(NeededPlace::End);
    }
    read_number(offset).map(|number| NeededPlace::At(u64::from(number)))
}

fn split_at_last<'a>(text: &'a str) -> Option<(&'a str, &'a str)>
    ensures { option_map (λ parts. (parts.0.now, parts.1.now)) result
        ≡ rsplit_once 64 text.entry.now }
{
    text.rsplit_once('@')
}

fn named_place<'a>(text: &'a str) -> Option<(&'a str, NeededPlace)>
    ensures { option_map (λ named. (named.0.now, named.1)) result ≡ named_in text.entry.now }
{
    match split_at_last(text) {
        Some((name, offset)) => Some((name, place_of(offset)?)),
        None => Some((text, NeededPlace::Any)),
    }
}

/// Parses `AREA:NAME` or `AREA:NAME@OFFSET`.
#[tactic(auto, unfolding(std::specs::Path::rsplit_once))]
pub fn need_of<'a>(text: &'a str) -> Option<Need<'a>>
    ensures { option_map need_bytes result ≡ need_in text.entry.now }
{
    let (area, rest) = text.split_once(':')?;
    let (name, place) = named_place(rest)?;
    if area.is_empty() || name.is_empty() {
        return None;
    }
    Some(Need {
        area: area.as_bytes(),
        name: name.as_bytes(),
        place,
    })
}
