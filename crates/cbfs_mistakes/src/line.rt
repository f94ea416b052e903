//! The mistake of a line whose arguments clap accepts.

ghost use Rattle.std.specs.Prelude.{◌≡◌, ◌==◌, IfOk, is_none, length, map, option_and_then};
ghost use Rattle.std.specs.List.{list_any, slice_split};
ghost use Rattle.clap.specs.Words.{first_of};
ghost use Rattle.cbfs_line.specs.CommandLine.{text};
ghost use Rattle.cbfs_mistakes.specs.Lines.{addition_cause, cause_of, creation_cause, file_cause};
ghost use Rattle.cbfs_mistakes.specs.Lines.{hash_cause, missing_among, name_cause};
ghost use Rattle.cbfs_mistakes.specs.Lines.{named_file_cause, number_cause, place_cause};
ghost use Rattle.cbfs_mistakes.specs.Lines.{regions_cause, type_cause};
ghost use Rattle.cbfs_mistakes.specs.Mistakes.{Names};

use crate::mistake::{MissingOptions, Mistake, NumberOption, WordFault};
use cbfs_line::Line;
use cbfs_requests::MOST_REGIONS;
use flash_format::{Algorithm, read_number, type_number};
use std::alloc::{AllocError, Global};

const NO_OPTIONS: MissingOptions = MissingOptions {
    name: false,
    file: false,
    flash_map: false,
    kind: false,
};

fn lacks(line: &Line<'_>, id: &str) -> bool
    ensures { result ≡ is_none (first_of id.now line.now.options) }
{
    line.option(id).is_none()
}

fn missing<'a>(line: &Line<'a>, options: MissingOptions) -> Option<Mistake<'a>>
    ensures { Names (missing_among line.now options) result }
{
    let MissingOptions {
        name,
        file,
        flash_map,
        kind,
    } = options;
    if !(name || file || flash_map || kind) {
        return None;
    }
    let command = line.subcommand();
    Some(Mistake::Missing { command, options })
}

fn number_mistake<'a>(option: NumberOption, value: &'a str) -> Option<Mistake<'a>>
    ensures { Names (number_cause option value.entry.now) result }
{
    match read_number(value) {
        Some(_) => None,
        None => Some(Mistake::BadNumber { option, value }),
    }
}

fn place_mistake<'a>(line: &Line<'a>) -> Option<Mistake<'a>>
    ensures { Names (place_cause (text line.now "alignment") (text line.now "base")) result }
{
    match (line.option("alignment"), line.option("base")) {
        (None, None) => None,
        (Some(value), None) => number_mistake(NumberOption::Alignment, value),
        (None, Some(value)) => number_mistake(NumberOption::Base, value),
        (Some(_), Some(_)) => Some(Mistake::TwoPlaces),
    }
}

fn type_mistake<'a>(line: &Line<'a>) -> Option<Mistake<'a>>
    ensures { Names (option_and_then type_cause (text line.now "type")) result }
{
    let value = line.option("type")?;
    match type_number(value) {
        Some(_) => None,
        None => Some(Mistake::UnknownType(value)),
    }
}

fn hash_mistake<'a>(line: &Line<'a>) -> Option<Mistake<'a>>
    ensures { Names (option_and_then hash_cause (text line.now "hash")) result }
{
    let value = line.option("hash")?;
    match Algorithm::named(value) {
        Some(_) => None,
        None => Some(Mistake::UnknownHash(value)),
    }
}

/// Returns the names in an option's list.
fn names_of<'a>(alloc: Global, list: &'a str) -> Result<Vec<&'a [u8]>, AllocError>
    ensures { IfOk result (λ names. map (λ name. name.now) names.items
        ≡ slice_split (λ b. b == 44) list.entry.now) }
{
    list.as_bytes().split(|byte| *byte == b',').collect(alloc)
}

fn has_empty(names: &[&[u8]]) -> bool
    ensures { result
        ≡ list_any (λ name. length name == 0) (map (λ name. name.now) names.now) }
{
    names.iter().any(|name| name.is_empty())
}

fn regions_mistake<'a>(alloc: Global, list: &'a str) -> Result<Option<Mistake<'a>>, AllocError>
    ensures { IfOk result (Names (regions_cause list.entry.now)) }
{
    let names = names_of(alloc, list)?;
    if names.len() > MOST_REGIONS {
        return Ok(Some(Mistake::TooManyRegions));
    }
    if has_empty(names.as_slice()) {
        return Ok(Some(Mistake::EmptyRegion(list)));
    }
    Ok(None)
}

fn creation_mistake<'a>(alloc: Global, line: &Line<'a>) -> Result<Option<Mistake<'a>>, AllocError>
    ensures { IfOk result (Names (creation_cause line.now)) }
{
    let flash_map = lacks(line, "file");
    let missing = missing(
        line,
        MissingOptions {
            flash_map,
            ..NO_OPTIONS
        },
    );
    Ok(missing.or(regions_mistake(alloc, line.regions())?))
}

fn addition_mistake<'a>(line: &Line<'a>) -> Option<Mistake<'a>>
    ensures { Names (addition_cause line.now) result }
{
    let options = MissingOptions {
        name: lacks(line, "name"),
        file: lacks(line, "file"),
        kind: lacks(line, "type"),
        ..NO_OPTIONS
    };
    missing(line, options)
        .or(type_mistake(line))
        .or(place_mistake(line))
        .or(hash_mistake(line))
}

fn name_mistake<'a>(line: &Line<'a>) -> Option<Mistake<'a>>
    ensures { Names (name_cause line.now) result }
{
    let name = lacks(line, "name");
    missing(line, MissingOptions { name, ..NO_OPTIONS })
}

fn file_mistake<'a>(line: &Line<'a>) -> Option<Mistake<'a>>
    ensures { Names (file_cause line.now) result }
{
    let file = lacks(line, "file");
    missing(line, MissingOptions { file, ..NO_OPTIONS })
}

fn named_file_mistake<'a>(line: &Line<'a>) -> Option<Mistake<'a>>
    ensures { Names (named_file_cause line.now) result }
{
    let (name, file) = (lacks(line, "name"), lacks(line, "file"));
    missing(
        line,
        MissingOptions {
            name,
            file,
            ..NO_OPTIONS
        },
    )
}

/// Returns the first mistake of a line, or None for a command.
pub fn line_mistake<'a>(alloc: Global, line: &Line<'a>) -> Result<Option<Mistake<'a>>, AllocError>
    ensures { IfOk result (Names (cause_of line.now)) }
{
    match line.subcommand() {
        "print" => Ok(None),
        "layout" => Ok(None),
        "extract" => Ok(named_file_mistake(line)),
        "add" => Ok(addition_mistake(line)),
        "remove" => Ok(name_mistake(line)),
        "read" => Ok(file_mistake(line)),
        "write" => Ok(file_mistake(line)),
        "create" => creation_mistake(alloc, line),
        word => {
            let fault = WordFault::UnknownCommand;
            Ok(Some(Mistake::Word { fault, word }))
        }
    }
}
