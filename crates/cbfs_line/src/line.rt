//! The command line: IMAGE, a subcommand, and its options.

ghost use Rattle.std.specs.Prelude.{◌≡◌, ◌≢◌, ◌<◌, ◌⊎◌, [], ◌∷◌, length, Some, IfSome, IfOk, IfErr};
ghost use Rattle.std.specs.Prelude.{drop, map, option_map, true, ◌==◌};
ghost use Rattle.std.specs.List.{slice_split};
ghost use Rattle.std.specs.Option.{option_map_or};
ghost use Rattle.clap.specs.Words.{fault_of, first_of, has_subcommand, subcommand_rows_of};
ghost use Rattle.cbfs_line.specs.Subcommands.{command_line};
ghost use Rattle.cbfs_line.specs.CommandLine.{IsKindFor, addition, command_of, creation_of, hash_by};
ghost use Rattle.cbfs_line.specs.CommandLine.{request_answer, spot_by};
ghost use Rattle.cbfs_line.specs.CommandLine.{region_named, text, texts_of, verbose_by, with_file, with_image};

use crate::words::whole_command;
use arrayvec::ArrayVec;
use cbfs_edit::{HashChoice, Spot};
use cbfs_requests::{Command, MOST_REGIONS, Refusal};
use clap::ArgMatches;
use clap::error::ErrorKind;
use flash_format::{Algorithm, read_number, type_number};
use std::alloc::{AllocError, Global};
use std::marker::Model;

/// The default region.
const DEFAULT_REGION: &str = "COREBOOT";

/// A parsed command line.
#[derive(Drop)]
pub struct Line<'a> {
    image: &'a str,
    subcommand: &'a str,
    options: ArgMatches<'a>,
}

impl<'a> Model for Line<'a> {
    ghost use Rattle.clap.specs.Words.{found_of, rows_of};
    ghost use Rattle.cbfs_line.specs.CommandLine.{Texts};

    ghost Value = { Texts };

    ghost view = { λ l. record {
      image = l.image.now;
      subcommand = l.subcommand.now;
      options = rows_of (found_of l.options);
    } };
}

impl<'a> Line<'a> {
    /// Returns the image's path, the first argument.
    pub fn image(&self) -> &'a str
        ensures { result.now ≡ self.now.image }
    {
        self.image
    }

    /// Returns the path of `-f`, or of `-M` for `create`.
    pub fn file(&self) -> Option<&'a str>
        ensures { option_map (λ t. t.now) result ≡ text self.now "file" }
    {
        self.option("file")
    }

    /// Returns the name of the subcommand, the second argument.
    pub fn subcommand(&self) -> &'a str
        ensures { result.now ≡ self.now.subcommand }
    {
        self.subcommand
    }

    /// Returns the value of the option with this id in `specs/Subcommands.antt`.
    pub fn option(&self, id: &str) -> Option<&'a str>
        ensures { option_map (λ t. t.now) result ≡ first_of id.now self.now.options }
    {
        self.options.get_str(id)
    }

    /// Returns the command. Refuses an unknown subcommand or a missing option.
    pub fn command(&self) -> Result<Command<'a>, Refusal>
        ensures { request_answer result ≡ command_of self.now }
    {
        let regions = self.regions();
        let region = regions.as_bytes();
        match self.subcommand {
            "print" => Ok(Command::Print {
                region,
                verbose: self.verbose(),
            }),
            "layout" => Ok(Command::Layout),
            "extract" => match (self.option("name"), self.file()) {
                (Some(name), Some(_)) => Ok(Command::Extract {
                    region,
                    name: name.as_bytes(),
                }),
                _ => Err(Refusal::Usage),
            },
            "add" => self.addition(),
            "remove" => match self.option("name") {
                Some(name) => Ok(Command::Remove {
                    region,
                    name: name.as_bytes(),
                }),
                None => Err(Refusal::Usage),
            },
            "read" => self.with_file(Ok(Command::Read { region })),
            "write" => self.with_file(Ok(Command::Write { region })),
            "create" => self.with_file(creation(regions)),
            _ => Err(Refusal::Usage),
        }
    }

    fn with_file(&self, command: Result<Command<'a>, Refusal>) -> Result<Command<'a>, Refusal>
        ensures { request_answer result ≡ with_file self.now (request_answer command.entry) }
    {
        match self.file() {
            Some(_) => command,
            None => Err(Refusal::Usage),
        }
    }

    /// Returns the value of `-r`, or the default.
    pub fn regions(&self) -> &'a str
        ensures { result.now ≡ region_named self.now }
    {
        self.option("region").unwrap_or(DEFAULT_REGION)
    }

    fn addition(&self) -> Result<Command<'a>, Refusal>
        ensures { request_answer result ≡ addition self.now }
    {
        let region = self.regions().as_bytes();
        let kind = match self.option("type") {
            Some(text) => type_number(text),
            None => None,
        };
        match (
            self.file(),
            kind,
            self.hash(),
            self.spot(),
            self.option("name"),
        ) {
            (Some(_), Some(kind), Some(hash), Some(spot), Some(name)) => Ok(Command::Add {
                region,
                name: name.as_bytes(),
                kind,
                hash,
                spot,
            }),
            _ => Err(Refusal::Usage),
        }
    }

    fn verbose(&self) -> bool
        ensures { result ≡ verbose_by (text self.now "verbose") }
    {
        match self.option("verbose") {
            Some(text) => text == "true",
            None => false,
        }
    }

    fn hash(&self) -> Option<HashChoice>
        ensures { result ≡ hash_by (text self.now "hash") }
    {
        match self.option("hash") {
            Some(name) => Algorithm::named(name).map(HashChoice::from),
            None => Some(HashChoice::Plain),
        }
    }

    fn spot(&self) -> Option<Spot>
        ensures { result ≡ spot_by (text self.now "alignment") (text self.now "base") }
    {
        match (self.option("alignment"), self.option("base")) {
            (None, None) => Some(Spot::First),
            (Some(text), None) => read_number(text).map(Spot::Aligned),
            (None, Some(text)) => read_number(text).map(Spot::Fixed),
            (Some(_), Some(_)) => None,
        }
    }
}

/// Returns the creation of an image. Refuses an empty name, or more than 16 names.
fn creation<'a>(list: &'a str) -> Result<Command<'a>, Refusal>
    ensures { request_answer result ≡ creation_of list.entry.now }
{
    let mut regions: ArrayVec<&[u8], MOST_REGIONS> = ArrayVec::new();
    let mut rest = Some(list);
    while let Some(names) = rest {
        let (name, others) = first_name(names);
        if name.is_empty() || regions.is_full() {
            return Err(Refusal::Usage);
        }
        regions.push(name.as_bytes());
        rest = others;
    }
    Ok(Command::Create { regions })
}

fn first_name<'a>(list: &'a str) -> (&'a str, Option<&'a str>)
    ensures names { slice_split (λ b. b == 44) list.entry.now ≡ result.0.now
        ∷ option_map_or (λ rest. slice_split (λ b. b == 44) rest.now) result.1 [] }
    ensures shorter { IfSome result.1 (λ rest. length rest.now < length list.entry.now) }
{
    match list.split_once(',') {
        Some((name, rest)) => (name, Some(rest)),
        None => (list, None),
    }
}

fn line_of<'a>(image: &'a str, mut matches: ArgMatches<'a>) -> Line<'a>
    requires { has_subcommand matches ≡ true }
    ensures { Some result
        ≡ option_map (with_image image.entry.now) (subcommand_rows_of matches.entry) }
{
    let (subcommand, options) = matches.remove_subcommand().unwrap();
    Line {
        image,
        subcommand,
        options,
    }
}

/// Returns the kind of clap's error for the arguments after IMAGE, or None if clap accepts them.
pub fn refused_kind<'a>(
    alloc: Global,
    words: &'a [&'a str],
) -> Result<Option<ErrorKind>, AllocError>
    ensures { IfOk result (IsKindFor (map (λ w. w.now) words.entry.now)) }
{
    match whole_command(alloc)?.try_get_matches_from(words) {
        Ok(_matches) => Ok(None),
        Err(error) => match error.kind() {
            ErrorKind::OutOfMemory => Err(AllocError),
            kind => Ok(Some(kind)),
        },
    }
}

/// Parses the arguments after the program's name. Refuses missing arguments and all errors of clap,
/// including requests for help, and reports allocation failures.
pub fn read_line<'a>(alloc: Global, words: &'a [&'a str]) -> Result<Line<'a>, Refusal>
    ensures line { IfOk result (λ line. Some line ≡ texts_of (map (λ w. w.now) words.entry.now)) }
    ensures refusals { IfErr result (λ refusal.
        (refusal ≡ Refusal.Usage) ⊎ (refusal ≡ Refusal.Memory)) }
    ensures wordless { words.entry.now ≡ [] → IfErr result (λ refusal. refusal ≡ Refusal.Usage) }
    ensures faultless { IfOk result (λ _.
        fault_of command_line (map (λ w. w.now) (drop 1 words.entry.now)) ≡ []) }
    ensures usage { words.entry.now ≢ [] → fault_of command_line (map (λ w. w.now)
        (drop 1 words.entry.now)) ≡ [] → IfErr result (λ refusal. refusal ≡ Refusal.Memory) }
{
    let Some((image, rest)) = words.split_first() else {
        return Err(Refusal::Usage);
    };
    let Ok(command) = whole_command(alloc) else {
        return Err(Refusal::Memory);
    };
    match command.try_get_matches_from(rest) {
        Ok(matches) => Ok(line_of(image, matches)),
        Err(error) => match error.kind() {
            ErrorKind::OutOfMemory => Err(Refusal::Memory),
            _ => Err(Refusal::Usage),
        },
    }
}
