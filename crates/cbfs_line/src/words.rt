//! The clap command: subcommands with options.

ghost use Rattle.std.specs.Prelude.{◌≡◌, IfOk, true, false};
ghost use Rattle.clap.specs.Words.{app_of, new_app, with_subcommand};
ghost use Rattle.clap.specs.declared.builder.command.Command.TheViews.{out-Command as fields_of};
ghost use Rattle.cbfs_line.specs.Subcommands.{IsLocal, command_line, with_option, with_options};

use clap::{Arg, ArgAction, Command};
use std::alloc::{AllocError, Global};

/// A single-letter option, with or without a value, by its action.
#[derive(Clone, Copy)]
struct TableOption {
    id: &'static str,
    letter: char,
    action: ArgAction,
}

const REGION: TableOption = TableOption {
    id: "region",
    letter: 'r',
    action: ArgAction::Set,
};

const FILE: TableOption = TableOption {
    id: "file",
    letter: 'f',
    action: ArgAction::Set,
};

/// The flash map of a new image.
const MAP: TableOption = TableOption {
    id: "file",
    letter: 'M',
    action: ArgAction::Set,
};

const NAME: TableOption = TableOption {
    id: "name",
    letter: 'n',
    action: ArgAction::Set,
};

const TYPE: TableOption = TableOption {
    id: "type",
    letter: 't',
    action: ArgAction::Set,
};

const ALIGNMENT: TableOption = TableOption {
    id: "alignment",
    letter: 'a',
    action: ArgAction::Set,
};

const BASE: TableOption = TableOption {
    id: "base",
    letter: 'b',
    action: ArgAction::Set,
};

const HASH: TableOption = TableOption {
    id: "hash",
    letter: 'A',
    action: ArgAction::Set,
};

const VERBOSE: TableOption = TableOption {
    id: "verbose",
    letter: 'v',
    action: ArgAction::SetTrue,
};

/// A subcommand's name and options.
type TableRow = (&'static str, &'static [TableOption]);

const SUBCOMMANDS: [TableRow; 8] = [
    ("print", &[REGION, VERBOSE]),
    ("layout", &[]),
    ("extract", &[REGION, FILE, NAME]),
    ("add", &[REGION, NAME, FILE, TYPE, ALIGNMENT, BASE, HASH]),
    ("remove", &[REGION, NAME]),
    ("read", &[REGION, FILE]),
    ("write", &[REGION, FILE]),
    ("create", &[MAP, REGION]),
];

fn with_option<'a>(
    alloc: Global,
    command: Command<'a>,
    option: TableOption,
) -> Result<Command<'a>, AllocError>
    requires { (fields_of command).has_globals ≡ false }
    ensures { IfOk result (λ c. IsLocal c (with_option (app_of command.entry) option)) }
{
    let arg = Arg::new(alloc, option.id).short(option.letter);
    command.arg(arg.action(option.action))
}

fn with_options<'a>(
    alloc: Global,
    mut command: Command<'a>,
    mut options: &[TableOption],
) -> Result<Command<'a>, AllocError>
    requires { (fields_of command).has_globals ≡ false }
    ensures { IfOk result (λ c. IsLocal c (with_options (app_of command.entry) options.entry.now)) }
{
    while let [option, rest @ ..] = options {
        command = with_option(alloc, command, *option)?;
        options = rest;
    }
    Ok(command)
}

fn with_row<'a>(
    alloc: Global,
    command: Command<'a>,
    row: TableRow,
) -> Result<Command<'a>, AllocError>
    requires { (fields_of command).has_globals ≡ false }
    ensures { IfOk result (λ c. IsLocal c (with_subcommand (app_of command.entry)
        (with_options (new_app row.entry.0.now) row.entry.1.now).top)) }
{
    let subcommand = with_options(alloc, Command::new(alloc, row.0), row.1)?;
    command.subcommand(subcommand)
}

/// Returns the command: a required subcommand with its options.
pub fn whole_command<'a>(alloc: Global) -> Result<Command<'a>, AllocError>
    ensures needs { IfOk result (λ c. (fields_of c).subcommand_required ≡ true) }
    ensures shape { IfOk result (λ c. app_of c ≡ command_line) }
{
    let command = Command::new(alloc, "cbfstool").no_binary_name(true);
    let mut command = command.subcommand_required(true);
    let mut rows: &[TableRow] = &SUBCOMMANDS;
    while let [row, rest @ ..] = rows {
        command = with_row(alloc, command, *row)?;
        rows = rest;
    }
    Ok(command)
}
