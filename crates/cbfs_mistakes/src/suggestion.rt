//! The known command or option near a wrong argument.

ghost use Rattle.std.specs.Prelude.{◌≡◌, ◌++◌, ◌==◌, OnOk, map};
ghost use Rattle.std.specs.List.{before_first};
ghost use lib.Chars.{codes};
ghost use Rattle.cbfs_mistakes.specs.Suggestions.{letters_of, near_option, option_among};
ghost use Rattle.cbfs_mistakes.specs.Suggestions.{suggestion};

use crate::mistake::{Mistake, WordFault};
use crate::near::is_near;
use crate::synopsis::near_command;
use std::alloc::AllocError;

/// A long option name of other tools, and the letter of cbfstool's option.
type LongName = (&'static str, u8);

const LONG_NAMES: [LongName; 12] = [
    ("--region", b'r'),
    ("--fmap-regions", b'r'),
    ("--name", b'n'),
    ("--file", b'f'),
    ("--type", b't'),
    ("--alignment", b'a'),
    ("--base", b'b'),
    ("--base-address", b'b'),
    ("--hash", b'A'),
    ("--hash-algorithm", b'A'),
    ("--flashmap", b'M'),
    ("--verbose", b'v'),
];

/// Returns the letters of a command's options.
fn letters_of(command: &str) -> &'static [u8]
    ensures { result.now ≡ letters_of command.now }
{
    match command {
        "print" => b"rv",
        "extract" => b"rfn",
        "add" => b"rnftabA",
        "remove" => b"rn",
        "read" => b"rf",
        "write" => b"rf",
        "create" => b"Mr",
        _ => b"",
    }
}

/// Returns an option without its value after `=`.
fn without_value<'a>(word: &'a str) -> &'a str
    ensures { result.now ≡ before_first (λ b. b == 61) word.entry.now }
{
    match word.split_once('=') {
        Some((name, _)) => name,
        None => word,
    }
}

fn option_among(rows: &[LongName], letters: &[u8], name: &str) -> Option<u8>
    ensures { result
        ≡ option_among (map (λ row. (row.0.now, row.1)) rows.now) letters.now name.now }
{
    for (long, letter) in rows {
        if letters.contains(letter) && is_near(name.as_bytes(), long.as_bytes()) {
            return Some(*letter);
        }
    }
    None
}

/// Returns the letter of the first option of the command with a long name near the argument.
#[tactic(auto, unfolding(crate::specs::Suggestions::near_option))]
fn near_option(command: &str, word: &str) -> Option<u8>
    ensures { result ≡ near_option command.now word.now }
{
    option_among(&LONG_NAMES, letters_of(command), without_value(word))
}

fn push_meant(out: &mut Vec<u8>, before: &[u8], word: &[u8]) -> Result<(), AllocError>
    ensures { OnOk result (out.new.items
        ≡ out.old.items ++ before.now ++ word.now ++ codes "'?\n") }
{
    out.extend_from_slice(before)?;
    out.extend_from_slice(word)?;
    out.extend_from_slice(b"'?\n")
}

/// Appends the line that suggests the command, or the option of the command, near a wrong argument.
pub fn push_suggestion(
    out: &mut Vec<u8>,
    command: &str,
    mistake: &Mistake<'_>,
) -> Result<(), AllocError>
    ensures { OnOk result
        (out.new.items ≡ out.old.items ++ suggestion command.now mistake.now) }
{
    let Mistake::Word { fault, word } = mistake else {
        return Ok(());
    };
    match fault {
        WordFault::UnknownCommand => match near_command(word) {
            Some(known) => push_meant(out, b"cbfstool: did you mean '", known.as_bytes()),
            None => Ok(()),
        },
        WordFault::UnknownOption => match near_option(command, word) {
            Some(letter) => push_meant(out, b"cbfstool: did you mean '-", &[letter]),
            None => Ok(()),
        },
        _ => Ok(()),
    }
}
