//! The commands with their arguments, as the synopsis of the manual page lists them.

ghost use Rattle.std.specs.Prelude.{◌≡◌, map};
ghost use Rattle.std.specs.Option.{option_copied};
ghost use Rattle.cbfs_mistakes.specs.Suggestions.{near_among, near_command};
ghost use Rattle.cbfs_mistakes.specs.Synopses.{is_command, synopsis_among, synopsis_of};

use crate::near::is_near;

/// A command's name, and the arguments after IMAGE.
type Synopsis = (&'static str, &'static str);

const SYNOPSES: [Synopsis; 8] = [
    ("print", "print [-r REGION] [-v]"),
    ("layout", "layout"),
    ("extract", "extract [-r REGION] -n NAME -f FILE"),
    (
        "add",
        "add [-r REGION] -n NAME -f FILE -t TYPE [-a ALIGNMENT | -b OFFSET] [-A HASH]",
    ),
    ("remove", "remove [-r REGION] -n NAME"),
    ("read", "read [-r REGION] -f FILE"),
    ("write", "write [-r REGION] -f FILE"),
    ("create", "create -M FLASHMAP [-r REGION[,REGION ...]]"),
];

fn synopsis_among(rows: &[Synopsis], command: &str) -> Option<&'static str>
    ensures { option_copied result
        ≡ synopsis_among (map (λ row. (row.0.now, row.1.now)) rows.now) command.now }
{
    for (name, synopsis) in rows {
        if command == *name {
            return Some(*synopsis);
        }
    }
    None
}

/// Returns the arguments of a command.
#[tactic(auto, unfolding(crate::specs::Synopses::synopsis_of))]
pub fn synopsis_of(command: &str) -> Option<&'static str>
    ensures { option_copied result ≡ synopsis_of command.now }
{
    synopsis_among(&SYNOPSES, command)
}

pub fn is_command(word: &str) -> bool
    ensures { result ≡ is_command word.now }
{
    synopsis_of(word).is_some()
}

fn near_among(rows: &[Synopsis], word: &str) -> Option<&'static str>
    ensures { option_copied result
        ≡ near_among (map (λ row. (row.0.now, row.1.now)) rows.now) word.now }
{
    for (name, _) in rows {
        if is_near(word.as_bytes(), name.as_bytes()) {
            return Some(*name);
        }
    }
    None
}

/// Returns the first command near the argument.
#[tactic(auto, unfolding(crate::specs::Suggestions::near_command))]
pub fn near_command(word: &str) -> Option<&'static str>
    ensures { option_copied result ≡ near_command word.now }
{
    near_among(&SYNOPSES, word)
}
