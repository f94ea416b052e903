//! The clap command: paths and options.

ghost use Rattle.std.specs.Prelude.{◌≡◌, IfOk, false};
ghost use Rattle.clap.specs.Words.{app_of, rule_of};
ghost use Rattle.check_line.specs.CheckWords.{check_words, flag, long_option};

use clap::{Arg, ArgAction, Command};
use std::alloc::{AllocError, Global};

fn long<'a>(alloc: Global, name: &'a str) -> Arg<'a>
    ensures rule { rule_of result ≡ long_option name.entry.now }
    ensures local { result.global ≡ false }
{
    Arg::new(alloc, name).long(name)
}

fn flag<'a>(option: Arg<'a>) -> Arg<'a>
    ensures rule { rule_of result ≡ flag (rule_of option.entry) }
    ensures local { result.global ≡ option.entry.global }
{
    option.action(ArgAction::SetTrue)
}

/// Returns clap's command for the arguments after the program's name.
pub fn whole_command<'a>(alloc: Global) -> Result<Command<'a>, AllocError>
    ensures { IfOk result (λ c. app_of c ≡ check_words) }
{
    let arguments = vec![in alloc;
        Arg::new(alloc, "image"),
        Arg::new(alloc, "new"),
        Arg::new(alloc, "areas").short('r'),
        flag(Arg::new(alloc, "verbose").short('v')),
        flag(long(alloc, "json")),
        flag(long(alloc, "list")),
        long(alloc, "keep"),
        flag(long(alloc, "keep-preserved")),
        flag(long(alloc, "flash")),
        flag(long(alloc, "all-hashed")),
        long(alloc, "need"),
    ]?;
    let command = Command::new(alloc, "cbfscheck").no_binary_name(true);
    command.args(arguments)
}
