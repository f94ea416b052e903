//! Laws of the tables, as contracts of functions without effect.

ghost use Rattle.std.specs.Prelude.{◌≡◌, Some, map};
ghost use lib.Chars.{codes};
ghost use Rattle.cbfs_line.specs.Subcommands.{subcommands};
ghost use Rattle.cbfs_mistakes.specs.Suggestions.{near_command, near_option};
ghost use Rattle.cbfs_mistakes.specs.Synopses.{synopses};

/// The synopsis has the commands that clap accepts, in the same order.
pub fn commands_are_those_of_clap()
    ensures { map (λ row. row.0) synopses ≡ map (λ command. command.name) subcommands }
{}

/// Arguments near a command, in examples: with a missing letter, and with two exchanged letters.
#[tactic(auto, unfolding(crate::specs::Near::is_near, crate::specs::Suggestions::near_command))]
pub fn near_commands_are_known()
    ensures missing { near_command (codes "prnt") ≡ Some (codes "print") }
    ensures exchanged { near_command (codes "pritn") ≡ Some (codes "print") }
{}

/// A long option name of other tools, as an example.
#[tactic(auto, unfolding(crate::specs::Near::is_near, crate::specs::Suggestions::near_option))]
pub fn long_names_are_known()
    ensures { near_option (codes "print") (codes "--region") ≡ Some 114 }
{}
