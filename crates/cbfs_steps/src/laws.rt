//! Laws of steps: functions without code.
ghost use Rattle.cbfs_steps.specs.Laws.{RefusalsEndCommands, StepsAreInOrder, UsesAreThoseOfCommands};

/// Proves the steps of each command in full.
pub fn steps_are_in_order()
    ensures { StepsAreInOrder }
{}

/// Proves by the outcomes of commands that a command with a shared lock leaves the image unchanged
/// and that others may change it, that a command reads FILE only if it is an input or a flash map,
/// and that output is written exactly by commands with a step for it.
pub fn uses_are_those_of_commands()
    ensures { UsesAreThoseOfCommands }
{}

/// Proves which steps are taken after a refusal, in examples: nothing after a refused opening; the
/// output, but no storing, after a refused run; and that a refused run precedes an output fault.
pub fn refusals_end_commands()
    ensures { RefusalsEndCommands }
{}
