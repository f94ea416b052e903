//! The laws of this crate at literal commands, in numbers. A law without a command would prove none
//! of these.
ghost use Rattle.std.specs.Prelude.{◌≡◌, Err, Ok, [], ◌∷◌, length, true};
ghost use lib.Chars.{codes};
ghost use Rattle.cbfs_edit.specs.declared.addition.HashChoice.TheVariants.{Plain};
ghost use Rattle.cbfs_edit.specs.declared.place.Spot.TheVariants.{First};
ghost use Rattle.cbfs_requests.specs.Requests.{add, create, extract, layout, on_region, print, read, remove, write};
ghost use Rattle.cbfs_requests.specs.declared.refusal.Refusal.TheVariants.{NoSpace, NotFound, Output};
ghost use Rattle.cbfs_commands.specs.Effects.{effect};
ghost use Rattle.cbfs_steps.specs.Laws.{refused_at};
ghost use Rattle.cbfs_steps.specs.Progresses.{answer_of, progress_after, steps_taken};
ghost use Rattle.cbfs_steps.specs.Steps.{steps_of};
ghost use Rattle.cbfs_steps.specs.declared.progress.Progress.TheVariants.{Going, RunRefused};
ghost use Rattle.cbfs_steps.specs.declared.steps.Step.TheVariants.{MakeOutput, Run, WriteOutput};

use crate::laws::{refusals_end_commands, steps_are_in_order, uses_are_those_of_commands};

/// `steps_are_in_order` at COREBOOT: `remove` has three steps, each other command four.
pub fn commands_have_three_or_four_steps()
    ensures print { length (steps_of (on_region (codes "COREBOOT") (print true))) ≡ 4 }
    ensures layout { length (steps_of layout) ≡ 4 }
    ensures extract { length (steps_of (on_region (codes "COREBOOT") (extract (codes "a")))) ≡ 4 }
    ensures add { length (steps_of (on_region (codes "COREBOOT")
        (add (codes "a") 0x50 Plain First))) ≡ 4 }
    ensures remove { length (steps_of (on_region (codes "COREBOOT") (remove (codes "a")))) ≡ 3 }
    ensures read { length (steps_of (on_region (codes "COREBOOT") read)) ≡ 4 }
    ensures write { length (steps_of (on_region (codes "COREBOOT") write)) ≡ 4 }
    ensures create { length (steps_of (create (codes "COREBOOT" ∷ []))) ≡ 4 }
{
    steps_are_in_order();
}

/// `uses_are_those_of_commands` at an image of two bytes: `layout` leaves the bytes and has an
/// output, and `remove` reads no source.
pub fn a_layout_leaves_two_bytes()
    ensures shared { ((effect layout).outcome (1 ∷ 2 ∷ []) []).image ≡ 1 ∷ 2 ∷ [] }
    ensures prints { (effect layout).prints ≡ true }
    ensures unread { (effect (on_region (codes "COREBOOT") (remove (codes "a")))).source_calls
        (record { content = []; calls = 0; faults = 0; honest = true }) ≡ 0 }
{
    uses_are_those_of_commands();
}

/// `refusals_end_commands` at a refused run of `layout` and of `write`, at a refused output of
/// `read`, and at an output fault after `NotFound`: four, three and two steps are taken, and
/// `NotFound` remains.
pub fn a_refused_change_has_three_steps()
    ensures listing { length (steps_taken (refused_at Run NotFound) Going (steps_of layout)) ≡ 4 }
    ensures change { length (steps_taken (refused_at Run NoSpace) Going
        (steps_of (on_region (codes "COREBOOT") write))) ≡ 3 }
    ensures output { length (steps_taken (refused_at MakeOutput Output) Going
        (steps_of (on_region (codes "COREBOOT") read))) ≡ 2 }
    ensures first { answer_of (progress_after (RunRefused NotFound) WriteOutput (Err Output))
        ≡ Err NotFound }
{
    refusals_end_commands();
}
