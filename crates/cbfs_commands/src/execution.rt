//! Runs a command.

ghost use Rattle.std.specs.Prelude.{◌≡◌, ◌<◌, ◌≤◌, Ok, true, false, IsErrOf};
ghost use Rattle.flash_device.specs.Pages.{OnHonest};
ghost use Rattle.cbfs_commands.specs.Effects.{HasEffect, OnAllHonest, effect_of};
ghost use Rattle.cbfs_requests.specs.Requests.{request_of};
ghost use Rattle.cbfs_commands.specs.MapNotes.{region_name};
ghost use Rattle.cbfs_commands.specs.Notes.{may_outdate};
ghost use Rattle.cbfs_commands.specs.Used.{HasUsed};
ghost use Rattle.cbfs_commands.specs.Outcomes.{PrintsOut};

use crate::add::add;
use crate::create::create;
use crate::extract::extract;
use crate::layout::layout;
use crate::mapped::Used;
use crate::print::print;
use crate::read::read;
use crate::remove::remove;
use crate::write::write;
use cbfs_requests::{Command, Refusal};
use flash_device::{Flash, Paged, Sink, Source};

/// Runs a command on an image, without allocating memory. A successful `add`, `remove` or `write`
/// stores in `used` the flash map that the image had before, and the region. Other commands don't
/// change `used`.
pub fn run_with_map<F: Flash, S: Source, W: Sink>(
    paged: &mut Paged<F>,
    command: &Command,
    source: &mut S,
    out: &mut W,
    used: &mut Option<Used>,
) -> Result<(), Refusal>
    ensures effect { HasEffect (effect_of command.now) paged.old.device paged.new.device
        (S.facts source.old) (S.facts source.new) result }
    ensures unread { (effect_of command.now).source_calls (S.facts source.old) ≡ 0
        → source.new ≡ source.old }

    // For any sink.
    ensures faults { W.faults out.old ≤ W.faults out.new }
    ensures output { IsErrOf result Refusal.Output → W.faults out.old < W.faults out.new }
    ensures unwritten { (effect_of command.now).prints ≡ false → out.new ≡ out.old }

    // The answer and output of the outcome, or a part after a fault.
    ensures outcome { let effect = effect_of command.now in
        OnAllHonest effect paged.old.device (S.facts source.old) (λ image content.
        PrintsOut (W.contents out.old) (W.contents out.new) result
        (effect.outcome image content).printout) }

    // The flash map of an honest device before a change, and the region by this map.
    ensures used { OnHonest paged.old.device (λ image.
        may_outdate (request_of command.now) result ≡ true
        → HasUsed image (region_name (request_of command.now)) used.new) }
    ensures unused { may_outdate (request_of command.now) (Ok tt) ≡ false → used.new ≡ used.old }
{
    match command {
        Command::Print { region, verbose } => print(paged, region, *verbose, out),
        Command::Layout => layout(paged, out),
        Command::Extract { region, name } => extract(paged, region, name, out),
        Command::Add {
            region,
            name,
            kind,
            hash,
            spot,
        } => add(paged, region, name, *kind, *hash, *spot, source, used),
        Command::Remove { region, name } => remove(paged, region, name, used),
        Command::Read { region } => read(paged, region, out),
        Command::Write { region } => write(paged, region, source, used),
        Command::Create { regions } => create(paged, regions.as_slice(), source),
    }
}

/// Runs a command on an image, without allocating memory. The source is the content of `add` and
/// `write` and the flashmap of `create`; other commands don't read it. The sink receives the
/// output. Returns the first refusal; `effect` states what each refusal leaves in the image.
///
/// For example, this prints the cells of the region COREBOOT of an image in `paged`:
///
/// ```text
/// let print = Command::Print { region: b"COREBOOT", verbose: false };
/// run(&mut paged, &print, &mut MemSource::new(&[]), &mut out)?;
/// ```
pub fn run<F: Flash, S: Source, W: Sink>(
    paged: &mut Paged<F>,
    command: &Command,
    source: &mut S,
    out: &mut W,
) -> Result<(), Refusal>
    ensures effect { HasEffect (effect_of command.now) paged.old.device paged.new.device
        (S.facts source.old) (S.facts source.new) result }
    ensures unread { (effect_of command.now).source_calls (S.facts source.old) ≡ 0
        → source.new ≡ source.old }

    // For any sink.
    ensures faults { W.faults out.old ≤ W.faults out.new }
    ensures output { IsErrOf result Refusal.Output → W.faults out.old < W.faults out.new }
    ensures unwritten { (effect_of command.now).prints ≡ false → out.new ≡ out.old }

    // The answer and output of the outcome, or a part after a fault.
    ensures outcome { let effect = effect_of command.now in
        OnAllHonest effect paged.old.device (S.facts source.old) (λ image content.
        PrintsOut (W.contents out.old) (W.contents out.new) result
        (effect.outcome image content).printout) }
{
    run_with_map(paged, command, source, out, &mut None)
}
