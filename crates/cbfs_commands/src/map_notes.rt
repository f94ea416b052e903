//! The note on another flash map.
ghost use Rattle.std.specs.Prelude.{◌≡◌, ◌⊎◌, ◌<◌, None, false};
ghost use Rattle.flash_device.specs.Pages.{OnHonest};
ghost use Rattle.cbfs_requests.specs.Requests.{request_of};
ghost use Rattle.cbfs_commands.specs.MapNotes.{is_same_map, map_change, map_note};
ghost use Rattle.cbfs_commands.specs.Notes.{may_outdate};

use crate::mapped::Used;
use cbfs_requests::{Command, Refusal};
use flash_device::{Flash, FlashFault, Paged};
use flash_map::{FoundMap, find_fmap};

/// A note on the flash map that the next command finds.
#[derive(Clone, Copy, Debug, PartialEq, Eq)]
pub enum MapNote {
    /// Another flash map than the one that the command used, at this offset.
    AnotherMap { at: u64 },
    /// No flash map.
    NoMap,
}

/// Returns whether two maps have the same offset and the same head.
fn is_same_map(map: &FoundMap, other: &FoundMap) -> bool
    ensures { result ≡ is_same_map map.now other.now }
{
    map.at == other.at && map.head.write() == other.head.write()
}

/// Returns the note on a found map, if it is not the map that the command used.
fn map_change(used: &FoundMap, found: Option<FoundMap>) -> Option<MapNote>
    ensures { result ≡ map_change used.now found }
{
    match found {
        None => Some(MapNote::NoMap),
        Some(map) => {
            if is_same_map(used, &map) {
                return None;
            }
            Some(MapNote::AnotherMap { at: map.at })
        }
    }
}

/// Returns whether the command has changed an image.
pub fn may_outdate(command: &Command, answer: Result<(), Refusal>) -> bool
    ensures { result ≡ may_outdate (request_of command.now) answer }
{
    match (command, answer) {
        (Command::Add { .. }, Ok(())) => true,
        (Command::Remove { .. }, Ok(())) => true,
        (Command::Write { .. }, Ok(())) => true,
        _ => false,
    }
}

/// Returns the note that is due after a command: an `add`, `remove` or `write` succeeded, and the
/// search of the next command finds another flash map than `used`, or none. A device fault leaves
/// out the note.
pub fn map_note<F: Flash>(
    paged: &mut Paged<F>,
    command: &Command,
    used: &Option<Used>,
    answer: Result<(), Refusal>,
) -> Option<MapNote>
    ensures silent { may_outdate (request_of command.now) answer ≡ false
        → (result ≡ None) × (paged.new ≡ paged.old) }
    ensures unchanged { OnHonest paged.old.device (λ image. paged.new.device.content ≡ image) }
    ensures note { OnHonest paged.old.device (λ image.
        (result ≡ map_note (request_of command.now) answer used.now image)
        ⊎ ((result ≡ None) × (paged.old.device.faults < paged.new.device.faults))) }
{
    if !may_outdate(command, answer) {
        return None;
    }
    let Some(used) = used else {
        return None;
    };
    match find_fmap(paged) {
        Ok(found) => map_change(&used.map, found),
        Err(FlashFault) => None,
    }
}
