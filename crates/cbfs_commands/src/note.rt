//! The note on an outdated anchor.
ghost use Rattle.std.specs.Prelude.{◌≡◌, ◌⊎◌, ◌+◌, ◌<◌, ◌≤◌, IfOk, IsTrue, length, true, false};
ghost use Rattle.flash_device.specs.Pages.{HasAnswered, IfFound, OnHonest, Returns};
ghost use Rattle.flash_map.specs.Fmap.{map_end, search_reads};
ghost use Rattle.cbfs_requests.specs.Requests.{request_of};
ghost use Rattle.cbfs_commands.specs.Notes.{HasOutdatedDigest, IsOutdated, may_outdate, standing_map, stands};

use cbfs_anchor::is_outdated_with_map;
use cbfs_requests::{Command, Refusal};
use flash_device::{Flash, FlashFault, Paged};
use flash_format::FmapHead;
use flash_map::{FoundMap, find_fmap};

/// Returns whether the head of a map still stands at its offset.
pub fn stands<F: Flash>(paged: &mut Paged<F>, map: &FoundMap) -> Result<bool, FlashFault>
    ensures calls { HasAnswered 1 paged.old paged.new result }
    ensures within { IfOk result (λ kept. IsTrue kept
        → map_end map.now ≤ length paged.old.device.content) }
    ensures stands { OnHonest paged.old.device (λ image. Returns result (stands map.now image)) }
{
    let len = paged.len();
    if map.at > len || map.head.map_len() > len - map.at {
        return Ok(false);
    }
    let mut bytes = [0; FmapHead::LENGTH];
    paged.read_small(map.at, &mut bytes)?;
    Ok(bytes == map.head.write())
}

/// Returns the map that a command used, if its head still stands at its offset, else the first of
/// the image.
fn standing_map<F: Flash>(
    paged: &mut Paged<F>,
    used: Option<FoundMap>,
) -> Result<Option<FoundMap>, FlashFault>
    ensures calls { HasAnswered (search_reads paged.old.device + 1) paged.old paged.new result }
    ensures fits { IfFound result (λ map. map_end map ≤ length paged.old.device.content) }
    ensures map { OnHonest paged.old.device (λ image. Returns result (standing_map used image)) }
{
    if let Some(map) = used {
        if stands(paged, &map)? {
            return Ok(Some(map));
        }
    }
    find_fmap(paged)
}

/// Returns whether the image has an anchor by this map with an outdated digest; false after a
/// device fault.
fn has_outdated_digest<F: Flash>(paged: &mut Paged<F>, map: &FoundMap) -> bool
    requires { map_end map.now ≤ length paged.old.device.content }

    ensures unchanged { OnHonest paged.old.device (λ image. paged.new.device.content ≡ image) }
    ensures faults { paged.old.device.faults ≤ paged.new.device.faults }
    ensures due { OnHonest paged.old.device
        (λ image. IsTrue result → HasOutdatedDigest map.now image) }
    ensures noted { OnHonest paged.old.device (λ image. HasOutdatedDigest map.now image
        → IsTrue result ⊎ (paged.old.device.faults < paged.new.device.faults)) }
{
    match is_outdated_with_map(paged, map) {
        Ok(outdated) => outdated,
        Err(_) => false,
    }
}

/// Returns the same by the map that stands after a command.
fn has_outdated_anchor<F: Flash>(paged: &mut Paged<F>, used: Option<FoundMap>) -> bool
    ensures unchanged { OnHonest paged.old.device (λ image. paged.new.device.content ≡ image) }
    ensures due { OnHonest paged.old.device (λ image. IsTrue result → IsOutdated used image) }
    ensures noted { OnHonest paged.old.device (λ image. IsOutdated used image
        → IsTrue result ⊎ (paged.old.device.faults < paged.new.device.faults)) }
{
    match standing_map(paged, used) {
        Ok(Some(map)) => has_outdated_digest(paged, &map),
        Ok(None) => false,
        Err(FlashFault) => false,
    }
}

/// Returns whether the note is due after a command: an `add`, `remove` or `write` succeeded, and
/// the image has an anchor of CBFS verification with an outdated digest. `used` is the flash map
/// that the command used. A device fault leaves out the note.
pub fn is_note_due<F: Flash>(
    paged: &mut Paged<F>,
    command: &Command,
    used: Option<FoundMap>,
    answer: Result<(), Refusal>,
) -> bool
    ensures silent { may_outdate (request_of command.now) answer ≡ false
        → (result ≡ false) × (paged.new ≡ paged.old) }
    ensures unchanged { OnHonest paged.old.device (λ image. paged.new.device.content ≡ image) }
    ensures due { OnHonest paged.old.device (λ image. IsTrue result → IsOutdated used image) }
    ensures noted { OnHonest paged.old.device (λ image.
        may_outdate (request_of command.now) answer ≡ true → IsOutdated used image
        → IsTrue result ⊎ (paged.old.device.faults < paged.new.device.faults)) }
{
    match (command, answer) {
        (Command::Add { .. }, Ok(())) => has_outdated_anchor(paged, used),
        (Command::Remove { .. }, Ok(())) => has_outdated_anchor(paged, used),
        (Command::Write { .. }, Ok(())) => has_outdated_anchor(paged, used),
        _ => false,
    }
}
