//! The changes between two flash maps.
ghost use Rattle.check_changes.specs.Areas as maps;
ghost use Rattle.flash_device.specs.Pages.{Lists};

use crate::areas::change::MapChange;
use check_findings::{push, push_if};
use flash_map::FoundMap;
use std::alloc::{AllocError, Global};

/// Returns the changes of offset, base address and name of the map; none if the new image has no
/// map.
pub fn map_changes(
    alloc: Global,
    old: Option<FoundMap>,
    new: Option<FoundMap>,
) -> Result<Vec<MapChange>, AllocError>
    ensures { Lists result (maps.map_changes old new) }
{
    let mut changes = Vec::new(alloc);
    let Some(new) = new else {
        return Ok(changes);
    };
    let Some(old) = old else {
        push_if(&mut changes, true, MapChange::NoOldMap)?;
        return Ok(changes);
    };
    push_if(&mut changes, old.at != new.at, MapChange::MovedFrom(old.at))?;
    let has_other_name = old.head.text() != new.head.text();
    let (old, new) = (old.head.base, new.head.base);
    push_if(&mut changes, old != new, MapChange::BaseFrom(old))?;
    push_if(&mut changes, has_other_name, MapChange::NameChanged)?;
    Ok(changes)
}
