//! The rows of changes.
ghost use Rattle.std.specs.Prelude.{◌≡◌, ◌++◌, map};
ghost use Rattle.std.specs.Option.{option_map, option_to_list};
ghost use lib.Chars.{codes};
ghost use Rattle.cbfs_anchor.specs.AlgorithmNames.{name_of};
ghost use Rattle.std.specs.List.{flat_map};
ghost use Rattle.check_report.specs.Rows.{names_in, at_component, seen_row};
ghost use Rattle.check_report.specs.Effects.{Adds};
ghost use Rattle.check_report.specs.ChangeRows.{anchor_change_row, area_change_rows};
ghost use Rattle.check_report.specs.ChangeRows.{component_change_row, component_row, image_rows};
ghost use Rattle.check_report.specs.ChangeRows.{map_change_row, region_change_rows};

use crate::areas::{area_change_row, map_change_row, not_compared_row};
use crate::fault::WriteFault;
use crate::kept::change_verdict;
use crate::names::KnownNames;
use crate::rows::{Row, RowWriter, Verdict};
use cbfs_anchor::Algorithm;
use check_changes::{
    AnchorChange, AreaChange, ComponentChange, ComponentDifference, MapChange, RegionChange,
};
use flash_device::Sink;

/// Adds rows for the image lengths, since flashrom writes no image of another length, and for the
/// number of different blocks of 4096 bytes.
pub fn add_image_changes<W: Sink + Drop>(
    rows: &mut RowWriter<W>,
    old_len: u64,
    new_len: u64,
    blocks: u32,
) -> Result<(), WriteFault>
    ensures { Adds W.Sink result rows.old rows.new (image_rows old_len new_len blocks) }
{
    let resized = Verdict::Bad.row("image-size", "image size changed from");
    rows.add_if(old_len != new_len, resized.number(old_len))?;
    let differ = Verdict::Change.row("blocks", "erase blocks differ");
    rows.add_if(blocks > 0, differ.count(u64::from(blocks)))
}

/// Adds a row for each change of the flash map itself. Another name or base address is bad on
/// request.
pub fn add_map_changes<W: Sink + Drop>(
    rows: &mut RowWriter<W>,
    is_strict: bool,
    changes: &[MapChange],
) -> Result<(), WriteFault>
    ensures { Adds W.Sink result rows.old rows.new (map (map_change_row is_strict) changes.now) }
{
    for change in changes {
        rows.add(map_change_row(is_strict, change))?;
    }
    Ok(())
}

/// Returns the row of a change of the anchor. Without an anchor, the firmware doesn't check
/// COREBOOT.
fn anchor_change_row<'a>(change: AnchorChange) -> Row<'a>
    ensures { seen_row result ≡ anchor_change_row change }
{
    let v = Verdict::Change;
    match change {
        AnchorChange::Added => v.row("anchor-added", "anchor added"),
        AnchorChange::Gone => Verdict::Bad.row("anchor-gone", "anchor gone"),
        AnchorChange::AlgorithmFrom(old) => {
            v.row("anchor-algorithm-changed", algorithm_changed_text(old))
        }
    }
}

fn algorithm_changed_text(old: Algorithm) -> &'static str
    ensures { result.now ≡ codes "anchor's algorithm changed from " ++ name_of old }
{
    match old {
        Algorithm::Sha1 => "anchor's algorithm changed from sha1",
        Algorithm::Sha256 => "anchor's algorithm changed from sha256",
        Algorithm::Sha512 => "anchor's algorithm changed from sha512",
        Algorithm::Sha224 => "anchor's algorithm changed from sha224",
        Algorithm::Sha384 => "anchor's algorithm changed from sha384",
    }
}

/// Adds a row for the change of the anchor, if any.
pub fn add_anchor_change<W: Sink + Drop>(
    rows: &mut RowWriter<W>,
    change: Option<AnchorChange>,
) -> Result<(), WriteFault>
    ensures { Adds W.Sink result rows.old rows.new
        (option_to_list (option_map anchor_change_row change)) }
{
    match change {
        Some(change) => rows.add(anchor_change_row(change)),
        None => Ok(()),
    }
}

/// Adds the rows of changed areas, in order. Changes of the `kept` areas and removals of the
/// `vital` areas are bad. Returns `Output` if the sink failed, and `Memory` if an allocation
/// failed.
pub fn add_area_changes<W: Sink + Drop>(
    rows: &mut RowWriter<W>,
    kept: &KnownNames<'_>,
    vital: &KnownNames<'_>,
    changes: &[AreaChange],
) -> Result<(), WriteFault>
    ensures { Adds W.Sink result rows.old rows.new
        (flat_map (area_change_rows (names_in kept.now.names.items)
        (names_in vital.now.names.items)) changes.now) }
{
    for change in changes {
        if let Some(row) = area_change_row(kept, vital, change) {
            rows.add(row)?;
        }
    }
    Ok(())
}

fn component_row<'a>(is_kept: bool, what: ComponentDifference) -> Row<'a>
    ensures { seen_row result ≡ component_row is_kept what }
{
    let v = change_verdict(is_kept);
    match what {
        ComponentDifference::Added => v.row("component-added", "component added"),
        ComponentDifference::Removed => v.row("component-removed", "component removed"),
        ComponentDifference::Type => v.row("component-type-changed", "type changed"),
        ComponentDifference::Length => v.row("component-length-changed", "length changed"),
        ComponentDifference::Content => v.row("component-content-changed", "content changed"),
        ComponentDifference::Attributes => {
            v.row("component-attributes-changed", "attributes changed")
        }
        ComponentDifference::MovedFrom(at) => {
            v.row("component-moved", "component moved from").number(at)
        }
    }
}

/// Adds the rows of changed components, all bad in a kept area.
fn add_component_changes<W: Sink + Drop>(
    rows: &mut RowWriter<W>,
    is_kept: bool,
    area: &[u8],
    changes: &[ComponentChange],
) -> Result<(), WriteFault>
    ensures { Adds W.Sink result rows.old rows.new
        (map (component_change_row is_kept area.now) changes.now) }
{
    for change in changes {
        let row = component_row(is_kept, change.what);
        rows.add(row.at_component(area, change.at, change.name.as_slice()))?;
    }
    Ok(())
}

/// Adds the rows of changed components of each area, in order. Changes in the `kept` areas are bad.
/// Errors are as in `add_area_changes`.
pub fn add_region_changes<W: Sink + Drop>(
    rows: &mut RowWriter<W>,
    kept: &KnownNames<'_>,
    changes: &[RegionChange],
) -> Result<(), WriteFault>
    ensures { Adds W.Sink result rows.old rows.new
        (flat_map (region_change_rows (names_in kept.now.names.items)) changes.now) }
{
    for change in changes {
        match change {
            RegionChange::Compared { area, changes } => {
                let is_kept = kept.have(area);
                add_component_changes(rows, is_kept, area.area.text(), changes.as_slice())?;
            }
            RegionChange::NotCompared(area) => {
                rows.add(not_compared_row(kept.have(area), area))?;
            }
        }
    }
    Ok(())
}
