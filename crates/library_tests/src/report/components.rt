//! Changes of components, on failing devices, and with an absent region.
use crate::report::support::keys;
use crate::support::{ALL, Failing, FailingImages, equal, failing};
use check_changes::{
    ChangeFault, ComponentChange, ComponentDifference, Images, RegionPair, component_changes,
};
use flash_store::Region;
use std::process::Abort;
use std::random::RandomSource;

/// A component of 5000 bytes, without the content.
const L: [u8; 40] =
    *b"LARCHIVE\0\0\x13\x88\0\0\0\x50\0\0\0\0\0\0\0\x28l\0\0\0\0\0\0\0\0\0\0\0\0\0\0\0";

/// Returns the changes. A region longer than the device is absent.
fn changes_of(
    rt: &(impl Abort + AllocGlobal + RandomSource),
    images: &mut FailingImages,
    old_size: u64,
    new_size: u64,
) -> Result<Vec<ComponentChange>, ChangeFault> {
    let old = Region::within(0, old_size, images.old_image.len()).unwrap_or_default();
    let new = Region::within(0, new_size, images.new_image.len()).unwrap_or_default();
    component_changes(rt.alloc(), keys(rt), images, RegionPair { old, new })
}

fn word(changes: &[ComponentChange]) -> &'static str {
    let [change] = changes else {
        return if changes.is_empty() { "same" } else { "other" };
    };
    let at = change.at;
    match change.what {
        ComponentDifference::Added if at == 0 => "added",
        ComponentDifference::Removed if at == 0 => "removed",
        ComponentDifference::Content => "changed",
        _ => "other",
    }
}

fn told_of(
    rt: &(impl Abort + AllocGlobal + RandomSource),
    images: &mut FailingImages,
    old_size: u64,
    new_size: u64,
) -> Result<&'static str, ChangeFault> {
    match changes_of(rt, images, old_size, new_size) {
        Ok(changes) => Ok(word(&changes)),
        Err(fault) => Err(fault),
    }
}

/// Returns a device with the component, ending with `end`.
fn device(rt: &(impl Abort + AllocGlobal), end: &[u8], calls: u64) -> Failing {
    failing(rt, 5056, &[(0, &L), (5039, end)], calls)
}

fn tells(
    rt: &(impl Abort + AllocGlobal + RandomSource),
    old_calls: u64,
    old_size: u64,
    new_calls: u64,
    new_size: u64,
    expected: Result<&'static str, ChangeFault>,
) {
    let mut images = Images {
        old_image: device(rt, b"", old_calls),
        new_image: device(rt, b"x", new_calls),
    };
    let told = told_of(rt, &mut images, old_size, new_size);
    equal(rt, &told, &expected);
    drop(images);
}

#[test]
fn a_region_that_is_absent(rt: HostRuntime) {
    tells(&rt, ALL, 5056, ALL, 5057, Ok("removed"));
    tells(&rt, ALL, 5057, ALL, 5056, Ok("added"));
    tells(&rt, ALL, 5057, ALL, 5057, Ok("same"));
}

/// Checks whole devices: a call lists the region, two compare contents.
fn changes_after(
    rt: &(impl Abort + AllocGlobal + RandomSource),
    old: u64,
    new: u64,
    expected: Result<&'static str, ChangeFault>,
) {
    tells(rt, old, 5056, new, 5056, expected);
}

#[test]
fn regions_on_devices_that_refuse_a_read(rt: HostRuntime) {
    changes_after(&rt, 0, 0, Err(ChangeFault::OldDevice));
    changes_after(&rt, 9, 0, Err(ChangeFault::NewDevice));
    changes_after(&rt, 1, 9, Err(ChangeFault::OldDevice));
    changes_after(&rt, 9, 1, Err(ChangeFault::NewDevice));
    changes_after(&rt, 2, 9, Err(ChangeFault::OldDevice));
    changes_after(&rt, 9, 2, Err(ChangeFault::NewDevice));
    changes_after(&rt, 9, 9, Ok("changed"));
}
