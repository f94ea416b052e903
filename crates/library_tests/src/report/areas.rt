//! Changes of areas, on failing devices.
use crate::support::{ALL, Failing, FailingImages, equal, failing};
use check_changes::{Areas, ChangeFault, Images, image_changes};
use check_findings::NumberedArea;
use flash_format::Area;
use std::process::Abort;

const AREAS: [NumberedArea; 3] = [
    NumberedArea {
        number: 0,
        area: Area {
            offset: 0,
            size: 8192,
            name: *b"BOTH\0\0\0\0\0\0\0\0\0\0\0\0\0\0\0\0\0\0\0\0\0\0\0\0\0\0\0\0",
            flags: 0,
        },
    },
    NumberedArea {
        number: 1,
        area: Area {
            offset: 0,
            size: 4096,
            name: *b"FIRST\0\0\0\0\0\0\0\0\0\0\0\0\0\0\0\0\0\0\0\0\0\0\0\0\0\0\0",
            flags: 0,
        },
    },
    NumberedArea {
        number: 2,
        area: Area {
            offset: 4096,
            size: 4096,
            name: *b"SECOND\0\0\0\0\0\0\0\0\0\0\0\0\0\0\0\0\0\0\0\0\0\0\0\0\0\0",
            flags: 0,
        },
    },
];

/// Returns the numbers of changed blocks and areas.
fn told_between(
    rt: &(impl Abort + AllocGlobal),
    images: &mut FailingImages,
) -> Result<(u32, usize), ChangeFault> {
    let areas = Areas {
        old: &AREAS,
        new: &AREAS,
    };
    match image_changes(rt.alloc(), images, areas) {
        Ok(changes) => Ok((changes.blocks, changes.areas.len())),
        Err(fault) => Err(fault),
    }
}

fn beginning(rt: &(impl Abort + AllocGlobal), bytes: &[u8], calls: u64) -> Failing {
    failing(rt, 8192, &[(0, bytes)], calls)
}

/// Compares images that differ in the first block.
fn changes_after(
    rt: &(impl Abort + AllocGlobal),
    old_calls: u64,
    new_calls: u64,
    expected: Result<(u32, usize), ChangeFault>,
) {
    let mut images = Images {
        old_image: beginning(rt, b"", old_calls),
        new_image: beginning(rt, b"x", new_calls),
    };
    equal(rt, &told_between(rt, &mut images), &expected);
    drop(images);
}

#[test]
fn areas_on_devices_that_refuse_a_read(rt: HostRuntime) {
    changes_after(&rt, 0, 2, Err(ChangeFault::OldDevice));
    changes_after(&rt, 1, 2, Err(ChangeFault::OldDevice));
    changes_after(&rt, 2, 0, Err(ChangeFault::NewDevice));
    changes_after(&rt, 2, 1, Err(ChangeFault::NewDevice));
}

// Each block is read for the image, and for each area with the block. Two areas have the changed
// block.
#[test]
fn areas_that_stay(rt: HostRuntime) {
    changes_after(&rt, ALL, ALL, Ok((1, 2)));
    changes_after(&rt, 3, ALL, Err(ChangeFault::OldDevice));
    changes_after(&rt, ALL, 3, Err(ChangeFault::NewDevice));
}
