//! Changes of two regions, on failing devices.
use crate::report::support::{MAP, ONE, count, keys};
use crate::support::{ALL, Failing, FailingImages, equal, failing};
use check_changes::{ChangeFault, Images, region_changes};
use check_findings::{NumberedArea, check_image};
use flash_format::Area;
use std::process::Abort;
use std::random::RandomSource;

const AREAS: [NumberedArea; 2] = [
    NumberedArea {
        number: 1,
        area: Area {
            offset: 256,
            size: 256,
            name: *b"A\0\0\0\0\0\0\0\0\0\0\0\0\0\0\0\0\0\0\0\0\0\0\0\0\0\0\0\0\0\0\0",
            flags: 0,
        },
    },
    NumberedArea {
        number: 2,
        area: Area {
            offset: 5120,
            size: 256,
            name: *b"B\0\0\0\0\0\0\0\0\0\0\0\0\0\0\0\0\0\0\0\0\0\0\0\0\0\0\0\0\0\0\0",
            flags: 0,
        },
    },
];

fn with_both(rt: &(impl Abort + AllocGlobal), calls: u64) -> Failing {
    failing(rt, 8192, &[(0, &MAP), (256, &ONE), (5120, &ONE)], calls)
}

/// Returns the number of reported regions.
fn told_between(
    rt: &(impl Abort + AllocGlobal + RandomSource),
    images: &mut FailingImages,
) -> Result<usize, ChangeFault> {
    let new = &mut images.new_image;
    let checked = check_image(rt.alloc(), keys(rt), new, &[], &[]).expect(rt, "findings");
    count(region_changes(rt.alloc(), keys(rt), images, &AREAS, &checked.findings))
}

/// Checks the result within `old` and `new` calls. The check of the new image makes eight calls,
/// and the last one reads another page than that of the first area.
fn changes_after(
    rt: &(impl Abort + AllocGlobal + RandomSource),
    old: u64,
    new: u64,
    expected: Result<usize, ChangeFault>,
) {
    let mut images = Images {
        old_image: with_both(rt, old),
        new_image: with_both(rt, new),
    };
    equal(rt, &told_between(rt, &mut images), &expected);
    drop(images);
}

#[test]
fn regions_that_stay(rt: HostRuntime) {
    changes_after(&rt, ALL, ALL, Ok(2));
}

#[test]
fn images_on_devices_that_refuse_a_read(rt: HostRuntime) {
    changes_after(&rt, 0, 8, Err(ChangeFault::OldDevice));
    changes_after(&rt, 1, 8, Err(ChangeFault::NewDevice));
    changes_after(&rt, 1, 9, Err(ChangeFault::OldDevice));
    changes_after(&rt, 2, 9, Err(ChangeFault::NewDevice));
    changes_after(&rt, 2, 10, Ok(2));
}
