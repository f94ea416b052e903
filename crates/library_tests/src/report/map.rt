//! Checks of a map, on a failing device.
use crate::report::support::image;
use crate::support::{ALL, equal};
use check_findings::{CheckFault, check_map};
use std::process::Abort;

fn changes_after(rt: &(impl Abort + AllocGlobal), calls: u64, expected: Result<usize, CheckFault>) {
    let mut paged = image(rt, b"", calls);
    let found = match check_map(rt.alloc(), &mut paged) {
        Ok(checked) => Ok(checked.findings.len()),
        Err(fault) => Err(fault),
    };
    equal(rt, &found, &expected);
    drop(paged);
}

#[test]
fn a_device_that_refuses_a_read(rt: HostRuntime) {
    changes_after(&rt, 0, Err(CheckFault::Device));
    changes_after(&rt, 1, Err(CheckFault::Device));
    changes_after(&rt, 2, Err(CheckFault::Device));
    changes_after(&rt, ALL, Ok(1));
}
