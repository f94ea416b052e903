//! Checks of a region, on a failing device.
use crate::report::support::{ONE, count, keys};
use crate::support::{ALL, device_from, equal, failing, filled, write_over};
use check_findings::{CheckFault, check_region};
use flash_store::{FailAt, Paged, Region};
use std::process::Abort;
use std::random::RandomSource;

fn changes_after(
    rt: &(impl Abort + AllocGlobal + RandomSource),
    calls: u64,
    expected: Result<usize, CheckFault>,
) {
    let mut paged = failing(rt, 64, &[(0, &ONE)], calls);
    let len = paged.len();
    let region = Region::within(0, len, len).expect(rt, "a region");
    let told = count(check_region(rt.alloc(), keys(rt), &mut paged, region));
    equal(rt, &told, &expected);
    drop(paged);
}

// The findings: the content, the complete region, and three counts.
#[test]
fn the_findings_of_a_region(rt: HostRuntime) {
    changes_after(&rt, ALL, Ok(5));
}

#[test]
fn a_region_on_a_device_that_refuses_a_read(rt: HostRuntime) {
    changes_after(&rt, 0, Err(CheckFault::Device));
}

/// A component up to its content of 5036 bytes, with a digest that differs.
const HASHED: [u8; 84] = *b"LARCHIVE\0\0\x13\xac\0\0\0\x50\0\0\0\x28\0\0\0\x54\
a\0\0\0\0\0\0\0\0\0\0\0\0\0\0\0hsaH\0\0\0\x2c\0\0\0\x02dddddddddddddddddddddddddddddddd";

/// The bytes of such a component.
const CELL: usize = 5120;

const CALLS: u64 = 10_000;

/// Returns the number of reads of a region of `n` components.
fn reads_of(rt: &(impl Abort + AllocGlobal + RandomSource), n: usize) -> u64 {
    let mut bytes = filled(rt, 0, CELL.saturating_mul(n.min(1000)));
    for cell in bytes.chunks_mut(CELL) {
        write_over(cell, 0, &HASHED);
    }
    let mut paged = Paged::new(FailAt::new(device_from(rt, bytes), CALLS, 0));
    let len = paged.len();
    let region = Region::within(0, len, len).expect(rt, "a region");
    let told = count(check_region(rt.alloc(), keys(rt), &mut paged, region));
    equal(rt, &told, &Ok(n.saturating_add(4)));
    CALLS.saturating_sub(paged.into_flash().left)
}

/// The attributes of a component are read before its content, and no byte before the content twice.
#[test]
fn the_reads_of_a_region(rt: HostRuntime) {
    equal(&rt, &reads_of(&rt, 1), &2);
    equal(&rt, &reads_of(&rt, 200), &251);
}
