//! A region of several pieces, with a fault at each read and each call.

use crate::edit::actions::{COREBOOT, stopped};
use crate::edit::support::{Stop, components};
use crate::support::{ALL, Parts, device_from, ends_with, filled, image_with, same_bytes};
use cbfs_commands::{Command, Refusal};
use cbfs_edit::{HashChoice, Spot};
use flash_store::MemFlash;
use std::process::Abort;

/// The map of 32,768 bytes: FMAP and COREBOOT, half each.
pub const HALVES: [u8; 140] = *b"__FMAP__\x01\x01\0\0\0\0\0\0\0\0\0\x80\0\0\
F\0\0\0\0\0\0\0\0\0\0\0\0\0\0\0\0\0\0\0\0\0\0\0\0\0\0\0\0\0\0\0\x02\0\
\0\0\0\0\0\x40\0\0FMAP\0\0\0\0\0\0\0\0\0\0\0\0\0\0\0\0\0\0\0\0\0\0\0\0\0\0\0\0\0\0\
\0\x40\0\0\0\x40\0\0COREBOOT\0\0\0\0\0\0\0\0\0\0\0\0\0\0\0\0\0\0\0\0\0\0\0\0\0\0";

/// The offset and the length of COREBOOT.
const HALF: usize = 16384;

const LAST_16384: [u8; 28] = *b"LARCHIVE\0\0\x3f\xe0\xff\xff\xff\xff\0\0\0\0\0\0\0\x1c\0\0\0\0";

const LAST_7104: [u8; 28] = *b"LARCHIVE\0\0\x1b\xa0\xff\xff\xff\xff\0\0\0\0\0\0\0\x1c\0\0\0\0";

const EMPTY_192: [u8; 28] = *b"LARCHIVE\0\0\0\xa4\xff\xff\xff\xff\0\0\0\0\0\0\0\x1c\0\0\0\0";

/// The metadata before a gap of 36 bytes.
const B_9000: [u8; 28] = *b"LARCHIVE\0\0\x23\x28\0\0\0\x50\0\0\0\0\0\0\0\x40b\0\0\0";

const ADD: Command<'static> = Command::Add {
    region: COREBOOT,
    name: b"b",
    kind: 0x50,
    hash: HashChoice::Plain,
    spot: Spot::Aligned(256),
};

const WRITE: Command<'static> = Command::Write { region: COREBOOT };

fn halves(rt: &(impl Abort + AllocGlobal), parts: Parts) -> Vec<u8> {
    image_with(rt, 32768, &HALVES, HALF, parts)
}

fn device(rt: &(impl Abort + AllocGlobal)) -> MemFlash {
    device_from(rt, halves(rt, &[(0, &LAST_16384)]))
}

// ---- raw writes

fn numbered(rt: &(impl Abort + AllocGlobal)) -> Vec<u8> {
    let mut bytes = filled(rt, 0, HALF);
    for (i, byte) in bytes.iter_mut().enumerate() {
        *byte = (i % 251) as u8;
    }
    bytes
}

/// Checks that the first `n` bytes are written.
fn writes(
    rt: &(impl Abort + AllocGlobal),
    bytes: &[u8],
    stop: Stop,
    want: &Result<(), Refusal>,
    n: usize,
) {
    let device = stopped(rt, device(rt), &WRITE, bytes, stop, want);
    let written = bytes.get(..n).unwrap_or(bytes);
    ends_with(rt, device, halves(rt, &[(0, &LAST_16384), (0, written)]));
}

fn reads(
    rt: &(impl Abort + AllocGlobal),
    bytes: &[u8],
    reads: u64,
    want: &Result<(), Refusal>,
    n: usize,
) {
    let stop = Stop {
        calls: 5,
        part: 0,
        reads,
    };
    writes(rt, bytes, stop, want, n);
}

fn refuse_reads(rt: &(impl Abort + AllocGlobal), bytes: &[u8]) {
    let fault = Err(Refusal::Source);
    reads(rt, bytes, 0, &fault, 0);
    reads(rt, bytes, 1, &fault, 4096);
    reads(rt, bytes, 2, &fault, 8192);
    reads(rt, bytes, 3, &fault, 12288);
    reads(rt, bytes, 4, &Ok(()), HALF);
}

#[test]
fn a_source_that_fails_at_any_read(rt: HostRuntime) {
    refuse_reads(&rt, &numbered(&rt));
}

fn calls(rt: &(impl Abort + AllocGlobal), bytes: &[u8], calls: u64, part: usize, n: usize) {
    let stop = Stop {
        calls,
        part,
        reads: 4,
    };
    writes(rt, bytes, stop, &Err(Refusal::Device), n);
}

/// Checks a fault at each call: a search of the region, and four writes. The failed write writes
/// `part` bytes.
fn refuse_calls(rt: &(impl Abort + AllocGlobal), bytes: &[u8], part: usize) {
    calls(rt, bytes, 0, part, 0);
    calls(rt, bytes, 1, part, part);
    calls(rt, bytes, 2, part, part.saturating_add(4096));
    calls(rt, bytes, 3, part, part.saturating_add(8192));
    calls(rt, bytes, 4, part, part.saturating_add(12288));
}

fn refuse_all(rt: &(impl Abort + AllocGlobal), bytes: &[u8]) {
    refuse_calls(rt, bytes, 0);
    refuse_calls(rt, bytes, 17);
    refuse_calls(rt, bytes, 4096);
}

#[test]
fn a_device_that_fails_at_any_call(rt: HostRuntime) {
    refuse_all(&rt, &numbered(&rt));
}

// ---- additions

fn adds(
    rt: &(impl Abort + AllocGlobal),
    bytes: &[u8],
    reads: u64,
    want: &Result<(), Refusal>,
) -> MemFlash {
    let stop = Stop {
        calls: ALL,
        part: 0,
        reads,
    };
    stopped(rt, device(rt), &ADD, bytes, stop, want)
}

/// Checks that a source fault adds no component.
fn stops(rt: &(impl Abort + AllocGlobal), bytes: &[u8], reads: u64) {
    let device = adds(rt, bytes, reads, &Err(Refusal::Source));
    same_bytes(rt, &components(rt, device, HALF, HALF), b"");
}

fn finishes(rt: &(impl Abort + AllocGlobal), bytes: &[u8], reads: u64) {
    let device = adds(rt, bytes, reads, &Ok(()));
    let parts: Parts = &[
        (0, &EMPTY_192),
        (192, &B_9000),
        (256, bytes),
        (9280, &LAST_7104),
    ];
    ends_with(rt, device, halves(rt, parts));
}

fn stop_reads(rt: &(impl Abort + AllocGlobal), bytes: &[u8]) {
    stops(rt, bytes, 0);
    stops(rt, bytes, 1);
    stops(rt, bytes, 2);
    finishes(rt, bytes, 3);
}

#[test]
fn a_source_stops_at_any_read(rt: HostRuntime) {
    stop_reads(&rt, &filled(&rt, 0x61, 9000));
}
