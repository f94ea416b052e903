//! Seals, with a failure at each call of a device or a file.
use crate::edit::support::{LAST_384, Stop, stopping};
use crate::rows::support::board;
use crate::support::{ALL, Parts, device_from, equal, is_same, same_bytes, write_over};
use cbfs_anchor::{Demand, SealFault, seal};
use flash_store::{EraseFilter, FlakyFile, Flash, Paged, ReadAhead, StoredFlash};
use std::process::Abort;

/// A bootblock up to its digests: the header, the name, and the first 12 bytes of an anchor for
/// SHA-256.
const BOOTBLOCK: [u8; 52] =
    *b"LARCHIVE\0\0\0\x4c\0\0\0\x01\0\0\0\0\0\0\0\x28bootblock\0\0\0\0\0\0\0\
\xad\x4d\x64\x74\x48\x73\x68\x15\0\0\0\x02";

/// The SHA-256 of the header and the name, and of the 182 bytes of the map, by Python's hashlib.
const DIGESTS: [u8; 64] = *b"\
\x2f\x7b\xd0\x57\x1a\x49\x04\x90\x91\x24\x9f\x31\xa6\xc3\x26\x07\xc4\xd1\x6c\x18\x87\x77\
\x31\x1a\x6e\x2b\x4b\x7d\x87\xce\x66\x77\xee\xf4\x2c\x82\xeb\x35\x7e\xff\xac\x60\x97\xcc\
\xe5\x68\x55\x06\x1d\x58\x43\x35\xcd\xc8\x3a\xe6\xe0\x8f\x63\x91\x69\xc6\x2d\x5e";

/// An image before the seal, and the parts of its region.
const OUTDATED: Parts<'static> = &[(0, &BOOTBLOCK), (52, &[b'd'; 64]), (128, &LAST_384)];

/// The offset of the digests in the image.
const DIGESTS_START: usize = 0x200 + 52;

/// Returns the outdated image with the first `n` bytes of the right digests.
fn partly_sealed(rt: &(impl Abort + AllocGlobal), n: usize) -> Vec<u8> {
    let mut image = board(rt, OUTDATED);
    write_over(
        &mut image,
        DIGESTS_START,
        DIGESTS.get(..n).unwrap_or(&DIGESTS),
    );
    image
}

/// Seals an image, and returns the fault, if any.
fn fault_of<F: Flash>(paged: &mut Paged<F>) -> Option<SealFault> {
    seal(paged, Demand::Loaded).err()
}

/// Checks a sealed image, or after a fault an image with the digests of before, or with `part`
/// right bytes. Returns true after success.
fn has_ended(
    rt: &(impl Abort + AllocGlobal),
    fault: Option<SealFault>,
    left: &[u8],
    part: usize,
) -> bool {
    if fault.is_none() {
        same_bytes(rt, left, &partly_sealed(rt, 64));
        return true;
    }
    equal(rt, &fault, &Some(SealFault::Device));
    let is_old = is_same(left, &partly_sealed(rt, 0));
    equal(
        rt,
        &(is_old || is_same(left, &partly_sealed(rt, part))),
        &true,
    );
    false
}

fn on_device(rt: &(impl Abort + AllocGlobal), calls: u64, part: usize) -> bool {
    let stop = Stop {
        calls,
        part,
        reads: ALL,
    };
    let mut paged = stopping(device_from(rt, board(rt, OUTDATED)), stop);
    let fault = fault_of(&mut paged);
    let device = paged.into_flash().into_inner();
    let is_done = has_ended(rt, fault, device.bytes(), part);
    drop(device);
    is_done
}

/// Returns the number of calls that suffice.
fn calls_of(rt: &(impl Abort + AllocGlobal), part: usize) -> u64 {
    for calls in 0..100 {
        if on_device(rt, calls, part) {
            return calls;
        }
    }
    100
}

#[test]
fn a_device_that_fails_at_each_call(rt: HostRuntime) {
    for part in [0, 1, 32, 63, 64] {
        equal(&rt, &calls_of(&rt, part), &2);
    }
}

/// Seals an image in a file with transfers of at most `most` bytes, interruptions after each three
/// calls, and a failure after `made` calls.
fn on_file(rt: &(impl Abort + AllocGlobal), most: usize, made: u64) -> bool {
    let image = board(rt, OUTDATED);
    assert!(rt; image.len() == 4096);
    let file = EraseFilter::new(FlakyFile::new(image, most, 3, made));
    let mut paged = Paged::new(StoredFlash::new(ReadAhead::new(file)));
    let fault = fault_of(&mut paged);
    let file = paged.into_flash().into_inner().into_inner().into_inner();
    let n = written_of(file.bytes(), most);
    let is_done = has_ended(rt, fault, file.bytes(), n);
    drop(file);
    is_done
}

/// Returns the number of right bytes, by whole pieces.
fn written_of(left: &[u8], most: usize) -> usize {
    let mut n: usize = 0;
    for piece in DIGESTS.chunks(most.max(1)) {
        let written = left.get(DIGESTS_START.saturating_add(n)..).unwrap_or(&[]);
        if !written.starts_with(piece) {
            return n;
        }
        n = n.saturating_add(piece.len());
    }
    n
}

fn stops(rt: &(impl Abort + AllocGlobal), most: usize) {
    for made in 0..4000 {
        if on_file(rt, most, made) {
            assert!(rt; made > 0);
            return;
        }
    }
    assert!(rt; false);
}

#[test]
fn a_file_that_fails_at_each_call(rt: HostRuntime) {
    stops(&rt, 7);
    stops(&rt, 64);
    stops(&rt, 4096);
}
