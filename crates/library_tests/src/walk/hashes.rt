//! The digest of a component of several pieces.
ghost use Rattle.std.specs.Prelude.{◌≡◌, false};
ghost use Rattle.flash_format.specs.Head.{is_free};
ghost use Rattle.cbfs_walk.specs.Cells.{IsCellIn};

use crate::support::{Parts, device_with, equal, failing};
use crate::walk::walks::whole;
use cbfs_walk::{Cell, HashState, check_hash, find};
use flash_format::Digest;
use flash_store::{FlashFault, Paged, Region};
use std::process::Abort;

/// The component `h` of 4097 bytes, up to the digest.
const HASHED: [u8; 52] =
    *b"LARCHIVE\0\0\x10\x01\0\0\0\x50\0\0\0\x28\0\0\0\x54h\0\0\0\0\0\0\0\0\0\0\0\0\0\0\0hsaH\0\0\
    \0\x2c\0\0\0\x02";

/// The content, and the digest as computed by Python.
const CONTENT: [u8; 4097] = [7; 4097];

const DIGEST: [u8; 32] =
    *b"\xf9\xec\xad\x1d\x08\x5b\x61\x90\x73\xe6\x7e\x60\x33\x43\x0a\x0f\x92\xa8\x93\x28\x89\x0c\
    \xcb\xdf\x9e\x7c\x10\xc3\x46\x64\xad\x53";

const PARTS: Parts = &[(0, &HASHED), (52, &DIGEST), (84, &CONTENT)];

fn hashed(rt: &(impl Abort + AllocGlobal)) -> (Region, Cell)
    ensures cell { IsCellIn result.0.size result.1 }
    ensures component { is_free result.1.head ≡ false }
{
    let mut paged = Paged::new(device_with(rt, 4544, PARTS));
    let region = whole(rt, &paged);
    let cell = find(&mut paged, region, b"h").expect(rt, "a search");
    drop(paged);
    (region, cell.expect(rt, "a component"))
}

fn fails_after(rt: &(impl Abort + AllocGlobal), calls: u64, want: &Result<HashState, FlashFault>) {
    let mut paged = failing(rt, 4544, PARTS, calls);
    let (region, cell) = hashed(rt);
    let end = region.start().checked_add(region.size());
    assert!(rt; end.expect(rt, "an end") <= paged.len());
    equal(rt, &check_hash(&mut paged, region, &cell), want);
    drop(paged);
}

#[test]
fn a_check_tells_each_fault(rt: HostRuntime) {
    let fault = Err(FlashFault);
    fails_after(&rt, 0, &fault);
    fails_after(&rt, 1, &fault);
    fails_after(&rt, 2, &Ok(HashState::Valid(Digest::Sha256(DIGEST))));
}
