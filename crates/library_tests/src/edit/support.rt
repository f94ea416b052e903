//! A small image, and helpers for edits.
ghost use Rattle.flash_device.specs.Regions.{LiesOn};

use crate::support::{Failing, Parts, device_from, ends_with, image_with};
use cbfs_walk::{Cell, Step, Walk};
use flash_store::{FailAt, Flash, MemFlash, MemSource, Paged, Region};
use std::alloc::AllocError;
use std::process::Abort;

/// The map of 1536 bytes: FMAP, COREBOOT and REST, of 512 bytes each.
pub const MAP: [u8; 182] = *b"__FMAP__\x01\x01\x00\x00\x00\xff\x00\x00\x00\x00\x00\x06\x00\x00\
FLASH\0\0\0\0\0\0\0\0\0\0\0\0\0\0\0\0\0\0\0\0\0\0\0\0\0\0\0\x03\x00\
\x00\x00\x00\x00\x00\x02\x00\x00FMAP\0\0\0\0\0\0\0\0\0\0\0\0\0\0\0\0\0\0\0\0\0\0\0\0\0\0\0\0\0\0\
\x00\x02\x00\x00\x00\x02\x00\x00COREBOOT\0\0\0\0\0\0\0\0\0\0\0\0\0\0\0\0\0\0\0\0\0\0\0\0\0\0\
\x00\x04\x00\x00\x00\x02\x00\x00REST\0\0\0\0\0\0\0\0\0\0\0\0\0\0\0\0\0\0\0\0\0\0\0\0\0\0\0\0\0\0";

pub const LEN: usize = 1536;

pub const START: usize = 512;

pub const SIZE: usize = 512;

/// Deleted space of 20 bytes.
pub const DELETED: [u8; 28] = *b"LARCHIVE\0\0\0\x14\0\0\0\0\0\0\0\0\0\0\0\x1c\0\0\0\0";

/// Components and free space, with name fields of 16 bytes.
pub const M: [u8; 45] =
    *b"LARCHIVE\0\0\0\x05\0\0\0\x50\0\0\0\0\0\0\0\x28m\0\0\0\0\0\0\0\0\0\0\0\0\0\0\012345";

pub const X1: [u8; 41] =
    *b"LARCHIVE\0\0\0\x01\0\0\0\x50\0\0\0\0\0\0\0\x28x\0\0\0\0\0\0\0\0\0\0\0\0\0\0\01";

pub const X2: [u8; 42] =
    *b"LARCHIVE\0\0\0\x02\0\0\0\x50\0\0\0\0\0\0\0\x28x\0\0\0\0\0\0\0\0\0\0\0\0\0\0\022";

pub const NULL_340: [u8; 40] =
    *b"LARCHIVE\0\0\x01\x54\xff\xff\xff\xff\0\0\0\0\0\0\0\x28\0\0\0\0\0\0\0\0\0\0\0\0\0\0\0\0";

/// The component `a`, as added.
pub const A: [u8; 38] = *b"LARCHIVE\0\0\0\x0a\0\0\0\x50\0\0\0\0\0\0\0\x1ca\0\0\00123456789";

/// The component `b`, as added, and before a gap of 36 bytes.
pub const B: [u8; 48] =
    *b"LARCHIVE\0\0\0\x14\0\0\0\x50\0\0\0\0\0\0\0\x1cb\0\0\0LARCHIVE89abcdefghij";

pub const B_BEFORE_GAP: [u8; 28] = *b"LARCHIVE\0\0\0\x14\0\0\0\x50\0\0\0\0\0\0\0\x40b\0\0\0";

/// Content with the magic of an entry.
pub const MAGIC_20: [u8; 20] = *b"LARCHIVE89abcdefghij";

/// Headers of empty entries, inside a region (EMPTY) or at the end (LAST).
pub const EMPTY_64: [u8; 28] = *b"LARCHIVE\0\0\0\x24\xff\xff\xff\xff\0\0\0\0\0\0\0\x1c\0\0\0\0";

pub const EMPTY_128: [u8; 28] = *b"LARCHIVE\0\0\0\x64\xff\xff\xff\xff\0\0\0\0\0\0\0\x1c\0\0\0\0";

pub const LAST_192: [u8; 28] = *b"LARCHIVE\0\0\0\xa0\xff\xff\xff\xff\0\0\0\0\0\0\0\x1c\0\0\0\0";

pub const LAST_384: [u8; 28] = *b"LARCHIVE\0\0\x01\x60\xff\xff\xff\xff\0\0\0\0\0\0\0\x1c\0\0\0\0";

pub const LAST_448: [u8; 28] = *b"LARCHIVE\0\0\x01\xa0\xff\xff\xff\xff\0\0\0\0\0\0\0\x1c\0\0\0\0";

pub const LAST_512: [u8; 28] = *b"LARCHIVE\0\0\x01\xe0\xff\xff\xff\xff\0\0\0\0\0\0\0\x1c\0\0\0\0";

#[derive(Clone, Copy)]
pub enum Held {
    Fresh,
    Between,
    /// Two components of the same name.
    Twice,
    Once,
    WithA,
    /// `a`, and `b` after a gap.
    WithLater,
    Both,
    /// `b` after the removal of `a`.
    BehindFree,
    WithB,
    /// `a`, and data in the last four bytes.
    WithLast,
    FreshBeforeLast,
}

fn parts_of(held: Held) -> Parts<'static> {
    match held {
        Held::Fresh => &[(0, &LAST_512)],
        Held::Between => &[(0, &DELETED), (64, &M), (128, &NULL_340)],
        Held::Twice => &[(0, &X1), (64, &X2), (128, &NULL_340)],
        Held::Once => &[(0, &EMPTY_64), (64, &X2), (128, &NULL_340)],
        Held::WithA => &[(0, &A), (64, &LAST_448)],
        Held::WithLater => &[
            (0, &A),
            (64, &EMPTY_128),
            (192, &B_BEFORE_GAP),
            (256, &MAGIC_20),
            (320, &LAST_192),
        ],
        Held::Both => &[(0, &A), (64, &B), (128, &LAST_384)],
        Held::BehindFree => &[(0, &EMPTY_64), (64, &B), (128, &LAST_384)],
        Held::WithB => &[(0, &B), (64, &LAST_448)],
        Held::WithLast => &[(0, &A), (64, &LAST_448), (508, b"last")],
        Held::FreshBeforeLast => &[(0, &LAST_512), (508, b"last")],
    }
}

pub fn image_of(rt: &(impl Abort + AllocGlobal), held: Held) -> Vec<u8> {
    image_with(rt, LEN, &MAP, START, parts_of(held))
}

pub fn device_of(rt: &(impl Abort + AllocGlobal), held: Held) -> MemFlash {
    device_from(rt, image_of(rt, held))
}

/// The numbers of successful calls and reads, and the length of the first failed write.
#[derive(Clone, Copy)]
pub struct Stop {
    pub calls: u64,
    pub part: usize,
    pub reads: u64,
}

pub fn stopping(device: MemFlash, stop: Stop) -> Failing {
    Paged::new(FailAt::new(device, stop.calls, stop.part))
}

pub fn holds(rt: &(impl Abort + AllocGlobal), device: MemFlash, held: Held) {
    ends_with(rt, device, image_of(rt, held));
}

pub fn part_of<F: Flash>(rt: &impl Abort, paged: &Paged<F>, start: u64, size: u64) -> Region
    ensures { LiesOn result paged.now.device }
{
    Region::within(start, size, paged.len()).expect(rt, "a region")
}

pub fn region_of<F: Flash>(rt: &impl Abort, paged: &Paged<F>) -> Region
    ensures { LiesOn result paged.now.device }
{
    part_of(rt, paged, START as u64, SIZE as u64)
}

pub fn source_of<'a>(rt: &impl Abort, bytes: &'a [u8]) -> MemSource<'a> {
    assert!(rt; bytes.len() < 1 << 32);
    MemSource::new(bytes)
}

/// Records a component: offset, header and content.
fn put_down(told: &mut Vec<u8>, cell: &Cell, bytes: &[u8]) -> Result<(), AllocError> {
    if cell.head.is_free() {
        return Ok(());
    }
    told.extend_from_slice(&cell.at.to_be_bytes())?;
    let n = (cell.head.offset as usize).saturating_add(cell.head.len as usize);
    let rest = bytes.get(cell.at as usize..).unwrap_or(&[]);
    told.extend_from_slice(rest.get(..n).unwrap_or(rest))
}

/// Records all components. Returns false at a damaged entry.
fn walk_on(
    walk: &mut Walk,
    paged: &mut Paged<MemFlash>,
    start: usize,
    told: &mut Vec<u8>,
) -> Result<bool, AllocError>
    requires { LiesOn walk.old.region paged.old.device }
{
    loop {
        match walk.next(paged) {
            Ok(Step::Cell(cell)) => {
                let bytes = paged.flash().bytes();
                put_down(told, &cell, bytes.get(start..).unwrap_or(&[]))?
            }
            Ok(Step::Tail(_) | Step::End) => return Ok(true),
            Err(_) => return Ok(false),
        }
    }
}

pub fn components(
    rt: &(impl Abort + AllocGlobal),
    device: MemFlash,
    start: usize,
    size: usize,
) -> Vec<u8> {
    let mut paged = Paged::new(device);
    let region = part_of(rt, &paged, start as u64, size as u64);
    let mut told = Vec::new(rt.alloc());
    let ends = walk_on(&mut Walk::new(region), &mut paged, start, &mut told).expect(rt, "memory");
    assert!(rt; ends);
    drop(paged);
    told
}
