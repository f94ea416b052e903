//! Helpers of all tests. `equal` and explicit `drop` shorten the proofs by a second or two each.
use check_changes::Images;
use flash_store::{FailAt, MemFlash, Paged, WriteSink};
use std::fmt::Debug;
use std::io::{self, ErrorKind, Write};
use std::process::Abort;

/// Parts of an image, written in order, and truncated at the end. Other bytes are 0xff.
pub type Parts<'a> = &'a [(usize, &'a [u8])];

pub fn filled(rt: &(impl Abort + AllocGlobal), byte: u8, len: usize) -> Vec<u8> {
    Vec::from_elem(rt.alloc(), byte, len).expect(rt, "memory")
}

/// Overwrites bytes, truncated at the end.
pub fn write_over(bytes: &mut [u8], at: usize, part: &[u8]) {
    let start = at.min(bytes.len());
    let rest = &mut bytes[start..];
    let n = part.len().min(rest.len());
    rest[..n].copy_from_slice(&part[..n]);
}

pub fn device_from(rt: &impl Abort, bytes: Vec<u8>) -> MemFlash {
    MemFlash::new(bytes).expect(rt, "a device")
}

/// Returns an image with a map, and parts from `start` on.
pub fn image_with(
    rt: &(impl Abort + AllocGlobal),
    len: usize,
    map: &[u8],
    start: usize,
    parts: Parts,
) -> Vec<u8> {
    let mut image = filled(rt, 0xff, len);
    write_over(&mut image, 0, map);
    for (at, part) in parts {
        write_over(&mut image, at.saturating_add(start), part);
    }
    image
}

pub fn device_with(rt: &(impl Abort + AllocGlobal), len: usize, parts: Parts) -> MemFlash {
    device_from(rt, image_with(rt, len, &[], 0, parts))
}

/// A device with a limited number of successful calls.
pub type Failing = Paged<FailAt<MemFlash>>;

/// Two images on such devices.
pub type FailingImages = Images<FailAt<MemFlash>, FailAt<MemFlash>>;

pub fn failing(rt: &(impl Abort + AllocGlobal), len: usize, parts: Parts, calls: u64) -> Failing {
    Paged::new(FailAt::new(device_with(rt, len, parts), calls, 0))
}

pub fn ends_with(rt: &impl Abort, device: MemFlash, wanted: Vec<u8>) {
    same_bytes(rt, device.bytes(), &wanted);
    drop(device);
}

pub const ALL: u64 = 1000;

pub fn equal<T: PartialEq + Debug>(rt: &impl Abort, left: &T, right: &T) {
    assert_eq!(rt; *left, *right);
}

pub fn is_same(left: &[u8], right: &[u8]) -> bool {
    left == right
}

pub fn same_bytes(rt: &impl Abort, left: &[u8], right: &[u8]) {
    equal(rt, &left, &right);
}

/// A writer with expected bytes, writes of at most `piece` bytes, and an error after `room` bytes.
#[derive(Drop)]
pub struct Short<'a> {
    rest: &'a [u8],
    piece: usize,
    room: usize,
    differs: bool,
}

impl Write for Short<'_> {
    fn write(&mut self, buf: &[u8]) -> io::Result<usize> {
        if self.room == 0 {
            return Err(io::Error::from(ErrorKind::StorageFull));
        }
        let n = buf.len().min(self.piece).min(self.room);
        if !self.rest.starts_with(&buf[..n]) {
            self.differs = true;
        }
        self.rest = self.rest.get(n..).unwrap_or(&[]);
        self.room = self.room.saturating_sub(n);
        Ok(n)
    }

    fn flush(&mut self) -> io::Result<()> {
        Ok(())
    }
}

pub fn writer(piece: usize, room: usize, bytes: &[u8]) -> WriteSink<Short<'_>> {
    WriteSink::new(Short {
        rest: bytes,
        piece,
        room,
        differs: false,
    })
}

pub fn took_all(writer: WriteSink<Short<'_>>) -> bool {
    let Short { rest, differs, .. } = writer.into_inner();
    rest.is_empty() && !differs
}

/// Returns whether all received bytes were expected, and whether they were all expected bytes.
pub fn took_part(writer: WriteSink<Short<'_>>) -> (bool, bool) {
    let Short { rest, differs, .. } = writer.into_inner();
    (!differs, rest.is_empty())
}

pub fn has_all(rt: &impl Abort, writer: WriteSink<Short<'_>>) {
    assert!(rt; took_all(writer));
}

pub fn took_none(rt: &impl Abort, writer: WriteSink<Short<'_>>, wanted: usize) {
    let Short { rest, differs, .. } = writer.into_inner();
    assert!(rt; rest.len() == wanted && !differs);
}
