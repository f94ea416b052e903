//! Short and failed reads and writes of the compiler.

use crate::support::{Short, equal, has_all, writer};
use flash_store::WriteSink;
use fmap_compiler::{ReadText, Refusal, run};
use fmd_lang::{Expected, FmdFault};
use std::io::{self, ErrorKind, Read};
use std::process::Abort;

pub const TEXT: &[u8] = b"FLASH@0xff000000 0x1000 { FMAP 0x200 COREBOOT(CBFS) }";

/// The encoded table of `TEXT`.
pub const TABLE: [u8; 140] = *b"__FMAP__\x01\x01\x00\x00\x00\xff\x00\x00\x00\x00\x00\x10\x00\x00\
FLASH\0\0\0\0\0\0\0\0\0\0\0\0\0\0\0\0\0\0\0\0\0\0\0\0\0\0\0\x02\x00\
\x00\x00\x00\x00\x00\x02\x00\x00\
FMAP\0\0\0\0\0\0\0\0\0\0\0\0\0\0\0\0\0\0\0\0\0\0\0\0\0\0\0\0\x00\x00\
\x00\x02\x00\x00\x00\x0e\x00\x00\
COREBOOT\0\0\0\0\0\0\0\0\0\0\0\0\0\0\0\0\0\0\0\0\0\0\0\0\x00\x00";

/// A reader of `pieces`, followed by single bytes, with an error after `good` bytes.
#[derive(Drop)]
struct Pieces<'a> {
    rest: &'a [u8],
    pieces: &'a [usize],
    good: usize,
}

impl Read for Pieces<'_> {
    fn read(&mut self, buf: &mut [u8]) -> io::Result<usize> {
        if self.good == 0 {
            return Err(io::Error::from(ErrorKind::Other));
        }
        let mut piece = 1;
        if let [first, later @ ..] = self.pieces {
            piece = *first;
            self.pieces = later;
        }
        let n = piece.min(self.good).min(self.rest.len()).min(buf.len());
        let (given, rest) = self.rest.split_at(n);
        buf[..n].copy_from_slice(given);
        self.rest = rest;
        self.good -= n;
        Ok(n)
    }
}

#[derive(Drop)]
struct Blanks {
    left: usize,
    taken: usize,
}

impl Read for Blanks {
    fn read(&mut self, buf: &mut [u8]) -> io::Result<usize> {
        let n = buf.len().min(self.left);
        buf[..n].fill(b' ');
        self.left -= n;
        self.taken = self.taken.saturating_add(n);
        Ok(n)
    }
}

/// Compiles `TEXT` in `pieces`, with an error after `good` bytes, and checks the result.
fn compiles(
    rt: &(impl Abort + AllocGlobal),
    pieces: &[usize],
    good: usize,
    out: &mut WriteSink<Short<'_>>,
    wanted: Result<(), Refusal>,
) {
    let mut reader = ReadText::new(Pieces {
        rest: TEXT,
        pieces,
        good,
    });
    equal(rt, &run(rt.alloc(), &mut reader, out), &wanted);
}

fn reads(rt: &(impl Abort + AllocGlobal), pieces: &[usize]) {
    let mut out = writer(4096, 4096, &TABLE);
    compiles(rt, pieces, usize::MAX, &mut out, Ok(()));
    has_all(rt, out);
}

#[test]
fn any_pieces_make_the_same_table(rt: HostRuntime) {
    reads(&rt, &[]);
    reads(&rt, &[1, 2, 3, 5, 8, 13, 21]);
    reads(&rt, &[4096]);
}

fn failing_after(rt: &(impl Abort + AllocGlobal), good: usize) {
    let mut out = writer(4096, 4096, &[]);
    compiles(rt, &[10, 9, 40], good, &mut out, Err(Refusal::Read));
    has_all(rt, out);
}

#[test]
fn a_reader_that_fails_leaves_nothing_written(rt: HostRuntime) {
    failing_after(&rt, 0);
    failing_after(&rt, 1);
    failing_after(&rt, 20);
    failing_after(&rt, TEXT.len());
}

/// Checks that a writer with this room takes the beginning of the table.
fn writes(rt: &(impl Abort + AllocGlobal), piece: usize, room: usize, written: usize) {
    let mut out = writer(piece, room, TABLE.get(..written).expect(rt, "a prefix"));
    let wanted = if written < TABLE.len() {
        Err(Refusal::Output)
    } else {
        Ok(())
    };
    compiles(rt, &[4096], usize::MAX, &mut out, wanted);
    has_all(rt, out);
}

#[test]
fn a_writer_that_fails_has_a_prefix_of_the_table(rt: HostRuntime) {
    writes(&rt, 140, 60, 60);
    writes(&rt, 7, 60, 60);
    writes(&rt, 140, 139, 139);
    writes(&rt, 140, 0, 0);
    writes(&rt, 3, 140, 140);
    writes(&rt, 1, 140, 140);
    // Each write returns 0.
    writes(&rt, 0, 140, 0);
}

fn refused_blanks(rt: &(impl Abort + AllocGlobal), left: usize, fault: FmdFault, taken: usize) {
    let mut reader = ReadText::new(Blanks { left, taken: 0 });
    let answer = run(rt.alloc(), &mut reader, &mut writer(4096, 0, &[]));
    equal(rt, &answer, &Err(Refusal::Descriptor(fault)));
    equal(rt, &reader.into_inner().taken, &taken);
}

#[test]
fn no_more_is_read_than_tells_that_a_text_is_too_long(rt: HostRuntime) {
    let what = Expected::Section;
    let no_section = FmdFault::Expected {
        at: 1_048_576,
        what,
    };
    refused_blanks(&rt, 1_048_576, no_section, 1_048_576);
    refused_blanks(&rt, 1_048_577, FmdFault::TextTooLong, 1_048_577);
    refused_blanks(&rt, 1_048_578, FmdFault::TextTooLong, 1_048_577);
    refused_blanks(&rt, 3_000_000, FmdFault::TextTooLong, 1_048_577);
    let no_section = FmdFault::Expected { at: 0, what };
    refused_blanks(&rt, 0, no_section, 0);
}
