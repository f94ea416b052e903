//! The image of most examples, and helpers for commands.
use crate::edit::actions::{COREBOOT, answer_into};
use crate::edit::support::{A, LAST_448, LAST_512};
use crate::support::{
    ALL, Parts, device_from, equal, filled, has_all, image_with, same_bytes, write_over, writer,
};
use cbfs_commands::{Command, Refusal};
use cbfs_edit::{HashChoice, Spot};
use flash_store::Paged;
use std::process::Abort;

/// The map of 4096 bytes at 0xff000000: FMAP and COREBOOT, of 512 bytes each, and REST.
pub const BOARD: [u8; 182] = *b"__FMAP__\x01\x01\x00\x00\x00\xff\x00\x00\x00\x00\x00\x10\x00\x00\
FLASH\0\0\0\0\0\0\0\0\0\0\0\0\0\0\0\0\0\0\0\0\0\0\0\0\0\0\0\x03\x00\
\x00\x00\x00\x00\x00\x02\x00\x00FMAP\0\0\0\0\0\0\0\0\0\0\0\0\0\0\0\0\0\0\0\0\0\0\0\0\0\0\0\0\0\0\
\x00\x02\x00\x00\x00\x02\x00\x00COREBOOT\0\0\0\0\0\0\0\0\0\0\0\0\0\0\0\0\0\0\0\0\0\0\0\0\0\0\
\x00\x04\x00\x00\x00\x0c\x00\x00REST\0\0\0\0\0\0\0\0\0\0\0\0\0\0\0\0\0\0\0\0\0\0\0\0\0\0\0\0\0\0";

pub const LAST_320: [u8; 28] = *b"LARCHIVE\0\0\x01\x20\xff\xff\xff\xff\0\0\0\0\0\0\0\x1c\0\0\0\0";

/// A single empty entry.
pub const FRESH: Parts<'static> = &[(0, &LAST_512)];

pub const WITH_A: Parts<'static> = &[(0, &A), (64, &LAST_448)];

pub const PRINT: Command<'static> = Command::Print {
    region: COREBOOT,
    verbose: false,
};

pub const PRINT_ALL: Command<'static> = Command::Print {
    region: COREBOOT,
    verbose: true,
};

pub const A_AND_416: &[u8] = b"a\t0x0\traw\t10\tnone\n(empty)\t0x40\tnull\t416\tnone\n";

/// Returns the image; the region begins at 0x200.
pub fn board(rt: &(impl Abort + AllocGlobal), region: Parts) -> Vec<u8> {
    image_with(rt, 4096, &BOARD, 0x200, region)
}

pub fn changed(rt: &(impl Abort + AllocGlobal), region: Parts, at: usize, bytes: &[u8]) -> Vec<u8> {
    let mut image = board(rt, region);
    write_over(&mut image, at.saturating_add(0x200), bytes);
    image
}

/// Checks the output, the result and the image of a command.
pub fn runs(
    rt: &(impl Abort + AllocGlobal),
    image: &[u8],
    command: &Command,
    source: &[u8],
    text: &[u8],
    answer: Result<(), Refusal>,
    after: &[u8],
) {
    let mut paged = Paged::new(device_from(rt, image.to_vec(rt.alloc()).expect(rt, "memory")));
    let mut out = writer(4096, usize::MAX, text);
    equal(
        rt,
        &answer_into(rt, &mut paged, command, source, ALL, &mut out),
        &answer,
    );
    has_all(rt, out);
    same_bytes(rt, paged.flash().bytes(), after);
    drop(paged);
}

/// Checks a command without a change of the image.
pub fn shows(
    rt: &(impl Abort + AllocGlobal),
    image: &[u8],
    command: &Command,
    text: &[u8],
    answer: Result<(), Refusal>,
) {
    runs(rt, image, command, b"", text, answer, image);
}

pub fn prints(
    rt: &(impl Abort + AllocGlobal),
    region: Parts,
    text: &[u8],
    answer: Result<(), Refusal>,
) {
    shows(rt, &board(rt, region), &PRINT, text, answer);
}

pub fn prints_all(rt: &(impl Abort + AllocGlobal), region: Parts, text: &[u8]) {
    shows(rt, &board(rt, region), &PRINT_ALL, text, Ok(()));
}

pub fn extracts(
    rt: &(impl Abort + AllocGlobal),
    region: Parts,
    name: &[u8],
    content: &[u8],
    answer: Result<(), Refusal>,
) {
    let command = Command::Extract {
        region: COREBOOT,
        name,
    };
    shows(rt, &board(rt, region), &command, content, answer);
}

#[derive(Clone, Copy)]
pub struct Addition<'a> {
    pub name: &'a [u8],
    pub hash: HashChoice,
    pub spot: Spot,
    pub content: &'a [u8],
}

pub fn plain<'a>(name: &'a [u8], content: &'a [u8]) -> Addition<'a> {
    spotted(name, Spot::First, content)
}

pub fn spotted<'a>(name: &'a [u8], spot: Spot, content: &'a [u8]) -> Addition<'a> {
    Addition {
        name,
        hash: HashChoice::Plain,
        spot,
        content,
    }
}

pub fn adds_to(
    rt: &(impl Abort + AllocGlobal),
    before: &[u8],
    addition: Addition,
    kind: u32,
    answer: Result<(), Refusal>,
    after: &[u8],
) {
    let command = Command::Add {
        region: COREBOOT,
        name: addition.name,
        kind,
        hash: addition.hash,
        spot: addition.spot,
    };
    runs(rt, before, &command, addition.content, b"", answer, after);
}

pub fn adds(rt: &(impl Abort + AllocGlobal), before: Parts, addition: Addition, after: Parts) {
    adds_to(
        rt,
        &board(rt, before),
        addition,
        0x50,
        Ok(()),
        &board(rt, after),
    );
}

pub fn refuses(
    rt: &(impl Abort + AllocGlobal),
    region: Parts,
    addition: Addition,
    refusal: Refusal,
) {
    let image = board(rt, region);
    adds_to(rt, &image, addition, 0x50, Err(refusal), &image);
}

pub fn removes(
    rt: &(impl Abort + AllocGlobal),
    before: Parts,
    name: &[u8],
    answer: Result<(), Refusal>,
    after: Parts,
) {
    let command = Command::Remove {
        region: COREBOOT,
        name,
    };
    runs(
        rt,
        &board(rt, before),
        &command,
        b"",
        b"",
        answer,
        &board(rt, after),
    );
}

/// Returns `len` bytes without 0xff.
pub fn content(rt: &(impl Abort + AllocGlobal), len: usize) -> Vec<u8> {
    let mut bytes = filled(rt, 0, len);
    for (i, byte) in bytes.iter_mut().enumerate() {
        *byte = (i % 251) as u8;
    }
    bytes
}
