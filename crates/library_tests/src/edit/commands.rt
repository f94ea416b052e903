//! Output faults, sizes of new images, and failed creations.

use crate::edit::actions::{COREBOOT, answer_into, stopped};
use crate::edit::support::{LEN, MAP, Stop, source_of, stopping};
use crate::rows::hostile::{A_AND_404, PADDED};
use crate::rows::support::board;
use crate::support::{ALL, device_from, ends_with, equal, filled, has_all, writer};
use arrayvec::ArrayVec;
use cbfs_commands::{Command, MOST_REGIONS, Refusal, create_size};
use flash_store::{FailSource, MemFlash};
use std::process::Abort;

const PRINT: Command<'static> = Command::Print {
    region: COREBOOT,
    verbose: false,
};

// ---- outputs

fn tells(
    rt: &(impl Abort + AllocGlobal),
    calls: u64,
    command: &Command,
    piece: usize,
    room: usize,
    text: &[u8],
    answer: Result<(), Refusal>,
) {
    let stop = Stop {
        calls,
        part: 0,
        reads: 0,
    };
    let mut paged = stopping(device_from(rt, board(rt, PADDED)), stop);
    let mut out = writer(piece, room, text);
    equal(
        rt,
        &answer_into(rt, &mut paged, command, b"", 0, &mut out),
        &answer,
    );
    has_all(rt, out);
    drop(paged);
}

/// Checks that an output fault leaves a prefix of `text`.
fn tells_what_has_room(rt: &(impl Abort + AllocGlobal), command: &Command, text: &[u8]) {
    for room in 0..text.len() {
        let first = text.get(..room).unwrap_or(text);
        tells(rt, ALL, command, 4096, room, first, Err(Refusal::Output));
    }
    tells(rt, ALL, command, 0, 4096, b"", Err(Refusal::Output));
    tells(rt, ALL, command, 3, 4096, text, Ok(()));
}

fn prints(rt: &(impl Abort + AllocGlobal)) {
    tells_what_has_room(rt, &PRINT, A_AND_404);
}

fn lays_out(rt: &(impl Abort + AllocGlobal)) {
    let areas = b"fmap\t0x0\tFLASH\t4096\t3\nFMAP\t0x0\t512\t0x0\nCOREBOOT\t0x200\t512\t0x0\n\
REST\t0x400\t3072\t0x0\n";
    tells_what_has_room(rt, &Command::Layout, areas);
}

fn extracts(rt: &(impl Abort + AllocGlobal)) {
    let extract = Command::Extract {
        region: COREBOOT,
        name: b"a",
    };
    tells_what_has_room(rt, &extract, b"0123456789");
}

fn reads(rt: &(impl Abort + AllocGlobal)) {
    let image = board(rt, PADDED);
    let region = image.get(0x200..0x400).expect(rt, "a region");
    tells_what_has_room(rt, &Command::Read { region: COREBOOT }, region);
}

#[test]
fn an_output_that_fails_anywhere(rt: HostRuntime) {
    prints(&rt);
    lays_out(&rt);
    extracts(&rt);
    reads(&rt);
}

#[test]
fn a_device_that_fails_as_it_is_read(rt: HostRuntime) {
    tells(&rt, 0, &PRINT, 4096, 4096, b"", Err(Refusal::Device));
}

// ---- creations

fn has_size(rt: &impl Abort, map: &[u8], reads: u64, answer: Result<u32, Refusal>) {
    let mut source = FailSource::new(source_of(rt, map), reads);
    equal(rt, &create_size(&mut source), &answer);
    drop(source);
}

#[test]
fn the_size_of_a_flashmap(rt: HostRuntime) {
    has_size(&rt, &MAP, 1, Ok(1536));
    has_size(&rt, &MAP[..55], 1, Err(Refusal::TableBad));
    has_size(&rt, &MAP, 0, Err(Refusal::Source));
}

fn creation(
    rt: &impl Abort,
    device: MemFlash,
    names: &[&[u8]],
    map: &[u8],
    stop: Stop,
    want: &Result<(), Refusal>,
) -> MemFlash {
    let mut regions: ArrayVec<&[u8], MOST_REGIONS> = ArrayVec::new();
    let _fits = regions.try_extend_from_slice(names);
    stopped(rt, device, &Command::Create { regions }, map, stop, want)
}

fn refuses(
    rt: &(impl Abort + AllocGlobal),
    len: usize,
    names: &[&[u8]],
    map: &[u8],
    refusal: Refusal,
) {
    let stop = Stop {
        calls: ALL,
        part: 0,
        reads: ALL,
    };
    let device = device_from(rt, filled(rt, 7, len));
    let device = creation(rt, device, names, map, stop, &Err(refusal));
    ends_with(rt, device, filled(rt, 7, len));
}

#[test]
fn what_is_refused_leaves_the_image(rt: HostRuntime) {
    refuses(&rt, LEN, &[COREBOOT, COREBOOT], &MAP, Refusal::FmapArea);
    refuses(&rt, LEN, &[COREBOOT], &MAP[..181], Refusal::TableBad);
    refuses(&rt, 2 * LEN, &[COREBOOT], &MAP, Refusal::TableBad);
}

fn creates(rt: &(impl Abort + AllocGlobal), calls: u64, reads: u64, want: Result<(), Refusal>) {
    let stop = Stop {
        calls,
        part: 17,
        reads,
    };
    let device = device_from(rt, filled(rt, 7, LEN));
    let _left = creation(rt, device, &[COREBOOT], &MAP, stop, &want);
}

/// Checks a fault at each call (a fill, the table, two for the entry) and read (head, three areas,
/// table).
fn stop_creations(rt: &(impl Abort + AllocGlobal)) {
    for calls in 0..4 {
        creates(rt, calls, 5, Err(Refusal::Device));
    }
    for reads in 0..5 {
        creates(rt, 4, reads, Err(Refusal::Source));
    }
    creates(rt, 4, 5, Ok(()));
}

#[test]
fn a_stop_of_either_side(rt: HostRuntime) {
    stop_creations(&rt);
}
