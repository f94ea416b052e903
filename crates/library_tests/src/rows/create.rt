//! New images, raw writes, and the size in a map.
use crate::compiler::descriptors::TABLE;
use crate::edit::actions::COREBOOT;
use crate::edit::support::{LAST_512, source_of};
use crate::rows::support::{BOARD, FRESH, PRINT, board, content, runs, shows};
use crate::support::{Parts, equal, filled, image_with};
use arrayvec::ArrayVec;
use cbfs_commands::{Command, MOST_REGIONS, Refusal, create_size};
use std::process::Abort;

fn creates_on(
    rt: &(impl Abort + AllocGlobal),
    device: &[u8],
    names: &[&[u8]],
    map: &[u8],
    answer: Result<(), Refusal>,
    after: &[u8],
) {
    let mut regions: ArrayVec<&[u8], MOST_REGIONS> = ArrayVec::new();
    let _fits = regions.try_extend_from_slice(names);
    runs(
        rt,
        device,
        &Command::Create { regions },
        map,
        b"",
        answer,
        after,
    );
}

fn creates(rt: &(impl Abort + AllocGlobal), names: &[&[u8]], map: &[u8], after: &[u8]) {
    creates_on(rt, &filled(rt, 7, 4096), names, map, Ok(()), after);
}

fn refuses(
    rt: &(impl Abort + AllocGlobal),
    len: usize,
    names: &[&[u8]],
    map: &[u8],
    refusal: Refusal,
) {
    let device = filled(rt, 7, len);
    creates_on(rt, &device, names, map, Err(refusal), &device);
}

#[test]
fn an_image_is_made_from_its_flashmap(rt: HostRuntime) {
    let wanted = image_with(&rt, 4096, &BOARD, 0, &[(512, &LAST_512)]);
    creates(&rt, &[COREBOOT], &BOARD, &wanted);
    drop(wanted);
}

/// The map of 4096 bytes: FMAP of 1024, B of 2048, and C of 1024.
pub const TWO: [u8; 182] = *b"__FMAP__\x01\x01\0\0\0\0\0\0\0\0\0\x10\0\0\
F\0\0\0\0\0\0\0\0\0\0\0\0\0\0\0\0\0\0\0\0\0\0\0\0\0\0\0\0\0\0\0\x03\0\
\0\0\0\0\0\x04\0\0FMAP\0\0\0\0\0\0\0\0\0\0\0\0\0\0\0\0\0\0\0\0\0\0\0\0\0\0\0\0\0\0\
\0\x04\0\0\0\x08\0\0B\0\0\0\0\0\0\0\0\0\0\0\0\0\0\0\0\0\0\0\0\0\0\0\0\0\0\0\0\0\0\0\0\0\
\0\x0c\0\0\0\x04\0\0C\0\0\0\0\0\0\0\0\0\0\0\0\0\0\0\0\0\0\0\0\0\0\0\0\0\0\0\0\0\0\0\0\0";

const LAST_2048: [u8; 28] = *b"LARCHIVE\0\0\x07\xe0\xff\xff\xff\xff\0\0\0\0\0\0\0\x1c\0\0\0\0";

const LAST_1024: [u8; 28] = *b"LARCHIVE\0\0\x03\xe0\xff\xff\xff\xff\0\0\0\0\0\0\0\x1c\0\0\0\0";

const TWO_FRESH: Parts = &[(0x400, &LAST_2048), (0xc00, &LAST_1024)];

fn prints(rt: &(impl Abort + AllocGlobal), region: &[u8], text: &[u8]) {
    let command = Command::Print {
        region,
        verbose: false,
    };
    shows(
        rt,
        &image_with(rt, 4096, &TWO, 0, TWO_FRESH),
        &command,
        text,
        Ok(()),
    );
}

#[test]
fn an_image_with_two_regions(rt: HostRuntime) {
    let wanted = image_with(&rt, 4096, &TWO, 0, TWO_FRESH);
    creates(&rt, &[b"B", b"C"], &TWO, &wanted);
    drop(wanted);
    prints(&rt, b"B", b"(empty)\t0x0\tnull\t2016\tnone\n");
    prints(&rt, b"C", b"(empty)\t0x0\tnull\t992\tnone\n");
}

#[test]
fn a_creation_that_is_refused_leaves_the_device(rt: HostRuntime) {
    refuses(&rt, 4096, &[b"B", b"B"], &TWO, Refusal::FmapArea);
    refuses(&rt, 4096, &[COREBOOT], &TWO, Refusal::NoRegion);
    refuses(&rt, 4096, &[b"B", b"C"], &TWO[..55], Refusal::TableBad);
    refuses(&rt, 8192, &[b"B", b"C"], &TWO, Refusal::TableBad);
}

#[test]
fn the_size_that_a_flashmap_states(rt: HostRuntime) {
    let mut source = source_of(&rt, &TABLE);
    equal(&rt, &create_size(&mut source), &Ok(4096));
    drop(source);
}

// ---- raw writes

const WRITE: Command<'static> = Command::Write { region: COREBOOT };

#[test]
fn a_region_is_written_whole(rt: HostRuntime) {
    let image = board(&rt, FRESH);
    let short = content(&rt, 511);
    runs(
        &rt,
        &image,
        &WRITE,
        &short,
        b"",
        Err(Refusal::SourceSize),
        &image,
    );
    drop(short);
    let bytes = content(&rt, 512);
    let wanted = board(&rt, &[(0, &bytes)]);
    runs(&rt, &image, &WRITE, &bytes, b"", Ok(()), &wanted);
    shows(
        &rt,
        &wanted,
        &Command::Read { region: COREBOOT },
        &bytes,
        Ok(()),
    );
    shows(&rt, &wanted, &PRINT, b"", Err(Refusal::NotCbfs));
    drop(image);
    drop(bytes);
    drop(wanted);
}
