//! Listings of regions and areas, and absent, truncated and invalid regions.
use crate::edit::support::{A, B, LAST_448, NULL_340};
use crate::rows::support::{
    A_AND_416, BOARD, FRESH, LAST_320, PRINT, WITH_A, adds, board, changed, extracts, plain,
    prints, shows,
};
use crate::support::{Parts, image_with};
use cbfs_commands::{Command, Refusal};
use std::process::Abort;

#[test]
fn a_fresh_region_is_one_empty_entry(rt: HostRuntime) {
    prints(&rt, FRESH, b"(empty)\t0x0\tnull\t480\tnone\n", Ok(()));
}

#[test]
fn the_areas_of_an_image(rt: HostRuntime) {
    let areas = b"fmap\t0x0\tFLASH\t4096\t3\nFMAP\t0x0\t512\t0x0\nCOREBOOT\t0x200\t512\t0x0\n\
REST\t0x400\t3072\t0x0\n";
    shows(&rt, &board(&rt, FRESH), &Command::Layout, areas, Ok(()));
}

#[test]
fn a_small_component_beside_the_rest(rt: HostRuntime) {
    prints(&rt, WITH_A, A_AND_416, Ok(()));
    extracts(&rt, WITH_A, b"a", b"0123456789", Ok(()));
    extracts(&rt, WITH_A, b"z", b"", Err(Refusal::NotFound));
}

/// The component `p` up to the attribute, and attributes.
const P: [u8; 40] =
    *b"LARCHIVE\0\0\0\x1e\0\0\0\x50\0\0\0\x28\0\0\0\x38p\0\0\0\0\0\0\0\0\0\0\0\0\0\0\0";

const LZMA: [u8; 16] = *b"BCZL\0\0\0\x10\0\0\0\x01\0\0\0\x64";

const LZ4: [u8; 16] = *b"BCZL\0\0\0\x10\0\0\0\x02\0\0\0\x64";

const SEVEN: [u8; 16] = *b"BCZL\0\0\0\x10\0\0\0\x07\0\0\0\x64";

const OTHER_TAG: [u8; 16] = *b"\0\0\x12\x34\0\0\0\x10\0\0\0\x01\0\0\0\x64";

const CONTENT_30: &[u8] = b"abcdefghijklmnopqrstuvwxyz0123";

fn lists_p(rt: &(impl Abort + AllocGlobal), attribute: &[u8; 16], text: &[u8]) {
    let parts: Parts = &[(0, &P), (40, attribute), (56, CONTENT_30), (128, &NULL_340)];
    prints(rt, parts, text, Ok(()));
}

#[test]
fn a_compressed_component(rt: HostRuntime) {
    lists_p(
        &rt,
        &LZMA,
        b"p\t0x0\traw\t30\tLZMA\n(empty)\t0x80\tnull\t340\tnone\n",
    );
    lists_p(
        &rt,
        &LZ4,
        b"p\t0x0\traw\t30\tLZ4\n(empty)\t0x80\tnull\t340\tnone\n",
    );
    lists_p(
        &rt,
        &SEVEN,
        b"p\t0x0\traw\t30\t0x7\n(empty)\t0x80\tnull\t340\tnone\n",
    );
    let parts: Parts = &[(0, &P), (40, &LZMA), (56, CONTENT_30), (128, &NULL_340)];
    extracts(&rt, parts, b"p", b"", Err(Refusal::Compressed));
}

/// An unknown attribute, alone and with `b`.
const UNPACKED: Parts = &[
    (0, &P),
    (40, &OTHER_TAG),
    (56, CONTENT_30),
    (128, &NULL_340),
];

const BESIDE: Parts = &[
    (0, &P),
    (40, &OTHER_TAG),
    (56, CONTENT_30),
    (128, &B),
    (192, &LAST_320),
];

#[test]
fn an_unknown_attribute_is_kept(rt: HostRuntime) {
    lists_p(
        &rt,
        &OTHER_TAG,
        b"p\t0x0\traw\t30\tnone\n(empty)\t0x80\tnull\t340\tnone\n",
    );
    extracts(&rt, UNPACKED, b"p", CONTENT_30, Ok(()));
    adds(&rt, UNPACKED, plain(b"b", b"LARCHIVE89abcdefghij"), BESIDE);
}

/// An empty entry before the last 64 bytes of the region.
const NULL_344: [u8; 40] =
    *b"LARCHIVE\0\0\x01\x58\xff\xff\xff\xff\0\0\0\0\0\0\0\x28\0\0\0\0\0\0\0\0\0\0\0\0\0\0\0\0";

#[test]
fn a_tail_ends_the_list(rt: HostRuntime) {
    let text = b"a\t0x0\traw\t10\tnone\n(empty)\t0x40\tnull\t344\tnone\n";
    prints(&rt, &[(0, &A), (64, &NULL_344)], text, Ok(()));
    prints(
        &rt,
        &[(0, &A), (64, &NULL_344), (460, b"tail")],
        text,
        Ok(()),
    );
}

/// A component of the type 0x1234 and the name `a b\`.
const ODD: [u8; 32] = *b"LARCHIVE\0\0\0\0\0\0\x12\x34\0\0\0\0\0\0\0\x20a b\\\0\0\0\0";

#[test]
fn a_type_without_a_name_and_a_name_with_odd_bytes(rt: HostRuntime) {
    let text = b"a\\x20b\\x5c\t0x0\t0x1234\t0\tnone\n(empty)\t0x40\tnull\t416\tnone\n";
    prints(&rt, &[(0, &ODD), (64, &LAST_448)], text, Ok(()));
}

fn cut(rt: &(impl Abort + AllocGlobal), len: usize, refusal: Refusal) {
    let image = board(rt, FRESH);
    let front = image.get(..len).expect(rt, "a front");
    shows(rt, front, &PRINT, b"", Err(refusal));
}

#[test]
fn an_image_that_is_cut(rt: HostRuntime) {
    cut(&rt, 768, Refusal::RegionOutside);
    cut(&rt, 100, Refusal::NoFmap);
    cut(&rt, 0, Refusal::NoFmap);
}

fn names(rt: &(impl Abort + AllocGlobal), region: &[u8], refusal: Refusal) {
    let command = Command::Print {
        region,
        verbose: false,
    };
    shows(rt, &board(rt, FRESH), &command, b"", Err(refusal));
}

#[test]
fn regions_that_are_no_cbfs(rt: HostRuntime) {
    names(&rt, b"NONE", Refusal::NoRegion);
    names(&rt, b"REST", Refusal::NotCbfs);
    let image = changed(&rt, FRESH, 0, b"\0");
    shows(&rt, &image, &PRINT, b"", Err(Refusal::NotCbfs));
    drop(image);
}

fn sized(rt: &(impl Abort + AllocGlobal), size: &[u8; 4], refusal: Refusal) {
    let parts: Parts = &[(102, size), (512, b"LARCHIVE")];
    let image = image_with(rt, 4096, &BOARD, 0, parts);
    shows(rt, &image, &PRINT, b"", Err(refusal));
}

#[test]
fn a_region_whose_size_is_no_multiple_of_64(rt: HostRuntime) {
    sized(&rt, b"\xf4\x01\0\0", Refusal::RegionShape);
    sized(&rt, b"\0\0\0\0", Refusal::RegionShape);
}
