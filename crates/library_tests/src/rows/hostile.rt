//! Damaged regions and truncated images.
use crate::edit::support::{A, LAST_448};
use crate::rows::support::{
    FRESH, PRINT, board, changed, extracts, plain, prints, refuses, removes, shows,
};
use crate::support::{Parts, device_with};
use crate::walk::walks::{Answer, NULL, RAW, answers, gives, whole};
use cbfs_commands::Refusal;
use cbfs_walk::{Step, Walk, WalkFault};
use flash_format::DamageKind;
use flash_store::Paged;
use std::process::Abort;

fn damaged(at: u64, kind: DamageKind) -> Refusal {
    Refusal::Damaged { at, kind }
}

const CLAIMS: Parts = &[(0, &A), (64, &LAST_448), (72, b"\xff\xff\xff\xff")];

const A_ALONE: &[u8] = b"a\t0x0\traw\t10\tnone\n";

#[test]
fn an_entry_that_claims_4_gib(rt: HostRuntime) {
    let refusal = damaged(0x40, DamageKind::Extent);
    prints(&rt, CLAIMS, A_ALONE, Err(refusal));
    extracts(&rt, CLAIMS, b"a", b"0123456789", Ok(()));
    extracts(&rt, CLAIMS, b"z", b"", Err(refusal));
    refuses(&rt, CLAIMS, plain(b"b", b"1"), refusal);
    removes(&rt, CLAIMS, b"a", Err(refusal), CLAIMS);
}

// ---- each kind of damage

/// Headers without attributes, with attributes from inside the header on, and with 16 bytes of
/// attributes.
const WITHOUT: [u8; 24] = *b"LARCHIVE\0\0\0\0\0\0\0\x50\0\0\0\0\0\0\0\x28";

const INSIDE: [u8; 24] = *b"LARCHIVE\0\0\0\0\0\0\0\x50\0\0\0\x18\0\0\0\x28";

const WITH: [u8; 24] = *b"LARCHIVE\0\0\0\0\0\0\0\x50\0\0\0\x28\0\0\0\x38";

const NAME: [u8; 16] = *b"n\0\0\0\0\0\0\0\0\0\0\0\0\0\0\0";

const SEVEN: [u8; 8] = *b"\0\0\x12\x34\0\0\0\x07";

const SEVENTEEN: [u8; 8] = *b"\0\0\x12\x34\0\0\0\x11";

/// Checks for damage of the first entry.
fn is_damaged(rt: &(impl Abort + AllocGlobal), region: Parts, kind: DamageKind) {
    prints(rt, region, b"", Err(damaged(0, kind)));
}

#[test]
fn each_kind_of_damage(rt: HostRuntime) {
    let image = changed(&rt, FRESH, 20, &[0; 4]);
    shows(
        &rt,
        &image,
        &PRINT,
        b"",
        Err(damaged(0, DamageKind::Offset)),
    );
    drop(image);
    is_damaged(
        &rt,
        &[(0, &WITHOUT), (24, b"nnnnnnnnnnnnnnnn")],
        DamageKind::Name,
    );
    is_damaged(&rt, &[(0, &INSIDE), (24, &NAME)], DamageKind::AttrOffset);
    is_damaged(
        &rt,
        &[(0, &WITH), (24, &NAME), (40, &SEVEN)],
        DamageKind::AttrLength,
    );
    is_damaged(
        &rt,
        &[(0, &WITH), (24, &NAME), (40, &SEVENTEEN)],
        DamageKind::AttrLength,
    );
}

// ---- numbers around each limit

/// The component `a` and an empty entry, with name fields of 16 bytes.
pub const PADDED: Parts<'static> = &[(0, &A_40), (64, &NULL_404)];

const A_40: [u8; 50] =
    *b"LARCHIVE\0\0\0\x0a\0\0\0\x50\0\0\0\0\0\0\0\x28a\0\0\0\0\0\0\0\0\0\0\0\0\0\0\x000123456789";

const NULL_404: [u8; 40] =
    *b"LARCHIVE\0\0\x01\x94\xff\xff\xff\xff\0\0\0\0\0\0\0\x28\0\0\0\0\0\0\0\0\0\0\0\0\0\0\0\0";

pub const A_AND_404: &[u8] = b"a\t0x0\traw\t10\tnone\n(empty)\t0x40\tnull\t404\tnone\n";

/// Checks the listing after a change.
fn with(
    rt: &(impl Abort + AllocGlobal),
    at: usize,
    bytes: &[u8],
    text: &[u8],
    answer: Result<(), Refusal>,
) {
    shows(rt, &changed(rt, PADDED, at, bytes), &PRINT, text, answer);
}

/// Offsets of the low two bytes of fields: LENGTH and OFFSET of the second entry, the others of the
/// first.
const LENGTH: usize = 64 + 10;

const OFFSET: usize = 64 + 22;

const FIRST_OFFSET: usize = 22;

const ATTRIBUTES: usize = 18;

#[test]
fn an_empty_entry_of_each_length(rt: HostRuntime) {
    let none = b"a\t0x0\traw\t10\tnone\n(empty)\t0x40\tnull\t0\tnone\n";
    let most = b"a\t0x0\traw\t10\tnone\n(empty)\t0x40\tnull\t408\tnone\n";
    with(&rt, LENGTH, b"\0\0", none, Ok(()));
    with(&rt, LENGTH, b"\x01\x98", most, Ok(()));
    let extent = Err(damaged(0x40, DamageKind::Extent));
    with(&rt, LENGTH, b"\x01\x99", A_ALONE, extent);
}

#[test]
fn an_empty_entry_of_each_offset(rt: HostRuntime) {
    let offset = Err(damaged(0x40, DamageKind::Offset));
    let extent = Err(damaged(0x40, DamageKind::Extent));
    with(&rt, OFFSET, b"\0\x17", A_ALONE, offset);
    with(&rt, OFFSET, b"\0\x18", A_AND_404, Ok(()));
    with(&rt, OFFSET, b"\0\x2c", A_AND_404, Ok(()));
    with(&rt, OFFSET, b"\0\x2d", A_ALONE, extent);
}

#[test]
fn a_length_and_an_offset_of_4_gib(rt: HostRuntime) {
    let largest = b"\xff\xff\xff\xff\xff\xff\xff\xff\0\0\0\0\xff\xff\xff\xff";
    with(
        &rt,
        72,
        largest,
        A_ALONE,
        Err(damaged(0x40, DamageKind::Extent)),
    );
}

#[test]
fn a_component_of_each_offset(rt: HostRuntime) {
    with(
        &rt,
        FIRST_OFFSET,
        b"\0\x18",
        b"",
        Err(damaged(0, DamageKind::Offset)),
    );
    with(
        &rt,
        FIRST_OFFSET,
        b"\0\x19",
        b"",
        Err(damaged(0, DamageKind::Name)),
    );
    with(&rt, FIRST_OFFSET, b"\0\x1a", A_AND_404, Ok(()));
    with(&rt, FIRST_OFFSET, b"\x01\xf6", A_ALONE, Ok(()));
    with(
        &rt,
        FIRST_OFFSET,
        b"\x01\xf7",
        b"",
        Err(damaged(0, DamageKind::Extent)),
    );
}

#[test]
fn attributes_at_each_place(rt: HostRuntime) {
    with(
        &rt,
        ATTRIBUTES,
        b"\0\x18",
        b"",
        Err(damaged(0, DamageKind::AttrOffset)),
    );
    with(
        &rt,
        ATTRIBUTES,
        b"\0\x29",
        b"",
        Err(damaged(0, DamageKind::AttrOffset)),
    );
    with(
        &rt,
        ATTRIBUTES,
        b"\0\x19",
        b"",
        Err(damaged(0, DamageKind::Name)),
    );
    with(&rt, ATTRIBUTES, b"\0\x28", A_AND_404, Ok(()));
}

// ---- walks

fn walks(rt: &(impl Abort + AllocGlobal), len: usize, region: Parts, want: &[Answer]) {
    let mut paged = Paged::new(device_with(rt, len, region));
    let mut walk = Walk::new(whole(rt, &paged));
    answers(rt, &mut walk, &mut paged, want);
    drop(paged);
}

const TAILED: Parts = &[(0, &A_40), (64, &NULL_404), (LENGTH, b"\0\0")];

const TOO_LONG: Parts = &[(0, &A_40), (64, &NULL_404), (LENGTH, b"\x01\x99")];

#[test]
fn each_end_of_a_walk(rt: HostRuntime) {
    let first = gives(0, 10, RAW, 64);
    let rest = gives(64, 404, NULL, 448);
    walks(
        &rt,
        512,
        PADDED,
        &[first, rest, Ok(Step::End), Ok(Step::End)],
    );
    let tail = Ok(Step::Tail(128));
    walks(
        &rt,
        512,
        TAILED,
        &[first, gives(64, 0, NULL, 64), tail, tail],
    );
    let kind = DamageKind::Extent;
    let fault = Err(WalkFault::Damaged { at: 64, kind });
    walks(&rt, 512, TOO_LONG, &[first, fault, fault]);
    let none = Err(WalkFault::NotCbfs);
    walks(&rt, 512, &[], &[none, none]);
    let shape = Err(WalkFault::RegionShape);
    walks(&rt, 500, PADDED, &[shape, shape]);
}

// ---- truncated images

fn rows_of(len: usize) -> &'static [u8] {
    if len < 1024 { b"" } else { A_AND_404 }
}

fn end_of(len: usize) -> Result<(), Refusal> {
    if len < 182 {
        return Err(Refusal::NoFmap);
    }
    if len < 1024 {
        return Err(Refusal::RegionOutside);
    }
    Ok(())
}

/// Lists each truncated image. The map ends at 182, the region at 1024.
fn cut_each(rt: &(impl Abort + AllocGlobal), image: &[u8]) {
    for len in 0..4096 {
        let front = image.get(..len).unwrap_or(image);
        shows(rt, front, &PRINT, rows_of(len), end_of(len));
    }
}

#[test]
fn an_image_that_is_cut_to_each_length(rt: HostRuntime) {
    let image = board(&rt, PADDED);
    assert!(rt; image.len() == 4096);
    cut_each(&rt, &image);
    drop(image);
}
