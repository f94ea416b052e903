//! Additions: positions, bytes, and the order of refusals.
use crate::compiler::descriptors::TABLE;
use crate::edit::support::{
    A, B_BEFORE_GAP, EMPTY_128, LAST_192, LAST_512, MAGIC_20, part_of, source_of,
};
use crate::rows::support::{
    A_AND_416, FRESH, LAST_320, WITH_A, adds, adds_to, board, changed, content, plain, prints,
    refuses, shows, spotted,
};
use crate::support::{Parts, device_with, ends_with, equal, image_with};
use cbfs_commands::{Command, Refusal};
use cbfs_edit::{EditFault, HashChoice, Spot, add};
use flash_format::DamageKind;
use flash_store::Paged;
use std::process::Abort;

const TEN: &[u8] = b"0123456789";

#[test]
fn a_small_component_is_added(rt: HostRuntime) {
    adds(&rt, FRESH, plain(b"a", TEN), WITH_A);
    prints(&rt, WITH_A, A_AND_416, Ok(()));
    refuses(&rt, WITH_A, plain(b"a", TEN), Refusal::Exists);
}

/// Checks that an addition is refused without a change.
fn refused(rt: &(impl Abort + AllocGlobal), name: &[u8], kind: u32, spot: Spot, refusal: Refusal) {
    let image = board(rt, WITH_A);
    adds_to(
        rt,
        &image,
        spotted(name, spot, b""),
        kind,
        Err(refusal),
        &image,
    );
}

#[test]
fn names_types_and_alignments_that_are_refused(rt: HostRuntime) {
    refused(&rt, b"", 0xffff_ffff, Spot::First, Refusal::BadName);
    refused(&rt, b"c", 0xffff_ffff, Spot::First, Refusal::BadType);
    refused(&rt, b"c", 0, Spot::First, Refusal::BadType);
    refused(&rt, b"c", 0x50, Spot::Aligned(0), Refusal::BadAlign);
}

/// A fresh region with the older padding, a header of 40 bytes.
const OLD_468: [u8; 40] =
    *b"LARCHIVE\0\0\x01\xd4\xff\xff\xff\xff\0\0\0\0\0\0\0\x28\0\0\0\0\0\0\0\0\0\0\0\0\0\0\0\0";

#[test]
fn an_older_padding_is_edited_as_it_is(rt: HostRuntime) {
    prints(
        &rt,
        &[(0, &OLD_468)],
        b"(empty)\t0x0\tnull\t468\tnone\n",
        Ok(()),
    );
    adds(&rt, &[(0, &OLD_468)], plain(b"a", TEN), WITH_A);
}

// ---- maximum lengths

const A_480: [u8; 28] = *b"LARCHIVE\0\0\x01\xe0\0\0\0\x50\0\0\0\0\0\0\0\x1ca\0\0\0";

const A_484: [u8; 28] = *b"LARCHIVE\0\0\x01\xe4\0\0\0\x50\0\0\0\0\0\0\0\x1ca\0\0\0";

/// The header before a gap of 12 bytes.
const A_472: [u8; 28] = *b"LARCHIVE\0\0\x01\xd8\0\0\0\x50\0\0\0\0\0\0\0\x28a\0\0\0";

/// Checks that at most `len` bytes fit in the fresh region.
fn fits(rt: &(impl Abort + AllocGlobal), spot: Spot, header: &[u8; 28], at: usize, len: usize) {
    let bytes = content(rt, len);
    adds(
        rt,
        FRESH,
        spotted(b"a", spot, &bytes),
        &[(0, header), (at, &bytes)],
    );
    let more = content(rt, len.saturating_add(1));
    refuses(rt, FRESH, spotted(b"a", spot, &more), Refusal::NoSpace);
}

#[test]
fn the_last_four_bytes_are_kept_but_from_a_fixed_place(rt: HostRuntime) {
    fits(&rt, Spot::First, &A_480, 28, 480);
    fits(&rt, Spot::Fixed(40), &A_472, 40, 472);
    fits(&rt, Spot::Fixed(28), &A_484, 28, 484);
}

#[test]
fn last_four_bytes_that_are_kept(rt: HostRuntime) {
    let bytes = content(&rt, 480);
    let before: Parts = &[(0, &LAST_512), (508, b"last")];
    adds(
        &rt,
        before,
        plain(b"a", &bytes),
        &[(0, &A_480), (28, &bytes), (508, b"last")],
    );
    drop(bytes);
}

// ---- positions

#[test]
fn content_that_looks_like_an_entry_is_not_walked(rt: HostRuntime) {
    let after: Parts = &[
        (0, &A),
        (64, &B_BEFORE_GAP),
        (128, &MAGIC_20),
        (192, &LAST_320),
    ];
    adds(
        &rt,
        WITH_A,
        spotted(b"b", Spot::Aligned(64), &MAGIC_20),
        after,
    );
    let text = b"a\t0x0\traw\t10\tnone\nb\t0x40\traw\t20\tnone\n(empty)\t0xc0\tnull\t288\tnone\n";
    prints(&rt, after, text, Ok(()));
}

#[test]
fn free_space_before_an_aligned_component(rt: HostRuntime) {
    let after: Parts = &[
        (0, &A),
        (64, &EMPTY_128),
        (192, &B_BEFORE_GAP),
        (256, &MAGIC_20),
        (320, &LAST_192),
    ];
    adds(
        &rt,
        WITH_A,
        spotted(b"b", Spot::Aligned(256), &MAGIC_20),
        after,
    );
    let text = b"a\t0x0\traw\t10\tnone\n(empty)\t0x40\tnull\t100\tnone\n\
b\t0xc0\traw\t20\tnone\n(empty)\t0x140\tnull\t160\tnone\n";
    prints(&rt, after, text, Ok(()));
}

/// An empty entry, and a header before a gap of 20 bytes.
const EMPTY_384: [u8; 28] = *b"LARCHIVE\0\0\x01\x64\xff\xff\xff\xff\0\0\0\0\0\0\0\x1c\0\0\0\0";

const B_16: [u8; 28] = *b"LARCHIVE\0\0\0\x10\0\0\0\x50\0\0\0\0\0\0\0\x30b\0\0\0";

#[test]
fn a_fixed_place_at_the_end(rt: HostRuntime) {
    let bytes = b"LARCHIVE89abcdef";
    let after: Parts = &[(0, &A), (64, &EMPTY_384), (448, &B_16), (496, bytes)];
    adds(&rt, WITH_A, spotted(b"b", Spot::Fixed(0x1f0), bytes), after);
    let text = b"a\t0x0\traw\t10\tnone\n(empty)\t0x40\tnull\t356\tnone\nb\t0x1c0\traw\t16\tnone\n";
    prints(&rt, after, text, Ok(()));
}

// ---- tails

const NULL_344: [u8; 40] =
    *b"LARCHIVE\0\0\x01\x58\xff\xff\xff\xff\0\0\0\0\0\0\0\x28\0\0\0\0\0\0\0\0\0\0\0\0\0\0\0\0";

const B_356: [u8; 28] = *b"LARCHIVE\0\0\x01\x64\0\0\0\x50\0\0\0\0\0\0\0\x1cb\0\0\0";

/// Checks that 356 bytes fit before an unchanged tail.
fn fits_before(rt: &(impl Abort + AllocGlobal), tail: &[u8]) {
    let bytes = content(rt, 356);
    let before = changed(rt, &[(0, &A), (64, &NULL_344)], 460, tail);
    let after = changed(rt, &[(0, &A), (64, &B_356), (92, &bytes)], 460, tail);
    adds_to(rt, &before, plain(b"b", &bytes), 0x50, Ok(()), &after);
}

fn is_too_much_before(rt: &(impl Abort + AllocGlobal), tail: &[u8]) {
    let more = content(rt, 357);
    let before: Parts = &[(0, &A), (64, &NULL_344), (460, tail)];
    refuses(rt, before, plain(b"b", &more), Refusal::NoSpace);
}

#[test]
fn a_tail_is_kept_and_never_used(rt: HostRuntime) {
    fits_before(&rt, b"");
    fits_before(&rt, b"tail");
    is_too_much_before(&rt, b"");
    is_too_much_before(&rt, b"tail");
}

// ---- maps in content

/// The map of 4096 bytes: COREBOOT and FMAP, of 512 bytes each, and REST.
pub const MAP_BEHIND: [u8; 182] = *b"__FMAP__\x01\x01\0\0\0\0\0\0\0\0\x00\x10\x00\x00\
FLASH\0\0\0\0\0\0\0\0\0\0\0\0\0\0\0\0\0\0\0\0\0\0\0\0\0\0\0\x03\x00\
\x00\x00\x00\x00\x00\x02\x00\x00COREBOOT\0\0\0\0\0\0\0\0\0\0\0\0\0\0\0\0\0\0\0\0\0\0\0\0\0\0\
\x00\x02\x00\x00\x00\x02\x00\x00FMAP\0\0\0\0\0\0\0\0\0\0\0\0\0\0\0\0\0\0\0\0\0\0\0\0\0\0\0\0\0\0\
\x00\x04\x00\x00\x00\x0c\x00\x00REST\0\0\0\0\0\0\0\0\0\0\0\0\0\0\0\0\0\0\0\0\0\0\0\0\0\0\0\0\0\0";

const M_140: [u8; 28] = *b"LARCHIVE\0\0\0\x8c\0\0\0\x50\0\0\0\0\0\0\0\x1cm\0\0\0";

fn behind(rt: &(impl Abort + AllocGlobal), parts: Parts) -> Vec<u8> {
    image_with(rt, 4096, &[], 0, parts)
}

#[test]
fn a_map_in_a_component_below_the_map_is_found_next(rt: HostRuntime) {
    let before = behind(&rt, &[(0, &LAST_512), (512, &MAP_BEHIND)]);
    let after = behind(
        &rt,
        &[
            (0, &M_140),
            (28, &TABLE),
            (192, &LAST_320),
            (512, &MAP_BEHIND),
        ],
    );
    adds_to(&rt, &before, plain(b"m", &TABLE), 0x50, Ok(()), &after);
    let areas = b"fmap\t0x1c\tFLASH\t4096\t2\nFMAP\t0x0\t512\t0x0\nCOREBOOT\t0x200\t3584\t0x0\n";
    shows(&rt, &after, &Command::Layout, areas, Ok(()));
    drop(before);
    drop(after);
}

// ---- two faults at once

/// An addition to a region of `size` bytes.
#[derive(Clone, Copy)]
struct Attempt<'a> {
    region: Parts<'a>,
    size: u64,
    name: &'a [u8],
    kind: u32,
    spot: Spot,
    content: &'a [u8],
}

fn meets(rt: &(impl Abort + AllocGlobal), attempt: Attempt, want: EditFault) {
    let mut paged = Paged::new(device_with(rt, 512, attempt.region));
    let region = part_of(rt, &paged, 0, attempt.size);
    let mut source = source_of(rt, attempt.content);
    let Attempt {
        name,
        kind,
        spot,
        ..
    } = attempt;
    let answer = add(
        &mut paged,
        region,
        name,
        kind,
        HashChoice::Plain,
        spot,
        &mut source,
    );
    drop(source);
    equal(rt, &answer.err(), &Some(want));
    ends_with(
        rt,
        paged.into_flash(),
        image_with(rt, 512, &[], 0, attempt.region),
    );
}

const NAME_128: [u8; 128] = [b'n'; 128];

/// The head of a component with the name `NAME_128`.
const LONG: [u8; 24] = *b"LARCHIVE\0\0\0\0\0\0\0\x50\0\0\0\0\0\0\0\x9c";

const WITH_LONG: Parts = &[
    (0, &LONG),
    (24, &NAME_128),
    (152, b"\0\0\0\0"),
    (192, &LAST_320),
];

/// A damaged entry after `a`.
const DAMAGED: Parts = &[(0, &A), (64, b"LARCHIVE\0\0\0\0\0\0\0\x50\0\0\0\0\0\0\0\0")];

const DAMAGE: EditFault = EditFault::Damaged {
    at: 64,
    kind: DamageKind::Offset,
};

const MANY: &[u8] = &[0x6c; 513];

const BAD_TYPE: u32 = 0xffff_ffff;

const BAD_ALIGNMENT: Spot = Spot::Aligned(0);

/// An addition without faults.
const SOUND: Attempt = Attempt {
    region: WITH_A,
    size: 512,
    name: b"b",
    kind: 0x50,
    spot: Spot::First,
    content: TEN,
};

#[test]
fn each_fault_of_an_addition_by_itself(rt: HostRuntime) {
    meets(&rt, Attempt { name: b"", ..SOUND }, EditFault::BadName);
    meets(
        &rt,
        Attempt {
            kind: BAD_TYPE,
            ..SOUND
        },
        EditFault::BadType,
    );
    meets(
        &rt,
        Attempt {
            spot: BAD_ALIGNMENT,
            ..SOUND
        },
        EditFault::BadAlign,
    );
    meets(&rt, Attempt { size: 500, ..SOUND }, EditFault::RegionShape);
    meets(
        &rt,
        Attempt {
            region: &[],
            ..SOUND
        },
        EditFault::NotCbfs,
    );
    meets(
        &rt,
        Attempt {
            region: DAMAGED,
            ..SOUND
        },
        DAMAGE,
    );
    meets(
        &rt,
        Attempt {
            name: b"a",
            ..SOUND
        },
        EditFault::Exists,
    );
    meets(
        &rt,
        Attempt {
            content: MANY,
            ..SOUND
        },
        EditFault::NoSpace,
    );
}

#[test]
fn a_bad_name_comes_before_each_other_fault(rt: HostRuntime) {
    let want = EditFault::BadName;
    let named = Attempt { name: b"", ..SOUND };
    meets(
        &rt,
        Attempt {
            kind: BAD_TYPE,
            ..named
        },
        want,
    );
    meets(
        &rt,
        Attempt {
            spot: BAD_ALIGNMENT,
            ..named
        },
        want,
    );
    meets(&rt, Attempt { size: 500, ..named }, want);
    meets(
        &rt,
        Attempt {
            region: &[],
            ..named
        },
        want,
    );
    meets(
        &rt,
        Attempt {
            region: DAMAGED,
            ..named
        },
        want,
    );
    meets(
        &rt,
        Attempt {
            content: MANY,
            ..named
        },
        want,
    );
    let named = Attempt {
        name: &NAME_128,
        ..SOUND
    };
    meets(
        &rt,
        Attempt {
            region: WITH_LONG,
            ..named
        },
        want,
    );
}

#[test]
fn a_bad_type_comes_before_those_after_it(rt: HostRuntime) {
    let want = EditFault::BadType;
    let typed = Attempt {
        kind: BAD_TYPE,
        ..SOUND
    };
    meets(
        &rt,
        Attempt {
            spot: BAD_ALIGNMENT,
            ..typed
        },
        want,
    );
    meets(&rt, Attempt { size: 500, ..typed }, want);
    meets(
        &rt,
        Attempt {
            region: &[],
            ..typed
        },
        want,
    );
    meets(
        &rt,
        Attempt {
            region: DAMAGED,
            ..typed
        },
        want,
    );
    meets(
        &rt,
        Attempt {
            name: b"a",
            ..typed
        },
        want,
    );
    meets(
        &rt,
        Attempt {
            content: MANY,
            ..typed
        },
        want,
    );
}

#[test]
fn a_bad_alignment_comes_before_those_after_it(rt: HostRuntime) {
    let want = EditFault::BadAlign;
    let aligned = Attempt {
        spot: BAD_ALIGNMENT,
        ..SOUND
    };
    meets(
        &rt,
        Attempt {
            size: 500,
            ..aligned
        },
        want,
    );
    meets(
        &rt,
        Attempt {
            region: &[],
            ..aligned
        },
        want,
    );
    meets(
        &rt,
        Attempt {
            region: DAMAGED,
            ..aligned
        },
        want,
    );
    meets(
        &rt,
        Attempt {
            name: b"a",
            ..aligned
        },
        want,
    );
    meets(
        &rt,
        Attempt {
            content: MANY,
            ..aligned
        },
        want,
    );
}

#[test]
fn a_bad_shape_comes_before_those_after_it(rt: HostRuntime) {
    let want = EditFault::RegionShape;
    let odd = Attempt { size: 500, ..SOUND };
    meets(&rt, Attempt { region: &[], ..odd }, want);
    meets(
        &rt,
        Attempt {
            region: DAMAGED,
            ..odd
        },
        want,
    );
    meets(&rt, Attempt { name: b"a", ..odd }, want);
    meets(
        &rt,
        Attempt {
            content: MANY,
            ..odd
        },
        want,
    );
}

#[test]
fn what_the_region_has_comes_before_want_of_space(rt: HostRuntime) {
    let large = Attempt {
        content: MANY,
        ..SOUND
    };
    meets(
        &rt,
        Attempt {
            region: &[],
            ..large
        },
        EditFault::NotCbfs,
    );
    meets(
        &rt,
        Attempt {
            region: DAMAGED,
            ..large
        },
        DAMAGE,
    );
    meets(
        &rt,
        Attempt {
            name: b"a",
            ..large
        },
        EditFault::Exists,
    );
    let named = Attempt {
        name: b"a",
        ..SOUND
    };
    meets(
        &rt,
        Attempt {
            region: DAMAGED,
            ..named
        },
        DAMAGE,
    );
}
