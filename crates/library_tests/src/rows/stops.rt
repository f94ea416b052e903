//! Edits stopped at each device call, and a list of edits with refusals.
use crate::edit::actions::{COREBOOT, answer_into};
use crate::edit::support::{
    A, B_BEFORE_GAP, DELETED, EMPTY_64, EMPTY_128, LAST_192, M, MAGIC_20, NULL_340, Stop, X1, X2,
    part_of, source_of, stopping,
};
use crate::rows::support::{A_AND_416, FRESH, PRINT, WITH_A, board};
use crate::support::{ALL, Failing, Parts, device_from, ends_with, equal, took_all, writer};
use cbfs_commands::{Command, Refusal};
use cbfs_edit::{Edit, EditFault, Freed, HashChoice, Placed, Reply, Spot, apply_all, format};
use flash_store::{MemFlash, MemSource, Paged};
use std::process::Abort;

// ---- a list of edits

fn addition<'a>(rt: &impl Abort) -> Edit<'a, MemSource<'a>> {
    Edit::Add {
        name: b"a",
        kind: 0x50,
        hash: HashChoice::Plain,
        spot: Spot::First,
        source: source_of(rt, b"0123456789"),
    }
}

fn replies_of(rt: &impl Abort, paged: &mut Paged<MemFlash>) -> [Reply; 4] {
    let mut edits = [
        addition(rt),
        addition(rt),
        Edit::Remove { name: b"z" },
        Edit::Remove { name: b"a" },
    ];
    let mut replies = [Reply::Refused(EditFault::Source); 4];
    let region = part_of(rt, paged, 0x200, 512);
    apply_all(paged, region, &mut edits, &mut replies);
    replies
}

const REPLIES: [Reply; 4] = [
    Reply::Placed(Placed {
        header: 0,
        content: 28,
    }),
    Reply::Refused(EditFault::Exists),
    Reply::Refused(EditFault::NotFound),
    Reply::Freed(Freed { start: 0, end: 512 }),
];

#[test]
fn a_refused_edit_does_not_stop_the_later_ones(rt: HostRuntime) {
    let mut paged = Paged::new(device_from(&rt, board(&rt, FRESH)));
    equal(&rt, &replies_of(&rt, &mut paged), &REPLIES);
    ends_with(&rt, paged.into_flash(), board(&rt, FRESH));
}

// ---- stopped edits

const ADD_A: Command<'static> = Command::Add {
    region: COREBOOT,
    name: b"a",
    kind: 0x50,
    hash: HashChoice::Plain,
    spot: Spot::First,
};

const ADD_B: Command<'static> = Command::Add {
    region: COREBOOT,
    name: b"b",
    kind: 0x50,
    hash: HashChoice::Plain,
    spot: Spot::Aligned(256),
};

const REMOVE_M: Command<'static> = Command::Remove {
    region: COREBOOT,
    name: b"m",
};

const REMOVE_X: Command<'static> = Command::Remove {
    region: COREBOOT,
    name: b"x",
};

#[derive(Clone, Copy)]
struct State {
    parts: Parts<'static>,
    text: &'static [u8],
    contents: &'static [(&'static [u8], &'static [u8])],
}

#[derive(Clone, Copy)]
enum Edited {
    First,
    Aligned,
    Removal,
    FirstOfTwo,
    Format,
}

#[derive(Clone, Copy)]
struct Change {
    edit: Edited,
    source: &'static [u8],
    before: State,
    after: State,
}

const NOTHING: State = State {
    parts: FRESH,
    text: b"(empty)\t0x0\tnull\t480\tnone\n",
    contents: &[],
};

const ONE: State = State {
    parts: WITH_A,
    text: A_AND_416,
    contents: &[(b"a", b"0123456789")],
};

const TWO: State = State {
    parts: &[
        (0, &A),
        (64, &EMPTY_128),
        (192, &B_BEFORE_GAP),
        (256, &MAGIC_20),
        (320, &LAST_192),
    ],
    text: b"a\t0x0\traw\t10\tnone\n(empty)\t0x40\tnull\t100\tnone\n\
b\t0xc0\traw\t20\tnone\n(empty)\t0x140\tnull\t160\tnone\n",
    contents: &[(b"a", b"0123456789"), (b"b", b"LARCHIVE89abcdefghij")],
};

const BETWEEN: State = State {
    parts: &[(0, &DELETED), (64, &M), (128, &NULL_340)],
    text: b"(empty)\t0x0\tdeleted\t20\tnone\nm\t0x40\traw\t5\tnone\n\
(empty)\t0x80\tnull\t340\tnone\n",
    contents: &[(b"m", b"12345")],
};

const FIRST: Change = Change {
    edit: Edited::First,
    source: b"0123456789",
    before: NOTHING,
    after: ONE,
};

const ALIGNED: Change = Change {
    edit: Edited::Aligned,
    source: b"LARCHIVE89abcdefghij",
    before: ONE,
    after: TWO,
};

const REMOVAL: Change = Change {
    edit: Edited::Removal,
    source: b"",
    before: BETWEEN,
    after: NOTHING,
};

const TWICE: State = State {
    parts: &[(0, &X1), (64, &X2), (128, &NULL_340)],
    text: b"x\t0x0\traw\t1\tnone\nx\t0x40\traw\t2\tnone\n(empty)\t0x80\tnull\t340\tnone\n",
    contents: &[(b"x", b"1")],
};

const ONCE: State = State {
    parts: &[(0, &EMPTY_64), (64, &X2), (128, &NULL_340)],
    text: b"(empty)\t0x0\tnull\t36\tnone\nx\t0x40\traw\t2\tnone\n\
(empty)\t0x80\tnull\t340\tnone\n",
    contents: &[(b"x", b"22")],
};

const FIRST_OF_TWO: Change = Change {
    edit: Edited::FirstOfTwo,
    source: b"",
    before: TWICE,
    after: ONCE,
};

const FORMATTED: Change = Change {
    edit: Edited::Format,
    source: b"",
    before: ONE,
    after: NOTHING,
};

fn writes(rt: &impl Abort, paged: &mut Paged<MemFlash>, command: &Command, text: &[u8]) -> bool {
    let mut out = writer(4096, usize::MAX, text);
    equal(
        rt,
        &answer_into(rt, paged, command, b"", 0, &mut out),
        &Ok(()),
    );
    took_all(out)
}

fn extracts(rt: &impl Abort, paged: &mut Paged<MemFlash>, name: &[u8], content: &[u8]) {
    let command = Command::Extract {
        region: COREBOOT,
        name,
    };
    equal(rt, &writes(rt, paged, &command, content), &true);
}

fn has_contents(rt: &impl Abort, paged: &mut Paged<MemFlash>, state: State) {
    for (name, content) in state.contents {
        extracts(rt, paged, name, content);
    }
}

/// Checks for the listing and the contents of either state. An intermediate empty entry has the old
/// length, and is listed as before.
fn is_either(rt: &impl Abort, device: MemFlash, change: Change) {
    let mut paged = Paged::new(device);
    if writes(rt, &mut paged, &PRINT, change.before.text) {
        has_contents(rt, &mut paged, change.before);
    } else {
        equal(
            rt,
            &writes(rt, &mut paged, &PRINT, change.after.text),
            &true,
        );
        has_contents(rt, &mut paged, change.after);
    }
    drop(paged);
}

fn edit(rt: &impl Abort, paged: &mut Failing, change: Change) -> Result<(), Refusal> {
    let mut none = writer(0, 0, b"");
    let source = change.source;
    match change.edit {
        Edited::First => answer_into(rt, paged, &ADD_A, source, ALL, &mut none),
        Edited::Aligned => answer_into(rt, paged, &ADD_B, source, ALL, &mut none),
        Edited::Removal => answer_into(rt, paged, &REMOVE_M, source, ALL, &mut none),
        Edited::FirstOfTwo => answer_into(rt, paged, &REMOVE_X, source, ALL, &mut none),
        Edited::Format => formats(rt, paged),
    }
}

/// Converts a fault; all except `Device` become `RegionShape`.
fn formats(rt: &impl Abort, paged: &mut Failing) -> Result<(), Refusal> {
    let region = part_of(rt, paged, 0x200, 512);
    match format(paged, region) {
        Ok(()) => Ok(()),
        Err(EditFault::Device) => Err(Refusal::Device),
        Err(_) => Err(Refusal::RegionShape),
    }
}

/// Returns true if `calls` calls suffice.
fn changes(rt: &(impl Abort + AllocGlobal), change: Change, calls: u64, part: usize) -> bool {
    let stop = Stop {
        calls,
        part,
        reads: ALL,
    };
    let mut paged = stopping(device_from(rt, board(rt, change.before.parts)), stop);
    let answer = edit(rt, &mut paged, change);
    ends(rt, answer, paged.into_flash().into_inner(), change)
}

fn ends(
    rt: &(impl Abort + AllocGlobal),
    answer: Result<(), Refusal>,
    device: MemFlash,
    change: Change,
) -> bool {
    if answer.is_ok() {
        ends_with(rt, device, board(rt, change.after.parts));
        return true;
    }
    equal(rt, &answer, &Err(Refusal::Device));
    is_either(rt, device, change);
    false
}

fn stop_each(rt: &(impl Abort + AllocGlobal), change: Change, part: usize) {
    let mut finished = 0;
    for calls in 0..40 {
        if changes(rt, change, calls, part) {
            finished = calls;
            break;
        }
    }
    assert!(rt; finished > 0);
}

fn stop_all(rt: &(impl Abort + AllocGlobal), part: usize) {
    stop_each(rt, FIRST, part);
    stop_each(rt, ALIGNED, part);
    stop_each(rt, REMOVAL, part);
    stop_each(rt, FIRST_OF_TWO, part);
    stop_each(rt, FORMATTED, part);
}

#[test]
fn a_stopped_edit_is_listed_as_before_or_after(rt: HostRuntime) {
    stop_all(&rt, 0);
    stop_all(&rt, 1);
    stop_all(&rt, 17);
    stop_all(&rt, 4096);
}
