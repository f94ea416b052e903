//! Walks over a dishonest device, and over a device with a fault at each call.
ghost use Rattle.std.specs.Prelude.{◌≡◌};
ghost use Rattle.flash_device.specs.Regions.{LiesOn};

use crate::support::{ALL, Failing, Parts, equal, failing};
use cbfs_walk::{Cell, Step, Walk, WalkFault, find};
use flash_format::{DamageKind, HEADER_LENGTH, Head};
use flash_store::{Counter, Flash, FlashFault, Paged, Region};
use std::marker::Model;
use std::process::Abort;

pub type Answer = Result<Step, WalkFault>;

const NULL_340: [u8; 40] =
    *b"LARCHIVE\0\0\x01\x54\xff\xff\xff\xff\0\0\0\0\0\0\0\x28\0\0\0\0\0\0\0\0\0\0\0\0\0\0\0\0";

/// A component of 3992 bytes in a cell of 4032.
const LONG: [u8; 40] =
    *b"LARCHIVE\0\0\x0f\x98\0\0\0\x50\0\0\0\0\0\0\0\x28a\0\0\0\0\0\0\0\0\0\0\0\0\0\0\0";

/// A head with a name field of 64 bytes.
const WIDE: [u8; 24] = *b"LARCHIVE\0\0\0\x0a\0\0\0\x50\0\0\0\0\0\0\0\x58";

/// An empty component in a cell of 64 bytes.
const LIE: [u8; 64] =
    *b"LARCHIVE\0\0\0\0\0\0\0\x50\0\0\0\0\0\0\0\x28l\0\0\0\0\0\0\0\0\0\0\0\0\0\0\0\0\0\0\0\0\0\0\
    \0\0\0\0\0\0\0\0\0\0\0\0\0\0\0\0\0";

pub const RAW: u32 = 0x50;

pub const NULL: u32 = 0xffff_ffff;

pub fn whole<F: Flash>(rt: &impl Abort, paged: &Paged<F>) -> Region
    ensures { LiesOn result paged.now.device }
{
    Region::within(0, paged.len(), paged.len()).expect(rt, "a region")
}

pub fn answers<F: Flash>(rt: &impl Abort, walk: &mut Walk, paged: &mut Paged<F>, want: &[Answer])
    requires { LiesOn walk.old.region paged.old.device }
    ensures region { walk.new.region ≡ walk.old.region }
    ensures lies { LiesOn walk.new.region paged.new.device }
{
    for one in want {
        equal(rt, &walk.next(paged), one);
    }
}

fn pass<F: Flash>(walk: &mut Walk, paged: &mut Paged<F>, calls: u32)
    requires { LiesOn walk.old.region paged.old.device }
    ensures { LiesOn walk.new.region paged.new.device }
{
    for _call in 0..calls {
        let _answer = walk.next(paged);
    }
}

fn cell(at: u64, len: u32, kind: u32, span: u64) -> Cell {
    let head = Head {
        len,
        kind,
        attributes_offset: 0,
        offset: 40,
    };
    Cell { at, head, span }
}

pub fn gives(at: u64, len: u32, kind: u32, span: u64) -> Answer {
    Ok(Step::Cell(cell(at, len, kind, span)))
}

fn damaged(at: u64, kind: DamageKind) -> WalkFault {
    WalkFault::Damaged { at, kind }
}

/// A device with adjacent components at every offset, and other content at each call.
#[derive(Drop)]
struct Liar {
    len: u32,
    told: u8,
    calls: Counter,
}

impl Model for Liar {
    ghost use Rattle.std.specs.Prelude.{replicate, false};
    ghost use Rattle.flash_device.specs.Device.{Device};

    ghost Value = { Device };

    ghost view = { λ l.
        record { content = replicate l.len 0; calls = l.calls; faults = 0; honest = false } };
}

impl Flash for Liar {
    ghost facts = { λ l. l };

    fn len(&self) -> u64 {
        self.len as u64
    }

    fn read_at(&mut self, _at: u64, out: &mut [u8]) -> Result<(), FlashFault> {
        self.calls.tick();
        self.told = self.told.wrapping_add(30);
        for (i, to) in out.iter_mut().enumerate() {
            *to = if i % 64 == 11 { self.told } else { LIE[i % 64] };
        }
        Ok(())
    }

    fn write_at(&mut self, _at: u64, _bytes: &[u8]) -> Result<(), FlashFault> {
        self.calls.tick();
        Ok(())
    }

    fn commit_at(&mut self, _at: u64, _bytes: &[u8; HEADER_LENGTH]) -> Result<(), FlashFault> {
        self.calls.tick();
        Ok(())
    }
}

#[test]
fn a_walk_over_lies_ends(rt: HostRuntime) {
    let mut paged = Paged::new(Liar {
        len: 16384,
        told: 0,
        calls: Counter::new(),
    });
    let mut walk = Walk::new(whole(&rt, &paged));
    // Four calls: contents of 30 and 60 bytes in cells of 128, of 90 and 120 in cells of 192.
    pass(&mut walk, &mut paged, 85);
    answers(&rt, &mut walk, &mut paged, &[gives(12224, 90, RAW, 192)]);
    pass(&mut walk, &mut paged, 20);
    let end = Err(damaged(16256, DamageKind::Extent));
    answers(&rt, &mut walk, &mut paged, &[end]);
    equal(&rt, &walk.steps(), &106);
    drop(paged);
}

/// A long component, a component across two windows, and free space: two reads.
const LONGER: Parts = &[(0, &LONG), (4032, &WIDE), (4056, b"w\0"), (4160, &NULL_340)];

fn wide() -> Cell {
    let head = Head {
        len: 10,
        kind: RAW,
        attributes_offset: 0,
        offset: 88,
    };
    Cell {
        at: 4032,
        head,
        span: 128,
    }
}

/// Checks a stopped walk, and the rest on an equal device.
fn goes_on(rt: &(impl Abort + AllocGlobal), calls: u64, first: &[Answer], then: &[Answer]) {
    let mut stopped = failing(rt, 4544, LONGER, calls);
    let mut sound = failing(rt, 4544, LONGER, ALL);
    walk_both(rt, &mut stopped, first, &mut sound, then);
    drop(stopped);
    drop(sound);
}

fn walk_both(
    rt: &impl Abort,
    stopped: &mut Failing,
    first: &[Answer],
    sound: &mut Failing,
    then: &[Answer],
) {
    let region = whole(rt, stopped);
    assert!(rt; stopped.len() == sound.len());
    let mut walk = Walk::new(region);
    answers(rt, &mut walk, stopped, first);
    answers(rt, &mut walk, sound, then);
}

#[test]
fn a_walk_goes_on_after_each_fault(rt: HostRuntime) {
    let long = gives(0, 3992, RAW, 4032);
    let wide = Ok(Step::Cell(wide()));
    let free = gives(4160, 340, NULL, 384);
    let end = Ok(Step::End);
    let fault = Err(WalkFault::Device);
    goes_on(&rt, 0, &[fault], &[long, wide, free, end]);
    goes_on(&rt, 1, &[long, fault], &[wide, free, end]);
    goes_on(&rt, 2, &[long, wide, free, end], &[end]);
}

fn searches(
    rt: &(impl Abort + AllocGlobal),
    calls: u64,
    name: &[u8],
    want: &Result<Option<Cell>, WalkFault>,
) {
    let mut paged = failing(rt, 4544, LONGER, calls);
    let region = whole(rt, &paged);
    equal(rt, &find(&mut paged, region, name), want);
    drop(paged);
}

#[test]
fn a_search_tells_each_fault(rt: HostRuntime) {
    let fault = Err(WalkFault::Device);
    searches(&rt, 0, b"a", &fault);
    searches(&rt, 1, b"a", &Ok(Some(cell(0, 3992, RAW, 4032))));
    searches(&rt, 1, b"w", &fault);
    searches(&rt, 2, b"w", &Ok(Some(wide())));
    searches(&rt, 2, b"z", &Ok(None));
}
