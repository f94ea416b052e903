//! Edits, and lists of edits, with a single device fault.
ghost use Rattle.std.specs.Prelude.{◌≡◌, ◌+◌, true, false, IsTrue};

use crate::edit::actions::{Action, before, does, leaves};
use crate::edit::support::{Held, MAGIC_20, device_of, region_of, source_of};
use crate::support::equal;
use cbfs_edit::{Edit, EditFault, Freed, HashChoice, Placed, Reply, Spot, apply_all};
use flash_format::HEADER_LENGTH;
use flash_store::{Counter, Flash, FlashFault, MemFlash, MemSource, Paged};
use std::process::Abort;

const STOPPED: Reply = Reply::Refused(EditFault::Device);

const NOT_FOUND: Reply = Reply::Refused(EditFault::NotFound);

const FIRST: Reply = Reply::Placed(Placed {
    header: 0,
    content: 28,
});

const NEXT: Reply = Reply::Placed(Placed {
    header: 64,
    content: 92,
});

fn addition<'a>(rt: &impl Abort, name: &'a [u8], content: &'a [u8]) -> Edit<'a, MemSource<'a>> {
    Edit::Add {
        name,
        kind: 0x50,
        hash: HashChoice::Plain,
        spot: Spot::First,
        source: source_of(rt, content),
    }
}

fn freed(start: u64, end: u64) -> Reply {
    Reply::Freed(Freed { start, end })
}

/// A device with a single failed call, without effect.
#[derive(Drop)]
struct FailOnce {
    device: MemFlash,
    /// Calls up to the failed call; 0 afterwards.
    left: u64,
    /// Calls after the failed call.
    after: u64,
    calls: Counter,
    faults: Counter,
}

impl FailOnce {
    fn new(device: MemFlash, number: u64) -> FailOnce {
        FailOnce {
            device,
            left: number,
            after: 0,
            calls: Counter::new(),
            faults: Counter::new(),
        }
    }

    fn is_due(&mut self) -> bool
        ensures device { self.new.device ≡ self.old.device }
        ensures counted { self.new.calls ≡ self.old.calls + 1 }
        ensures due { IsTrue result → self.new.faults ≡ self.old.faults + 1 }
        ensures passed { result ≡ false → self.new.faults ≡ self.old.faults }
    {
        self.calls.tick();
        if self.left == 0 {
            self.after = self.after.saturating_add(1);
        }
        let due = self.left == 1;
        self.left = self.left.saturating_sub(1);
        if due {
            self.faults.tick();
        }
        due
    }
}

impl Flash for FailOnce {
    ghost facts = { λ f. let content = f.device.content.items in
        record { content = content; calls = f.calls; faults = f.faults; honest = true } };

    fn len(&self) -> u64 {
        self.device.len()
    }

    fn read_at(&mut self, at: u64, out: &mut [u8]) -> Result<(), FlashFault> {
        if self.is_due() {
            return Err(FlashFault);
        }
        self.device.read_at(at, out)
    }

    fn write_at(&mut self, at: u64, bytes: &[u8]) -> Result<(), FlashFault> {
        if self.is_due() {
            return Err(FlashFault);
        }
        self.device.write_at(at, bytes)
    }

    fn commit_at(&mut self, at: u64, bytes: &[u8; HEADER_LENGTH]) -> Result<(), FlashFault> {
        if self.is_due() {
            return Err(FlashFault);
        }
        self.device.commit_at(at, bytes)
    }
}

fn replies_of<F: Flash>(rt: &impl Abort, paged: &mut Paged<F>) -> [Reply; 3] {
    let mut edits = [
        addition(rt, b"a", b"0123456789"),
        addition(rt, b"b", &MAGIC_20),
        Edit::Remove { name: b"a" },
    ];
    let mut replies = [Reply::Refused(EditFault::Source); 3];
    let region = region_of(rt, paged);
    apply_all(paged, region, &mut edits, &mut replies);
    replies
}

/// Returns the index of the stopped edit, or 3.
fn stopped_of(replies: &[Reply; 3]) -> usize {
    if replies[0] == STOPPED {
        return 0;
    }
    if replies[1] == STOPPED {
        return 1;
    }
    if replies[2] == STOPPED { 2 } else { 3 }
}

fn wanted(stopped: usize) -> [Reply; 3] {
    match stopped {
        0 => [STOPPED, FIRST, NOT_FOUND],
        1 => [FIRST, STOPPED, freed(0, 512)],
        2 => [FIRST, NEXT, STOPPED],
        _ => [FIRST, NEXT, freed(0, 64)],
    }
}

fn left(stopped: usize) -> Held {
    match stopped {
        0 => Held::WithB,
        1 => Held::Fresh,
        _ => Held::BehindFree,
    }
}

fn stopped_at(rt: &(impl Abort + AllocGlobal), number: u64) -> usize {
    let mut paged = Paged::new(FailOnce::new(device_of(rt, Held::Fresh), number));
    let replies = replies_of(rt, &mut paged);
    has_stopped(rt, &replies, paged.into_flash().device)
}

/// Returns the index of the stopped edit. A stopped removal may have removed the component.
fn has_stopped(rt: &(impl Abort + AllocGlobal), replies: &[Reply; 3], device: MemFlash) -> usize {
    let stopped = stopped_of(replies);
    equal(rt, replies, &wanted(stopped));
    let other = if stopped == 2 {
        Held::Both
    } else {
        left(stopped)
    };
    leaves(rt, device, left(stopped), other);
    stopped
}

/// Checks that each of the three edits is stopped by some fault.
fn stop_lists(rt: &(impl Abort + AllocGlobal)) {
    let mut last = 0;
    for number in 1..60 {
        let stopped = stopped_at(rt, number);
        assert!(rt; stopped == last || number > 1 && stopped == last.saturating_add(1));
        last = stopped;
        if last == 3 {
            break;
        }
    }
    assert!(rt; last == 3);
}

#[test]
fn a_stopped_edit_does_not_stop_the_later_ones(rt: HostRuntime) {
    stop_lists(&rt);
}

/// Checks that no call follows the failed call. Returns true after success.
fn ends_with(rt: &(impl Abort + AllocGlobal), action: Action, number: u64) -> bool {
    let mut paged = Paged::new(FailOnce::new(device_of(rt, before(action)), number));
    let answer = does(rt, &mut paged, action);
    let device = paged.into_flash();
    equal(rt, &device.after, &0);
    drop(device);
    answer.is_ok()
}

fn refuse_each(rt: &(impl Abort + AllocGlobal), action: Action) {
    let mut finished = 0;
    for number in 1..20 {
        if ends_with(rt, action, number) {
            finished = number;
            break;
        }
    }
    assert!(rt; finished > 1);
}

#[test]
fn an_edit_makes_no_call_after_a_refused_one(rt: HostRuntime) {
    refuse_each(&rt, Action::Join);
    refuse_each(&rt, Action::Format);
    refuse_each(&rt, Action::AddLater);
}
