//! Edits stopped at each call of a device or file.

use crate::edit::actions::{Action, before, does, has_finished};
use crate::edit::support::{Held, LEN, Stop, device_of, image_of, region_of, source_of, stopping};
use crate::support::{ALL, device_from, equal};
use cbfs_edit::{EditFault, HashChoice, Spot, add};
use flash_store::{EraseFilter, FlakyFile, Flash, MemFlash, Paged, ReadAhead, StoredFlash};
use std::process::Abort;

// ---- devices

/// Returns true if `k` calls suffice.
fn on_device(rt: &(impl Abort + AllocGlobal), action: Action, k: u64, part: usize) -> bool {
    let stop = Stop {
        calls: k,
        part,
        reads: ALL,
    };
    let mut paged = stopping(device_of(rt, before(action)), stop);
    let answer = does(rt, &mut paged, action);
    has_finished(rt, action, answer, paged.into_flash().into_inner())
}

fn stop_each(rt: &(impl Abort + AllocGlobal), action: Action, part: usize) {
    let mut finished = 0;
    for k in 0..20 {
        if on_device(rt, action, k, part) {
            finished = k;
            break;
        }
    }
    assert!(rt; finished > 0);
}

fn stop_all(rt: &(impl Abort + AllocGlobal), part: usize) {
    stop_each(rt, Action::Join, part);
    stop_each(rt, Action::FirstOfTwo, part);
    stop_each(rt, Action::Format, part);
    stop_each(rt, Action::Add, part);
    stop_each(rt, Action::AddLater, part);
}

#[test]
fn an_edit_stops_at_any_call(rt: HostRuntime) {
    stop_all(&rt, 0);
    stop_all(&rt, 1);
    stop_all(&rt, 17);
    stop_all(&rt, 4096);
}

fn fault_of<F: Flash>(
    rt: &impl Abort,
    paged: &mut Paged<F>,
    name: &[u8],
    kind: u32,
    spot: Spot,
) -> Option<EditFault> {
    let region = region_of(rt, paged);
    let mut source = source_of(rt, b"");
    let plain = HashChoice::Plain;
    let answer = add(paged, region, name, kind, plain, spot, &mut source);
    drop(source);
    answer.err()
}

/// Checks the fault if every device call fails.
fn refused_at_once(
    rt: &(impl Abort + AllocGlobal),
    name: &[u8],
    kind: u32,
    spot: Spot,
    want: EditFault,
) {
    let stop = Stop {
        calls: 0,
        part: 0,
        reads: 0,
    };
    let mut paged = stopping(device_of(rt, Held::Fresh), stop);
    equal(rt, &fault_of(rt, &mut paged, name, kind, spot), &Some(want));
    drop(paged);
}

#[test]
fn what_the_words_refuse_makes_no_call(rt: HostRuntime) {
    refused_at_once(&rt, b"", 0x50, Spot::First, EditFault::BadName);
    refused_at_once(&rt, b"a\0", 0x50, Spot::First, EditFault::BadName);
    refused_at_once(&rt, b"a", 0, Spot::First, EditFault::BadType);
    refused_at_once(&rt, b"a", 0x50, Spot::Aligned(0), EditFault::BadAlign);
    refused_at_once(&rt, b"a", 0x50, Spot::First, EditFault::Device);
}

// ---- files

/// The maximum transfer, and the number of calls between interruptions.
#[derive(Clone, Copy)]
struct Calls {
    most: usize,
    between: u64,
}

fn flaky(rt: &(impl Abort + AllocGlobal), held: Held, calls: Calls, made: u64) -> FlakyFile {
    let image = image_of(rt, held);
    assert!(rt; image.len() == LEN);
    FlakyFile::new(image, calls.most, calls.between, made)
}

/// The layers of a device in a system file.
type InFile = Paged<StoredFlash<ReadAhead<EraseFilter<FlakyFile>>>>;

fn in_file(file: FlakyFile) -> InFile {
    Paged::new(StoredFlash::new(ReadAhead::new(EraseFilter::new(file))))
}

fn left_in(rt: &(impl Abort + AllocGlobal), paged: InFile) -> MemFlash {
    let file = paged.into_flash().into_inner().into_inner().into_inner();
    device_from(rt, file.bytes().to_vec(rt.alloc()).expect(rt, "memory"))
}

/// Returns true if `made` calls suffice.
fn on_file(rt: &(impl Abort + AllocGlobal), action: Action, calls: Calls, made: u64) -> bool {
    let mut paged = in_file(flaky(rt, before(action), calls, made));
    let answer = does(rt, &mut paged, action);
    has_finished(rt, action, answer, left_in(rt, paged))
}

fn stop_each_of(rt: &(impl Abort + AllocGlobal), action: Action, calls: Calls) {
    let mut finished = 0;
    for made in 0..2000 {
        if on_file(rt, action, calls, made) {
            finished = made;
            break;
        }
    }
    assert!(rt; finished > 0);
}

fn stop_all_of(rt: &(impl Abort + AllocGlobal), most: usize, between: u64) {
    let calls = Calls { most, between };
    stop_each_of(rt, Action::Join, calls);
    stop_each_of(rt, Action::FirstOfTwo, calls);
    stop_each_of(rt, Action::Format, calls);
    stop_each_of(rt, Action::Add, calls);
    stop_each_of(rt, Action::AddLater, calls);
    stop_each_of(rt, Action::RunAdd, calls);
    stop_each_of(rt, Action::RunRemove, calls);
}

#[test]
fn an_edit_stops_at_any_call_of_a_file(rt: HostRuntime) {
    stop_all_of(&rt, 4096, 5000);
    stop_all_of(&rt, 21, 3);
    stop_all_of(&rt, 30, 1);
}

fn never(rt: &(impl Abort + AllocGlobal), action: Action, calls: Calls, made: u64) {
    assert!(rt; !on_file(rt, action, calls, made));
}

fn never_at_all(rt: &(impl Abort + AllocGlobal), calls: Calls, made: u64) {
    never(rt, Action::Join, calls, made);
    never(rt, Action::FirstOfTwo, calls, made);
    never(rt, Action::Format, calls, made);
    never(rt, Action::Add, calls, made);
    never(rt, Action::AddLater, calls, made);
}

#[test]
fn a_file_that_never_answers_is_refused(rt: HostRuntime) {
    let nothing = Calls {
        most: 0,
        between: 5000,
    };
    never_at_all(&rt, nothing, 5000);
    let interrupted = Calls {
        most: 4096,
        between: 0,
    };
    never_at_all(&rt, interrupted, u64::MAX);
}
