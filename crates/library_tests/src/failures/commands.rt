//! The eight commands, with a failure at each call of a device, a source or a file, and with short
//! and interrupted transfers.
use crate::edit::actions::{COREBOOT, leaves};
use crate::edit::support::{Held, LEN, MAGIC_20, MAP, START, Stop, image_of, source_of, stopping};
use crate::rows::support::A_AND_416;
use crate::support::{
    ALL, Short, device_from, ends_with, equal, filled, image_with, took_part, write_over, writer,
};
use arrayvec::ArrayVec;
use cbfs_commands::{Command, MOST_REGIONS, Refusal, run};
use cbfs_edit::{HashChoice, Spot};
use flash_store::{
    EraseFilter, FailSource, FlakyFile, Flash, MemFlash, Paged, ReadAhead, Source, StoredFlash,
    StoredSource, WriteSink,
};
use std::process::Abort;

/// A command on the small image with the component `a`.
#[derive(Clone, Copy)]
enum Task {
    Print,
    Layout,
    Extract,
    Read,
    Add,
    Remove,
    Write,
    /// The image has only bytes of 7 before.
    Create,
}

/// The content of COREBOOT after a write.
const WRITTEN: [u8; 512] = [b'w'; 512];

const LAYOUT: &[u8] = b"fmap\t0x0\tFLASH\t1536\t3\nFMAP\t0x0\t512\t0x0\nCOREBOOT\t0x200\t512\t0x0\n\
REST\t0x400\t512\t0x0\n";

fn command_of(task: Task) -> Command<'static> {
    match task {
        Task::Print => Command::Print {
            region: COREBOOT,
            verbose: false,
        },
        Task::Layout => Command::Layout,
        Task::Extract => Command::Extract {
            region: COREBOOT,
            name: b"a",
        },
        Task::Read => Command::Read { region: COREBOOT },
        Task::Add => Command::Add {
            region: COREBOOT,
            name: b"b",
            kind: 0x50,
            hash: HashChoice::Plain,
            spot: Spot::First,
        },
        Task::Remove => Command::Remove {
            region: COREBOOT,
            name: b"a",
        },
        Task::Write => Command::Write { region: COREBOOT },
        Task::Create => creation(),
    }
}

fn creation() -> Command<'static> {
    let mut regions: ArrayVec<&[u8], MOST_REGIONS> = ArrayVec::new();
    let _fits = regions.try_extend_from_slice(&[COREBOOT]);
    Command::Create { regions }
}

/// Returns the bytes of FILE.
fn file_of(task: Task) -> &'static [u8] {
    match task {
        Task::Add => &MAGIC_20,
        Task::Write => &WRITTEN,
        Task::Create => &MAP,
        _ => b"",
    }
}

fn text_of(task: Task, region: &[u8]) -> &[u8] {
    match task {
        Task::Print => A_AND_416,
        Task::Layout => LAYOUT,
        Task::Extract => b"0123456789",
        Task::Read => region,
        _ => b"",
    }
}

fn before(rt: &(impl Abort + AllocGlobal), task: Task) -> Vec<u8> {
    match task {
        Task::Create => filled(rt, 7, LEN),
        _ => image_of(rt, Held::WithA),
    }
}

fn after(rt: &(impl Abort + AllocGlobal), task: Task) -> Vec<u8> {
    match task {
        Task::Add => image_of(rt, Held::Both),
        Task::Remove | Task::Create => image_of(rt, Held::Fresh),
        Task::Write => image_with(rt, LEN, &MAP, START, &[(0, &WRITTEN)]),
        _ => image_of(rt, Held::WithA),
    }
}

/// Checks that bytes outside COREBOOT are those of before.
fn keeps_outside(rt: &(impl Abort + AllocGlobal), device: MemFlash) {
    let mut left = device.bytes().to_vec(rt.alloc()).expect(rt, "memory");
    drop(device);
    write_over(&mut left, START, &WRITTEN);
    let wanted = after(rt, Task::Write);
    equal(rt, &left.as_slice(), &wanted.as_slice());
    drop(left);
    drop(wanted);
}

/// Checks what a failed command leaves: the image before, or with the components before or after.
fn is_left(rt: &(impl Abort + AllocGlobal), task: Task, fault: Refusal, device: MemFlash) {
    match (task, fault) {
        (Task::Add, Refusal::Source) => leaves(rt, device, Held::WithA, Held::WithA),
        (Task::Add, _) => leaves(rt, device, Held::WithA, Held::Both),
        (Task::Remove, _) => leaves(rt, device, Held::WithA, Held::Fresh),
        (Task::Write, _) => keeps_outside(rt, device),
        (Task::Create, _) => drop(device),
        (_, _) => ends_with(rt, device, before(rt, task)),
    }
}

/// Checks the image after a command that fails only by `fault`. Returns true after success.
fn has_ended(
    rt: &(impl Abort + AllocGlobal),
    task: Task,
    answer: Result<(), Refusal>,
    fault: Refusal,
    device: MemFlash,
) -> bool {
    if answer.is_ok() {
        ends_with(rt, device, after(rt, task));
        return true;
    }
    equal(rt, &answer, &Err(fault));
    is_left(rt, task, fault, device);
    false
}

/// Runs a command, and checks that its output is a part of the text, and whole after success.
fn attempt<F: Flash, S: Source>(
    rt: &(impl Abort + AllocGlobal),
    paged: &mut Paged<F>,
    task: Task,
    source: &mut S,
) -> Result<(), Refusal> {
    let image = image_of(rt, Held::WithA);
    let region = image.get(START..2 * START).expect(rt, "a region");
    let mut out = writer(4096, usize::MAX, text_of(task, region));
    let answer = run(paged, &command_of(task), source, &mut out);
    is_part(rt, answer.is_ok(), out);
    drop(image);
    answer
}

fn is_part(rt: &impl Abort, is_done: bool, out: WriteSink<Short<'_>>) {
    let (is_part, is_whole) = took_part(out);
    equal(rt, &is_part, &true);
    equal(rt, &(is_whole || !is_done), &true);
}

// ---- devices

/// Returns true if the device's `calls` and the source's `reads` suffice.
fn on_device(rt: &(impl Abort + AllocGlobal), task: Task, stop: Stop, fault: Refusal) -> bool {
    let mut paged = stopping(device_from(rt, before(rt, task)), stop);
    let mut source = FailSource::new(source_of(rt, file_of(task)), stop.reads);
    let answer = attempt(rt, &mut paged, task, &mut source);
    drop(source);
    has_ended(rt, task, answer, fault, paged.into_flash().into_inner())
}

/// Returns the number of calls that suffice. A failed write writes `part` bytes.
fn calls_of(rt: &(impl Abort + AllocGlobal), task: Task, part: usize) -> u64 {
    for calls in 0..100 {
        let stop = Stop {
            calls,
            part,
            reads: ALL,
        };
        if on_device(rt, task, stop, Refusal::Device) {
            return calls;
        }
    }
    100
}

fn makes_calls(rt: &(impl Abort + AllocGlobal), task: Task, calls: u64) {
    for part in [0, 1, 17, 4096] {
        equal(rt, &calls_of(rt, task, part), &calls);
    }
}

#[test]
fn a_device_that_fails_at_each_call(rt: HostRuntime) {
    makes_calls(&rt, Task::Print, 1);
    makes_calls(&rt, Task::Layout, 1);
    makes_calls(&rt, Task::Extract, 1);
    makes_calls(&rt, Task::Read, 1);
    makes_calls(&rt, Task::Add, 6);
    makes_calls(&rt, Task::Remove, 3);
    makes_calls(&rt, Task::Write, 2);
    makes_calls(&rt, Task::Create, 4);
}

// ---- sources

/// Returns the number of reads of FILE that suffice.
fn reads_of(rt: &(impl Abort + AllocGlobal), task: Task) -> u64 {
    for reads in 0..100 {
        let stop = Stop {
            calls: ALL,
            part: 0,
            reads,
        };
        if on_device(rt, task, stop, Refusal::Source) {
            return reads;
        }
    }
    100
}

#[test]
fn a_source_that_fails_at_each_read(rt: HostRuntime) {
    equal(&rt, &reads_of(&rt, Task::Extract), &0);
    equal(&rt, &reads_of(&rt, Task::Add), &1);
    equal(&rt, &reads_of(&rt, Task::Write), &1);
    equal(&rt, &reads_of(&rt, Task::Create), &5);
}

// ---- files

/// The maximum transfer, the calls between two interruptions, and the calls before the failure.
#[derive(Clone, Copy)]
struct Calls {
    most: usize,
    between: u64,
    made: u64,
}

fn flaky(rt: &impl Abort, bytes: Vec<u8>, calls: Calls) -> FlakyFile {
    assert!(rt; bytes.len() <= LEN);
    FlakyFile::new(bytes, calls.most, calls.between, calls.made)
}

fn whole(made: u64) -> Calls {
    Calls {
        most: 4096,
        between: 5000,
        made,
    }
}

/// Returns true if the calls of both files suffice.
fn on_files(
    rt: &(impl Abort + AllocGlobal),
    task: Task,
    image: Calls,
    file: Calls,
    fault: Refusal,
) -> bool {
    let layers = ReadAhead::new(EraseFilter::new(flaky(rt, before(rt, task), image)));
    let mut paged = Paged::new(StoredFlash::new(layers));
    let content = file_of(task).to_vec(rt.alloc()).expect(rt, "memory");
    let mut source = StoredSource::new(flaky(rt, content, file));
    let answer = attempt(rt, &mut paged, task, &mut source);
    drop(source);
    let file = paged.into_flash().into_inner().into_inner().into_inner();
    let left = file.bytes().to_vec(rt.alloc()).expect(rt, "memory");
    drop(file);
    has_ended(rt, task, answer, fault, device_from(rt, left))
}

/// Checks a failure at each call of the image's file.
fn stops_image(rt: &(impl Abort + AllocGlobal), task: Task, calls: Calls) {
    for made in 0..2000 {
        let calls = Calls { made, ..calls };
        if on_files(rt, task, calls, whole(5000), Refusal::Device) {
            assert!(rt; made > 0);
            return;
        }
    }
    assert!(rt; false);
}

/// Checks a failure at each call of FILE.
fn stops_file(rt: &(impl Abort + AllocGlobal), task: Task, calls: Calls) {
    for made in 0..2000 {
        let calls = Calls { made, ..calls };
        if on_files(rt, task, whole(5000), calls, Refusal::Source) {
            assert!(rt; made > 0);
            return;
        }
    }
    assert!(rt; false);
}

const SHORT: Calls = Calls {
    most: 21,
    between: 3,
    made: 0,
};

/// Each second call is interrupted.
const INTERRUPTED: Calls = Calls {
    most: 30,
    between: 1,
    made: 0,
};

fn stops_images(rt: &(impl Abort + AllocGlobal), task: Task) {
    stops_image(rt, task, whole(0));
    stops_image(rt, task, SHORT);
    stops_image(rt, task, INTERRUPTED);
}

#[test]
fn an_image_in_a_file_that_fails_at_each_call(rt: HostRuntime) {
    stops_images(&rt, Task::Print);
    stops_images(&rt, Task::Layout);
    stops_images(&rt, Task::Extract);
    stops_images(&rt, Task::Read);
    stops_images(&rt, Task::Add);
    stops_images(&rt, Task::Remove);
    stops_images(&rt, Task::Write);
    stops_images(&rt, Task::Create);
}

fn stops_files(rt: &(impl Abort + AllocGlobal), task: Task) {
    stops_file(rt, task, whole(0));
    stops_file(rt, task, SHORT);
    stops_file(rt, task, INTERRUPTED);
}

#[test]
fn a_source_in_a_file_that_fails_at_each_call(rt: HostRuntime) {
    stops_files(&rt, Task::Add);
    stops_files(&rt, Task::Write);
    stops_files(&rt, Task::Create);
}
