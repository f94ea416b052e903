//! Edits of the small image, direct or by commands.
use crate::edit::support::{
    Held, MAGIC_20, SIZE, START, Stop, components, device_of, holds, region_of, source_of, stopping,
};
use crate::support::{ALL, Short, equal, is_same, writer};
use cbfs_commands::{Command, Refusal, run};
use cbfs_edit::{EditFault, HashChoice, Spot, add, format, remove};
use flash_store::{FailSource, Flash, MemFlash, Paged, WriteSink};
use std::process::Abort;

pub const COREBOOT: &[u8] = b"COREBOOT";

const RUN_ADD: Command<'static> = Command::Add {
    region: COREBOOT,
    name: b"b",
    kind: 0x50,
    hash: HashChoice::Plain,
    spot: Spot::First,
};

const RUN_REMOVE: Command<'static> = Command::Remove {
    region: COREBOOT,
    name: b"a",
};

#[derive(Clone, Copy)]
pub enum Action {
    Join,
    FirstOfTwo,
    Format,
    Add,
    AddLater,
    RunAdd,
    RunRemove,
}

pub fn before(action: Action) -> Held {
    match action {
        Action::Join => Held::Between,
        Action::FirstOfTwo => Held::Twice,
        Action::Format => Held::WithLast,
        Action::Add => Held::Fresh,
        _ => Held::WithA,
    }
}

pub fn after(action: Action) -> Held {
    match action {
        Action::FirstOfTwo => Held::Once,
        Action::Format => Held::FreshBeforeLast,
        Action::Add => Held::WithA,
        Action::AddLater => Held::WithLater,
        Action::RunAdd => Held::Both,
        _ => Held::Fresh,
    }
}

pub fn answer_into<F: Flash>(
    rt: &impl Abort,
    paged: &mut Paged<F>,
    command: &Command,
    bytes: &[u8],
    reads: u64,
    out: &mut WriteSink<Short<'_>>,
) -> Result<(), Refusal> {
    let mut source = FailSource::new(source_of(rt, bytes), reads);
    let answer = run(paged, command, &mut source, out);
    drop(source);
    answer
}

fn answer_of<F: Flash>(
    rt: &impl Abort,
    paged: &mut Paged<F>,
    command: &Command,
    bytes: &[u8],
    reads: u64,
) -> Result<(), Refusal> {
    answer_into(rt, paged, command, bytes, reads, &mut writer(0, 0, &[]))
}

pub fn stopped(
    rt: &impl Abort,
    device: MemFlash,
    command: &Command,
    bytes: &[u8],
    stop: Stop,
    want: &Result<(), Refusal>,
) -> MemFlash {
    let mut paged = stopping(device, stop);
    equal(
        rt,
        &answer_of(rt, &mut paged, command, bytes, stop.reads),
        want,
    );
    paged.into_flash().into_inner()
}

/// Converts a fault; all except `Device` and `Source` become `NotFound`.
fn told(fault: Option<EditFault>) -> Result<(), Refusal> {
    match fault {
        None => Ok(()),
        Some(EditFault::Device) => Err(Refusal::Device),
        Some(EditFault::Source) => Err(Refusal::Source),
        Some(_) => Err(Refusal::NotFound),
    }
}

fn adds<F: Flash>(
    rt: &impl Abort,
    paged: &mut Paged<F>,
    name: &[u8],
    spot: Spot,
    content: &[u8],
) -> Option<EditFault> {
    let region = region_of(rt, paged);
    let mut source = source_of(rt, content);
    let plain = HashChoice::Plain;
    let answer = add(paged, region, name, 0x50, plain, spot, &mut source);
    drop(source);
    answer.err()
}

fn removes<F: Flash>(rt: &impl Abort, paged: &mut Paged<F>, name: &[u8]) -> Option<EditFault> {
    let region = region_of(rt, paged);
    remove(paged, region, name).err()
}

fn formats<F: Flash>(rt: &impl Abort, paged: &mut Paged<F>) -> Option<EditFault> {
    let region = region_of(rt, paged);
    format(paged, region).err()
}

fn edits<F: Flash>(rt: &impl Abort, paged: &mut Paged<F>, action: Action) -> Option<EditFault> {
    match action {
        Action::Join => removes(rt, paged, b"m"),
        Action::FirstOfTwo => removes(rt, paged, b"x"),
        Action::Format => formats(rt, paged),
        Action::AddLater => adds(rt, paged, b"b", Spot::Aligned(256), &MAGIC_20),
        _ => adds(rt, paged, b"a", Spot::First, b"0123456789"),
    }
}

pub fn does<F: Flash>(
    rt: &impl Abort,
    paged: &mut Paged<F>,
    action: Action,
) -> Result<(), Refusal> {
    match action {
        Action::RunAdd => answer_of(rt, paged, &RUN_ADD, &MAGIC_20, ALL),
        Action::RunRemove => answer_of(rt, paged, &RUN_REMOVE, b"", ALL),
        _ => told(edits(rt, paged, action)),
    }
}

fn are_those(rt: &(impl Abort + AllocGlobal), found: &[u8], held: Held) -> bool {
    let wanted = components(rt, device_of(rt, held), START, SIZE);
    let is_same = is_same(found, &wanted);
    drop(wanted);
    is_same
}

/// Checks for the components of either state.
pub fn leaves(rt: &(impl Abort + AllocGlobal), device: MemFlash, one: Held, other: Held) {
    let found = components(rt, device, START, SIZE);
    let is_one = are_those(rt, &found, one);
    let is_other = are_those(rt, &found, other);
    drop(found);
    assert!(rt; is_one || is_other);
}

/// Checks the image after success, or the components after a fault. Returns true after success.
pub fn has_finished(
    rt: &(impl Abort + AllocGlobal),
    action: Action,
    answer: Result<(), Refusal>,
    device: MemFlash,
) -> bool {
    if answer.is_ok() {
        holds(rt, device, after(action));
        return true;
    }
    equal(rt, &answer, &Err(Refusal::Device));
    leaves(rt, device, before(action), after(action));
    false
}
