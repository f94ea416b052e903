//! The search for a map, the buffer after an edit, and images in files.
use crate::compiler::descriptors::TABLE;
use crate::edit::actions::{COREBOOT, answer_into};
use crate::edit::support::{MAGIC_20, source_of};
use crate::rows::support::{A_AND_416, BOARD, FRESH, PRINT, WITH_A, board, content};
use crate::support::{
    ALL, Parts, device_from, device_with, equal, filled, has_all, same_bytes, writer,
};
use arrayvec::ArrayVec;
use cbfs_commands::{Command, MOST_REGIONS, run};
use cbfs_edit::{HashChoice, Spot};
use flash_store::{FileFlash, FileSource, Flash, MemFlash, OpenFault, Paged, Source, find_fmap};
use std::fs::{self, File};
use std::io::ErrorKind;
use std::process::{self, Abort};
use std::rt::Files;

// ---- the search

fn place_of(rt: &impl Abort, paged: &mut Paged<MemFlash>) -> Option<u64> {
    let found = find_fmap(paged).expect(rt, "a search");
    match found {
        Some(map) => Some(map.at),
        None => None,
    }
}

fn is_found(rt: &(impl Abort + AllocGlobal), len: usize, parts: Parts, at: u64) {
    let mut paged = Paged::new(device_with(rt, len, parts));
    equal(rt, &place_of(rt, &mut paged), &Some(at));
    drop(paged);
}

/// A table of major version 2, before a valid table.
const VERSION_2: Parts = &[(0x100, &TABLE), (0x108, b"\x02"), (0x400, &TABLE)];

#[test]
fn a_map_behind_half_a_signature(rt: HostRuntime) {
    is_found(&rt, 4096, &[(0, b"__FMAP"), (6, &TABLE)], 6);
    is_found(&rt, 8192, &[(4092, &TABLE)], 4092);
    is_found(&rt, 4096, VERSION_2, 0x400);
}

fn find_each(rt: &(impl Abort + AllocGlobal)) {
    for at in 4083..4104 {
        is_found(rt, 8192, &[(at, &TABLE)], at as u64);
    }
}

#[test]
fn a_map_across_two_pieces(rt: HostRuntime) {
    find_each(&rt);
}

fn halves_of_signatures(rt: &(impl Abort + AllocGlobal)) -> Vec<u8> {
    let mut bytes = filled(rt, 0, 4096);
    for (i, byte) in bytes.iter_mut().enumerate() {
        *byte = b"__FMAP"[i % 6];
    }
    bytes
}

#[test]
fn an_image_of_half_signatures_has_no_map(rt: HostRuntime) {
    let mut paged = Paged::new(device_from(&rt, halves_of_signatures(&rt)));
    equal(&rt, &place_of(&rt, &mut paged), &None);
    drop(paged);
}

#[test]
fn the_head_of_a_map(rt: HostRuntime) {
    let mut paged = Paged::new(device_with(&rt, 4096, &[(0, &BOARD)]));
    has_head(&rt, &mut paged);
    drop(paged);
}

fn has_head(rt: &impl Abort, paged: &mut Paged<MemFlash>) {
    let found = find_fmap(paged).expect(rt, "a search");
    let head = found.expect(rt, "a map").head;
    equal(
        rt,
        &(head.major, head.minor, head.base),
        &(1, 1, 0xff00_0000),
    );
    equal(rt, &(head.size, head.nareas), &(4096, 3));
    same_bytes(
        rt,
        &head.name,
        b"FLASH\0\0\0\0\0\0\0\0\0\0\0\0\0\0\0\0\0\0\0\0\0\0\0\0\0\0\0",
    );
}

// ---- used and new buffers

fn lists<F: Flash>(rt: &impl Abort, paged: &mut Paged<F>, text: &[u8]) {
    let mut out = writer(4096, usize::MAX, text);
    equal(
        rt,
        &answer_into(rt, paged, &PRINT, b"", 0, &mut out),
        &Ok(()),
    );
    has_all(rt, out);
}

/// Checks that a used and a new buffer give the same listing.
fn lists_again(
    rt: &(impl Abort + AllocGlobal),
    region: Parts,
    before: &[u8],
    command: &Command,
    after: &[u8],
) {
    let mut paged = Paged::new(device_from(rt, board(rt, region)));
    lists(rt, &mut paged, before);
    let mut none = writer(0, 0, b"");
    equal(
        rt,
        &answer_into(rt, &mut paged, command, &MAGIC_20, ALL, &mut none),
        &Ok(()),
    );
    drop(none);
    lists(rt, &mut paged, after);
    let mut fresh = Paged::new(paged.into_flash());
    lists(rt, &mut fresh, after);
    drop(fresh);
}

const ADD: Command<'static> = Command::Add {
    region: COREBOOT,
    name: b"b",
    kind: 0x50,
    hash: HashChoice::Plain,
    spot: Spot::First,
};

const REMOVE: Command<'static> = Command::Remove {
    region: COREBOOT,
    name: b"a",
};

#[test]
fn a_buffer_lists_an_edit_as_a_fresh_one_does(rt: HostRuntime) {
    let both = b"a\t0x0\traw\t10\tnone\nb\t0x40\traw\t20\tnone\n(empty)\t0x80\tnull\t352\tnone\n";
    lists_again(&rt, WITH_A, A_AND_416, &ADD, both);
    lists_again(
        &rt,
        WITH_A,
        A_AND_416,
        &REMOVE,
        b"(empty)\t0x0\tnull\t480\tnone\n",
    );
}

// ---- files

fn obeys<F: Flash, S: Source>(
    rt: &impl Abort,
    paged: &mut Paged<F>,
    command: &Command,
    source: &mut S,
    text: &[u8],
) {
    let mut out = writer(4096, usize::MAX, text);
    equal(rt, &run(paged, command, source, &mut out), &Ok(()));
    has_all(rt, out);
}

/// Returns a path, unique for each process.
fn path_of(rt: &(impl Abort + AllocGlobal), id: u32, name: &str) -> String {
    format!(in rt.alloc(); "library_tests_{id}_{name}").expect(rt, "memory")
}

fn create<R: Files<File = File> + Abort>(rt: &R, path: &str) {
    let mut regions: ArrayVec<&[u8], MOST_REGIONS> = ArrayVec::new();
    let _fits = regions.try_extend_from_slice(&[COREBOOT]);
    let mut paged = Paged::new(FileFlash::create(rt, path, 4096).expect(rt, "a device"));
    let mut source = source_of(rt, &BOARD);
    obeys(
        rt,
        &mut paged,
        &Command::Create { regions },
        &mut source,
        b"",
    );
    drop(source);
    drop(paged);
}

fn obeys_in<R: Files<File = File> + Abort>(rt: &R, path: &str, command: &Command, text: &[u8]) {
    let mut paged = Paged::new(FileFlash::open(rt, path).expect(rt, "a device"));
    let mut source = source_of(rt, b"");
    obeys(rt, &mut paged, command, &mut source, text);
    drop(source);
    drop(paged);
}

fn obeys_from<R: Files<File = File> + Abort>(rt: &R, path: &str, command: &Command, from: &str) {
    let mut paged = Paged::new(FileFlash::open(rt, path).expect(rt, "a device"));
    let mut source = FileSource::open(rt, from).expect(rt, "a source");
    obeys(rt, &mut paged, command, &mut source, b"");
    drop(source);
    drop(paged);
}

fn file_has<R: Files<File = File> + Abort + AllocGlobal>(rt: &R, path: &str, wanted: &[u8]) {
    let bytes = fs::read(rt, path).expect(rt, "a file");
    same_bytes(rt, &bytes, wanted);
    drop(bytes);
}

const ADD_A: Command<'static> = Command::Add {
    region: COREBOOT,
    name: b"a",
    kind: 0x50,
    hash: HashChoice::Plain,
    spot: Spot::First,
};

const WRITE: Command<'static> = Command::Write { region: COREBOOT };

fn work_on<R: Files<File = File> + Abort + AllocGlobal>(rt: &R, image: &str, from: &str) {
    create(rt, image);
    file_has(rt, image, &board(rt, FRESH));
    obeys_in(rt, image, &PRINT, b"(empty)\t0x0\tnull\t480\tnone\n");
    fs::write(rt, from, b"0123456789".as_slice()).expect(rt, "a file");
    obeys_from(rt, image, &ADD_A, from);
    file_has(rt, image, &board(rt, WITH_A));
    let bytes = content(rt, 512);
    fs::write(rt, from, bytes.as_slice()).expect(rt, "a file");
    obeys_from(rt, image, &WRITE, from);
    file_has(rt, image, &board(rt, &[(0, &bytes)]));
    drop(bytes);
}

#[test]
fn an_image_and_contents_in_files(rt: HostRuntime) {
    let id = process::id(rt.process());
    let image = path_of(&rt, id, "image");
    let from = path_of(&rt, id, "content");
    work_on(&rt, &image, &from);
    fs::remove_file(&rt, image.as_str()).expect(&rt, "a file");
    fs::remove_file(&rt, from.as_str()).expect(&rt, "a file");
    drop(image);
    drop(from);
}

fn is_absent<R: Files<File = File> + Abort>(rt: &R, path: &str) {
    equal(
        rt,
        &FileFlash::open(rt, path).err(),
        &Some(OpenFault::Failed(ErrorKind::NotFound)),
    );
    equal(
        rt,
        &FileSource::open(rt, path).err(),
        &Some(OpenFault::Failed(ErrorKind::NotFound)),
    );
}

#[test]
fn a_file_that_is_not_there(rt: HostRuntime) {
    let path = path_of(&rt, process::id(rt.process()), "absent");
    is_absent(&rt, &path);
    let inside = path_of(&rt, process::id(rt.process()), "absent/image");
    equal(
        &rt,
        &FileFlash::create(&rt, &inside, 4096).err(),
        &Some(OpenFault::Failed(ErrorKind::NotFound)),
    );
    drop(path);
    drop(inside);
}
