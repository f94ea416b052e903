//! The buffer, and files with short or failed calls.
use crate::support::{device_with, equal, filled, same_bytes, write_over};
use flash_format::HEADER_LENGTH;
use flash_store::{
    EraseFilter, FlakyFile, Flash, MemFlash, MemSource, Paged, Source, StoreFault, StoredFlash,
    StoredSource, region,
};
use std::process::Abort;

/// The map of 4096 bytes: FMAP of 512 bytes, and COREBOOT.
const MAP: [u8; 140] = *b"__FMAP__\x01\x01\0\0\0\xff\0\0\0\0\0\x10\0\0\
FLASH\0\0\0\0\0\0\0\0\0\0\0\0\0\0\0\0\0\0\0\0\0\0\0\0\0\0\0\x02\0\
\0\0\0\0\0\x02\0\0\
FMAP\0\0\0\0\0\0\0\0\0\0\0\0\0\0\0\0\0\0\0\0\0\0\0\0\0\0\0\0\0\0\
\0\x02\0\0\0\x0e\0\0\
COREBOOT\0\0\0\0\0\0\0\0\0\0\0\0\0\0\0\0\0\0\0\0\0\0\0\0\0\0";

/// A name with a NUL, which no argument contains, has no region.
#[test]
fn areas_are_those_of_the_map(rt: HostRuntime) {
    let mut paged = Paged::new(device_with(&rt, 4096, &[(0x80, &MAP)]));
    equal(&rt, &place_of(&mut paged, b"COREBOOT"), &Ok((0x200, 0xe00)));
    let none = Err(StoreFault::NoRegion);
    equal(&rt, &place_of(&mut paged, b"COREBOOT\0"), &none);
    drop(paged);
}

fn place_of(paged: &mut Paged<MemFlash>, word: &[u8]) -> Result<(u64, u64), StoreFault> {
    let found = region(paged, word)?;
    Ok((found.start(), found.size()))
}

/// A hundred bytes without a repeated sequence of three.
const NUMBERED: [u8; 100] =
    *b"00,01,02,03,04,05,06,07,08,09,10,11,12,13,14,15,16,17,18,19,20,21,22,23,24,25,26,27,28,29,\
    30,31,32,.";

#[test]
fn what_is_read_after_a_write_is_what_the_device_holds(rt: HostRuntime) {
    let mut paged = Paged::new(device_with(&rt, 9000, &[(100, &NUMBERED)]));
    write_each(&rt, &mut paged);
    drop(paged);
}

fn write_each(rt: &impl Abort, paged: &mut Paged<MemFlash>) {
    agrees(rt, paged, b"3,04,");
    push_six(rt, paged);
    agrees(rt, paged, b"pushed");
    commit_two(rt, paged);
    agrees(rt, paged, &[2; HEADER_LENGTH]);
    fill_seven(rt, paged);
    agrees(rt, paged, &[7; 5]);
    copy_six(rt, paged);
    agrees(rt, paged, b"copied");
}

fn push_six(rt: &impl Abort, paged: &mut Paged<MemFlash>) {
    assert!(rt; paged.len() == 9000);
    let mut source = MemSource::new(b"pushed");
    assert!(rt; paged.pull(&mut source, 0, 6).is_ok());
    drop(source);
    equal(rt, &paged.push(110).is_ok(), &true);
}

fn commit_two(rt: &impl Abort, paged: &mut Paged<MemFlash>) {
    assert!(rt; paged.len() == 9000);
    equal(rt, &paged.commit(110, &[2; HEADER_LENGTH]).is_ok(), &true);
}

fn fill_seven(rt: &impl Abort, paged: &mut Paged<MemFlash>) {
    assert!(rt; paged.len() == 9000);
    equal(rt, &paged.fill(110, 5, 7).is_ok(), &true);
}

fn copy_six(rt: &impl Abort, paged: &mut Paged<MemFlash>) {
    assert!(rt; paged.len() == 9000);
    let mut source = MemSource::new(b"copied");
    equal(rt, &paged.copy_in(110, 6, &mut source).is_ok(), &true);
    drop(source);
}

/// Checks that a read at 110 begins with `written`, and equals the device's bytes.
fn agrees(rt: &impl Abort, paged: &mut Paged<MemFlash>, written: &[u8]) {
    let mut seen = [0; 100];
    assert!(rt; paged.len() == 9000);
    equal(rt, &paged.read_small(110, &mut seen).is_ok(), &true);
    same_bytes(rt, seen.get(..written.len()).unwrap_or(&[]), written);
    let held = paged.flash().bytes().get(110..210).unwrap_or(&[]);
    same_bytes(rt, held, &seen);
}

/// Returns a file with an interruption at each fourth call.
fn flaky(rt: &(impl Abort + AllocGlobal), most: usize, calls: u64) -> FlakyFile {
    let bytes = NUMBERED.to_vec(rt.alloc()).expect(rt, "memory");
    FlakyFile::new(bytes, most, 3, calls)
}

fn reads(rt: &impl Abort, source: &mut StoredSource<FlakyFile>, out: &mut [u8; 100]) -> bool {
    assert!(rt; source.len() == 100);
    source.read_at(0, out).is_ok()
}

#[test]
fn a_source_in_a_file_moves_all(rt: HostRuntime) {
    let mut source = StoredSource::new(flaky(&rt, 7, 1000));
    let mut seen = [0; 100];
    equal(&rt, &reads(&rt, &mut source, &mut seen), &true);
    drop(source);
    same_bytes(&rt, &seen, &NUMBERED);
}

// Like a file truncated after opening.
#[test]
fn a_source_in_a_file_that_gives_nothing_is_refused(rt: HostRuntime) {
    let mut source = StoredSource::new(flaky(&rt, 0, 1000));
    equal(&rt, &reads(&rt, &mut source, &mut [0; 100]), &false);
    drop(source);
}

#[test]
fn a_file_is_erased(rt: HostRuntime) {
    let erased = EraseFilter::erase(flaky(&rt, 7, 1000)).expect(&rt, "an erased file");
    let mut device = StoredFlash::new(erased);
    write_parts(&rt, &mut device);
    let mut wanted = [0xff; 100];
    wanted[31] = b'e';
    wanted[32] = b'w';
    same_bytes(&rt, device.into_inner().into_inner().bytes(), &wanted);
}

fn write_part(
    rt: &impl Abort,
    device: &mut StoredFlash<EraseFilter<FlakyFile>>,
    at: u64,
    bytes: &[u8],
) {
    assert!(rt; device.len() == 100 && at <= 50 && bytes.len() <= 50);
    equal(rt, &device.write_at(at, bytes).is_ok(), &true);
}

/// Writes over 0xff, and 0xff over the first written byte.
fn write_parts(rt: &impl Abort, device: &mut StoredFlash<EraseFilter<FlakyFile>>) {
    write_part(rt, device, 10, &[0xff; 50]);
    write_part(rt, device, 30, b"new");
    write_part(rt, device, 20, &[0xff; 11]);
}

#[test]
fn a_file_that_refuses_is_not_erased(rt: HostRuntime) {
    assert!(rt; EraseFilter::erase(flaky(&rt, 7, 10)).is_err());
}

// ---- headers across two blocks

/// An offset twelve bytes before a block boundary.
const OVER_THE_BORDER: u64 = 4096 - 12;

const NEW_HEADER: [u8; HEADER_LENGTH] = *b"twenty-eight bytes of header";

/// Checks that the file has the new or the old bytes.
fn commits(rt: &(impl Abort + AllocGlobal), most: usize, calls: u64, is_done: bool) {
    let mut wanted = filled(rt, b'o', 8192);
    let old = filled(rt, b'o', 8192);
    assert!(rt; old.len() == 8192);
    let mut device = StoredFlash::new(FlakyFile::new(old, most, 5000, calls));
    assert!(rt; device.len() == 8192);
    let answer = device.commit_at(OVER_THE_BORDER, &NEW_HEADER);
    equal(rt, &answer.is_ok(), &is_done);
    if is_done {
        write_over(&mut wanted, 4096 - 12, &NEW_HEADER);
    }
    same_bytes(rt, device.into_inner().bytes(), &wanted);
    drop(wanted);
}

/// A commit succeeds only if a single write takes all 28 bytes.
#[test]
fn a_header_over_a_border_is_whole_or_absent(rt: HostRuntime) {
    commits(&rt, 12, 5000, false);
    commits(&rt, 27, 5000, false);
    commits(&rt, 28, 0, false);
    commits(&rt, 28, 1, false);
    commits(&rt, 28, 2, false);
    commits(&rt, 28, 3, true);
}
