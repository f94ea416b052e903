//! Intel's Firmware Interface Table.
ghost use Rattle.std.specs.Prelude.{◌≡◌, ◌+◌, ◌-◌, ◌*◌, ◌/◌, ◌%◌, ◌^◌, ◌<◌, ◌≤◌, IfOk, IfSome, IsTrue, length};
ghost use Rattle.flash_device.specs.Pages.{HasAnswered, HasRead, IfFound, OnHonest, Returns};
ghost use Rattle.flash_device.specs.Regions.{LiesOn};
ghost use Rattle.board_structures.specs.Filling.{page_reads};
ghost use Rattle.board_structures.specs.FirmwareTables.{body_in, entries_fault, entry_at, entry_of, entry_result, firmware_table_in, has_sum, is_bad, has_table_at, place_of, stated_len, table_at, table_fault, table_place, table_reads, update_at, update_in, update_with, word_sum};

use crate::magic::has_magic_at;
use byteorder::{ByteOrder, LittleEndian};
use flash_device::{Flash, FlashFault, PIECE, Paged, Region};

const SIGNATURE: [u8; 8] = *b"_FIT_   ";

/// The offset of the pointer from the image's end on.
const POINTER_DISTANCE: u64 = 0x40;

/// The address at which the image ends.
const END: u64 = 1 << 32;

/// The largest part of an image that is mapped below its end.
const WINDOW: u64 = 0x1000000;

const ENTRY_LENGTH: usize = 16;

/// The address of an entry that is not used.
const UNUSED: u64 = 0xffff_ffff;

/// The type of an update of the microcode.
const UPDATE: u16 = 1;

const UPDATE_HEADER_LENGTH: usize = 48;

/// The length of an update whose header states 0.
const OLD_UPDATE_LENGTH: u32 = 2048;

/// The reason why a processor refuses an update of its microcode.
#[derive(Clone, Copy)]
pub enum UpdateFault {
    /// The address is no multiple of 16.
    Misaligned,
    /// The image isn't mapped at the address.
    Unmapped,
    /// The header of the update ends after the image.
    CutOff,
    /// The version of the header isn't 1.
    Version(u32),
    /// The update ends after the image, or all updates are longer than the image.
    Length(u32),
    /// The sum of its words isn't a multiple of 2^32.
    Sum,
}

/// The fault of an entry.
#[derive(Clone, Copy)]
pub struct EntryFault {
    /// The number of the entry; the header of the table has the number 0.
    pub number: u32,
    pub fault: UpdateFault,
}

/// The first reason why a processor can't use the table.
#[derive(Clone, Copy)]
pub enum TableFault {
    /// The header counts no entries.
    Empty,
    /// The entries end after the image.
    CutOff,
    /// An entry is refused.
    Entry(EntryFault),
}

/// The state of the Firmware Interface Table.
#[derive(Clone, Copy)]
pub enum FirmwareTable {
    /// The image doesn't point to a table.
    Absent,
    /// The processor can't use the table.
    Broken(TableFault),
    /// The table has this number of entries, and the processor accepts each update.
    Sound(u32),
}

impl FirmwareTable {
    /// Returns whether the processor ignores the table, or refuses an update of its microcode.
    pub fn is_bad(self) -> bool
        ensures { result ≡ is_bad self }
    {
        matches!(self, FirmwareTable::Broken(_))
    }
}

/// The fields of an entry.
#[derive(Clone, Copy)]
struct TableEntry {
    address: u64,
    /// In the header, the number of entries.
    count: u32,
    kind: u16,
}

impl TableEntry {
    fn of(bytes: &[u8; ENTRY_LENGTH]) -> TableEntry
        ensures { result ≡ entry_of bytes.now }
    {
        TableEntry {
            address: LittleEndian::read_u64(&bytes[0..8]),
            count: LittleEndian::read_u32(&bytes[8..12]) % (1 << 24),
            kind: LittleEndian::read_u16(&bytes[14..16]) % 128,
        }
    }
}

/// Returns the offset of an address in an image of this length, if it is mapped.
fn place_of(len: u64, address: u64) -> Option<u64>
    ensures place { result ≡ place_of len address }
    ensures inside { IfSome result (λ place. place ≤ len) }
{
    if address < END && END <= address + len.min(WINDOW) {
        return Some(len - (END - address));
    }
    None
}

/// Returns the offset to which the image points, which need not have a table.
#[tactic(auto, unfolding(crate::specs::FirmwareTables::table_place))]
pub fn read_table_place<F: Flash>(paged: &mut Paged<F>) -> Result<Option<u64>, FlashFault>
    ensures after { HasAnswered 1 paged.old paged.new result }
    ensures place { OnHonest paged.old.device (λ image. Returns result (table_place image)) }
    ensures inside { IfFound result (λ place. place ≤ length paged.old.device.content) }
{
    let len = paged.len();
    if len < POINTER_DISTANCE {
        return Ok(None);
    }
    let mut bytes = [0; 8];
    paged.read_small(len - POINTER_DISTANCE, &mut bytes)?;
    Ok(place_of(len, LittleEndian::read_u64(&bytes)))
}

/// Adds the words of some bytes to a sum.
fn add_words(sum: u32, bytes: &[u8]) -> u32
    requires { length bytes.now % 4 ≡ 0 }
    ensures { result ≡ (sum + word_sum (length bytes.now / 4) 0 bytes.now) % 2 ^ 32 }
{
    let mut total = sum;
    for i in 0..bytes.len() / 4 {
        total = total.wrapping_add(LittleEndian::read_u32(&bytes[4 * i..4 * i + 4]));
    }
    total
}

/// Returns whether the sum of the words of an update is a multiple of 2^32.
fn has_sum<F: Flash>(paged: &mut Paged<F>, update: Region) -> Result<bool, FlashFault>
    requires inside { LiesOn update paged.old.device }
    requires words { update.size % 4 ≡ 0 }

    ensures after { HasAnswered (page_reads update.size) paged.old paged.new result }
    ensures sum { OnHonest paged.old.device (λ image.
        Returns result (has_sum update.start update.size image)) }
{
    let len = update.size();
    let mut sum = 0;
    for i in 0..(len + 4095) / 4096 {
        let at = 4096 * i;
        let n = (len - at).min(PIECE as u64);
        sum = add_words(sum, paged.piece(update.start() + at, n as usize)?);
    }
    Ok(sum == 0)
}

fn stated_len(header: &[u8; UPDATE_HEADER_LENGTH]) -> u32
    ensures { result ≡ stated_len header.now }
{
    let len = LittleEndian::read_u32(&header[32..36]);
    if len == 0 { OLD_UPDATE_LENGTH } else { len }
}

/// Returns the length of an update, or why the processor refuses it.
fn check_body<F: Flash>(
    paged: &mut Paged<F>,
    left: u64,
    place: u64,
    len: u32,
) -> Result<Result<u64, UpdateFault>, FlashFault>
    requires { length paged.old.device.content < 2 ^ 32 }

    ensures after { HasAnswered (left / 4096 + 1) paged.old paged.new result }
    ensures cost { IfOk result (λ update. IfOk update (λ n.
        (n ≤ left) × HasRead (n / 4096 + 1) 0 paged.old paged.new)) }
    ensures update { OnHonest paged.old.device (λ image.
        Returns result (body_in left place len image)) }
{
    let Some(update) = Region::within(place, u64::from(len), paged.len()) else {
        return Ok(Err(UpdateFault::Length(len)));
    };
    if left < update.size() {
        return Ok(Err(UpdateFault::Length(len)));
    }
    if len % 4 == 0 && has_sum(paged, update)? {
        return Ok(Ok(u64::from(len)));
    }
    Ok(Err(UpdateFault::Sum))
}

/// Returns the length of an update with its header, or why the processor refuses it. An empty slot
/// has the length 0.
#[tactic(auto, unfolding(crate::specs::FirmwareTables::update_at))]
fn check_update<F: Flash>(
    paged: &mut Paged<F>,
    left: u64,
    place: u64,
) -> Result<Result<u64, UpdateFault>, FlashFault>
    requires small { length paged.old.device.content < 2 ^ 32 }
    requires inside { place ≤ length paged.old.device.content }

    ensures after { HasAnswered (left / 4096 + 2) paged.old paged.new result }
    ensures cost { IfOk result (λ update. IfOk update (λ n.
        (n ≤ left) × HasRead (n / 4096 + 2) 0 paged.old paged.new)) }
    ensures update { OnHonest paged.old.device (λ image.
        Returns result (update_at left place image)) }
{
    if paged.len() < place + UPDATE_HEADER_LENGTH as u64 {
        return Ok(Err(UpdateFault::CutOff));
    }
    let mut header = [0; UPDATE_HEADER_LENGTH];
    paged.read_small(place, &mut header)?;
    let version = LittleEndian::read_u32(&header[0..4]);
    if version == u32::MAX {
        return Ok(Ok(0));
    }
    if version != 1 {
        return Ok(Err(UpdateFault::Version(version)));
    }
    check_body(paged, left, place, stated_len(&header))
}

/// Returns the length of the update at an address, or why the processor refuses it.
#[tactic(auto, unfolding(crate::specs::FirmwareTables::used_update_in))]
fn check_address<F: Flash>(
    paged: &mut Paged<F>,
    left: u64,
    address: u64,
) -> Result<Result<u64, UpdateFault>, FlashFault>
    requires { length paged.old.device.content < 2 ^ 32 }

    ensures after { HasAnswered (left / 4096 + 2) paged.old paged.new result }
    ensures cost { IfOk result (λ update. IfOk update (λ n.
        (n ≤ left) × HasRead (n / 4096 + 2) 0 paged.old paged.new)) }
    ensures update { OnHonest paged.old.device (λ image.
        Returns result (update_in left address image)) }
{
    if address == UNUSED {
        return Ok(Ok(0));
    }
    if address % 16 != 0 {
        return Ok(Err(UpdateFault::Misaligned));
    }
    match place_of(paged.len(), address) {
        Some(place) => check_update(paged, left, place),
        None => Ok(Err(UpdateFault::Unmapped)),
    }
}

/// Returns the entry at an offset.
fn read_entry<F: Flash>(paged: &mut Paged<F>, place: u64) -> Result<TableEntry, FlashFault>
    requires inside { place + 16 ≤ length paged.old.device.content }
    requires small { length paged.old.device.content < 2 ^ 32 }

    ensures after { HasAnswered 1 paged.old paged.new result }
    ensures entry { OnHonest paged.old.device (λ image. Returns result (entry_at place image)) }
{
    let mut bytes = [0; ENTRY_LENGTH];
    paged.read_small(place, &mut bytes)?;
    Ok(TableEntry::of(&bytes))
}

/// Returns the length of the update of an entry, or why the processor refuses it. Entries of other
/// types have no update.
fn check_entry<F: Flash>(
    paged: &mut Paged<F>,
    left: u64,
    place: u64,
) -> Result<Result<u64, UpdateFault>, FlashFault>
    requires inside { place + 16 ≤ length paged.old.device.content }
    requires small { length paged.old.device.content < 2 ^ 32 }

    ensures after { HasAnswered (left / 4096 + 3) paged.old paged.new result }
    ensures cost { IfOk result (λ update. IfOk update (λ n.
        (n ≤ left) × HasRead (n / 4096 + 3) 0 paged.old paged.new)) }
    ensures update { OnHonest paged.old.device (λ image.
        Returns result (entry_result left image (entry_at place image))) }
{
    let entry = read_entry(paged, place)?;
    if entry.kind == UPDATE {
        return check_address(paged, left, entry.address);
    }
    Ok(Ok(0))
}

/// Returns the first fault of the entries after the header of a table.
fn check_entries<F: Flash>(
    paged: &mut Paged<F>,
    place: u64,
    count: u32,
) -> Result<Option<EntryFault>, FlashFault>
    requires some { 1 ≤ count }
    requires inside { place + 16 * count ≤ length paged.old.device.content }
    requires small { length paged.old.device.content < 2 ^ 32 }

    ensures after { HasAnswered
        (3 * count + length paged.old.device.content / 4096) paged.old paged.new result }
    ensures fault { OnHonest paged.old.device (λ image.
        Returns result (entries_fault (count - 1) 1 (length image) place image)) }
{
    let mut left = paged.len();
    for number in 1..count {
        let at = place + 16 * u64::from(number);
        match check_entry(paged, left, at)? {
            Ok(len) => left -= len,
            Err(fault) => return Ok(Some(EntryFault { number, fault })),
        }
    }
    Ok(None)
}

fn has_table_at<F: Flash>(paged: &mut Paged<F>, place: u64) -> Result<bool, FlashFault>
    requires inside { place ≤ length paged.old.device.content }
    requires small { length paged.old.device.content < 2 ^ 32 }

    ensures after { HasAnswered 1 paged.old paged.new result }
    ensures table { OnHonest paged.old.device (λ image. Returns result (has_table_at place image)) }
    ensures room { IfOk result (λ has. IsTrue has → place + 16 ≤ length paged.old.device.content) }
{
    if paged.len() < place + ENTRY_LENGTH as u64 {
        return Ok(false);
    }
    let mut bytes = [0; ENTRY_LENGTH];
    paged.read_small(place, &mut bytes)?;
    Ok(has_magic_at(&bytes, 0, &SIGNATURE))
}

/// Returns the first fault of a table with this number of entries.
fn check_table<F: Flash>(
    paged: &mut Paged<F>,
    place: u64,
    count: u32,
) -> Result<Option<TableFault>, FlashFault>
    requires small { length paged.old.device.content < 2 ^ 32 }
    requires inside { place ≤ length paged.old.device.content }

    ensures after { HasAnswered (table_reads (length paged.old.device.content))
        paged.old paged.new result }
    ensures fault { OnHonest paged.old.device (λ image.
        Returns result (table_fault count place image)) }
{
    if count == 0 {
        return Ok(Some(TableFault::Empty));
    }
    if paged.len() < place + 16 * u64::from(count) {
        return Ok(Some(TableFault::CutOff));
    }
    let fault = check_entries(paged, place, count)?;
    Ok(fault.map(TableFault::Entry))
}

#[tactic(auto, unfolding(crate::specs::FirmwareTables::table_at))]
fn read_table<F: Flash>(paged: &mut Paged<F>, place: u64) -> Result<FirmwareTable, FlashFault>
    requires inside { place ≤ length paged.old.device.content }
    requires small { length paged.old.device.content < 2 ^ 32 }

    ensures after { HasAnswered (table_reads (length paged.old.device.content) + 2)
        paged.old paged.new result }
    ensures state { OnHonest paged.old.device (λ image. Returns result (table_at place image)) }
{
    if !has_table_at(paged, place)? {
        return Ok(FirmwareTable::Absent);
    }
    let header = read_entry(paged, place)?;
    match check_table(paged, place, header.count)? {
        Some(fault) => Ok(FirmwareTable::Broken(fault)),
        None => Ok(FirmwareTable::Sound(header.count)),
    }
}

/// Returns the state of the Firmware Interface Table of an image.
#[tactic(auto, unfolding(crate::specs::FirmwareTables::firmware_table_in))]
pub fn read_firmware_table<F: Flash>(paged: &mut Paged<F>) -> Result<FirmwareTable, FlashFault>
    requires { length paged.old.device.content < 2 ^ 32 }

    ensures after { HasAnswered (table_reads (length paged.old.device.content) + 3)
        paged.old paged.new result }
    ensures state { OnHonest paged.old.device (λ image.
        Returns result (firmware_table_in image)) }
{
    match read_table_place(paged)? {
        Some(place) => read_table(paged, place),
        None => Ok(FirmwareTable::Absent),
    }
}
