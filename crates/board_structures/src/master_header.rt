//! The master header of CBFS.
ghost use Rattle.std.specs.Prelude.{◌≡◌, ◌+◌, ◌^◌, ◌<◌, ◌≤◌};
ghost use Rattle.flash_device.specs.Pages.{HasAnswered, ReadsAs};
ghost use Rattle.flash_device.specs.Regions.{LiesOn};
ghost use Rattle.board_structures.specs.MasterHeaders.{alignment_fault, end_fault, fields_fault, fields_of, header_fault, is_bad, master_header_in, pointer_fault, pointer_in, start_fault, version_fault};

use crate::magic::has_magic_at;
use byteorder::{BigEndian, ByteOrder, LittleEndian};
use flash_device::{Flash, FlashFault, Paged, Region};

const MAGIC: [u8; 4] = *b"ORBC";

const VERSION: u32 = 0x31313132;

const ALIGNMENT: u32 = 64;

const LENGTH: usize = 32;

/// The first reason why a master header isn't that of its area.
#[derive(Clone, Copy, Debug, PartialEq, Eq)]
pub enum HeaderFault {
    /// The header ends after the area.
    CutOff,
    /// The content doesn't begin with `ORBC`.
    NoMagic,
    /// The version isn't `1112`.
    Version(u32),
    /// The area has another start.
    Start(u32),
    /// The area has another end.
    End(u32),
    /// The alignment isn't 64.
    Alignment(u32),
    /// The last four bytes of the area aren't the offset of the header from the area's end.
    Pointer(u32),
}

/// The state of a master header.
#[derive(Clone, Copy, Debug, PartialEq, Eq)]
pub enum MasterHeader {
    /// The header or the pointer to it isn't that of the area.
    Broken(HeaderFault),
    /// Header and pointer are those of the area.
    Sound,
}

impl MasterHeader {
    /// Returns whether the board can't boot. Coreboot's own commands leave a header that isn't
    /// updated if no bootblock ends the area.
    pub fn is_bad(self, ends_with_bootblock: bool) -> bool
        ensures { result ≡ is_bad ends_with_bootblock self }
    {
        match self {
            MasterHeader::Broken(_) => ends_with_bootblock,
            MasterHeader::Sound => false,
        }
    }
}

/// The checked fields of `struct cbfs_header`.
#[derive(Clone, Copy)]
struct HeaderFields {
    version: u32,
    end: u32,
    alignment: u32,
    start: u32,
}

impl HeaderFields {
    #[tactic(auto, unfolding(crate::specs::MasterHeaders::fields_of))]
    fn read(bytes: &[u8; LENGTH]) -> HeaderFields
        ensures { result ≡ fields_of bytes.now }
    {
        HeaderFields {
            version: BigEndian::read_u32(&bytes[4..8]),
            end: BigEndian::read_u32(&bytes[8..12]),
            alignment: BigEndian::read_u32(&bytes[16..20]),
            start: BigEndian::read_u32(&bytes[20..24]),
        }
    }

    fn version_fault(&self) -> Option<HeaderFault>
        ensures { result ≡ version_fault self.now }
    {
        if self.version == VERSION {
            return None;
        }
        Some(HeaderFault::Version(self.version))
    }

    fn start_fault(&self, start: u64) -> Option<HeaderFault>
        ensures { result ≡ start_fault start self.now }
    {
        if u64::from(self.start) == start {
            return None;
        }
        Some(HeaderFault::Start(self.start))
    }

    fn end_fault(&self, end: u64) -> Option<HeaderFault>
        ensures { result ≡ end_fault end self.now }
    {
        if u64::from(self.end) == end {
            return None;
        }
        Some(HeaderFault::End(self.end))
    }

    fn alignment_fault(&self) -> Option<HeaderFault>
        ensures { result ≡ alignment_fault self.now }
    {
        if self.alignment == ALIGNMENT {
            return None;
        }
        Some(HeaderFault::Alignment(self.alignment))
    }

    fn fault(&self, area: Region) -> Option<HeaderFault>
        requires { area.start + area.size < 2 ^ 64 }
        ensures { result ≡ fields_fault area.start area.size self.now }
    {
        self.version_fault()
            .or(self.start_fault(area.start()))
            .or(self.end_fault(area.start() + area.size()))
            .or(self.alignment_fault())
    }
}

#[tactic(auto, unfolding(crate::specs::MasterHeaders::header_fault))]
fn header_fault(bytes: &[u8; LENGTH], area: Region) -> Option<HeaderFault>
    requires { area.start + area.size < 2 ^ 64 }
    ensures { result ≡ header_fault area.start area.size bytes.now }
{
    if !has_magic_at(bytes, 0, &MAGIC) {
        return Some(HeaderFault::NoMagic);
    }
    HeaderFields::read(bytes).fault(area)
}

fn pointer_fault(at: u32, size: u64, pointer: u32) -> Option<HeaderFault>
    requires { size < 2 ^ 32 }
    ensures { result ≡ pointer_fault at size pointer }
{
    if u64::from(pointer) + size == u64::from(at) + (1 << 32) {
        return None;
    }
    Some(HeaderFault::Pointer(pointer))
}

/// Returns the last four bytes of an area as a number.
fn read_pointer<F: Flash>(paged: &mut Paged<F>, area: Region) -> Result<u32, FlashFault>
    requires area { LiesOn area paged.old.device }
    requires long { 4 ≤ area.size }

    ensures after { HasAnswered 1 paged.old paged.new result }
    ensures pointer { ReadsAs paged.old area result pointer_in }
{
    let mut bytes = [0; 4];
    paged.read_small(area.start() + (area.size() - 4), &mut bytes)?;
    Ok(LittleEndian::read_u32(&bytes))
}

/// Returns the state of the master header at an offset in the area COREBOOT.
pub fn read_master_header<F: Flash>(
    paged: &mut Paged<F>,
    area: Region,
    at: u32,
) -> Result<MasterHeader, FlashFault>
    requires { LiesOn area paged.old.device }

    ensures after { HasAnswered 2 paged.old paged.new result }
    ensures state { ReadsAs paged.old area result (master_header_in area.start at) }
{
    let size = area.size();
    if size < u64::from(at) + LENGTH as u64 {
        return Ok(MasterHeader::Broken(HeaderFault::CutOff));
    }
    let mut bytes = [0; LENGTH];
    paged.read_small(area.start() + u64::from(at), &mut bytes)?;
    if let Some(fault) = header_fault(&bytes, area) {
        return Ok(MasterHeader::Broken(fault));
    }
    let pointer = read_pointer(paged, area)?;
    match pointer_fault(at, size, pointer) {
        Some(fault) => Ok(MasterHeader::Broken(fault)),
        None => Ok(MasterHeader::Sound),
    }
}
