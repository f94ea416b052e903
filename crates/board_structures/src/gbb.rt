//! vboot's Google Binary Block.
ghost use Rattle.std.specs.Prelude.{◌≡◌, ◌+◌, ◌≤◌, IfOk, IfSome, None, length};
ghost use Rattle.std.specs.List.{position};
ghost use Rattle.flash_device.specs.Pages.{HasAnswered, ReadsAs};
ghost use Rattle.flash_device.specs.Regions.{LiesOn};
ghost use Rattle.flash_format.specs.Entry.{is_nul};
ghost use Rattle.board_structures.specs.Filling.{page_reads};
ghost use Rattle.board_structures.specs.GoogleBinaryBlocks.{checked_header, content_fault, digest_fault, digest_of, gbb_in, hardware_id_fault, header_fault, header_in, header_of, is_bad, is_outside, key_fault_at, key_in_field, outside_fault, place_at, place_fault, text_fault};

use crate::filling::each_byte_is;
use crate::magic::has_magic_at;
use crate::packed_key::{KeyFault, PackedKey};
use byteorder::{ByteOrder, LittleEndian};
use flash_device::{Flash, FlashFault, PIECE, Paged, Region};
use sha2::{Digest, Sha256};

const SIGNATURE: [u8; 4] = *b"$GBB";

const HEADER_LENGTH: usize = 128;

/// A field of the block that the header places.
#[derive(Clone, Copy, Debug, PartialEq, Eq)]
pub enum GbbField {
    HardwareId,
    RootKey,
    Bitmap,
    RecoveryKey,
}

/// The fault of a key in a field.
#[derive(Clone, Copy, Debug, PartialEq, Eq)]
pub struct GbbKeyFault {
    pub field: GbbField,
    pub fault: KeyFault,
}

/// The first reason why vboot can't use the block.
#[derive(Clone, Copy, Debug, PartialEq, Eq)]
pub enum GbbFault {
    /// The area has fewer than 128 bytes.
    CutOff,
    /// The area doesn't begin with `$GBB`.
    NoSignature,
    /// The major version isn't 1.
    MajorVersion(u16),
    /// The length of the header isn't 128.
    HeaderLength(u32),
    /// The field begins in the header, or ends after the area.
    FieldOutside(GbbField),
    /// The hardware id has no NUL in its field, or in the first 4096 bytes of it.
    NoTerminator,
    /// The header has another digest than the hardware id.
    HardwareIdDigest,
    /// vboot refuses the key.
    Key(GbbKeyFault),
}

/// The state of the area GBB.
#[derive(Clone, Copy, Debug, PartialEq, Eq)]
pub enum Gbb {
    /// Each byte is 0xff: the image is built without vboot.
    Blank,
    /// vboot can't use the block.
    Broken(GbbFault),
    /// vboot can use the block, which has these flags. Flags weaken the verification.
    Sound(u32),
}

impl Gbb {
    /// Returns whether the firmware can't verify the slots with this block.
    pub fn is_bad(self) -> bool
        ensures { result ≡ is_bad self }
    {
        matches!(self, Gbb::Broken(_))
    }
}

/// The place of a field in the area.
#[derive(Clone, Copy)]
struct FieldPlace {
    offset: u32,
    size: u32,
}

impl FieldPlace {
    fn read(bytes: &[u8; HEADER_LENGTH], at: usize) -> FieldPlace
        requires { at ≤ 120 }
        ensures { result ≡ place_at at bytes.now }
    {
        FieldPlace {
            offset: LittleEndian::read_u32(&bytes[at..at + 4]),
            size: LittleEndian::read_u32(&bytes[at + 4..at + 8]),
        }
    }

    fn is_outside(&self, size: u64) -> bool
        ensures { result ≡ is_outside size self.now }
    {
        (self.offset as usize) < HEADER_LENGTH
            || size < u64::from(self.offset) + u64::from(self.size)
    }

    fn outside_fault(&self, size: u64, field: GbbField) -> Option<GbbFault>
        ensures { result ≡ outside_fault size field self.now }
    {
        if self.is_outside(size) {
            return Some(GbbFault::FieldOutside(field));
        }
        None
    }
}

/// The fields of `struct vb2_gbb_header` after its signature.
#[derive(Clone, Copy)]
struct GbbHeader {
    major: u16,
    minor: u16,
    len: u32,
    flags: u32,
    hardware_id: FieldPlace,
    root_key: FieldPlace,
    bitmap: FieldPlace,
    recovery_key: FieldPlace,
    digest: [u8; 32],
}

impl GbbHeader {
    #[tactic(auto, unfolding(crate::specs::GoogleBinaryBlocks::header_of))]
    fn read(bytes: &[u8; HEADER_LENGTH]) -> GbbHeader
        ensures { result ≡ header_of bytes.now }
    {
        let mut digest = [0; 32];
        digest.copy_from_slice(&bytes[48..80]);
        GbbHeader {
            major: LittleEndian::read_u16(&bytes[4..6]),
            minor: LittleEndian::read_u16(&bytes[6..8]),
            len: LittleEndian::read_u32(&bytes[8..12]),
            flags: LittleEndian::read_u32(&bytes[12..16]),
            hardware_id: FieldPlace::read(bytes, 16),
            root_key: FieldPlace::read(bytes, 24),
            bitmap: FieldPlace::read(bytes, 32),
            recovery_key: FieldPlace::read(bytes, 40),
            digest,
        }
    }

    fn place_fault(&self, size: u64) -> Option<GbbFault>
        ensures { result ≡ place_fault size self.now }
    {
        self.hardware_id
            .outside_fault(size, GbbField::HardwareId)
            .or(self.root_key.outside_fault(size, GbbField::RootKey))
            .or(self.bitmap.outside_fault(size, GbbField::Bitmap))
            .or(self.recovery_key.outside_fault(size, GbbField::RecoveryKey))
    }

    fn fault(&self, size: u64) -> Option<GbbFault>
        ensures { result ≡ header_fault size self.now }
    {
        if self.major != 1 {
            return Some(GbbFault::MajorVersion(self.major));
        }
        if self.len as usize != HEADER_LENGTH {
            return Some(GbbFault::HeaderLength(self.len));
        }
        self.place_fault(size)
    }

    fn digest_fault(&self, field: &[u8], end: usize) -> Option<GbbFault>
        requires { end ≤ length field.now }
        ensures { result ≡ digest_fault self.now field.now end }
    {
        if self.minor < 2 {
            return None;
        }
        if digest_of(&field[..end]) == self.digest {
            return None;
        }
        Some(GbbFault::HardwareIdDigest)
    }

    fn text_fault(&self, field: &[u8]) -> Option<GbbFault>
        ensures { result ≡ text_fault self.now field.now }
    {
        match first_nul(field) {
            Some(end) => self.digest_fault(field, end),
            None => Some(GbbFault::NoTerminator),
        }
    }
}

fn first_nul(field: &[u8]) -> Option<usize>
    ensures place { result ≡ position is_nul field.now }
    ensures inside { IfSome result (λ end. end ≤ length field.now) }
{
    field.iter().position(|b| *b == 0)
}

#[tactic(auto, unfolding(crate::specs::GoogleBinaryBlocks::digest_of))]
fn digest_of(text: &[u8]) -> [u8; 32]
    ensures { result ≡ digest_of text.now }
{
    let mut hasher = Sha256::new();
    hasher.update(text);
    hasher.finalize()
}

#[tactic(auto, unfolding(crate::specs::GoogleBinaryBlocks::checked_header))]
fn checked_header(bytes: &[u8; HEADER_LENGTH], size: u64) -> Result<GbbHeader, GbbFault>
    ensures { result ≡ checked_header size bytes.now }
{
    if !has_magic_at(bytes, 0, &SIGNATURE) {
        return Err(GbbFault::NoSignature);
    }
    let header = GbbHeader::read(bytes);
    match header.fault(size) {
        Some(fault) => Err(fault),
        None => Ok(header),
    }
}

/// Returns the header, or the first reason why vboot can't use it.
fn read_header<F: Flash>(
    paged: &mut Paged<F>,
    area: Region,
) -> Result<Result<GbbHeader, GbbFault>, FlashFault>
    requires { LiesOn area paged.old.device }

    ensures after { HasAnswered 1 paged.old paged.new result }
    ensures places { IfOk result (λ header. IfOk header (λ h. header_fault area.size h ≡ None)) }
    ensures header { ReadsAs paged.old area result header_in }
{
    let size = area.size();
    if size < HEADER_LENGTH as u64 {
        return Ok(Err(GbbFault::CutOff));
    }
    let mut bytes = [0; HEADER_LENGTH];
    paged.read_small(area.start(), &mut bytes)?;
    Ok(checked_header(&bytes, size))
}

/// Compares the hardware id with its digest.
fn hardware_id_fault<F: Flash>(
    paged: &mut Paged<F>,
    area: Region,
    header: &GbbHeader,
) -> Result<Option<GbbFault>, FlashFault>
    requires area { LiesOn area paged.old.device }
    requires place { header.now.hardware_id.offset + header.now.hardware_id.size ≤ area.size }

    ensures after { HasAnswered 1 paged.old paged.new result }
    ensures fault { ReadsAs paged.old area result (hardware_id_fault header.now) }
{
    let place = header.hardware_id;
    if place.size == 0 {
        return Ok(None);
    }
    let n = (place.size as usize).min(PIECE);
    let field = paged.piece(area.start() + u64::from(place.offset), n)?;
    Ok(header.text_fault(field))
}

/// Returns why vboot refuses the key at a place, if it does.
fn key_fault_at<F: Flash>(
    paged: &mut Paged<F>,
    area: Region,
    place: FieldPlace,
) -> Result<Option<KeyFault>, FlashFault>
    requires area { LiesOn area paged.old.device }
    requires place { place.offset + place.size ≤ area.size }

    ensures after { HasAnswered 1 paged.old paged.new result }
    ensures fault { ReadsAs paged.old area result (key_fault_at place) }
{
    if (place.size as usize) < PackedKey::LENGTH {
        return Ok(Some(KeyFault::CutOff));
    }
    let mut bytes = [0; PackedKey::LENGTH];
    paged.read_small(area.start() + u64::from(place.offset), &mut bytes)?;
    Ok(PackedKey::read(&bytes).fault(u64::from(place.size)))
}

fn key_in_field<F: Flash>(
    paged: &mut Paged<F>,
    area: Region,
    field: GbbField,
    place: FieldPlace,
) -> Result<Option<GbbFault>, FlashFault>
    requires area { LiesOn area paged.old.device }
    requires place { place.offset + place.size ≤ area.size }

    ensures after { HasAnswered 1 paged.old paged.new result }
    ensures fault { ReadsAs paged.old area result (key_in_field field place) }
{
    match key_fault_at(paged, area, place)? {
        Some(fault) => Ok(Some(GbbFault::Key(GbbKeyFault { field, fault }))),
        None => Ok(None),
    }
}

/// Returns the first fault of the hardware id and of the keys.
fn content_fault<F: Flash>(
    paged: &mut Paged<F>,
    area: Region,
    header: &GbbHeader,
) -> Result<Option<GbbFault>, FlashFault>
    requires area { LiesOn area paged.old.device }
    requires places { header_fault area.size header.now ≡ None }

    ensures after { HasAnswered 3 paged.old paged.new result }
    ensures fault { ReadsAs paged.old area result (content_fault header.now) }
{
    if let Some(fault) = hardware_id_fault(paged, area, header)? {
        return Ok(Some(fault));
    }
    if let Some(fault) = key_in_field(paged, area, GbbField::RootKey, header.root_key)? {
        return Ok(Some(fault));
    }
    key_in_field(paged, area, GbbField::RecoveryKey, header.recovery_key)
}

/// Returns the state of the Google Binary Block in the area GBB.
pub fn read_gbb<F: Flash>(paged: &mut Paged<F>, area: Region) -> Result<Gbb, FlashFault>
    requires { LiesOn area paged.old.device }

    ensures after { HasAnswered (page_reads area.size + 4) paged.old paged.new result }
    ensures state { ReadsAs paged.old area result gbb_in }
{
    if each_byte_is(paged, area, 0xff)? {
        return Ok(Gbb::Blank);
    }
    match read_header(paged, area)? {
        Ok(header) => match content_fault(paged, area, &header)? {
            Some(fault) => Ok(Gbb::Broken(fault)),
            None => Ok(Gbb::Sound(header.flags)),
        },
        Err(fault) => Ok(Gbb::Broken(fault)),
    }
}
