//! The signatures of a slot of vboot.
ghost use Rattle.std.specs.Prelude.{◌≡◌, ◌+◌, ◌≤◌, IfOk, None, length};
ghost use Rattle.flash_device.specs.Pages.{HasAnswered, ReadsAs};
ghost use Rattle.flash_device.specs.Regions.{LiesOn};
ghost use Rattle.board_structures.specs.Filling.{page_reads};
ghost use Rattle.board_structures.specs.SignedSlots.{body_state, checked_keyblock, checksum_fault, checksum_len_fault, checksum_of, checksum_result, signed_fault, data_key_fault, is_bad, keyblock_fault, keyblock_in, keyblock_len_fault, keyblock_of, keyblock_version_fault, outside_fault, preamble_fault, preamble_len_fault, preamble_of, preamble_state, preamble_version_fault, signature_at, signed_slot_in, state_at};

use crate::filling::each_byte_is;
use crate::magic::has_magic_at;
use crate::packed_key::{KeyFault, PackedKey};
use byteorder::{ByteOrder, LittleEndian};
use flash_device::{Flash, FlashFault, PIECE, Paged, Region};
use sha2::{Digest, Sha512};

const MAGIC: [u8; 8] = *b"CHROMEOS";

/// The major version of a keyblock and of a preamble.
const MAJOR: u32 = 2;

/// The offsets of the descriptions of signatures.
const KEYBLOCK_SIGNATURE: u64 = 24;

const CHECKSUM: u64 = 48;

const PREAMBLE_SIGNATURE: u64 = 8;

const BODY_SIGNATURE: u64 = 80;

/// The length of a SHA-512 in bytes.
const CHECKSUM_LENGTH: usize = 64;

/// The signatures of a slot.
#[derive(Clone, Copy, Debug, PartialEq, Eq)]
pub enum SlotSignature {
    Keyblock,
    Checksum,
    Preamble,
    Body,
}

/// The first reason why the firmware refuses a slot.
#[derive(Clone, Copy, Debug, PartialEq, Eq)]
pub enum SlotFault {
    /// The area has fewer than 112 bytes.
    CutOff,
    /// The area doesn't begin with `CHROMEOS`.
    NoMagic,
    /// The major version of the keyblock isn't 2.
    KeyblockVersion(u32),
    /// The keyblock is shorter than its header, or ends after the area.
    KeyblockLength(u32),
    /// The signature ends after its keyblock or preamble.
    SignatureOutside(SlotSignature),
    /// The signed bytes end after their keyblock or preamble.
    SignedOutside(SlotSignature),
    /// The checksum of the keyblock hasn't 64 bytes.
    ChecksumLength(u32),
    /// The checksum covers more than 4096 bytes.
    TooLong(u32),
    /// vboot refuses the data key.
    DataKey(KeyFault),
    /// The keyblock has another checksum.
    Checksum,
    /// Fewer than 104 bytes follow the keyblock.
    PreambleCutOff,
    /// The major version of the preamble isn't 2.
    PreambleVersion(u32),
    /// The preamble is shorter than its header, or ends after the area.
    PreambleLength(u32),
    /// The signed bytes of the body end before the last component does.
    BodyShort(u32),
    /// The signed bytes of the body end after its area.
    BodyLong(u32),
}

/// The state of the area VBLOCK_A or VBLOCK_B.
#[derive(Clone, Copy, Debug, PartialEq, Eq)]
pub enum SignedSlot {
    /// Each byte is 0xff, or each is 0x00.
    Blank,
    /// The firmware refuses the slot.
    Broken(SlotFault),
    /// The preamble signs no length of the body.
    BodyNotChecked,
    /// So many bytes of the body are signed.
    Sound(u32),
}

impl SignedSlot {
    /// Returns whether the firmware refuses the slot.
    pub fn is_bad(self) -> bool
        ensures { result ≡ is_bad self }
    {
        matches!(self, SignedSlot::Broken(_))
    }
}

/// The area FW_MAIN_A or FW_MAIN_B.
#[derive(Clone, Copy)]
pub struct SlotBody {
    /// The end of the cell of the last component, in bytes from the start of the area.
    pub end: u64,
    /// The size of the area in bytes.
    pub size: u64,
}

/// The fields of `struct vb2_signature`.
#[derive(Clone, Copy)]
struct Signature {
    offset: u32,
    size: u32,
    signed: u32,
}

impl Signature {
    fn read(bytes: &[u8], at: usize) -> Signature
        requires { at + 20 ≤ length bytes.now }
        ensures { result ≡ signature_at at bytes.now }
    {
        Signature {
            offset: LittleEndian::read_u32(&bytes[at..at + 4]),
            size: LittleEndian::read_u32(&bytes[at + 8..at + 12]),
            signed: LittleEndian::read_u32(&bytes[at + 16..at + 20]),
        }
    }

    fn outside_fault(&self, room: u64, at: u64, name: SlotSignature) -> Option<SlotFault>
        requires { at ≤ 80 }
        ensures { result ≡ outside_fault room at name self.now }
    {
        if room < at + u64::from(self.offset) + u64::from(self.size) {
            return Some(SlotFault::SignatureOutside(name));
        }
        None
    }

    fn signed_fault(&self, room: u64, name: SlotSignature) -> Option<SlotFault>
        ensures { result ≡ signed_fault room name self.now }
    {
        if room < u64::from(self.signed) {
            return Some(SlotFault::SignedOutside(name));
        }
        None
    }
}

/// The header of a keyblock, after its magic.
#[derive(Clone, Copy)]
struct Keyblock {
    major: u32,
    len: u32,
    signature: Signature,
    checksum: Signature,
    data_key: PackedKey,
}

impl Keyblock {
    const LENGTH: usize = 112;

    #[tactic(auto, unfolding(crate::specs::SignedSlots::keyblock_of))]
    fn read(bytes: &[u8; Self::LENGTH]) -> Keyblock
        ensures { result ≡ keyblock_of bytes.now }
    {
        let mut key = [0; PackedKey::LENGTH];
        key.copy_from_slice(&bytes[80..112]);
        Keyblock {
            major: LittleEndian::read_u32(&bytes[8..12]),
            len: LittleEndian::read_u32(&bytes[16..20]),
            signature: Signature::read(bytes, 24),
            checksum: Signature::read(bytes, 48),
            data_key: PackedKey::read(&key),
        }
    }

    fn version_fault(&self) -> Option<SlotFault>
        ensures { result ≡ keyblock_version_fault self.now }
    {
        if self.major == MAJOR {
            return None;
        }
        Some(SlotFault::KeyblockVersion(self.major))
    }

    fn len_fault(&self, size: u64) -> Option<SlotFault>
        ensures { result ≡ keyblock_len_fault size self.now }
    {
        if (self.len as usize) < Self::LENGTH || size < u64::from(self.len) {
            return Some(SlotFault::KeyblockLength(self.len));
        }
        None
    }

    fn checksum_len_fault(&self) -> Option<SlotFault>
        ensures { result ≡ checksum_len_fault self.now }
    {
        if self.checksum.size as usize != CHECKSUM_LENGTH {
            return Some(SlotFault::ChecksumLength(self.checksum.size));
        }
        if PIECE < self.checksum.signed as usize {
            return Some(SlotFault::TooLong(self.checksum.signed));
        }
        None
    }

    fn data_key_fault(&self) -> Option<SlotFault>
        ensures { result ≡ data_key_fault self.now }
    {
        match self.data_key.fault(u64::from(self.len).saturating_sub(80)) {
            Some(fault) => Some(SlotFault::DataKey(fault)),
            None => None,
        }
    }

    fn fault(&self, size: u64) -> Option<SlotFault>
        ensures { result ≡ keyblock_fault size self.now }
    {
        let room = u64::from(self.len);
        self.version_fault()
            .or(self.len_fault(size))
            .or(
                self.signature
                    .outside_fault(room, KEYBLOCK_SIGNATURE, SlotSignature::Keyblock),
            )
            .or(self.signature.signed_fault(room, SlotSignature::Keyblock))
            .or(
                self.checksum
                    .outside_fault(room, CHECKSUM, SlotSignature::Checksum),
            )
            .or(self.checksum.signed_fault(room, SlotSignature::Checksum))
            .or(self.checksum_len_fault())
            .or(self.data_key_fault())
    }
}

/// The header of a preamble.
#[derive(Clone, Copy)]
struct Preamble {
    len: u32,
    signature: Signature,
    major: u32,
    body: Signature,
}

impl Preamble {
    const LENGTH: usize = 104;

    #[tactic(auto, unfolding(crate::specs::SignedSlots::preamble_of))]
    fn read(bytes: &[u8; Self::LENGTH]) -> Preamble
        ensures { result ≡ preamble_of bytes.now }
    {
        Preamble {
            len: LittleEndian::read_u32(&bytes[..4]),
            signature: Signature::read(bytes, 8),
            major: LittleEndian::read_u32(&bytes[32..36]),
            body: Signature::read(bytes, 80),
        }
    }

    fn version_fault(&self) -> Option<SlotFault>
        ensures { result ≡ preamble_version_fault self.now }
    {
        if self.major == MAJOR {
            return None;
        }
        Some(SlotFault::PreambleVersion(self.major))
    }

    fn len_fault(&self, room: u64) -> Option<SlotFault>
        ensures { result ≡ preamble_len_fault room self.now }
    {
        if (self.len as usize) < Self::LENGTH || room < u64::from(self.len) {
            return Some(SlotFault::PreambleLength(self.len));
        }
        None
    }

    fn fault(&self, room: u64) -> Option<SlotFault>
        ensures { result ≡ preamble_fault room self.now }
    {
        let len = u64::from(self.len);
        self.version_fault()
            .or(self.len_fault(room))
            .or(
                self.signature
                    .outside_fault(len, PREAMBLE_SIGNATURE, SlotSignature::Preamble),
            )
            .or(self.signature.signed_fault(len, SlotSignature::Preamble))
            .or(
                self.body
                    .outside_fault(len, BODY_SIGNATURE, SlotSignature::Body),
            )
    }

    fn body_state(&self, body: SlotBody) -> SignedSlot
        ensures { result ≡ body_state body self.now }
    {
        let signed = self.body.signed;
        if signed == 0 {
            return SignedSlot::BodyNotChecked;
        }
        if u64::from(signed) < body.end {
            return SignedSlot::Broken(SlotFault::BodyShort(signed));
        }
        if body.size < u64::from(signed) {
            return SignedSlot::Broken(SlotFault::BodyLong(signed));
        }
        SignedSlot::Sound(signed)
    }
}

#[tactic(auto, unfolding(crate::specs::SignedSlots::checked_keyblock))]
fn checked_keyblock(bytes: &[u8; Keyblock::LENGTH], size: u64) -> Result<Keyblock, SlotFault>
    ensures { result ≡ checked_keyblock size bytes.now }
{
    if !has_magic_at(bytes, 0, &MAGIC) {
        return Err(SlotFault::NoMagic);
    }
    let keyblock = Keyblock::read(bytes);
    match keyblock.fault(size) {
        Some(fault) => Err(fault),
        None => Ok(keyblock),
    }
}

#[tactic(auto, unfolding(crate::specs::SignedSlots::checksum_of))]
fn checksum_of(bytes: &[u8]) -> [u8; CHECKSUM_LENGTH]
    ensures { result ≡ checksum_of bytes.now }
{
    let mut hasher = Sha512::new();
    hasher.update(bytes);
    hasher.finalize()
}

/// Compares a stored checksum with that of bytes.
fn checksum_result(stored: &[u8; CHECKSUM_LENGTH], bytes: &[u8]) -> Option<SlotFault>
    ensures { result ≡ checksum_result stored.now bytes.now }
{
    if checksum_of(bytes) == *stored {
        return None;
    }
    Some(SlotFault::Checksum)
}

#[tactic(auto, unfolding(crate::specs::SignedSlots::preamble_state))]
fn preamble_state(bytes: &[u8; Preamble::LENGTH], room: u64, body: SlotBody) -> SignedSlot
    ensures { result ≡ preamble_state body room bytes.now }
{
    let preamble = Preamble::read(bytes);
    match preamble.fault(room) {
        Some(fault) => SignedSlot::Broken(fault),
        None => preamble.body_state(body),
    }
}

/// Returns the header of the keyblock, or the first reason why vboot refuses it.
fn read_keyblock<F: Flash>(
    paged: &mut Paged<F>,
    area: Region,
) -> Result<Result<Keyblock, SlotFault>, FlashFault>
    requires { LiesOn area paged.old.device }

    ensures after { HasAnswered 1 paged.old paged.new result }
    ensures fits { IfOk result (λ keyblock.
        IfOk keyblock (λ k. keyblock_fault area.size k ≡ None)) }
    ensures keyblock { ReadsAs paged.old area result keyblock_in }
{
    let size = area.size();
    if size < Keyblock::LENGTH as u64 {
        return Ok(Err(SlotFault::CutOff));
    }
    let mut bytes = [0; Keyblock::LENGTH];
    paged.read_small(area.start(), &mut bytes)?;
    Ok(checked_keyblock(&bytes, size))
}

/// Compares the checksum of the keyblock with that of its bytes.
fn checksum_fault<F: Flash>(
    paged: &mut Paged<F>,
    area: Region,
    checksum: &Signature,
) -> Result<Option<SlotFault>, FlashFault>
    requires area { LiesOn area paged.old.device }
    requires stored { 112 + checksum.now.offset ≤ area.size }
    requires signed { checksum.now.signed ≤ area.size }
    requires page { checksum.now.signed ≤ 4096 }

    ensures after { HasAnswered 2 paged.old paged.new result }
    ensures fault { ReadsAs paged.old area result (checksum_fault checksum.now) }
{
    let mut stored = [0; CHECKSUM_LENGTH];
    paged.read_small(
        area.start() + CHECKSUM + u64::from(checksum.offset),
        &mut stored,
    )?;
    let bytes = paged.piece(area.start(), checksum.signed as usize)?;
    Ok(checksum_result(&stored, bytes))
}

/// Returns the state by the preamble at an offset in the area.
fn state_at<F: Flash>(
    paged: &mut Paged<F>,
    area: Region,
    at: u32,
    body: SlotBody,
) -> Result<SignedSlot, FlashFault>
    requires area { LiesOn area paged.old.device }
    requires inside { at ≤ area.size }

    ensures after { HasAnswered 1 paged.old paged.new result }
    ensures state { ReadsAs paged.old area result (state_at body at) }
{
    let room = area.size() - u64::from(at);
    if room < Preamble::LENGTH as u64 {
        return Ok(SignedSlot::Broken(SlotFault::PreambleCutOff));
    }
    let mut bytes = [0; Preamble::LENGTH];
    paged.read_small(area.start() + u64::from(at), &mut bytes)?;
    Ok(preamble_state(&bytes, room, body))
}

/// Returns the state of the signatures in an area VBLOCK_A or VBLOCK_B, for the body in the area
/// FW_MAIN_A or FW_MAIN_B.
pub fn read_signed_slot<F: Flash>(
    paged: &mut Paged<F>,
    area: Region,
    body: SlotBody,
) -> Result<SignedSlot, FlashFault>
    requires { LiesOn area paged.old.device }

    ensures after { HasAnswered (page_reads area.size + page_reads area.size + 4)
        paged.old paged.new result }
    ensures state { ReadsAs paged.old area result (signed_slot_in body) }
{
    if each_byte_is(paged, area, 0xff)? {
        return Ok(SignedSlot::Blank);
    }
    if each_byte_is(paged, area, 0x00)? {
        return Ok(SignedSlot::Blank);
    }
    let keyblock = match read_keyblock(paged, area)? {
        Ok(keyblock) => keyblock,
        Err(fault) => return Ok(SignedSlot::Broken(fault)),
    };
    match checksum_fault(paged, area, &keyblock.checksum)? {
        Some(fault) => Ok(SignedSlot::Broken(fault)),
        None => state_at(paged, area, keyblock.len, body),
    }
}
