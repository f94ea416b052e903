//! Heads of CBFS entries, and their checks.

ghost use Rattle.std.specs.Prelude.{◌≡◌, ◌+◌, ◌^◌, ◌<◌, Some};
ghost use Rattle.flash_format.specs.Head.{head_at, head_bytes, is_free, extent_of, round64};

use byteorder::{BigEndian, ByteOrder};

const MAGIC: [u8; 8] = *b"LARCHIVE";

const DELETED: u32 = 0;

/// The type of free space on an erased chip.
pub const NULL: u32 = 0xffff_ffff;

/// The unit of a name field's length.
pub const NAME_PADDING: usize = 4;

/// An empty entry's header length.
pub const HEADER_LENGTH: usize = Head::LENGTH + NAME_PADDING;

/// The least end of a name field with a NUL.
const LEAST_NAME_END: u32 = Head::LENGTH as u32 + 1;

/// The first failed check of an entry.
#[derive(Clone, Copy, Debug, PartialEq, Eq)]
pub enum DamageKind {
    /// The content begins inside the head, or leaves no room for a name.
    Offset = 1,
    /// The attributes begin inside the head or the name's first byte, or after the content's start.
    AttrOffset = 2,
    /// The content ends after the region's end.
    Extent = 3,
    /// The name field's first 256 bytes have no NUL.
    Name = 4,
    /// An attribute is too short for its tag, or ends after the content's start.
    AttrLength = 5,
}

/// An entry's content and cell.
#[derive(Clone, Copy, Debug, PartialEq, Eq)]
pub struct Extent {
    /// The content's offset in the entry.
    pub content: u64,
    /// The cell's length in bytes: a multiple of 64.
    pub span: u64,
}

/// An entry's numbers after the magic (`struct cbfs_file`), big-endian.
#[derive(Clone, Copy, Debug, PartialEq, Eq)]
pub struct Head {
    /// The content's length in bytes.
    pub len: u32,
    /// The type; 0 and 0xffffffff are free space.
    pub kind: u32,
    /// The attributes' offset in the entry; 0 without attributes.
    pub attributes_offset: u32,
    /// The content's offset in the entry.
    pub offset: u32,
}

impl Head {
    /// The length in bytes, including the magic.
    pub const LENGTH: usize = 24;

    /// Decodes a head, or returns `None` without the magic.
    #[tactic(auto, unfolding(crate::specs::Head::head_of, crate::specs::Head::head_at))]
    pub fn read(bytes: &[u8; Self::LENGTH]) -> Option<Head>
        ensures { result ≡ head_at bytes.now }
    {
        if !bytes.starts_with(&MAGIC) {
            return None;
        }
        Some(Head {
            len: BigEndian::read_u32(&bytes[8..12]),
            kind: BigEndian::read_u32(&bytes[12..16]),
            attributes_offset: BigEndian::read_u32(&bytes[16..20]),
            offset: BigEndian::read_u32(&bytes[20..24]),
        })
    }

    /// Encodes the head.
    #[tactic(auto, unfolding(crate::specs::Head::head_bytes))]
    pub fn write(&self) -> [u8; Self::LENGTH]
        ensures bytes { result ≡ head_bytes self.now }
        ensures read_back { head_at result ≡ Some self.now }
    {
        let Head {
            len,
            kind,
            attributes_offset,
            offset,
        } = *self;
        let mut out = [0; Self::LENGTH];
        out[..8].copy_from_slice(&MAGIC);
        BigEndian::write_u32(&mut out[8..12], len);
        BigEndian::write_u32(&mut out[12..16], kind);
        BigEndian::write_u32(&mut out[16..20], attributes_offset);
        BigEndian::write_u32(&mut out[20..24], offset);
        out
    }

    /// Returns true for free space.
    pub fn is_free(&self) -> bool
        ensures { result ≡ is_free self.now }
    {
        self.kind == DELETED || self.kind == NULL
    }

    /// Returns the extent, or the head's first failed check, `left` bytes before the region's end.
    #[tactic(auto, unfolding(crate::specs::Head::extent_of))]
    pub fn check(&self, left: u64) -> Result<Extent, DamageKind>
        ensures { result ≡ extent_of self.now left }
    {
        let free = self.is_free();
        let least = if free {
            Self::LENGTH as u32
        } else {
            LEAST_NAME_END
        };
        if self.offset < least {
            return Err(DamageKind::Offset);
        }
        let attributes_misplaced = self.attributes_offset != 0
            && (self.attributes_offset < LEAST_NAME_END || self.offset < self.attributes_offset);
        if !free && attributes_misplaced {
            return Err(DamageKind::AttrOffset);
        }
        let end = u64::from(self.offset) + u64::from(self.len);
        if left < end {
            return Err(DamageKind::Extent);
        }
        Ok(Extent {
            content: u64::from(self.offset),
            span: round64(end),
        })
    }
}

/// Returns the number, rounded up to a multiple of 64, the unit of a cell's length.
pub fn round64(n: u64) -> u64
    requires { n + 63 < 2 ^ 64 }
    ensures { result ≡ round64 n }
{
    (n + 63) / 64 * 64
}
