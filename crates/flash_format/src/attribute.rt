//! Attribute heads.

ghost use Rattle.std.specs.Prelude.{◌≡◌};
ghost use Rattle.flash_format.specs.Entry.{attr_head_of, is_unused, has_bad_len};

use byteorder::{BigEndian, ByteOrder};

/// An attribute's first eight bytes (`struct cbfs_file_attribute`), big-endian.
#[derive(Clone, Copy, Debug, PartialEq, Eq)]
pub struct AttrHead {
    /// The kind; 0 and 0xffffffff end the list.
    pub tag: u32,
    /// The length in bytes, including the head.
    pub len: u32,
}

impl AttrHead {
    /// The tag of a compression attribute (`CBFS_FILE_ATTR_TAG_COMPRESSION` of coreboot).
    pub const COMPRESSION: u32 = 0x4243_5a4c;

    /// The tag of a hash attribute (`CBFS_FILE_ATTR_TAG_HASH` of coreboot).
    pub const HASH: u32 = 0x6873_6148;

    /// Decodes a head.
    #[tactic(auto, unfolding(crate::specs::Entry::attr_head_of))]
    pub fn read(bytes: &[u8; 8]) -> AttrHead
        ensures { result ≡ attr_head_of bytes.now }
    {
        AttrHead {
            tag: BigEndian::read_u32(&bytes[..4]),
            len: BigEndian::read_u32(&bytes[4..8]),
        }
    }

    /// Returns true if the tag ends the list.
    pub fn is_unused(&self) -> bool
        ensures { result ≡ is_unused self.now.tag }
    {
        self.tag == 0 || self.tag == 0xffff_ffff
    }

    /// Returns true for a length below the tag's minimum or above `left`.
    pub fn has_bad_len(&self, left: u64) -> bool
        ensures { result ≡ has_bad_len self.now left }
    {
        let least = match self.tag {
            Self::COMPRESSION => 16,
            Self::HASH => 12,
            _ => 8,
        };
        self.len < least || left < u64::from(self.len)
    }
}
