//! Flash maps (FMAP 1.1), little-endian.

ghost use Rattle.std.specs.Prelude.{◌≡◌, ◌≤◌, length, true};
ghost use Rattle.std.specs.Bool.{then_some};
ghost use Rattle.std.specs.List.{list_any, list_all, position};
ghost use Rattle.flash_format.specs.Entry.{is_nul};
ghost use Rattle.flash_format.specs.Flashmap.{fmap_head_of, fmap_head_bytes, has_signature, map_len, is_valid_head, area_of, area_bytes, area_end, is_area, text_of, is_printing};

use byteorder::{ByteOrder, LittleEndian};

/// The head (`struct fmap`) without its signature.
#[derive(Clone, Copy)]
pub struct FmapHead {
    /// 1 in every valid map.
    pub major: u8,
    /// Ignored.
    pub minor: u8,
    /// The flash's address in memory.
    pub base: u64,
    /// The flash size in bytes.
    pub size: u32,
    /// The flash's name, padded with NULs.
    pub name: [u8; 32],
    /// The number of areas.
    pub nareas: u16,
}

impl FmapHead {
    /// A map's first bytes.
    pub const SIGNATURE: [u8; 8] = *b"__FMAP__";

    /// The length in bytes, including the signature.
    pub const LENGTH: usize = 56;

    /// Decodes a head, or returns `None` without the signature.
    #[tactic(auto, unfolding(crate::specs::Flashmap::has_signature))]
    pub fn read(bytes: &[u8; Self::LENGTH]) -> Option<FmapHead>
        ensures { result ≡ then_some (has_signature bytes.now) (fmap_head_of bytes.now) }
    {
        if !bytes.starts_with(&Self::SIGNATURE) {
            return None;
        }
        let mut name = [0; 32];
        name.copy_from_slice(&bytes[22..54]);
        Some(FmapHead {
            major: bytes[8],
            minor: bytes[9],
            base: LittleEndian::read_u64(&bytes[10..18]),
            size: LittleEndian::read_u32(&bytes[18..22]),
            name,
            nareas: LittleEndian::read_u16(&bytes[54..56]),
        })
    }

    /// Encodes the head.
    pub fn write(&self) -> [u8; Self::LENGTH]
        ensures bytes { result ≡ fmap_head_bytes self.now }
        ensures signature { has_signature result ≡ true }
        ensures read_back { fmap_head_of result ≡ self.now }
    {
        let FmapHead {
            major,
            minor,
            base,
            size,
            name,
            nareas,
        } = *self;
        let mut out = [0; Self::LENGTH];
        out[..8].copy_from_slice(&Self::SIGNATURE);
        out[8] = major;
        out[9] = minor;
        LittleEndian::write_u64(&mut out[10..18], base);
        LittleEndian::write_u32(&mut out[18..22], size);
        out[22..54].copy_from_slice(&name);
        LittleEndian::write_u16(&mut out[54..56], nareas);
        out
    }

    /// Returns the name up to its first NUL, or all 32 bytes.
    pub fn text(&self) -> &[u8]
        ensures value { result.now ≡ text_of self.now.name }
        ensures short { length result.now ≤ 32 }
    {
        text_of(&self.name)
    }

    /// Returns the length in bytes with all areas.
    pub fn map_len(&self) -> u64
        ensures { result ≡ map_len self.now }
    {
        Self::LENGTH as u64 + Area::LENGTH as u64 * u64::from(self.nareas)
    }

    /// Returns true if the map is valid with `left` bytes up to the image's end.
    #[tactic(auto, unfolding(crate::specs::Flashmap::is_valid_head))]
    pub fn is_valid(&self, left: u64) -> bool
        ensures { result ≡ is_valid_head self.now left }
    {
        self.major == 1 && has_nul(&self.name) && is_printing(self.text()) && self.map_len() <= left
    }
}

/// An area (`struct fmap_area`).
#[derive(Clone, Copy)]
pub struct Area {
    /// The offset in the image.
    pub offset: u32,
    /// The size in bytes.
    pub size: u32,
    /// Padded with NULs.
    pub name: [u8; 32],
    /// 1 static, 2 compressed, 4 read-only, 8 preserve; not interpreted.
    pub flags: u16,
}

impl Area {
    /// The encoded length in bytes.
    pub const LENGTH: usize = 42;

    /// Decodes an area.
    #[tactic(auto, unfolding(crate::specs::Flashmap::area_of))]
    pub fn read(bytes: &[u8; Self::LENGTH]) -> Area
        ensures { result ≡ area_of bytes.now }
    {
        let mut name = [0; 32];
        name.copy_from_slice(&bytes[8..40]);
        Area {
            offset: LittleEndian::read_u32(&bytes[..4]),
            size: LittleEndian::read_u32(&bytes[4..8]),
            name,
            flags: LittleEndian::read_u16(&bytes[40..42]),
        }
    }

    /// Encodes the area.
    pub fn write(&self) -> [u8; Self::LENGTH]
        ensures bytes { result ≡ area_bytes self.now }
        ensures read_back { area_of result ≡ self.now }
    {
        let Area {
            offset,
            size,
            name,
            flags,
        } = *self;
        let mut out = [0; Self::LENGTH];
        LittleEndian::write_u32(&mut out[..4], offset);
        LittleEndian::write_u32(&mut out[4..8], size);
        out[8..40].copy_from_slice(&name);
        LittleEndian::write_u16(&mut out[40..42], flags);
        out
    }

    /// Returns the offset after the last byte. The area can end after the image.
    pub fn end(&self) -> u64
        ensures { result ≡ area_end self.now }
    {
        u64::from(self.offset) + u64::from(self.size)
    }

    /// Returns the name without padding.
    pub fn text(&self) -> &[u8]
        ensures value { result.now ≡ text_of self.now.name }
        ensures short { length result.now ≤ 32 }
    {
        text_of(self.name.as_slice())
    }

    /// Returns true if the area has the name.
    pub fn name_is(&self, name: &[u8]) -> bool
        ensures { result ≡ is_area name.now self.now }
    {
        name == self.text()
    }
}

fn first_nul(name: &[u8]) -> Option<usize>
    ensures { result ≡ position is_nul name.now }
{
    name.iter().position(|b| *b == 0)
}

fn text_of(name: &[u8]) -> &[u8]
    ensures { result.now ≡ text_of name.now }
{
    match first_nul(name) {
        Some(end) => &name[..end],
        None => name,
    }
}

/// Returns true if a byte of the name is NUL.
pub fn has_nul(name: &[u8]) -> bool
    ensures { result ≡ list_any is_nul name.now }
{
    name.iter().any(|b| *b == 0)
}

fn is_printing(text: &[u8]) -> bool
    ensures { result ≡ list_all is_printing text.now }
{
    text.iter().all(|b| matches!(*b, 0x21..=0x7e))
}
