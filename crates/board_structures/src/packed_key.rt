//! Public keys of vboot.
ghost use Rattle.std.specs.Prelude.{◌≡◌};
ghost use Rattle.board_structures.specs.PackedKeys.{key_fault, key_len, packed_key_of, size_fault};

use byteorder::{ByteOrder, LittleEndian};

/// The lengths of keys, for every three numbers of algorithms.
const KEY_LENGTHS: [u32; 6] = [264, 520, 1032, 2056, 520, 776];

/// The fields of `struct vb2_packed_key`.
#[derive(Clone, Copy, Debug, PartialEq, Eq)]
pub struct PackedKey {
    /// The offset of the key in bytes, from the structure on.
    pub offset: u32,
    /// The length of the key in bytes.
    pub size: u32,
    /// The number of `enum vb2_crypto_algorithm`.
    pub algorithm: u32,
}

/// The length of a key, and the one that its algorithm has.
#[derive(Clone, Copy, Debug, PartialEq, Eq)]
pub struct KeyLength {
    pub size: u32,
    pub expected: u32,
}

/// The reason why vboot refuses a key.
#[derive(Clone, Copy, Debug, PartialEq, Eq)]
pub enum KeyFault {
    /// The structure ends after its field.
    CutOff,
    /// No algorithm has this number.
    Algorithm(u32),
    /// The algorithm has keys of another length.
    Length(KeyLength),
    /// The key ends after its field.
    Outside,
}

/// Returns the length of an algorithm's keys in bytes.
fn key_len(algorithm: u32) -> Option<u32>
    ensures { result ≡ key_len algorithm }
{
    KEY_LENGTHS.get(algorithm as usize / 3).copied()
}

impl PackedKey {
    /// The length of the structure in bytes.
    pub const LENGTH: usize = 32;

    /// Decodes a key.
    #[tactic(auto, unfolding(crate::specs::PackedKeys::packed_key_of))]
    pub fn read(bytes: &[u8; Self::LENGTH]) -> PackedKey
        ensures { result ≡ packed_key_of bytes.now }
    {
        PackedKey {
            offset: LittleEndian::read_u32(&bytes[..4]),
            size: LittleEndian::read_u32(&bytes[8..12]),
            algorithm: LittleEndian::read_u32(&bytes[16..20]),
        }
    }

    fn size_fault(&self, room: u64, len: u32) -> Option<KeyFault>
        ensures { result ≡ size_fault room self.now len }
    {
        if self.size != len {
            return Some(KeyFault::Length(KeyLength {
                size: self.size,
                expected: len,
            }));
        }
        if room < u64::from(self.offset) + u64::from(self.size) {
            return Some(KeyFault::Outside);
        }
        None
    }

    /// Returns why vboot refuses the key in a structure of `room` bytes, if it does.
    pub fn fault(&self, room: u64) -> Option<KeyFault>
        ensures { result ≡ key_fault room self.now }
    {
        match key_len(self.algorithm) {
            Some(len) => self.size_fault(room, len),
            None => Some(KeyFault::Algorithm(self.algorithm)),
        }
    }
}
