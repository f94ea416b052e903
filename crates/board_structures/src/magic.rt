//! The fixed bytes by which a structure is known.
ghost use Rattle.std.specs.Prelude.{◌≡◌};
ghost use Rattle.board_structures.specs.Magics.{has_magic_at};

/// Returns whether bytes have this magic at an offset.
pub fn has_magic_at(bytes: &[u8], at: usize, magic: &[u8]) -> bool
    ensures { result ≡ has_magic_at at magic.now bytes.now }
{
    bytes[at.min(bytes.len())..].starts_with(magic)
}
