//! Text in a fixed buffer.

ghost use Rattle.std.specs.Prelude.{◌+◌, ◌≤◌, length};
ghost use Rattle.arrayvec.specs.ArrayVec.{array_vec_len};
ghost use Rattle.flash_format.specs.Texts.{Pushes};

use arrayvec::ArrayVec;

/// Appends a text.
#[inline]
pub fn push_text<const N: usize>(buffer: &mut ArrayVec<u8, N>, text: &[u8])
    requires { array_vec_len buffer.old + length text.now ≤ N }
    ensures { Pushes buffer.old text.now (length text.now) buffer.new }
{
    let _fits = buffer.try_extend_from_slice(text);
}
