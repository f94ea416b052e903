//! Printed names.

ghost use Rattle.std.specs.Prelude.{◌≡◌, ◌+◌, ◌*◌, ◌≤◌, length};
ghost use Rattle.arrayvec.specs.ArrayVec.{array_vec_len};
ghost use Rattle.flash_format.specs.Texts.{Pushes, printed_byte, printed_name};

use crate::buffer::push_text;
use crate::printed_number::digit;
use arrayvec::ArrayVec;

/// Returns the byte, or `\x` and two digits for the backslash and non-printing bytes.
#[inline]
#[tactic(auto, unfolding(crate::specs::Texts::printed_byte))]
pub fn printed_byte(byte: u8) -> ArrayVec<u8, 4>
    ensures { result.items ≡ printed_byte byte }
{
    let mut text = ArrayVec::new();
    if matches!(byte, 0x21..=0x7e) && byte != b'\\' {
        push_text(&mut text, &[byte]);
    } else {
        push_text(
            &mut text,
            &[b'\\', b'x', digit(byte / 16), digit(byte % 16)],
        );
    }
    text
}

/// Appends a name by `printed_byte`.
pub fn push_name<const N: usize>(buffer: &mut ArrayVec<u8, N>, name: &[u8])
    requires { array_vec_len buffer.old + 4 * length name.now ≤ N }
    ensures { Pushes buffer.old (printed_name name.now) (4 * length name.now) buffer.new }
{
    for byte in name {
        push_text(buffer, printed_byte(*byte).as_slice());
    }
}
