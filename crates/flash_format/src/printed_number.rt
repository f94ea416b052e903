//! Printed hexadecimal numbers.

ghost use Rattle.std.specs.Prelude.{◌≡◌, ◌+◌, ◌<◌, ◌≤◌, false};
ghost use Rattle.std.specs.Fmt.{digit_glyph};
ghost use Rattle.arrayvec.specs.ArrayVec.{array_vec_len};
ghost use Rattle.flash_format.specs.Texts.{Pushes, hexadecimal};

use crate::buffer::push_text;
use arrayvec::ArrayVec;

/// Returns the hexadecimal digit of a value below 16, in lower case.
pub fn digit(value: u8) -> u8
    requires { value < 16 }
    ensures { result ≡ digit_glyph false value }
{
    if value < 10 {
        b'0' + value
    } else {
        b'a' + (value - 10)
    }
}

/// Appends the text of `hexadecimal`.
pub fn push_hexadecimal<const N: usize>(buffer: &mut ArrayVec<u8, N>, n: u64)
    requires { array_vec_len buffer.old + 18 ≤ N }
    ensures { Pushes buffer.old (hexadecimal n) 18 buffer.new }
{
    push_text(buffer, hexadecimal(n).as_slice());
}

/// Returns `0x` and lower-case digits without leading zeros.
#[tactic(auto, unfolding(crate::specs::Texts::hexadecimal))]
pub fn hexadecimal(n: u64) -> ArrayVec<u8, 18>
    ensures { result.items ≡ hexadecimal n }
{
    // From the last digit to the first.
    let mut digits = [b'0'; 16];
    let mut rest = n;
    let mut at = 15;
    digits[at] = digit((rest % 16) as u8);
    while rest >= 16 {
        rest /= 16;
        at -= 1;
        digits[at] = digit((rest % 16) as u8);
    }
    let mut text = ArrayVec::new();
    push_text(&mut text, b"0x");
    push_text(&mut text, &digits[at..]);
    text
}
