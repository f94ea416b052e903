//! Arguments and paths as messages quote them.

ghost use Rattle.std.specs.Prelude.{◌≡◌, ◌++◌, OnOk};
ghost use Rattle.std.specs.List.{list_any};
ghost use Rattle.flash_format.specs.Texts.{printed_name};
ghost use Rattle.quoted_text.specs.Shown.{is_hidden, is_within, shown, shown_char};

use flash_format::printed_byte;
use std::alloc::AllocError;

/// The first and the last of each range of hidden characters: those that control a terminal, have
/// no shape, or change the direction of others.
const HIDDEN: [(u32, u32); 19] = [
    (0x0, 0x1f),
    (0x7f, 0x9f),
    (0xad, 0xad),
    (0x34f, 0x34f),
    (0x61c, 0x61c),
    (0x115f, 0x1160),
    (0x17b4, 0x17b5),
    (0x180b, 0x180f),
    (0x200b, 0x200f),
    (0x2028, 0x202e),
    (0x2060, 0x206f),
    (0x3164, 0x3164),
    (0xfe00, 0xfe0f),
    (0xfeff, 0xfeff),
    (0xffa0, 0xffa0),
    (0xfff0, 0xfffb),
    (0x1bca0, 0x1bca3),
    (0x1d173, 0x1d17a),
    (0xe0000, 0xe0fff),
];

fn is_in(ranges: &[(u32, u32)], code: u32) -> bool
    ensures { result ≡ list_any (is_within code) ranges.now }
{
    ranges
        .iter()
        .any(|range| range.0 <= code && code <= range.1)
}

#[tactic(auto, unfolding(crate::specs::Shown::is_hidden))]
fn is_hidden(c: char) -> bool
    ensures { result ≡ is_hidden c }
{
    is_in(&HIDDEN, u32::from(c))
}

fn push_escaped(out: &mut Vec<u8>, bytes: &[u8]) -> Result<(), AllocError>
    ensures { OnOk result (out.new.items ≡ out.old.items ++ printed_name bytes.now) }
{
    for byte in bytes {
        out.extend_from_slice(printed_byte(*byte).as_slice())?;
    }
    Ok(())
}

fn push_char(out: &mut Vec<u8>, c: char) -> Result<(), AllocError>
    ensures { OnOk result (out.new.items ≡ out.old.items ++ shown_char c) }
{
    let mut buffer = [0; 4];
    let bytes = c.encode_utf8(&mut buffer).as_bytes();
    if is_hidden(c) {
        return push_escaped(out, bytes);
    }
    out.extend_from_slice(bytes)
}

/// Appends a text, with `\x` and two digits for each byte of a hidden character.
pub fn push_shown(out: &mut Vec<u8>, text: &str) -> Result<(), AllocError>
    ensures { OnOk result (out.new.items ≡ out.old.items ++ shown text.now) }
{
    for c in text.chars() {
        push_char(out, c)?;
    }
    Ok(())
}
