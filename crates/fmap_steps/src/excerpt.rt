//! The part of a source line that is shown on a terminal.
ghost use Rattle.std.specs.Prelude.{◌≡◌, ◌+◌, ◌<◌, ◌≤◌, length};
ghost use Rattle.fmap_steps.specs.Explanations.{IsExcerpt, visible};

use arrayvec::ArrayVec;
use fmd_lang::Position;
use std::fmt;

/// The maximum number of shown bytes.
pub const EXCERPT_LEN: usize = 100;
/// The maximum number of shown bytes before the marked one.
const LEAD: usize = 60;

/// A part of a source line, with a marked byte.
#[derive(Clone, Drop)]
pub struct Excerpt {
    /// Printable ASCII, with a blank for each other byte.
    pub bytes: ArrayVec<u8, EXCERPT_LEN>,
    /// The index of the marked byte; at most one behind the last byte.
    pub mark: usize,
}

/// Returns the part of the line around a position.
pub fn excerpt_at(position: &Position<'_>) -> Excerpt
    requires from_one { 0 < position.now.column }
    requires in_line { position.now.column ≤ length position.now.source.now + 1 }
    ensures { IsExcerpt position.now result }
{
    let start = (position.column - 1).saturating_sub(LEAD);
    let rest = &position.source[start..];
    let mut bytes = ArrayVec::new();
    for byte in &rest[..rest.len().min(EXCERPT_LEN)] {
        bytes.push(visible(*byte));
    }
    Excerpt {
        bytes,
        mark: position.column - 1 - start,
    }
}

/// Returns the byte if it is printable ASCII, and a blank otherwise.
fn visible(byte: u8) -> u8
    ensures { result ≡ visible byte }
{
    match byte {
        b' '..=b'~' => byte,
        _ => b' ',
    }
}

impl fmt::Display for Excerpt {
    /// Writes the bytes, and a line with `^` below the marked byte, both indented by four blanks.
    fn fmt<W: fmt::Write>(&self, f: &mut fmt::Formatter<W>) -> fmt::Result {
        f.write_str("    ")?;
        for byte in &self.bytes {
            f.write_char(char::from(*byte))?;
        }
        f.write_str("\n    ")?;
        for _ in 0..self.mark {
            f.write_char(' ')?;
        }
        f.write_str("^\n")
    }
}
