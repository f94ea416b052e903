//! Where a fault of a descriptor is, for messages.

ghost use Rattle.std.specs.Prelude.{◌≡◌, ◌+◌, ◌<◌, ◌≤◌, length, min, not};
ghost use Rattle.std.specs.List.{count_by, prefix_len};
ghost use Rattle.fmd_lang.specs.Positions.{BeginsLine, IsPosition, is_feed};
ghost use Rattle.fmd_lang.specs.Positions.{fault_place, section_place};

use crate::fault::FmdFault;
use crate::word::{Kind, next_word};
use memchr::memrchr;

/// A position in a text.
#[derive(Clone, Copy)]
pub struct Position<'t> {
    /// The number of the line, from 1.
    pub line: usize,
    /// The number of the byte in the line, from 1.
    pub column: usize,
    /// The bytes of the line, without its line feed.
    pub source: &'t [u8],
}

/// Returns the position of an offset, or of the end for an offset behind it.
pub fn position_at<'t>(text: &'t [u8], at: usize) -> Position<'t>
    ensures position { IsPosition text.now (min at (length text.now)) result }
    ensures column { (0 < result.column) × (result.column ≤ length result.source.now + 1) }
{
    let at = at.min(text.len());
    let start = line_start(&text[..at]);
    let rest = &text[start..];
    Position {
        line: 1 + count_feeds(&text[..at]),
        column: at - start + 1,
        source: &rest[..line_len(rest)],
    }
}

/// Returns the offset behind the last line feed, or 0.
fn line_start(before: &[u8]) -> usize
    ensures { BeginsLine before.now (length before.now) result }
{
    match memrchr(b'\n', before) {
        Some(feed) => feed + 1,
        None => 0,
    }
}

fn count_feeds(bytes: &[u8]) -> usize
    ensures value { result ≡ count_by is_feed bytes.now }
    ensures bound { result ≤ length bytes.now }
{
    bytes.iter().filter(|byte| **byte == b'\n').count()
}

/// Returns the number of bytes before the first line feed.
fn line_len(bytes: &[u8]) -> usize
    ensures { result ≡ prefix_len (λ b. not (is_feed b)) bytes.now }
{
    bytes.iter().take_while(|byte| **byte != b'\n').count()
}

/// Returns the offset of the name of a section, by its number in preorder, 0 for the root. `None`
/// if the text has fewer sections.
pub fn section_place(text: &[u8], section: usize) -> Option<usize>
    ensures { result ≡ section_place text.now section }
{
    let mut from = 0;
    let mut left = section;
    let mut inside = false;
    while from < text.len() {
        let word = next_word(text, from);
        match word.kind() {
            Kind::OpenParen => inside = true,
            Kind::CloseParen => inside = false,
            Kind::Name if !inside => {
                if left == 0 {
                    return Some(word.place);
                }
                left -= 1;
            }
            _ => {}
        }
        from = word.end();
    }
    None
}

impl FmdFault {
    /// Returns the offset in the text that the fault concerns: that of a token, or that of the name
    /// of a section.
    pub fn place(self, text: &[u8]) -> Option<usize>
        ensures { result ≡ fault_place text.now self }
    {
        match self {
            FmdFault::BadByte { at }
            | FmdFault::BadNumber { at }
            | FmdFault::NumberTooLarge { at }
            | FmdFault::Expected { at, .. }
            | FmdFault::NameTooLong { at } => Some(at),
            FmdFault::Ambiguous { section }
            | FmdFault::EmptySection { section }
            | FmdFault::Overlap { section }
            | FmdFault::Outside { section }
            | FmdFault::Duplicate { section } => section_place(text, section),
            FmdFault::Memory
            | FmdFault::TextTooLong
            | FmdFault::TooDeep
            | FmdFault::NoFmap
            | FmdFault::FmapTooSmall
            | FmdFault::TooManyAreas => None,
        }
    }
}
