//! The errors of descriptors.

ghost use Rattle.std.specs.Prelude.{◌≡◌};
ghost use Rattle.fmd_lang.specs.declared.fault.FmdFault.TheVariants as faults;

use std::alloc::{AllocError, AllocFailed};
use thiserror::Error;

/// The expected token.
#[derive(Clone, Copy, Debug, PartialEq, Eq, Error)]
pub enum Expected {
    /// The root's name.
    #[error("section")]
    Section,
    /// CBFS or PRESERVE.
    #[error("annotation")]
    Annotation,
    /// The end of the annotations.
    #[error(")")]
    CloseParen,
    /// An offset, after `@`.
    #[error("number")]
    Number,
    /// A name, or the closing brace.
    #[error("section or }}")]
    SectionOrClose,
    /// The end of the text.
    #[error("end")]
    End,
}

/// The errors, by number. `at` is the token's offset or the length of the text, `section` a
/// preorder number, 0 for the root. `parse` returns 1 to 8, `lay_out` 1 and 9 to 16, `encode` 1 and
/// 16.
#[derive(Clone, Copy, Debug, PartialEq, Eq, Error)]
pub enum FmdFault {
    /// 1: allocation failure, possible before any other error.
    #[error("out of memory")]
    Memory,
    /// 2: text longer than 1,048,576 bytes. Precedes 3 to 8.
    #[error("text too long")]
    TextTooLong,
    /// 3: invalid byte outside a comment. Among 3 to 8, the lowest offset precedes; at the same
    /// offset, 6 comes last.
    #[error("bad byte at {at}")]
    BadByte { at: usize },
    /// 4: malformed number.
    #[error("bad number at {at}")]
    BadNumber { at: usize },
    /// 5: number of 2^32 or more.
    #[error("number too large at {at}")]
    NumberTooLarge { at: usize },
    /// 6: unexpected token or end.
    #[error("expected {what} at {at}")]
    Expected { at: usize, what: Expected },
    /// 7: opening brace inside 32 open braces.
    #[error("nested too deep")]
    TooDeep,
    /// 8: name of 32 bytes or more.
    #[error("name too long at {at}")]
    NameTooLong { at: usize },
    /// 9: omitted size of the root, or second omitted size in a run of siblings. Precedes 10 to 12
    /// in a row. Rows follow the root, in preorder of the parents.
    #[error("ambiguous size of section {section}")]
    Ambiguous { section: usize },
    /// 10: size of 0. Among 10 to 12, the first sibling precedes, and for a sibling the lowest
    /// number.
    #[error("empty section {section}")]
    EmptySection { section: usize },
    /// 11: section begins before the previous sibling ends.
    #[error("overlap at section {section}")]
    Overlap { section: usize },
    /// 12: section ends after the parent.
    #[error("section {section} outside its parent")]
    Outside { section: usize },
    /// 13: duplicate name, at the lowest number. Precedes the other errors of `lay_out`.
    #[error("duplicate name of section {section}")]
    Duplicate { section: usize },
    /// 14: no section FMAP below the root. Follows 13.
    #[error("no FMAP section")]
    NoFmap,
    /// 15: section FMAP smaller than the table. Comes last.
    #[error("FMAP section too small")]
    FmapTooSmall,
    /// 16: more than 65,535 sections below the root, after 14 and before 9; or areas in a table.
    #[error("too many areas")]
    TooManyAreas,
}

impl From<AllocError> for FmdFault {
    ghost from_gives = { λ _ fault. fault ≡ faults.Memory };

    fn from(_: AllocError) -> FmdFault {
        FmdFault::Memory
    }
}

impl<T: Drop> From<AllocFailed<T>> for FmdFault {
    ghost from_gives = { λ _ fault. fault ≡ faults.Memory };

    fn from(_: AllocFailed<T>) -> FmdFault {
        FmdFault::Memory
    }
}
