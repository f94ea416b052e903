//! The explanation of a refused descriptor, which follows the message on a terminal.
ghost use Rattle.std.specs.Prelude.{◌≡◌, ◌↔◌, None, IfSome, length, min};
ghost use Rattle.fmd_lang.specs.Positions.{fault_place};
ghost use Rattle.fmap_steps.specs.Explanations.{IsAt, IsSpot};
ghost use Rattle.fmap_steps.specs.declared.explanation.Explanation.{Explanation};

use crate::excerpt::{Excerpt, excerpt_at};
use fmd_lang::{Expected, FmdFault, position_at};
use std::fmt;

/// A place in the text of a descriptor.
#[derive(Clone, Drop)]
pub struct Spot {
    /// The number of the line, from 1.
    pub line: usize,
    /// The number of the byte in the line, from 1.
    pub column: usize,
    /// The part of the line around this byte.
    pub excerpt: Excerpt,
}

/// Where a descriptor is wrong, and the rule that it breaks.
#[derive(Clone, Drop)]
pub struct Explanation {
    pub fault: FmdFault,
    /// The token or the name of the section. `None` if the fault concerns the whole text.
    pub spot: Option<Spot>,
}

/// Explains the fault of a text. `None` exactly if memory was missing.
pub fn explain(text: &[u8], fault: FmdFault) -> Option<Explanation>
    ensures found { result ≡ None ↔ fault ≡ FmdFault.Memory }
    ensures fault { IfSome result (λ (e : Explanation). e.fault ≡ fault) }
    ensures spot { IfSome result (λ (e : Explanation).
        IsAt text.now (fault_place text.now fault) e.spot) }
{
    if fault == FmdFault::Memory {
        return None;
    }
    let spot = match fault.place(text) {
        Some(at) => Some(spot_at(text, at)),
        None => None,
    };
    Some(Explanation { fault, spot })
}

/// Returns the spot of an offset, or of the end for an offset behind it.
fn spot_at(text: &[u8], at: usize) -> Spot
    ensures { IsSpot text.now (min at (length text.now)) result }
{
    let position = position_at(text, at);
    Spot {
        line: position.line,
        column: position.column,
        excerpt: excerpt_at(&position),
    }
}

/// Returns the rule that a descriptor with the fault breaks.
fn rule(fault: FmdFault) -> &'static str {
    match fault {
        FmdFault::Memory => "out of memory",
        FmdFault::TextTooLong => "a descriptor has at most 1,048,576 bytes",
        FmdFault::BadByte { .. } => "only printable ASCII is allowed outside comments",
        FmdFault::BadNumber { .. } => {
            "a number is decimal, or hexadecimal after 0x, with at most one of the units K, M and G"
        }
        FmdFault::NumberTooLarge { .. } => "numbers are less than 4G",
        FmdFault::Expected { what, .. } => rule_of_token(what),
        FmdFault::TooDeep => "at most 32 braces are open at a time",
        FmdFault::NameTooLong { .. } => "a name has at most 31 bytes",
        FmdFault::Ambiguous { section: 0 } => "the first section needs a size",
        FmdFault::Ambiguous { .. } => "of adjacent sections without offsets, one may omit its size",
        FmdFault::EmptySection { .. } => "a section has at least one byte",
        FmdFault::Overlap { .. } => "a section begins at or after the end of the previous one",
        FmdFault::Outside { .. } => "a section ends at or before the end of its parent",
        FmdFault::Duplicate { .. } => "each section has another name",
        FmdFault::NoFmap => "a section FMAP contains the flash map",
        FmdFault::FmapTooSmall => "FMAP needs 56 bytes, and 42 for each section below the first",
        FmdFault::TooManyAreas => "at most 65,535 sections are below the first",
    }
}

/// Returns the rule for the next token.
fn rule_of_token(what: Expected) -> &'static str {
    match what {
        Expected::Section => "a descriptor begins with the name of a section",
        Expected::Annotation => "an annotation is CBFS or PRESERVE",
        Expected::CloseParen => "a parenthesis closes the annotations",
        Expected::Number => "a number follows @",
        Expected::SectionOrClose => "the name of a section or a closing brace follows",
        Expected::End => "nothing follows the first section",
    }
}

impl fmt::Display for Explanation {
    /// Writes the line, the column and the rule, then the source line with a mark.
    fn fmt<W: fmt::Write>(&self, f: &mut fmt::Formatter<W>) -> fmt::Result {
        let rule = rule(self.fault);
        let Some(spot) = &self.spot else {
            return writeln!(f, "{rule}");
        };
        writeln!(f, "line {}, column {}: {rule}", spot.line, spot.column)?;
        write!(f, "{}", spot.excerpt)
    }
}
