//! Required components.
ghost use Rattle.std.specs.Prelude.{◌≡◌};
ghost use Rattle.check_findings.specs.Needs as needs;
ghost use Rattle.check_findings.specs.RegionFindings.{first_content};

use crate::image::finding::ImageFinding;
use crate::region::{Content, RegionFinding};

/// The required position of a content in its area.
#[derive(Clone, Copy)]
pub enum NeededPlace {
    Any,
    /// It starts at this offset, in bytes.
    At(u64),
    /// It ends with the area.
    End,
}

impl NeededPlace {
    fn is_met(self, content: Content, size: u32) -> bool
        ensures { result ≡ needs.is_met self content size }
    {
        match self {
            NeededPlace::Any => true,
            NeededPlace::At(start) => content.start == start,
            NeededPlace::End => {
                content.start.checked_add(u64::from(content.len)) == Some(u64::from(size))
            }
        }
    }
}

/// A required component.
#[derive(Clone, Copy)]
pub struct Need<'a> {
    pub area: &'a [u8],
    pub name: &'a [u8],
    pub place: NeededPlace,
}

/// The reason for an unmet need.
#[derive(Clone, Copy)]
pub enum NeedFinding {
    /// No checked area has the name, or the area lacks the component.
    Missing,
    /// The offset of the first component's content.
    Elsewhere(u64),
}

fn first_content(findings: &[RegionFinding], wanted: &[u8]) -> Option<Content>
    ensures { result ≡ first_content wanted.now findings.now }
{
    for finding in findings {
        if let RegionFinding::Component { name, content, .. } = finding {
            if name.as_slice() == wanted {
                return Some(*content);
            }
        }
    }
    None
}

/// Returns the reason if the findings don't meet the need. The first component with its name, in
/// the first checked area with its area name, must have the required position.
pub fn unmet(findings: &[ImageFinding], need: Need<'_>) -> Option<NeedFinding>
    ensures { result ≡ needs.unmet findings.now need.entry }
{
    for finding in findings {
        if let ImageFinding::Region { area, findings, .. } = finding {
            if area.area.name_is(need.area) {
                return match first_content(findings.as_slice(), need.name) {
                    None => Some(NeedFinding::Missing),
                    Some(content) if need.place.is_met(content, area.area.size) => None,
                    Some(content) => Some(NeedFinding::Elsewhere(content.start)),
                };
            }
        }
    }
    Some(NeedFinding::Missing)
}
