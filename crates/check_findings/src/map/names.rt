//! Areas with the name of an earlier area.

ghost use Rattle.std.specs.List.{flat_map};
ghost use Rattle.check_findings.specs.declared.areas.NumberedArea.{NumberedArea};
ghost use Rattle.check_findings.specs.Lists.{Gains};
ghost use Rattle.check_findings.specs.MapFindings.{name_findings};

use crate::areas::NumberedArea;
use crate::lists::{Pushed, push_if};
use crate::map::finding::{MapFinding, MapFindings};
use crate::names::AreaNames;
use std::alloc::{AllocError, Global};
use std::collections::BTreeMap;

/// Appends a finding for each area with the name of an earlier area. Returns an error if an
/// allocation failed.
pub fn push_name_findings(
    alloc: Global,
    findings: &mut MapFindings,
    areas: &[NumberedArea],
) -> Pushed
    ensures { Gains findings.old findings.new result
        (flat_map (name_findings areas.now) areas.now) }
{
    let names = AreaNames::of(alloc, areas)?;
    for a in areas {
        if let Some(first) = names.get(a.area.text()) {
            let is_later = first.number < a.number;
            push_if(findings, is_later, MapFinding::SameName { area: *a, first })?;
        }
    }
    Ok(())
}
