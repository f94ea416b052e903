//! Components with the name of an earlier component.
ghost use Rattle.std.specs.Prelude.{◌≡◌, [], ◌∷◌, OnOk};
ghost use Rattle.std.specs.List.{scan};
ghost use Rattle.check_findings.specs.RegionFindings.{marked};

use crate::lists::{Pushed, push_if};
use crate::region::finding::{Name, RegionFinding};
use std::alloc::{AllocError, Global};
use std::collections::HashSet;
use std::hash::RandomState;

/// Names, hashed with random keys, since an image's author chooses names.
type Names<'a> = HashSet<&'a Name, RandomState>;

/// Marks each component with the name of an earlier component.
pub fn mark_shadowed(alloc: Global, keys: RandomState, findings: &mut Vec<RegionFinding>) -> Pushed
    ensures { OnOk result (findings.new.items
        ≡ scan (λ earlier finding. finding ∷ earlier) marked [] findings.old.items) }
{
    let mut names: Names = HashSet::with_capacity_and_hasher(alloc, findings.len(), keys)?;
    let mut indices = Vec::new(alloc);
    let all = findings.as_slice();
    for i in 0..all.len() {
        if let RegionFinding::Component { name, .. } = &all[i] {
            let is_new = names.insert(name)?;
            push_if(&mut indices, !is_new, i)?;
        }
    }
    drop(names);
    for i in &indices {
        if *i < findings.len() {
            if let RegionFinding::Component { is_shadowed, .. } = &mut findings[*i] {
                *is_shadowed = true;
            }
        }
    }
    Ok(())
}
