//! Expected names of areas.
ghost use Rattle.std.specs.Prelude.{◌≡◌, [], ◌++◌, ◌∷◌, List, ℕ, IfOk, OnOk};
ghost use Rattle.check_findings.specs.ImageFindings.{has_one_of};
ghost use lib.Chars.{codes};
ghost use Rattle.std.specs.List.{enumerate_from, flat_map};
ghost use Rattle.check_findings.specs.ImageFindings.{is_named_in, missing_name, names_in};
ghost use Rattle.check_findings.specs.Lists.{Gains};

use crate::areas::NumberedArea;
use crate::image::finding::ImageFinding;
use crate::lists::push_if;
use crate::names::AreaNames;
use std::alloc::{AllocError, Global};
use std::collections::BTreeMap;

/// Names of areas.
#[derive(Drop)]
pub struct NameSet<'a> {
    names: BTreeMap<&'a [u8], ()>,
}

impl<'a> NameSet<'a> {
    /// Returns no names.
    pub fn new(alloc: Global) -> NameSet<'a>
        ensures { is_named_in result ≡ has_one_of [] }
    {
        NameSet {
            names: BTreeMap::new(alloc),
        }
    }

    /// Returns the given names and `COREBOOT`.
    pub fn of(
        alloc: Global,
        names: &[&'a [u8]],
        expected: &[&'a [u8]],
    ) -> Result<NameSet<'a>, AllocError>
        ensures { IfOk result (λ set. is_named_in set
            ≡ has_one_of (names_in names.now ++ codes "COREBOOT" ∷ names_in expected.now)) }
    {
        let mut set = NameSet::new(alloc);
        set.add_all(names)?;
        set.add_all(&[b"COREBOOT"])?;
        set.add_all(expected)?;
        Ok(set)
    }

    /// Adds these names.
    pub fn add_all(&mut self, names: &[&'a [u8]]) -> Result<(), AllocError>
        ensures { (before : List (List ℕ)) → is_named_in self.old ≡ has_one_of before →
            OnOk result (is_named_in self.new ≡ has_one_of (before ++ names_in names.now)) }
    {
        for name in names {
            self.names.insert(*name, ())?;
        }
        Ok(())
    }

    /// Returns whether the area has one of the names.
    pub fn contains(&self, area: &NumberedArea) -> bool
        ensures { result ≡ is_named_in self.now area.now }
    {
        self.names.contains_key(area.area.text())
    }
}

/// Adds a finding for each name without an area.
pub fn push_missing<'a>(
    alloc: Global,
    findings: &mut Vec<ImageFinding>,
    names: &[&'a [u8]],
    areas: &'a [NumberedArea],
) -> Result<(), AllocError>
    ensures { Gains findings.old findings.new result
        (flat_map (missing_name areas.now) (enumerate_from 0 (names_in names.now))) }
{
    let areas = AreaNames::of(alloc, areas)?;
    for number in 0..names.len() {
        let is_missing = areas.get(names[number]).is_none();
        push_if(findings, is_missing, ImageFinding::NoArea(number))?;
    }
    Ok(())
}
