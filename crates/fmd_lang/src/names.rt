ghost use Rattle.std.specs.Prelude.{◌≡◌, ◌+◌, ◌++◌, [], None, Some, codes, map};
ghost use Rattle.std.specs.Prelude.{Ok};
ghost use Rattle.std.specs.List.{list_any};
ghost use Rattle.std.specs.Str.{bytes_eq};
ghost use Rattle.fmd_lang.specs.Grammar.{names, view};
ghost use Rattle.fmd_lang.specs.Table.{names_fault, duplicate, field_of};
ghost use Rattle.fmd_lang.specs.Faults.{FailsWith, IsExact};

use crate::fault::FmdFault;
use crate::section::Section;
use crate::table::AREA_LIMIT;
use std::alloc::Global;
use std::collections::BTreeSet;

/// Refuses a duplicate name, a missing FMAP, or too many names.
pub fn check_names_of(alloc: Global, root: &Section) -> Result<(), FmdFault>
    ensures { FailsWith (names_fault (names (view root.now))) result }
{
    let mut all = Vec::new(alloc);
    push_names(root, &mut all)?;
    check_names(alloc, &all)
}

fn push_names<'s>(section: &'s Section, all: &mut Vec<&'s [u8]>) -> Result<(), FmdFault>
    ensures { IsExact (Ok (map (λ r. r.now) all.old.items ++ names (view section.now)))
        (λ _. map (λ r. r.now) all.new.items) result }
{
    all.push(section.name.as_slice())?;
    for part in &section.parts {
        push_names(part, all)?;
    }
    Ok(())
}

fn check_names(alloc: Global, names: &[&[u8]]) -> Result<(), FmdFault>
    ensures { FailsWith (names_fault (map (λ r. r.now) names.now)) result }
{
    if let Some(section) = first_duplicate(alloc, names)? {
        return Err(FmdFault::Duplicate { section });
    }
    let [_, parts @ ..] = names else {
        return Err(FmdFault::NoFmap);
    };
    if !has_fmap(parts) {
        return Err(FmdFault::NoFmap);
    }
    if parts.len() > AREA_LIMIT {
        return Err(FmdFault::TooManyAreas);
    }
    Ok(())
}

fn first_duplicate(alloc: Global, names: &[&[u8]]) -> Result<Option<usize>, FmdFault>
    ensures { IsExact (Ok (duplicate 0 [] (map (λ r. r.now) names.now))) (λ found. found) result }
{
    let mut seen = BTreeSet::new(alloc);
    for (number, name) in names.iter().enumerate() {
        if !seen.insert(*name)? {
            return Ok(Some(number));
        }
    }
    Ok(None)
}

fn has_fmap(names: &[&[u8]]) -> bool
    ensures { result ≡ list_any (bytes_eq (codes "FMAP")) (map (λ r. r.now) names.now) }
{
    for name in names {
        if b"FMAP".as_slice() == *name {
            return true;
        }
    }
    false
}

/// Returns the name, padded with NULs or truncated.
pub fn field_of(name: &[u8]) -> [u8; 32]
    ensures { result ≡ field_of name.now }
{
    let mut field = [0; 32];
    let len = name.len().min(32);
    field[..len].copy_from_slice(&name[..len]);
    field
}
