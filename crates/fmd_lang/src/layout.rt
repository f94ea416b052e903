//! The layout of a whole descriptor.

ghost use Rattle.std.specs.Prelude.{◌≡◌, ◌≤◌, ◌<◌, ◌+◌, ◌*◌, ◌^◌, length};
ghost use Rattle.std.specs.Prelude.{Some, None, Ok, IfOk};
ghost use Rattle.fmd_lang.specs.Faults.{FailsWith, IsExact};
ghost use Rattle.fmd_lang.specs.Grammar.{names, names_of, view, views};
ghost use Rattle.fmd_lang.specs.Layout as spec;
ghost use Rattle.fmd_lang.specs.Table.{area_limit, areas_below, IsTable, layout_fault};
ghost use Rattle.fmd_lang.specs.Table as spec_table;

use crate::fault::FmdFault;
use crate::names::{check_names_of, field_of};
use crate::row::{Sibling, lay_row};
use crate::section::Section;
use crate::table::Table;
use flash_format::{Area, FmapHead};
use std::alloc::Global;

/// Returns the table of a tree, or the first fault. The recursion has the tree's depth: at most 33
/// levels from `parse`.
#[tactic(auto, unfolding(crate::specs::Table::layout_fault))]
pub fn lay_out(alloc: Global, root: &Section) -> Result<Table, FmdFault>
    ensures table { IfOk result (λ table. IsTable (view root.now) table) }
    ensures refused { FailsWith (layout_fault (view root.now)) result }
{
    check_names_of(alloc, root)?;
    let size = match root.size {
        None => return Err(FmdFault::Ambiguous { section: 0 }),
        Some(0) => return Err(FmdFault::EmptySection { section: 0 }),
        Some(size) => size,
    };
    let mut areas = Vec::new(alloc);
    push_areas(alloc, root, 0, size, &mut areas)?;
    if (fmap_size(&areas) as usize) < FmapHead::LENGTH + Area::LENGTH * areas.len() {
        return Err(FmdFault::FmapTooSmall);
    }
    Ok(Table {
        base: u64::from(root.offset.unwrap_or(0)),
        size,
        name: field_of(&root.name),
        areas,
    })
}

/// Pushes the areas below section number `areas.len()`, which begins at `at`.
fn push_areas(
    alloc: Global,
    section: &Section,
    at: u32,
    size: u32,
    areas: &mut Vec<Area>,
) -> Result<(), FmdFault>
    requires count { length areas.old.items + length (names (view section.now)) ≤ area_limit + 1 }
    requires inside { at + size < 2 ^ 32 }
    ensures { IsExact (areas_below at size (view section.now) areas.old.items)
        (λ _. areas.new.items) result }
{
    let row = siblings(alloc, areas.len() + 1, &section.parts)?;
    let places = lay_row(alloc, size, &row)?;
    for (index, part) in section.parts.iter().enumerate() {
        let place = places[index];
        let start = at + place.start;
        let area = Area {
            offset: start,
            size: place.size,
            name: field_of(&part.name),
            flags: part.flags,
        };
        areas.push(area)?;
        push_areas(alloc, part, start, place.size, areas)?;
    }
    Ok(())
}

/// Returns siblings, numbered from `first` in preorder.
fn siblings(alloc: Global, first: usize, parts: &[Section]) -> Result<Vec<Sibling>, FmdFault>
    requires { first + length (names_of (views parts.now)) < 2 ^ 64 }
    ensures { IsExact (Ok (spec.siblings first (views parts.now))) (λ row. row.items) result }
{
    let mut row = Vec::new(alloc);
    let mut number = first;
    for part in parts {
        let sibling = Sibling {
            number,
            offset: part.offset,
            size: part.size,
        };
        row.push(sibling)?;
        number += count(part);
    }
    Ok(row)
}

fn count(section: &Section) -> usize
    requires { length (names (view section.now)) < 2 ^ 64 }
    ensures { result ≡ length (names (view section.now)) }
{
    let mut all = 1;
    for part in &section.parts {
        all += count(part);
    }
    all
}

/// Returns the size of the area FMAP, or 0.
fn fmap_size(areas: &[Area]) -> u32
    ensures { result ≡ spec_table.fmap_size areas.now }
{
    for area in areas {
        if area.name_is(b"FMAP") {
            return area.size;
        }
    }
    0
}
