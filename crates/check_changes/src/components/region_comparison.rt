//! The changes between two regions.
ghost use Rattle.std.specs.Prelude.{◌≡◌, ◌++◌, ◌∷◌, [], ◌+◌, ◌/◌, All, map, option_to_list};
ghost use Rattle.std.specs.List.{flat_map};
ghost use Rattle.check_changes.specs.Areas.{if_changed};
ghost use Rattle.check_changes.specs.Components.{changes_between, component_change};
ghost use Rattle.check_changes.specs.Components.{component_changes, new_changes, removal_of};
ghost use Rattle.check_changes.specs.Components.{IsListedIn, spans};
ghost use Rattle.check_findings.specs.Lists.{Gains};
ghost use Rattle.check_changes.specs.Regions.{listed_regions};
ghost use Rattle.check_changes.specs.Images.{HasCompared, HasReadFor, LieOn, OnBothIn};
ghost use Rattle.check_changes.specs.declared.components.change.ComponentDifference.TheVariants.{MovedFrom};
ghost use Rattle.flash_device.specs.Pages.{Lists};

use crate::components::change::{ComponentChange, ComponentDifference};
use crate::components::comparison::difference;
use crate::components::first::{Listing, with_firsts};
use crate::components::listing::{Listed, components};
use crate::fault::ChangeFault;
use crate::images::{Both, Images, RegionPair};
use check_findings::push;
use flash_device::Flash;
use std::alloc::{AllocError, Global};
use std::hash::RandomState;

/// The components of both regions.
pub type Listings<'a> = Both<Listing<'a>>;

fn push_change(
    alloc: Global,
    changes: &mut Vec<ComponentChange>,
    listed: &Listed,
    what: ComponentDifference,
) -> Result<(), AllocError>
    ensures { Gains changes.old changes.new result (component_change listed.now what ∷ []) }
{
    let (at, name) = (listed.cell.at, listed.copied_name(alloc)?);
    push(changes, ComponentChange { at, name, what })
}

/// Pushes the difference and the move from offset `old`.
fn push_pair(
    alloc: Global,
    changes: &mut Vec<ComponentChange>,
    old: u64,
    listed: &Listed,
    what: Option<ComponentDifference>,
) -> Result<(), AllocError>
    ensures { Gains changes.old changes.new result (map (component_change listed.now)
        (option_to_list what ++ if_changed old listed.now.cell.at MovedFrom)) }
{
    if let Some(what) = what {
        push_change(alloc, changes, listed, what)?;
    }
    if old != listed.cell.at {
        push_change(alloc, changes, listed, ComponentDifference::MovedFrom(old))?;
    }
    Ok(())
}

/// Pushes the changes of a new component, if it is the first of its name.
fn push_changes_of<'a, F: Flash, G: Flash>(
    alloc: Global,
    changes: &mut Vec<ComponentChange>,
    images: &mut Images<F, G>,
    lists: &Listings<'a>,
    listed: &'a Listed,
) -> Result<(), ChangeFault>
    requires regions { LieOn images.old (listed_regions lists.now) }
    requires listed { IsListedIn lists.now.new.region.size listed.now }

    ensures calls { HasCompared (2 + listed.now.cell.span / 4096) images.old images.new result }
    ensures changes { OnBothIn images.old (listed_regions lists.now)
        (λ x y. Gains changes.old changes.new result
        (new_changes x y lists.now.old.all.now lists.now.new.all.now listed.now)) }
{
    if !lists.new.is_first(listed) {
        return Ok(());
    }
    let Some(old) = lists.old.namesake(listed) else {
        return Ok(push_change(alloc, changes, listed, ComponentDifference::Added)?);
    };
    let regions = RegionPair {
        old: lists.old.region,
        new: lists.new.region,
    };
    let what = difference(images, regions, old, listed)?;
    Ok(push_pair(alloc, changes, old.cell.at, listed, what)?)
}

fn push_changes<'a, F: Flash, G: Flash>(
    alloc: Global,
    changes: &mut Vec<ComponentChange>,
    images: &mut Images<F, G>,
    lists: &Listings<'a>,
) -> Result<(), ChangeFault>
    requires regions { LieOn images.old (listed_regions lists.now) }

    ensures calls { HasCompared (spans lists.now.new.all.now / 24) images.old images.new result }
    ensures changes { OnBothIn images.old (listed_regions lists.now) (λ x y.
        Gains changes.old changes.new result (flat_map (new_changes x y lists.now.old.all.now
        lists.now.new.all.now) lists.now.new.all.now)) }
{
    for listed in lists.new.all {
        push_changes_of(alloc, changes, images, lists, listed)?;
    }
    Ok(())
}

/// Pushes the old components, the first of each name, whose name the new region lacks.
fn push_removed<'a>(
    alloc: Global,
    changes: &mut Vec<ComponentChange>,
    lists: &Listings<'a>,
) -> Result<(), AllocError>
    ensures { Gains changes.old changes.new result
        (flat_map (removal_of lists.now.old.all.now lists.now.new.all.now) lists.now.old.all.now) }
{
    for listed in lists.old.all {
        if lists.new.namesake(listed).is_none() && lists.old.is_first(listed) {
            push_change(alloc, changes, listed, ComponentDifference::Removed)?;
        }
    }
    Ok(())
}

fn list_changes<'a, F: Flash, G: Flash>(
    alloc: Global,
    keys: RandomState,
    images: &mut Images<F, G>,
    regions: RegionPair,
    old: &'a [Listed],
    new: &'a [Listed],
) -> Result<Vec<ComponentChange>, ChangeFault>
    requires regions { LieOn images.old regions }
    requires old { All (IsListedIn regions.old.size) old.now }
    requires new { All (IsListedIn regions.new.size) new.now }

    ensures calls { HasCompared (spans new.now / 24) images.old images.new result }
    ensures changes { OnBothIn images.old regions
        (λ x y. Lists result (changes_between x y old.now new.now)) }
{
    let lists = Listings {
        old: with_firsts(alloc, keys, regions.old, old)?,
        new: with_firsts(alloc, keys, regions.new, new)?,
    };
    let mut changes = Vec::new(alloc);
    push_changes(alloc, &mut changes, images, &lists)?;
    push_removed(alloc, &mut changes, &lists)?;
    Ok(changes)
}

/// Returns the changes between the components of two regions. The hash keys don't change the
/// result. Returns `OldDevice` or `NewDevice` exactly if that device refused a read.
pub fn component_changes<F: Flash, G: Flash>(
    alloc: Global,
    keys: RandomState,
    images: &mut Images<F, G>,
    regions: RegionPair,
) -> Result<Vec<ComponentChange>, ChangeFault>
    requires { LieOn images.old regions }

    // On any devices.
    ensures calls { HasReadFor ((regions.old.size + regions.new.size) / 24 + 2)
        (regions.new.size / 12 + 2) images.old images.new result }

    // On honest devices.
    ensures changes { OnBothIn images.old regions (λ x y. Lists result (component_changes x y)) }
{
    let old = components(alloc, &mut images.old_image, regions.old).map_err(ChangeFault::of_old)?;
    let new = components(alloc, &mut images.new_image, regions.new).map_err(ChangeFault::of_new)?;
    list_changes(alloc, keys, images, regions, &old, &new)
}
