//! The changes between areas.
ghost use Rattle.std.specs.Prelude.{◌≡◌, ◌+◌, ◌-◌, ◌*◌, ◌/◌, length, map, IfOk};
ghost use Rattle.check_findings.specs.Lists.{Gains};
ghost use Rattle.check_changes.specs.Areas.{area_change, area_changes, area_changes_in, compared};
ghost use Rattle.check_changes.specs.Areas.{content_differences, entry_differences, left_after};
ghost use Rattle.check_changes.specs.Areas.{same_size_regions};
ghost use Rattle.check_changes.specs.Areas.{blocks_of, different_blocks};
ghost use Rattle.check_changes.specs.Images.{HasCompared, OnBoth, lengths, lengths_of};
ghost use Rattle.flash_device.specs.Pages.{Returns};

use crate::areas::blocks::{Differing, blocks_of, different_in};
use crate::areas::change::{AreaChange, AreaDifference};
use crate::areas::holders::BlockHolders;
use crate::areas::names::{NamedAreas, NamedBoth};
use crate::areas::pairs::{AreaPair, pairs, push_gone};
use crate::fault::ChangeFault;
use crate::images::{Both, Images, RegionPair, taken};
use check_findings::{NumberedArea, push, push_if};
use flash_device::{Flash, Region};
use std::alloc::{AllocError, Global};

/// The limit of compared bytes, in lengths of the new image: 65535 areas may each have its length.
const MOST_TIMES: u64 = 8;

fn push_entry_changes(changes: &mut Vec<AreaChange>, pair: AreaPair) -> Result<(), AllocError>
    ensures { Gains changes.old changes.new result
        (map (area_change pair.new) (entry_differences pair.old pair.new)) }
{
    let area = pair.new;
    let Some(old) = pair.old else {
        let what = AreaDifference::Added;
        return push(changes, AreaChange { area, what });
    };
    let (old, new) = (old.area, area.area);
    let what = AreaDifference::MovedFrom(old.offset);
    push_if(changes, old.offset != new.offset, AreaChange { area, what })?;
    let what = AreaDifference::ResizedFrom(old.size);
    push_if(changes, old.size != new.size, AreaChange { area, what })?;
    let what = AreaDifference::FlagsFrom(old.flags);
    push_if(changes, old.flags != new.flags, AreaChange { area, what })
}

fn push_content_changes<F: Flash, G: Flash>(
    changes: &mut Vec<AreaChange>,
    left: &mut u64,
    images: &mut Images<F, G>,
    holders: &BlockHolders<'_>,
    pair: AreaPair,
) -> Result<(), ChangeFault>
    requires { holders.now.lens ≡ lengths images.old }

    ensures calls { HasCompared (blocks_of (left.old - left.new)) images.old images.new result }
    ensures left { left.new ≡ left_after left.old (same_size_regions (lengths images.old) pair) }
    ensures changes { OnBoth images.old (λ x y. Gains changes.old changes.new result
        (map (area_change pair.new) (content_differences x y holders.now.pairs.now pair
        (compared left.old (same_size_regions (lengths_of x y) pair))))) }
{
    let area = pair.new;
    let Some(regions) = taken(left, pair.same_size_regions(images.lengths())) else {
        let what = AreaDifference::NotCompared;
        return Ok(push_if(changes, pair.is_same_size(), AreaChange { area, what })?);
    };
    let len = blocks_of(regions.old.size());
    let Differing { blocks, own } = different_in(images, &regions, holders, len)?;
    let what = AreaDifference::Differs { blocks, own };
    Ok(push_if(changes, blocks > 0, AreaChange { area, what })?)
}

fn push_changes<F: Flash, G: Flash>(
    changes: &mut Vec<AreaChange>,
    images: &mut Images<F, G>,
    holders: &BlockHolders<'_>,
) -> Result<(), ChangeFault>
    requires { holders.now.lens ≡ lengths images.old }

    ensures calls { HasCompared
        (8 * (lengths images.old).new / 4096 + length holders.now.pairs.now)
        images.old images.new result }
    ensures changes { OnBoth images.old (λ x y. Gains changes.old changes.new result
        (area_changes_in x y holders.now.pairs.now (8 * length y) holders.now.pairs.now)) }
{
    let mut left = MOST_TIMES * images.lengths().new;
    for pair in holders.pairs {
        push_entry_changes(changes, *pair)?;
        push_content_changes(changes, &mut left, images, holders, *pair)?;
    }
    Ok(())
}

fn different_blocks<F: Flash, G: Flash>(
    alloc: Global,
    images: &mut Images<F, G>,
) -> Result<u32, ChangeFault>
    ensures calls { HasCompared (blocks_of (lengths images.old).new) images.old images.new result }
    ensures blocks { OnBoth images.old (λ x y. Returns result (different_blocks x y)) }
{
    let lens = images.lengths();
    let shorter = blocks_of(lens.old.min(lens.new));
    let longer = blocks_of(lens.old.max(lens.new));
    let old = Region::within(0, lens.old, lens.old);
    let new = Region::within(0, lens.new, lens.new);
    let (Some(old), Some(new)) = (old, new) else {
        unreachable!()
    };
    let none = BlockHolders::of(alloc, &[], lens)?;
    let common = different_in(images, &RegionPair { old, new }, &none, shorter)?;
    Ok((longer - shorter) as u32 + common.blocks)
}

/// The areas of both images.
pub type Areas<'a> = Both<&'a [NumberedArea]>;

/// The changes between two images.
#[derive(Drop)]
pub struct ImageChanges {
    /// The number of different blocks of 4096 bytes; the rest of the longer image counts as
    /// different.
    pub blocks: u32,
    /// The changes of the first area of each name in map order, then the old areas without a new
    /// namesake.
    pub areas: Vec<AreaChange>,
}

/// Returns the changes from an old image to a new image. If the old image has no map, pass the new
/// areas as old areas: equal offsets are compared. Returns `OldDevice` or `NewDevice` exactly if
/// that device refused a read.
pub fn image_changes<'a, F: Flash, G: Flash>(
    alloc: Global,
    images: &mut Images<F, G>,
    areas: Areas<'a>,
) -> Result<ImageChanges, ChangeFault>
    // On any devices.
    ensures calls { HasCompared (9 * (lengths images.old).new / 4096
        + length areas.entry.new.now + 1) images.old images.new result }

    // On honest devices.
    ensures blocks { OnBoth images.old (λ x y.
        IfOk result (λ changes. changes.blocks ≡ different_blocks x y)) }
    ensures areas { OnBoth images.old (λ x y. IfOk result (λ changes.
        changes.areas.items ≡ area_changes x areas.entry.old.now y areas.entry.new.now)) }
{
    let blocks = different_blocks(alloc, images)?;
    let named = NamedBoth {
        old: NamedAreas::of(alloc, areas.old)?,
        new: NamedAreas::of(alloc, areas.new)?,
    };
    let pairs = pairs(alloc, &named)?;
    let mut areas = Vec::new(alloc);
    let holders = BlockHolders::of(alloc, &pairs, images.lengths())?;
    push_changes(&mut areas, images, &holders)?;
    push_gone(&mut areas, &named)?;
    Ok(ImageChanges { blocks, areas })
}
