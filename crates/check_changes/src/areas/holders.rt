//! The pairs that contain a block of a larger pair, found without a look at every pair.
ghost use Rattle.std.specs.Prelude.{◌≡◌, ◌+◌, ◌*◌, ◌<◌, ◌≤◌, ◌^◌, ℕ, All, false, length, min};
ghost use Rattle.std.specs.Prelude.{IfOk, option_map};
ghost use Rattle.std.specs.List.{list_any};
ghost use Rattle.std.specs.List.Sorted.{IsNonDecreasingBy, IsPermutation};
ghost use Rattle.std.proofs.Props.{props};
ghost use Rattle.check_changes.specs.Areas.{has_block, is_held, same_size_regions};
ghost use Rattle.check_changes.specs.Holders.{AreReached, end_of, holders_have, place_of};
ghost use Rattle.check_changes.specs.Holders.{IsBlockIn, ranges_of, shift_of, start_of};
ghost use Rattle.check_changes.specs.Images.{LieWithin};
ghost use Rattle.check_changes.specs.declared.images.Both.{Both};
ghost use Rattle.flash_device.specs.Regions.{Range};

use crate::areas::pairs::AreaPair;
use crate::images::{BLOCK, Lengths, RegionPair};
use check_findings::push;
use std::alloc::{AllocError, Global};

/// The most pairs of a group. A search takes the logarithm of this number in each of the other
/// groups, so 65,535 pairs take some thousand steps.
const GROUP: usize = 512;

/// The number of different offsets and shifts.
const SPAN: u64 = 0x1_0000_0000;

/// Returns the distance from an old offset to a new offset; distances that differ by 2^32 are
/// equal.
fn shift_of(old: u64, new: u64) -> u64
    requires { (old < 2 ^ 32) × (new < 2 ^ 32) }
    ensures { result ≡ shift_of old new }
{
    (new + SPAN - old) % SPAN
}

/// Returns a number that orders offsets of the new image, by shift and then by offset.
fn place_of(old: u64, new: u64, at: u64) -> u64
    requires { (old < 2 ^ 32) × (new < 2 ^ 32) × (at < 2 ^ 32) }
    ensures { result ≡ place_of old new at }
{
    shift_of(old, new) * SPAN + at
}

/// Two areas of one size inside their images.
#[derive(Clone, Copy, Drop)]
struct Holder {
    old: u32,
    new: u32,
    size: u32,
}

impl Holder {
    /// Returns the areas of a pair, if they have one size and end inside images of these lengths.
    fn of(pair: AreaPair, lens: Lengths) -> Option<Holder>
        ensures { option_map ranges_of result ≡ same_size_regions lens pair }
    {
        let regions = pair.same_size_regions(lens);
        let (Some(old), Some(_)) = (pair.old, regions) else {
            return None;
        };
        Some(Holder {
            old: old.area.offset,
            new: pair.new.area.offset,
            size: pair.new.area.size,
        })
    }

    fn start(&self) -> u64
        ensures { result ≡ start_of self.now }
    {
        place_of(
            u64::from(self.old),
            u64::from(self.new),
            u64::from(self.new),
        )
    }

    fn end(&self) -> u64
        ensures { result ≡ end_of self.now }
    {
        let end = (u64::from(self.new) + u64::from(self.size)).min(SPAN - 1);
        place_of(u64::from(self.old), u64::from(self.new), end)
    }

    fn has_block(&self, outer: &RegionPair, number: u64) -> bool
        requires { IsBlockIn outer.now number }
        ensures { result ≡ has_block outer.now number (ranges_of self.now) }
    {
        let start = number * BLOCK;
        let end = (start + BLOCK).min(outer.new.size());
        let (old, new, size) = (
            u64::from(self.old),
            u64::from(self.new),
            u64::from(self.size),
        );
        size < outer.new.size()
            && old + outer.new.start() == outer.old.start() + new
            && new <= outer.new.start() + start
            && outer.new.start() + end <= new + size
    }
}

/// Returns whether one of these areas contains the block.
fn have_block(holders: &[Holder], outer: &RegionPair, number: u64) -> bool
    requires { IsBlockIn outer.now number }
    ensures { result ≡ holders_have outer.now number holders.now }
{
    for holder in holders {
        if holder.has_block(outer, number) {
            return true;
        }
    }
    false
}

fn copied(alloc: Global, some: &[Holder]) -> Result<Vec<Holder>, AllocError>
    ensures { IfOk result (λ holders. holders.items ≡ some.now) }
{
    let mut holders = Vec::new(alloc);
    for holder in some {
        push(&mut holders, *holder)?;
    }
    Ok(holders)
}

/// Returns for each pair the highest end of the pairs up to it.
fn reaches_of(alloc: Global, holders: &[Holder]) -> Result<Vec<u64>, AllocError>
    ensures { IfOk result (λ reaches. (length reaches.items ≡ length holders.now)
        × AreReached holders.now reaches.items) }
{
    let (mut reaches, mut reach) = (Vec::new(alloc), 0);
    for holder in holders {
        reach = holder.end().max(reach);
        push(&mut reaches, reach)?;
    }
    Ok(reaches)
}

fn smallest_of(holders: &[Holder]) -> u32
    ensures { All (λ h. result ≤ h.size) holders.now }
{
    let mut smallest = u32::MAX;
    for holder in holders {
        smallest = holder.size.min(smallest);
    }
    smallest
}

/// Some pairs, sorted by shift and start.
#[derive(Drop)]
struct Group {
    holders: Vec<Holder>,
    /// For each pair the highest end of the pairs up to it.
    reaches: Vec<u64>,
    smallest: u32,
    ghost sorted: { IsNonDecreasingBy start_of holders.items } by { Prim.hlevel props },
    ghost reached: { AreReached holders.items reaches.items } by { Prim.hlevel props },
    ghost all: { length reaches.items ≡ length holders.items } by { Prim.hlevel props },
    ghost sizes: { All (λ h. smallest ≤ h.size) holders.items } by { Prim.hlevel props },
}

impl Group {
    fn of(alloc: Global, some: &[Holder]) -> Result<Group, AllocError>
        ensures { IfOk result (λ group. IsPermutation some.now group.holders.items) }
    {
        let mut holders = copied(alloc, some)?;
        holders.sort_by_key(|holder| holder.start())?;
        let reaches = reaches_of(alloc, &holders)?;
        let smallest = smallest_of(&holders);
        Ok(Group {
            holders,
            reaches,
            smallest,
        })
    }

    /// Returns false only if no pair of the group contains the block.
    fn may_have(&self, outer: &RegionPair, number: u64) -> bool
        requires { IsBlockIn outer.now number }
        ensures { result ≡ false → holders_have outer.now number self.now.holders.items ≡ false }
    {
        if u64::from(self.smallest) >= outer.new.size() {
            return false;
        }
        let (old, new) = (outer.old.start(), outer.new.start());
        let start = number * BLOCK;
        let end = (start + BLOCK).min(outer.new.size());
        let start = place_of(old, new, new + start);
        let end = place_of(old, new, new + end);
        let count = self
            .holders
            .partition_point(|holder| holder.start() <= start);
        count > 0 && self.reaches[count - 1] >= end
    }

    fn has_block(&self, outer: &RegionPair, number: u64) -> bool
        requires { IsBlockIn outer.now number }
        ensures { result ≡ holders_have outer.now number self.now.holders.items }
    {
        if !self.may_have(outer, number) {
            return false;
        }
        have_block(&self.holders, outer, number)
    }
}

fn holders_of(alloc: Global, pairs: &[AreaPair], lens: Lengths) -> Result<Vec<Holder>, AllocError>
    ensures { IfOk result (λ all. (outer : Both Range) (number : ℕ) →
        holders_have outer number all.items ≡ is_held lens pairs.now outer number) }
{
    let mut holders = Vec::new(alloc);
    for pair in pairs {
        if let Some(holder) = Holder::of(*pair, lens) {
            push(&mut holders, holder)?;
        }
    }
    Ok(holders)
}

/// Returns the groups of these pairs in order.
fn groups_of(alloc: Global, all: &[Holder]) -> Result<Vec<Group>, AllocError>
    ensures { IfOk result (λ groups. (outer : Both Range) (number : ℕ) →
        list_any (λ group. holders_have outer number group.holders.items) groups.items
        ≡ holders_have outer number all.now) }
{
    let mut groups = Vec::new(alloc);
    let mut rest = all;
    while !rest.is_empty() {
        let (some, others) = rest.split_at(rest.len().min(GROUP));
        push(&mut groups, Group::of(alloc, some)?)?;
        rest = others;
    }
    Ok(groups)
}

/// Pairs of areas, and those of one size inside images of these lengths, in groups of neighbouring
/// sizes. A search for a block compares single pairs of a group only if their places allow it.
#[derive(Drop)]
pub struct BlockHolders<'a> {
    pub pairs: &'a [AreaPair],
    pub lens: Lengths,
    groups: Vec<Group>,
    ghost small: { (lens.old < 2 ^ 32) × (lens.new < 2 ^ 32) } by { Prim.hlevel props },
    ghost found: { (outer : Both Range) (number : ℕ) →
        list_any (λ group. holders_have outer number group.holders.items) groups.items
        ≡ is_held lens pairs.now outer number } by { Prim.hlevel props },
}

impl<'a> BlockHolders<'a> {
    /// Returns an index of the pairs of one size in images of these lengths, in bytes, or an error
    /// if an allocation failed.
    pub fn of(
        alloc: Global,
        pairs: &'a [AreaPair],
        lens: Lengths,
    ) -> Result<BlockHolders<'a>, AllocError>
        requires { (lens.old < 2 ^ 32) × (lens.new < 2 ^ 32) }
        ensures { IfOk result (λ holders. (holders.pairs.now ≡ pairs.now) × (holders.lens ≡ lens)) }
    {
        let mut all = holders_of(alloc, pairs, lens)?;
        all.sort_by_key(|holder| holder.size)?;
        let groups = groups_of(alloc, &all)?;
        Ok(BlockHolders {
            pairs,
            lens,
            groups,
        })
    }

    /// Returns whether a pair contains this block of `outer`.
    pub fn have_block(&self, outer: &RegionPair, number: u64) -> bool
        requires { LieWithin self.now.lens outer.now × (4096 * number ≤ outer.now.new.size) }
        ensures { result ≡ is_held self.now.lens self.now.pairs.now outer.now number }
    {
        for group in &self.groups {
            if group.has_block(outer, number) {
                return true;
            }
        }
        false
    }
}
