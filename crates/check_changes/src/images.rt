//! The two images.
ghost use Rattle.std.specs.Prelude.{◌≡◌, ◌+◌, ◌*◌, ◌^◌, ◌<◌, ◌≤◌, min, Some, IfSome};
ghost use Rattle.check_changes.specs.Areas.{compared, left_after};
ghost use Rattle.check_changes.specs.Areas.{differs};
ghost use Rattle.check_changes.specs.Images.{HasCompared, LieOn, OnBothIn, lengths};
ghost use Rattle.flash_device.specs.Pages.{Returns};

use crate::fault::ChangeFault;
use flash_device::{Flash, Paged, Region};

/// The length of a block in bytes, in which a report counts differences. One device call reads it.
pub const BLOCK: u64 = 4096;

/// A value of each image.
#[derive(Clone, Copy, Drop)]
pub struct Both<T> {
    pub old: T,
    pub new: T,
}

/// The lengths of two images, in bytes.
pub type Lengths = Both<u64>;

/// Two compared regions, one of each image.
pub type RegionPair = Both<Region>;

/// Returns the regions, if the old one has at most `left` bytes, and subtracts its size.
pub fn taken(left: &mut u64, regions: Option<RegionPair>) -> Option<RegionPair>
    ensures regions { result ≡ compared left.old regions }
    ensures left { left.new ≡ left_after left.old regions }
    ensures given { IfSome result (λ r. (regions ≡ Some r) × (left.new + r.old.size ≡ left.old)) }
{
    let regions = regions?;
    if regions.old.size() > *left {
        return None;
    }
    *left -= regions.old.size();
    Some(regions)
}

/// Two images, each on its device.
#[derive(Drop)]
pub struct Images<F: Flash, G: Flash> {
    pub old_image: Paged<F>,
    pub new_image: Paged<G>,
}

impl<F: Flash, G: Flash> Images<F, G> {
    /// Returns the lengths of the images. Sums of offsets don't overflow.
    pub fn lengths(&self) -> Lengths
        ensures lengths { result ≡ lengths self.now }
        ensures small { (result.old < 2 ^ 32) × (result.new < 2 ^ 32) }
    {
        Lengths {
            old: self.old_image.len(),
            new: self.new_image.len(),
        }
    }

    /// Returns whether the blocks with this number differ; they may begin at the ends.
    pub fn is_different(&mut self, regions: RegionPair, number: u64) -> Result<bool, ChangeFault>
        requires regions { LieOn self.old regions }
        requires begins { 4096 * number ≤ min regions.old.size regions.new.size }

        ensures calls { HasCompared 1 self.old self.new result }
        ensures different { OnBothIn self.old regions (λ x y. Returns result (differs x y number)) }
    {
        let start = number * BLOCK;
        let (old, new) = (regions.old, regions.new);
        let old_size = (old.size() - start).min(BLOCK) as usize;
        let new_size = (new.size() - start).min(BLOCK) as usize;
        let Ok(old_block) = self.old_image.piece(old.start() + start, old_size) else {
            return Err(ChangeFault::OldDevice);
        };
        let Ok(new_block) = self.new_image.piece(new.start() + start, new_size) else {
            return Err(ChangeFault::NewDevice);
        };
        Ok(old_block != new_block)
    }
}
