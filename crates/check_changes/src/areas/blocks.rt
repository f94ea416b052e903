//! Counts of different blocks.
ghost use Rattle.std.specs.Prelude.{◌≡◌, ◌^◌, ◌≤◌, min, IfOk};
ghost use Rattle.check_changes.specs.Areas.{is_difference, is_own_difference};
ghost use Rattle.check_changes.specs.Areas.{blocks_of, count_below};
ghost use Rattle.check_changes.specs.Images.{HasCompared, LieOn, OnBoth, lengths};

use crate::areas::holders::BlockHolders;
use crate::fault::ChangeFault;
use crate::images::{BLOCK, Images, RegionPair};
use flash_device::Flash;

/// Returns the number of blocks of 4096 bytes in `len` bytes; the last block may be shorter.
pub fn blocks_of(len: u64) -> u64
    requires { len ≤ 2 ^ 32 }
    ensures { result ≡ blocks_of len }
{
    len.div_ceil(BLOCK)
}

/// Numbers of different blocks.
#[derive(Clone, Copy)]
pub struct Differing {
    pub blocks: u32,
    /// The blocks outside all pairs.
    pub own: u32,
}

/// Compares the first `len` blocks of two regions. Returns how many blocks differ, and how many of
/// them no smaller pair of areas holds. Returns `OldDevice` or `NewDevice` if that device refused a
/// read.
pub fn different_in<F: Flash, G: Flash>(
    images: &mut Images<F, G>,
    regions: &RegionPair,
    holders: &BlockHolders<'_>,
    len: u64,
) -> Result<Differing, ChangeFault>
    requires regions { LieOn images.old regions.now }
    requires lens { holders.now.lens ≡ lengths images.old }
    requires begin { len ≤ blocks_of (min regions.now.old.size regions.now.new.size) }

    ensures calls { HasCompared len images.old images.new result }
    ensures few { IfOk result (λ n. n.blocks ≤ len) }
    ensures blocks { OnBoth images.old (λ x y.
        IfOk result (λ n. n.blocks ≡ count_below (is_difference x y regions.now) len)) }
    ensures own { OnBoth images.old (λ x y.
        IfOk result (λ n. n.own
        ≡ count_below (is_own_difference x y holders.now.pairs.now regions.now) len)) }
{
    let mut blocks: u32 = 0;
    let mut own: u32 = 0;
    for number in 0..len {
        let is_different = images.is_different(*regions, number)?;
        let is_own = is_different && !holders.have_block(regions, number);
        blocks += u32::from(is_different);
        own += u32::from(is_own);
    }
    Ok(Differing { blocks, own })
}
