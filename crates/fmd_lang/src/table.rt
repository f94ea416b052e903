ghost use Rattle.std.specs.Prelude.{◌≡◌, ◌<◌, length, IfOk};
ghost use Rattle.fmd_lang.specs.Faults.{FailsWith};
ghost use Rattle.fmd_lang.specs.Table.{count_fault, table_bytes};

use crate::fault::FmdFault;
use flash_format::{Area, FmapHead};
use std::alloc::Global;

/// The maximum number of areas: the header's count has 16 bits.
pub const AREA_LIMIT: usize = 65_535;

const _: () = prove!(AREA_LIMIT == u16::MAX as usize);

/// The compiled table of a descriptor.
#[derive(Drop)]
pub struct Table {
    /// The flash's base address: the root's offset, or 0.
    pub base: u64,
    /// The root's size, in bytes.
    pub size: u32,
    /// The root's name, padded with NULs or truncated.
    pub name: [u8; 32],
    /// The sections below the root, in preorder, with offsets from the root's start.
    pub areas: Vec<Area>,
}

/// Encodes the header of FMAP 1.1, and the areas. Refuses more than 65,535 areas.
pub fn encode(alloc: Global, table: &Table) -> Result<Vec<u8>, FmdFault>
    ensures bytes { IfOk result (λ bytes. bytes.items ≡ table_bytes table.now) }
    ensures refused { FailsWith (count_fault (length table.now.areas.items)) result }
{
    let Ok(nareas) = u16::try_from(table.areas.len()) else {
        return Err(FmdFault::TooManyAreas);
    };
    let head = FmapHead {
        major: 1,
        minor: 1,
        base: table.base,
        size: table.size,
        name: table.name,
        nareas,
    };
    let mut bytes = Vec::new(alloc);
    bytes.extend_from_slice(&head.write())?;
    for area in &table.areas {
        bytes.extend_from_slice(&area.write())?;
    }
    Ok(bytes)
}
