//! The partition table of Intel's Management Engine.
ghost use Rattle.std.specs.Prelude.{◌≡◌, ◌+◌};
ghost use Rattle.flash_device.specs.Pages.{HasAnswered, ReadsAs};
ghost use Rattle.flash_device.specs.Regions.{LiesOn};
ghost use Rattle.board_structures.specs.Filling.{page_reads};
ghost use Rattle.board_structures.specs.PartitionTables.{is_bad, partition_table_in, table_of_page};

use crate::filling::each_byte_is;
use crate::magic::has_magic_at;
use flash_device::{Flash, FlashFault, PIECE, Paged, Region};

const MARKER: [u8; 4] = *b"$FPT";

/// The state of the area SI_ME.
#[derive(Clone, Copy, Debug, PartialEq, Eq)]
pub enum PartitionTable {
    /// Each byte is 0xff: the image is built without the Management Engine.
    Blank,
    /// Neither at 16 nor at 0 is the marker.
    Missing,
    /// The marker is at this offset in the area, in bytes.
    Present { at: u32 },
}

impl PartitionTable {
    /// Returns whether the board can't boot with this area.
    pub fn is_bad(self) -> bool
        ensures { result ≡ is_bad self }
    {
        matches!(self, PartitionTable::Missing)
    }
}

fn table_of_page(page: &[u8]) -> PartitionTable
    ensures { result ≡ table_of_page page.now }
{
    if has_magic_at(page, 16, &MARKER) {
        PartitionTable::Present { at: 16 }
    } else if has_magic_at(page, 0, &MARKER) {
        PartitionTable::Present { at: 0 }
    } else {
        PartitionTable::Missing
    }
}

/// Returns the state of the partition table in the area SI_ME.
pub fn read_partition_table<F: Flash>(
    paged: &mut Paged<F>,
    area: Region,
) -> Result<PartitionTable, FlashFault>
    requires { LiesOn area paged.old.device }

    ensures after { HasAnswered (page_reads area.size + 1) paged.old paged.new result }
    ensures state { ReadsAs paged.old area result partition_table_in }
{
    if each_byte_is(paged, area, 0xff)? {
        return Ok(PartitionTable::Blank);
    }
    let n = area.size().min(PIECE as u64);
    let page = paged.piece(area.start(), n as usize)?;
    Ok(table_of_page(page))
}
