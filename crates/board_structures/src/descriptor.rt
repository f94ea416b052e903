//! Intel's flash descriptor.
ghost use Rattle.std.specs.Prelude.{◌≡◌, ◌+◌, ◌≤◌, length};
ghost use Rattle.flash_device.specs.Pages.{HasAnswered, OnHonest, ReadsAs, Returns};
ghost use Rattle.flash_device.specs.Regions.{LiesOn};
ghost use Rattle.flash_map.specs.Fmap.{areas_of, map_end};
ghost use Rattle.board_structures.specs.Descriptors.{area_name_of, descriptor_in, difference_in, difference_of, is_bad, number_of, range_of, signature_place, state_of_page};
ghost use Rattle.board_structures.specs.Filling.{page_reads};

use crate::filling::each_byte_is;
use crate::magic::has_magic_at;
use byteorder::{ByteOrder, LittleEndian};
use flash_device::{Flash, FlashFault, PIECE, Paged, Region};
use flash_map::{FoundMap, area_named};

const SIGNATURE: [u8; 4] = [0x5a, 0xa5, 0xf0, 0x0f];

/// The regions 0 to 8, of four bytes each.
const TABLE_LENGTH: usize = 36;

/// The unit of the regions, in bytes.
const UNIT: u32 = 4096;

/// A region of the flash.
#[derive(Clone, Copy, Debug, PartialEq, Eq)]
pub enum DescriptorRegion {
    Descriptor,
    Bios,
    Me,
    Gbe,
    PlatformData,
    Ec,
}

impl DescriptorRegion {
    /// All regions, in the order of the table.
    pub const ALL: [DescriptorRegion; 6] = [
        DescriptorRegion::Descriptor,
        DescriptorRegion::Bios,
        DescriptorRegion::Me,
        DescriptorRegion::Gbe,
        DescriptorRegion::PlatformData,
        DescriptorRegion::Ec,
    ];

    /// Returns the number in the table of regions.
    pub fn number(self) -> usize
        ensures value { result ≡ number_of self }
        ensures low { result ≤ 8 }
    {
        match self {
            DescriptorRegion::Descriptor => 0,
            DescriptorRegion::Bios => 1,
            DescriptorRegion::Me => 2,
            DescriptorRegion::Gbe => 3,
            DescriptorRegion::PlatformData => 4,
            DescriptorRegion::Ec => 8,
        }
    }

    /// Returns the name of the region's area in a flash map, as coreboot's ifdtool writes it.
    pub fn area_name(self) -> &'static [u8]
        ensures { result.now ≡ area_name_of self }
    {
        match self {
            DescriptorRegion::Descriptor => b"SI_DESC",
            DescriptorRegion::Bios => b"SI_BIOS",
            DescriptorRegion::Me => b"SI_ME",
            DescriptorRegion::Gbe => b"SI_GBE",
            DescriptorRegion::PlatformData => b"SI_PDR",
            DescriptorRegion::Ec => b"SI_EC",
        }
    }
}

/// A range of the flash in bytes.
#[derive(Clone, Copy, Debug, PartialEq, Eq)]
pub struct FlashRange {
    pub offset: u32,
    pub size: u32,
}

/// The descriptor's table of regions.
#[derive(Clone, Copy)]
pub struct RegionTable {
    pub entries: [u8; TABLE_LENGTH],
}

impl RegionTable {
    /// Returns the range of a region, or `None` for an unused region.
    #[tactic(auto, unfolding(crate::specs::Descriptors::range_of))]
    pub fn range(&self, region: DescriptorRegion) -> Option<FlashRange>
        ensures { result ≡ range_of region self.now }
    {
        let at = 4 * region.number();
        let base = u32::from(LittleEndian::read_u16(&self.entries[at..at + 2]) % 0x8000);
        let limit = u32::from(LittleEndian::read_u16(&self.entries[at + 2..at + 4]) % 0x8000);
        if limit < base {
            return None;
        }
        Some(FlashRange {
            offset: UNIT * base,
            size: UNIT * (limit - base + 1),
        })
    }
}

/// The state of the area SI_DESC.
#[derive(Clone, Copy)]
pub enum Descriptor {
    /// Each byte is 0xff: the image is built without a descriptor.
    Blank,
    /// The area has fewer than 4096 bytes.
    CutOff,
    /// Neither at 16 nor at 0 is the signature.
    NoSignature,
    /// The table of regions ends after the descriptor's 4096 bytes.
    TableOutside,
    /// The descriptor has this table.
    Described(RegionTable),
}

impl Descriptor {
    /// Returns whether the board can't boot with this descriptor.
    pub fn is_bad(&self) -> bool
        ensures { result ≡ is_bad self.now }
    {
        matches!(
            self,
            Descriptor::CutOff | Descriptor::NoSignature | Descriptor::TableOutside
        )
    }
}

/// An area of the flash map that isn't the range of its region in the descriptor.
#[derive(Clone, Copy, Debug, PartialEq, Eq)]
pub struct AreaDifference {
    pub region: DescriptorRegion,
    pub described: FlashRange,
    pub area: FlashRange,
}

fn signature_place(page: &[u8]) -> Option<usize>
    ensures { result ≡ signature_place page.now }
{
    if has_magic_at(page, 16, &SIGNATURE) {
        Some(16)
    } else if has_magic_at(page, 0, &SIGNATURE) {
        Some(0)
    } else {
        None
    }
}

#[tactic(auto, unfolding(crate::specs::Descriptors::state_of_page))]
fn state_of_page(page: &[u8]) -> Descriptor
    requires { length page.now ≤ 4096 }
    ensures { result ≡ state_of_page page.now }
{
    if page.len() < PIECE {
        return Descriptor::CutOff;
    }
    let Some(at) = signature_place(page) else {
        return Descriptor::NoSignature;
    };
    let table = 16 * usize::from(page[at + 6]);
    if PIECE < table + TABLE_LENGTH {
        return Descriptor::TableOutside;
    }
    let mut entries = [0; TABLE_LENGTH];
    entries.copy_from_slice(&page[table..table + TABLE_LENGTH]);
    Descriptor::Described(RegionTable { entries })
}

/// Returns the state of the descriptor in the area SI_DESC.
pub fn read_descriptor<F: Flash>(
    paged: &mut Paged<F>,
    area: Region,
) -> Result<Descriptor, FlashFault>
    requires { LiesOn area paged.old.device }

    ensures after { HasAnswered (page_reads area.size + 1) paged.old paged.new result }
    ensures state { ReadsAs paged.old area result descriptor_in }
{
    if each_byte_is(paged, area, 0xff)? {
        return Ok(Descriptor::Blank);
    }
    let n = area.size().min(PIECE as u64);
    let page = paged.piece(area.start(), n as usize)?;
    Ok(state_of_page(page))
}

fn difference_of(
    region: DescriptorRegion,
    described: FlashRange,
    area: FlashRange,
) -> Option<AreaDifference>
    ensures { result ≡ difference_of region described area }
{
    if described == area {
        return None;
    }
    Some(AreaDifference {
        region,
        described,
        area,
    })
}

/// Returns how the first area with the name of a region differs from the region, if it does.
pub fn area_difference<F: Flash>(
    paged: &mut Paged<F>,
    map: &FoundMap,
    table: &RegionTable,
    region: DescriptorRegion,
) -> Result<Option<AreaDifference>, FlashFault>
    requires { map_end map.now ≤ length paged.old.device.content }

    ensures after { HasAnswered map.now.head.nareas paged.old paged.new result }
    ensures difference { OnHonest paged.old.device (λ image.
        Returns result (difference_in region table.now (areas_of image map.now))) }
{
    let Some(described) = table.range(region) else {
        return Ok(None);
    };
    let Some(area) = area_named(paged, map, region.area_name())? else {
        return Ok(None);
    };
    let area = FlashRange {
        offset: area.offset,
        size: area.size,
    };
    Ok(difference_of(region, described, area))
}
