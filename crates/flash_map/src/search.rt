//! Searches for a flash map and for a region.
ghost use Rattle.std.specs.Prelude.{◌≡◌, ◌+◌, ◌-◌, ◌*◌, ◌<◌, ◌≤◌, ◌⊎◌, ℕ, List, length, drop, take, true, IfOk, IfSome, IsErrOf};
ghost use Rattle.flash_format.specs.Flashmap.{fmap_head_len, area_len, map_len, area_of, has_signature};
ghost use Rattle.flash_device.specs.Device.{IsPiece, Reads, refusals};
ghost use Rattle.flash_device.specs.Pages.{OnHonest, HasAnswered, Returns, HasReadBy, IfFound};
ghost use Rattle.flash_map.specs.Fmap.{areas_of, first_area, map_end, map_head, map_reads, found_from, found_in, search_reads};
ghost use Rattle.flash_device.specs.Regions.{LiesOn};
ghost use Rattle.flash_map.specs.Regions.{by_device, region_by_area, region_of};
ghost use Rattle.memchr.specs.Find.{IsFirst};

use flash_device::{Flash, FlashFault, PIECE, Paged, Region, Source, SourceFault};
use flash_format::{Area, FmapHead};
use memchr::memmem;

const HEAD_LENGTH: u64 = FmapHead::LENGTH as u64;

const AREA_LENGTH: u64 = Area::LENGTH as u64;

const SIGNATURE_LENGTH: u64 = FmapHead::SIGNATURE.len() as u64;

/// The minimum distance of signatures, which begin and end with the same two bytes.
const SIGNATURE_STEP: u64 = 6;

/// A valid flash map.
#[derive(Clone, Copy, Drop)]
pub struct FoundMap {
    /// The offset in the image.
    pub at: u64,
    pub head: FmapHead,
}

/// The reason for a missing region, with cbfstool's number.
#[derive(Clone, Copy, Debug, PartialEq, Eq, Drop)]
pub enum StoreFault {
    /// A failed read.
    Device = 1,
    /// No valid flash map.
    NoFmap = 4,
    /// No area with the name.
    NoRegion = 5,
    /// An area outside the image.
    RegionOutside = 6,
}

impl From<FlashFault> for StoreFault {
    ghost use Rattle.flash_map.specs.declared.search.StoreFault.TheVariants.{Device};

    ghost from_gives = { λ _ fault. fault ≡ Device };

    fn from(_: FlashFault) -> StoreFault {
        StoreFault::Device
    }
}

/// Returns the lowest valid flash map.
pub fn find_fmap<F: Flash>(paged: &mut Paged<F>) -> Result<Option<FoundMap>, FlashFault>
    ensures calls { HasAnswered (search_reads paged.old.device) paged.old paged.new result }
    ensures fits { IfFound result (λ map. map_end map ≤ length paged.old.device.content) }
    ensures found { OnHonest paged.old.device (λ image. Returns result (found_in image)) }
{
    find_fmap_from(paged, 0)
}

/// Returns the lowest valid flash map from an offset on.
pub fn find_fmap_from<F: Flash>(
    paged: &mut Paged<F>,
    from: u64,
) -> Result<Option<FoundMap>, FlashFault>
    requires { from ≤ length paged.old.device.content }

    ensures calls { HasAnswered (search_reads paged.old.device) paged.old paged.new result }
    ensures fits { IfFound result (λ map. map_end map ≤ length paged.old.device.content) }
    ensures found { OnHonest paged.old.device (λ image. Returns result (found_from from image)) }
{
    let len = paged.len();
    let mut place = from;
    while place + HEAD_LENGTH <= len {
        let size = (len - place).min(PIECE as u64);
        match signature_in(paged, place, size as usize)? {
            Some(at) => {
                if let Some(head) = map_head_at(paged, at, len)? {
                    return Ok(Some(FoundMap { at, head }));
                }
                place = at + SIGNATURE_STEP;
            }
            // A signature across the next piece begins in the last seven bytes.
            None => place += size - (SIGNATURE_LENGTH - 1),
        }
    }
    Ok(None)
}

fn signature_in<F: Flash>(
    paged: &mut Paged<F>,
    at: u64,
    n: usize,
) -> Result<Option<u64>, FlashFault>
    requires { IsPiece at n paged.old.device }

    ensures calls { HasAnswered 1 paged.old paged.new result }
    ensures within { IfFound result (λ place. (at ≤ place) × (place + 8 ≤ at + n)) }
    ensures first { OnHonest paged.old.device (λ image. IfOk result
        (IsFirst (λ q. has_signature (drop q image) ≡ true) at (at + n - 7))) }
{
    let _len = paged.len();
    let bytes = paged.piece(at, n)?;
    match memmem::find(bytes, &FmapHead::SIGNATURE) {
        Some(place) => Ok(Some(at + place as u64)),
        None => Ok(None),
    }
}

fn map_head_at<F: Flash>(
    paged: &mut Paged<F>,
    place: u64,
    len: u64,
) -> Result<Option<FmapHead>, FlashFault>
    requires { len ≡ length paged.old.device.content }

    ensures calls { HasAnswered 1 paged.old paged.new result }
    ensures head { OnHonest paged.old.device
        (λ image. Returns result (map_head (drop place image))) }
    ensures fits { IfFound result (λ head. place + map_len head ≤ len) }
{
    if len < HEAD_LENGTH || place > len - HEAD_LENGTH {
        return Ok(None);
    }
    let mut bytes = [0; FmapHead::LENGTH];
    paged.read_small(place, &mut bytes)?;
    Ok(head_in(&bytes, len - place))
}

fn head_in(bytes: &[u8; FmapHead::LENGTH], left: u64) -> Option<FmapHead>
    requires { fmap_head_len ≤ left }
    ensures head { (x : List ℕ) → take fmap_head_len x ≡ bytes.now → length x ≡ left
        → result ≡ map_head x }
    ensures fits { IfSome result (λ head. map_len head ≤ left) }
{
    let head = FmapHead::read(bytes)?;
    if !head.is_valid(left) {
        return None;
    }
    Some(head)
}

/// Reads an area by its index from 0.
pub fn area<F: Flash>(paged: &mut Paged<F>, map: &FoundMap, i: u16) -> Result<Area, FlashFault>
    requires inside { map_end map.now ≤ length paged.old.device.content }
    requires number { i < map.now.head.nareas }

    ensures calls { HasAnswered 1 paged.old paged.new result }
    ensures area { OnHonest paged.old.device (λ image.
        Returns result (area_of (drop (map.now.at + fmap_head_len + area_len * i) image))) }
{
    let _len = paged.len();
    let mut bytes = [0; Area::LENGTH];
    let at = map.at + HEAD_LENGTH + AREA_LENGTH * u64::from(i);
    paged.read_small(at, &mut bytes)?;
    Ok(Area::read(&bytes))
}

/// Returns the first area with the name.
pub fn area_named<F: Flash>(
    paged: &mut Paged<F>,
    map: &FoundMap,
    name: &[u8],
) -> Result<Option<Area>, FlashFault>
    requires inside { map_end map.now ≤ length paged.old.device.content }

    ensures calls { HasAnswered map.now.head.nareas paged.old paged.new result }
    ensures first { OnHonest paged.old.device
        (λ image. Returns result (first_area (areas_of image map.now) name.now)) }
{
    for i in 0..map.head.nareas {
        let area = area(paged, map, i)?;
        if area.name_is(name) {
            return Ok(Some(area));
        }
    }
    Ok(None)
}

/// Converts an area to a region. Errors: no area (5), or outside the image (6).
pub fn region_of_area(area: Option<Area>, image_len: u64) -> Result<Region, StoreFault>
    ensures answer { result ≡ region_by_area image_len area }
    ensures lies_in { IfOk result (λ region. region.start + region.size ≤ image_len) }
    ensures no_device_fault { IsErrOf result StoreFault.Device → ⊥ }
{
    let Some(area) = area else {
        return Err(StoreFault::NoRegion);
    };
    match Region::within(u64::from(area.offset), u64::from(area.size), image_len) {
        Some(region) => Ok(region),
        None => Err(StoreFault::RegionOutside),
    }
}

/// Returns the region of the first area with the name. Errors, in order: no map (4), no area (5),
/// outside the image (6); a device fault (1) at any read.
#[tactic(auto, unfolding(crate::specs::Regions::region_of))]
pub fn region<F: Flash>(paged: &mut Paged<F>, name: &[u8]) -> Result<Region, StoreFault>
    ensures calls { HasReadBy by_device (map_reads paged.old.device) paged.old paged.new result }
    ensures inside { IfOk result (λ region. LiesOn region paged.old.device) }
    ensures answer { OnHonest paged.old.device
        (λ image. IsErrOf result StoreFault.Device ⊎ (result ≡ region_of image name.now)) }
{
    let Some(map) = find_fmap(paged)? else {
        return Err(StoreFault::NoFmap);
    };
    let area = area_named(paged, &map, name)?;
    region_of_area(area, paged.len())
}

/// Returns the head of a valid map at the front.
pub fn map_in_source<S: Source>(source: &mut S) -> Result<Option<FmapHead>, SourceFault>
    ensures calls { Reads 1 (refusals result) (S.facts source.old) (S.facts source.new) }
    ensures fits { IfFound result (λ head. map_len head ≤ length (S.facts source.old).content) }
    ensures head { OnHonest (S.facts source.old) (λ content. Returns result (map_head content)) }
{
    let len = source.len();
    if len < HEAD_LENGTH {
        return Ok(None);
    }
    let mut bytes = [0; FmapHead::LENGTH];
    source.read_at(0, &mut bytes)?;
    Ok(head_in(&bytes, len))
}

/// Reads an area by its index in a map at the front.
pub fn area_in_source<S: Source>(
    source: &mut S,
    head: &FmapHead,
    i: u16,
) -> Result<Area, SourceFault>
    requires inside { map_len head.now ≤ length (S.facts source.old).content }
    requires number { i < head.now.nareas }

    ensures calls { Reads 1 (refusals result) (S.facts source.old) (S.facts source.new) }
    ensures area { OnHonest (S.facts source.old)
        (λ content. Returns result (area_of (drop (fmap_head_len + area_len * i) content))) }
{
    let mut bytes = [0; Area::LENGTH];
    let at = HEAD_LENGTH + AREA_LENGTH * u64::from(i);
    source.read_at(at, &mut bytes)?;
    Ok(Area::read(&bytes))
}
