//! The attributes of a component, as coreboot reads them.
ghost use Rattle.std.specs.Prelude.{◌≡◌, ◌+◌, ◌≤◌, ◌&&◌, List, [], ◌∷◌, ◌++◌, nat_le, slice_range};
ghost use Rattle.flash_format.specs.Entry.{Attribute};
ghost use Rattle.flash_device.specs.Device.{refusals};
ghost use Rattle.flash_device.specs.Pages.{HasAnswered, IfFound, ReadsAs};
ghost use Rattle.flash_device.specs.Regions.{Reaches};
ghost use Rattle.cbfs_walk.specs.Cells.{IsCellOn, IsComponentIn};
ghost use Rattle.cbfs_walk.specs.Walks.{Passes, ReadsCellAs, ReadsIn, reads_over};
ghost use Rattle.check_findings.specs.Attributes.{attribute_at, cell_fault, earlier_in};
ghost use Rattle.check_findings.specs.Attributes.{fault_after, fault_of, first_head, hash_fault};
ghost use Rattle.check_findings.specs.Attributes.{missing_fault, needs_stage, numbered_fault};
ghost use Rattle.check_findings.specs.Attributes.{stage_fault, walked};

use crate::region::finding::AttributeFault;
use cbfs_anchor::Algorithm;
use cbfs_walk::{Cell, name_end, read_in, value_at};
use flash_device::{Flash, FlashFault, Paged, Region};
use flash_format::AttrHead;

/// The tag of a stage attribute (`CBFS_FILE_ATTR_TAG_STAGEHEADER` of coreboot).
const STAGE: u32 = 0x5374_6748;

/// The type of a stage.
const STAGE_TYPE: u32 = 0x11;

/// What the attributes before another one contain.
#[derive(Clone, Copy)]
pub struct EarlierAttributes {
    /// An attribute with an unused tag, 0 or 0xffffffff.
    pub has_unused: bool,
    pub has_digest: bool,
    pub has_stage: bool,
}

impl EarlierAttributes {
    /// Adds an attribute with this tag.
    fn with(self, head: AttrHead) -> EarlierAttributes
        ensures { (before : List Attribute) (a : Attribute) → self ≡ earlier_in before
            → a.tag ≡ head.tag → result ≡ earlier_in (before ++ a ∷ []) }
    {
        EarlierAttributes {
            has_unused: self.has_unused || head.is_unused(),
            has_digest: self.has_digest || head.tag == AttrHead::HASH,
            has_stage: self.has_stage || head.tag == STAGE,
        }
    }

    /// Returns whether a component of this type still needs a stage attribute.
    fn needs_stage(self, kind: u32) -> bool
        ensures { result ≡ needs_stage kind self }
    {
        kind == STAGE_TYPE && !self.has_stage
    }

    /// Returns the fault of a component of this type, if no attribute follows.
    fn missing_fault(self, kind: u32) -> Option<AttributeFault>
        ensures { result ≡ missing_fault kind self }
    {
        self.needs_stage(kind).then_some(AttributeFault::NoStage)
    }
}

/// Returns whether the length covers the head, and is at most `left`.
fn fits(head: AttrHead, left: u64) -> bool
    ensures { result ≡ (nat_le 8 head.len && nat_le head.len left) }
{
    head.len >= 8 && u64::from(head.len) <= left
}

/// Returns the head of the attribute at a position in the region, or `None` if the list ends.
fn head_at<F: Flash>(
    paged: &mut Paged<F>,
    region: Region,
    at: u64,
    end: u64,
) -> Result<Option<AttrHead>, FlashFault>
    requires { Reaches region end paged.old.device }

    ensures passes { Passes region at at (refusals result) paged.old paged.new }
    ensures inside { IfFound result (λ head. (8 ≤ head.len) × (at + head.len ≤ end)) }
    ensures head { ReadsAs paged.old region result (λ x. first_head (slice_range x at end)) }
{
    if end.saturating_sub(at) < 8 {
        return Ok(None);
    }
    let mut bytes = [0; 8];
    read_in(paged, region, at, &mut bytes)?;
    let head = AttrHead::read(&bytes);
    Ok(fits(head, end - at).then_some(head))
}

/// Returns the fault of a digest by its number, the length of the contents of its attribute, and
/// whether it has an earlier digest.
fn numbered_fault(number: u32, len: u32, has_digest: bool) -> Option<AttributeFault>
    ensures { result ≡ numbered_fault has_digest len number }
{
    let Some(algorithm) = Algorithm::numbered(number % 256) else {
        return Some(AttributeFault::UnknownAlgorithm);
    };
    if len as usize != 4 + algorithm.digest_len() {
        return Some(AttributeFault::DigestLength);
    }
    has_digest.then_some(AttributeFault::SecondDigest)
}

/// Returns the fault of the hash attribute of `len` bytes at a position in the region.
fn hash_fault<F: Flash>(
    paged: &mut Paged<F>,
    region: Region,
    at: u64,
    len: u32,
    has_digest: bool,
) -> Result<Option<AttributeFault>, FlashFault>
    requires reach { Reaches region (at + len) paged.old.device }
    requires least { 8 ≤ len }

    ensures { ReadsIn region at (at + len) paged.old paged.new result
        (λ x fault. fault ≡ hash_fault has_digest (slice_range x (at + 8) (at + len))) }
{
    if len < 12 {
        return Ok(Some(AttributeFault::DigestLength));
    }
    let number = value_at(paged, region, at + 8)?;
    Ok(numbered_fault(number, len - 8, has_digest))
}

/// Returns the fault of the stage attribute of `len` bytes at a position in the region.
fn stage_fault<F: Flash>(
    paged: &mut Paged<F>,
    region: Region,
    at: u64,
    len: u32,
) -> Result<Option<AttributeFault>, FlashFault>
    requires reach { Reaches region (at + len) paged.old.device }
    requires least { 8 ≤ len }

    ensures { ReadsIn region at (at + len) paged.old paged.new result
        (λ x fault. fault ≡ stage_fault (slice_range x (at + 8) (at + len))) }
{
    if len != 24 {
        return Ok(Some(AttributeFault::NoStage));
    }
    let entry = value_at(paged, region, at + 16)?;
    let memory = value_at(paged, region, at + 20)?;
    Ok((memory <= entry).then_some(AttributeFault::EntryOutside))
}

/// Returns the fault of the attribute with this head at a position in the region, in a component
/// of this type.
fn fault_at<F: Flash>(
    paged: &mut Paged<F>,
    region: Region,
    at: u64,
    head: AttrHead,
    kind: u32,
    earlier: EarlierAttributes,
) -> Result<Option<AttributeFault>, FlashFault>
    requires reach { Reaches region (at + head.len) paged.old.device }
    requires least { 8 ≤ head.len }

    ensures { ReadsIn region at (at + head.len) paged.old paged.new result
        (λ x fault. fault ≡ fault_of kind earlier (attribute_at x at head)) }
{
    if earlier.has_unused && !head.is_unused() {
        return Ok(Some(AttributeFault::BehindEnd));
    }
    if head.tag == AttrHead::COMPRESSION {
        return Ok((head.len != 16).then_some(AttributeFault::CompressionLength));
    }
    if head.tag == AttrHead::HASH {
        return hash_fault(paged, region, at, head.len, earlier.has_digest);
    }
    if head.tag == STAGE && earlier.needs_stage(kind) {
        return stage_fault(paged, region, at, head.len);
    }
    Ok(None)
}

/// Returns the first fault of the attributes between two positions, of a component of this type.
fn listed_fault<F: Flash>(
    paged: &mut Paged<F>,
    region: Region,
    kind: u32,
    from: u64,
    end: u64,
) -> Result<Option<AttributeFault>, FlashFault>
    requires reach { Reaches region end paged.old.device }
    requires order { from ≤ end }

    ensures { ReadsIn region from end paged.old paged.new result
        (λ x fault. fault ≡ fault_after kind [] (walked (slice_range x from end))) }
{
    let mut at = from;
    let mut earlier = EarlierAttributes {
        has_unused: false,
        has_digest: false,
        has_stage: false,
    };
    loop {
        match head_at(paged, region, at, end)? {
            Some(head) => {
                let fault = fault_at(paged, region, at, head, kind, earlier)?;
                if fault.is_some() {
                    return Ok(fault);
                }
                earlier = earlier.with(head);
                at += u64::from(head.len);
            }
            None => return Ok(earlier.missing_fault(kind)),
        }
    }
}

/// Returns the first fault of a component's attributes.
#[tactic(auto, using(crate::proofs::RegionLemmas::AttributeLists::lies_between))]
pub fn attribute_fault<F: Flash>(
    paged: &mut Paged<F>,
    region: Region,
    cell: &Cell,
) -> Result<Option<AttributeFault>, FlashFault>
    requires { IsCellOn IsComponentIn region cell.now paged.old.device }

    ensures calls { HasAnswered (reads_over cell.now.head.offset) paged.old paged.new result }
    ensures fault { ReadsCellAs paged.old region cell.now result cell_fault }
{
    let from = cell.at + u64::from(name_end(&cell.head));
    let end = cell.at + u64::from(cell.head.offset);
    listed_fault(paged, region, cell.head.kind, from, end)
}
