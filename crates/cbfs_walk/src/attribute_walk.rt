//! Attributes of components.
ghost use Rattle.std.specs.Prelude.{◌≡◌, ℕ, ◌+◌, ◌-◌, ◌/◌, ◌<◌, ◌≤◌, min, false, List, slice_range, IfOk, Some, None, is_some};
ghost use Rattle.std.specs.Option.{option_map};
ghost use Rattle.flash_format.specs.Head.{is_free, be32};
ghost use Rattle.flash_format.specs.Entry.{attributes, data_of, name_end};
ghost use Rattle.flash_format.specs.Components.{cell_attributes, compression_of};
ghost use Rattle.flash_device.specs.Pages.{HasAnswered, OnHonestIn, ReadsAs, IfFound};
ghost use Rattle.flash_device.specs.Regions.{Reaches};
ghost use Rattle.cbfs_walk.specs.Walks.{Passes, ReadsIn, reads_over, StandsIn, ReadsCellAs};
ghost use Rattle.cbfs_walk.specs.Cells.{IsCellOn, IsComponentIn, attributes_start, content_start, cell_in};
ghost use Rattle.cbfs_walk.specs.AttrWalks.{attr_moved, IsAttrIn, attributes_left, GivesNext, next_attribute, IsListedAttribute, attributes_in, searched_to};
ghost use Rattle.flash_format.specs.declared.attribute.AttrHead.{AttrHead};
ghost use Rattle.flash_device.specs.Device.{refusals};

use crate::cell::Cell;
use crate::names::name_end;
use crate::region_reads::read_in;
use byteorder::{BigEndian, ByteOrder};
use flash_device::{Flash, FlashFault, Paged, Region};
use flash_format::AttrHead;

/// A walk over a component's attributes.
#[derive(Drop)]
pub struct AttrWalk {
    cell: Cell,
    at: u32,
}

/// Returns a walk over a component's attributes.
pub fn attributes(cell: &Cell) -> AttrWalk
    ensures start { result
        ≡ record { cell = cell.now; at = min (name_end cell.now.head) cell.now.head.offset } }
    ensures all { (x : List ℕ) → StandsIn x cell.now → is_free cell.now.head ≡ false
        → attributes_left x result ≡ Some (cell_attributes (cell_in x cell.now)) }
{
    AttrWalk {
        cell: *cell,
        at: name_end(&cell.head).min(cell.head.offset),
    }
}

impl AttrWalk {
    /// Returns the next attribute's head, or `None` at the end. A fault doesn't move the walk.
    pub fn next<F: Flash>(
        &mut self,
        paged: &mut Paged<F>,
        region: Region,
    ) -> Result<Option<AttrHead>, FlashFault>
        requires { Reaches region (self.old.cell.at + self.old.cell.head.offset) paged.old.device }

        // On an honest device.
        ensures list { OnHonestIn paged.old.device region (λ x.
            IfOk result (GivesNext (attributes_left x self.old) (attributes_left x self.new))) }

        // On any device.
        ensures attribute { IfFound result (IsAttrIn self.old.at self.old.cell.head.offset) }
        ensures moved { self.new ≡ attr_moved self.old result }
        ensures ended { self.old.at ≡ self.old.cell.head.offset
            → (result ≡ Ok None) × (paged.new ≡ paged.old) }

        // At most one call, and none if fewer than eight bytes are left.
        ensures calls { HasAnswered (min 1 ((self.old.cell.head.offset - self.old.at) / 8))
            paged.old paged.new result }
        ensures passes { let at = self.old.cell.at + self.old.at in
            Passes region at at (refusals result) paged.old paged.new }
    {
        let at = self.cell.at + u64::from(self.at);
        let end = self.cell.at + u64::from(self.cell.head.offset);
        match listed_at(paged, region, at, end)? {
            AttributeItem::Attribute(head) => {
                self.at += head.len;
                Ok(Some(head))
            }
            _ => {
                self.at = self.cell.head.offset;
                Ok(None)
            }
        }
    }
}

/// Returns the value of a component's first compression attribute, or 0 without one.
#[tactic(auto, using(crate::proofs::Checks::content_fits))]
pub fn packing<F: Flash>(
    paged: &mut Paged<F>,
    region: Region,
    cell: &Cell,
) -> Result<u32, FlashFault>
    requires { IsCellOn IsComponentIn region cell.now paged.old.device }

    ensures calls { HasAnswered (reads_over cell.now.head.offset) paged.old paged.new result }

    ensures value { ReadsAs paged.old region result
        (λ x. compression_of (attributes_in x cell.now)) }
    ensures compression { ReadsCellAs paged.old region cell.now result
        (λ x. compression_of (cell_attributes x)) }
{
    match first_attribute(paged, region, cell, AttrHead::COMPRESSION)? {
        Some((at, _)) => value_at(paged, region, at + 8),
        None => Ok(0),
    }
}

/// Returns the position and head of a component's first attribute with the tag, or `None` if the
/// list ends or is malformed first.
#[tactic(auto, using(crate::proofs::Checks::content_fits))]
pub fn first_attribute<F: Flash>(
    paged: &mut Paged<F>,
    region: Region,
    cell: &Cell,
    tag: u32,
) -> Result<Option<(u64, AttrHead)>, FlashFault>
    requires { IsCellOn IsComponentIn region cell.now paged.old.device }

    ensures attribute { IfFound result (λ found. (found.1.tag ≡ tag)
        × IsAttrIn found.0 (content_start cell.now) found.1) }
    ensures first { ReadsIn region (attributes_start cell.now) (searched_to cell.now result)
        paged.old paged.new result (λ x found. option_map (λ (attribute : ℕ × AttrHead).
        slice_range x (attribute.0 + 8) (attribute.0 + attribute.1.len)) found
        ≡ data_of tag (attributes_in x cell.now)) }
{
    let end = cell.at + u64::from(cell.head.offset);
    let mut at = cell.at + u64::from(name_end(&cell.head));
    loop {
        match listed_at(paged, region, at, end)? {
            AttributeItem::Attribute(head) => {
                if head.tag == tag {
                    return Ok(Some((at, head)));
                }
                at += u64::from(head.len);
            }
            _ => return Ok(None),
        }
    }
}

/// Returns whether all attributes in a range are well formed.
pub fn are_well_formed<F: Flash>(
    paged: &mut Paged<F>,
    region: Region,
    from: u64,
    end: u64,
) -> Result<bool, FlashFault>
    requires reach { Reaches region end paged.old.device }
    requires order { from ≤ end }

    ensures { ReadsIn region from end paged.old paged.new result
        (λ x formed. formed ≡ is_some (attributes (slice_range x from end))) }
{
    let mut at = from;
    loop {
        match listed_at(paged, region, at, end)? {
            AttributeItem::Attribute(head) => at += u64::from(head.len),
            AttributeItem::End => return Ok(true),
            AttributeItem::Malformed => return Ok(false),
        }
    }
}

#[derive(Clone, Copy)]
enum AttributeItem {
    Attribute(AttrHead),
    End,
    Malformed,
}

fn listed_at<F: Flash>(
    paged: &mut Paged<F>,
    region: Region,
    at: u64,
    end: u64,
) -> Result<AttributeItem, FlashFault>
    requires { Reaches region end paged.old.device }

    ensures passes { Passes region at at (refusals result) paged.old paged.new }
    ensures few { end < at + 8 → (result ≡ Ok AttributeItem.End) × (paged.new ≡ paged.old) }
    ensures attribute { IfOk result (IsListedAttribute at end) }
    ensures listed { ReadsAs paged.old region result (λ x. next_attribute (slice_range x at end)) }
{
    if end.saturating_sub(at) < 8 {
        return Ok(AttributeItem::End);
    }
    let mut bytes = [0; 8];
    read_in(paged, region, at, &mut bytes)?;
    let head = AttrHead::read(&bytes);
    if head.is_unused() {
        return Ok(AttributeItem::End);
    }
    if head.has_bad_len(end - at) {
        return Ok(AttributeItem::Malformed);
    }
    Ok(AttributeItem::Attribute(head))
}

/// Returns a big-endian number of four bytes at a position in the region.
pub fn value_at<F: Flash>(paged: &mut Paged<F>, region: Region, at: u64) -> Result<u32, FlashFault>
    requires { Reaches region (at + 4) paged.old.device }

    ensures { ReadsIn region at at paged.old paged.new result (λ x value. value ≡ be32 at x) }
{
    let mut bytes = [0; 4];
    read_in(paged, region, at, &mut bytes)?;
    Ok(BigEndian::read_u32(&bytes[..4]))
}
