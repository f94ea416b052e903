//! The walk over cells.
ghost use Rattle.std.specs.Prelude.{◌≡◌, ◌⊎◌, ◌*◌, ◌/◌, ◌%◌, ◌≤◌, Some, None, IsSome, IfSome, IsErrOf, drop};
ghost use Rattle.flash_format.specs.Entry as entries;
ghost use Rattle.flash_format.specs.Entry.{front, entry, damaged};
ghost use Rattle.flash_device.specs.Pages.{OnHonestIn, HasReadBy};
ghost use Rattle.std.specs.Option.{option_map_or};
ghost use Rattle.flash_device.specs.Regions.{LiesOn, Reaches};
ghost use Rattle.cbfs_walk.specs.Cells.{IsCellOn, PassesChecks, content_start};
ghost use Rattle.cbfs_walk.specs.Walks.{by_device, walk_after, answer_at, GivesCell, reads_at, ReadsIn};
ghost use Rattle.cbfs_walk.specs.Shapes.{has_bad_size};

use crate::attribute_walk::are_well_formed;
use crate::cell::Cell;
use crate::names::{has_name_end, name_end};
use crate::region_reads::read_in;
use flash_device::{Flash, FlashFault, Paged, Region};
use flash_format::{DamageKind, Head};
use std::marker::Model;

/// The next part of a region. Positions are relative to the region's start.
#[derive(Clone, Copy, Debug, PartialEq, Eq)]
pub enum Step {
    /// A component or free space. The walk continues.
    Cell(Cell),
    /// The end: no entry at a position after the region's start. The remaining bytes are preserved
    /// and unused.
    Tail(u64),
    /// The end: the cells fill the region.
    End,
}

/// The reason for a missing cell. The number in parentheses is the number that cbfstool prints for
/// the error.
#[derive(Clone, Copy, Debug, PartialEq, Eq)]
pub enum WalkFault {
    /// Device I/O error (1). The next call repeats the position.
    Device,
    /// Region size 0, or not a multiple of 64 (7), found without a read.
    RegionShape,
    /// No entry at the region's start (8).
    NotCbfs,
    /// Damaged entry, by its first failed check (9).
    Damaged { at: u64, kind: DamageKind },
}

impl From<FlashFault> for WalkFault {
    ghost use Rattle.cbfs_walk.specs.declared.walk.WalkFault.TheVariants.{Device};

    ghost from_gives = { λ _ fault. fault ≡ Device };

    fn from(_: FlashFault) -> WalkFault {
        WalkFault::Device
    }
}

/// A walk, and its last result after its end.
#[derive(Drop)]
pub struct Walk {
    region: Region,
    at: u64,
    steps: u64,
    ended: Option<Result<Step, WalkFault>>,
}

impl Model for Walk {
    ghost use Rattle.std.specs.Prelude.{◌≡◌, ◌*◌, ◌%◌, ◌≤◌, Some};
    ghost use Rattle.std.specs.Option.{ForSome};
    ghost use Rattle.cbfs_walk.specs.Walks.{Walking, walk_after};

    ghost Value = { Walking };

    ghost view = { λ w. record { region = w.region; at = w.at; steps = w.steps; ended = w.ended } };

    ghost invariant = { λ w. (w.at ≤ w.region.size) × (w.at % 64 ≡ 0) × (64 * w.steps ≤ w.at)
        × ForSome w.ended (λ answer. (v : Walking) → (walk_after v answer).ended ≡ Some answer) };
}

impl Walk {
    /// Starts a walk without a read. `next` borrows the device per call, so a caller can read
    /// between calls.
    pub fn new(region: Region) -> Walk
        ensures { result ≡ record { region = region; at = 0; steps = 0; ended = None } }
    {
        Walk {
            region,
            at: 0,
            steps: 0,
            ended: None,
        }
    }

    /// Returns the number of cells so far.
    pub fn steps(&self) -> u64
        ensures steps { result ≡ self.now.steps }
        ensures bound { result ≤ self.now.region.size / 64 }
    {
        self.steps
    }

    /// Returns the next cell, or the end. After a device fault, the next call repeats the entry;
    /// after any other end, each call returns the same result. A call makes one device call, and
    /// another for each 3840 bytes of the cell, or of the remaining region without a cell.
    pub fn next<F: Flash>(&mut self, paged: &mut Paged<F>) -> Result<Step, WalkFault>
        requires { LiesOn self.old.region paged.old.device }

        ensures calls { HasReadBy by_device
            (reads_at self.old.region.size self.old.at result) paged.old paged.new result }
        ensures cell { GivesCell self.old.region.size self.old.at result }
        ensures moved { self.new ≡ walk_after self.old result }
        ensures ended { IfSome self.old.ended (λ answer. result ≡ answer) }
        ensures no_call { IsSome self.old.ended → paged.new ≡ paged.old }

        ensures answer { OnHonestIn paged.old.device self.old.region (λ x. self.old.ended ≡ None →
            IsErrOf result WalkFault.Device ⊎ (result ≡ answer_at x self.old.at)) }
    {
        if let Some(answer) = self.ended {
            return answer;
        }
        let answer = answer_at(paged, self.region, self.at);
        match answer {
            Ok(Step::Cell(cell)) => {
                self.at += cell.span;
                self.steps += 1;
            }
            Err(WalkFault::Device) => {}
            _ => self.ended = Some(answer),
        }
        answer
    }
}

/// Returns true if a CBFS region cannot have this size: 0, or not a multiple of 64.
pub fn has_bad_size(size: u64) -> bool
    ensures { result ≡ has_bad_size size }
{
    size == 0 || size % 64 != 0
}

fn answer_at<F: Flash>(paged: &mut Paged<F>, region: Region, at: u64) -> Result<Step, WalkFault>
    requires reach { Reaches region at paged.old.device }
    requires aligned { at % 64 ≡ 0 }

    ensures cost { HasReadBy by_device (reads_at region.size at result) paged.old paged.new result }
    ensures cell { GivesCell region.size at result }
    ensures answer { OnHonestIn paged.old.device region
        (λ x. IsErrOf result WalkFault.Device ⊎ (result ≡ answer_at x at)) }
{
    if has_bad_size(region.size()) {
        return Err(WalkFault::RegionShape);
    }
    if at == region.size() {
        return Ok(Step::End);
    }
    let left = region.size() - at;
    match front_at(paged, region, at)? {
        None if at == 0 => Err(WalkFault::NotCbfs),
        None => Ok(Step::Tail(at)),
        Some(head) => match head.check(left) {
            Err(kind) => Err(WalkFault::Damaged { at, kind }),
            Ok(extent) => {
                let cell = Cell {
                    at,
                    head,
                    span: extent.span,
                };
                match damage_in(paged, region, &cell)? {
                    Some(kind) => Err(WalkFault::Damaged { at, kind }),
                    None => Ok(Step::Cell(cell)),
                }
            }
        },
    }
}

/// Returns the head of the entry at a position, damaged or not, or `None` without an entry.
pub fn front_at<F: Flash>(
    paged: &mut Paged<F>,
    region: Region,
    at: u64,
) -> Result<Option<Head>, FlashFault>
    requires { Reaches region at paged.old.device }

    ensures { ReadsIn region at at paged.old paged.new result (λ x head. head ≡ front (drop at x)) }
{
    if region.size() - at < 24 {
        return Ok(None);
    }
    let mut bytes = [0; 24];
    read_in(paged, region, at, &mut bytes)?;
    Ok(Head::read(&bytes))
}

/// Returns the first failed check of a component after the checks of its head. Free space has none.
#[tactic(auto, using(crate::proofs::Checks::content_fits, crate::proofs::CellNames::field_used))]
fn damage_in<F: Flash>(
    paged: &mut Paged<F>,
    region: Region,
    cell: &Cell,
) -> Result<Option<DamageKind>, FlashFault>
    requires { IsCellOn PassesChecks region cell.now paged.old.device }

    ensures { ReadsIn region cell.now.at (content_start cell.now) paged.old paged.new result
        (λ x damage. front (drop cell.now.at x) ≡ Some cell.now.head
        → option_map_or damaged damage (entries.cell cell.now.span) ≡ entry (drop cell.now.at x)) }
{
    if cell.head.is_free() {
        return Ok(None);
    }
    if !has_name_end(paged, region, cell)? {
        return Ok(Some(DamageKind::Name));
    }
    let from = cell.at + u64::from(name_end(&cell.head));
    if !are_well_formed(paged, region, from, cell.at + u64::from(cell.head.offset))? {
        return Ok(Some(DamageKind::AttrLength));
    }
    Ok(None)
}
