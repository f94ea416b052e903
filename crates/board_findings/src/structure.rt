//! Structures that an update must not lose.
ghost use Rattle.std.specs.Prelude.{◌≡◌};
ghost use Rattle.flash_device.specs.Pages.{Lists};
ghost use Rattle.board_findings.specs.Structures.{has, has_table, is_asked_in, is_described, is_lost, is_signed, is_slot, lost_structures, shows};

use crate::finding::{BoardFinding, Slot};
use board_structures::{
    Descriptor, DescriptorRegion, FirmwareTable, Gbb, PartitionTable, SignedSlot,
};
use std::alloc::{AllocError, Global};

/// A structure that a board boots from.
#[derive(Clone, Copy, Drop)]
pub enum Structure {
    FlashDescriptor,
    /// A region that the flash descriptor uses.
    Region(DescriptorRegion),
    /// The partition table of the Management Engine.
    PartitionTable,
    /// A bootblock of x86: it ends with COREBOOT and with the image.
    Bootblock,
    FirmwareTable,
    MasterHeader,
    Gbb,
    /// The signatures of a slot.
    Slot(Slot),
}

fn is_slot(slot: Slot, other: Slot) -> bool
    ensures { result ≡ is_slot slot other }
{
    slot == other
}

fn is_signed(state: SignedSlot) -> bool
    ensures { result ≡ is_signed state }
{
    !matches!(state, SignedSlot::Blank)
}

fn is_described(finding: &BoardFinding) -> bool
    ensures { result ≡ is_described finding.now }
{
    matches!(finding, BoardFinding::Descriptor(Descriptor::Described(_)))
}

fn has_table(findings: &[BoardFinding]) -> bool
    ensures { result ≡ has_table findings.now }
{
    findings.iter().any(|finding| is_described(finding))
}

impl Structure {
    /// All structures, in the order of their findings.
    const ALL: [Structure; 14] = [
        Structure::FlashDescriptor,
        Structure::Region(DescriptorRegion::Descriptor),
        Structure::Region(DescriptorRegion::Bios),
        Structure::Region(DescriptorRegion::Me),
        Structure::Region(DescriptorRegion::Gbe),
        Structure::Region(DescriptorRegion::PlatformData),
        Structure::Region(DescriptorRegion::Ec),
        Structure::PartitionTable,
        Structure::Bootblock,
        Structure::FirmwareTable,
        Structure::MasterHeader,
        Structure::Gbb,
        Structure::Slot(Slot::A),
        Structure::Slot(Slot::B),
    ];

    /// Returns whether the finding is about this structure, which is neither blank nor absent.
    fn is_shown_by(self, finding: &BoardFinding) -> bool
        ensures { result ≡ shows self finding.now }
    {
        match (self, finding) {
            (Structure::FlashDescriptor, BoardFinding::Descriptor(state)) => {
                !matches!(state, Descriptor::Blank)
            }
            (Structure::Region(region), BoardFinding::Descriptor(Descriptor::Described(table))) => {
                table.range(region).is_some()
            }
            (Structure::PartitionTable, BoardFinding::PartitionTable(state)) => {
                !matches!(state, PartitionTable::Blank)
            }
            (Structure::Bootblock, BoardFinding::ResetVector(_)) => true,
            (Structure::FirmwareTable, BoardFinding::FirmwareTable(state)) => {
                !matches!(state, FirmwareTable::Absent)
            }
            (Structure::MasterHeader, BoardFinding::MasterHeader(_)) => true,
            (Structure::Gbb, BoardFinding::Gbb(state)) => !matches!(state, Gbb::Blank),
            (Structure::Slot(slot), BoardFinding::Slot(found)) => {
                is_slot(slot, found.slot) && is_signed(found.state)
            }
            _ => false,
        }
    }

    /// Returns whether an image with these findings has the structure.
    fn is_in(self, findings: &[BoardFinding]) -> bool
        ensures { result ≡ has self findings.now }
    {
        findings.iter().any(|finding| self.is_shown_by(finding))
    }

    /// Returns whether the structure is compared if the new image has these findings: a region is
    /// compared only if the flash descriptor has a table of regions.
    fn is_asked_in(self, findings: &[BoardFinding]) -> bool
        ensures { result ≡ is_asked_in self findings.now }
    {
        match self {
            Structure::Region(_) => has_table(findings),
            _ => true,
        }
    }

    fn is_lost(self, old: &[BoardFinding], new: &[BoardFinding]) -> bool
        ensures { result ≡ is_lost old.now new.now self }
    {
        self.is_in(old) && !self.is_in(new) && self.is_asked_in(new)
    }
}

/// Returns the structures that the image with the `old` findings has, and the image with the `new`
/// findings has not, in the order of their findings. An image has a structure if a finding about
/// the structure is neither blank nor absent. Regions are compared if both images have a flash
/// descriptor with a table of regions. Returns `AllocError` only if an allocation failed.
#[tactic(auto, unfolding(crate::specs::Structures::lost_structures))]
pub fn lost_structures(
    alloc: Global,
    old: &[BoardFinding],
    new: &[BoardFinding],
) -> Result<Vec<Structure>, AllocError>
    ensures { Lists result (lost_structures old.now new.now) }
{
    let structures = Structure::ALL.iter().copied();
    structures
        .filter(|structure| structure.is_lost(old, new))
        .collect(alloc)
}
