//! Findings about the structures of a board.
ghost use Rattle.std.specs.Prelude.{◌≡◌};
ghost use Rattle.board_findings.specs.BoardFindings.{block_name, body_name};
ghost use Rattle.board_findings.specs.Verdicts.{is_bad};

use board_structures::{
    AreaDifference, Descriptor, FirmwareTable, Gbb, MasterHeader, PartitionTable, ResetVector,
    SignedSlot,
};

/// A slot of vboot.
#[derive(Clone, Copy, Debug, PartialEq, Eq)]
pub enum Slot {
    A,
    B,
}

impl Slot {
    /// Returns the name of the area with the signatures.
    pub fn block_name(self) -> &'static [u8]
        ensures { result.now ≡ block_name self }
    {
        match self {
            Slot::A => b"VBLOCK_A",
            Slot::B => b"VBLOCK_B",
        }
    }

    /// Returns the name of the area that is signed.
    pub fn body_name(self) -> &'static [u8]
        ensures { result.now ≡ body_name self }
    {
        match self {
            Slot::A => b"FW_MAIN_A",
            Slot::B => b"FW_MAIN_B",
        }
    }
}

/// The state of a slot.
#[derive(Clone, Copy)]
pub struct SlotFinding {
    pub slot: Slot,
    pub state: SignedSlot,
}

/// The state of the master header in COREBOOT.
#[derive(Clone, Copy)]
pub struct HeaderFinding {
    pub state: MasterHeader,
    /// A bootblock ends the area.
    pub ends_with_bootblock: bool,
}

/// A finding about a structure. A structure that the image lacks has none.
#[derive(Clone, Copy, Drop)]
pub enum BoardFinding {
    /// The flash descriptor in SI_DESC.
    Descriptor(Descriptor),
    /// An area that isn't the region of the flash descriptor.
    Region(AreaDifference),
    /// The partition table of the Management Engine in SI_ME.
    PartitionTable(PartitionTable),
    /// The reset vector of x86, if a bootblock ends with COREBOOT and with the image.
    ResetVector(ResetVector),
    /// The firmware interface table of such an image.
    FirmwareTable(FirmwareTable),
    /// The first master header in COREBOOT.
    MasterHeader(HeaderFinding),
    /// The Google Binary Block in GBB.
    Gbb(Gbb),
    /// The signatures in VBLOCK_A or VBLOCK_B.
    Slot(SlotFinding),
}

impl BoardFinding {
    /// Returns whether the board can't boot, or the firmware refuses a slot.
    pub fn is_bad(&self) -> bool
        ensures { result ≡ is_bad self.now }
    {
        match self {
            BoardFinding::Descriptor(state) => state.is_bad(),
            BoardFinding::Region(_) => true,
            BoardFinding::PartitionTable(state) => state.is_bad(),
            BoardFinding::ResetVector(state) => state.is_bad(),
            BoardFinding::FirmwareTable(state) => state.is_bad(),
            BoardFinding::MasterHeader(header) => header.state.is_bad(header.ends_with_bootblock),
            BoardFinding::Gbb(state) => state.is_bad(),
            BoardFinding::Slot(slot) => slot.state.is_bad(),
        }
    }
}
