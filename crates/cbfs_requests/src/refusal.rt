//! The errors of commands.

ghost use Rattle.std.specs.Prelude.{◌≡◌};
ghost use Rattle.cbfs_requests.specs.Requests.{copy_refusal, edit_refusal, store_refusal};
ghost use Rattle.cbfs_edit.specs.Removals.{edit_fault_of};
ghost use Rattle.cbfs_requests.specs.declared.refusal.Refusal.TheVariants as refusals;

use cbfs_edit::EditFault;
use cbfs_walk::WalkFault;
use flash_device::{CopyFault, FlashFault, SinkFault, SourceFault};
use flash_format::DamageKind;
use flash_map::StoreFault;
use thiserror::Error;

/// The errors of a command, with numbers and messages.
#[derive(Clone, Copy, Debug, PartialEq, Eq, Error)]
pub enum Refusal {
    /// 1: I/O error of the image.
    #[error("device fault")]
    Device,
    /// 2: output error.
    #[error("output fault")]
    Output,
    /// 3: read error of the source.
    #[error("source fault")]
    Source,
    /// 4: no valid FMAP in the image.
    #[error("no FMAP")]
    NoFmap,
    /// 5: no area with the name in the FMAP.
    #[error("no such region")]
    NoRegion,
    /// 6: area outside the image.
    #[error("region outside the image")]
    RegionOutside,
    /// 7: region size 0, or not a multiple of 64.
    #[error("bad region size")]
    RegionShape,
    /// 8: no entry at the region's start.
    #[error("not a CBFS region")]
    NotCbfs,
    /// 9: damaged entry; the offset is relative to the region's start.
    #[error("damaged entry at {at:#x}: {}", .kind.name())]
    Damaged { at: u64, kind: DamageKind },
    /// 10: no component with the name in the region.
    #[error("no such component")]
    NotFound,
    /// 11: existing component with the name in the region.
    #[error("component exists")]
    Exists,
    /// 12: no free space with room for the component at an allowed place.
    #[error("no space")]
    NoSpace,
    /// 13: compressed component.
    #[error("component is compressed")]
    Compressed,
    /// 14: empty name of a new component, name of more than 127 bytes, or NUL in the name.
    #[error("bad name")]
    BadName,
    /// 15: type of free space for a new component.
    #[error("bad type")]
    BadType,
    /// 16: alignment 0 for a new component.
    #[error("bad alignment")]
    BadAlign,
    /// 17: source length different from the region's size.
    #[error("source size differs from the region")]
    SourceSize,
    /// 18: source without a flashmap for an image of this size.
    #[error("bad flashmap")]
    TableBad,
    /// 19: area FMAP missing, outside the image or too small for the flashmap, or overlap of a
    /// named region with the area FMAP or another named region.
    #[error("bad FMAP area")]
    FmapArea,
    /// 20: invalid arguments.
    #[error("bad command line")]
    Usage,
    /// 21: allocation failure.
    #[error("out of memory")]
    Memory,
    /// 22: file of 2^32 bytes or more.
    #[error("image too large")]
    TooLarge,
}

impl From<FlashFault> for Refusal {
    ghost from_gives = { λ _ refusal. refusal ≡ refusals.Device };

    fn from(_: FlashFault) -> Refusal {
        Refusal::Device
    }
}

impl From<SourceFault> for Refusal {
    ghost from_gives = { λ _ refusal. refusal ≡ refusals.Source };

    fn from(_: SourceFault) -> Refusal {
        Refusal::Source
    }
}

impl From<SinkFault> for Refusal {
    ghost from_gives = { λ _ refusal. refusal ≡ refusals.Output };

    fn from(_: SinkFault) -> Refusal {
        Refusal::Output
    }
}

impl From<CopyFault> for Refusal {
    ghost from_gives = { λ fault refusal. refusal ≡ copy_refusal fault };

    fn from(fault: CopyFault) -> Refusal {
        match fault {
            CopyFault::Device => Refusal::Device,
            CopyFault::Output => Refusal::Output,
            CopyFault::Source => Refusal::Source,
        }
    }
}

impl From<StoreFault> for Refusal {
    ghost from_gives = { λ fault refusal. refusal ≡ store_refusal fault };

    fn from(fault: StoreFault) -> Refusal {
        match fault {
            StoreFault::Device => Refusal::Device,
            StoreFault::NoFmap => Refusal::NoFmap,
            StoreFault::NoRegion => Refusal::NoRegion,
            StoreFault::RegionOutside => Refusal::RegionOutside,
        }
    }
}

impl From<WalkFault> for Refusal {
    ghost from_gives = { λ fault refusal. refusal ≡ edit_refusal (edit_fault_of fault) };

    fn from(fault: WalkFault) -> Refusal {
        match fault {
            WalkFault::Device => Refusal::Device,
            WalkFault::RegionShape => Refusal::RegionShape,
            WalkFault::NotCbfs => Refusal::NotCbfs,
            WalkFault::Damaged { at, kind } => Refusal::Damaged { at, kind },
        }
    }
}

impl From<EditFault> for Refusal {
    ghost from_gives = { λ fault refusal. refusal ≡ edit_refusal fault };

    fn from(fault: EditFault) -> Refusal {
        match fault {
            EditFault::Device => Refusal::Device,
            EditFault::Source => Refusal::Source,
            EditFault::RegionShape => Refusal::RegionShape,
            EditFault::NotCbfs => Refusal::NotCbfs,
            EditFault::Damaged { at, kind } => Refusal::Damaged { at, kind },
            EditFault::NotFound => Refusal::NotFound,
            EditFault::Exists => Refusal::Exists,
            EditFault::NoSpace => Refusal::NoSpace,
            EditFault::BadName => Refusal::BadName,
            EditFault::BadType => Refusal::BadType,
            EditFault::BadAlign => Refusal::BadAlign,
        }
    }
}
