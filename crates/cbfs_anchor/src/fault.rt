//! Errors.
ghost use Rattle.std.specs.Prelude.{◌≡◌};
ghost use Rattle.cbfs_anchor.specs.Faults.{store_fault, walk_fault};
ghost use Rattle.cbfs_anchor.specs.declared.fault.SealFault.TheVariants.{Device};

use cbfs_walk::WalkFault;
use flash_device::FlashFault;
use flash_format::DamageKind;
use flash_map::StoreFault;
use thiserror::Error;

/// The errors of an inspection and of a seal. All except `Device` leave the image unchanged.
#[derive(Clone, Copy, Debug, PartialEq, Eq, Error)]
pub enum SealFault {
    /// 1: I/O error of the image.
    #[error("device fault")]
    Device,
    /// 2: no valid flash map in the image.
    #[error("no FMAP")]
    NoFmap,
    /// 3: no area COREBOOT.
    #[error("no such region")]
    NoRegion,
    /// 4: area COREBOOT or BOOTBLOCK outside the image.
    #[error("region outside the image")]
    RegionOutside,
    /// 5: size of COREBOOT 0, or not a multiple of 64.
    #[error("bad region size")]
    RegionShape,
    /// 6: no entry at the start of COREBOOT.
    #[error("not a CBFS region")]
    NotCbfs,
    /// 7: damaged entry; the offset is relative to the region's start.
    #[error("damaged entry at {at:#x}: {}", .kind.name())]
    Damaged { at: u64, kind: DamageKind },
    /// 8: no anchor in the area BOOTBLOCK, or without the area in the component `bootblock`.
    #[error("no anchor")]
    NoAnchor,
    /// 9: anchor with another number than those of the five algorithms.
    #[error("unknown algorithm of the anchor")]
    UnknownAlgorithm,
    /// 10: anchor that ends after the area or the component.
    #[error("anchor cut off")]
    CutOff,
    /// 11: digests inside the flash map, or inside COREBOOT but not in the component.
    #[error("anchor inside the flash map or COREBOOT")]
    Misplaced,
    /// 12: bootblock with the header of an ELF file or an MBN file.
    #[error("bootblock with a header that may have a digest of its own: use coreboot's cbfstool")]
    OwnDigest,
    /// 13: component with more than 256 bytes before its content.
    #[error("metadata longer than 256 bytes at {at:#x}")]
    TooLong { at: u64 },
    /// 14: component of type bootblock with a hash attribute.
    #[error("bootblock with a stored digest at {at:#x}")]
    HashedBootblock { at: u64 },
    /// 15: component without a digest of the anchor's algorithm.
    #[error("no digest of the anchor's algorithm at {at:#x}")]
    Unhashed { at: u64 },
}

impl From<FlashFault> for SealFault {
    ghost from_gives = { λ _ fault. fault ≡ Device };

    fn from(_: FlashFault) -> SealFault {
        SealFault::Device
    }
}

impl From<StoreFault> for SealFault {
    ghost from_gives = { λ was fault. fault ≡ store_fault was };

    fn from(fault: StoreFault) -> SealFault {
        match fault {
            StoreFault::Device => SealFault::Device,
            StoreFault::NoFmap => SealFault::NoFmap,
            StoreFault::NoRegion => SealFault::NoRegion,
            StoreFault::RegionOutside => SealFault::RegionOutside,
        }
    }
}

impl From<WalkFault> for SealFault {
    ghost from_gives = { λ was fault. fault ≡ walk_fault was };

    fn from(fault: WalkFault) -> SealFault {
        match fault {
            WalkFault::Device => SealFault::Device,
            WalkFault::RegionShape => SealFault::RegionShape,
            WalkFault::NotCbfs => SealFault::NotCbfs,
            WalkFault::Damaged { at, kind } => SealFault::Damaged { at, kind },
        }
    }
}
