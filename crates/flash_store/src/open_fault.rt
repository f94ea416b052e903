//! Errors of opening a file.
ghost use Rattle.std.specs.Prelude.{◌≡◌, ◌^◌, ◌<◌, ◌≤◌};

use crate::storage::StorageFault;
use std::io::{self, ErrorKind};

/// The reason for a file not opened.
#[derive(Clone, Copy, Debug, PartialEq, Eq, Drop)]
pub enum OpenFault {
    /// A missing or unusable file, by the system's error kind.
    Failed(ErrorKind),
    /// 2^32 bytes or more.
    TooLarge,
    /// An allocation failure.
    Memory,
}

impl From<io::Error> for OpenFault {
    ghost use Rattle.std.specs.IoError.{error_kind};
    ghost use Rattle.flash_store.specs.Files.{open_fault_of};

    ghost from_gives = { λ error fault. fault ≡ open_fault_of (error_kind error) };

    fn from(error: io::Error) -> OpenFault {
        match error.kind() {
            ErrorKind::OutOfMemory => OpenFault::Memory,
            kind => OpenFault::Failed(kind),
        }
    }
}

impl From<StorageFault> for OpenFault {
    ghost use Rattle.std.specs.declared.io.ErrorKind.TheVariants.{Other};
    ghost use Rattle.flash_store.specs.declared.open_fault.OpenFault.TheVariants.{Failed};

    ghost from_gives = { λ _ fault. fault ≡ Failed Other };

    fn from(_: StorageFault) -> OpenFault {
        OpenFault::Failed(ErrorKind::Other)
    }
}

/// Returns a length below 2^32, or `TooLarge`.
pub fn checked_length(length: u64) -> Result<u32, OpenFault>
    ensures below { length < 2 ^ 32 → result ≡ Ok length }
    ensures too_large { 2 ^ 32 ≤ length → result ≡ Err OpenFault.TooLarge }
{
    match u32::try_from(length) {
        Ok(length) => Ok(length),
        Err(_) => Err(OpenFault::TooLarge),
    }
}
