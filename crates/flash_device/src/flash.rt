//! The contract of every device.
ghost use Rattle.std.specs.Prelude.{◌≡◌, ◌+◌, ◌^◌, ◌<◌, ◌≤◌, length};
ghost use Rattle.flash_device.specs.Device.{IsPiece, Device, OneRead, OneWrite, OneCommit};

/// The maximum length of a call in bytes.
pub const PIECE: usize = 4096;

/// The length of a commit in bytes: the header of a CBFS entry, with an empty name.
pub const COMMIT_LENGTH: usize = 28;

/// A failed call.
#[derive(Clone, Copy, Debug, PartialEq, Eq, Drop)]
pub struct FlashFault;

/// An image on a chip, in a file or in memory, with byte offsets.
///
/// Each call states its effect also if it fails, so contracts of edits state the image after a stop
/// at any call. Std's `Read`, `Write` and `Seek` were rejected: they state no content after an
/// error, and add a current position.
pub trait Flash: Drop {
    ghost facts: { Self → Device };

    /// Returns the constant length in bytes; not a counted call.
    fn len(&self) -> u64
        ensures length { result ≡ length (facts self.now).content }
        ensures below { result < 2 ^ 32 };

    /// Reads bytes. After a fault, `out` is unspecified.
    fn read_at(&mut self, at: u64, out: &mut [u8]) -> Result<(), FlashFault>
        requires { IsPiece at (length out.old) (facts self.old) }

        ensures after { OneRead at (length out.old) (facts self.old) (facts self.new)
            result out.new };

    /// Writes bytes. After a fault, the range is unspecified.
    fn write_at(&mut self, at: u64, bytes: &[u8]) -> Result<(), FlashFault>
        requires { IsPiece at (length bytes.now) (facts self.old) }

        ensures after { OneWrite at bytes.now (facts self.old) (facts self.new) result };

    /// Writes a cell's first bytes atomically.
    fn commit_at(&mut self, at: u64, bytes: &[u8; COMMIT_LENGTH]) -> Result<(), FlashFault>
        requires { at + length bytes.now ≤ length (facts self.old).content }

        ensures after { OneCommit at bytes.now (facts self.old) (facts self.new) result };
}
