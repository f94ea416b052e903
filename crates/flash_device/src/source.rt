//! Input of bytes.
ghost use Rattle.std.specs.Prelude.{◌≡◌, ◌^◌, ◌<◌, length};
ghost use Rattle.flash_device.specs.Device.{IsPiece, Device, OneRead};

/// A failed call.
#[derive(Clone, Copy, Debug, PartialEq, Eq, Drop)]
pub struct SourceFault;

/// A file or memory that a command only reads, with byte offsets.
pub trait Source: Drop {
    ghost facts: { Self → Device };

    /// Returns the constant length in bytes; not a counted call.
    fn len(&self) -> u64
        ensures length { result ≡ length (facts self.now).content }
        ensures below { result < 2 ^ 32 };

    /// Reads bytes. After a fault, `out` is unspecified.
    fn read_at(&mut self, at: u64, out: &mut [u8]) -> Result<(), SourceFault>
        requires { IsPiece at (length out.old) (facts self.old) }

        ensures after { OneRead at (length out.old) (facts self.old) (facts self.new)
            result out.new };
}
