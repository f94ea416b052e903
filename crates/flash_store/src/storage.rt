//! Single file calls.
ghost use Rattle.std.specs.Prelude.{◌≡◌, ◌+◌, ◌^◌, ◌<◌, ◌≤◌, length, IsTrue, IsErrOf};
ghost use Rattle.flash_store.specs.Files.{Stored, HasReadSome, HasWrittenSome};

use flash_format::HEADER_LENGTH;

/// The reason for a failed call.
#[derive(Clone, Copy, Debug, PartialEq, Eq, Drop)]
pub enum StorageFault {
    /// Interrupted, and repeatable.
    Interrupted,
    /// Any other error.
    Failed,
}

/// A file, by single system calls. A call may move fewer bytes than requested, or be interrupted.
///
/// A trait with complete transfers was rejected: its loops would be assumed, not proved.
pub trait Storage: Drop {
    /// Content and faithfulness: each call has the effect of its result.
    ghost facts: { Self → Stored };

    /// Returns the constant length in bytes.
    fn len(&self) -> u64
        ensures length { result ≡ length (facts self.now).content }
        ensures below { result < 2 ^ 32 };

    /// Reads a prefix, and returns its length. Other bytes of `out` are unspecified.
    fn read_some(&mut self, at: u64, out: &mut [u8]) -> Result<usize, StorageFault>
        requires inside { at + length out.old ≤ length (facts self.old).content }

        ensures { HasReadSome at (length out.old) (facts self.old) (facts self.new)
            result out.new };

    /// Writes a prefix, and returns its length.
    fn write_some(&mut self, at: u64, bytes: &[u8]) -> Result<usize, StorageFault>
        requires inside { at + length bytes.now ≤ length (facts self.old).content }

        ensures after { HasWrittenSome at bytes.now (facts self.old) (facts self.new) result }
        ensures interrupted { IsTrue (facts self.old).faithful
            → IsErrOf result StorageFault.Interrupted → facts self.new ≡ facts self.old };
}
