//! A test file with short, interrupted and failed calls.
ghost use Rattle.std.specs.Prelude.{◌≡◌, ◌+◌, ◌-◌, ◌^◌, ◌<◌, ◌≤◌, Err, length, true, IsOk};
ghost use Rattle.flash_device.specs.Device.{overwritten};

use crate::storage::{Storage, StorageFault};
use flash_format::HEADER_LENGTH;

const BLOCK: u64 = 4096;

/// A faithful test file. A call moves at most `most` bytes, except a header's write in one block or
/// in the last write's range. Calls are interrupted after every `between`, and fail after `left`.
#[derive(Drop)]
pub struct FlakyFile {
    pub content: Vec<u8>,
    pub most: usize,
    pub between: u64,
    pub before: u64,
    pub left: u64,
    pub written_at: u64,
    pub written_len: usize,
    ghost small: { length content.items < 2 ^ 32 },
}

impl FlakyFile {
    /// Makes a file of fewer than 2^32 bytes. 0 for `between` interrupts every call.
    pub fn new(bytes: Vec<u8>, most: usize, between: u64, left: u64) -> FlakyFile
        requires { length bytes.items < 2 ^ 32 }
        ensures { (result.content ≡ bytes) × (result.most ≡ most) × (result.between ≡ between)
            × (result.before ≡ between) × (result.left ≡ left) × (result.written_at ≡ 0)
            × (result.written_len ≡ 0) }
    {
        FlakyFile {
            content: bytes,
            most,
            between,
            before: between,
            left,
            written_at: 0,
            written_len: 0,
        }
    }

    /// Returns the content.
    pub fn bytes(&self) -> &[u8]
        ensures { result.now ≡ self.now.content.items }
    {
        self.content.as_slice()
    }

    /// Counts a call, or returns its fault.
    fn begin(&mut self) -> Result<(), StorageFault>
        ensures refused { self.old.left ≡ 0
            → (result ≡ Err StorageFault.Failed) × (self.new ≡ self.old) }
        ensures interrupted { 0 < self.old.left → self.old.before ≡ 0
            → (result ≡ Err StorageFault.Interrupted)
            × (self.new ≡ record self.old { left = self.old.left - 1; before = self.old.between }) }
        ensures made { 0 < self.old.left → 0 < self.old.before → IsOk result × (self.new
            ≡ record self.old { left = self.old.left - 1; before = self.old.before - 1 }) }
        ensures same { self.new
            ≡ record self.old { left = self.new.left; before = self.new.before } }
    {
        if self.left == 0 {
            return Err(StorageFault::Failed);
        }
        self.left -= 1;
        if self.before == 0 {
            self.before = self.between;
            return Err(StorageFault::Interrupted);
        }
        self.before -= 1;
        Ok(())
    }

    fn replace(&mut self, at: u64, bytes: &[u8])
        requires { at + length bytes.now ≤ length self.old.content.items }
        ensures content { self.new.content.items
            ≡ overwritten self.old.content.items at bytes.now }
        ensures range { (self.new.written_at ≡ at) × (self.new.written_len ≡ length bytes.now) }
    {
        let _below = self.len();
        let start = at as usize;
        let end = start + bytes.len();
        self.content[start..end].copy_from_slice(bytes);
        self.written_at = at;
        self.written_len = bytes.len();
    }

    fn moved(&self, at: u64, bytes: &[u8]) -> usize
        ensures some { result ≤ length bytes.now }
        ensures all { length bytes.now ≤ HEADER_LENGTH → self.now.written_at ≡ at
            → self.now.written_len ≡ length bytes.now → result ≡ length bytes.now }
    {
        let n = bytes.len();
        let has_room = self.written_at == at && self.written_len == n;
        if n <= HEADER_LENGTH && (has_room || is_in_one_block(at, n)) {
            n
        } else {
            n.min(self.most)
        }
    }
}

fn is_in_one_block(at: u64, n: usize) -> bool {
    at % BLOCK <= BLOCK.saturating_sub(n as u64)
}

impl Storage for FlakyFile {
    ghost facts = { λ f. record {
      content = f.content.items;
      faithful = true;
      written_at = f.written_at;
      written_len = f.written_len;
    } };

    fn len(&self) -> u64 {
        self.content.len() as u64
    }

    fn read_some(&mut self, at: u64, out: &mut [u8]) -> Result<usize, StorageFault> {
        self.begin()?;
        let start = at as usize;
        let n = out.len().min(self.most);
        out[..n].copy_from_slice(&self.content[start..start + n]);
        Ok(n)
    }

    fn write_some(&mut self, at: u64, bytes: &[u8]) -> Result<usize, StorageFault> {
        self.begin()?;
        let n = self.moved(at, bytes);
        self.replace(at, &bytes[..n]);
        Ok(n)
    }
}
