//! A device in memory.
ghost use Rattle.std.specs.Prelude.{◌≡◌, ◌+◌, ◌^◌, ◌<◌, ◌≤◌, true, length, MatchResult, vec_len};
ghost use Rattle.flash_device.specs.Device.{overwritten};

use crate::counter::Counter;
use crate::flash::{COMMIT_LENGTH, Flash, FlashFault};

/// An honest device without faults, over fewer than 2^32 bytes.
#[derive(Drop)]
pub struct MemFlash {
    pub content: Vec<u8>,
    pub calls: Counter,
    ghost small: { length content.items < 2 ^ 32 },
}

impl MemFlash {
    /// Makes a device, or returns 2^32 bytes or more.
    pub fn new(bytes: Vec<u8>) -> Result<MemFlash, Vec<u8>>
        ensures { MatchResult result
            (λ device. (device.content ≡ bytes) × (device.calls ≡ 0))
            (λ back. (back ≡ bytes) × (2 ^ 32 ≤ vec_len bytes)) }
    {
        if bytes.len() >= 1 << 32 {
            return Err(bytes);
        }
        Ok(MemFlash {
            content: bytes,
            calls: Counter::new(),
        })
    }

    /// Returns the content.
    pub fn bytes(&self) -> &[u8]
        ensures { result.now ≡ self.now.content.items }
    {
        self.content.as_slice()
    }

    fn replace(&mut self, at: u64, bytes: &[u8])
        requires { at + length bytes.now ≤ length self.old.content.items }
        ensures content { self.new.content.items
            ≡ overwritten self.old.content.items at bytes.now }
        ensures calls { self.new.calls ≡ self.old.calls + 1 }
    {
        self.calls.tick();
        let start = at as usize;
        let end = start + bytes.len();
        self.content[start..end].copy_from_slice(bytes);
    }
}

impl Flash for MemFlash {
    ghost facts = { λ m.
        record { content = m.content.items; calls = m.calls; faults = 0; honest = true } };

    fn len(&self) -> u64 {
        self.content.len() as u64
    }

    fn read_at(&mut self, at: u64, out: &mut [u8]) -> Result<(), FlashFault> {
        self.calls.tick();
        let start = at as usize;
        let end = start + out.len();
        out.copy_from_slice(&self.content[start..end]);
        Ok(())
    }

    fn write_at(&mut self, at: u64, bytes: &[u8]) -> Result<(), FlashFault> {
        self.replace(at, bytes);
        Ok(())
    }

    fn commit_at(&mut self, at: u64, bytes: &[u8; COMMIT_LENGTH]) -> Result<(), FlashFault> {
        self.replace(at, bytes);
        Ok(())
    }
}
