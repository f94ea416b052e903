//! A source in memory.
ghost use Rattle.std.specs.Prelude.{◌≡◌, ◌+◌, ◌^◌, ◌<◌, length, true};

use crate::counter::Counter;
use crate::source::{Source, SourceFault};

/// An honest source without faults, over fewer than 2^32 bytes.
#[derive(Drop)]
pub struct MemSource<'a> {
    pub content: &'a [u8],
    pub calls: Counter,
    ghost small: { length content.now < 2 ^ 32 },
}

impl<'a> MemSource<'a> {
    /// Returns a source of these bytes, whose reads succeed.
    pub fn new(bytes: &'a [u8]) -> MemSource<'a>
        requires { length bytes.now < 2 ^ 32 }
        ensures { (result.content.now ≡ bytes.now) × (result.calls ≡ 0) }
    {
        MemSource {
            content: bytes,
            calls: Counter::new(),
        }
    }
}

impl<'a> Source for MemSource<'a> {
    ghost facts = { λ m.
        record { content = m.content.now; calls = m.calls; faults = 0; honest = true } };

    fn len(&self) -> u64 {
        self.content.len() as u64
    }

    fn read_at(&mut self, at: u64, out: &mut [u8]) -> Result<(), SourceFault> {
        self.calls.tick();
        let start = at as usize;
        let end = start + out.len();
        out.copy_from_slice(&self.content[start..end]);
        Ok(())
    }
}
