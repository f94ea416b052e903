//! A file with read-ahead.
ghost use Rattle.std.specs.Prelude.{◌≡◌, ◌≤◌, IsTrue, length, take, drop};
ghost use Rattle.flash_store.specs.Files.{SameBytes};

use crate::storage::{Storage, StorageFault};
use crate::transfer::read_front;
use std::marker::Model;

/// The window size in bytes.
const AHEAD: usize = 16384;

/// The maximum distance from the last read's end: back for bytes across the end, ahead for skipped
/// contents.
const NEAR: u64 = 4096;

/// A file with a window for sequential reads; other reads request only their own bytes.
#[derive(Drop)]
pub struct ReadAhead<S: Storage> {
    storage: S,
    window: [u8; AHEAD],
    from: u64,
    to: u64,
    next: u64,
}

impl<S: Storage> Model for ReadAhead<S> {
    ghost use Rattle.std.specs.Prelude.{◌≡◌, ◌-◌, ◌≤◌, take, drop, IsTrue};
    ghost use Rattle.flash_store.specs.Files.{Stored};

    ghost Value = { Stored };

    ghost view = { λ f. S.facts f.storage };

    ghost invariant = { λ f. (f.from ≤ f.to) × (f.to - f.from ≤ 16384)
        × (IsTrue (S.facts f.storage).faithful → take (f.to - f.from) f.window
        ≡ take (f.to - f.from) (drop f.from (S.facts f.storage).content)) };
}

impl<S: Storage> ReadAhead<S> {
    /// Returns a file with an empty window.
    pub fn new(storage: S) -> ReadAhead<S>
        ensures { result ≡ S.facts storage }
    {
        ReadAhead {
            storage,
            window: [0; AHEAD],
            from: 0,
            to: 0,
            next: u64::MAX,
        }
    }

    /// Returns the file.
    pub fn into_inner(self) -> S
        ensures { S.facts result ≡ self }
    {
        let ReadAhead { storage, .. } = self;
        storage
    }

    /// Returns the file.
    pub fn storage(&self) -> &S {
        &self.storage
    }

    fn held_from(&self, at: u64) -> &[u8]
        ensures { IsTrue self.now.faithful
            → result.now ≡ take (length result.now) (drop at self.now.content) }
    {
        if at < self.from || at > self.to {
            return &[];
        }
        &self.window[(at - self.from) as usize..(self.to - self.from) as usize]
    }

    fn fill(&mut self, at: u64) -> Result<(), StorageFault>
        requires { at ≤ length self.old.content }
        ensures { SameBytes self.old self.new }
    {
        self.from = at;
        self.to = at;
        let left = self.storage.len() - at;
        let n = left.min(AHEAD as u64) as usize;
        let held = read_front(&mut self.storage, at, &mut self.window, n)?;
        self.to += held as u64;
        Ok(())
    }
}

fn copy_first(bytes: &[u8], out: &mut [u8]) -> usize
    ensures fits { result ≤ length out.old }
    ensures there { result ≤ length bytes.now }
    ensures copied { take result out.new ≡ take result bytes.now }
{
    let n = bytes.len().min(out.len());
    out[..n].copy_from_slice(&bytes[..n]);
    n
}

impl<S: Storage> Storage for ReadAhead<S> {
    ghost facts = { λ f. f };

    fn len(&self) -> u64 {
        self.storage.len()
    }

    fn read_some(&mut self, at: u64, out: &mut [u8]) -> Result<usize, StorageFault> {
        if self.held_from(at).is_empty() {
            if at.abs_diff(self.next) > NEAR {
                self.next = at.wrapping_add(out.len() as u64);
                return self.storage.read_some(at, out);
            }
            self.fill(at)?;
        }
        let n = copy_first(self.held_from(at), out);
        self.next = at.wrapping_add(n as u64);
        Ok(n)
    }

    fn write_some(&mut self, at: u64, bytes: &[u8]) -> Result<usize, StorageFault> {
        self.to = self.from;
        self.storage.write_some(at, bytes)
    }
}
