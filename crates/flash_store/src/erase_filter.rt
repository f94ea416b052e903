//! A file with a known erased range.
ghost use Rattle.std.specs.Prelude.{◌≡◌, ◌⊎◌, ◌+◌, ◌<◌, ◌≤◌, IfOk, IsTrue, length, replicate, slice_range};
ghost use Rattle.flash_store.specs.Files.{SameFile, SameBytes, IsErased};

use crate::storage::{Storage, StorageFault};
use crate::transfer::{read_front, write_whole};
use flash_device::PIECE;
use flash_format::HEADER_LENGTH;
use std::marker::Model;

/// The length of a write to a new file.
const MANY: usize = 65536;

/// The maximum length of a look: a read before a write of 0xff.
const LOOK: usize = 16384;

/// The number of writes without a look, after an unsuccessful look.
const UNSEEN: u32 = 15;

const ERASED: [u8; MANY] = [0xff; MANY];

/// A file with a known range of 0xff.
///
/// A write of 0xff in the range needs no call; elsewhere, a look precedes the write, except after
/// an unsuccessful look. A write of at most a header's length is always performed, to reserve
/// space.
#[derive(Drop)]
pub struct EraseFilter<S: Storage> {
    storage: S,
    from: u64,
    to: u64,
    look: usize,
    unseen: u32,
}

impl<S: Storage> Model for EraseFilter<S> {
    ghost use Rattle.std.specs.Prelude.{◌≤◌, length, IsTrue};
    ghost use Rattle.flash_store.specs.Files.{Stored, IsErased};

    ghost Value = { Stored };

    ghost view = { λ f. S.facts f.storage };

    ghost invariant = { λ f. (f.from ≤ f.to) × (f.to ≤ length (S.facts f.storage).content) × (IsTrue
        (S.facts f.storage).faithful → IsErased f.from f.to (S.facts f.storage).content) };
}

impl<S: Storage> EraseFilter<S> {
    /// Returns a filter that knows no erased range.
    pub fn new(storage: S) -> EraseFilter<S>
        ensures { result ≡ S.facts storage }
    {
        EraseFilter {
            storage,
            from: 0,
            to: 0,
            look: PIECE,
            unseen: 0,
        }
    }

    /// Writes 0xff over the whole file.
    pub fn erase(mut storage: S) -> Result<EraseFilter<S>, StorageFault>
        ensures same { IfOk result (λ file. SameFile (S.facts storage) file) }
        ensures erased { IfOk result (λ file. IsTrue file.faithful
            → file.content ≡ replicate (length file.content) 0xff) }
    {
        let to = storage.len();
        let mut at = 0;
        while at < to {
            let n = (to - at).min(MANY as u64);
            write_whole(&mut storage, at, &ERASED[..n as usize])?;
            at += n;
        }
        Ok(EraseFilter {
            storage,
            from: 0,
            to,
            look: PIECE,
            unseen: 0,
        })
    }

    /// Returns the file.
    pub fn into_inner(self) -> S
        ensures { S.facts result ≡ self }
    {
        let EraseFilter { storage, .. } = self;
        storage
    }

    /// Returns the file.
    pub fn storage(&self) -> &S {
        &self.storage
    }

    /// Returns true after a look with only 0xff, which becomes the known range. Successful looks
    /// become longer; after an unsuccessful look, the next writes have no look.
    fn looks_erased(&mut self, at: u64, bytes: &[u8]) -> bool
        requires { at + length bytes.now ≤ length self.old.content }

        ensures after { SameBytes self.old self.new }
        ensures same { IsTrue result → IsTrue self.old.faithful
            → slice_range self.old.content at (at + length bytes.now) ≡ bytes.now }
        ensures long { IsTrue result → HEADER_LENGTH < length bytes.now }
    {
        if bytes.len() <= HEADER_LENGTH || bytes.len() > MANY || !is_erased(bytes) {
            return false;
        }
        if self.unseen > 0 {
            self.unseen -= 1;
            return false;
        }
        let to = erased_up_to(&mut self.storage, at, self.look);
        if to - at < bytes.len() as u64 {
            self.look = PIECE;
            self.unseen = UNSEEN;
            return false;
        }
        self.from = at;
        self.to = to;
        self.look = self.look.saturating_mul(4);
        self.has(at, bytes)
    }

    fn has(&self, at: u64, bytes: &[u8]) -> bool
        ensures same { IsTrue result → IsTrue self.now.faithful
            → slice_range self.now.content at (at + length bytes.now) ≡ bytes.now }
        ensures long { IsTrue result → HEADER_LENGTH < length bytes.now }
    {
        let n = bytes.len();
        if at < self.from || at > self.to || n as u64 > self.to - at {
            return false;
        }
        n > HEADER_LENGTH && n <= MANY && is_erased(bytes)
    }
}

/// Reads up to `look` bytes, and returns their end if all are 0xff.
fn erased_up_to<S: Storage>(storage: &mut S, at: u64, look: usize) -> u64
    requires { at ≤ length (S.facts storage.old).content }

    ensures after { SameBytes (S.facts storage.old) (S.facts storage.new) }
    ensures inside { (at ≤ result) × (result ≤ length (S.facts storage.old).content) }
    ensures erased { IsTrue (S.facts storage.old).faithful
        → IsErased at result (S.facts storage.old).content }
{
    let mut seen = [0; LOOK];
    let n = (storage.len() - at).min(look.min(LOOK) as u64) as usize;
    let k = read_front(storage, at, &mut seen, n).unwrap_or(0);
    if is_erased(&seen[..k]) {
        at + k as u64
    } else {
        at
    }
}

fn is_erased(bytes: &[u8]) -> bool
    requires { length bytes.now ≤ MANY }
    ensures { IsTrue result → bytes.now ≡ replicate (length bytes.now) 0xff }
{
    bytes == &ERASED[..bytes.len()]
}

fn longer_rest(from: u64, to: u64, at: u64, end: u64) -> (u64, u64)
    requires stretch { from ≤ to }
    requires range { at ≤ end }

    ensures inside { (from ≤ result.0) × (result.0 ≤ result.1) × (result.1 ≤ to) }
    ensures apart { (result.0 ≡ result.1) ⊎ (result.1 ≤ at) ⊎ (end ≤ result.0) }
{
    let before = to.min(at).saturating_sub(from);
    let behind = to.saturating_sub(from.max(end));
    if before < behind {
        (to - behind, to)
    } else {
        (from, from + before)
    }
}

impl<S: Storage> Storage for EraseFilter<S> {
    ghost facts = { λ f. f };

    fn len(&self) -> u64 {
        self.storage.len()
    }

    fn read_some(&mut self, at: u64, out: &mut [u8]) -> Result<usize, StorageFault> {
        self.storage.read_some(at, out)
    }

    fn write_some(&mut self, at: u64, bytes: &[u8]) -> Result<usize, StorageFault> {
        if self.has(at, bytes) {
            return Ok(bytes.len());
        }
        if self.looks_erased(at, bytes) {
            return Ok(bytes.len());
        }
        let _below = self.storage.len();
        let (from, to) = longer_rest(self.from, self.to, at, at + bytes.len() as u64);
        self.from = from;
        self.to = to;
        self.storage.write_some(at, bytes)
    }
}
