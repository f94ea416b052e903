//! Complete transfers by repeated file calls, with device contracts.
ghost use Rattle.std.specs.Prelude.{◌≡◌, ◌+◌, ◌<◌, ◌≤◌, length, IfOk, OnOk, IsTrue};
ghost use Rattle.flash_device.specs.Device.{OneRead, OneWrite, OneCommit, refusals};
ghost use Rattle.flash_device.specs.Pages.{Returns};
ghost use Rattle.flash_store.specs.Files.{
  stored_device,
  SameFile,
  IsReserved,
  HasReadSome,
  HasWrittenSome,
};

use crate::storage::{Storage, StorageFault};
use flash_format::HEADER_LENGTH;

/// The maximum number of consecutive interrupted calls.
const TRIES: u32 = 1000;

/// Reads at most `n` bytes from `at` on into the front of `out`, by one call. Returns their number.
pub fn read_front<S: Storage>(
    storage: &mut S,
    at: u64,
    out: &mut [u8],
    n: usize,
) -> Result<usize, StorageFault>
    requires inside { at + n ≤ length (S.facts storage.old).content }
    requires room { n ≤ length out.old }

    ensures { HasReadSome at n (S.facts storage.old) (S.facts storage.new) result out.new }
{
    storage.read_some(at, &mut out[..n])
}

/// Reads a nonempty prefix, and repeats interrupted calls.
fn read_again<S: Storage>(storage: &mut S, at: u64, out: &mut [u8]) -> Result<usize, StorageFault>
    requires { at + length out.old ≤ length (S.facts storage.old).content }

    ensures after { HasReadSome at (length out.old) (S.facts storage.old) (S.facts storage.new)
        result out.new }
    ensures moved { IfOk result (λ n. 0 < n) }
{
    for _ in 0..TRIES {
        match storage.read_some(at, out) {
            Ok(0) | Err(StorageFault::Failed) => return Err(StorageFault::Failed),
            Ok(n) => return Ok(n),
            Err(StorageFault::Interrupted) => {}
        }
    }
    Err(StorageFault::Interrupted)
}

/// Writes a nonempty prefix, and repeats interrupted calls.
fn write_again<S: Storage>(storage: &mut S, at: u64, bytes: &[u8]) -> Result<usize, StorageFault>
    requires { at + length bytes.now ≤ length (S.facts storage.old).content }

    ensures after { HasWrittenSome at bytes.now (S.facts storage.old) (S.facts storage.new) result }
    ensures moved { IfOk result (λ n. 0 < n) }
{
    for _ in 0..TRIES {
        match storage.write_some(at, bytes) {
            Ok(0) | Err(StorageFault::Failed) => return Err(StorageFault::Failed),
            Ok(n) => return Ok(n),
            Err(StorageFault::Interrupted) => {}
        }
    }
    Err(StorageFault::Interrupted)
}

/// Reads all bytes. After a fault, `out` is unspecified.
pub fn read_whole<S: Storage>(storage: &mut S, at: u64, out: &mut [u8]) -> Result<(), StorageFault>
    requires { at + length out.old ≤ length (S.facts storage.old).content }

    ensures { OneRead at (length out.old) (stored_device (S.facts storage.old) 0 0)
        (stored_device (S.facts storage.new) 1 (refusals result)) result out.new }
{
    let _below = storage.len();
    let mut done = 0;
    while done < out.len() {
        done += read_again(storage, at + done as u64, &mut out[done..])?;
    }
    Ok(())
}

/// Writes all bytes. After a fault, the range is unspecified.
pub fn write_whole<S: Storage>(storage: &mut S, at: u64, bytes: &[u8]) -> Result<(), StorageFault>
    requires { at + length bytes.now ≤ length (S.facts storage.old).content }

    ensures { OneWrite at bytes.now (stored_device (S.facts storage.old) 0 0)
        (stored_device (S.facts storage.new) 1 (refusals result)) result }
{
    let _below = storage.len();
    let mut done = 0;
    while done < bytes.len() {
        done += write_again(storage, at + done as u64, &bytes[done..])?;
    }
    Ok(())
}

/// Writes a header in one call, and returns its length. A short call is a fault.
fn write_in_one<S: Storage>(
    storage: &mut S,
    at: u64,
    bytes: &[u8; HEADER_LENGTH],
) -> Result<usize, StorageFault>
    requires { at + length bytes.now ≤ length (S.facts storage.old).content }

    ensures after { HasWrittenSome at bytes.now (S.facts storage.old) (S.facts storage.new) result }
    ensures all { Returns result HEADER_LENGTH }
{
    let n = write_again(storage, at, bytes)?;
    if n < HEADER_LENGTH {
        return Err(StorageFault::Failed);
    }
    Ok(n)
}

/// Writes the present bytes again, so the next header write is atomic. If a full disk, a limit or a
/// hole refuses bytes, the write fails without a change.
fn make_room<S: Storage>(storage: &mut S, at: u64) -> Result<(), StorageFault>
    requires { at + HEADER_LENGTH ≤ length (S.facts storage.old).content }

    ensures after { SameFile (S.facts storage.old) (S.facts storage.new) }
    ensures same { IsTrue (S.facts storage.old).faithful
        → (S.facts storage.new).content ≡ (S.facts storage.old).content }
    ensures room { IsTrue (S.facts storage.old).faithful
        → OnOk result (IsReserved at HEADER_LENGTH (S.facts storage.new)) }
{
    let mut header = [0; HEADER_LENGTH];
    read_whole(storage, at, &mut header)?;
    write_in_one(storage, at, &header)?;
    Ok(())
}

/// Writes a header atomically.
pub fn write_once<S: Storage>(
    storage: &mut S,
    at: u64,
    bytes: &[u8; HEADER_LENGTH],
) -> Result<(), StorageFault>
    requires { at + length bytes.now ≤ length (S.facts storage.old).content }

    ensures { OneCommit at bytes.now (stored_device (S.facts storage.old) 0 0)
        (stored_device (S.facts storage.new) 1 (refusals result)) result }
{
    make_room(storage, at)?;
    write_in_one(storage, at, bytes)?;
    Ok(())
}
