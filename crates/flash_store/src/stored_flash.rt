//! A device in a file.
ghost use Rattle.std.specs.Prelude.{◌≡◌, ◌+◌, IsOk, IsErr, IsTrue, OnOk, OnErr, IfOk, length, replicate};
ghost use Rattle.flash_store.specs.Files.{stored_device};

use crate::erase_filter::EraseFilter;
use crate::file_identity::FileIdentity;
use crate::open_fault::OpenFault;
use crate::os_file::{Lock, OsFile};
use crate::read_ahead::ReadAhead;
use crate::storage::{Storage, StorageFault};
use crate::transfer::{read_whole, write_once, write_whole};
use flash_device::{Counter, Flash, FlashFault};
use flash_format::HEADER_LENGTH;
use std::fs::File;
use std::marker::Model;
use std::rt::Files;

/// A device in a file, honest exactly if the file is faithful.
#[derive(Drop)]
pub struct StoredFlash<S: Storage> {
    storage: S,
    calls: Counter,
    faults: Counter,
}

impl<S: Storage> Model for StoredFlash<S> {
    ghost use Rattle.flash_device.specs.Device.{Device};
    ghost use Rattle.flash_store.specs.Files.{stored_device};

    ghost Value = { Device };

    ghost view = { λ f. stored_device (S.facts f.storage) f.calls f.faults };
}

impl<S: Storage> StoredFlash<S> {
    /// Returns a device in this file, without calls.
    pub fn new(storage: S) -> StoredFlash<S>
        ensures { result ≡ stored_device (S.facts storage) 0 0 }
    {
        StoredFlash {
            storage,
            calls: Counter::new(),
            faults: Counter::new(),
        }
    }

    /// Returns the file.
    pub fn into_inner(self) -> S
        ensures content { (S.facts result).content ≡ self.content }
        ensures faithful { (S.facts result).faithful ≡ self.honest }
    {
        let StoredFlash { storage, .. } = self;
        storage
    }

    fn counted(&mut self, answer: Result<(), StorageFault>) -> Result<(), FlashFault>
        ensures passed { OnOk answer
            (IsOk result × (self.new ≡ record self.old { calls = self.old.calls + 1 })) }
        ensures refused { OnErr answer (IsErr result × (self.new
            ≡ record self.old { calls = self.old.calls + 1; faults = self.old.faults + 1 })) }
    {
        self.calls.tick();
        match answer {
            Ok(()) => Ok(()),
            Err(_) => {
                self.faults.tick();
                Err(FlashFault)
            }
        }
    }
}

impl<S: Storage> Flash for StoredFlash<S> {
    ghost facts = { λ f. f };

    fn len(&self) -> u64 {
        self.storage.len()
    }

    fn read_at(&mut self, at: u64, out: &mut [u8]) -> Result<(), FlashFault> {
        let answer = read_whole(&mut self.storage, at, out);
        self.counted(answer)
    }

    fn write_at(&mut self, at: u64, bytes: &[u8]) -> Result<(), FlashFault> {
        let answer = write_whole(&mut self.storage, at, bytes);
        self.counted(answer)
    }

    fn commit_at(&mut self, at: u64, bytes: &[u8; HEADER_LENGTH]) -> Result<(), FlashFault> {
        let answer = write_once(&mut self.storage, at, bytes);
        self.counted(answer)
    }
}

/// A device in a locked file. Dropping the device releases the lock.
///
/// The contract clauses for an honest device assume faithful system calls.
pub type FileFlash = StoredFlash<ReadAhead<EraseFilter<OsFile>>>;

impl StoredFlash<ReadAhead<EraseFilter<OsFile>>> {
    /// Opens a file for reading and writing, with an exclusive lock. Errors: `Failed` for a missing
    /// or inaccessible file, a directory, or a file without a length; `TooLarge` from 2^32 bytes
    /// on.
    pub fn open<R: Files<File = File>>(rt: &R, path: &str) -> Result<FileFlash, OpenFault>
        ensures { IfOk result (λ device. (device.calls ≡ 0) × (device.faults ≡ 0)) }
    {
        Self::open_with(rt, path, Lock::Exclusive)
    }

    /// Opens a file like `open`, with the given lock. A shared lock waits only for exclusive locks.
    pub fn open_with<R: Files<File = File>>(
        rt: &R,
        path: &str,
        lock: Lock,
    ) -> Result<FileFlash, OpenFault>
        ensures { IfOk result (λ device. (device.calls ≡ 0) × (device.faults ≡ 0)) }
    {
        Ok(device_in(EraseFilter::new(OsFile::open(rt, path, lock)?)))
    }

    /// Opens a file only for reading, with a shared lock. Writes fail. Errors are as in `open`.
    pub fn open_to_read<R: Files<File = File>>(rt: &R, path: &str) -> Result<FileFlash, OpenFault>
        ensures { IfOk result (λ device. (device.calls ≡ 0) × (device.faults ≡ 0)) }
    {
        Ok(device_in(EraseFilter::new(OsFile::open_shared(rt, path)?)))
    }

    /// Creates or truncates a file, waiting for its lock, and fills `size` bytes with 0xff. Errors:
    /// `Failed` if a call fails, or a block device has less space.
    pub fn create<R: Files<File = File>>(
        rt: &R,
        path: &str,
        size: u32,
    ) -> Result<FileFlash, OpenFault>
        ensures made { IfOk result (λ device.
            (device.calls ≡ 0) × (device.faults ≡ 0) × (length device.content ≡ size)) }
        ensures erased { IfOk result (λ device. IsTrue device.honest
            → device.content ≡ replicate size 0xff) }
    {
        let file = EraseFilter::erase(OsFile::create(rt, path, size)?)?;
        Ok(device_in(file))
    }

    /// Releases the lock. The caller makes no further calls.
    pub fn unlock(&self) {
        self.storage.storage().storage().unlock();
    }

    /// Returns the identity of the file.
    pub fn identity(&self) -> FileIdentity {
        self.storage.storage().storage().identity()
    }

    /// Waits until a block device has stored the written bytes. A regular file is not synced.
    pub fn write_back(&self) -> Result<(), FlashFault> {
        match self.storage.storage().storage().write_back() {
            Ok(()) => Ok(()),
            Err(_) => Err(FlashFault),
        }
    }
}

fn device_in(file: EraseFilter<OsFile>) -> FileFlash
    ensures { result ≡ stored_device file 0 0 }
{
    StoredFlash::new(ReadAhead::new(file))
}
