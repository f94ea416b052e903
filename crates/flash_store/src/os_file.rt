//! System files, by single system calls.
ghost use Rattle.std.specs.Prelude.{◌≡◌, ◌≢◌, Ok, Err, IfOk, IfErr, length};
ghost use Rattle.std.specs.IoError.{error_kind};

use crate::file_identity::{FileIdentity, FileKind};
use crate::open_fault::{OpenFault, checked_length};
use crate::standard_descriptors::open_beside_standard;
use crate::storage::{Storage, StorageFault};
use std::fs::{File, Metadata, OpenOptions};
use std::io::{self, ErrorKind, Seek, SeekFrom};
use std::marker::Model;
use std::os::unix::fs::FileExt;
use std::rt::Files;
use std::snapshot::Snapshot;

/// A system file with its length on opening. Truncated bytes read as no bytes.
#[derive(Drop)]
pub struct OsFile {
    file: File,
    len: u32,
    kind: FileKind,
    identity: FileIdentity,
    faithful: Snapshot<bool>,
}

impl Model for OsFile {
    ghost use Rattle.std.specs.Prelude.{◌≡◌, replicate, false};
    ghost use Rattle.flash_store.specs.Files.{Stored};

    ghost Value = { Stored };

    // No clause of the kit relates a system file to bytes. So the content is zeros here, and the
    // file is unfaithful, which no contract states: clauses about faithful files hold for it by the
    // assumption that a call does what it returns.
    ghost view = { λ f. record {
      content = replicate f.len 0;
      faithful = f.faithful.value;
      written_at = 0;
      written_len = 0;
    } };

    ghost invariant = { λ f. f.faithful.value ≡ false };
}

/// The lock of an open file.
#[derive(Clone, Copy, Debug, PartialEq, Eq, Drop)]
pub enum Lock {
    /// For commands which only read.
    Shared,
    /// Excludes all other locks.
    Exclusive,
}

impl Lock {
    /// Waits for the lock, if the file system has locks.
    fn take(self, file: &File) -> io::Result<()> {
        let answer = match self {
            Lock::Shared => file.lock_shared(),
            Lock::Exclusive => file.lock(),
        };
        match answer {
            Err(fault) if tells_no_locks(&fault) => Ok(()),
            other => other,
        }
    }
}

impl OsFile {
    /// Opens a file for reading and writing with a lock.
    pub fn open<R: Files<File = File>>(
        rt: &R,
        path: &str,
        lock: Lock,
    ) -> Result<OsFile, OpenFault> {
        open_locked(rt, Access::Change, path, lock)?.with_all()
    }

    /// Creates or truncates a file for `size` bytes, after waiting for the lock.
    pub fn create<R: Files<File = File>>(rt: &R, path: &str, size: u32) -> Result<OsFile, OpenFault>
        ensures { IfOk result (λ file. length file.content ≡ size) }
    {
        let mut opened = open_locked(rt, Access::Create, path, Lock::Exclusive)?;
        if opened.metadata.is_file() {
            opened.file.set_len(0)?;
        } else if opened.len()? < size {
            return Err(OpenFault::Failed(ErrorKind::StorageFull));
        }
        Ok(Self::with_length(opened, size))
    }

    /// Opens a file for reading with a shared lock. Refuses a pipe or a directory.
    pub fn open_shared<R: Files<File = File>>(rt: &R, path: &str) -> Result<OsFile, OpenFault> {
        open_locked(rt, Access::Read, path, Lock::Shared)?.with_all()
    }

    /// Opens a regular file for reading. Refuses others: a pipe would wait for a writer. Refuses a
    /// file with bytes after its stated length, such as most files of `/proc`, which state 0.
    pub fn open_to_read<R: Files<File = File>>(rt: &R, path: &str) -> Result<OsFile, OpenFault> {
        if !rt.metadata(path)?.is_file() {
            return Err(OpenFault::Failed(ErrorKind::Unsupported));
        }
        let file = open_beside_standard(rt, OpenOptions::new().read(true), path)?;
        let metadata = file.metadata()?;
        if !metadata.is_file() {
            return Err(OpenFault::Failed(ErrorKind::Unsupported));
        }
        let len = checked_length(metadata.len())?;
        if !ends_at(&file, u64::from(len))? {
            return Err(OpenFault::Failed(ErrorKind::InvalidData));
        }
        Ok(Self::with_length(Opened { file, metadata }, len))
    }

    /// Releases the lock.
    pub fn unlock(&self) {
        let _given_back = self.file.unlock();
    }

    /// Returns the identity of the file.
    pub fn identity(&self) -> FileIdentity {
        self.identity
    }

    /// Waits until a block device has stored the written bytes, and returns the error. A regular
    /// file is not synced, because this would take longer than a command.
    pub fn write_back(&self) -> io::Result<()> {
        match self.kind {
            FileKind::BlockDevice => self.file.sync_data(),
            FileKind::Regular | FileKind::Directory | FileKind::Other => Ok(()),
        }
    }

    fn with_length(opened: Opened, len: u32) -> OsFile
        ensures { length result.content ≡ len }
    {
        let Opened { file, metadata } = opened;
        OsFile {
            file,
            len,
            kind: FileKind::of(&metadata),
            identity: FileIdentity::of(&metadata),
            faithful: Snapshot::of(&false),
        }
    }
}

/// The error number of a file system without locks.
const ENOLCK: i32 = 37;

fn tells_no_locks(fault: &io::Error) -> bool {
    fault.kind() == ErrorKind::Unsupported || fault.raw_os_error() == Some(ENOLCK)
}

#[derive(Clone, Copy, PartialEq, Eq)]
enum Access {
    Read,
    Change,
    Create,
}

impl Access {
    fn options(self) -> OpenOptions {
        let mut how = OpenOptions::new();
        how.read(true);
        match self {
            Access::Read => {}
            Access::Change => {
                how.write(true);
            }
            Access::Create => {
                how.write(true).create(true);
            }
        }
        how
    }
}

/// Refuses a path that is neither a regular file nor a block device, before it is opened: a pipe
/// waits for a writer, the length of a directory depends on the file system, and the opening of a
/// character device can have effects. `Create` makes a missing file.
fn check_path<R: Files<File = File>>(rt: &R, access: Access, path: &str) -> Result<(), OpenFault> {
    match rt.metadata(path) {
        Ok(metadata) => FileKind::of(&metadata).check_image(),
        Err(fault) if access == Access::Create && fault.kind() == ErrorKind::NotFound => Ok(()),
        Err(fault) => Err(OpenFault::from(fault)),
    }
}

/// Returns true if a file has no byte from `at` on.
fn ends_at(file: &File, at: u64) -> Result<bool, StorageFault> {
    let mut next = [0; 1];
    for _ in 0..OPENINGS {
        match moved(file.read_at(&mut next, at)) {
            Ok(n) => return Ok(n == 0),
            Err(StorageFault::Failed) => return Err(StorageFault::Failed),
            Err(StorageFault::Interrupted) => {}
        }
    }
    Err(StorageFault::Interrupted)
}

/// The maximum number of attempts.
const OPENINGS: u32 = 1000;

/// Opens a file and waits for the lock, again if another file was moved to the path: a change of
/// the old file would be lost.
fn open_locked<R: Files<File = File>>(
    rt: &R,
    access: Access,
    path: &str,
    lock: Lock,
) -> Result<Opened, OpenFault> {
    let how = access.options();
    for _ in 0..OPENINGS {
        check_path(rt, access, path)?;
        let file = open_beside_standard(rt, &how, path)?;
        lock.take(&file)?;
        let opened = Opened {
            metadata: file.metadata()?,
            file,
        };
        FileKind::of(&opened.metadata).check_image()?;
        if opened.is_at(rt, path)? {
            return Ok(opened);
        }
    }
    Err(OpenFault::Failed(ErrorKind::ResourceBusy))
}

#[derive(Drop)]
struct Opened {
    file: File,
    metadata: Metadata,
}

impl Opened {
    /// Returns true if the path refers to the open file.
    fn is_at<R: Files<File = File>>(&self, rt: &R, path: &str) -> io::Result<bool> {
        let there = match rt.metadata(path) {
            Err(fault) if fault.kind() == ErrorKind::NotFound => return Ok(false),
            answer => answer?,
        };
        Ok(FileIdentity::of(&self.metadata).is(FileIdentity::of(&there)))
    }

    /// Returns the length from the metadata, or a block device's from a seek. Refuses files without
    /// a length.
    fn len(&mut self) -> Result<u32, OpenFault> {
        if self.metadata.is_file() {
            return checked_length(self.metadata.len());
        }
        checked_length(self.file.seek(SeekFrom::End(0))?)
    }

    fn with_all(mut self) -> Result<OsFile, OpenFault> {
        let len = self.len()?;
        Ok(OsFile::with_length(self, len))
    }
}

fn moved(answer: io::Result<usize>) -> Result<usize, StorageFault>
    ensures count { IfOk answer (λ n. result ≡ Ok n) }
    ensures interrupted { IfErr answer (λ fault. error_kind fault ≡ ErrorKind.Interrupted
        → result ≡ Err StorageFault.Interrupted) }
    ensures failed { IfErr answer (λ fault. error_kind fault ≢ ErrorKind.Interrupted
        → result ≡ Err StorageFault.Failed) }
{
    match answer {
        Ok(n) => Ok(n),
        Err(fault) if fault.kind() == ErrorKind::Interrupted => Err(StorageFault::Interrupted),
        Err(_) => Err(StorageFault::Failed),
    }
}

impl Storage for OsFile {
    ghost facts = { λ f. f };

    fn len(&self) -> u64 {
        u64::from(self.len)
    }

    fn read_some(&mut self, at: u64, out: &mut [u8]) -> Result<usize, StorageFault> {
        let answer = self.file.read_at(out, at);
        moved(answer)
    }

    fn write_some(&mut self, at: u64, bytes: &[u8]) -> Result<usize, StorageFault> {
        let answer = self.file.write_at(bytes, at);
        moved(answer)
    }
}
