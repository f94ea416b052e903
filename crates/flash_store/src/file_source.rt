//! A source in a system file.
ghost use Rattle.std.specs.Prelude.{◌≡◌, IfOk};

use crate::open_fault::OpenFault;
use crate::os_file::OsFile;
use crate::stored_source::StoredSource;
use std::fs::File;
use std::rt::Files;

/// A source in a file open for reading, assumed to be honest.
pub type FileSource = StoredSource<OsFile>;

impl StoredSource<OsFile> {
    /// Opens a regular file for reading. Errors: `Failed` for a missing, unreadable or other file;
    /// `TooLarge` from 2^32 bytes on.
    pub fn open<R: Files<File = File>>(rt: &R, path: &str) -> Result<FileSource, OpenFault>
        ensures { IfOk result (λ source. (source.calls ≡ 0) × (source.faults ≡ 0)) }
    {
        Ok(StoredSource::new(OsFile::open_to_read(rt, path)?))
    }
}
