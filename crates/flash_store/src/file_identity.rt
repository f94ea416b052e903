//! The kind and the identity of a file.
ghost use Rattle.std.specs.Prelude.{◌≡◌, ◌↔◌, IsTrue, Ok, Err};

use crate::open_fault::OpenFault;
use std::fs::Metadata;
use std::io::ErrorKind;
use std::os::unix::fs::{FileTypeExt, MetadataExt};

/// The kind of a file, after symbolic links.
#[derive(Clone, Copy, Debug, PartialEq, Eq, Drop)]
pub enum FileKind {
    Regular,
    BlockDevice,
    Directory,
    /// A pipe, a socket, or a character device such as a terminal.
    Other,
}

impl FileKind {
    /// Returns the kind by the metadata of the system.
    pub fn of(metadata: &Metadata) -> FileKind {
        let kind = metadata.file_type();
        if kind.is_file() {
            FileKind::Regular
        } else if kind.is_block_device() {
            FileKind::BlockDevice
        } else if kind.is_dir() {
            FileKind::Directory
        } else {
            FileKind::Other
        }
    }

    /// Refuses an image that is neither a regular file nor a block device.
    pub fn check_image(self) -> Result<(), OpenFault>
        ensures regular { self ≡ FileKind.Regular → result ≡ Ok tt }
        ensures block_device { self ≡ FileKind.BlockDevice → result ≡ Ok tt }
        ensures directory { self ≡ FileKind.Directory
            → result ≡ Err (OpenFault.Failed ErrorKind.IsADirectory) }
        ensures other { self ≡ FileKind.Other
            → result ≡ Err (OpenFault.Failed ErrorKind.Unsupported) }
    {
        match self {
            FileKind::Regular | FileKind::BlockDevice => Ok(()),
            FileKind::Directory => Err(OpenFault::Failed(ErrorKind::IsADirectory)),
            FileKind::Other => Err(OpenFault::Failed(ErrorKind::Unsupported)),
        }
    }
}

/// The identity of a file: its file system, and its number in this file system.
#[derive(Clone, Copy, Debug, PartialEq, Eq, Drop)]
pub struct FileIdentity {
    pub device: u64,
    pub inode: u64,
}

impl FileIdentity {
    /// Returns the identity by the metadata of the system.
    pub fn of(metadata: &Metadata) -> FileIdentity {
        FileIdentity {
            device: metadata.dev(),
            inode: metadata.ino(),
        }
    }

    /// Returns true for the same file.
    pub fn is(self, other: FileIdentity) -> bool
        ensures { IsTrue result ↔ (self ≡ other) }
    {
        self.device == other.device && self.inode == other.inode
    }
}
