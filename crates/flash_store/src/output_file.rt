//! The file of a command's output.
use crate::file_identity::{FileIdentity, FileKind};
use std::fs::{File, Metadata, OpenOptions};
use std::io::{self, ErrorKind};
use std::rt::Files;

/// Creates or empties the file of an output. Refuses the file that the command reads, and leaves it
/// unchanged: so the file is opened, compared, and only then emptied.
pub fn create_output<R: Files<File = File>>(
    rt: &R,
    path: &str,
    input: FileIdentity,
) -> io::Result<File> {
    let file = OpenOptions::new().write(true).create(true).open(rt, path)?;
    let metadata = metadata_of(&file)?;
    let kind = FileKind::of(&metadata);
    if kind.check_image().is_ok() && FileIdentity::of(&metadata).is(input) {
        return Err(io::Error::from(ErrorKind::ResourceBusy));
    }
    if kind == FileKind::Regular {
        file.set_len(0)?;
    }
    Ok(file)
}

/// The maximum number of consecutive interrupted calls.
const TRIES: u32 = 1000;

/// Returns what the system states of an open file. It repeats interrupted calls, because the file
/// may be new.
fn metadata_of(file: &File) -> io::Result<Metadata> {
    for _ in 0..TRIES {
        match file.metadata() {
            Err(fault) if fault.kind() == ErrorKind::Interrupted => {}
            answer => return answer,
        }
    }
    Err(io::Error::from(ErrorKind::Interrupted))
}
