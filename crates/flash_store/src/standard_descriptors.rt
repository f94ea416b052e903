//! Files besides a program's standard descriptors.
use std::fs::{File, OpenOptions};
use std::io;
use std::os::fd::{AsRawFd, IntoRawFd};
use std::rt::Files;

/// The first descriptor after the standard descriptors.
const STANDARD: i32 = 3;

/// Opens a file above the standard descriptors.
///
/// If a standard descriptor is closed, the file could receive its number, and the program's output.
/// The function then opens the root directory in its place, and the file again. Output to the
/// directory is an error.
pub fn open_beside_standard<R: Files<File = File>>(
    rt: &R,
    how: &OpenOptions,
    path: &str,
) -> io::Result<File> {
    let file = how.open(rt, path)?;
    if file.as_raw_fd() >= STANDARD {
        return Ok(file);
    }
    drop(file);
    open_standard(rt)?;
    how.open(rt, path)
}

fn open_standard<R: Files<File = File>>(rt: &R) -> io::Result<()> {
    for _ in 0..STANDARD {
        let file = open_for_nothing(rt)?;
        if file.as_raw_fd() >= STANDARD {
            return Ok(());
        }
        let _kept_open = file.into_raw_fd();
    }
    Ok(())
}

/// Opens the root directory, or the null device if the system refuses.
fn open_for_nothing<R: Files<File = File>>(rt: &R) -> io::Result<File> {
    match OpenOptions::new().read(true).open(rt, "/") {
        Ok(file) => Ok(file),
        Err(_) => OpenOptions::new().read(true).open(rt, "/dev/null"),
    }
}
