//! Files that another process replaces while they are opened.
use crate::support::equal;
use flash_store::{FileFlash, FileSource, Flash, OpenFault, Source};
use std::alloc::Allocator;
use std::cell::Cell;
use std::fs::{self, File, Metadata, OpenOptions};
use std::io::{self, ErrorKind};
use std::process::{self, Abort};
use std::rt::Files;

/// The first file has 10 bytes, and each further file 20.
const BYTES: [u8; 20] = *b"0123456789abcdefghij";

/// The file system, with a path that gets another file again and again. It counts openings.
#[derive(Drop)]
struct Moving<'a, R> {
    rt: &'a R,
    /// The path of the next file.
    next: &'a str,
    /// The replacements that are left, each after a look at the path.
    after_looks: Cell<u32>,
    /// The replacements that are left, each after an opening.
    after_openings: Cell<u32>,
    openings: Cell<u32>,
}

/// Moves the next file to the path, if a replacement is left.
fn replace<R: Files<File = File>>(
    rt: &R,
    left: &Cell<u32>,
    next: &str,
    path: &str,
) -> io::Result<()> {
    if left.get() == 0 {
        return Ok(());
    }
    left.set(left.get().saturating_sub(1));
    fs::write(rt, next, BYTES.as_slice())?;
    rt.rename(next, path)
}

impl<R: Files<File = File>> Files for Moving<'_, R> {
    type File = File;

    type Dir = R::Dir;

    fn open_file(&self, how: &OpenOptions, path: &str) -> io::Result<File> {
        self.openings.set(self.openings.get().saturating_add(1));
        let file = self.rt.open_file(how, path)?;
        replace(self.rt, &self.after_openings, self.next, path)?;
        Ok(file)
    }

    fn open_dir(&self, path: &str) -> io::Result<R::Dir> {
        self.rt.open_dir(path)
    }

    fn metadata(&self, path: &str) -> io::Result<Metadata> {
        let metadata = self.rt.metadata(path)?;
        replace(self.rt, &self.after_looks, self.next, path)?;
        Ok(metadata)
    }

    fn symlink_metadata(&self, path: &str) -> io::Result<Metadata> {
        self.rt.symlink_metadata(path)
    }

    fn copy(&self, from: &str, to: &str) -> io::Result<u64> {
        self.rt.copy(from, to)
    }

    fn rename(&self, from: &str, to: &str) -> io::Result<()> {
        self.rt.rename(from, to)
    }

    fn remove_file(&self, path: &str) -> io::Result<()> {
        self.rt.remove_file(path)
    }

    fn create_dir(&self, path: &str) -> io::Result<()> {
        self.rt.create_dir(path)
    }

    fn remove_dir(&self, path: &str) -> io::Result<()> {
        self.rt.remove_dir(path)
    }

    fn remove_dir_all<B: Allocator>(&self, alloc: B, path: &str) -> io::Result<()> {
        self.rt.remove_dir_all(alloc, path)
    }
}

/// The file that is opened, with the expected length or error.
#[derive(Clone, Copy)]
enum Opened {
    Source(Result<u64, OpenFault>),
    Image(Result<u64, OpenFault>),
}

fn source_len<R: Files<File = File>>(files: &R, path: &str) -> Result<u64, OpenFault> {
    Ok(FileSource::open(files, path)?.len())
}

fn image_len<R: Files<File = File>>(files: &R, path: &str) -> Result<u64, OpenFault> {
    Ok(FileFlash::open(files, path)?.len())
}

/// The replacements after looks at the path and after openings, and the expected openings.
#[derive(Clone, Copy)]
struct Counts {
    after_looks: u32,
    after_openings: u32,
    openings: u32,
}

fn opens<R: Files<File = File> + Abort>(rt: &R, paths: [&str; 2], counts: Counts, opened: Opened) {
    let [path, next] = paths;
    fs::write(rt, path, &BYTES[..10]).expect(rt, "a file");
    let files = Moving {
        rt,
        next,
        after_looks: Cell::new(counts.after_looks),
        after_openings: Cell::new(counts.after_openings),
        openings: Cell::new(0),
    };
    match opened {
        Opened::Source(expected) => equal(rt, &source_len(&files, path), &expected),
        Opened::Image(expected) => equal(rt, &image_len(&files, path), &expected),
    }
    equal(rt, &files.openings.get(), &counts.openings);
    drop(files);
    fs::remove_file(rt, path).expect(rt, "a file");
}

const fn made(after_looks: u32, after_openings: u32, openings: u32) -> Counts {
    Counts {
        after_looks,
        after_openings,
        openings,
    }
}

/// Returns a path, unique for each process.
fn path_of(rt: &(impl Abort + AllocGlobal), id: u32, name: &str) -> String {
    format!(in rt.alloc(); "library_tests_{id}_{name}").expect(rt, "memory")
}

/// A source has the length of the opened file: of the one before a replacement after the opening,
/// and of the one after a replacement before the opening.
#[test]
fn a_source_has_the_length_of_the_opened_file(rt: HostRuntime) {
    let id = process::id(rt.process());
    let path = path_of(&rt, id, "source");
    let next = path_of(&rt, id, "next_source");
    let paths = [path.as_str(), next.as_str()];
    opens(&rt, paths, made(0, 0, 1), Opened::Source(Ok(10)));
    opens(&rt, paths, made(0, 1, 1), Opened::Source(Ok(10)));
    opens(&rt, paths, made(1, 0, 1), Opened::Source(Ok(20)));
    drop(next);
    drop(path);
}

/// An image is opened again after each replacement, at most a thousand times.
#[test]
fn an_image_is_opened_a_thousand_times(rt: HostRuntime) {
    let id = process::id(rt.process());
    let path = path_of(&rt, id, "moved");
    let next = path_of(&rt, id, "next_moved");
    let paths = [path.as_str(), next.as_str()];
    let busy = OpenFault::Failed(ErrorKind::ResourceBusy);
    opens(&rt, paths, made(0, 0, 1), Opened::Image(Ok(10)));
    opens(&rt, paths, made(0, 1, 2), Opened::Image(Ok(20)));
    opens(&rt, paths, made(0, 999, 1000), Opened::Image(Ok(20)));
    opens(&rt, paths, made(0, 1000, 1000), Opened::Image(Err(busy)));
    drop(next);
    drop(path);
}
