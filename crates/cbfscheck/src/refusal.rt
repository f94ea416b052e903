//! Refusals, their texts, and exit statuses.

ghost use Rattle.std.specs.Prelude.{◌≡◌, ◌++◌, IfOk, OnOk};
ghost use Rattle.std.specs.IoError.{error_kind};
ghost use Rattle.flash_store.specs.Files.{open_fault_of};
ghost use Rattle.cbfscheck.specs.Refusals.{file_text, message, of_line, of_opening, of_options};
ghost use Rattle.cbfscheck.specs.Refusals.{of_report, of_writing, path_text, refusal_text};
ghost use Rattle.cbfscheck.specs.Refusals.{status_of};
ghost use Rattle.cbfscheck.specs.declared.refusal.OptionsFault.TheVariants.{Unread};
ghost use Rattle.cbfscheck.specs.declared.refusal.Refusal.TheVariants.{Memory};

use check_line::{CheckLine, LineFault};
use check_report::{ReportFault, WriteFault};
use flash_store::OpenFault;
use quoted_text::push_shown;
use std::alloc::{AllocError, Global};
use std::io::{self, ErrorKind};

/// The fault of an image or of an option file.
#[derive(Clone, Copy, Debug, PartialEq, Eq)]
pub enum FileFault {
    NotFound,
    NoPermission,
    IsDirectory,
    Device,
    LargeImage,
    LargeOptions,
    OptionsNotUtf8,
}

impl FileFault {
    fn text(self) -> &'static str
        ensures { result.now ≡ file_text self }
    {
        match self {
            FileFault::NotFound => "No such file or directory",
            FileFault::NoPermission => "Permission denied",
            FileFault::IsDirectory => "Is a directory",
            FileFault::Device => "device fault",
            FileFault::LargeImage => "image too large",
            FileFault::LargeOptions => "option file larger than 64 KiB",
            FileFault::OptionsNotUtf8 => "option file is not UTF-8",
        }
    }
}

/// The reason for an option file without text.
#[derive(Clone, Copy, Debug, PartialEq, Eq, Drop)]
pub enum OptionsFault {
    /// A file that is not opened or read.
    Unread(OpenFault),
    /// More than 65536 bytes.
    TooLarge,
    NotUtf8,
}

impl From<io::Error> for OptionsFault {
    ghost from_gives = { λ error fault. fault ≡ Unread (open_fault_of (error_kind error)) };

    fn from(error: io::Error) -> OptionsFault {
        OptionsFault::Unread(OpenFault::from(error))
    }
}

/// The reason for exit status 2.
#[derive(Clone, Copy, Debug, PartialEq, Eq)]
pub enum Refusal<'a> {
    Line(LineFault<'a>),
    /// An argument that is not UTF-8.
    Words,
    Memory,
    Output,
    Random,
    File { path: &'a str, fault: FileFault },
}

impl<'a> From<LineFault<'a>> for Refusal<'a> {
    ghost from_gives = { λ fault refusal. refusal ≡ of_line fault };

    fn from(fault: LineFault<'a>) -> Refusal<'a> {
        match fault {
            LineFault::Memory => Refusal::Memory,
            LineFault::Word { .. }
            | LineFault::NoImage
            | LineFault::NoNewImage
            | LineFault::NestedFile { .. } => Refusal::Line(fault),
        }
    }
}

impl<'a> From<AllocError> for Refusal<'a> {
    ghost from_gives = { λ _ refusal. refusal ≡ Memory };

    fn from(_: AllocError) -> Refusal<'a> {
        Refusal::Memory
    }
}

impl<'a> From<WriteFault> for Refusal<'a> {
    ghost from_gives = { λ fault refusal. refusal ≡ of_writing fault };

    fn from(fault: WriteFault) -> Refusal<'a> {
        match fault {
            WriteFault::Memory => Refusal::Memory,
            WriteFault::Output => Refusal::Output,
        }
    }
}

fn push_path(out: &mut Vec<u8>, path: &str, fault: FileFault) -> Result<(), AllocError>
    ensures { OnOk result (out.new.items ≡ out.old.items ++ path_text path.now fault) }
{
    push_shown(out, path)?;
    out.extend_from_slice(b": ")?;
    out.extend_from_slice(fault.text().as_bytes())
}

impl<'a> Refusal<'a> {
    /// Returns the refusal of a file that is not opened.
    pub fn of_opening(path: &'a str, fault: OpenFault) -> Refusal<'a>
        ensures { result ≡ of_opening path.entry fault }
    {
        let fault = match fault {
            OpenFault::Memory => return Refusal::Memory,
            OpenFault::TooLarge => FileFault::LargeImage,
            OpenFault::Failed(ErrorKind::NotFound) => FileFault::NotFound,
            OpenFault::Failed(ErrorKind::PermissionDenied) => FileFault::NoPermission,
            OpenFault::Failed(ErrorKind::IsADirectory) => FileFault::IsDirectory,
            OpenFault::Failed(_) => FileFault::Device,
        };
        Refusal::File { path, fault }
    }

    /// Returns the refusal of an option file.
    pub fn of_options(path: &'a str, fault: OptionsFault) -> Refusal<'a>
        ensures { result ≡ of_options path.entry fault }
    {
        let fault = match fault {
            OptionsFault::Unread(fault) => return Refusal::of_opening(path, fault),
            OptionsFault::TooLarge => FileFault::LargeOptions,
            OptionsFault::NotUtf8 => FileFault::OptionsNotUtf8,
        };
        Refusal::File { path, fault }
    }

    /// Returns the refusal of an incomplete report. It names the image that could not be read.
    pub fn of_report(line: &CheckLine<'a>, fault: ReportFault) -> Refusal<'a>
        ensures { result ≡ of_report line.now fault }
    {
        let path = match fault {
            ReportFault::Memory => return Refusal::Memory,
            ReportFault::OldDevice => line.image,
            ReportFault::NewDevice => line.new_image.unwrap_or(line.image),
        };
        let fault = FileFault::Device;
        Refusal::File { path, fault }
    }

    fn push_text(&self, out: &mut Vec<u8>) -> Result<(), AllocError>
        ensures { OnOk result (out.new.items ≡ out.old.items ++ refusal_text self.now) }
    {
        match self {
            Refusal::Line(fault) => {
                fault.push_text(out)?;
                out.extend_from_slice(b" (see cbfscheck --help)")
            }
            Refusal::Words => out.extend_from_slice(b"an argument is not UTF-8"),
            Refusal::Memory => out.extend_from_slice(b"out of memory"),
            Refusal::Output => out.extend_from_slice(b"output fault"),
            Refusal::Random => out.extend_from_slice(b"no random numbers"),
            Refusal::File { path, fault } => push_path(out, path, *fault),
        }
    }

    /// Returns the line on standard error.
    pub fn message(&self, alloc: Global) -> Result<Vec<u8>, AllocError>
        ensures { IfOk result (λ text. text.items ≡ message self.now) }
    {
        let mut text = Vec::new(alloc);
        text.extend_from_slice(b"cbfscheck: ")?;
        self.push_text(&mut text)?;
        text.extend_from_slice(b"\n")?;
        Ok(text)
    }
}

/// Returns the exit status of a check, by whether a finding is bad, or of its refusal.
pub fn status_of(outcome: &Result<bool, Refusal<'_>>) -> u8
    ensures { result ≡ status_of outcome.now }
{
    match outcome {
        Ok(true) => 1,
        Ok(false) => 0,
        Err(_) => 2,
    }
}
