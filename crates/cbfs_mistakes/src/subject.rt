//! The line that names the region, component or file of a refusal.

ghost use Rattle.std.specs.Prelude.{◌≡◌, ◌++◌, OnOk};
ghost use Rattle.cbfs_mistakes.specs.Subjects.{name_given, reason_text, region_text, subject};

use crate::message::{push_between, push_named};
use cbfs_line::Line;
use cbfs_requests::Refusal;
use std::alloc::AllocError;
use std::io::ErrorKind;

fn region_text(line: &Line<'_>) -> &'static str
    ensures { result.now ≡ region_text line.now }
{
    match line.subcommand() {
        "create" => "cbfstool: one of these is no area of the flash map: ",
        _ => "cbfstool: the flash map has no area ",
    }
}

fn name_of<'a>(line: &Line<'a>) -> &'a str
    ensures { result.now ≡ name_given line.now }
{
    line.option("name").unwrap_or("")
}

/// Returns the end of a line on a file that is not opened.
fn reason_text(reason: Option<ErrorKind>) -> &'static str
    ensures { result.now ≡ reason_text reason }
{
    match reason {
        Some(ErrorKind::NotFound) => ": No such file or directory\n",
        Some(ErrorKind::PermissionDenied) => ": Permission denied\n",
        Some(ErrorKind::IsADirectory) => ": Is a directory\n",
        _ => "\n",
    }
}

/// Appends the line that names the subject of a refusal: the image that cannot be opened, read or
/// written, the file that cannot be read, the region missing from the flash map, or the component
/// that is missing from the region or already exists. Other refusals have no line. `reason` is the
/// system's reason for an image or a file that is not opened.
pub fn push_subject(
    out: &mut Vec<u8>,
    line: &Line<'_>,
    refusal: Refusal,
    reason: Option<ErrorKind>,
) -> Result<(), AllocError>
    ensures { OnOk result
        (out.new.items ≡ out.old.items ++ subject line.now reason refusal) }
{
    let (region, name) = (line.regions(), name_of(line));
    match refusal {
        Refusal::Device => {
            let before = "cbfstool: fault of the image ";
            push_between(out, before, line.image(), reason_text(reason))
        }
        Refusal::Source => {
            let file = line.file().unwrap_or("");
            push_between(
                out,
                "cbfstool: fault of the file ",
                file,
                reason_text(reason),
            )
        }
        Refusal::NoRegion => push_between(out, region_text(line), region, "\n"),
        Refusal::NotFound => push_named(out, region, " has no component ", name),
        Refusal::Exists => push_named(out, region, " has a component ", name),
        _ => Ok(()),
    }
}
