//! Checks the flash map and file systems of an image, and lists the changes of a new image.
#![tactic(auto)]

mod option_files;
mod refusal;
mod request;
mod texts;

use check_line::whole_line;
pub use check_line::{CheckLine, Invocation, LineFault, read_check};
use check_report::WrittenReport;
pub use check_report::{Inspection, ReportFault, Request, inspect_change, inspect_image};
use flash_store::{FileFlash, Output, Paged, RepeatingSink};
use option_files::read_arguments;
use refusal::{Refusal, status_of};
use request::{Images, Screen, form_of, images_of, request_of};
use std::env;
use std::hash::RandomState;
use std::io::{self, ErrorKind, IsTerminal, Write};
use std::process::ExitCode;
use texts::{HELP, USAGE, VERSION};

fn open<'a>(rt: &HostRuntime, path: &'a str) -> Result<Paged<FileFlash>, Refusal<'a>> {
    let image = FileFlash::open_to_read(rt, path);
    Ok(Paged::new(image.map_err(|fault| Refusal::of_opening(path, fault))?))
}

/// Inspects the images, and closes them.
fn inspect<'a>(
    rt: &HostRuntime,
    line: &CheckLine<'a>,
    request: Request<'_>,
) -> Result<Inspection, Refusal<'a>> {
    let keys = RandomState::new(rt).map_err(|_| Refusal::Random)?;
    let inspection = match images_of(line) {
        Images::OldAndNew(old, new) => {
            let old_image = open(rt, old)?;
            let new_image = open(rt, new)?;
            let mut images = check_report::Images {
                old_image,
                new_image,
            };
            inspect_change(rt.alloc(), keys, &mut images, request)
        }
        Images::One(path) => inspect_image(rt.alloc(), keys, &mut open(rt, path)?, request),
    };
    inspection.map_err(|fault| Refusal::of_report(line, fault))
}

/// Prints the report, and returns whether a finding is bad. It prints after closing the images,
/// since a reader of the report may wait for their locks.
fn check<'a>(rt: &HostRuntime, line: &CheckLine<'a>) -> Result<bool, Refusal<'a>> {
    let no_color = env::var(rt, "NO_COLOR").ok();
    let term = env::var(rt, "TERM").ok();
    let screen = Screen {
        is_terminal: rt.stdout().is_terminal(),
        no_color: no_color.as_deref(),
        term: term.as_deref(),
    };
    let request = request_of(line, form_of(line, screen));
    let inspection = inspect(rt, line, request)?;
    let out = Output::new(rt.alloc(), RepeatingSink::new(io::writer(rt)));
    let WrittenReport { mut out, is_bad } = inspection.write(rt.alloc(), request, out);
    let is_bad = is_bad?;
    out.flush().map_err(|_| Refusal::Output)?;
    Ok(is_bad)
}

fn print<'a>(rt: &HostRuntime, text: &str) -> Result<bool, Refusal<'a>> {
    io::writer(rt)
        .write_all(text.as_bytes())
        .map_err(|_| Refusal::Output)?;
    Ok(false)
}

/// Returns the arguments after the program's name.
fn read_words<'a>(rt: &HostRuntime) -> Result<Vec<String>, Refusal<'a>> {
    match env::args(rt) {
        Ok(words) => Ok(words.skip(1).collect(rt.alloc())?),
        Err(fault) if fault.kind() == ErrorKind::OutOfMemory => Err(Refusal::Memory),
        Err(_) => Err(Refusal::Words),
    }
}

/// Performs the request, and returns whether a finding is bad.
fn obey<'a>(rt: &HostRuntime, words: &'a [&'a str]) -> Result<bool, Refusal<'a>> {
    match read_check(rt.alloc(), words)? {
        Invocation::Help => print(rt, HELP),
        Invocation::Version => print(rt, VERSION),
        Invocation::Check(line) => check(rt, &line),
    }
}

/// Prints the message of a refusal.
fn print_refusal(rt: &HostRuntime, refusal: &Refusal<'_>) {
    match refusal.message(rt.alloc()) {
        Ok(text) => {
            let _told = rt.stderr().write_all(&text);
        }
        Err(_) => {
            let _told = eprintln!(rt; "cbfscheck: out of memory");
        }
    }
}

/// Prints the message of a refusal, and returns the exit status.
fn finish(rt: &HostRuntime, outcome: &Result<bool, Refusal<'_>>) -> ExitCode {
    if let Err(refusal) = outcome {
        print_refusal(rt, refusal);
    }
    ExitCode::from(status_of(outcome))
}

/// Performs the request, or prints the usage without arguments. It reads the option files before it
/// reads the line. Returns the exit status.
fn answer_to(rt: &HostRuntime, words: &[String]) -> ExitCode {
    if words.is_empty() {
        let _told = eprint!(rt; "{USAGE}");
        return ExitCode::from(2);
    }
    let arguments = match read_arguments(rt, words) {
        Ok(arguments) => arguments,
        Err(refusal) => return finish(rt, &Err(refusal)),
    };
    match whole_line(rt.alloc(), &arguments) {
        Ok(line) => finish(rt, &obey(rt, &line)),
        Err(fault) => finish(rt, &Err(Refusal::from(fault))),
    }
}

fn main(rt: HostRuntime) -> ExitCode {
    match read_words(&rt) {
        Ok(words) => answer_to(&rt, &words),
        Err(refusal) => finish(&rt, &Err(refusal)),
    }
}
