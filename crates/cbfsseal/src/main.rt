//! Renews the digests of an image with CBFS verification.
#![tactic(auto)]

mod texts;

use arrayvec::ArrayVec;
use cbfs_anchor::{SealFault, seal};
use flash_store::{FileFlash, Paged, program_words};
use seal_line::{
    Invocation, NAME_LEN, Refusal, SealLine, component_name, read_seal, refusal_of_words,
    report_text, status_of,
};
use std::io::{self, Write};
use std::process::ExitCode;
use texts::{HELP, USAGE, VERSION};

/// A refusal, and the printed name of the component that it concerns.
#[derive(Drop)]
struct Failure {
    refusal: Refusal,
    name: ArrayVec<u8, NAME_LEN>,
}

impl From<Refusal> for Failure {
    fn from(refusal: Refusal) -> Failure {
        Failure {
            refusal,
            name: ArrayVec::new(),
        }
    }
}

fn print(rt: &HostRuntime, text: &[u8]) -> Result<(), Failure> {
    let written = io::writer(rt).write_all(text);
    Ok(written.map_err(|_| Refusal::Output)?)
}

/// Seals an image, waits until a block device has stored the digests, and prints the report of
/// `-v`.
fn seal_image(rt: &HostRuntime, line: SealLine<'_>) -> Result<(), Failure> {
    let image = FileFlash::open(rt, line.image).map_err(Refusal::from)?;
    let mut paged = Paged::new(image);
    match seal(&mut paged, line.demand) {
        Ok(report) => {
            if paged.flash().write_back().is_err() {
                return Err(Failure::from(Refusal::Seal(SealFault::Device)));
            }
            if line.is_verbose {
                return print(rt, report_text(&report).as_slice());
            }
            Ok(())
        }
        Err(fault) => Err(Failure {
            refusal: Refusal::Seal(fault),
            name: component_name(&mut paged, fault),
        }),
    }
}

/// Prints the refusal, with the name of its component if there is one, and returns the exit status.
fn finish(rt: &HostRuntime, answer: Result<(), Failure>) -> ExitCode {
    let Err(Failure { refusal, name }) = answer else {
        return ExitCode::from(status_of(Ok(())));
    };
    let name = std::str::from_utf8(name.as_slice()).unwrap_or("");
    let _told = if name.is_empty() {
        eprintln!(rt; "cbfsseal: {refusal}")
    } else {
        eprintln!(rt; "cbfsseal: {refusal}: {name}")
    };
    ExitCode::from(status_of(Err(refusal)))
}

/// Performs the request of the arguments, and returns the exit status.
fn obey(rt: &HostRuntime, words: &[&str]) -> ExitCode {
    match read_seal(words) {
        Ok(Invocation::Usage) => {
            let _told = eprint!(rt; "{USAGE}");
            ExitCode::from(status_of(Err(Refusal::Usage)))
        }
        Ok(Invocation::Help) => finish(rt, print(rt, HELP.as_bytes())),
        Ok(Invocation::Version) => finish(rt, print(rt, VERSION.as_bytes())),
        Ok(Invocation::Seal(line)) => finish(rt, seal_image(rt, line)),
        Err(refusal) => finish(rt, Err(Failure::from(refusal))),
    }
}

fn main(rt: HostRuntime) -> ExitCode {
    let words = match program_words(&rt) {
        Ok(words) => words,
        Err(fault) => return finish(&rt, Err(Failure::from(refusal_of_words(&fault)))),
    };
    match words.iter().map(|word| word.as_str()).collect(rt.alloc()) {
        Ok(texts) => {
            let texts: Vec<&str> = texts;
            obey(&rt, texts.as_slice())
        }
        Err(fault) => finish(&rt, Err(Failure::from(Refusal::from(fault)))),
    }
}
