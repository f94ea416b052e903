//! Lists and changes the regions of a flash image, and makes new images, like coreboot's cbfstool.
#![tactic(auto)]

mod explanation;
mod session;

pub use cbfs_commands::{Command, Refusal, create_size, run};
use cbfs_commands::{MapNote, RegionNote};
pub use cbfs_line::{Line, read_line};
use cbfs_steps::{refusal_of_words, status_of};
use explanation::{explain, explain_unread};
use flash_store::program_words;
use session::{Notes, Session};
use std::io::ErrorKind;
use std::process::ExitCode;

const USAGE: &str = "\
usage: cbfstool IMAGE COMMAND [OPTIONS]
commands: print layout extract add remove read write create
";

fn print_region_note(rt: &HostRuntime, note: RegionNote) {
    let _told = match note {
        RegionNote::HoldsMap => { eprintln!(rt; "cbfstool: note: the region holds the flash map") }
        RegionNote::ContainsAreas => {
            eprintln!(rt; "cbfstool: note: the region contains other areas of the flash map")
        }
    };
}

fn print_map_note(rt: &HostRuntime, note: MapNote) {
    let _told = match note {
        MapNote::AnotherMap { at } => {
            eprintln!(rt; "cbfstool: note: the image has another flash map now, at {at:#x}")
        }
        MapNote::NoMap => eprintln!(rt; "cbfstool: note: the image has no flash map now"),
    };
}

/// Prints the notes on a changed image, a line for each.
fn print_notes(rt: &HostRuntime, image: &str, notes: Notes) {
    if let Some(note) = notes.region {
        print_region_note(rt, note);
    }
    if let Some(note) = notes.map {
        print_map_note(rt, note);
    }
    if notes.outdated_anchor {
        let _told = eprintln!(rt;
            "cbfstool: note: the bootblock's metadata hash is outdated: run cbfsseal {image}"
        );
    }
}

/// Takes the steps of a command, and stores the system's reason for a file that is not opened in
/// `reason`. The notes are printed after the image's lock is released.
fn execute(rt: &HostRuntime, line: &Line, reason: &mut Option<ErrorKind>) -> Result<(), Refusal> {
    let mut image = None;
    let mut session = Session::new(rt, line, &mut image)?;
    let answer = session.obey();
    let notes = session.notes(answer);
    *reason = session.reason();
    drop(session);
    drop(image);
    print_notes(rt, line.image(), notes);
    answer
}

/// Executes the arguments, or prints the usage without arguments.
fn obey(rt: &HostRuntime, words: &[&str], reason: &mut Option<ErrorKind>) -> Result<(), Refusal> {
    if words.is_empty() {
        return rt.print(USAGE).map_err(|_| Refusal::Output);
    }
    let line = read_line(rt.alloc(), words)?;
    execute(rt, &line, reason)
}

/// Executes the arguments, and prints a refusal with the lines of its explanation.
fn answer_to(rt: &HostRuntime, words: &[&str]) -> Result<(), Refusal> {
    let mut reason = None;
    let answer = obey(rt, words, &mut reason);
    if let Err(refusal) = answer {
        print_refusal(rt, refusal);
        explain(rt, words, refusal, reason);
    }
    answer
}

/// Executes the arguments as texts.
fn answer_to_all(rt: &HostRuntime, words: &[String]) -> Result<(), Refusal> {
    let mut texts: Vec<&str> = Vec::new(rt.alloc());
    for word in words {
        if texts.push(word.as_str()).is_err() {
            return refuse(rt, Refusal::Memory);
        }
    }
    answer_to(rt, &texts)
}

fn print_refusal(rt: &HostRuntime, refusal: Refusal) {
    let _told = eprintln!(rt; "cbfstool: {refusal}");
}

fn refuse(rt: &HostRuntime, refusal: Refusal) -> Result<(), Refusal> {
    print_refusal(rt, refusal);
    Err(refusal)
}

/// Refuses unreadable arguments.
fn refuse_words(rt: &HostRuntime, refusal: Refusal) -> Result<(), Refusal> {
    print_refusal(rt, refusal);
    if refusal == Refusal::Usage {
        explain_unread(rt);
    }
    Err(refusal)
}

fn main(rt: HostRuntime) -> ExitCode {
    let answer = match program_words(&rt) {
        Ok(words) => answer_to_all(&rt, &words),
        Err(fault) => refuse_words(&rt, refusal_of_words(&fault)),
    };
    ExitCode::from(status_of(answer))
}
