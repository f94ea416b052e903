//! Command lines as values. Each line is forgotten, because proofs of the drop of clap's matches
//! are slow.
use crate::edit::actions::COREBOOT;
use crate::support::equal;
use cbfs_commands::{Command, Refusal};
use cbfs_edit::{HashChoice, Spot};
use cbfs_line::{Line, read_line};
use std::mem::forget;
use std::process::Abort;

fn has_files(rt: &impl Abort, line: &Line, image: &str, file: Option<&str>) {
    equal(rt, &line.image(), &image);
    equal(rt, &line.file(), &file);
}

fn command_in<'a>(
    rt: &impl Abort,
    line: Line<'a>,
    image: &str,
    file: Option<&str>,
) -> Result<Command<'a>, Refusal> {
    has_files(rt, &line, image, file);
    let command = line.command();
    forget(line);
    command
}

fn command_of<'a>(
    rt: &(impl Abort + AllocGlobal),
    words: &'a [&'a str],
    image: &str,
    file: Option<&str>,
) -> Command<'a> {
    let command = match read_line(rt.alloc(), words) {
        Ok(line) => command_in(rt, line, image, file),
        Err(refusal) => Err(refusal),
    };
    command.expect(rt, "a command")
}

pub fn is_print(command: &Command) -> bool {
    match command {
        Command::Print { region, verbose } => *region == COREBOOT && *verbose,
        _ => false,
    }
}

#[test]
fn a_verbose_listing_of_the_usual_region(rt: HostRuntime) {
    let command = command_of(&rt, &["img", "print", "-v"], "img", None);
    equal(&rt, &is_print(&command), &true);
    forget(command);
}

fn is_write(command: &Command) -> bool {
    match command {
        Command::Write { region } => *region == COREBOOT,
        _ => false,
    }
}

#[test]
fn a_write_from_a_file(rt: HostRuntime) {
    let command = command_of(&rt, &["img", "write", "-f", "x"], "img", Some("x"));
    equal(&rt, &is_write(&command), &true);
    forget(command);
}

fn are_b_and_c(regions: &[&[u8]]) -> bool {
    match regions {
        [b"B", b"C"] => true,
        _ => false,
    }
}

fn is_create(command: &Command) -> bool {
    match command {
        Command::Create { regions } => are_b_and_c(regions.as_slice()),
        _ => false,
    }
}

#[test]
fn a_creation_with_two_regions(rt: HostRuntime) {
    let words = ["img", "create", "-M", "t", "-r", "B,C"];
    let command = command_of(&rt, &words, "img", Some("t"));
    equal(&rt, &is_create(&command), &true);
    forget(command);
}

fn is_add(command: &Command) -> bool {
    match command {
        Command::Add {
            region,
            name,
            kind: 0x50,
            hash: HashChoice::Sha256,
            spot: Spot::Aligned(64),
        } => *region == COREBOOT && *name == b"a".as_slice(),
        _ => false,
    }
}

#[test]
fn an_addition_with_an_alignment_and_a_digest(rt: HostRuntime) {
    let words = [
        "img", "add", "-n", "a", "-f", "x", "-t", "0x50", "-a", "0x40", "-A", "sha256",
    ];
    let command = command_of(&rt, &words, "img", Some("x"));
    equal(&rt, &is_add(&command), &true);
    forget(command);
}

fn command_refusal(line: Line) -> Option<Refusal> {
    let refusal = match line.command() {
        Ok(command) => {
            forget(command);
            None
        }
        Err(refusal) => Some(refusal),
    };
    forget(line);
    refusal
}

fn refusal_of(rt: &(impl Abort + AllocGlobal), words: &[&str]) -> Option<Refusal> {
    match read_line(rt.alloc(), words) {
        Ok(line) => command_refusal(line),
        Err(refusal) => Some(refusal),
    }
}

fn is_none(rt: &(impl Abort + AllocGlobal), words: &[&str]) {
    equal(rt, &refusal_of(rt, words), &Some(Refusal::Usage));
}

#[test]
fn words_that_are_no_command_line(rt: HostRuntime) {
    is_none(&rt, &[]);
    is_none(&rt, &["img"]);
    is_none(&rt, &["img", "frobnicate"]);
    is_none(&rt, &["img", "extract", "-n", "a"]);
    is_none(
        &rt,
        &[
            "img", "add", "-n", "a", "-f", "x", "-t", "raw", "-a", "64", "-b", "0",
        ],
    );
}
