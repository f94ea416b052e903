//! Explanations of refusals, on standard error.
use cbfs_commands::Refusal;
use cbfs_line::{Line, read_line};
use cbfs_mistakes::{
    ListFault, Mistake, find_mistake, push_areas, push_components, push_explanation, push_room,
    push_subject,
};
use flash_store::{FileFlash, FileSource, Paged, Source};
use quoted_text::is_explained;
use std::alloc::AllocError;
use std::env;
use std::io::{ErrorKind, IsTerminal, Write};

/// Returns true on a terminal, or if the environment variable CBFSTOOL_EXPLAIN requests
/// explanations.
fn is_wanted(rt: &HostRuntime) -> bool {
    let variable = env::var(rt, "CBFSTOOL_EXPLAIN").ok();
    is_explained(rt.stderr().is_terminal(), variable.as_deref())
}

fn print_explanation(
    rt: &HostRuntime,
    words: &[&str],
    mistake: Mistake<'_>,
) -> Result<(), AllocError> {
    let mut text = Vec::new(rt.alloc());
    push_explanation(&mut text, words, &mistake)?;
    let _told = rt.stderr().write_all(&text);
    Ok(())
}

fn print_mistake(rt: &HostRuntime, words: &[&str]) -> Result<(), AllocError> {
    match find_mistake(rt.alloc(), words)? {
        Some(mistake) => print_explanation(rt, words, mistake),
        None => Ok(()),
    }
}

/// Opens the file with the flash map of the command, only for reading: FILE for `create`, and
/// otherwise IMAGE.
fn open_map(rt: &HostRuntime, line: &Line<'_>) -> Result<Paged<FileFlash>, ListFault> {
    let path = match line.subcommand() {
        "create" => line.file().unwrap_or(""),
        _ => line.image(),
    };
    match FileFlash::open_to_read(rt, path) {
        Ok(image) => Ok(Paged::new(image)),
        Err(_) => Err(ListFault::Device),
    }
}

/// Appends the line on the length of FILE, and on the largest content that the addition accepts. If
/// FILE can't be opened again, nothing is appended.
fn push_lengths(rt: &HostRuntime, text: &mut Vec<u8>, line: &Line<'_>) -> Result<(), ListFault> {
    let Ok(command) = line.command() else {
        return Ok(());
    };
    match FileSource::open(rt, line.file().unwrap_or("")) {
        Ok(content) => push_room(text, &mut open_map(rt, line)?, &command, content.len()),
        Err(_) => Ok(()),
    }
}

/// Appends the line with the possible choices: the areas of the flash map, the components of the
/// region, or the largest content.
fn push_choice(
    rt: &HostRuntime,
    text: &mut Vec<u8>,
    line: &Line<'_>,
    refusal: Refusal,
) -> Result<(), ListFault> {
    let region = line.regions().as_bytes();
    match refusal {
        Refusal::NoRegion => push_areas(rt.alloc(), text, &mut open_map(rt, line)?, region),
        Refusal::NotFound => {
            let name = line.option("name").unwrap_or("").as_bytes();
            push_components(rt.alloc(), text, &mut open_map(rt, line)?, region, name)
        }
        Refusal::NoSpace => push_lengths(rt, text, line),
        _ => Ok(()),
    }
}

/// Prints the line with the possible choices, or nothing after a fault.
fn print_choice(rt: &HostRuntime, line: &Line<'_>, refusal: Refusal) -> Result<(), ListFault> {
    let mut text = Vec::new(rt.alloc());
    push_choice(rt, &mut text, line, refusal)?;
    let _told = rt.stderr().write_all(&text);
    Ok(())
}

fn print_subject(
    rt: &HostRuntime,
    words: &[&str],
    refusal: Refusal,
    reason: Option<ErrorKind>,
) -> Result<(), AllocError> {
    let Ok(line) = read_line(rt.alloc(), words) else {
        return Ok(());
    };
    let mut text = Vec::new(rt.alloc());
    push_subject(&mut text, &line, refusal, reason)?;
    let _told = rt.stderr().write_all(&text);
    let _listed = print_choice(rt, &line, refusal);
    Ok(())
}

/// Prints the explanation of a refusal of the arguments, if explanations are requested. `reason` is
/// the system's reason for a file that is not opened. Failures of memory and output, and faults of
/// the image during the second reading, are ignored: the refusal is printed already.
pub fn explain(rt: &HostRuntime, words: &[&str], refusal: Refusal, reason: Option<ErrorKind>) {
    if !is_wanted(rt) {
        return;
    }
    let _told = match refusal {
        Refusal::Usage => print_mistake(rt, words),
        _ => print_subject(rt, words, refusal, reason),
    };
}

/// Prints the explanation of arguments with invalid UTF-8, if explanations are requested.
pub fn explain_unread(rt: &HostRuntime) {
    if is_wanted(rt) {
        let _told = print_explanation(rt, &[], Mistake::NotText);
    }
}
