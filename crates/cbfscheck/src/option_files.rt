//! The option files of a command line.

ghost use Rattle.std.specs.Prelude.{◌≡◌, ◌+◌, ◌⊎◌, IfOk, IfSome, take};
ghost use Rattle.check_line.specs.OptionFiles.{file_of, path_of, written};
ghost use Rattle.cbfscheck.specs.OptionTexts.{AreGiven, IsTextOf, IsUnread, largest};

use crate::refusal::{OptionsFault, Refusal};
use check_line::{Argument, option_file};
use flash_store::open_beside_standard;
use std::alloc::Global;
use std::fs::OpenOptions;
use std::io::{self, Read};

/// The size of the largest option file, in bytes.
const LIMIT: usize = 65536;

/// Reads a file up to its end, or one byte more than an option file may have.
fn read_bytes<R: Read + Drop>(alloc: Global, reader: R) -> io::Result<Vec<u8>>
    ensures { IfOk result (λ bytes. IfSome (R.remaining reader)
        (λ content. bytes.items ≡ take (largest + 1) content)) }
{
    let mut bytes = Vec::new(alloc);
    reader.take(LIMIT as u64 + 1).read_to_end(&mut bytes)?;
    Ok(bytes)
}

/// Returns bytes as a text. Errors: more than 65536 bytes; bytes that are not UTF-8.
fn text_in(bytes: Vec<u8>) -> Result<String, OptionsFault>
    ensures { IsTextOf bytes.items result }
{
    if bytes.len() > LIMIT {
        return Err(OptionsFault::TooLarge);
    }
    String::from_utf8(bytes).map_err(|_| OptionsFault::NotUtf8)
}

/// Reads the text of an option file. Errors: a failed read; more than 65536 bytes; text that is not
/// UTF-8.
fn text_of<R: Read + Drop>(alloc: Global, reader: R) -> Result<String, OptionsFault>
    ensures { IfSome (R.remaining reader)
        (λ content. IsUnread result ⊎ IsTextOf content result) }
{
    let bytes = read_bytes(alloc, reader)?;
    text_in(bytes)
}

fn read_text(rt: &HostRuntime, path: &str) -> Result<String, OptionsFault> {
    let file = open_beside_standard(rt, OpenOptions::new().read(true), path)?;
    text_of(rt.alloc(), file)
}

/// Returns an argument, with the text of its file if it is `@PATH`.
fn read_argument<'a>(rt: &HostRuntime, word: &'a str) -> Result<Argument<'a>, Refusal<'a>>
    ensures word { IfOk result (λ argument. written argument ≡ word.entry.now) }
    ensures file { IfOk result (λ argument. file_of argument ≡ path_of word.entry.now) }
{
    let Some(path) = option_file(word) else {
        return Ok(Argument::Word(word));
    };
    match read_text(rt, path) {
        Ok(text) => Ok(Argument::File { path, text }),
        Err(fault) => Err(Refusal::of_options(path, fault)),
    }
}

/// Returns the arguments, and reads their option files in this order.
pub fn read_arguments<'a>(
    rt: &HostRuntime,
    words: &'a [String],
) -> Result<Vec<Argument<'a>>, Refusal<'a>>
    ensures { IfOk result (λ arguments. AreGiven words.entry.now arguments.items) }
{
    let mut arguments = Vec::new(rt.alloc());
    for word in words {
        let argument = match read_argument(rt, word.as_str()) {
            Ok(argument) => argument,
            Err(refusal) => return Err(refusal),
        };
        if arguments.push(argument).is_err() {
            return Err(Refusal::Memory);
        }
    }
    Ok(arguments)
}
