//! The arguments of a program.
use std::rt::Env;
use std::{env, io};

/// Returns the arguments after the program's name. Errors: `OutOfMemory`, also if a smaller buffer
/// would do; `InvalidData` for an argument that is not UTF-8.
pub fn program_words<R: Env + AllocGlobal>(rt: &R) -> io::Result<Vec<String>> {
    let mut words = Vec::new(rt.alloc());
    for word in env::args(rt)?.skip(1) {
        words.push(word)?;
    }
    Ok(words)
}
