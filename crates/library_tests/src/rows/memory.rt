//! Allocation failures: each test accepts the result, or out of memory without output.
//! `tests/test_worked_examples.py` refuses each request for memory in turn.
use crate::rows::descriptors::{NESTED, NESTED_TABLE};
use crate::rows::line::is_print;
use crate::support::{equal, has_all, same_bytes, took_none, writer};
use cbfs_commands as commands;
use cbfs_line::{Line, read_line};
use fmap_compiler::{ReadText, Refusal, run};
use fmd_lang::{FmdFault, encode, lay_out, parse};
use std::alloc::Global;
use std::mem::forget;
use std::process::Abort;

fn table_bytes(alloc: Global, text: &[u8]) -> Result<Vec<u8>, FmdFault> {
    let tree = parse(alloc, text)?;
    let table = lay_out(alloc, &tree)?;
    encode(alloc, &table)
}

#[test]
fn a_table_or_want_of_memory(rt: HostRuntime) {
    match table_bytes(rt.alloc(), NESTED) {
        Ok(bytes) => same_bytes(&rt, &bytes, &NESTED_TABLE),
        Err(fault) => equal(&rt, &fault, &FmdFault::Memory),
    }
}

#[test]
fn a_compiled_text_or_want_of_memory(rt: HostRuntime) {
    let mut reader = ReadText::new(NESTED);
    let mut out = writer(4096, usize::MAX, &NESTED_TABLE);
    match run(rt.alloc(), &mut reader, &mut out) {
        Ok(()) => has_all(&rt, out),
        Err(refusal) => {
            equal(&rt, &refusal, &Refusal::Descriptor(FmdFault::Memory));
            took_none(&rt, out, NESTED_TABLE.len());
        }
    }
    drop(reader);
}

fn lists(rt: &impl Abort, line: Line) {
    let command = line.command().expect(rt, "a command");
    equal(rt, &is_print(&command), &true);
    forget(command);
    forget(line);
}

#[test]
fn a_line_or_want_of_memory(rt: HostRuntime) {
    match read_line(rt.alloc(), &["img", "print", "-v"]) {
        Ok(line) => lists(&rt, line),
        Err(refusal) => equal(&rt, &refusal, &commands::Refusal::Memory),
    }
}
