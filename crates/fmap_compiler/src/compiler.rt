//! Compiles a descriptor into the table.

ghost use Rattle.std.specs.Prelude.{◌≡◌, ◌<◌, ◌≤◌, ◌⊎◌, take, IfOk, IfErr, IfSome, IsErrOf};
ghost use Rattle.fmap_compiler.specs.Outcome.{Compiles, Delivers, HasReadText, IsRefusedText};
ghost use Rattle.fmap_compiler.specs.Outcome.{Refuses, reading_limit};

use crate::reader::TextReader;
use crate::refusal::Refusal;
use flash_device::{Sink, put_all};
use fmd_lang::{FmdFault, TEXT_LIMIT, encode, lay_out, parse};
use std::alloc::Global;

/// The maximum number of bytes read: a descriptor's maximum length, plus 1.
const READING_LIMIT: usize = TEXT_LIMIT + 1;

/// Reads up to the reader's end or the limit.
fn read_text<R: TextReader>(alloc: Global, reader: &mut R) -> Result<Vec<u8>, Refusal>
    ensures text { IfOk result (λ text. IfSome (R.remaining reader.old)
        (λ known. text.items ≡ take reading_limit known)) }
    ensures cause { IsErrOf result Refusal.Read → R.faults reader.old < R.faults reader.new }
    ensures refused { IfErr result (λ refusal.
        (refusal ≡ Refusal.Read) ⊎ (refusal ≡ Refusal.Descriptor FmdFault.Memory)) }
    ensures reader { HasReadText R.TextReader reader.old reader.new }
{
    let mut text = Vec::new(alloc);
    let mut buffer = [0; 4096];
    while text.len() < READING_LIMIT {
        let room = buffer.len().min(READING_LIMIT - text.len());
        let count = reader.read_some(&mut buffer[..room])?;
        if count == 0 {
            return Ok(text);
        }
        text.extend_from_slice(&buffer[..count])?;
    }
    Ok(text)
}

fn compile(alloc: Global, text: &[u8]) -> Result<Vec<u8>, FmdFault>
    ensures compiled { IfOk result (λ bytes. Compiles text.now bytes.items) }
    ensures refused { IfErr result (λ fault. (fault ≡ FmdFault.Memory) ⊎ Refuses text.now fault) }
{
    let tree = parse(alloc, text)?;
    let table = lay_out(alloc, &tree)?;
    encode(alloc, &table)
}

/// Reads a descriptor, at most 1,048,577 bytes, and writes the complete table. The text stays in
/// `text`, so that the caller can explain a refusal.
pub fn run_with_text<R: TextReader, W: Sink>(
    alloc: Global,
    reader: &mut R,
    writer: &mut W,
    text: &mut Vec<u8>,
) -> Result<(), Refusal>
    // Success writes the table, and nothing else. An output error leaves a part of it, any other
    // error no output.
    ensures output { Delivers (R.remaining reader.old) (W.contents writer.old)
        (W.contents writer.new) result }
    ensures read_cause { IsErrOf result Refusal.Read → R.faults reader.old < R.faults reader.new }
    ensures output_cause { IsErrOf result Refusal.Output
        → W.faults writer.old < W.faults writer.new }
    ensures reader { HasReadText R.TextReader reader.old reader.new }
    ensures writer_faults { W.faults writer.old ≤ W.faults writer.new }
    // The text is the one that is refused.
    ensures text { IfErr result (λ refusal. IsRefusedText text.new.items refusal) }
{
    *text = read_text(alloc, reader)?;
    let table = compile(alloc, text)?;
    put_all(writer, &table)?;
    Ok(())
}

/// Reads a descriptor, at most 1,048,577 bytes, and writes the complete table.
pub fn run<R: TextReader, W: Sink>(
    alloc: Global,
    reader: &mut R,
    writer: &mut W,
) -> Result<(), Refusal>
    // Success writes the table, and nothing else. An output error leaves a part of it, any other
    // error no output.
    ensures output { Delivers (R.remaining reader.old) (W.contents writer.old)
        (W.contents writer.new) result }
    ensures read_cause { IsErrOf result Refusal.Read → R.faults reader.old < R.faults reader.new }
    ensures output_cause { IsErrOf result Refusal.Output
        → W.faults writer.old < W.faults writer.new }
    ensures reader { HasReadText R.TextReader reader.old reader.new }
    ensures writer_faults { W.faults writer.old ≤ W.faults writer.new }
{
    let mut text = Vec::new(alloc);
    run_with_text(alloc, reader, writer, &mut text)
}
