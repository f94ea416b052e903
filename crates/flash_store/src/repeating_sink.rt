//! Output to a writer.
ghost use Rattle.std.specs.Prelude.{◌≡◌, ◌≤◌, length, take};
ghost use Rattle.std.specs.Io.KnownBytes.{Appends};

use flash_device::{Counter, Sink, SinkFault};
use std::io::{ErrorKind, Write};

/// The maximum number of consecutive interrupted calls.
const TRIES: u32 = 1000;

/// A sink over a writer. It repeats interrupted calls; 0 bytes or another error is a fault.
#[derive(Drop)]
pub struct RepeatingSink<W> {
    pub writer: W,
    /// Failed calls; in contracts only.
    pub faults: Counter,
}

impl<W> RepeatingSink<W> {
    /// Returns a sink that has written nothing.
    pub fn new(writer: W) -> RepeatingSink<W>
        ensures { result ≡ record { writer = writer; faults = 0 } }
    {
        RepeatingSink {
            writer,
            faults: Counter::new(),
        }
    }
}

impl<W: Write> Sink for RepeatingSink<W> {
    ghost contents = { λ s. W.contents s.writer };

    ghost faults = { λ s. s.faults };

    fn put(&mut self, bytes: &[u8]) -> Result<usize, SinkFault> {
        let taken = write_some(&mut self.writer, bytes);
        if taken == 0 {
            self.faults.tick();
            return Err(SinkFault);
        }
        Ok(taken)
    }
}

/// Writes a prefix, and returns its length. After 0 bytes, an error, or too many interruptions, it
/// returns 0.
fn write_some<W: Write>(writer: &mut W, bytes: &[u8]) -> usize
    ensures within { result ≤ length bytes.now }
    ensures written { Appends (W.contents writer.old) (W.contents writer.new)
        (take result bytes.now) }
{
    for _ in 0..TRIES {
        match writer.write(bytes) {
            Ok(n) => return n,
            Err(fault) if fault.kind() == ErrorKind::Interrupted => {}
            Err(_) => return 0,
        }
    }
    0
}
