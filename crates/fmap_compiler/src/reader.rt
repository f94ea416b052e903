//! The source of a descriptor's text.

ghost use Rattle.std.specs.Prelude.{◌≡◌, ℕ, ◌+◌, ◌<◌, ◌≤◌, List, Option, OnErr};
ghost use Rattle.std.specs.Result.{result_unwrap_or};
ghost use Rattle.std.specs.Io.{ReadsAtMost};
ghost use Rattle.std.specs.Io.KnownBytes.{ReadConsumes};

use flash_device::Counter;
use std::io::{ErrorKind, Read};

/// A failed read.
#[derive(Clone, Copy, Debug, PartialEq, Eq, Drop)]
pub struct ReadFault;

/// A reader with possible short reads.
pub trait TextReader {
    /// The remaining bytes, if known.
    ghost remaining: { Self → Option (List ℕ) };

    /// The number of bytes read.
    ghost given: { Self → ℕ };

    /// The number of failed reads.
    ghost faults: { Self → ℕ };

    /// Reads into the front of `room`, and returns the number of bytes: 0 only at the end, or for
    /// empty `room`. A fault loses no byte, but leaves arbitrary bytes in `room`.
    fn read_some(&mut self, room: &mut [u8]) -> Result<usize, ReadFault>
        ensures bound { ReadsAtMost result room.new }
        ensures bytes { ReadConsumes (remaining self.old) (remaining self.new) result room.new }
        ensures given { given self.new ≡ given self.old + result_unwrap_or result 0 }
        ensures faults { faults self.old ≤ faults self.new }
        ensures cause { OnErr result (faults self.old < faults self.new) };
}

/// A text over `Read`. Any I/O error is a fault.
#[derive(Drop)]
pub struct ReadText<R: Read> {
    pub reader: R,
    /// The number of bytes read.
    pub given: Counter,
    /// The number of failed reads.
    pub faults: Counter,
}

impl<R: Read> ReadText<R> {
    /// Wraps a reader.
    pub fn new(reader: R) -> ReadText<R>
        ensures { result ≡ record { reader = reader; given = 0; faults = 0 } }
    {
        ReadText {
            reader,
            given: Counter::new(),
            faults: Counter::new(),
        }
    }

    /// Returns the reader.
    pub fn into_inner(self) -> R
        ensures { result ≡ self.reader }
    {
        let ReadText {
            reader,
            given: _,
            faults: _,
        } = self;
        reader
    }
}

/// The maximum number of consecutive interruptions of a read.
const TRIES: u32 = 1000;

fn read_again<R: Read>(reader: &mut R, room: &mut [u8]) -> Result<usize, ReadFault>
    ensures bound { ReadsAtMost result room.new }
    ensures bytes { ReadConsumes (R.remaining reader.old) (R.remaining reader.new) result room.new }
{
    for _ in 0..TRIES {
        match reader.read(room) {
            Ok(count) => return Ok(count),
            Err(fault) if fault.kind() == ErrorKind::Interrupted => {}
            Err(_) => return Err(ReadFault),
        }
    }
    Err(ReadFault)
}

impl<R: Read> TextReader for ReadText<R> {
    ghost remaining = { λ t. R.remaining t.reader };

    ghost given = { λ t. t.given };

    ghost faults = { λ t. t.faults };

    fn read_some(&mut self, room: &mut [u8]) -> Result<usize, ReadFault> {
        match read_again(&mut self.reader, room) {
            Ok(count) => {
                self.given.add(count);
                Ok(count)
            }
            Err(_) => {
                self.faults.tick();
                Err(ReadFault)
            }
        }
    }
}
