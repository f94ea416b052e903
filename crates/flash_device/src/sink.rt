//! Output of bytes.
ghost use Rattle.std.specs.Prelude.{◌≡◌, ℕ, ◌+◌, ◌<◌, ◌≤◌, List, Option, length, take, OnOk, OnErr, IfOk, MatchResult};
ghost use Rattle.std.specs.Io.KnownBytes.{Appends, Keeps};
ghost use Rattle.flash_device.specs.Device.{AppendsPart};

use crate::counter::Counter;
use std::io::Write;

/// A failed call.
#[derive(Clone, Copy, Debug, PartialEq, Eq, Drop)]
pub struct SinkFault;

/// The receiver of output. A call may accept only a part of the bytes.
///
/// Std's `Write` was rejected: it counts no faults, so no contract could state that a reported
/// output fault occurred.
pub trait Sink {
    /// The bytes, if known.
    ghost contents: { Self → Option (List ℕ) };

    ghost faults: { Self → ℕ };

    /// Writes a nonempty prefix, and returns its length.
    fn put(&mut self, bytes: &[u8]) -> Result<usize, SinkFault>
        requires { 0 < length bytes.now }

        ensures taken { IfOk result (λ n. (0 < n) × (n ≤ length bytes.now)) }
        ensures bytes { MatchResult result (λ n. Appends (contents self.old) (contents self.new)
            (take n bytes.now)) (λ _. Keeps (contents self.old) (contents self.new)) }
        ensures faults { faults self.old ≤ faults self.new }
        ensures cause { OnErr result (faults self.old < faults self.new) };
}

/// A sink over a writer.
#[derive(Drop)]
pub struct WriteSink<W> {
    pub writer: W,
    /// Failed calls; in contracts only.
    pub faults: Counter,
}

impl<W> WriteSink<W> {
    /// Returns a sink that has written nothing.
    pub fn new(writer: W) -> WriteSink<W>
        ensures { result ≡ record { writer = writer; faults = 0 } }
    {
        WriteSink {
            writer,
            faults: Counter::new(),
        }
    }

    /// Returns the writer.
    pub fn into_inner(self) -> W
        ensures { result ≡ self.writer }
    {
        let WriteSink { writer, faults: _ } = self;
        writer
    }
}

impl<W: Write> Sink for WriteSink<W> {
    ghost contents = { λ s. W.contents s.writer };

    ghost faults = { λ s. s.faults };

    fn put(&mut self, bytes: &[u8]) -> Result<usize, SinkFault> {
        let taken = self.writer.write(bytes).unwrap_or(0);
        if taken == 0 {
            self.faults.tick();
            return Err(SinkFault);
        }
        Ok(taken)
    }
}

/// Writes all bytes. After a fault, the sink has a proper prefix.
pub fn put_all<W: Sink>(out: &mut W, bytes: &[u8]) -> Result<(), SinkFault>
    ensures put { OnOk result (Appends (W.contents out.old) (W.contents out.new) bytes.now) }
    ensures part { OnErr result (AppendsPart (W.contents out.old) (W.contents out.new) bytes.now) }
    ensures faults { W.faults out.old ≤ W.faults out.new }
    ensures cause { OnErr result (W.faults out.old < W.faults out.new) }
{
    let mut done = 0;
    while done < bytes.len() {
        done += out.put(&bytes[done..])?;
    }
    Ok(())
}
