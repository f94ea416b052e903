//! A program's buffered output.
ghost use Rattle.std.specs.Prelude.{◌≡◌, ◌↔◌, ℕ, ◌+◌, ◌<◌, ◌≤◌, [], ◌++◌, false, IsTrue, OnOk, OnErr, IfOk, IfSome, IfNone, length, take};
ghost use Rattle.std.specs.Io.KnownBytes.{Appends, WriteAppends};
ghost use Rattle.std.specs.Vec.{vec_capacity, vec_len};
ghost use Rattle.flash_store.specs.Buffering.{put_bytes, Sends, joined};

use flash_device::{Sink, SinkFault};
use std::alloc::Global;
use std::collections::VecDeque;
use std::marker::Model;
use std::mem;

/// The block size in bytes.
const BLOCK: usize = 65536;

/// A sink with blocks of buffer before another sink.
///
/// Full blocks are forwarded, or held until `flush`: a listing first releases the image's lock,
/// because a reader of a pipe may wait for the lock. After an allocation failure, bytes are
/// forwarded directly. After a fault, the bytes that the sink did not receive stay held.
#[derive(Drop)]
pub struct Output<S: Sink + Drop> {
    sink: S,
    alloc: Global,
    is_keeping: bool,
    /// The part of a block that the sink did not receive.
    rest: Vec<u8>,
    kept: VecDeque<Vec<u8>>,
    block: Vec<u8>,
}

impl<S: Sink + Drop> Model for Output<S> {
    ghost use Rattle.std.specs.Prelude.{◌++◌};
    ghost use Rattle.flash_store.specs.Buffering.{Buffered, joined};

    ghost Value = { Buffered };

    ghost view = { λ o. record {
      received = S.contents o.sink;
      held = o.rest.items ++ (joined o.kept.items ++ o.block.items);
      faults = S.faults o.sink;
    } };
}

impl<S: Sink + Drop> Output<S> {
    /// Makes a sink which forwards full blocks.
    pub fn new(alloc: Global, sink: S) -> Output<S>
        ensures { result
            ≡ record { received = S.contents sink; held = []; faults = S.faults sink } }
    {
        Output {
            sink,
            alloc,
            is_keeping: false,
            rest: Vec::new(alloc),
            kept: VecDeque::new(alloc),
            block: Vec::new(alloc),
        }
    }

    /// Makes a sink which holds blocks until `flush`.
    pub fn keeping(alloc: Global, sink: S) -> Output<S>
        ensures { result
            ≡ record { received = S.contents sink; held = []; faults = S.faults sink } }
    {
        let mut output = Output::new(alloc, sink);
        output.is_keeping = true;
        output
    }

    /// Forwards all held bytes.
    pub fn flush(&mut self) -> Result<(), SinkFault>
        ensures sent { Sends self.old.received self.new.received self.old.held self.new.held }
        ensures whole { OnOk result (self.new.held ≡ []) }
        ensures part { OnErr result (0 < length self.new.held) }
        ensures faults { self.old.faults ≤ self.new.faults }
        ensures cause { OnErr result (self.old.faults < self.new.faults) }
    {
        let (sink, rest) = (&mut self.sink, &mut self.rest);
        if send_held(sink, rest, &mut self.kept, &mut self.block) {
            return Ok(());
        }
        Err(SinkFault)
    }

    /// Returns the sink. Held bytes are lost.
    pub fn into_inner(self) -> S
        ensures received { S.contents result ≡ self.received }
        ensures faults { S.faults result ≡ self.faults }
    {
        let Output { sink, .. } = self;
        sink
    }

    /// Holds the block until `flush`. It returns false after an allocation failure, which ends
    /// holding.
    fn keep_block(&mut self) -> bool
        ensures { self.new ≡ self.old }
    {
        let block = mem::replace(&mut self.block, Vec::new(self.alloc));
        match self.kept.push_back(block) {
            Ok(()) => true,
            Err(refused) => {
                self.block = refused.value;
                self.is_keeping = false;
                false
            }
        }
    }

    /// Makes an empty block if there is none. It returns false after an allocation failure.
    fn make_block(&mut self) -> bool
        ensures { self.new ≡ self.old }
    {
        if !self.block.is_empty() || self.block.capacity() > 0 {
            return true;
        }
        match Vec::with_capacity(self.alloc, BLOCK) {
            Ok(block) => {
                self.block = block;
                true
            }
            Err(_) => false,
        }
    }

    /// Ends the block if it is full: holds it, or forwards all held bytes.
    fn end_block(&mut self) -> Result<(), SinkFault>
        ensures sent { Sends self.old.received self.new.received self.old.held self.new.held }
        ensures faults { self.old.faults ≤ self.new.faults }
        ensures cause { OnErr result (self.old.faults < self.new.faults) }
    {
        if self.block.len() < BLOCK {
            return Ok(());
        }
        if self.is_keeping && self.keep_block() {
            return Ok(());
        }
        self.flush()
    }

    /// Forwards bytes directly, after all held bytes.
    fn forward(&mut self, bytes: &[u8]) -> Result<usize, SinkFault>
        requires { 0 < length bytes.now }

        ensures taken { IfOk result (λ n. (0 < n) × (n ≤ length bytes.now)) }
        ensures bytes { WriteAppends (put_bytes self.old) (put_bytes self.new) result bytes.now }
        ensures faults { self.old.faults ≤ self.new.faults }
        ensures cause { OnErr result (self.old.faults < self.new.faults) }
    {
        self.is_keeping = false;
        self.flush()?;
        self.sink.put(bytes)
    }

    /// Buffers a prefix, up to a block's free space.
    fn fill_block(&mut self, bytes: &[u8]) -> Option<usize>
        ensures taken { IfSome result (λ n. (0 < n) × (n ≤ length bytes.now)) }
        ensures held { IfSome result (λ n. self.new
            ≡ record self.old { held = self.old.held ++ take n bytes.now }) }
        ensures full { IfNone result (self.new ≡ self.old) }
    {
        let n = bytes.len().min(BLOCK.saturating_sub(self.block.len()));
        if n == 0 || self.block.extend_from_slice(&bytes[..n]).is_err() {
            return None;
        }
        Some(n)
    }

    /// Puts a prefix, up to a block's free space.
    #[cold]
    #[inline(never)]
    fn put_at_border(&mut self, bytes: &[u8]) -> Result<usize, SinkFault>
        requires { 0 < length bytes.now }

        ensures taken { IfOk result (λ n. (0 < n) × (n ≤ length bytes.now)) }
        ensures bytes { WriteAppends (put_bytes self.old) (put_bytes self.new) result bytes.now }
        ensures faults { self.old.faults ≤ self.new.faults }
        ensures cause { OnErr result (self.old.faults < self.new.faults) }
    {
        self.end_block()?;
        if !self.make_block() {
            return self.forward(bytes);
        }
        match self.fill_block(bytes) {
            Some(n) => Ok(n),
            None => self.forward(bytes),
        }
    }
}

/// Forwards bytes until a fault. Returns the number of bytes that the sink received.
fn send<S: Sink>(sink: &mut S, bytes: &[u8]) -> usize
    ensures within { result ≤ length bytes.now }
    ensures sent { Appends (S.contents sink.old) (S.contents sink.new) (take result bytes.now) }
    ensures faults { S.faults sink.old ≤ S.faults sink.new }
    ensures cause { result < length bytes.now → S.faults sink.old < S.faults sink.new }
{
    let mut done = 0;
    while done < bytes.len() {
        match sink.put(&bytes[done..]) {
            Ok(n) => done += n,
            Err(SinkFault) => return done,
        }
    }
    done
}

/// Forwards and removes the bytes of a block. After a fault, the block has the bytes that the sink
/// did not receive.
fn send_block<S: Sink>(sink: &mut S, block: &mut Vec<u8>) -> bool
    ensures sent { Sends (S.contents sink.old) (S.contents sink.new) block.old.items
        block.new.items }
    ensures whole { IsTrue result ↔ (block.new.items ≡ []) }
    ensures faults { S.faults sink.old ≤ S.faults sink.new }
    ensures cause { result ≡ false → S.faults sink.old < S.faults sink.new }
{
    let n = send(sink, block);
    block.rotate_left(n);
    block.truncate(block.len() - n);
    block.is_empty()
}

/// Forwards and removes blocks. After a fault, `rest` has the bytes of the first block that the
/// sink did not receive.
fn send_blocks<S: Sink>(sink: &mut S, rest: &mut Vec<u8>, blocks: &mut VecDeque<Vec<u8>>) -> bool
    requires { rest.old.items ≡ [] }

    ensures sent { Sends (S.contents sink.old) (S.contents sink.new) (joined blocks.old.items)
        (rest.new.items ++ joined blocks.new.items) }
    ensures whole { IsTrue result → (rest.new.items ≡ []) × (blocks.new.items ≡ []) }
    ensures part { result ≡ false → 0 < vec_len rest.new }
    ensures faults { S.faults sink.old ≤ S.faults sink.new }
    ensures cause { result ≡ false → S.faults sink.old < S.faults sink.new }
{
    while let Some(mut block) = blocks.pop_front() {
        if !send_block(sink, &mut block) {
            *rest = block;
            return false;
        }
    }
    true
}

/// Forwards and removes all held bytes: the rest of a block, the blocks, and the last block.
fn send_held<S: Sink>(
    sink: &mut S,
    rest: &mut Vec<u8>,
    blocks: &mut VecDeque<Vec<u8>>,
    last: &mut Vec<u8>,
) -> bool
    ensures sent { Sends (S.contents sink.old) (S.contents sink.new)
        (rest.old.items ++ (joined blocks.old.items ++ last.old.items))
        (rest.new.items ++ (joined blocks.new.items ++ last.new.items)) }
    ensures whole { IsTrue result → (rest.new.items ≡ []) × (blocks.new.items ≡ [])
        × (last.new.items ≡ []) }
    ensures part { result ≡ false
        → 0 < length (rest.new.items ++ (joined blocks.new.items ++ last.new.items)) }
    ensures faults { S.faults sink.old ≤ S.faults sink.new }
    ensures cause { result ≡ false → S.faults sink.old < S.faults sink.new }
{
    if !send_block(sink, rest) {
        return false;
    }
    send_blocks(sink, rest, blocks) && send_block(sink, last)
}

impl<S: Sink + Drop> Sink for Output<S> {
    ghost use Rattle.flash_store.specs.Buffering.{put_bytes};

    ghost contents = { λ o. put_bytes o };

    ghost faults = { λ o. o.faults };

    /// Buffers bytes with enough space, the most frequent case.
    #[inline(always)]
    fn put(&mut self, bytes: &[u8]) -> Result<usize, SinkFault> {
        if bytes.len() < self.block.capacity() - self.block.len() {
            append(&mut self.block, bytes);
            return Ok(bytes.len());
        }
        self.put_at_border(bytes)
    }
}

#[inline(always)]
fn append(block: &mut Vec<u8>, bytes: &[u8])
    requires { vec_len block.old + length bytes.now ≤ vec_capacity block.old }
    ensures { block.new.items ≡ block.old.items ++ bytes.now }
{
    let Ok(()) = block.extend_from_slice(bytes) else {
        unreachable!()
    };
}
