//! Buffered devices.
ghost use Rattle.std.specs.Prelude.{◌≡◌, ℕ, List, ◌++◌, ◌+◌, ◌/◌, ◌%◌, ◌^◌, ◌<◌, ◌≤◌, ◌↔◌, length, take, IsTrue, OnOk, IfOk, IsErrOf, slice_range, replicate};
ghost use Rattle.flash_device.specs.Device.{IsPiece, OneCall, OneRead, OneWrite, OneCommit, refusals};
ghost use Rattle.flash_device.specs.Pages.{HasFilled, HasCopiedIn, HasCopiedOut, as_copy, OnHonest};
ghost use Rattle.std.specs.Io.KnownBytes.{Appends, Keeps};

use crate::flash::{COMMIT_LENGTH, Flash, FlashFault, PIECE};
use crate::sink::{Sink, SinkFault, put_all};
use crate::source::{Source, SourceFault};
use crate::watch::{Unwatched, Watch};
use std::marker::Model;

/// The reason for a stopped copy from a source.
#[derive(Clone, Copy, Debug, PartialEq, Eq, Drop)]
pub enum CopyInFault {
    /// A failed device call.
    Device,
    /// A failed source read.
    Source,
}

impl From<FlashFault> for CopyInFault {
    ghost use Rattle.flash_device.specs.declared.paged.CopyInFault.TheVariants.{Device};

    ghost from_gives = { λ _ fault. fault ≡ Device };

    fn from(_: FlashFault) -> CopyInFault {
        CopyInFault::Device
    }
}

impl From<SourceFault> for CopyInFault {
    ghost use Rattle.flash_device.specs.declared.paged.CopyInFault.TheVariants.{Source};

    ghost from_gives = { λ _ fault. fault ≡ Source };

    fn from(_: SourceFault) -> CopyInFault {
        CopyInFault::Source
    }
}

/// The reason for a stopped copy, with cbfstool's number.
#[derive(Clone, Copy, Debug, PartialEq, Eq, Drop)]
pub enum CopyFault {
    /// A failed device call.
    Device = 1,
    /// A failed sink call.
    Output = 2,
    /// A failed source read.
    Source = 3,
}

impl From<FlashFault> for CopyFault {
    ghost use Rattle.flash_device.specs.declared.paged.CopyFault.TheVariants.{Device};

    ghost from_gives = { λ _ fault. fault ≡ Device };

    fn from(_: FlashFault) -> CopyFault {
        CopyFault::Device
    }
}

impl From<SinkFault> for CopyFault {
    ghost use Rattle.flash_device.specs.declared.paged.CopyFault.TheVariants.{Output};

    ghost from_gives = { λ _ fault. fault ≡ Output };

    fn from(_: SinkFault) -> CopyFault {
        CopyFault::Output
    }
}

impl From<CopyInFault> for CopyFault {
    ghost use Rattle.flash_device.specs.Pages.{copy_fault};

    ghost from_gives = { λ copy_in_fault fault. fault ≡ copy_fault copy_in_fault };

    fn from(fault: CopyInFault) -> CopyFault {
        match fault {
            CopyInFault::Device => CopyFault::Device,
            CopyInFault::Source => CopyFault::Source,
        }
    }
}

#[derive(Clone, Copy, Drop)]
enum Buffered {
    Nothing,
    /// Device bytes from an offset on.
    Window { at: u64, size: usize },
    Piece { size: usize },
}

/// A device with a buffer of 4096 bytes, which only commits bypass.
///
/// The buffer is empty, or holds:
/// - a window of device bytes for `read_small`, `piece` and `copy_out`, which otherwise load
///   another from the range's start on. Writes, `pull` and failed reads drop the window.
/// - a piece of a source, which `pull` loads, and `push` writes and preserves. All other reads and
///   writes and a failed `pull` drop the piece.
///
/// The `sem` clauses of `piece` and `pull` describe the state after the borrow.
#[derive(Drop)]
pub struct Paged<F: Flash> {
    device: F,
    buffer: [u8; PIECE],
    held: Buffered,
}

impl<F: Flash> Model for Paged<F> {
    ghost use Rattle.flash_device.specs.Pages.{Pages, held_in, FitsBuffer, IsTrueTo};

    ghost Value = { Pages F };

    ghost view = { λ p.
        record { flash = p.device; device = F.facts p.device; held = held_in p.buffer p.held } };

    ghost invariant = { λ p. FitsBuffer p.held
        × IsTrueTo (F.facts p.device) (held_in p.buffer p.held) };
}

impl<F: Flash> Paged<F> {
    ghost use Rattle.std.specs.Borrow.{sem};
    ghost use Rattle.std.specs.Io.BufRead.{Rests};
    ghost use Rattle.flash_device.specs.Pages.{
      Nothing,
      OnHonest,
      HasSeen,
      HasPulled,
      Piece,
      Covers,
    };
    ghost use Rattle.flash_device.specs.contracts.paged.Paged.{the_row};

    /// Makes an empty buffer.
    pub fn new(device: F) -> Paged<F>
        ensures { result ≡ record { flash = device; device = F.facts device; held = Nothing } }
    {
        Paged {
            device,
            buffer: [0; PIECE],
            held: Buffered::Nothing,
        }
    }

    /// Returns the length in bytes.
    pub fn len(&self) -> u64
        ensures length { result ≡ length self.now.device.content }
        ensures below { result < 2 ^ 32 }
    {
        self.device.len()
    }

    /// Returns the device.
    pub fn flash(&self) -> &F
        ensures flash { result.now ≡ self.now.flash }
        ensures facts { F.facts result.now ≡ self.now.device }
    {
        &self.device
    }

    /// Returns the device. No write is pending.
    pub fn into_flash(self) -> F
        ensures flash { result ≡ self.flash }
        ensures facts { F.facts result ≡ self.device }
    {
        let Paged { device, .. } = self;
        device
    }

    /// Reads up to 4096 bytes.
    pub fn read_small(&mut self, at: u64, out: &mut [u8]) -> Result<(), FlashFault>
        requires { IsPiece at (length out.old) self.old.device }

        ensures after { HasSeen at (length out.old) self.old self.new result }
        ensures read { IsTrue self.old.device.honest
            → OnOk result (out.new ≡ slice_range self.old.device.content at (at + length out.old)) }
    {
        let n = out.len();
        self.fetch(at, n)?;
        out.copy_from_slice(self.part(at, n));
        Ok(())
    }

    /// Returns n bytes at an offset.
    pub fn piece(&mut self, at: u64, n: usize) -> Result<&[u8], FlashFault>
        requires { IsPiece at n self.old.device }

        ensures* after { sem 𝓛 (Rests (the_row F.row F.Flash) self.entry (λ new.
            HasSeen at n self.old new result)) }
        ensures size { IfOk result (λ bytes. length bytes.now ≡ n) }
        ensures read { IsTrue self.old.device.honest
            → IfOk result (λ bytes. bytes.now ≡ slice_range self.old.device.content at (at + n)) }
    {
        self.fetch(at, n)?;
        let window = &*self;
        Ok(window.part(at, n))
    }

    fn covers(&self, at: u64, n: usize) -> bool
        ensures { IsTrue result ↔ Covers self.now.held at n }
    {
        let Buffered::Window { at: from, size } = self.held else {
            return false;
        };
        // The contract uses the buffered length.
        let held = self.buffer[..size].len();
        from <= at && n <= held && at - from <= (held - n) as u64
    }

    fn fetch(&mut self, at: u64, n: usize) -> Result<(), FlashFault>
        requires { IsPiece at n self.old.device }

        ensures { HasSeen at n self.old self.new result }
    {
        if self.covers(at, n) {
            return Ok(());
        }
        let size = (self.device.len() - at).min(PIECE as u64) as usize;
        self.held = Buffered::Nothing;
        load(&mut self.device, &mut self.buffer, at, size)?;
        self.held = Buffered::Window { at, size };
        Ok(())
    }

    fn part(&self, at: u64, n: usize) -> &[u8]
        requires { Covers self.now.held at n }
        ensures size { length result.now ≡ n }
        ensures read { OnHonest self.now.device
            (λ image. result.now ≡ slice_range image at (at + n)) }
    {
        match self.held {
            Buffered::Window { at: from, .. } => {
                let start = (at - from) as usize;
                &self.buffer[start..start + n]
            }
            _ => &[],
        }
    }

    /// Loads n bytes of a source as the piece.
    pub fn pull<S: Source>(
        &mut self,
        source: &mut S,
        from: u64,
        n: usize,
    ) -> Result<&[u8], SourceFault>
        requires { IsPiece from n (S.facts source.old) }

        ensures call { OneCall (refusals result) (S.facts source.old) (S.facts source.new) }
        ensures* after { sem 𝓛 (Rests (the_row F.row F.Flash) self.entry (λ new.
            HasPulled self.old new result)) }
        ensures size { IfOk result (λ bytes. length bytes.now ≡ n) }

        // If the source is honest.
        ensures read { IsTrue (S.facts source.old).honest → IfOk result
            (λ bytes. bytes.now ≡ slice_range (S.facts source.old).content from (from + n)) }
        ensures unchanged { OnHonest (S.facts source.old)
            (λ content. (S.facts source.new).content ≡ content) }
    {
        self.held = Buffered::Nothing;
        load_from(source, &mut self.buffer, from, n)?;
        self.held = Buffered::Piece { size: n };
        Ok(&self.buffer[..n])
    }

    /// Writes the piece. After a fault, the range is unspecified.
    pub fn push(&mut self, at: u64) -> Result<(), FlashFault>
        requires { (bytes : List ℕ) × (self.old.held ≡ Piece bytes)
            × (at + length bytes ≤ length self.old.device.content) }

        ensures after { (bytes : List ℕ) → self.old.held ≡ Piece bytes
            → OneWrite at bytes self.old.device self.new.device result }
        ensures same_piece { self.new.held ≡ self.old.held }
    {
        let size = match self.held {
            Buffered::Piece { size } => size,
            _ => 0,
        };
        self.device.write_at(at, &self.buffer[..size])
    }

    /// Writes a cell's first bytes atomically.
    pub fn commit(&mut self, at: u64, bytes: &[u8; COMMIT_LENGTH]) -> Result<(), FlashFault>
        requires { at + length bytes.now ≤ length self.old.device.content }

        ensures after { OneCommit at bytes.now self.old.device self.new.device result }
        ensures dropped { self.new.held ≡ Nothing }
    {
        self.held = Buffered::Nothing;
        self.device.commit_at(at, bytes)
    }

    /// Writes a byte n times. After a fault, up to 4096 bytes are unspecified.
    pub fn fill(&mut self, at: u64, n: u64, byte: u8) -> Result<(), FlashFault>
        requires { at + n ≤ length self.old.device.content }

        ensures after { HasFilled at n byte self.old.device self.new.device result }
        ensures dropped { self.new.held ≡ Nothing }
    {
        self.held = Buffered::Nothing;
        self.buffer = [byte; PIECE];
        write_copies(&mut self.device, at, n, &self.buffer, byte)
    }

    /// Writes a source's first n bytes. After a device fault, up to 4096 bytes are unspecified.
    pub fn copy_in<S: Source>(&mut self, at: u64, n: u64, source: &mut S) -> Result<(), CopyFault>
        requires inside { at + n ≤ length self.old.device.content }
        requires in_source { n ≤ length (S.facts source.old).content }

        ensures after { HasCopiedIn at n self.old.device self.new.device
            (S.facts source.old) (S.facts source.new) result }
        ensures dropped { self.new.held ≡ Nothing }
    {
        self.copy_in_watched(at, n, source, &mut Unwatched)?;
        Ok(())
    }

    /// Copies like `copy_in`, and first shows each piece to the watcher.
    pub fn copy_in_watched<S: Source, W: Watch>(
        &mut self,
        at: u64,
        n: u64,
        source: &mut S,
        watch: &mut W,
    ) -> Result<(), CopyInFault>
        requires inside { at + n ≤ length self.old.device.content }
        requires in_source { n ≤ length (S.facts source.old).content }

        ensures after { HasCopiedIn at n self.old.device self.new.device
            (S.facts source.old) (S.facts source.new) (as_copy result) }
        ensures dropped { self.new.held ≡ Nothing }
        // If the source is honest, on any device.
        ensures shown { IsTrue (S.facts source.old).honest → (seen : List ℕ) → W.saw watch.old seen
            → OnOk result (W.saw watch.new (seen ++ take n (S.facts source.old).content)) }
    {
        self.held = Buffered::Nothing;
        copy_pieces(&mut self.device, &mut self.buffer, at, n, source, watch)
    }

    /// Writes n bytes into a sink. After a fault, the sink has a proper prefix.
    pub fn copy_out<W: Sink>(&mut self, at: u64, n: u64, out: &mut W) -> Result<(), CopyFault>
        requires { at + n ≤ length self.old.device.content }

        ensures after { HasCopiedOut W.Sink
            ((n + 4095) / 4096) at n self.old self.new out.old out.new result }
        ensures pieces { OnHonest self.old.device (λ image. IsErrOf result CopyFault.Device
            → (k : ℕ) × (k < n) × (k % 4096 ≡ 0) × Appends
            (W.contents out.old) (W.contents out.new) (slice_range image at (at + k))) }
    {
        if let Buffered::Piece { .. } = self.held {
            self.held = Buffered::Nothing;
        }
        let _len = self.len();
        let mut done = 0;
        while done < n {
            let size = (n - done).min(PIECE as u64);
            self.copy_piece(at + done, size as usize, out)?;
            done += size;
        }
        Ok(())
    }

    fn copy_piece<W: Sink>(&mut self, at: u64, n: usize, out: &mut W) -> Result<(), CopyFault>
        requires piece { IsPiece at n self.old.device }
        requires some { 0 < n }

        ensures after { HasCopiedOut W.Sink 1 at n self.old self.new out.old out.new result }
        ensures none { IsErrOf result CopyFault.Device
            → Keeps (W.contents out.old) (W.contents out.new) }
    {
        let bytes = self.piece(at, n)?;
        put_all(out, bytes)?;
        Ok(())
    }
}

fn load<F: Flash>(device: &mut F, buffer: &mut [u8], at: u64, n: usize) -> Result<(), FlashFault>
    requires piece { IsPiece at n (F.facts device.old) }
    requires room { n ≤ length buffer.old }

    ensures { OneRead at n (F.facts device.old) (F.facts device.new) result (take n buffer.new) }
{
    device.read_at(at, &mut buffer[..n])
}

fn load_from<S: Source>(
    source: &mut S,
    buffer: &mut [u8],
    at: u64,
    n: usize,
) -> Result<(), SourceFault>
    requires piece { IsPiece at n (S.facts source.old) }
    requires room { n ≤ length buffer.old }

    ensures { OneRead at n (S.facts source.old) (S.facts source.new) result (take n buffer.new) }
{
    source.read_at(at, &mut buffer[..n])
}

fn copy_pieces<F: Flash, S: Source, W: Watch>(
    device: &mut F,
    buffer: &mut [u8; PIECE],
    at: u64,
    n: u64,
    source: &mut S,
    watch: &mut W,
) -> Result<(), CopyInFault>
    requires inside { at + n ≤ length (F.facts device.old).content }
    requires in_source { n ≤ length (S.facts source.old).content }

    ensures after { HasCopiedIn at n (F.facts device.old) (F.facts device.new)
        (S.facts source.old) (S.facts source.new) (as_copy result) }
    ensures shown { IsTrue (S.facts source.old).honest → (seen : List ℕ) → W.saw watch.old seen
        → OnOk result (W.saw watch.new (seen ++ take n (S.facts source.old).content)) }
{
    let _len = device.len();
    let mut done = 0;
    while done < n {
        let size = (n - done).min(PIECE as u64);
        load_from(source, buffer, done, size as usize)?;
        let piece = &buffer[..size as usize];
        watch.see(piece);
        device.write_at(at + done, piece)?;
        done += size;
    }
    Ok(())
}

fn write_copies<F: Flash>(
    device: &mut F,
    at: u64,
    n: u64,
    copies: &[u8],
    byte: u8,
) -> Result<(), FlashFault>
    requires inside { at + n ≤ length (F.facts device.old).content }
    requires all { copies.now ≡ replicate 4096 byte }

    ensures { HasFilled at n byte (F.facts device.old) (F.facts device.new) result }
{
    let _len = device.len();
    let mut done = 0;
    while done < n {
        let size = (n - done).min(PIECE as u64);
        device.write_at(at + done, &copies[..size as usize])?;
        done += size;
    }
    Ok(())
}
