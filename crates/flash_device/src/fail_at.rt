//! A device with injected faults.
ghost use Rattle.std.specs.Prelude.{◌≡◌, ◌+◌, ◌-◌, ◌<◌, ◌≤◌, length, take, true, false, IsTrue};
ghost use Rattle.flash_device.specs.Device.{IsPiece, OneRead, OneWrite, OneCommit};
ghost use Rattle.flash_device.specs.TestDevices.{facts_over, PassedOrRefused, RefusedWrite, refused_once};

use crate::counter::Counter;
use crate::flash::{COMMIT_LENGTH, Flash, FlashFault};

/// A test device over another: the first calls pass, and all later calls fail.
///
/// The first failed write still writes a part, like a power failure; other failed calls have no
/// effect. Each is one fault, of either device.
#[derive(Drop)]
pub struct FailAt<F> {
    pub device: F,
    /// The remaining successful calls.
    pub left: u64,
    /// The length of the torn write.
    pub part: usize,
    /// Whether the next failed write is torn.
    pub tears: bool,
    pub calls: Counter,
    pub faults: Counter,
}

impl<F> FailAt<F> {
    /// Makes a device with `k` successful calls and a torn write of up to `part` bytes.
    pub fn new(device: F, k: u64, part: usize) -> FailAt<F>
        ensures { result ≡
            record { device = device; left = k; part = part; tears = true; calls = 0; faults = 0 } }
    {
        FailAt {
            device,
            left: k,
            part,
            tears: true,
            calls: Counter::new(),
            faults: Counter::new(),
        }
    }

    /// Returns the device without its faults.
    pub fn into_inner(self) -> F
        ensures { result ≡ self.device }
    {
        let FailAt { device, .. } = self;
        device
    }

    /// Counts a call, passed or failed.
    pub(crate) fn admits(&mut self) -> bool
        ensures passed { IsTrue result → (0 < self.old.left) × (self.new
            ≡ record self.old { left = self.old.left - 1; calls = self.old.calls + 1 }) }
        ensures refused { result ≡ false → (self.old.left ≡ 0)
            × (self.new ≡ record self.old { calls = self.old.calls + 1 }) }
    {
        self.calls.tick();
        if self.left == 0 {
            return false;
        }
        self.left -= 1;
        true
    }

    /// Counts a failed call.
    pub(crate) fn refuse(&mut self) -> FlashFault
        ensures { self.new ≡ record self.old { faults = self.old.faults + 1 } }
    {
        self.faults.tick();
        FlashFault
    }
}

impl<F: Flash> Flash for FailAt<F> {
    ghost facts = { facts_over F.facts };

    fn len(&self) -> u64 {
        self.device.len()
    }

    fn read_at(&mut self, at: u64, out: &mut [u8]) -> Result<(), FlashFault>
        requires { IsPiece at (length out.old) (F.facts self.old.device) }

        ensures after { OneRead at (length out.old) (facts_over F.facts self.old)
            (facts_over F.facts self.new) result out.new }
        ensures call { PassedOrRefused F.facts self.old self.new result
            (self.new ≡ refused_once self.old) }
    {
        if self.admits() {
            self.device.read_at(at, out)
        } else {
            Err(self.refuse())
        }
    }

    fn write_at(&mut self, at: u64, bytes: &[u8]) -> Result<(), FlashFault>
        requires { IsPiece at (length bytes.now) (F.facts self.old.device) }

        ensures after { OneWrite at bytes.now (facts_over F.facts self.old)
            (facts_over F.facts self.new) result }
        ensures call { PassedOrRefused F.facts self.old self.new result
            (RefusedWrite F.facts at bytes.now self.old self.new) }
    {
        if self.admits() {
            return self.device.write_at(at, bytes);
        }
        if !self.tears {
            return Err(self.refuse());
        }
        self.tears = false;
        write_part(&mut self.device, at, bytes, self.part)?;
        Err(self.refuse())
    }

    fn commit_at(&mut self, at: u64, bytes: &[u8; COMMIT_LENGTH]) -> Result<(), FlashFault>
        requires { at + length bytes.now ≤ length (F.facts self.old.device).content }

        ensures after { OneCommit at bytes.now (facts_over F.facts self.old)
            (facts_over F.facts self.new) result }
        ensures call { PassedOrRefused F.facts self.old self.new result
            (self.new ≡ refused_once self.old) }
    {
        if self.admits() {
            self.device.commit_at(at, bytes)
        } else {
            Err(self.refuse())
        }
    }
}

fn write_part<F: Flash>(
    device: &mut F,
    at: u64,
    bytes: &[u8],
    part: usize,
) -> Result<(), FlashFault>
    requires { IsPiece at (length bytes.now) (F.facts device.old) }

    ensures { OneWrite at (take part bytes.now) (F.facts device.old) (F.facts device.new) result }
{
    device.write_at(at, &bytes[..part.min(bytes.len())])
}
