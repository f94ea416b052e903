//! A source with injected faults.
ghost use Rattle.std.specs.Prelude.{◌≡◌, length, true};
ghost use Rattle.flash_device.specs.Device.{IsPiece, OneRead};
ghost use Rattle.flash_device.specs.TestDevices.{facts_over, PassedOrRefused, refused_once};

use crate::fail_at::FailAt;
use crate::source::{Source, SourceFault};

/// A test source over another: the first reads pass, and all later reads fail without effect.
#[derive(Drop)]
pub struct FailSource<S> {
    pub reads: FailAt<S>,
}

impl<S> FailSource<S> {
    /// Makes a source with `k` successful reads.
    pub fn new(source: S, k: u64) -> FailSource<S>
        ensures { result.reads
            ≡ record { device = source; left = k; part = 0; tears = true; calls = 0; faults = 0 } }
    {
        FailSource {
            reads: FailAt::new(source, k, 0),
        }
    }
}

impl<S: Source> Source for FailSource<S> {
    ghost facts = { λ f. facts_over S.facts f.reads };

    fn len(&self) -> u64 {
        self.reads.device.len()
    }

    fn read_at(&mut self, at: u64, out: &mut [u8]) -> Result<(), SourceFault>
        requires { IsPiece at (length out.old) (S.facts self.old.reads.device) }

        ensures after { OneRead at (length out.old) (facts_over S.facts self.old.reads)
            (facts_over S.facts self.new.reads) result out.new }
        ensures call { PassedOrRefused S.facts self.old.reads self.new.reads result
            (self.new.reads ≡ refused_once self.old.reads) }
    {
        if self.reads.admits() {
            return self.reads.device.read_at(at, out);
        }
        self.reads.refuse();
        Err(SourceFault)
    }
}
