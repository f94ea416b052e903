//! Hashers as watchers of a copy.
ghost use Rattle.std.specs.Prelude.{ℕ, List, []};

use flash_device::Watch;
use sha2::Digest;

/// A hasher that watches a copy.
#[derive(Drop)]
pub struct Hashing<H: Digest> {
    hasher: H,
}

impl<H: Digest> Hashing<H> {
    /// Creates a hasher of no data.
    pub fn new() -> Hashing<H>
        ensures { H.holds result.hasher [] }
    {
        Hashing { hasher: H::new() }
    }

    /// Returns the digest.
    pub fn finish(self) -> H::Output
        ensures { (seen : List ℕ) → H.holds self.hasher seen → H.digest_of seen result }
    {
        self.hasher.finalize()
    }
}

impl<H: Digest> Watch for Hashing<H> {
    ghost saw = { λ w seen. H.holds w.hasher seen };

    fn see(&mut self, bytes: &[u8]) {
        self.hasher.update(bytes);
    }
}
