//! Hashers of all algorithms.
ghost use Rattle.std.specs.Prelude.{◌≡◌, ℕ, List, [], ◌++◌, length};
ghost use Rattle.cbfs_anchor.specs.Algorithms.{Holds, algorithm_of, digest_by, digest_len};

use crate::algorithm::Algorithm;
use sha1::Sha1;
use sha2::{Digest, Sha224, Sha256, Sha384, Sha512};

/// A hasher of one of the algorithms.
#[derive(Drop)]
pub enum Hasher {
    Sha1(Sha1),
    Sha256(Sha256),
    Sha512(Sha512),
    Sha224(Sha224),
    Sha384(Sha384),
}

impl Hasher {
    /// Creates a hasher of no data.
    #[tactic(auto, unfolding(crate::specs::Algorithms::Holds))]
    pub fn new(algorithm: Algorithm) -> Hasher
        ensures algorithm { algorithm_of result ≡ algorithm }
        ensures empty { Holds result [] }
    {
        match algorithm {
            Algorithm::Sha1 => Hasher::Sha1(Sha1::new()),
            Algorithm::Sha256 => Hasher::Sha256(Sha256::new()),
            Algorithm::Sha512 => Hasher::Sha512(Sha512::new()),
            Algorithm::Sha224 => Hasher::Sha224(Sha224::new()),
            Algorithm::Sha384 => Hasher::Sha384(Sha384::new()),
        }
    }

    /// Receives the next bytes.
    #[tactic(auto, unfolding(crate::specs::Algorithms::Holds))]
    pub fn update(&mut self, bytes: &[u8])
        ensures algorithm { algorithm_of self.new ≡ algorithm_of self.old }
        ensures more { (message : List ℕ) → Holds self.old message
            → Holds self.new (message ++ bytes.now) }
    {
        match self {
            Hasher::Sha1(state) => state.update(bytes),
            Hasher::Sha256(state) => state.update(bytes),
            Hasher::Sha512(state) => state.update(bytes),
            Hasher::Sha224(state) => state.update(bytes),
            Hasher::Sha384(state) => state.update(bytes),
        }
    }

    /// Writes the digest into `out`, which has its length.
    #[tactic(auto, unfolding(crate::specs::Algorithms::Holds, crate::specs::Algorithms::digest_by))]
    pub fn finish(self, out: &mut [u8])
        requires { length out.old ≡ digest_len (algorithm_of self) }
        ensures { (message : List ℕ) → Holds self message
            → out.new ≡ digest_by (algorithm_of self) message }
    {
        match self {
            Hasher::Sha1(state) => out.copy_from_slice(&state.finalize()),
            Hasher::Sha256(state) => out.copy_from_slice(&state.finalize()),
            Hasher::Sha512(state) => out.copy_from_slice(&state.finalize()),
            Hasher::Sha224(state) => out.copy_from_slice(&state.finalize()),
            Hasher::Sha384(state) => out.copy_from_slice(&state.finalize()),
        }
    }
}
