//! Digest algorithms of anchors.
ghost use Rattle.std.specs.Prelude.{◌≡◌, ◌≤◌, length};
ghost use Rattle.cbfs_anchor.specs.Algorithms.{number_of, digest_len, algorithm_numbered};
ghost use Rattle.cbfs_anchor.specs.AlgorithmNames.{name_of};

/// A digest algorithm of an anchor.
#[derive(Clone, Copy, Debug, PartialEq, Eq)]
pub enum Algorithm {
    Sha1,
    Sha256,
    Sha512,
    Sha224,
    Sha384,
}

impl Algorithm {
    const ALL: [Algorithm; 5] = [
        Algorithm::Sha1,
        Algorithm::Sha256,
        Algorithm::Sha512,
        Algorithm::Sha224,
        Algorithm::Sha384,
    ];

    /// Returns the algorithm with a number of vboot's `enum vb2_hash_algorithm`.
    pub fn numbered(number: u32) -> Option<Algorithm>
        ensures { result ≡ algorithm_numbered number }
    {
        Self::ALL.iter().copied().find(|it| it.number() == number)
    }

    /// Returns vboot's number.
    pub fn number(self) -> u32
        ensures { result ≡ number_of self }
    {
        match self {
            Algorithm::Sha1 => 1,
            Algorithm::Sha256 => 2,
            Algorithm::Sha512 => 3,
            Algorithm::Sha224 => 4,
            Algorithm::Sha384 => 5,
        }
    }

    /// Returns the digest length in bytes.
    pub fn digest_len(self) -> usize
        ensures len { result ≡ digest_len self }
        ensures short { result ≤ 64 }
    {
        match self {
            Algorithm::Sha1 => 20,
            Algorithm::Sha256 => 32,
            Algorithm::Sha512 => 64,
            Algorithm::Sha224 => 28,
            Algorithm::Sha384 => 48,
        }
    }

    /// Returns the printed name.
    pub fn name(self) -> &'static str
        ensures value { result.now ≡ name_of self }
        ensures short { length result.now ≤ 6 }
    {
        match self {
            Algorithm::Sha1 => "sha1",
            Algorithm::Sha256 => "sha256",
            Algorithm::Sha512 => "sha512",
            Algorithm::Sha224 => "sha224",
            Algorithm::Sha384 => "sha384",
        }
    }
}
