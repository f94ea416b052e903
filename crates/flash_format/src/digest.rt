//! Digests in hash attributes.

ghost use Rattle.std.specs.Prelude.{◌≡◌, ◌≤◌, ◌*◌, length, take, drop};
ghost use Rattle.hex.specs.Hex.{encode_lower};
ghost use Rattle.flash_format.specs.Made.{algorithm_row, algorithm_named, algorithm_numbered};
ghost use Rattle.flash_format.specs.Made.{algorithm, digest_bytes, digest_with};

/// A digest algorithm of FIPS 180-4.
#[derive(Clone, Copy)]
pub enum Algorithm {
    Sha256,
    Sha512,
}

impl Algorithm {
    const ALL: [Algorithm; 2] = [Algorithm::Sha256, Algorithm::Sha512];

    /// Returns the algorithm with a number of vboot's `enum vb2_hash_algorithm`.
    pub fn numbered(number: u32) -> Option<Algorithm>
        ensures { result ≡ algorithm_numbered number }
    {
        Self::ALL.iter().copied().find(|it| it.number() == number)
    }

    /// Returns the algorithm with a printed name.
    pub fn named(name: &str) -> Option<Algorithm>
        ensures { result ≡ algorithm_named name.now }
    {
        Self::ALL.iter().copied().find(|it| it.name() == name)
    }

    /// Returns vboot's number.
    pub fn number(self) -> u32
        ensures { result ≡ (algorithm_row self).number }
    {
        self.row().0
    }

    /// Returns the digest length in bytes.
    pub fn digest_len(self) -> usize
        ensures { result ≡ (algorithm_row self).len }
    {
        self.row().1
    }

    /// Returns the printed name.
    pub fn name(self) -> &'static str
        ensures value { result.now ≡ (algorithm_row self).name }
        ensures short { length result.now ≤ 6 }
    {
        self.row().2
    }

    /// Returns vboot's number, the digest length in bytes, and the printed name.
    fn row(self) -> (u32, usize, &'static str)
        ensures { record { number = result.0; len = result.1; name = result.2.now }
            ≡ algorithm_row self }
    {
        match self {
            Algorithm::Sha256 => (2, 32, "sha256"),
            Algorithm::Sha512 => (3, 64, "sha512"),
        }
    }
}

/// A content digest (FIPS 180-4).
#[derive(Clone, Copy, Debug, PartialEq, Eq)]
pub enum Digest {
    Sha256([u8; 32]),
    Sha512([u8; 64]),
}

impl Digest {
    /// Makes a digest from its bytes.
    pub fn read(algorithm: Algorithm, bytes: &[u8]) -> Digest
        requires { length bytes.now ≡ (algorithm_row algorithm).len }
        ensures { result ≡ digest_with algorithm bytes.now }
    {
        match algorithm {
            Algorithm::Sha256 => {
                let mut digest = [0; 32];
                digest.copy_from_slice(bytes);
                Digest::Sha256(digest)
            }
            Algorithm::Sha512 => {
                let mut digest = [0; 64];
                digest.copy_from_slice(bytes);
                Digest::Sha512(digest)
            }
        }
    }

    /// Returns the algorithm of the digest.
    pub fn algorithm(&self) -> Algorithm
        ensures { result ≡ algorithm self.now }
    {
        match self {
            Digest::Sha256(_) => Algorithm::Sha256,
            Digest::Sha512(_) => Algorithm::Sha512,
        }
    }

    /// Returns the bytes in FIPS 180-4's order.
    pub fn bytes(&self) -> &[u8]
        ensures value { result.now ≡ digest_bytes self.now }
        ensures len { length result.now ≡ (algorithm_row (algorithm self.now)).len }
    {
        match self {
            Digest::Sha256(bytes) => bytes,
            Digest::Sha512(bytes) => bytes,
        }
    }
}

/// Writes lower-case digits to the front of `out`, and returns their number.
pub fn digest_text(digest: &Digest, out: &mut [u8; 128]) -> usize
    ensures count { result ≡ 2 * (algorithm_row (algorithm digest.now)).len }
    ensures text { take result out.new ≡ encode_lower (digest_bytes digest.now) }
    ensures after { drop result out.new ≡ drop result out.old }
{
    let bytes = digest.bytes();
    let end = 2 * bytes.len();
    // The slice has the exact length.
    let _fits = hex::encode_to_slice(bytes, &mut out[..end]);
    end
}
