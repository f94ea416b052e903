//! Findings of a region.
ghost use Rattle.std.specs.Prelude.{◌≡◌};
ghost use Rattle.check_findings.specs.RegionFindings.{hash_finding};
ghost use Rattle.flash_device.specs.Pages.{Returns};

use cbfs_anchor::StoredHash;
use cbfs_walk::HashState;
use flash_format::{Algorithm, DamageKind};
use smallvec::SmallVec;
use std::alloc::{AllocError, Global};
use std::hash::{Hash, Hasher};
use std::marker::Model;

/// A component's name, without its NUL.
#[derive(Drop)]
pub struct Name {
    bytes: SmallVec<u8, 16>,
}

impl Model for Name {
    ghost use Rattle.std.specs.Prelude.{ℕ, List};

    ghost Value = { List ℕ };

    ghost view = { λ n. n.bytes.items };
}

impl Name {
    /// Copies these bytes.
    pub fn copied(alloc: Global, bytes: &[u8]) -> Result<Name, AllocError>
        ensures { Returns result bytes.now }
    {
        let bytes = SmallVec::from_slice(alloc, bytes)?;
        Ok(Name { bytes })
    }

    /// Returns the bytes.
    pub fn as_slice(&self) -> &[u8]
        ensures { result.now ≡ self.now }
    {
        self.bytes.as_slice()
    }
}

impl PartialEq for Name {
    ghost use Rattle.std.specs.Cmp.Lexicographic.{nat_list_eq_equiv};
    ghost use Rattle.std.specs.Cmp.{partial_equiv_from_equiv};
    ghost use Rattle.std.specs.Str.{bytes_eq};

    ghost eq = { bytes_eq };

    ghost laws = { partial_equiv_from_equiv nat_list_eq_equiv };

    fn eq(&self, other: &Name) -> bool {
        self.as_slice() == other.as_slice()
    }
}

impl Eq for Name {
    ghost use Rattle.std.specs.Cmp.Lexicographic.{nat_list_eq_equiv};

    ghost laws = { nat_list_eq_equiv };
}

/// One write: a slice's `hash` would write each byte.
impl Hash for Name {
    ghost use Rattle.std.specs.Prelude.{[], ◌∷◌};
    ghost use Rattle.std.proofs.Common.{ap};
    ghost use Rattle.std.proofs.lemmas.Slice.Eq.{bytes_eq-Decides};

    ghost hash_input = { λ name. name ∷ [] };

    ghost respects_eq = { λ x y same. ap (λ name. name ∷ []) ((bytes_eq-Decides x y).0 same) };

    fn hash<H: Hasher>(&self, state: &mut H) {
        state.write(self.as_slice());
    }
}

/// The state of a digest, without its bytes.
#[derive(Clone, Copy)]
pub enum HashFinding {
    Missing,
    /// The digest equals the content's digest.
    Valid(Algorithm),
    Invalid(Algorithm),
    /// Neither SHA-256 nor SHA-512, or too short a digest.
    Unsupported,
}

impl HashFinding {
    /// Returns the state without bytes.
    pub fn of(state: HashState) -> HashFinding
        ensures { result ≡ hash_finding state }
    {
        match state {
            HashState::Absent => HashFinding::Missing,
            HashState::Valid(digest) => HashFinding::Valid(digest.algorithm()),
            HashState::Invalid(digest) => HashFinding::Invalid(digest.algorithm()),
            HashState::Unsupported => HashFinding::Unsupported,
        }
    }
}

/// A fault of a component's attributes: coreboot's programs or firmware read them in another way
/// than this project's commands, or refuse them.
#[derive(Clone, Copy)]
pub enum AttributeFault {
    /// An attribute behind one with the tag 0 or 0xffffffff, where the list ends.
    BehindEnd,
    /// A compression attribute of another length than 16 bytes.
    CompressionLength,
    /// A digest of another length than its algorithm's.
    DigestLength,
    /// A digest with a number that no algorithm has.
    UnknownAlgorithm,
    /// A second digest. Commands compare the first only.
    SecondDigest,
    /// A stage without a stage attribute, or its first one has another length than 24 bytes.
    NoStage,
    /// A stage whose entry point lies outside its memory.
    EntryOutside,
}

/// The range, type, compression, digest and attributes of a component's content.
#[derive(Clone, Copy)]
pub struct Content {
    /// The content's offset in the region.
    pub start: u64,
    pub kind: u32,
    pub len: u32,
    /// The first compression attribute, or 0 without one.
    pub compression: u32,
    pub hash: HashFinding,
    /// The first hash attribute.
    pub stored: Option<StoredHash>,
    /// The first fault of the attributes.
    pub fault: Option<AttributeFault>,
}

/// A finding of a region. Each `at` is an offset in the region, in bytes. `BadSize` and `NotCbfs`
/// exclude other findings.
#[derive(Drop)]
pub enum RegionFinding {
    /// The size is 0 or no multiple of 64.
    BadSize,
    /// The region doesn't begin with an entry.
    NotCbfs,
    /// `is_shadowed`: an earlier component has the name, so no search finds this component.
    Component {
        at: u64,
        name: Name,
        is_shadowed: bool,
        content: Content,
    },
    /// An empty entry of type 0: a deleted component.
    Deleted {
        at: u64,
    },
    /// The entries fill the region.
    Complete,
    /// The entries end at an offset without an entry. The rest of the region is unused.
    Tail {
        at: u64,
    },
    /// The first byte of the tail, except the region's last four, that isn't 0xff (erased) or 0x00
    /// (cleared).
    TailFilled {
        at: u64,
    },
    /// An entry in the tail at a multiple of 64, beyond each walk.
    TailEntry {
        at: u64,
    },
    /// The entries end at a damaged entry. `kind` is its first failed check.
    Damaged {
        at: u64,
        kind: DamageKind,
    },
    /// The number of components.
    Components(u64),
    /// The bytes of all empty entries.
    FreeBytes(u64),
    /// The longest content, in bytes, that `add` takes without `-A`, `-a` and `-b`, with a name of
    /// at most 3 bytes; `None`: even an empty content has no room.
    LargestContent(Option<u64>),
    /// The size of the area is no multiple of 64, so the bytes after the last multiple have no
    /// entry. coreboot's tools read such an area, and `cbfstool` of this project refuses it.
    UnalignedSize,
}
