//! What components have to satisfy.
ghost use Rattle.std.specs.Prelude.{◌≡◌, IfSome};
ghost use Rattle.cbfs_anchor.specs.Faults.{by_device};
ghost use Rattle.cbfs_anchor.specs.Metadata.{fault_by, found_fault, has_hash_of, loaded_fault};

use crate::algorithm::Algorithm;
use crate::fault::SealFault;

/// What the components of COREBOOT have to satisfy, besides valid entries.
#[derive(Clone, Copy, Debug, PartialEq, Eq)]
pub enum Demand {
    Nothing,
    /// The firmware finds each component, and a bootblock has no digest of itself.
    Found,
    /// The firmware also loads each component: it has a digest of the anchor's algorithm, except
    /// the types bootblock and cbfs header.
    Loaded,
}

/// A component's first hash attribute.
#[derive(Clone, Copy, Debug, PartialEq, Eq)]
pub struct StoredHash {
    /// The algorithm's number.
    pub number: u32,
    /// The number of bytes after the number.
    pub len: u32,
}

const BOOTBLOCK: u32 = 1;

const HEADER: u32 = 2;

/// The maximum number of bytes before the content of a component.
pub const LONGEST_METADATA: u32 = 256;

/// Returns the fault of a component at a position, by its type and its number of bytes before the
/// content.
pub fn fault_of(
    demand: Demand,
    algorithm: Algorithm,
    at: u64,
    kind: u32,
    len: u32,
    hash: Option<StoredHash>,
) -> Option<SealFault>
    ensures fault { result ≡ fault_by demand algorithm at kind len hash }
    ensures own { IfSome result (λ fault. by_device fault ≡ 0) }
{
    match demand {
        Demand::Nothing => None,
        Demand::Found => found_fault(at, kind, len, hash),
        Demand::Loaded => match found_fault(at, kind, len, hash) {
            Some(fault) => Some(fault),
            None => loaded_fault(algorithm, at, kind, hash),
        },
    }
}

fn found_fault(at: u64, kind: u32, len: u32, hash: Option<StoredHash>) -> Option<SealFault>
    ensures fault { result ≡ found_fault at kind len hash }
    ensures own { IfSome result (λ fault. by_device fault ≡ 0) }
{
    if len > LONGEST_METADATA {
        return Some(SealFault::TooLong { at });
    }
    if kind == BOOTBLOCK && hash.is_some() {
        return Some(SealFault::HashedBootblock { at });
    }
    None
}

fn loaded_fault(
    algorithm: Algorithm,
    at: u64,
    kind: u32,
    hash: Option<StoredHash>,
) -> Option<SealFault>
    ensures fault { result ≡ loaded_fault algorithm at kind hash }
    ensures own { IfSome result (λ fault. by_device fault ≡ 0) }
{
    if kind == BOOTBLOCK || kind == HEADER || has_hash_of(algorithm, hash) {
        return None;
    }
    Some(SealFault::Unhashed { at })
}

/// Returns whether a component stores a digest of this algorithm.
pub fn has_hash_of(algorithm: Algorithm, hash: Option<StoredHash>) -> bool
    ensures { result ≡ has_hash_of algorithm hash }
{
    match hash {
        Some(hash) => {
            hash.number == algorithm.number() && algorithm.digest_len() <= hash.len as usize
        }
        None => false,
    }
}
