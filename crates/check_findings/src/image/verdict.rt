//! Bad findings.
ghost use Rattle.std.specs.Prelude.{◌≡◌};
ghost use Rattle.check_findings.specs.Verdicts as verdicts;

use crate::region::{Content, HashFinding};
use cbfs_anchor::{Algorithm, Anchor, StoredHash, has_hash_of};

/// The maximum number of bytes before a content.
const LONGEST_METADATA: u64 = 256;

/// Returns whether the firmware can't find the component whose entry begins at `at`, because its
/// metadata, the bytes of the entry before the content, are longer than 256 bytes.
pub fn has_long_metadata(at: u64, content: Content) -> bool
    ensures { result ≡ verdicts.has_long_metadata at content }
{
    content.start.saturating_sub(at) > LONGEST_METADATA
}

/// Returns whether only the firmware loads components of this type: stages, payloads and fsp.
fn is_firmware(kind: u32) -> bool
    ensures { result ≡ verdicts.is_firmware kind }
{
    matches!(kind, 0x10 | 0x11 | 0x20 | 0x21 | 0x60)
}

/// Returns whether a component of this type needs no digest: bootblock or cbfs header.
fn is_exempt(kind: u32) -> bool
    ensures { result ≡ verdicts.is_exempt kind }
{
    kind == 1 || kind == 2
}

/// Returns whether a component's hash attribute, if any, has a digest of any algorithm that anchors
/// can have.
fn has_digest_of_some_algorithm(stored: Option<StoredHash>) -> bool
    ensures { result ≡ verdicts.has_digest_of_some_algorithm stored }
{
    let Some(hash) = stored else {
        return false;
    };
    match Algorithm::numbered(hash.number) {
        Some(algorithm) => algorithm.digest_len() <= hash.len as usize,
        None => false,
    }
}

/// The requirements of a region for the digests of its components.
#[derive(Clone, Copy)]
pub struct HashRules {
    /// The user requires a digest of each component, except the types bootblock and cbfs header.
    pub needs_all: bool,
    /// The image's anchor, if its firmware loads components from the region.
    pub anchor: Option<Anchor>,
}

impl HashRules {
    /// Returns whether a component's digest is bad.
    pub fn is_bad(self, name: &[u8], content: Content) -> bool
        ensures { result ≡ verdicts.is_bad_hash self name.now content }
    {
        match content.hash {
            HashFinding::Invalid(_) => !(self.anchor.is_some() && name == b"intel_fit".as_slice()),
            HashFinding::Missing | HashFinding::Unsupported => {
                self.is_required(content) || self.firmware_refuses(content)
            }
            HashFinding::Valid(_) => false,
        }
    }

    /// Returns whether the user requires a digest of the component.
    fn is_required(self, content: Content) -> bool
        ensures { result ≡ verdicts.is_required self content }
    {
        self.needs_all && !is_exempt(content.kind)
    }

    /// Returns whether the firmware refuses to load a component, because it has no digest.
    fn firmware_refuses(self, content: Content) -> bool
        ensures { result ≡ verdicts.firmware_refuses self content }
    {
        self.anchor.is_some()
            && (is_firmware(content.kind) && !has_digest_of_some_algorithm(content.stored))
    }

    /// Returns whether a component needs a digest: on request or under an anchor, except the types
    /// bootblock and cbfs header.
    pub fn need(self, content: Content) -> bool
        ensures { result ≡ verdicts.needs_hash self content }
    {
        (self.needs_all || self.anchor.is_some()) && !is_exempt(content.kind)
    }

    /// Returns whether a component under an anchor has a hash attribute, but no digest of the
    /// anchor's algorithm.
    pub fn differ(self, content: Content) -> bool
        ensures { result ≡ verdicts.has_hash_not_of_anchor self content }
    {
        match self.anchor {
            Some(anchor) => {
                content.stored.is_some() && !has_hash_of(anchor.algorithm, content.stored)
            }
            None => false,
        }
    }
}
