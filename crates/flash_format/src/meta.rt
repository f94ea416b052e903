//! A component's metadata: the head, the name, the hash attribute and a gap.

ghost use Rattle.std.specs.Prelude.{◌≡◌, ◌≤◌, ◌<◌, ◌+◌, ◌++◌, length, take, drop};
ghost use Rattle.std.specs.Option.{option_copied};
ghost use Rattle.arrayvec.specs.ArrayVec.{array_vec_len};
ghost use Rattle.flash_format.specs.Made.{IsDigest, meta_length, hash_bytes, hash_len, metadata_of, described_len};

use crate::attribute::AttrHead;
use crate::buffer::push_text;
use crate::digest::Digest;
use crate::head::{Head, NAME_PADDING};
use arrayvec::ArrayVec;

/// The maximum length in bytes: name 127, digest 64, gap 63.
pub const LONGEST_METADATA: usize = Head::LENGTH + 128 + 76 + 63;

/// A component's properties except its content.
#[derive(Clone, Copy)]
pub struct Meta<'a> {
    /// Without a NUL.
    pub name: &'a [u8],
    /// The type; 0 and 0xffffffff would make free space.
    pub kind: u32,
    /// The content's length in bytes.
    pub len: u32,
    /// The number of 0xff bytes before the content.
    pub gap: u32,
    /// The hash attribute's digest.
    pub digest: Option<&'a Digest>,
}

/// Returns the hash attribute's length in bytes, or 0.
#[tactic(auto, unfolding(crate::specs::Made::hash_attribute))]
pub fn attr_len(digest: Option<&Digest>) -> usize
    ensures len { result ≡ hash_len (option_copied digest.entry) }
    ensures bytes { result ≡ length (hash_bytes (option_copied digest.entry)) }
    ensures short { result ≤ 76 }
    ensures digest { IsDigest (option_copied digest.entry) }
{
    match digest {
        None => 0,
        Some(digest) => 12 + digest.bytes().len(),
    }
}

/// Returns the length in bytes without the gap. `attr_len` is the hash attribute's length.
pub fn meta_len(name_len: usize, attr_len: usize) -> usize
    requires name { name_len ≤ 127 }
    requires attribute { attr_len ≤ 76 }
    ensures { result ≡ meta_length name_len attr_len }
{
    // The name and one to four NULs.
    let name_room = (name_len / NAME_PADDING + 1) * NAME_PADDING;
    Head::LENGTH + name_room + attr_len
}

/// Writes the metadata to the front of `out`, and returns its length in bytes.
pub fn write_meta(meta: &Meta<'_>, out: &mut [u8]) -> usize
    requires name { length meta.now.name.now ≤ 127 }
    requires gap { meta.now.gap < 64 }
    requires room { described_len meta.now ≤ length out.old }
    ensures count { result ≡ length (metadata_of meta.now) }
    ensures len { result ≡ described_len meta.now }
    ensures written { take result out.new ≡ metadata_of meta.now }
    ensures after { drop result out.new ≡ drop result out.old }

    // Required by `made_cells_are_read_as_made`.
    ensures digest { IsDigest (option_copied meta.now.digest) }
{
    let name_end = meta_len(meta.name.len(), 0);
    let attr_len = attr_len(meta.digest);
    let head = Head {
        len: meta.len,
        kind: meta.kind,
        attributes_offset: match meta.digest {
            None => 0,
            Some(_) => name_end as u32,
        },
        offset: (name_end + attr_len) as u32 + meta.gap,
    };
    let mut bytes = ArrayVec::new();
    push_text(&mut bytes, &head.write());
    push_text(&mut bytes, meta.name);
    push_text(
        &mut bytes,
        &[0; NAME_PADDING][..name_end - Head::LENGTH - meta.name.len()],
    );
    push_hash(&mut bytes, meta.digest);
    push_text(&mut bytes, &[0xff; 63][..meta.gap as usize]);
    let end = bytes.len();
    out[..end].copy_from_slice(bytes.as_slice());
    end
}

/// Appends the hash attribute, if any.
#[tactic(auto, unfolding(crate::specs::Made::hash_attribute))]
fn push_hash(bytes: &mut ArrayVec<u8, LONGEST_METADATA>, digest: Option<&Digest>)
    requires { array_vec_len bytes.old + 76 ≤ LONGEST_METADATA }
    ensures { bytes.new.items ≡ bytes.old.items ++ hash_bytes (option_copied digest.entry) }
{
    if let Some(digest) = digest {
        let len = 12 + digest.bytes().len() as u32;
        push_text(bytes, &AttrHead::HASH.to_be_bytes());
        push_text(bytes, &len.to_be_bytes());
        push_text(bytes, &digest.algorithm().number().to_be_bytes());
        push_text(bytes, digest.bytes());
    }
}
