//! Headers of entries and attributes. Scripts in `checks` test the other formats, and the limits.
use crate::support::equal;
use flash_format::{AttrHead, DamageKind, Extent, Head};

const RAW: u32 = 0x50;

const NULL: u32 = 0xffff_ffff;

/// The first 24 bytes of an empty region.
const FRESH: [u8; 24] =
    *b"LARCHIVE\x00\x00\x01\xd4\xff\xff\xff\xff\x00\x00\x00\x00\x00\x00\x00\x28";

fn plain(kind: u32, len: u32) -> Head {
    Head {
        len,
        kind,
        attributes_offset: 0,
        offset: 40,
    }
}

#[test]
fn an_entry_has_a_head(rt: HostRuntime) {
    let head = plain(NULL, 468);
    equal(&rt, &Head::read(&FRESH), &Some(head));
    equal(&rt, &head.write(), &FRESH);
}

#[test]
fn a_head_is_checked(rt: HostRuntime) {
    equal(&rt, &plain(NULL, 0).is_free(), &true);
    let whole = Extent {
        content: 40,
        span: 512,
    };
    equal(&rt, &plain(RAW, 472).check(512), &Ok(whole));
    equal(&rt, &plain(RAW, 473).check(512), &Err(DamageKind::Extent));
}

#[test]
fn an_attribute_has_a_head(rt: HostRuntime) {
    let head = AttrHead {
        tag: AttrHead::COMPRESSION,
        len: 16,
    };
    equal(&rt, &AttrHead::read(b"BCZL\0\0\0\x10"), &head);
    equal(&rt, &head.is_unused(), &false);
    equal(&rt, &head.has_bad_len(15), &true);
}
