//! Components with digests: the examples of FIPS 180 for no bytes and for `abc`.
use crate::edit::support::LAST_384;
use crate::rows::support::{Addition, FRESH, PRINT_ALL, WITH_A, adds, changed, prints_all, shows};
use crate::support::{Parts, device_with, equal};
use crate::walk::walks::whole;
use cbfs_edit::{HashChoice, Spot};
use cbfs_walk::{HashState, check_hash, find};
use flash_format::Digest;
use flash_store::Paged;
use std::process::Abort;

/// The bytes before the digest.
const E: [u8; 40] =
    *b"LARCHIVE\0\0\0\0\0\0\0\x50\0\0\0\x1c\0\0\0\x48e\0\0\0hsaH\0\0\0\x2c\0\0\0\x02";

const F: [u8; 40] =
    *b"LARCHIVE\0\0\0\x03\0\0\0\x50\0\0\0\x1c\0\0\0\x48f\0\0\0hsaH\0\0\0\x2c\0\0\0\x02";

const G: [u8; 40] =
    *b"LARCHIVE\0\0\0\0\0\0\0\x50\0\0\0\x1c\0\0\0\x68g\0\0\0hsaH\0\0\0\x4c\0\0\0\x03";

const H: [u8; 40] =
    *b"LARCHIVE\0\0\0\x03\0\0\0\x50\0\0\0\x1c\0\0\0\x68h\0\0\0hsaH\0\0\0\x4c\0\0\0\x03";

const LAST_256: [u8; 28] = *b"LARCHIVE\0\0\0\xe0\xff\xff\xff\xff\0\0\0\0\0\0\0\x1c\0\0\0\0";

const NOTHING_256: [u8; 32] =
    *b"\xe3\xb0\xc4\x42\x98\xfc\x1c\x14\x9a\xfb\xf4\xc8\x99\x6f\xb9\x24\x27\xae\x41\xe4\x64\x9b\
\x93\x4c\xa4\x95\x99\x1b\x78\x52\xb8\x55";

const ABC_256: [u8; 32] =
    *b"\xba\x78\x16\xbf\x8f\x01\xcf\xea\x41\x41\x40\xde\x5d\xae\x22\x23\xb0\x03\x61\xa3\x96\x17\
\x7a\x9c\xb4\x10\xff\x61\xf2\x00\x15\xad";

const NOTHING_512: [u8; 64] =
    *b"\xcf\x83\xe1\x35\x7e\xef\xb8\xbd\xf1\x54\x28\x50\xd6\x6d\x80\x07\xd6\x20\xe4\x05\x0b\x57\
\x15\xdc\x83\xf4\xa9\x21\xd3\x6c\xe9\xce\x47\xd0\xd1\x3c\x5d\x85\xf2\xb0\xff\x83\x18\xd2\
\x87\x7e\xec\x2f\x63\xb9\x31\xbd\x47\x41\x7a\x81\xa5\x38\x32\x7a\xf9\x27\xda\x3e";

const ABC_512: [u8; 64] =
    *b"\xdd\xaf\x35\xa1\x93\x61\x7a\xba\xcc\x41\x73\x49\xae\x20\x41\x31\x12\xe6\xfa\x4e\x89\xa9\
\x7e\xa2\x0a\x9e\xee\xe6\x4b\x55\xd3\x9a\x21\x92\x99\x2a\x27\x4f\xc1\xa8\x36\xba\x3c\x23\
\xa3\xfe\xeb\xbd\x45\x4d\x44\x23\x64\x3c\xe8\x0e\x2a\x9a\xc9\x4f\xa5\x4c\xa4\x9f";

const WITH_E: Parts = &[(0, &E), (40, &NOTHING_256), (128, &LAST_384)];

const WITH_F: Parts = &[
    (0, &E),
    (40, &NOTHING_256),
    (128, &F),
    (168, &ABC_256),
    (200, b"abc"),
    (256, &LAST_256),
];

const WITH_G: Parts = &[(0, &G), (40, &NOTHING_512), (128, &LAST_384)];

const WITH_H: Parts = &[
    (0, &G),
    (40, &NOTHING_512),
    (128, &H),
    (168, &ABC_512),
    (232, b"abc"),
    (256, &LAST_256),
];

const E_TEXT: &[u8] = b"e\t0x0\traw\t0\tnone\n\tattr\t0x68736148\t44\n\thash\tsha256\t\
e3b0c44298fc1c149afbf4c8996fb92427ae41e4649b934ca495991b7852b855\tvalid\n\
(empty)\t0x80\tnull\t352\tnone\n";

const F_TEXT: &[u8] = b"e\t0x0\traw\t0\tnone\n\tattr\t0x68736148\t44\n\thash\tsha256\t\
e3b0c44298fc1c149afbf4c8996fb92427ae41e4649b934ca495991b7852b855\tvalid\n\
f\t0x80\traw\t3\tnone\n\tattr\t0x68736148\t44\n\thash\tsha256\t\
ba7816bf8f01cfea414140de5dae2223b00361a396177a9cb410ff61f20015ad\tvalid\n\
(empty)\t0x100\tnull\t224\tnone\n";

const F_INVALID: &[u8] = b"e\t0x0\traw\t0\tnone\n\tattr\t0x68736148\t44\n\thash\tsha256\t\
e3b0c44298fc1c149afbf4c8996fb92427ae41e4649b934ca495991b7852b855\tvalid\n\
f\t0x80\traw\t3\tnone\n\tattr\t0x68736148\t44\n\thash\tsha256\t\
ba7816bf8f01cfea414140de5dae2223b00361a396177a9cb410ff61f20015ad\tinvalid\n\
(empty)\t0x100\tnull\t224\tnone\n";

const E_UNSUPPORTED: &[u8] = b"e\t0x0\traw\t0\tnone\n\tattr\t0x68736148\t44\n\thash\tunsupported\n\
(empty)\t0x80\tnull\t352\tnone\n";

const G_TEXT: &[u8] = b"g\t0x0\traw\t0\tnone\n\tattr\t0x68736148\t76\n\thash\tsha512\t\
cf83e1357eefb8bdf1542850d66d8007d620e4050b5715dc83f4a921d36ce9ce\
47d0d13c5d85f2b0ff8318d2877eec2f63b931bd47417a81a538327af927da3e\tvalid\n\
(empty)\t0x80\tnull\t352\tnone\n";

const H_TEXT: &[u8] = b"g\t0x0\traw\t0\tnone\n\tattr\t0x68736148\t76\n\thash\tsha512\t\
cf83e1357eefb8bdf1542850d66d8007d620e4050b5715dc83f4a921d36ce9ce\
47d0d13c5d85f2b0ff8318d2877eec2f63b931bd47417a81a538327af927da3e\tvalid\n\
h\t0x80\traw\t3\tnone\n\tattr\t0x68736148\t76\n\thash\tsha512\t\
ddaf35a193617abacc417349ae20413112e6fa4e89a97ea20a9eeee64b55d39a\
2192992a274fc1a836ba3c23a3feebbd454d4423643ce80e2a9ac94fa54ca49f\tvalid\n\
(empty)\t0x100\tnull\t224\tnone\n";

const H_INVALID: &[u8] = b"g\t0x0\traw\t0\tnone\n\tattr\t0x68736148\t76\n\thash\tsha512\t\
cf83e1357eefb8bdf1542850d66d8007d620e4050b5715dc83f4a921d36ce9ce\
47d0d13c5d85f2b0ff8318d2877eec2f63b931bd47417a81a538327af927da3e\tvalid\n\
h\t0x80\traw\t3\tnone\n\tattr\t0x68736148\t76\n\thash\tsha512\t\
ddaf35a193617abacc417349ae20413112e6fa4e89a97ea20a9eeee64b55d39a\
2192992a274fc1a836ba3c23a3feebbd454d4423643ce80e2a9ac94fa54ca49f\tinvalid\n\
(empty)\t0x100\tnull\t224\tnone\n";

const G_UNSUPPORTED: &[u8] = b"g\t0x0\traw\t0\tnone\n\tattr\t0x68736148\t75\n\thash\tunsupported\n\
(empty)\t0x80\tnull\t352\tnone\n";

fn hashed<'a>(name: &'a [u8], hash: HashChoice, content: &'a [u8]) -> Addition<'a> {
    Addition {
        name,
        hash,
        spot: Spot::First,
        content,
    }
}

/// Checks the listing after a change.
fn with(rt: &(impl Abort + AllocGlobal), region: Parts, at: usize, bytes: &[u8], text: &[u8]) {
    shows(
        rt,
        &changed(rt, region, at, bytes),
        &PRINT_ALL,
        text,
        Ok(()),
    );
}

#[test]
fn components_with_sha256(rt: HostRuntime) {
    adds(&rt, FRESH, hashed(b"e", HashChoice::Sha256, b""), WITH_E);
    prints_all(&rt, WITH_E, E_TEXT);
    adds(
        &rt,
        WITH_E,
        hashed(b"f", HashChoice::Sha256, b"abc"),
        WITH_F,
    );
    prints_all(&rt, WITH_F, F_TEXT);
}

#[test]
fn content_that_was_changed_under_sha256(rt: HostRuntime) {
    with(&rt, WITH_F, 0xca, b"d", F_INVALID);
}

#[test]
fn an_unknown_algorithm(rt: HostRuntime) {
    with(&rt, WITH_E, 39, b"\x09", E_UNSUPPORTED);
}

#[test]
fn components_with_sha512(rt: HostRuntime) {
    adds(&rt, FRESH, hashed(b"g", HashChoice::Sha512, b""), WITH_G);
    prints_all(&rt, WITH_G, G_TEXT);
    adds(
        &rt,
        WITH_G,
        hashed(b"h", HashChoice::Sha512, b"abc"),
        WITH_H,
    );
    prints_all(&rt, WITH_H, H_TEXT);
}

#[test]
fn content_that_was_changed_under_sha512(rt: HostRuntime) {
    with(&rt, WITH_H, 234, b"d", H_INVALID);
}

#[test]
fn a_hash_attribute_that_is_too_short(rt: HostRuntime) {
    with(&rt, WITH_G, 35, b"\x4b", G_UNSUPPORTED);
}

fn has_state(rt: &(impl Abort + AllocGlobal), region: Parts, name: &[u8], want: HashState) {
    let mut paged = Paged::new(device_with(rt, 512, region));
    let place = whole(rt, &paged);
    let found = find(&mut paged, place, name).expect(rt, "a search");
    let cell = found.expect(rt, "a component");
    equal(rt, &check_hash(&mut paged, place, &cell), &Ok(want));
    drop(paged);
}

/// A digest with an unknown algorithm.
const OTHER: Parts = &[(0, &E), (39, b"\x09"), (40, &NOTHING_256), (128, &LAST_384)];

/// The digest of `abc` before other content.
const CHANGED: Parts = &[(0, &H), (40, &ABC_512), (104, b"abd"), (128, &LAST_384)];

#[test]
fn each_state_of_a_digest(rt: HostRuntime) {
    has_state(&rt, WITH_A, b"a", HashState::Absent);
    has_state(&rt, WITH_F, b"f", HashState::Valid(Digest::Sha256(ABC_256)));
    has_state(
        &rt,
        CHANGED,
        b"h",
        HashState::Invalid(Digest::Sha512(ABC_512)),
    );
    has_state(&rt, OTHER, b"e", HashState::Unsupported);
}
