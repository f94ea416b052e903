//! Removals.
use crate::edit::support::{DELETED, EMPTY_64, M, NULL_340, X1, X2};
use crate::rows::support::{FRESH, prints, removes};
use crate::support::Parts;
use cbfs_commands::Refusal;

const BETWEEN: Parts = &[(0, &DELETED), (64, &M), (128, &NULL_340)];

#[test]
fn a_removal_joins_the_free_space_on_both_sides(rt: HostRuntime) {
    removes(&rt, BETWEEN, b"m", Ok(()), FRESH);
}

const TWICE: Parts = &[(0, &X1), (64, &X2), (128, &NULL_340)];

const ONCE: Parts = &[(0, &EMPTY_64), (64, &X2), (128, &NULL_340)];

#[test]
fn of_two_components_of_a_name_the_first_is_removed(rt: HostRuntime) {
    removes(&rt, TWICE, b"x", Ok(()), ONCE);
    let text =
        b"(empty)\t0x0\tnull\t36\tnone\nx\t0x40\traw\t2\tnone\n(empty)\t0x80\tnull\t340\tnone\n";
    prints(&rt, ONCE, text, Ok(()));
    removes(&rt, ONCE, b"x", Ok(()), FRESH);
    prints(&rt, FRESH, b"(empty)\t0x0\tnull\t480\tnone\n", Ok(()));
    removes(&rt, FRESH, b"x", Err(Refusal::NotFound), FRESH);
}
