//! Similar names: they differ by a single letter, or by two exchanged letters.

ghost use Rattle.std.specs.Prelude.{◌≡◌, IfOk, drop, map};
ghost use Rattle.cbfs_mistakes.specs.Near.{are_exchanged, differ_in_front, is_near, near_first};

use std::alloc::{AllocError, Global};

/// Returns the letters after the first n.
fn behind<'a>(word: &'a [u8], n: usize) -> &'a [u8]
    ensures { result.now ≡ drop n word.entry.now }
{
    if n < word.len() {
        return &word[n..];
    }
    &[]
}

/// Returns true if both texts begin with the same two letters in exchanged order, and all other
/// letters are equal.
fn are_exchanged(word: &[u8], known: &[u8]) -> bool
    ensures { result ≡ are_exchanged word.now known.now }
{
    if word.len() < 2 || known.len() < 2 {
        return false;
    }
    word[0] == known[1] && word[1] == known[0] && word[2..] == known[2..]
}

/// Returns true if the texts are equal without the first letter of either or both, or with the
/// first two letters exchanged.
fn differ_in_front(word: &[u8], known: &[u8]) -> bool
    ensures { result ≡ differ_in_front word.now known.now }
{
    behind(word, 1) == known
        || word == behind(known, 1)
        || behind(word, 1) == behind(known, 1)
        || are_exchanged(word, known)
}

/// Returns true if two texts differ, after their common prefix, by at most a single missing, added
/// or different letter, or by two exchanged letters.
#[tactic(auto, unfolding(crate::specs::Near::is_near))]
pub fn is_near(word: &[u8], known: &[u8]) -> bool
    ensures { result ≡ is_near word.now known.now }
{
    let (mut rest, mut other) = (word, known);
    while let (Some((x, later)), Some((y, others))) = (rest.split_first(), other.split_first()) {
        if x != y {
            return differ_in_front(rest, other);
        }
        rest = later;
        other = others;
    }
    differ_in_front(rest, other)
}

/// Returns copies of the names near the argument, followed by copies of the other names.
pub fn near_first(alloc: Global, word: &[u8], names: &[Vec<u8>]) -> Result<Vec<Vec<u8>>, AllocError>
    ensures { IfOk result (λ sorted. map (λ name. name.items) sorted.items
        ≡ near_first word.now (map (λ name. name.items) names.now)) }
{
    let mut near = Vec::new(alloc);
    let mut others = Vec::new(alloc);
    for name in names {
        let copy = name.as_slice().to_vec(alloc)?;
        if is_near(word, name.as_slice()) {
            near.push(copy)?;
        } else {
            others.push(copy)?;
        }
    }
    near.append(&mut others)?;
    Ok(near)
}
