//! The order of byte strings.
ghost use Rattle.std.specs.Prelude.{◌≡◌, ◌+◌, ◌≤◌, length, take, drop};
ghost use Rattle.std.specs.Bool.{OnTrue};
ghost use Rattle.std.specs.Ordering.{nat_cmp};
ghost use Rattle.std.specs.Cmp.Lexicographic.{slice_cmp};

use std::cmp::Ordering;
use std::simd::u8x32;

/// How many bytes are tested at once.
const BLOCK: usize = 32;

/// How two byte strings compare: the first byte that differs decides, and a proper prefix is less.
///
/// What they have in common at their front is passed in blocks, so that at most one block is looked at byte by byte.
pub(crate) fn order(a: &[u8], b: &[u8]) -> Ordering
    ensures { result ≡ slice_cmp nat_cmp a.now b.now }
{
    let at = alike(a, b);
    a[at..].cmp(&b[at..])
}

/// A place up to which both are the same: as far as whole blocks are, and the end of the shorter where the block that ends there is
/// the same too.
fn alike(a: &[u8], b: &[u8]) -> usize
    ensures within { result ≤ length a.now }
    ensures within_too { result ≤ length b.now }
    ensures same { take result a.now ≡ take result b.now }
{
    let both = a.len().min(b.len());
    if both < BLOCK {
        return 0;
    }
    let last = both - BLOCK;
    let mut at = 0;
    while at < last && block_is_same(a, b, at) {
        at += BLOCK;
    }
    if at < last || !block_is_same(a, b, last) {
        return at;
    }
    both
}

/// Whether the block at a place is the same in both.
fn block_is_same(a: &[u8], b: &[u8], at: usize) -> bool
    requires within { at + 32 ≤ length a.now }
    requires within_too { at + 32 ≤ length b.now }
    ensures { OnTrue result (take 32 (drop at a.now) ≡ take 32 (drop at b.now)) }
{
    u8x32::from_slice(&a[at..]) == u8x32::from_slice(&b[at..])
}
