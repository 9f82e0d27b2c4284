//! The places where chunks end, in order.
ghost use Rattle.std.specs.Prelude.{◌≡◌, ℕ, ◌+◌, ◌-◌, ◌^◌, ◌<◌, ◌≤◌, ◌++◌, [], length, map, take, drop, slice_index, slice_index_or, All, vec_capacity};
ghost use Rattle.std.specs.List.{concat};
ghost use Rattle.places.specs.Chunks.{IsSeat, ends_of};

use crate::chunk::Chunk;
use crate::seat::Seat;

/// The first chunk that ends above a place.
fn first_end_above(ends: &[u32], at: usize) -> usize
    requires some { 0 < length ends.now }
    requires reached { at < slice_index ends.now (length ends.now - 1) }
    requires ascending { (j k : ℕ) → j ≤ k → k < length ends.now → slice_index ends.now j ≤ slice_index ends.now k }
    ensures in_range { result < length ends.now }
    ensures above { at < slice_index ends.now result }
    ensures first { (k : ℕ) → k < result → slice_index ends.now k ≤ at }
{
    let mut low = 0;
    let mut high = ends.len() - 1;
    while low < high {
        let middle = low + (high - low) / 2;
        if ends[middle] as usize <= at {
            low = middle + 1;
        } else {
            high = middle;
        }
    }
    low
}

/// Where the position at a place stands.
pub(crate) fn seat(chunks: &[Chunk], ends: &[u32], at: usize) -> Seat
    requires ends { ends.now ≡ ends_of 0 chunks.now }
    requires there { at < length (concat chunks.now) }
    ensures seat { IsSeat chunks.now result.chunk result.offset at }
    ensures within { result.offset < length (slice_index_or chunks.now result.chunk []) }
{
    let _count = chunks.len();
    let chunk = first_end_above(ends, at);
    let start = if chunk == 0 {
        0
    } else {
        ends[chunk - 1] as usize
    };
    Seat {
        chunk,
        offset: at - start,
    }
}

/// Where a position that is to come in at a place goes: behind the one before.
pub(crate) fn seat_behind(chunks: &[Chunk], ends: &[u32], at: usize) -> Seat
    requires ends { ends.now ≡ ends_of 0 chunks.now }
    requires some { 0 < length chunks.now }
    requires there { at ≤ length (concat chunks.now) }
    ensures { IsSeat chunks.now result.chunk result.offset at }
{
    if at == 0 {
        return Seat {
            chunk: 0,
            offset: 0,
        };
    }
    let before = seat(chunks, ends, at - 1);
    Seat {
        chunk: before.chunk,
        offset: before.offset + 1,
    }
}

/// Moves the ends from a chunk on up.
pub(crate) fn raise_ends(ends: &mut [u32], from: usize, by: u32)
    requires there { from ≤ length ends.old }
    requires small { All (λ e. e + by < 2 ^ 32) ends.old }
    ensures { ends.new ≡ take from ends.old ++ map (λ e. e + by) (drop from ends.old) }
{
    for k in from..ends.len() {
        ends[k] += by;
    }
}

/// Moves the ends from a chunk on down.
pub(crate) fn lower_ends(ends: &mut [u32], from: usize, by: u32)
    requires there { from ≤ length ends.old }
    requires large { (k : ℕ) → from ≤ k → k < length ends.old → by ≤ slice_index ends.old k }
    ensures { ends.new ≡ take from ends.old ++ map (λ e. e - by) (drop from ends.old) }
{
    for k in from..ends.len() {
        ends[k] -= by;
    }
}

/// Writes the ends of the chunks anew.
pub(crate) fn write_ends(ends: &mut Vec<u32>, chunks: &[Chunk])
    requires few { length (concat chunks.now) ≤ 16777216 }
    requires room { length chunks.now ≤ vec_capacity ends.old }
    ensures ends { ends.new.items ≡ ends_of 0 chunks.now }
    ensures capacity { vec_capacity ends.new ≡ vec_capacity ends.old }
{
    ends.clear();
    let mut end = 0;
    for chunk in chunks {
        end += chunk.len() as u32;
        ends.push_reserved(end);
    }
}
