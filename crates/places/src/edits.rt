//! Edits of chunks, of their ends, and of the empty chunks aside.
ghost use Rattle.std.specs.Prelude.{◌≡◌, ℕ, ◌+◌, ◌-◌, ◌/◌, ◌^◌, ◌<◌, ◌≤◌, ◌++◌, [], length, map, take, drop, insert, remove, slice_index, slice_index_or, All, vec_len, vec_capacity, OnOk, IfOk};
ghost use Rattle.std.specs.List.{concat};
ghost use Rattle.places.specs.Chunks.{AreHeld, IsSeat, cut, ends_of};
ghost use Rattle.places.specs.Numbers.{chunks_for, kept_ranked};
ghost use Rattle.row_edits.specs.Runs.{kept_outside, moved_down, moved_up, run};

use crate::chunk::Chunk;
use crate::ends::{lower_ends, raise_ends, seat, seat_behind, write_ends};
use crate::joins::{join_all, join_behind, lay_by};
use crate::seat::Seat;
use std::alloc::{AllocError, Global};

/// Cuts a chunk in two, the second of which takes the place of an empty one.
fn split(chunks: &mut Vec<Chunk>, k: usize, offset: usize, fresh: Chunk)
    requires there { k < length chunks.old.items }
    requires within { offset ≤ length (slice_index_or chunks.old.items k []) }
    requires empty { fresh ≡ [] }
    requires room { vec_len chunks.old < vec_capacity chunks.old }
    ensures items { chunks.new.items ≡ cut k offset chunks.old.items }
    ensures capacity { vec_capacity chunks.old ≤ vec_capacity chunks.new }
{
    let mut fresh = fresh;
    chunks[k].move_tail(offset, &mut fresh);
    if chunks.insert(k + 1, fresh).is_err() {
        unreachable!();
    }
}

/// Takes an empty chunk from those aside.
fn take_spare(spare: &mut Vec<Chunk>) -> Chunk
    requires some { 0 < length spare.old.items }
    requires empty { All (λ c. c ≡ []) spare.old.items }
    ensures value { result ≡ [] }
    ensures rest { All (λ c. c ≡ []) spare.new.items }
    ensures len { length spare.new.items + 1 ≡ length spare.old.items }
{
    spare.pop().unwrap()
}

/// Cuts a full chunk in halves, and says where the place that lay in it lies then.
fn halve(
    chunks: &mut Vec<Chunk>,
    ends: &mut Vec<u32>,
    spare: &mut Vec<Chunk>,
    from: Seat,
    at: usize,
) -> Seat
    requires held { AreHeld chunks.old.items (vec_capacity chunks.old) ends.old.items (vec_capacity ends.old) spare.old.items }
    requires some { 0 < length spare.old.items }
    requires seat { IsSeat chunks.old.items from.chunk from.offset at }
    requires full { length (slice_index_or chunks.old.items from.chunk []) ≡ 2048 }
    ensures held { AreHeld chunks.new.items (vec_capacity chunks.new) ends.new.items (vec_capacity ends.new) spare.new.items }
    ensures list { concat chunks.new.items ≡ concat chunks.old.items }
    ensures seat { IsSeat chunks.new.items result.chunk result.offset at }
    ensures room { length (slice_index_or chunks.new.items result.chunk []) < 2048 }
    ensures spare { length spare.new.items + 1 ≡ length spare.old.items }
{
    split(chunks, from.chunk, 1024, take_spare(spare));
    write_ends(ends, chunks);
    if from.offset <= 1024 {
        return from;
    }
    Seat {
        chunk: from.chunk + 1,
        offset: from.offset - 1024,
    }
}

/// Makes a first chunk where there is none.
fn begin(chunks: &mut Vec<Chunk>, ends: &mut Vec<u32>, spare: &mut Vec<Chunk>)
    requires held { AreHeld chunks.old.items (vec_capacity chunks.old) ends.old.items (vec_capacity ends.old) spare.old.items }
    requires some { 0 < length spare.old.items }
    requires none { chunks.old.items ≡ [] }
    ensures held { AreHeld chunks.new.items (vec_capacity chunks.new) ends.new.items (vec_capacity ends.new) spare.new.items }
    ensures list { concat chunks.new.items ≡ [] }
    ensures one { length chunks.new.items ≡ 1 }
    ensures room { length (slice_index_or chunks.new.items 0 []) < 2048 }
    ensures spare { length spare.new.items + 1 ≡ length spare.old.items }
{
    chunks.push_reserved(take_spare(spare));
    write_ends(ends, chunks);
}

/// Says where a position that is to come in goes, in a chunk that has room.
fn make_room(
    chunks: &mut Vec<Chunk>,
    ends: &mut Vec<u32>,
    spare: &mut Vec<Chunk>,
    at: usize,
) -> Seat
    requires held { AreHeld chunks.old.items (vec_capacity chunks.old) ends.old.items (vec_capacity ends.old) spare.old.items }
    requires some { 0 < length spare.old.items }
    requires there { at ≤ length (concat chunks.old.items) }
    ensures held { AreHeld chunks.new.items (vec_capacity chunks.new) ends.new.items (vec_capacity ends.new) spare.new.items }
    ensures list { concat chunks.new.items ≡ concat chunks.old.items }
    ensures seat { IsSeat chunks.new.items result.chunk result.offset at }
    ensures room { length (slice_index_or chunks.new.items result.chunk []) < 2048 }
    ensures spare { length spare.old.items ≤ length spare.new.items + 1 }
{
    if chunks.is_empty() {
        begin(chunks, ends, spare);
        return Seat {
            chunk: 0,
            offset: 0,
        };
    }
    let found = seat_behind(chunks, ends, at);
    if chunks[found.chunk].len() < 2048 {
        return found;
    }
    halve(chunks, ends, spare, found, at)
}

/// Puts a position in, in front of the one that stands at a place.
pub(crate) fn insert(
    chunks: &mut Vec<Chunk>,
    ends: &mut Vec<u32>,
    spare: &mut Vec<Chunk>,
    at: usize,
    position: u32,
)
    requires held { AreHeld chunks.old.items (vec_capacity chunks.old) ends.old.items (vec_capacity ends.old) spare.old.items }
    requires some { 0 < length spare.old.items }
    requires there { at ≤ length (concat chunks.old.items) }
    requires few { length (concat chunks.old.items) < 16777216 }
    ensures held { AreHeld chunks.new.items (vec_capacity chunks.new) ends.new.items (vec_capacity ends.new) spare.new.items }
    ensures list { concat chunks.new.items ≡ insert (concat chunks.old.items) at position }
    ensures spare { length spare.old.items ≤ length spare.new.items + 1 }
{
    let to = make_room(chunks, ends, spare, at);
    chunks[to.chunk].insert(to.offset, position);
    raise_ends(ends, to.chunk, 1);
}

/// Takes the position at a seat out of its chunk.
fn take_out(chunks: &mut Vec<Chunk>, ends: &mut Vec<u32>, at: usize) -> Seat
    requires ends { ends.old.items ≡ ends_of 0 chunks.old.items }
    requires there { at < length (concat chunks.old.items) }
    ensures there { result.chunk < length chunks.new.items }
    ensures ends { ends.new.items ≡ ends_of 0 chunks.new.items }
    ensures list { concat chunks.new.items ≡ remove (concat chunks.old.items) at }
    ensures len { length chunks.new.items ≡ length chunks.old.items }
    ensures capacity { (vec_capacity chunks.new ≡ vec_capacity chunks.old) × (vec_capacity ends.new ≡ vec_capacity ends.old) }
{
    let from = seat(chunks, ends, at);
    chunks[from.chunk].remove(from.offset);
    lower_ends(ends, from.chunk, 1);
    from
}

/// Lays an empty chunk aside.
fn recycle(chunks: &mut Vec<Chunk>, spare: &mut Vec<Chunk>, k: usize)
    requires there { k < length chunks.old.items }
    requires none { slice_index_or chunks.old.items k [] ≡ [] }
    requires empty { All (λ c. c ≡ []) spare.old.items }
    ensures list { concat chunks.new.items ≡ concat chunks.old.items }
    ensures len { length chunks.new.items + 1 ≡ length chunks.old.items }
    ensures empty { All (λ c. c ≡ []) spare.new.items }
    ensures grown { length spare.old.items ≤ length spare.new.items }
    ensures one { length spare.new.items ≤ length spare.old.items + 1 }
    ensures capacity { vec_capacity chunks.new ≡ vec_capacity chunks.old }
{
    let chunk = chunks.remove(k);
    lay_by(spare, chunk);
}

/// A chunk that falls to so many is joined with the one behind it, if they hold little together.
const QUARTER: usize = 512;

/// Takes the position at a place out. A chunk that is empty then is laid aside, and one that holds little is joined with the one behind it.
pub(crate) fn remove(
    chunks: &mut Vec<Chunk>,
    ends: &mut Vec<u32>,
    spare: &mut Vec<Chunk>,
    at: usize,
)
    requires held { AreHeld chunks.old.items (vec_capacity chunks.old) ends.old.items (vec_capacity ends.old) spare.old.items }
    requires there { at < length (concat chunks.old.items) }
    ensures held { AreHeld chunks.new.items (vec_capacity chunks.new) ends.new.items (vec_capacity ends.new) spare.new.items }
    ensures list { concat chunks.new.items ≡ remove (concat chunks.old.items) at }
    ensures spare { length spare.old.items ≤ length spare.new.items }
{
    let from = take_out(chunks, ends, at);
    if chunks[from.chunk].len() == 0 {
        recycle(chunks, spare, from.chunk);
        write_ends(ends, chunks);
    } else if chunks[from.chunk].len() == QUARTER {
        join_behind(chunks, spare, from.chunk);
        write_ends(ends, chunks);
    }
}

/// Lays all empty chunks aside.
fn sweep(chunks: &mut Vec<Chunk>, spare: &mut Vec<Chunk>)
    requires empty { All (λ c. c ≡ []) spare.old.items }
    ensures list { concat chunks.new.items ≡ concat chunks.old.items }
    ensures fits { length chunks.new.items + length spare.new.items ≤ length chunks.old.items + length spare.old.items }
    ensures empty { All (λ c. c ≡ []) spare.new.items }
    ensures grown { length spare.old.items ≤ length spare.new.items }
    ensures capacity { vec_capacity chunks.new ≡ vec_capacity chunks.old }
{
    let mut k = chunks.len();
    while k > 0 {
        k -= 1;
        if chunks[k].len() == 0 {
            recycle(chunks, spare, k);
        }
    }
}

/// Raises the positions from `from` on.
pub(crate) fn raise_all(chunks: &mut [Chunk], from: u32, by: u32)
    requires { All (λ p. p + by < 2 ^ 32) (concat chunks.old) }
    ensures { chunks.new ≡ map (map (moved_up from by)) chunks.old }
{
    for chunk in chunks.iter_mut() {
        chunk.raise(from, by);
    }
}

/// Drops the positions of the `count` from `low` on, and lowers those behind by `count`.
pub(crate) fn close_all(chunks: &mut [Chunk], low: u32, count: u32)
    requires { low + count < 2 ^ 32 }
    ensures { chunks.new ≡ map (kept_outside low count) chunks.old }
{
    for chunk in chunks.iter_mut() {
        chunk.close(low, count);
    }
}

/// These positions in chunks, all full but the last.
pub(crate) fn chunked(alloc: Global, positions: &[u32]) -> Result<Vec<Chunk>, AllocError>
    ensures { IfOk result (λ chunks. concat chunks.items ≡ positions.now) }
{
    let mut chunks = Vec::new(alloc);
    let mut from = 0;
    while from < positions.len() {
        let to = from + (positions.len() - from).min(2048);
        chunks.push(Chunk::of(alloc, &positions[from..to])?)?;
        from = to;
    }
    Ok(chunks)
}

/// How many positions there are.
pub(crate) fn len(chunks: &[Chunk], ends: &[u32]) -> usize
    requires { ends.now ≡ ends_of 0 chunks.now }
    ensures { result ≡ length (concat chunks.now) }
{
    let _chunks = chunks.len();
    let count = ends.len();
    if count == 0 {
        return 0;
    }
    ends[count - 1] as usize
}

/// The position at a place.
pub(crate) fn get(chunks: &[Chunk], ends: &[u32], at: usize) -> u32
    requires ends { ends.now ≡ ends_of 0 chunks.now }
    requires there { at < length (concat chunks.now) }
    ensures { result ≡ slice_index (concat chunks.now) at }
{
    let from = seat(chunks, ends, at);
    chunks[from.chunk].get(from.offset)
}

/// Raises the positions from `from` on.
pub(crate) fn shift(chunks: &mut Vec<Chunk>, from: u32, by: u32)
    requires { All (λ p. p + by < 2 ^ 32) (concat chunks.old.items) }
    ensures items { chunks.new.items ≡ map (map (moved_up from by)) chunks.old.items }
    ensures list { concat chunks.new.items ≡ map (moved_up from by) (concat chunks.old.items) }
    ensures ends { ends_of 0 chunks.new.items ≡ ends_of 0 chunks.old.items }
    ensures len { length chunks.new.items ≡ length chunks.old.items }
    ensures capacity { vec_capacity chunks.new ≡ vec_capacity chunks.old }
{
    raise_all(chunks, from, by);
}

/// Moves the positions from a place on down, chunk by chunk.
fn lower_all(chunks: &mut [Chunk], at: u32, count: u32)
    requires { All (λ k. at ≤ k → count ≤ k) (concat chunks.old) }
    ensures { chunks.new ≡ map (map (moved_down at count)) chunks.old }
{
    for chunk in chunks.iter_mut() {
        chunk.lower(at, count);
    }
}

/// Moves the positions from a place on down.
pub(crate) fn lower(chunks: &mut Vec<Chunk>, at: u32, count: u32)
    requires { All (λ k. at ≤ k → count ≤ k) (concat chunks.old.items) }
    ensures items { chunks.new.items ≡ map (map (moved_down at count)) chunks.old.items }
    ensures list { concat chunks.new.items ≡ map (moved_down at count) (concat chunks.old.items) }
    ensures ends { ends_of 0 chunks.new.items ≡ ends_of 0 chunks.old.items }
    ensures len { length chunks.new.items ≡ length chunks.old.items }
    ensures capacity { vec_capacity chunks.new ≡ vec_capacity chunks.old }
{
    lower_all(chunks, at, count);
}

/// Drops the positions of the `count` from `low` on, and lowers those behind by `count`.
fn close(chunks: &mut Vec<Chunk>, low: u32, count: u32)
    requires { low + count < 2 ^ 32 }
    ensures list { concat chunks.new.items ≡ kept_outside low count (concat chunks.old.items) }
    ensures len { length chunks.new.items ≡ length chunks.old.items }
    ensures capacity { vec_capacity chunks.new ≡ vec_capacity chunks.old }
{
    close_all(chunks, low, count);
}

/// Takes the positions out that have no rank, chunk by chunk, and gives the others theirs.
fn rank_all(chunks: &mut [Chunk], ranks: &[u32])
    requires { All (λ k. k < length ranks.now) (concat chunks.old) }
    ensures { chunks.new ≡ map (kept_ranked ranks.now) chunks.old }
{
    for chunk in chunks.iter_mut() {
        chunk.keep_ranked(ranks);
    }
}

/// Takes the positions out that have no rank, and gives the others theirs.
fn rank(chunks: &mut Vec<Chunk>, ranks: &[u32])
    requires { All (λ k. k < length ranks.now) (concat chunks.old.items) }
    ensures list { concat chunks.new.items ≡ kept_ranked ranks.now (concat chunks.old.items) }
    ensures len { length chunks.new.items ≡ length chunks.old.items }
    ensures capacity { vec_capacity chunks.new ≡ vec_capacity chunks.old }
{
    rank_all(chunks, ranks);
}

/// Lays empty chunks aside, joins those that hold little, and writes the ends anew.
fn tidy(chunks: &mut Vec<Chunk>, ends: &mut Vec<u32>, spare: &mut Vec<Chunk>)
    requires few { length (concat chunks.old.items) ≤ 16777216 }
    requires empty { All (λ c. c ≡ []) spare.old.items }
    requires fits { length chunks.old.items + length spare.old.items ≤ vec_capacity chunks.old }
    requires ends_fit { length chunks.old.items + length spare.old.items ≤ vec_capacity ends.old }
    ensures held { AreHeld chunks.new.items (vec_capacity chunks.new) ends.new.items (vec_capacity ends.new) spare.new.items }
    ensures list { concat chunks.new.items ≡ concat chunks.old.items }
    ensures spare { length spare.old.items ≤ length spare.new.items }
{
    sweep(chunks, spare);
    join_all(chunks, spare);
    write_ends(ends, chunks);
}

/// Takes out the positions of the `count` from `low` on, and lowers those behind by `count`. Chunks that are empty then are laid aside.
pub(crate) fn remove_positions(
    chunks: &mut Vec<Chunk>,
    ends: &mut Vec<u32>,
    spare: &mut Vec<Chunk>,
    low: u32,
    count: u32,
)
    requires held { AreHeld chunks.old.items (vec_capacity chunks.old) ends.old.items (vec_capacity ends.old) spare.old.items }
    requires small { low + count < 2 ^ 32 }
    ensures held { AreHeld chunks.new.items (vec_capacity chunks.new) ends.new.items (vec_capacity ends.new) spare.new.items }
    ensures list { concat chunks.new.items ≡ kept_outside low count (concat chunks.old.items) }
    ensures spare { length spare.old.items ≤ length spare.new.items }
{
    close(chunks, low, count);
    tidy(chunks, ends, spare);
}

/// Takes the positions out that have no rank, and gives the others theirs. Chunks that are empty then are laid aside.
pub(crate) fn keep_ranked(
    chunks: &mut Vec<Chunk>,
    ends: &mut Vec<u32>,
    spare: &mut Vec<Chunk>,
    ranks: &[u32],
)
    requires held { AreHeld chunks.old.items (vec_capacity chunks.old) ends.old.items (vec_capacity ends.old) spare.old.items }
    requires ranks { All (λ k. k < length ranks.now) (concat chunks.old.items) }
    ensures held { AreHeld chunks.new.items (vec_capacity chunks.new) ends.new.items (vec_capacity ends.new) spare.new.items }
    ensures list { concat chunks.new.items ≡ kept_ranked ranks.now (concat chunks.old.items) }
    ensures spare { length spare.old.items ≤ length spare.new.items }
{
    rank(chunks, ranks);
    tidy(chunks, ends, spare);
}

/// Lays empty chunks aside until there are so many.
fn lay_aside(spare: &mut Vec<Chunk>, count: usize) -> Result<(), AllocError>
    requires empty { All (λ c. c ≡ []) spare.old.items }
    ensures empty { All (λ c. c ≡ []) spare.new.items }
    ensures grown { length spare.old.items ≤ length spare.new.items }
    ensures most { length spare.new.items ≤ length spare.old.items + count }
    ensures spare { OnOk result (count ≤ length spare.new.items) }
{
    let alloc = *spare.allocator();
    while spare.len() < count {
        spare.push(Chunk::new(alloc)?)?;
    }
    Ok(())
}

/// Lays empty chunks aside until there are so many, and makes room for them among the others.
pub(crate) fn reserve(
    chunks: &mut Vec<Chunk>,
    ends: &mut Vec<u32>,
    spare: &mut Vec<Chunk>,
    count: usize,
) -> Result<(), AllocError>
    requires held { AreHeld chunks.old.items (vec_capacity chunks.old) ends.old.items (vec_capacity ends.old) spare.old.items }
    ensures held { AreHeld chunks.new.items (vec_capacity chunks.new) ends.new.items (vec_capacity ends.new) spare.new.items }
    ensures list { concat chunks.new.items ≡ concat chunks.old.items }
    ensures grown { length spare.old.items ≤ length spare.new.items }
    ensures spare { OnOk result (count ≤ length spare.new.items) }
{
    let Some(room) = spare.len().checked_add(count) else {
        return Err(AllocError);
    };
    chunks.reserve(room)?;
    ends.reserve(room)?;
    lay_aside(spare, count)
}

/// Cuts the chunks at a place, and answers which of them is the first behind it.
fn cut_at(chunks: &mut Vec<Chunk>, ends: &mut Vec<u32>, spare: &mut Vec<Chunk>, at: usize) -> usize
    requires held { AreHeld chunks.old.items (vec_capacity chunks.old) ends.old.items (vec_capacity ends.old) spare.old.items }
    requires some { 0 < length spare.old.items }
    requires there { at ≤ length (concat chunks.old.items) }
    ensures held { AreHeld chunks.new.items (vec_capacity chunks.new) ends.new.items (vec_capacity ends.new) spare.new.items }
    ensures within { result ≤ length chunks.new.items }
    ensures front { concat (take result chunks.new.items) ≡ take at (concat chunks.old.items) }
    ensures back { concat (drop result chunks.new.items) ≡ drop at (concat chunks.old.items) }
    ensures spare { length spare.old.items ≤ length spare.new.items + 1 }
{
    if at == 0 {
        return 0;
    }
    let to = seat_behind(chunks, ends, at);
    if to.offset == chunks[to.chunk].len() {
        return to.chunk + 1;
    }
    split(chunks, to.chunk, to.offset, take_spare(spare));
    write_ends(ends, chunks);
    to.chunk + 1
}

/// Puts so many numbers from the first on behind the others, in chunks that lay aside.
fn push_filled(chunks: &mut Vec<Chunk>, spare: &mut Vec<Chunk>, first: u32, count: u32)
    requires fits { length chunks.old.items + length spare.old.items ≤ vec_capacity chunks.old }
    requires empty { All (λ c. c ≡ []) spare.old.items }
    requires enough { (count + 2047) / 2048 ≤ length spare.old.items }
    requires small { first + count < 2 ^ 32 }
    ensures front { take (length chunks.old.items) chunks.new.items ≡ chunks.old.items }
    ensures run { concat (drop (length chunks.old.items) chunks.new.items) ≡ run first count }
    ensures long { length chunks.old.items ≤ length chunks.new.items }
    ensures fits { length chunks.new.items + length spare.new.items ≡ length chunks.old.items + length spare.old.items }
    ensures empty { All (λ c. c ≡ []) spare.new.items }
    ensures spare { length spare.old.items ≡ length spare.new.items + (count + 2047) / 2048 }
    ensures capacity { vec_capacity chunks.new ≡ vec_capacity chunks.old }
{
    let mut from = first;
    let mut left = count;
    while left > 0 {
        let some = left.min(2048);
        let mut chunk = take_spare(spare);
        chunk.push_run(from, some);
        chunks.push_reserved(chunk);
        from += some;
        left -= some;
    }
}

/// Puts the chunks from number `old` on in front of those from number `k` on.
fn turn_in(chunks: &mut Vec<Chunk>, k: usize, old: usize)
    requires order { k ≤ old }
    requires there { old ≤ length chunks.old.items }
    ensures items { chunks.new.items ≡ take k chunks.old.items ++ (drop old chunks.old.items ++ drop k (take old chunks.old.items)) }
    ensures capacity { vec_capacity chunks.new ≡ vec_capacity chunks.old }
{
    let fresh = chunks.len() - old;
    chunks[k..].rotate_right(fresh);
}

/// Puts so many numbers from the first on in, in front of the position that stands at a place, in chunks of their own.
fn insert_between(
    chunks: &mut Vec<Chunk>,
    ends: &mut Vec<u32>,
    spare: &mut Vec<Chunk>,
    at: usize,
    first: u32,
    count: u32,
)
    requires held { AreHeld chunks.old.items (vec_capacity chunks.old) ends.old.items (vec_capacity ends.old) spare.old.items }
    requires there { at ≤ length (concat chunks.old.items) }
    requires few { length (concat chunks.old.items) + count ≤ 16777216 }
    requires enough { (count + 2047) / 2048 < length spare.old.items }
    requires small { first + count < 2 ^ 32 }
    ensures held { AreHeld chunks.new.items (vec_capacity chunks.new) ends.new.items (vec_capacity ends.new) spare.new.items }
    ensures list { concat chunks.new.items ≡ take at (concat chunks.old.items) ++ (run first count ++ drop at (concat chunks.old.items)) }
    ensures spare { length spare.old.items ≤ length spare.new.items + (count + 2047) / 2048 + 1 }
{
    let k = cut_at(chunks, ends, spare, at);
    let old = chunks.len();
    push_filled(chunks, spare, first, count);
    turn_in(chunks, k, old);
    write_ends(ends, chunks);
}

/// Puts so many numbers from the first on into a chunk that has room for them.
fn insert_within(
    chunks: &mut Vec<Chunk>,
    ends: &mut Vec<u32>,
    to: Seat,
    at: usize,
    first: u32,
    count: u32,
)
    requires ends { ends.old.items ≡ ends_of 0 chunks.old.items }
    requires seat { IsSeat chunks.old.items to.chunk to.offset at }
    requires few { length (concat chunks.old.items) + count ≤ 16777216 }
    requires room { length (slice_index_or chunks.old.items to.chunk []) + count ≤ 2048 }
    requires small { first + count < 2 ^ 32 }
    ensures ends { ends.new.items ≡ ends_of 0 chunks.new.items }
    ensures list { concat chunks.new.items ≡ take at (concat chunks.old.items) ++ (run first count ++ drop at (concat chunks.old.items)) }
    ensures len { length chunks.new.items ≡ length chunks.old.items }
    ensures capacity { (vec_capacity chunks.new ≡ vec_capacity chunks.old) × (vec_capacity ends.new ≡ vec_capacity ends.old) }
{
    chunks[to.chunk].insert_run(to.offset, first, count);
    raise_ends(ends, to.chunk, count);
}

/// Puts so many numbers from the first on in, in front of the position that stands at a place.
fn insert_several(
    chunks: &mut Vec<Chunk>,
    ends: &mut Vec<u32>,
    spare: &mut Vec<Chunk>,
    at: usize,
    first: u32,
    count: u32,
)
    requires held { AreHeld chunks.old.items (vec_capacity chunks.old) ends.old.items (vec_capacity ends.old) spare.old.items }
    requires there { at ≤ length (concat chunks.old.items) }
    requires few { length (concat chunks.old.items) + count ≤ 16777216 }
    requires enough { (count + 2047) / 2048 < length spare.old.items }
    requires small { first + count < 2 ^ 32 }
    ensures held { AreHeld chunks.new.items (vec_capacity chunks.new) ends.new.items (vec_capacity ends.new) spare.new.items }
    ensures list { concat chunks.new.items ≡ take at (concat chunks.old.items) ++ (run first count ++ drop at (concat chunks.old.items)) }
    ensures spare { length spare.old.items ≤ length spare.new.items + (count + 2047) / 2048 + 1 }
{
    if chunks.len() == 0 {
        insert_between(chunks, ends, spare, at, first, count);
        return;
    }
    let to = seat_behind(chunks, ends, at);
    if chunks[to.chunk].len() + count as usize <= 2048 {
        insert_within(chunks, ends, to, at, first, count);
        return;
    }
    insert_between(chunks, ends, spare, at, first, count);
}

/// Puts so many numbers from the first on in, in front of the position that stands at a place: one alone takes one chunk at most.
pub(crate) fn insert_many(
    chunks: &mut Vec<Chunk>,
    ends: &mut Vec<u32>,
    spare: &mut Vec<Chunk>,
    at: usize,
    first: u32,
    count: u32,
)
    requires held { AreHeld chunks.old.items (vec_capacity chunks.old) ends.old.items (vec_capacity ends.old) spare.old.items }
    requires there { at ≤ length (concat chunks.old.items) }
    requires few { length (concat chunks.old.items) + count ≤ 16777216 }
    requires enough { chunks_for count ≤ length spare.old.items }
    requires small { first + count < 2 ^ 32 }
    ensures held { AreHeld chunks.new.items (vec_capacity chunks.new) ends.new.items (vec_capacity ends.new) spare.new.items }
    ensures list { concat chunks.new.items ≡ take at (concat chunks.old.items) ++ (run first count ++ drop at (concat chunks.old.items)) }
    ensures spare { length spare.old.items ≤ length spare.new.items + chunks_for count }
{
    if count == 0 {
        return;
    }
    if count == 1 {
        insert(chunks, ends, spare, at, first);
        return;
    }
    insert_several(chunks, ends, spare, at, first, count);
}
