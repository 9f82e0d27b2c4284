//! Chunks that hold little, joined with their neighbours.
ghost use Rattle.std.specs.Prelude.{◌≡◌, ◌+◌, ◌<◌, ◌≤◌, [], length, slice_index_or, All, true, vec_capacity};
ghost use Rattle.std.specs.List.{concat};

use crate::chunk::Chunk;

/// The most that two neighbours hold together where they are joined: half of a chunk, so that what is joined has room.
const JOINED_MOST: usize = 1024;

/// Lays an empty chunk aside, where there is room for it, and else lets it go.
pub(crate) fn lay_by(spare: &mut Vec<Chunk>, chunk: Chunk)
    requires value { chunk ≡ [] }
    requires empty { All (λ c. c ≡ []) spare.old.items }
    ensures empty { All (λ c. c ≡ []) spare.new.items }
    ensures grown { length spare.old.items ≤ length spare.new.items }
    ensures one { length spare.new.items ≤ length spare.old.items + 1 }
{
    if spare.len() < spare.capacity() {
        spare.push_reserved(chunk);
    }
}

/// Whether a chunk and the one behind it hold so little together that they are to be one.
fn hold_little(chunks: &[Chunk], k: usize) -> bool
    requires { k + 1 < length chunks.now }
    ensures { result ≡ true → length (slice_index_or chunks.now k []) + length (slice_index_or chunks.now (k + 1) []) ≤ 1024 }
{
    chunks[k].len() + chunks[k + 1].len() <= JOINED_MOST
}

/// Puts the positions of the chunk behind one into that, and answers the empty one.
fn join(chunks: &mut Vec<Chunk>, k: usize) -> Chunk
    requires there { k + 1 < length chunks.old.items }
    requires room { length (slice_index_or chunks.old.items k []) + length (slice_index_or chunks.old.items (k + 1) []) ≤ 2048 }
    ensures value { result ≡ [] }
    ensures list { concat chunks.new.items ≡ concat chunks.old.items }
    ensures len { length chunks.new.items + 1 ≡ length chunks.old.items }
    ensures capacity { vec_capacity chunks.new ≡ vec_capacity chunks.old }
{
    let mut behind = chunks.remove(k + 1);
    chunks[k].append(&mut behind);
    behind
}

/// Joins a chunk with the one behind it, if there is one and they hold little.
pub(crate) fn join_behind(chunks: &mut Vec<Chunk>, spare: &mut Vec<Chunk>, k: usize)
    requires empty { All (λ c. c ≡ []) spare.old.items }
    ensures list { concat chunks.new.items ≡ concat chunks.old.items }
    ensures fits { length chunks.new.items + length spare.new.items ≤ length chunks.old.items + length spare.old.items }
    ensures shorter { length chunks.new.items ≤ length chunks.old.items }
    ensures empty { All (λ c. c ≡ []) spare.new.items }
    ensures grown { length spare.old.items ≤ length spare.new.items }
    ensures capacity { vec_capacity chunks.new ≡ vec_capacity chunks.old }
{
    let count = chunks.len();
    if k >= count || count - k < 2 {
        return;
    }
    if hold_little(chunks, k) {
        let empty = join(chunks, k);
        lay_by(spare, empty);
    }
}

/// Joins neighbours that hold little, from the last chunk on.
pub(crate) fn join_all(chunks: &mut Vec<Chunk>, spare: &mut Vec<Chunk>)
    requires empty { All (λ c. c ≡ []) spare.old.items }
    ensures list { concat chunks.new.items ≡ concat chunks.old.items }
    ensures fits { length chunks.new.items + length spare.new.items ≤ length chunks.old.items + length spare.old.items }
    ensures empty { All (λ c. c ≡ []) spare.new.items }
    ensures grown { length spare.old.items ≤ length spare.new.items }
    ensures capacity { vec_capacity chunks.new ≡ vec_capacity chunks.old }
{
    let mut k = chunks.len();
    while k > 0 {
        k -= 1;
        join_behind(chunks, spare, k);
    }
}
