//! Chunks under construction.
ghost use Rattle.std.specs.Prelude.{◌≡◌, ℕ, ◌+◌, ◌-◌, ◌*◌, ◌<◌, ◌≤◌, [], ◌∷◌, ◌++◌, length, slice_index_or, take, drop, replicate, IfOk, OnOk};
ghost use Rattle.segments.specs.Joined.{joined};

use crate::chunk::{CHUNK_MOST, Chunk};
use crate::chunks::Chunks;
use crate::memo::Memo;
use mk_value::Memory;
use segments::Shared;
use std::alloc::Global;
use std::mem::replace;

/// Chunks under construction: those that are done, and the last, which takes more values. One that has as many values as it is to have
/// takes no more, where they come one by one.
#[derive(Drop)]
pub(crate) struct Parts {
    done: Chunks,
    last: Chunk,
    most: usize,
}

impl Parts {
    ghost use Rattle.bytes_col.specs.Parts.{added};

    /// No values, in chunks that are to be full.
    pub(crate) fn new(alloc: Global) -> Parts
        ensures { added result ≡ [] }
    {
        Parts::sharing(alloc, CHUNK_MOST)
    }

    /// No values, in chunks that are to have about so many.
    pub(crate) fn sharing(alloc: Global, most: usize) -> Parts
        ensures { added result ≡ [] }
    {
        Parts {
            done: Chunks::new(alloc),
            last: Chunk::new(alloc),
            most,
        }
    }

    /// Ends the last chunk, which has some value.
    fn close(&mut self) -> Result<(), Memory>
        requires { 0 < length self.old.last }
        ensures values { OnOk result (added self.new ≡ added self.old) }
        ensures empty { OnOk result (self.new.last ≡ []) }
    {
        let alloc = self.done.allocator();
        let last = replace(&mut self.last, Chunk::new(alloc));
        self.done.push(Shared::of(alloc, last)?)
    }

    /// Sees to it that the last chunk takes a value.
    fn make_room(&mut self) -> Result<(), Memory>
        ensures values { OnOk result (added self.new ≡ added self.old) }
        ensures room { OnOk result (length self.new.last < 512) }
    {
        let len = self.last.len();
        if len == 0 || len < self.most.min(CHUNK_MOST) {
            return Ok(());
        }
        self.close()
    }

    /// Adds a value.
    pub(crate) fn append(&mut self, value: &[u8]) -> Result<(), Memory>
        ensures { OnOk result (added self.new ≡ added self.old ++ value.now ∷ []) }
    {
        self.make_room()?;
        self.last.append(value)
    }

    /// Adds a memo, which shares its bytes.
    pub(crate) fn append_memo(&mut self, memo: &Memo) -> Result<(), Memory>
        requires { 512 < length memo.now }
        ensures { OnOk result (added self.new ≡ added self.old ++ memo.now ∷ []) }
    {
        self.make_room()?;
        self.last.append_memo(memo)
    }

    /// Adds a chunk's value.
    fn add_one(&mut self, chunk: &Chunk, at: usize) -> Result<(), Memory>
        requires { at < length chunk.now }
        ensures { OnOk result (added self.new ≡ added self.old ++ slice_index_or chunk.now at [] ∷ []) }
    {
        self.make_room()?;
        self.last.add(chunk, at)
    }

    /// Makes room for so many of a chunk's values, where the last chunk has none yet.
    pub(crate) fn prepare(&mut self, chunk: &Chunk, count: usize) -> Result<(), Memory>
        ensures { OnOk result (added self.new ≡ added self.old) }
    {
        if self.last.len() == 0 {
            self.last.reserve(chunk, count)?;
        }
        Ok(())
    }

    /// Adds the values of a chunk from place `from` up to `to`.
    pub(crate) fn add(&mut self, chunk: &Chunk, from: usize, to: usize) -> Result<(), Memory>
        requires order { from ≤ to }
        requires within { to ≤ length chunk.now }
        ensures { OnOk result (added self.new ≡ added self.old ++ take (to - from) (drop from chunk.now)) }
    {
        self.prepare(chunk, to - from)?;
        for at in from..to {
            self.add_one(chunk, at)?;
        }
        Ok(())
    }

    /// Adds copies of a chunk's one value. Whole chunks of copies are one chunk, shared.
    pub(crate) fn add_copies(&mut self, one: &Chunk, count: usize) -> Result<(), Memory>
        requires { 0 < length one.now }
        ensures { OnOk result (added self.new ≡ added self.old ++ replicate count (slice_index_or one.now 0 [])) }
    {
        let room = CHUNK_MOST - self.last.len();
        if count <= room {
            return self.last.add_copies(one, 0, count);
        }
        self.last.add_copies(one, 0, room)?;
        self.close()?;
        self.add_whole(one, (count - room) / CHUNK_MOST)?;
        self.last.add_copies(one, 0, (count - room) % CHUNK_MOST)
    }

    /// Adds whole chunks of copies, where the last one is empty.
    fn add_whole(&mut self, one: &Chunk, count: usize) -> Result<(), Memory>
        requires some { 0 < length one.now }
        requires empty { self.old.last ≡ [] }
        ensures values { OnOk result (added self.new ≡ added self.old ++ replicate (count * 512) (slice_index_or one.now 0 [])) }
        ensures empty { OnOk result (self.new.last ≡ []) }
    {
        if count == 0 {
            return Ok(());
        }
        let alloc = self.done.allocator();
        let mut whole = Chunk::new(alloc);
        whole.add_copies(one, 0, CHUNK_MOST)?;
        self.done.push_clones(&Shared::of(alloc, whole)?, count)
    }

    /// The chunks.
    pub(crate) fn finish(self) -> Result<Chunks, Memory>
        ensures { IfOk result (λ chunks. joined chunks ≡ added self) }
    {
        let Parts {
            mut done,
            last,
            most: _most,
        } = self;
        if last.len() > 0 {
            done.push(Shared::of(done.allocator(), last)?)?;
        }
        Ok(done)
    }
}
