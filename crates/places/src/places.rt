ghost use Rattle.std.specs.Prelude.{◌≡◌, ℕ, ◌+◌, ◌-◌, ◌*◌, ◌/◌, ◌^◌, ◌<◌, ◌≤◌, ◌++◌, ◌∷◌, [], true, false, length, map, take, drop, insert, remove, slice_index, slice_index_or, All, OnOk, OnErr, IfOk};
ghost use Rattle.row_edits.specs.Runs.{kept_outside, moved_down, moved_up, run};
ghost use Rattle.places.specs.Numbers.{chunks_for, kept_ranked};

use crate::chunk::Chunk;
use crate::edits;
use crate::ends::write_ends;
use std::alloc::{AllocError, Global};
use std::marker::Model;

/// At most 16,777,216 positions, in chunks of at most 2,048. A caller sees the list of the positions, and how many empty chunks lie
/// aside, which are all the memory that an edit takes.
#[derive(Drop)]
pub struct Places {
    chunks: Vec<Chunk>,
    ends: Vec<u32>,
    spare: Vec<Chunk>,
}

impl Model for Places {
    ghost use Rattle.std.specs.Prelude.{length, vec_capacity};
    ghost use Rattle.std.specs.List.{concat};
    ghost use Rattle.places.specs.Chunks.{AreHeld};
    ghost use Rattle.places.specs.States.{PlacesState};

    ghost Value = { PlacesState };

    ghost view = { λ p. record { list = concat p.chunks.items; spare = length p.spare.items } };

    ghost invariant = { λ p. AreHeld p.chunks.items (vec_capacity p.chunks) p.ends.items (vec_capacity p.ends) p.spare.items };
}

impl Places {
    /// No positions. It takes no memory.
    pub fn new(alloc: Global) -> Places
        ensures list { result.list ≡ [] }
        ensures spare { result.spare ≡ 0 }
    {
        Places {
            chunks: Vec::new(alloc),
            ends: Vec::new(alloc),
            spare: Vec::new(alloc),
        }
    }

    /// These positions, in full chunks.
    ///
    /// # Errors
    ///
    /// Want of memory.
    pub fn of(alloc: Global, positions: &[u32]) -> Result<Places, AllocError>
        requires { length positions.now ≤ 16777216 }
        ensures { IfOk result (λ places. places.list ≡ positions.now) }
    {
        let chunks = edits::chunked(alloc, positions)?;
        let mut ends = Vec::with_capacity(alloc, chunks.len())?;
        write_ends(&mut ends, &chunks);
        Ok(Places {
            chunks,
            ends,
            spare: Vec::new(alloc),
        })
    }

    /// How many positions there are.
    pub fn len(&self) -> usize
        ensures len { result ≡ length self.now.list }
        ensures few { result ≤ 16777216 }
    {
        edits::len(&self.chunks, &self.ends)
    }

    /// The position at a place.
    pub fn get(&self, at: usize) -> u32
        requires { at < length self.now.list }
        ensures { result ≡ slice_index self.now.list at }
    {
        edits::get(&self.chunks, &self.ends, at)
    }

    /// How many empty chunks lie aside.
    pub fn spare(&self) -> usize
        ensures { result ≡ self.now.spare }
    {
        self.spare.len()
    }

    /// Lays so many empty chunks aside.
    ///
    /// # Errors
    ///
    /// Want of memory, and the list is as it was.
    pub fn reserve(&mut self, count: usize) -> Result<(), AllocError>
        ensures list { self.new.list ≡ self.old.list }
        ensures grown { self.old.spare ≤ self.new.spare }
        ensures spare { OnOk result (count ≤ self.new.spare) }
    {
        edits::reserve(&mut self.chunks, &mut self.ends, &mut self.spare, count)
    }

    /// Puts a position in, in front of the one that stands at a place. It takes no memory but a chunk that lies aside.
    pub fn insert(&mut self, at: usize, position: u32)
        requires there { at ≤ length self.old.list }
        requires few { length self.old.list < 16777216 }
        requires spare { 0 < self.old.spare }
        ensures list { self.new.list ≡ insert self.old.list at position }
        ensures spare { self.old.spare ≤ self.new.spare + 1 }
    {
        edits::insert(
            &mut self.chunks,
            &mut self.ends,
            &mut self.spare,
            at,
            position,
        );
    }

    /// Puts so many numbers from the first on in, in front of the position that stands at a place. It takes no memory but chunks that
    /// lie aside.
    pub fn insert_many(&mut self, at: usize, first: u32, count: u32)
        requires there { at ≤ length self.old.list }
        requires few { length self.old.list + count ≤ 16777216 }
        requires small { first + count < 2 ^ 32 }
        requires spare { chunks_for count ≤ self.old.spare }
        ensures list { self.new.list ≡ take at self.old.list ++ (run first count ++ drop at self.old.list) }
        ensures spare { self.old.spare ≤ self.new.spare + chunks_for count }
    {
        edits::insert_many(
            &mut self.chunks,
            &mut self.ends,
            &mut self.spare,
            at,
            first,
            count,
        );
    }

    /// Takes the position at a place out.
    pub fn remove(&mut self, at: usize)
        requires { at < length self.old.list }
        ensures list { self.new.list ≡ remove self.old.list at }
        ensures spare { self.old.spare ≤ self.new.spare }
    {
        edits::remove(&mut self.chunks, &mut self.ends, &mut self.spare, at);
    }

    /// Raises each position from `from` on by `by`, in one pass.
    pub fn raise(&mut self, from: u32, by: u32)
        requires { All (λ p. p + by < 2 ^ 32) self.old.list }
        ensures list { self.new.list ≡ map (moved_up from by) self.old.list }
        ensures spare { self.new.spare ≡ self.old.spare }
    {
        edits::shift(&mut self.chunks, from, by);
    }

    /// Lowers each position from a place on by `count`, in one pass.
    pub fn lower(&mut self, at: u32, count: u32)
        requires { All (λ k. at ≤ k → count ≤ k) self.old.list }
        ensures list { self.new.list ≡ map (moved_down at count) self.old.list }
        ensures spare { self.new.spare ≡ self.old.spare }
    {
        edits::lower(&mut self.chunks, at, count);
    }

    /// Takes out each position of the `count` from `low` on, and lowers those behind by `count`, in one pass.
    pub fn remove_positions(&mut self, low: u32, count: u32)
        requires { low + count < 2 ^ 32 }
        ensures list { self.new.list ≡ kept_outside low count self.old.list }
        ensures spare { self.old.spare ≤ self.new.spare }
    {
        edits::remove_positions(
            &mut self.chunks,
            &mut self.ends,
            &mut self.spare,
            low,
            count,
        );
    }

    /// Takes out each position that has no rank, and gives each other its rank, in one pass.
    pub fn keep_ranked(&mut self, ranks: &[u32])
        requires { All (λ k. k < length ranks.now) self.old.list }
        ensures list { self.new.list ≡ kept_ranked ranks.now self.old.list }
        ensures spare { self.old.spare ≤ self.new.spare }
    {
        edits::keep_ranked(&mut self.chunks, &mut self.ends, &mut self.spare, ranks);
    }
}

/// How many chunks that lie aside so many positions take at most, if they come in side by side.
pub fn chunks_for(count: usize) -> usize
    ensures { result ≡ chunks_for count }
{
    if count == 0 {
        return 0;
    }
    count.min((count - 1) / 2048 + 2)
}
