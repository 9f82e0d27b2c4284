//! One chunk of positions, which takes as many as it can hold without memory.
ghost use Rattle.std.specs.Prelude.{◌≡◌, ℕ, ◌+◌, ◌^◌, ◌<◌, ◌≤◌, ◌++◌, [], length, map, take, drop, insert, remove, slice_index, All, IfOk};
ghost use Rattle.places.specs.Numbers.{kept_ranked};
ghost use Rattle.row_edits.specs.Runs.{kept_outside, moved_down, moved_up, run};

use crate::numbers::{keep_ranked, lower, move_tail, push_all, push_run};
use row_edits::{insert_run, raise, remove_run};
use std::alloc::{AllocError, Global};
use std::marker::Model;

/// The most positions of one chunk.
pub(crate) const CHUNK_MOST: usize = 2048;

/// At most 2,048 positions, and room for as many.
#[derive(Drop)]
pub(crate) struct Chunk {
    items: Vec<u32>,
}

impl Model for Chunk {
    ghost use Rattle.std.specs.Prelude.{◌≤◌, ℕ, List, vec_len, vec_capacity};

    ghost Value = { List ℕ };

    ghost view = { λ c. c.items.items };

    ghost invariant = { λ c. (vec_len c.items ≤ 2048) × (2048 ≤ vec_capacity c.items) };
}

impl Chunk {
    /// An empty chunk.
    pub fn new(alloc: Global) -> Result<Chunk, AllocError>
        ensures { IfOk result (λ chunk. chunk ≡ []) }
    {
        Ok(Chunk {
            items: Vec::with_capacity(alloc, CHUNK_MOST)?,
        })
    }

    /// A chunk of these positions.
    pub fn of(alloc: Global, positions: &[u32]) -> Result<Chunk, AllocError>
        requires { length positions.now ≤ 2048 }
        ensures { IfOk result (λ chunk. chunk ≡ positions.now) }
    {
        let mut items = Vec::with_capacity(alloc, CHUNK_MOST)?;
        push_all(&mut items, positions);
        Ok(Chunk { items })
    }

    /// How many positions there are.
    pub fn len(&self) -> usize
        ensures value { result ≡ length self.now }
        ensures few { result ≤ 2048 }
    {
        self.items.len()
    }

    /// The position at a place.
    pub fn get(&self, at: usize) -> u32
        requires { at < length self.now }
        ensures { result ≡ slice_index self.now at }
    {
        self.items[at]
    }

    /// Puts a position in, in front of the one that stands there.
    pub fn insert(&mut self, at: usize, position: u32)
        requires there { at ≤ length self.old }
        requires room { length self.old < 2048 }
        ensures { self.new ≡ insert self.old at position }
    {
        if self.items.insert(at, position).is_err() {
            unreachable!();
        }
    }

    /// Takes the position at a place out.
    pub fn remove(&mut self, at: usize)
        requires { at < length self.old }
        ensures { self.new ≡ remove self.old at }
    {
        let _ = self.items.remove(at);
    }

    /// Adds so many numbers from the first on.
    pub fn push_run(&mut self, first: u32, count: u32)
        requires room { length self.old + count ≤ 2048 }
        requires small { first + count < 2 ^ 32 }
        ensures { self.new ≡ self.old ++ run first count }
    {
        push_run(&mut self.items, first, count);
    }

    /// Puts so many numbers from the first on in, in front of the position that stands at a place.
    pub fn insert_run(&mut self, at: usize, first: u32, count: u32)
        requires there { at ≤ length self.old }
        requires room { length self.old + count ≤ 2048 }
        requires small { first + count < 2 ^ 32 }
        ensures { self.new ≡ take at self.old ++ (run first count ++ drop at self.old) }
    {
        insert_run(&mut self.items, at, first, count);
    }

    /// Moves the positions from a place on into an empty chunk.
    pub fn move_tail(&mut self, at: usize, into: &mut Chunk)
        requires there { at ≤ length self.old }
        requires empty { into.old ≡ [] }
        ensures front { self.new ≡ take at self.old }
        ensures back { into.new ≡ drop at self.old }
    {
        move_tail(&mut self.items, at, &mut into.items);
    }

    /// Raises the positions from `from` on.
    pub fn raise(&mut self, from: u32, by: u32)
        requires { All (λ p. p + by < 2 ^ 32) self.old }
        ensures { self.new ≡ map (moved_up from by) self.old }
    {
        raise(&mut self.items, from, by);
    }

    /// Moves the positions from a place on down.
    pub fn lower(&mut self, at: u32, count: u32)
        requires { All (λ k. at ≤ k → count ≤ k) self.old }
        ensures { self.new ≡ map (moved_down at count) self.old }
    {
        lower(&mut self.items, at, count);
    }

    /// Drops the positions of the `count` from `low` on, and lowers those behind by `count`.
    pub fn close(&mut self, low: u32, count: u32)
        requires { low + count < 2 ^ 32 }
        ensures { self.new ≡ kept_outside low count self.old }
    {
        remove_run(&mut self.items, low, count);
    }

    /// Drops the positions that have no rank, and gives the others theirs.
    pub fn keep_ranked(&mut self, ranks: &[u32])
        requires { All (λ k. k < length ranks.now) self.old }
        ensures { self.new ≡ kept_ranked ranks.now self.old }
    {
        keep_ranked(&mut self.items, ranks);
    }

    /// Adds the positions of another chunk, which is empty then.
    pub fn append(&mut self, other: &mut Chunk)
        requires { length self.old + length other.old ≤ 2048 }
        ensures value { self.new ≡ self.old ++ other.old }
        ensures empty { other.new ≡ [] }
    {
        push_all(&mut self.items, &other.items);
        other.items.clear();
    }
}
