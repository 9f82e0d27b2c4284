//! The list of the chunks of a view column's tables.
ghost use Rattle.std.specs.Prelude.{◌≡◌, ℕ, ◌+◌, ◌-◌, ◌<◌, ◌≤◌, List, [], ◌∷◌, ◌++◌, length, sum, slice_get, slice_set, slice_index_or, take, drop, Some, All, IfOk, IfSome, OnOk, OnErr, replicate};
ghost use Rattle.std.specs.Bool.{OnFalse};
ghost use Rattle.segments.specs.Segments.{IsPlace};
ghost use Rattle.segments.specs.Splices.{Applies, Covers, items_after, spliced};
ghost use Rattle.segments.specs.Joined.{joined, counts_of};
ghost use Rattle.tables.specs.Pools.{IsChunkAt};
ghost use Rattle.tables.specs.Rows.{inserted, removed};

use crate::chunk::{CHUNK_MOST, Chunk, TableList, cut};
use crate::groups::Groups;
use crate::{Nested, Shared};
use mk_value::{Memory, Schema};
use segments::{Place, Replaced, Segments, Splice};
use std::alloc::{AllocError, Global};
use std::marker::Model;

/// How many tables a spine has at most, as many as a table has rows.
pub(crate) const SPINE_MOST: usize = 16_777_216;

/// The chunks in order, and where each ends. No chunk is empty. A caller sees the tables of each.
#[cycle(table)]
#[derive(Drop)]
pub(crate) struct Spine {
    chunks: Groups,
    ends: Segments<CHUNK_MOST>,
}

impl Model for Spine {
    ghost use Rattle.std.specs.Prelude.{List};
    ghost use Rattle.tables.specs.Columns.{chunks_code};
    ghost use Rattle.tables.specs.Sizes.{spine_size};
    ghost use Rattle.tables.specs.Spine.{IsSpine};
    ghost use Rattle.tables.specs.Tables.{StoredTable};

    ghost Value = { List (List StoredTable) };

    ghost coded = { chunks_code };

    ghost view = { λ s. s.chunks };

    ghost invariant = { λ s. IsSpine s.chunks s.ends };

    ghost size = { spine_size };

    ghost use Rattle.tables.specs.Falls.{spine_falls};

    ghost size_decreases = { λ s _. spine_falls s };
}

impl Clone for Spine {
    ghost is_clone = { λ a b. b ≡ a };

    #[cold]
    #[inline(never)]
    fn clone(&self) -> Result<Spine, AllocError> {
        Ok(Spine {
            chunks: self.chunks.clone()?,
            ends: self.ends.clone()?,
        })
    }
}

impl Spine {
    /// The spine of these chunks.
    pub(crate) fn of_chunks(chunks: Vec<Chunk>) -> Result<Spine, Memory>
        requires some { All (λ n. 0 < n) (counts_of chunks.items) }
        requires each { All (λ n. n ≤ 1024) (counts_of chunks.items) }
        requires few { length (joined chunks.items) ≤ 16777216 }
        ensures { IfOk result (λ spine. spine ≡ chunks.items) }
    {
        let alloc = *chunks.allocator();
        let counts = counts(alloc, &chunks)?;
        Ok(Spine {
            chunks: Groups::of_chunks(chunks)?,
            ends: Segments::from_counts(alloc, &counts)?,
        })
    }

    /// The spine of these tables.
    pub(crate) fn of_list(list: TableList) -> Result<Spine, Memory>
        requires { length list ≤ 16777216 }
        ensures { IfOk result (λ spine. joined spine ≡ list) }
    {
        Spine::of_chunks(cut(list)?)
    }

    /// The chunk of the tables, if they have one.
    pub(crate) fn only_chunk(&self) -> Result<Option<Chunk>, Memory>
        ensures { IfOk result (λ chunk. IfSome chunk (λ c. c ≡ joined self.now)) }
    {
        if self.chunks.len() != 1 {
            return Ok(None);
        }
        Ok(Some(self.chunks.get(0).clone()?))
    }

    pub(crate) fn allocator(&self) -> Global {
        self.chunks.allocator()
    }

    /// How many tables there are.
    pub(crate) fn len(&self) -> usize
        ensures len { result ≡ length (joined self.now) }
        ensures few { result ≤ 16777216 }
    {
        self.ends.len()
    }

    /// Where a table stands.
    fn find(&self, at: usize) -> Place
        requires { at < length (joined self.now) }
        ensures in_range { result.segment < length self.now }
        ensures place { IsPlace (counts_of self.now) at result }
    {
        self.ends.find(at)
    }

    /// The table at a place.
    pub(crate) fn get(&self, at: usize) -> Nested<'_>
        requires { at < length (joined self.now) }
        ensures { slice_get (joined self.now) at ≡ Some result }
    {
        let place = self.find(at);
        let chunk = self.chunks.get(place.segment);
        chunk.get(place.offset)
    }

    /// The chunk that begins with the table at a place, if its tables are kept together.
    pub(crate) fn pool_at(&self, at: usize) -> Option<&Chunk>
        requires { at < length (joined self.now) }
        ensures { IfSome result (λ chunk. IsChunkAt (joined self.now) at chunk.now) }
    {
        let place = self.find(at);
        if place.offset > 0 {
            return None;
        }
        let chunk = self.chunks.get(place.segment);
        if !chunk.is_pool() {
            return None;
        }
        Some(chunk)
    }

    /// Puts a table in place of the one at a place. Other owners of its chunk keep it.
    pub(crate) fn set(&mut self, at: usize, table: Shared) -> Result<(), Memory>
        requires { at < length (joined self.old) }
        ensures ok { OnOk result (joined self.new ≡ slice_set (joined self.old) at table) }
        ensures err { OnErr result (self.new ≡ self.old) }
    {
        let place = self.find(at);
        self.chunks.set(place.segment, place.offset, table)
    }

    /// Adds so many tables from a place on behind those of a list.
    pub(crate) fn push_part(
        &self,
        list: &mut TableList,
        from: usize,
        count: usize,
    ) -> Result<(), Memory>
        requires { from + count ≤ length (joined self.now) }
        ensures { OnOk result (list.new ≡ list.old ++ take count (drop from (joined self.now))) }
    {
        let _few = self.len();
        let mut done = 0;
        while done < count {
            let added = self.push_some(list, from + done, count - done)?;
            done += added;
        }
        Ok(())
    }

    /// Adds tables of the chunk that holds place `from`, as many as there are from there on, and at most so many.
    fn push_some(&self, list: &mut TableList, from: usize, most: usize) -> Result<usize, Memory>
        requires some { 0 < most }
        requires within { from + most ≤ length (joined self.now) }
        ensures some_added { IfOk result (λ count. 0 < count) }
        ensures in_range { IfOk result (λ count. count ≤ most) }
        ensures tables { IfOk result (λ count. list.new ≡ list.old ++ take count (drop from (joined self.now))) }
    {
        let place = self.find(from);
        let chunk = self.chunks.get(place.segment);
        let count = (chunk.len() - place.offset).min(most);
        chunk.push_part(list, place.offset, count)?;
        Ok(count)
    }

    /// Puts one table, so many times, before the one at a place, or at the end.
    pub(crate) fn insert(&mut self, at: usize, table: &Shared, count: usize) -> Result<(), Memory>
        requires at { at ≤ length (joined self.old) }
        requires few { length (joined self.old) + count ≤ 16777216 }
        ensures { OnOk result (joined self.new ≡ inserted at count table.now (joined self.old)) }
    {
        let end = at;
        self.replace(&Splice { at, end, count }, table)
    }

    /// Removes so many tables from a place on.
    #[tactic(auto, using(crate::proofs::Chunks::removed_none))]
    pub(crate) fn remove(&mut self, at: usize, count: usize) -> Result<(), Memory>
        requires { at + count ≤ length (joined self.old) }
        ensures { OnOk result (joined self.new ≡ removed at count (joined self.old)) }
    {
        let _few = self.len();
        if count == 0 {
            return Ok(());
        }
        let end = at + count;
        // No copy of the table is put in.
        let table = self.get(at).to_shared()?;
        self.replace(&Splice { at, end, count: 0 }, &table)
    }

    /// The same chunks, and behind them these tables.
    pub(crate) fn with(&self, list: TableList) -> Result<Spine, Memory>
        requires { length (joined self.now) + length list ≤ 16777216 }
        ensures { IfOk result (λ spine. joined spine ≡ joined self.now ++ list) }
    {
        let mut spine = self.clone()?;
        spine.push_list(list)?;
        Ok(spine)
    }

    /// Puts tables behind the others, in chunks of their own.
    fn push_list(&mut self, list: TableList) -> Result<(), Memory>
        requires { length (joined self.old) + length list ≤ 16777216 }
        ensures { OnOk result (joined self.new ≡ joined self.old ++ list) }
    {
        let end = self.chunks();
        self.put(end, end, cut(list)?)
    }

    /// Makes a splice, with copies of the table: the chunks that it touches are cut anew, and all others stay.
    fn replace(&mut self, splice: &Splice, table: &Shared) -> Result<(), Memory>
        requires { Applies (length (joined self.old)) splice.now }
        ensures { OnOk result (joined self.new ≡ spliced (joined self.old) splice.now.at splice.now.end splice.now.count table.now) }
    {
        let replaced = self.replaced(splice);
        let tables = self.tables_after(splice, table, &replaced)?;
        self.put(replaced.first, replaced.after, cut(tables)?)
    }

    /// The chunks that a splice replaces.
    fn replaced(&self, splice: &Splice) -> Replaced
        requires { Applies (length (joined self.now)) splice.now }
        ensures { Covers (counts_of self.now) splice.now result }
    {
        self.ends.replaced(splice)
    }

    /// The tables that stand in place of those of the replaced chunks.
    fn tables_after(
        &self,
        splice: &Splice,
        table: &Shared,
        replaced: &Replaced,
    ) -> Result<TableList, Memory>
        requires applies { Applies (length (joined self.now)) splice.now }
        requires covers { Covers (counts_of self.now) splice.now replaced.now }
        ensures { IfOk result (λ tables. tables ≡ items_after (joined self.now) splice.now replaced.now table.now) }
    {
        let mut tables = TableList::new(self.allocator());
        self.push_part(&mut tables, replaced.start, splice.at - replaced.start)?;
        tables.push_copies(table, splice.count)?;
        self.push_part(&mut tables, splice.end, replaced.stop - splice.end)?;
        Ok(tables)
    }

    /// Puts chunks in place of those from `first` up to `after`.
    fn put(&mut self, first: usize, after: usize, fresh: Vec<Chunk>) -> Result<(), Memory>
        requires order { first ≤ after }
        requires in_range { after ≤ length self.old }
        requires some { All (λ n. 0 < n) (counts_of fresh.items) }
        requires each { All (λ n. n ≤ 1024) (counts_of fresh.items) }
        requires few { sum (take first (counts_of self.old) ++ (counts_of fresh.items ++ drop after (counts_of self.old))) ≤ 16777216 }
        ensures { OnOk result (self.new ≡ take first self.old ++ (fresh.items ++ drop after self.old)) }
    {
        let counts = counts(self.allocator(), &fresh)?;
        let ends = self.ends.spliced(first, after, &counts)?;
        self.chunks.replace(first, after, fresh)?;
        self.ends = ends;
        Ok(())
    }

    /// The same tables, small ones with homes kept together.
    pub(crate) fn pooled(&self) -> Result<Spine, Memory>
        ensures { IfOk result (λ spine. joined spine ≡ joined self.now) }
    {
        let _few = self.len();
        let mut chunks = Vec::new(self.allocator());
        for at in 0..self.chunks.len() {
            self.chunks.get(at).push_pooled(&mut chunks)?;
        }
        Spine::of_chunks(chunks)
    }

    /// How many chunks there are.
    fn chunks(&self) -> usize
        ensures { result ≡ length self.now }
    {
        self.chunks.len()
    }

    /// Whether the last chunk has no room, as where there is none.
    pub(crate) fn is_last_full(&self) -> bool
        ensures { OnFalse result (0 < length self.now) }
    {
        let count = self.chunks();
        count == 0 || self.chunks.get(count - 1).len() >= CHUNK_MOST
    }

    /// The last chunk.
    pub(crate) fn last(&self) -> &Chunk
        requires { 0 < length self.now }
        ensures { result.now ≡ slice_index_or self.now (length self.now - 1) [] }
    {
        self.chunks.get(self.chunks() - 1)
    }

    /// The schema of a table of the last chunk, if there is one.
    pub(crate) fn last_schema(&self) -> Option<&segments::Shared<Schema>> {
        let count = self.chunks();
        if count == 0 {
            return None;
        }
        self.chunks.get(count - 1).last_schema()
    }

    /// The chunks before the last.
    pub(crate) fn without_last(self) -> Result<Spine, Memory>
        requires { 0 < length self }
        ensures { IfOk result (λ spine. spine ≡ take (length self - 1) self) }
    {
        // The spine has few tables.
        let _few = self.len();
        let mut spine = self;
        let count = spine.chunks();
        spine.put(count - 1, count, Vec::new(spine.allocator()))?;
        Ok(spine)
    }
}

/// How many tables each chunk has.
fn counts(alloc: Global, chunks: &[Chunk]) -> Result<Vec<usize>, Memory>
    ensures { IfOk result (λ counts. counts.items ≡ counts_of chunks.now) }
{
    let mut counts = Vec::with_capacity(alloc, chunks.len())?;
    for chunk in chunks {
        counts.push(chunk.len())?;
    }
    Ok(counts)
}
