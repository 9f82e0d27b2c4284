//! The list of a column's chunks.
ghost use Rattle.std.specs.Prelude.{◌≡◌, ℕ, pos, ◌+◌, ◌-◌, ◌<◌, ◌≤◌, List, [], ◌∷◌, ◌++◌, length, sum, slice_set, slice_index_or, take, drop, replicate, map, None, All, IfOk, IfSome, OnOk, OnErr};
ghost use Rattle.std.specs.Bool.{OnTrue};
ghost use Rattle.segments.specs.Segments.{IsPlace};
ghost use Rattle.segments.specs.Splices.{Applies, Covers, items_after, spliced};
ghost use Rattle.segments.specs.Joined.{joined, counts_of};
ghost use Rattle.bytes_col.specs.Strings.{short_bytes, sizes_of};
ghost use Rattle.bytes_col.specs.Spine.{IsSpine, HasSizes, LastTakes};
ghost use Rattle.bytes_col.specs.Growing.{front};
ghost use Rattle.bytes_col.specs.Parts.{added};
ghost use Rattle.bytes_col.specs.Places.{IsPlaceOrEnd, HasRoomAt, HasMoreAt};
ghost use Rattle.segments.specs.Together.{Together};

use crate::chunk::{CHUNK_MOST, Chunk, insert_shared, push_shared, remove_shared, set_shared};
use crate::chunks::Chunks;
use crate::parts::Parts;
use int_col::IntCol;
use mk_value::Memory;
use segments::{Groups, Place, Replaced, Segments, Shared, Splice};
use std::alloc::{AllocError, Global};
use std::marker::Model;

/// A chunk of no more values than these is joined with its neighbours, if they fit, when one is taken out of it.
const CHUNK_FEW: usize = 128;

/// The chunks in order, none of which is empty, in groups that copies share, and how they cut the list of values.
#[derive(Drop)]
pub(crate) struct Spine {
    chunks: Groups<Chunk>,
    ends: Segments<CHUNK_MOST>,
}

impl Model for Spine {
    ghost use Rattle.std.specs.Prelude.{List, ℕ};
    ghost use Rattle.bytes_col.specs.Spine.{IsSpine};

    ghost Value = { List (List (List ℕ)) };

    ghost view = { λ s. s.chunks };

    ghost invariant = { λ s. IsSpine s.chunks s.ends };
}

impl Clone for Spine {
    ghost is_clone = { λ a b. b ≡ a };

    #[cold]
    #[inline(never)]
    fn clone(&self) -> Result<Spine, AllocError> {
        Ok(Spine {
            chunks: self.chunks.clone()?,
            ends: self.ends.clone()?,
        })
    }
}

impl Spine {
    /// No chunks. It takes no memory.
    pub(crate) fn new(alloc: Global) -> Spine
        ensures { result ≡ [] }
    {
        Spine {
            chunks: Groups::new(alloc),
            ends: Segments::new(alloc),
        }
    }

    /// The spine of these chunks.
    pub(crate) fn of_chunks(chunks: Chunks) -> Result<Spine, Memory>
        requires { length (joined chunks) ≤ 16777216 }
        ensures { IfOk result (λ spine. spine ≡ chunks) }
    {
        let mut spine = Spine::new(chunks.allocator());
        spine.put(0, 0, chunks)?;
        Ok(spine)
    }

    pub(crate) fn allocator(&self) -> Global {
        self.chunks.allocator()
    }

    /// How many chunks there are.
    pub(crate) fn count(&self) -> usize
        ensures { result ≡ length self.now }
    {
        self.chunks.len()
    }

    /// The chunk of this number.
    pub(crate) fn chunk(&self, k: usize) -> &Chunk
        requires { k < length self.now }
        ensures { result.now ≡ slice_index_or self.now k result.now }
    {
        self.chunks.get(k)
    }

    /// The chunk of a list of one.
    pub(crate) fn into_one(self) -> Result<Shared<Chunk>, Memory>
        requires { length self ≡ 1 }
        ensures { IfOk result (λ one. self ≡ one ∷ []) }
    {
        let Spine {
            mut chunks,
            ends: _ends,
        } = self;
        let one = chunks.slot(0)?;
        Ok(one.clone()?)
    }

    /// How many values there are.
    pub(crate) fn len(&self) -> usize
        ensures len { result ≡ length (joined self.now) }
        ensures few { result ≤ 16777216 }
    {
        self.ends.len()
    }

    /// Where a value stands.
    pub(crate) fn find(&self, at: usize) -> Place
        requires { at < length (joined self.now) }
        ensures in_range { result.segment < length self.now }
        ensures place { IsPlace (counts_of self.now) at result }
    {
        self.ends.find(at)
    }

    /// The value at a place.
    pub(crate) fn value(&self, at: usize) -> &[u8]
        requires { at < length (joined self.now) }
        ensures { result.now ≡ slice_index_or (joined self.now) at [] }
    {
        let place = self.find(at);
        let chunk = self.chunk(place.segment);
        chunk.value(place.offset)
    }

    /// Sets a value, and its size.
    pub(crate) fn set(&mut self, at: usize, value: &[u8], sizes: &mut IntCol) -> Result<(), Memory>
        requires at { at < length (joined self.old) }
        requires sizes { HasSizes (joined self.old) sizes.old }
        ensures ok { OnOk result (joined self.new ≡ slice_set (joined self.old) at value.now) }
        ensures sizes { OnOk result (HasSizes (joined self.new) sizes.new) }
        ensures err { OnErr result (self.new ≡ self.old) }
        ensures sizes_err { OnErr result (sizes.new ≡ sizes.old) }
    {
        let place = self.find(at);
        let chunk = self.chunks.slot(place.segment)?;
        set_shared(chunk, place.offset, value, sizes, at)
    }

    /// The list of the chunks before the last.
    pub(crate) fn without_last(&self) -> Result<Spine, Memory>
        requires { 0 < length self.now }
        ensures { IfOk result (λ spine. spine ≡ front self.now) }
    {
        // The list has few values.
        let _few = self.len();
        let count = self.count();
        self.with(count - 1, count, Chunks::new(self.allocator()))
    }

    /// A copy of the last chunk, which takes one more value, with it.
    pub(crate) fn last_with(&self, value: &[u8]) -> Result<Chunk, Memory>
        requires { LastTakes self.now }
        ensures { IfOk result (λ chunk. chunk ≡ slice_index_or self.now (length self.now - 1) [] ++ value.now ∷ []) }
    {
        let last = self.chunk(self.count() - 1);
        last.with(value)
    }

    /// A chunk of this value, with room for more that are like those of the last chunk.
    pub(crate) fn next_of(&self, value: &[u8]) -> Result<Chunk, Memory>
        ensures { IfOk result (λ chunk. chunk ≡ value.now ∷ []) }
    {
        let mut chunk = Chunk::new(self.allocator());
        if let Some(last) = self.chunks.last() {
            chunk.reserve(last, CHUNK_MOST)?;
        }
        chunk.append(value)?;
        Ok(chunk)
    }

    /// The list of these chunks and one more, which is not empty.
    pub(crate) fn with_last(&self, last: Shared<Chunk>) -> Result<Spine, Memory>
        requires some { 0 < length last }
        requires few { length (joined (self.now ++ last ∷ [])) ≤ 16777216 }
        ensures { IfOk result (λ spine. spine ≡ self.now ++ last ∷ []) }
    {
        let count = self.count();
        self.with(count, count, Chunks::of_one(self.allocator(), last)?)
    }

    /// Whether the last chunk takes one more value.
    pub(crate) fn takes(&self) -> bool
        ensures yes { OnTrue result (LastTakes self.now) }
    {
        match self.chunks.last() {
            None => false,
            Some(last) => last.len() < CHUNK_MOST,
        }
    }

    /// Adds a value that the last chunk takes, and its size.
    pub(crate) fn push(&mut self, value: &[u8], sizes: &mut IntCol) -> Result<(), Memory>
        requires takes { LastTakes self.old }
        requires few { length (joined self.old) < 16777216 }
        requires sizes { HasSizes (joined self.old) sizes.old }
        ensures ok { OnOk result (joined self.new ≡ joined self.old ++ value.now ∷ []) }
        ensures sizes { OnOk result (HasSizes (joined self.new) sizes.new) }
        ensures err { OnErr result (self.new ≡ self.old) }
        ensures sizes_err { OnErr result (sizes.new ≡ sizes.old) }
    {
        let last = self.chunks.len() - 1;
        let chunk = self.chunks.slot(last)?;
        push_shared(chunk, value, sizes)?;
        self.ends.extend_last();
        Ok(())
    }

    /// Adds the values from place `from` up to `to` to chunks under construction.
    fn add_to(&self, parts: &mut Parts, from: usize, to: usize) -> Result<(), Memory>
        requires order { from ≤ to }
        requires within { to ≤ length (joined self.now) }
        ensures { OnOk result (added parts.new ≡ added parts.old ++ take (to - from) (drop from (joined self.now))) }
    {
        let mut at = from;
        while at < to {
            at = self.add_some_to(parts, at, to)?;
        }
        Ok(())
    }

    /// Adds values of the chunk that holds place `from`, from there up to `to` or the chunk's end, and gives the next
    /// place.
    fn add_some_to(&self, parts: &mut Parts, from: usize, to: usize) -> Result<usize, Memory>
        requires order { from < to }
        requires within { to ≤ length (joined self.now) }
        ensures more { IfOk result (λ next. from < next) }
        ensures in_range { IfOk result (λ next. next ≤ to) }
        ensures values { IfOk result (λ next. added parts.new ≡ added parts.old ++ take (next - from) (drop from (joined self.now))) }
    {
        let place = self.find(from);
        let chunk = self.chunk(place.segment);
        let count = (chunk.len() - place.offset).min(to - from);
        parts.add(chunk, place.offset, place.offset + count)?;
        Ok(from + count)
    }

    /// Where a value can be put in before a place, or at the end, if the chunk there has room.
    pub(crate) fn room_at(&self, at: usize) -> Option<Place>
        requires { at ≤ length (joined self.now) }
        ensures { IfSome result (HasRoomAt self.now at) }
    {
        let place = self.place_of(at)?;
        if self.chunk(place.segment).len() == CHUNK_MOST {
            return None;
        }
        Some(place)
    }

    /// Where a value stands that can be taken away, if its chunk has more than a few.
    pub(crate) fn more_at(&self, at: usize) -> Option<Place>
        requires { at < length (joined self.now) }
        ensures { IfSome result (HasMoreAt self.now at) }
    {
        let place = self.find(at);
        if self.chunk(place.segment).len() <= CHUNK_FEW {
            return None;
        }
        Some(place)
    }

    /// Where a place is. The end of the list is in its last chunk.
    fn place_of(&self, at: usize) -> Option<Place>
        requires { at ≤ length (joined self.now) }
        ensures { IfSome result (IsPlaceOrEnd self.now at) }
    {
        if at < self.len() {
            return Some(self.find(at));
        }
        self.end_of_last()
    }

    /// The end of the list.
    fn end_of_last(&self) -> Option<Place>
        ensures { IfSome result (IsPlaceOrEnd self.now (length (joined self.now))) }
    {
        let count = self.count();
        if count == 0 {
            return None;
        }
        let segment = count - 1;
        Some(Place {
            segment,
            offset: self.chunk(segment).len(),
        })
    }

    /// Puts a value in before a place of a chunk, or at its end, with its size, and makes the call, or none of these.
    pub(crate) fn insert_at<F: FnMut() -> Result<(), Memory>>(
        &mut self,
        at: usize,
        place: &Place,
        value: &[u8],
        sizes: &mut IntCol,
        also: &mut F,
    ) -> Result<(), Memory>
        requires place { HasRoomAt self.old at place.now }
        requires few { length (joined self.old) < 16777216 }
        requires sizes { HasSizes (joined self.old) sizes.old }
        requires also { F.pre also.old }
        ensures ok { OnOk result (joined self.new ≡ take at (joined self.old) ++ (replicate 1 value.now ++ drop at (joined self.old))) }
        ensures sizes { OnOk result (HasSizes (joined self.new) sizes.new) }
        ensures err { OnErr result (self.new ≡ self.old) }
        ensures sizes_err { OnErr result (sizes.new ≡ sizes.old) }
        ensures also { Together F.step result also.old also.new }
    {
        let count = self.chunk(place.segment).len() + 1;
        let chunk = self.chunks.slot(place.segment)?;
        insert_shared(chunk, place.offset, value, sizes, at, also)?;
        self.ends.recount(place.segment, count);
        Ok(())
    }

    /// Takes the value at a place of a chunk away, with its size, and makes the call, or none of these.
    pub(crate) fn remove_at<F: FnMut() -> Result<(), Memory>>(
        &mut self,
        at: usize,
        place: &Place,
        sizes: &mut IntCol,
        also: &mut F,
    ) -> Result<(), Memory>
        requires place { HasMoreAt self.old at place.now }
        requires sizes { HasSizes (joined self.old) sizes.old }
        requires also { F.pre also.old }
        ensures ok { OnOk result (joined self.new ≡ take at (joined self.old) ++ drop (at + 1) (joined self.old)) }
        ensures sizes { OnOk result (HasSizes (joined self.new) sizes.new) }
        ensures err { OnErr result (self.new ≡ self.old) }
        ensures sizes_err { OnErr result (sizes.new ≡ sizes.old) }
        ensures also { Together F.step result also.old also.new }
    {
        // The list has few values.
        let _list = self.len();
        let count = self.chunk(place.segment).len() - 1;
        let chunk = self.chunks.slot(place.segment)?;
        remove_shared(chunk, place.offset, sizes, at, also)?;
        self.ends.recount(place.segment, count);
        Ok(())
    }

    /// Adds a value at the end. The sizes are kept elsewhere.
    pub(crate) fn append(&mut self, value: &[u8]) -> Result<(), Memory>
        requires { length (joined self.old) < 16777216 }
        ensures { OnOk result (joined self.new ≡ joined self.old ++ value.now ∷ []) }
    {
        let at = self.len();
        let end = at;
        self.replace(&Splice { at, end, count: 1 }, value)
    }

    /// Makes a splice, with copies of the value: the replaced chunks are spliced, and all others stay.
    pub(crate) fn replace(&mut self, splice: &Splice, value: &[u8]) -> Result<(), Memory>
        requires { Applies (length (joined self.old)) splice.now }
        ensures ok { OnOk result (joined self.new ≡ spliced (joined self.old) splice.now.at splice.now.end splice.now.count value.now) }
        ensures err { OnErr result (self.new ≡ self.old) }
    {
        let replaced = self.replaced(splice);
        let parts = self.parts_after(splice, &replaced, value)?;
        self.put(replaced.first, replaced.after, parts.finish()?)
    }

    /// The chunks that a splice replaces.
    fn replaced(&self, splice: &Splice) -> Replaced
        requires { Applies (length (joined self.now)) splice.now }
        ensures { Covers (counts_of self.now) splice.now result }
    {
        self.ends.replaced(splice)
    }

    /// Where a splice adds values at the end, makes room for a whole chunk of values like those of the chunk before, since more are
    /// likely to follow.
    fn expect_more(
        &self,
        parts: &mut Parts,
        splice: &Splice,
        replaced: &Replaced,
    ) -> Result<(), Memory>
        requires { replaced.now.first ≤ length self.now }
        ensures { OnOk result (added parts.new ≡ added parts.old) }
    {
        if replaced.first == 0 || splice.at < self.len() {
            return Ok(());
        }
        parts.prepare(self.chunk(replaced.first - 1), CHUNK_MOST)
    }

    /// How many values each of the chunks is to have that stand in place of the replaced: as many as a chunk may have at the end of the
    /// list, where more are likely to follow, and else about as many as the others, so that each has room.
    fn share(&self, splice: &Splice, replaced: &Replaced) -> usize
        requires applies { Applies (length (joined self.now)) splice.now }
        requires covers { Covers (counts_of self.now) splice.now replaced.now }
    {
        if splice.at == self.len() {
            return CHUNK_MOST;
        }
        let size = splice.size_after(replaced);
        let chunks = size / CHUNK_MOST + 1;
        size / chunks + 1
    }

    /// The values that stand in place of those of the replaced chunks.
    fn parts_after(
        &self,
        splice: &Splice,
        replaced: &Replaced,
        value: &[u8],
    ) -> Result<Parts, Memory>
        requires applies { Applies (length (joined self.now)) splice.now }
        requires covers { Covers (counts_of self.now) splice.now replaced.now }
        ensures { IfOk result (λ parts. added parts ≡ items_after (joined self.now) splice.now replaced.now value.now) }
    {
        let alloc = self.allocator();
        let mut one = Chunk::new(alloc);
        one.append(value)?;
        let mut parts = Parts::sharing(alloc, self.share(splice, replaced));
        self.expect_more(&mut parts, splice, replaced)?;
        self.add_to(&mut parts, replaced.start, splice.at)?;
        parts.add_copies(&one, splice.count)?;
        self.add_to(&mut parts, splice.end, replaced.stop)?;
        Ok(parts)
    }

    /// Puts chunks in place of those from `first` up to `after`.
    fn put(&mut self, first: usize, after: usize, fresh: Chunks) -> Result<(), Memory>
        requires order { first ≤ after }
        requires in_range { after ≤ length self.old }
        requires few { sum (take first (counts_of self.old) ++ (counts_of fresh ++ drop after (counts_of self.old))) ≤ 16777216 }
        ensures ok { OnOk result (self.new ≡ take first self.old ++ (fresh ++ drop after self.old)) }
        ensures err { OnErr result (self.new ≡ self.old) }
    {
        let ends = self.ends_with(first, after, &fresh)?;
        self.chunks.replace(first, after, fresh.into_items())?;
        self.ends = ends;
        Ok(())
    }

    /// A copy with chunks in place of those from `first` up to `after`.
    fn with(&self, first: usize, after: usize, fresh: Chunks) -> Result<Spine, Memory>
        requires order { first ≤ after }
        requires in_range { after ≤ length self.now }
        requires few { sum (take first (counts_of self.now) ++ (counts_of fresh ++ drop after (counts_of self.now))) ≤ 16777216 }
        ensures { IfOk result (λ spine. spine ≡ take first self.now ++ (fresh ++ drop after self.now)) }
    {
        let ends = self.ends_with(first, after, &fresh)?;
        let mut chunks = self.chunks.clone()?;
        chunks.replace(first, after, fresh.into_items())?;
        Ok(Spine { chunks, ends })
    }

    /// Where the chunks end, with others in place of those from `first` up to `after`. There are at most as many chunks as values, since none
    /// is empty.
    fn ends_with(
        &self,
        first: usize,
        after: usize,
        fresh: &Chunks,
    ) -> Result<Segments<CHUNK_MOST>, Memory>
        requires order { first ≤ after }
        requires in_range { after ≤ length self.now }
        requires few { sum (take first (counts_of self.now) ++ (counts_of fresh.now ++ drop after (counts_of self.now))) ≤ 16777216 }
        ensures ends { IfOk result (IsSpine (take first self.now ++ (fresh.now ++ drop after self.now))) }
        ensures few { first + length fresh.now + (length self.now - after) ≤ 16777216 }
    {
        let counts = counts(self.chunks.allocator(), fresh.as_slice())?;
        self.ends.spliced(first, after, &counts)
    }
}

/// How many values each chunk has.
fn counts(alloc: Global, chunks: &[Shared<Chunk>]) -> Result<Vec<usize>, Memory>
    ensures counts { IfOk result (λ counts. counts.items ≡ counts_of chunks.now) }
    ensures few { IfOk result (λ counts. All (λ n. n ≤ 512) counts.items) }
{
    let mut counts = Vec::with_capacity(alloc, chunks.len())?;
    for shared in chunks {
        counts.push(shared.get().len())?;
    }
    Ok(counts)
}
