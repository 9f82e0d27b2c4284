//! A list of values in chunks, which copies of a column share.
ghost use Rattle.std.specs.Prelude.{◌≡◌, ℕ, pos, ◌+◌, ◌-◌, ◌<◌, ◌≤◌, [], ◌∷◌, ◌++◌, length, take, drop, map, replicate, slice_set, slice_index_or, None, IfOk, IfErr, OnOk, OnErr};
ghost use Rattle.std.specs.Bool.{OnTrue};
ghost use Rattle.segments.specs.Joined.{joined};
ghost use Rattle.bytes_col.specs.Strings.{short_bytes};
ghost use Rattle.bytes_col.specs.Blocks.{AreBlocks, IsBlocksRefusal};
ghost use Rattle.bytes_col.specs.Spine.{HasSizes, LastTakes};
ghost use Rattle.bytes_col.specs.Places.{HasRoomAt, HasMoreAt};
ghost use Rattle.segments.specs.Splices.{Applies, spliced};
ghost use Rattle.segments.specs.Together.{Together};

use crate::blocks::{BlocksError, Memos, parts_of};
use crate::chunk::{CHUNK_MOST, Chunk, insert_shared, push_shared, remove_shared, set_shared};
use crate::chunks::Chunks;
use crate::growing::Growing;
use crate::parts::Parts;
use crate::spine::Spine;
use int_col::IntCol;
use mk_value::{Bytes, Memory};
use segments::{Place, Shared, Splice};
use std::alloc::{AllocError, Global};
use std::marker::Model;

/// What is kept, by the number of chunks.
#[derive(Drop)]
pub(crate) enum Kind {
    /// No values, which take no memory.
    Empty(Global),
    /// One chunk, and no list of chunks.
    One(Shared<Chunk>),
    /// The list of the chunks. Those that are left may be few.
    Many(Shared<Spine>),
    /// The same, with a last chunk that takes values in place.
    Growing(Growing),
}

impl Clone for Kind {
    ghost is_clone = { λ a b. b ≡ a };

    fn clone(&self) -> Result<Kind, AllocError> {
        match self {
            Kind::Empty(alloc) => Ok(Kind::Empty(*alloc)),
            Kind::One(chunk) => Ok(Kind::One(chunk.clone()?)),
            Kind::Many(spine) => Ok(Kind::Many(spine.clone()?)),
            Kind::Growing(growing) => Ok(Kind::Growing(growing.clone()?)),
        }
    }
}

/// The values in chunks. A caller sees the list of the chunks, each as the list of its values.
#[derive(Drop)]
pub(crate) struct Chunked {
    kind: Kind,
}

impl Model for Chunked {
    ghost use Rattle.std.specs.Prelude.{List, ℕ};
    ghost use Rattle.bytes_col.specs.Chunked.{chunks_of};

    ghost Value = { List (List (List ℕ)) };

    ghost view = { λ c. chunks_of c.kind };
}

impl Clone for Chunked {
    ghost is_clone = { λ a b. b ≡ a };

    fn clone(&self) -> Result<Chunked, AllocError> {
        Ok(Chunked {
            kind: self.kind.clone()?,
        })
    }
}

impl Chunked {
    ghost use Rattle.bytes_col.specs.Chunked.{chunks_of};

    /// Copies of these values, in full chunks and a last one of what is left.
    pub(crate) fn of(alloc: Global, values: &[Bytes]) -> Result<Chunked, Memory>
        requires { length values.now ≤ 16777216 }
        ensures { IfOk result (λ chunks. joined chunks ≡ map (λ v. v.bytes) values.now) }
    {
        let mut parts = Parts::new(alloc);
        for value in values {
            parts.append(value.as_slice())?;
        }
        Chunked::of_chunks(alloc, parts.finish()?)
    }

    /// The values of these sizes, which the short bytes and the memos are.
    pub(crate) fn of_blocks(
        alloc: Global,
        sizes: &IntCol,
        short: &[u8],
        memos: &Memos,
    ) -> Result<Chunked, BlocksError>
        ensures ok { IfOk result (λ chunks. AreBlocks (joined chunks) sizes.now.values short.now memos.now) }
        ensures err { IfErr result (IsBlocksRefusal sizes.now.values short.now memos.now) }
    {
        let _few = sizes.len();
        let parts = parts_of(alloc, sizes, short, memos.as_slice())?;
        Ok(Chunked::of_chunks(alloc, parts.finish()?)?)
    }

    /// These chunks.
    pub(crate) fn of_chunks(alloc: Global, chunks: Chunks) -> Result<Chunked, Memory>
        requires { length (joined chunks) ≤ 16777216 }
        ensures { IfOk result (λ chunked. chunked ≡ chunks) }
    {
        if chunks.len() > 1 {
            let spine = Spine::of_chunks(chunks)?;
            return Ok(Chunked {
                kind: Kind::Many(Shared::of(alloc, spine)?),
            });
        }
        Ok(Chunked::of_one(alloc, chunks.into_items()))
    }

    /// At most one chunk.
    fn of_one(alloc: Global, mut chunks: Vec<Shared<Chunk>>) -> Chunked
        requires { length chunks.items ≤ 1 }
        ensures { result ≡ chunks.items }
    {
        match chunks.pop() {
            None => Chunked {
                kind: Kind::Empty(alloc),
            },
            Some(one) => Chunked {
                kind: Kind::One(one),
            },
        }
    }

    /// What is kept.
    pub(crate) fn kind(&self) -> &Kind
        ensures { chunks_of result.now ≡ self.now }
    {
        &self.kind
    }

    pub(crate) fn allocator(&self) -> Global {
        match &self.kind {
            Kind::Empty(alloc) => *alloc,
            Kind::One(chunk) => chunk.get().allocator(),
            Kind::Many(spine) => spine.get().allocator(),
            Kind::Growing(growing) => growing.allocator(),
        }
    }

    /// How many values there are.
    pub(crate) fn len(&self) -> usize
        ensures len { result ≡ length (joined self.now) }
        ensures few { result ≤ 16777216 }
    {
        match &self.kind {
            Kind::Empty(_) => 0,
            Kind::One(chunk) => chunk.get().len(),
            Kind::Many(spine) => spine.get().len(),
            Kind::Growing(growing) => growing.len(),
        }
    }

    /// How many bytes the short values have together.
    pub(crate) fn short_len(&self) -> usize
        ensures count { result ≡ length (short_bytes (joined self.now)) }
    {
        match &self.kind {
            Kind::Empty(_) => 0,
            Kind::One(chunk) => chunk.get().short_len(),
            Kind::Many(spine) => spine.get().short_len(),
            Kind::Growing(growing) => growing.short_len(),
        }
    }

    /// The value at a place.
    pub(crate) fn value(&self, at: usize) -> &[u8]
        requires { at < length (joined self.now) }
        ensures { result.now ≡ slice_index_or (joined self.now) at [] }
    {
        match &self.kind {
            Kind::Empty(_) => unreachable!(),
            Kind::One(chunk) => chunk.get().value(at),
            Kind::Many(spine) => spine.get().value(at),
            Kind::Growing(growing) => growing.value(at),
        }
    }

    /// Sets a value, and its size.
    pub(crate) fn set(&mut self, at: usize, value: &[u8], sizes: &mut IntCol) -> Result<(), Memory>
        requires at { at < length (joined self.old) }
        requires sizes { HasSizes (joined self.old) sizes.old }
        ensures ok { OnOk result (joined self.new ≡ slice_set (joined self.old) at value.now) }
        ensures sizes { OnOk result (HasSizes (joined self.new) sizes.new) }
        ensures err { OnErr result (self.new ≡ self.old) }
        ensures sizes_err { OnErr result (sizes.new ≡ sizes.old) }
    {
        match &mut self.kind {
            Kind::Empty(_) => unreachable!(),
            Kind::One(chunk) => set_in_chunk(chunk, at, value, sizes),
            Kind::Many(spine) => match spine.sole() {
                Some(own) => own.set(at, value, sizes),
                None => spine.own()?.set(at, value, sizes),
            },
            Kind::Growing(_) => self.set_anew(at, value, sizes),
        }
    }

    /// Adds a value at the end, and its size.
    pub(crate) fn push(&mut self, value: &[u8], sizes: &mut IntCol) -> Result<(), Memory>
        requires few { length (joined self.old) < 16777216 }
        requires sizes { HasSizes (joined self.old) sizes.old }
        ensures ok { OnOk result (joined self.new ≡ joined self.old ++ value.now ∷ []) }
        ensures sizes { OnOk result (HasSizes (joined self.new) sizes.new) }
        ensures err { OnErr result (self.new ≡ self.old) }
        ensures sizes_err { OnErr result (sizes.new ≡ sizes.old) }
    {
        match &mut self.kind {
            Kind::Many(spine) if spine.get().takes() => push_to_list(spine, value, sizes),
            Kind::One(chunk) if chunk.get().len() < CHUNK_MOST => {
                push_to_chunk(chunk, value, sizes)
            }
            _ => self.push_anew(value, sizes),
        }
    }

    /// Adds a value at the end, and its size, by a copy.
    fn push_anew(&mut self, value: &[u8], sizes: &mut IntCol) -> Result<(), Memory>
        requires few { length (joined self.old) < 16777216 }
        requires sizes { HasSizes (joined self.old) sizes.old }
        ensures ok { OnOk result (joined self.new ≡ joined self.old ++ value.now ∷ []) }
        ensures sizes { OnOk result (HasSizes (joined self.new) sizes.new) }
        ensures err { OnErr result (self.new ≡ self.old) }
        ensures sizes_err { OnErr result (sizes.new ≡ sizes.old) }
    {
        let len = self.len();
        self.insert_anew(len, value, 1, sizes, &mut || Ok(()))
    }

    /// Inserts copies of a value before a place, or at the end, and their sizes, and makes the call, or none of these. One is put into
    /// its chunk where that has room, in place where the chunk is not shared.
    pub(crate) fn insert_then<F: FnMut() -> Result<(), Memory>>(
        &mut self,
        at: usize,
        value: &[u8],
        count: usize,
        sizes: &mut IntCol,
        also: &mut F,
    ) -> Result<(), Memory>
        requires at { at ≤ length (joined self.old) }
        requires few { length (joined self.old) + count ≤ 16777216 }
        requires sizes { HasSizes (joined self.old) sizes.old }
        requires also { F.pre also.old }
        ensures ok { OnOk result (joined self.new ≡ take at (joined self.old) ++ (replicate count value.now ++ drop at (joined self.old))) }
        ensures sizes { OnOk result (HasSizes (joined self.new) sizes.new) }
        ensures err { OnErr result (self.new ≡ self.old) }
        ensures sizes_err { OnErr result (sizes.new ≡ sizes.old) }
        ensures also { Together F.step result also.old also.new }
    {
        if count == 1 {
            return self.insert_one(at, value, sizes, also);
        }
        self.insert_anew(at, value, count, sizes, also)
    }

    /// The same of one.
    fn insert_one<F: FnMut() -> Result<(), Memory>>(
        &mut self,
        at: usize,
        value: &[u8],
        sizes: &mut IntCol,
        also: &mut F,
    ) -> Result<(), Memory>
        requires at { at ≤ length (joined self.old) }
        requires few { length (joined self.old) < 16777216 }
        requires sizes { HasSizes (joined self.old) sizes.old }
        requires also { F.pre also.old }
        ensures ok { OnOk result (joined self.new ≡ take at (joined self.old) ++ (replicate 1 value.now ++ drop at (joined self.old))) }
        ensures sizes { OnOk result (HasSizes (joined self.new) sizes.new) }
        ensures err { OnErr result (self.new ≡ self.old) }
        ensures sizes_err { OnErr result (sizes.new ≡ sizes.old) }
        ensures also { Together F.step result also.old also.new }
    {
        match &mut self.kind {
            Kind::One(chunk) if chunk.get().len() < CHUNK_MOST => {
                insert_in_chunk(chunk, at, value, sizes, also)
            }
            Kind::Many(spine) => match spine.get().room_at(at) {
                Some(place) => insert_in_list(spine, at, &place, value, sizes, also),
                None => self.insert_anew(at, value, 1, sizes, also),
            },
            _ => self.insert_anew(at, value, 1, sizes, also),
        }
    }

    /// Removes values from a place on, and their sizes, and makes the call, or none of these. One is taken out of its chunk where that
    /// has more than a few, in place where the chunk is not shared.
    pub(crate) fn remove_then<F: FnMut() -> Result<(), Memory>>(
        &mut self,
        at: usize,
        count: usize,
        sizes: &mut IntCol,
        also: &mut F,
    ) -> Result<(), Memory>
        requires within { at + count ≤ length (joined self.old) }
        requires sizes { HasSizes (joined self.old) sizes.old }
        requires also { F.pre also.old }
        ensures ok { OnOk result (joined self.new ≡ take at (joined self.old) ++ drop (at + count) (joined self.old)) }
        ensures sizes { OnOk result (HasSizes (joined self.new) sizes.new) }
        ensures err { OnErr result (self.new ≡ self.old) }
        ensures sizes_err { OnErr result (sizes.new ≡ sizes.old) }
        ensures also { Together F.step result also.old also.new }
    {
        if count == 1 {
            return self.remove_one(at, sizes, also);
        }
        self.remove_anew(at, count, sizes, also)
    }

    /// The same of one.
    fn remove_one<F: FnMut() -> Result<(), Memory>>(
        &mut self,
        at: usize,
        sizes: &mut IntCol,
        also: &mut F,
    ) -> Result<(), Memory>
        requires at { at < length (joined self.old) }
        requires sizes { HasSizes (joined self.old) sizes.old }
        requires also { F.pre also.old }
        ensures ok { OnOk result (joined self.new ≡ take at (joined self.old) ++ drop (at + 1) (joined self.old)) }
        ensures sizes { OnOk result (HasSizes (joined self.new) sizes.new) }
        ensures err { OnErr result (self.new ≡ self.old) }
        ensures sizes_err { OnErr result (sizes.new ≡ sizes.old) }
        ensures also { Together F.step result also.old also.new }
    {
        match &mut self.kind {
            Kind::One(chunk) if chunk.get().len() > 1 => {
                remove_from_chunk(chunk, at, sizes, also)
            }
            Kind::Many(spine) => match spine.get().more_at(at) {
                Some(place) => remove_from_list(spine, at, &place, sizes, also),
                None => self.remove_anew(at, 1, sizes, also),
            },
            _ => self.remove_anew(at, 1, sizes, also),
        }
    }

    /// Sets a value in a list of the chunks.
    fn set_anew(&mut self, at: usize, value: &[u8], sizes: &mut IntCol) -> Result<(), Memory>
        requires at { at < length (joined self.old) }
        requires sizes { HasSizes (joined self.old) sizes.old }
        ensures ok { OnOk result (joined self.new ≡ slice_set (joined self.old) at value.now) }
        ensures sizes { OnOk result (HasSizes (joined self.new) sizes.new) }
        ensures err { OnErr result (self.new ≡ self.old) }
        ensures sizes_err { OnErr result (sizes.new ≡ sizes.old) }
    {
        let mut changed = sizes.same()?;
        let mut spine = self.to_spine()?;
        spine.set(at, value, &mut changed)?;
        *self = Chunked::of_spine(spine)?;
        *sizes = changed;
        Ok(())
    }

    /// Makes an insert in a list of the chunks, which stays where they are several then.
    fn insert_anew<F: FnMut() -> Result<(), Memory>>(
        &mut self,
        at: usize,
        value: &[u8],
        count: usize,
        sizes: &mut IntCol,
        also: &mut F,
    ) -> Result<(), Memory>
        requires at { at ≤ length (joined self.old) }
        requires few { length (joined self.old) + count ≤ 16777216 }
        requires sizes { HasSizes (joined self.old) sizes.old }
        requires also { F.pre also.old }
        ensures ok { OnOk result (joined self.new ≡ take at (joined self.old) ++ (replicate count value.now ++ drop at (joined self.old))) }
        ensures sizes { OnOk result (HasSizes (joined self.new) sizes.new) }
        ensures err { OnErr result (self.new ≡ self.old) }
        ensures sizes_err { OnErr result (sizes.new ≡ sizes.old) }
        ensures also { Together F.step result also.old also.new }
    {
        let end = at;
        let fresh = self.spliced(&Splice { at, end, count }, value)?;
        sizes.insert_then(at, value.len() as i64, count, also)?;
        *self = fresh;
        Ok(())
    }

    /// Makes a removal in a list of the chunks.
    fn remove_anew<F: FnMut() -> Result<(), Memory>>(
        &mut self,
        at: usize,
        count: usize,
        sizes: &mut IntCol,
        also: &mut F,
    ) -> Result<(), Memory>
        requires within { at + count ≤ length (joined self.old) }
        requires sizes { HasSizes (joined self.old) sizes.old }
        requires also { F.pre also.old }
        ensures ok { OnOk result (joined self.new ≡ take at (joined self.old) ++ drop (at + count) (joined self.old)) }
        ensures sizes { OnOk result (HasSizes (joined self.new) sizes.new) }
        ensures err { OnErr result (self.new ≡ self.old) }
        ensures sizes_err { OnErr result (sizes.new ≡ sizes.old) }
        ensures also { Together F.step result also.old also.new }
    {
        // The list has few values.
        let _few = self.len();
        let end = at + count;
        let fresh = self.spliced(&Splice { at, end, count: 0 }, &[])?;
        sizes.remove_then(at, count, also)?;
        *self = fresh;
        Ok(())
    }

    /// The values with a splice made: the chunks that it touches are made anew, and the others are shared.
    fn spliced(&self, splice: &Splice, value: &[u8]) -> Result<Chunked, Memory>
        requires { Applies (length (joined self.now)) splice.now }
        ensures { IfOk result (λ chunked. joined chunked ≡ spliced (joined self.now) splice.now.at splice.now.end splice.now.count value.now) }
    {
        let mut spine = self.to_spine()?;
        spine.replace(splice, value)?;
        Chunked::of_spine(spine)
    }

    /// The same values and one more. Where they are in several chunks, the last of them is no other list's.
    pub(crate) fn grown(&self, value: &[u8]) -> Result<Chunked, Memory>
        requires { length (joined self.now) < 16777216 }
        ensures { IfOk result (λ grown. joined grown ≡ joined self.now ++ value.now ∷ []) }
    {
        match &self.kind {
            Kind::Many(spine) => Ok(Chunked::of_growing(Growing::of_spine(spine, value)?)),
            Kind::Growing(growing) => Ok(Chunked::of_growing(growing.with(value)?)),
            _ => self.copy_with(value),
        }
    }

    /// A copy with one more value.
    fn copy_with(&self, value: &[u8]) -> Result<Chunked, Memory>
        requires { length (joined self.now) < 16777216 }
        ensures { IfOk result (λ copy. joined copy ≡ joined self.now ++ value.now ∷ []) }
    {
        let mut spine = self.to_spine()?;
        spine.append(value)?;
        Chunked::of_spine(spine)
    }

    /// These values, which grow in place.
    #[inline(always)]
    pub(crate) fn of_growing(growing: Growing) -> Chunked
        ensures { result ≡ growing }
    {
        Chunked {
            kind: Kind::Growing(growing),
        }
    }

    /// The values as they grow, if they take one more in place.
    ///
    /// # Errors
    ///
    /// The values as they are, if they do not.
    #[inline(always)]
    pub(crate) fn into_growing(self) -> Result<Growing, Chunked>
        ensures same { IfOk result (λ growing. growing ≡ self) }
        ensures takes { OnOk result (LastTakes self) }
        ensures err { IfErr result (λ same. same ≡ self) }
    {
        let Chunked { kind } = self;
        match kind {
            Kind::Growing(growing) => growing_if(growing),
            kind => Err(Chunked { kind }),
        }
    }

    /// A list of the same values.
    fn to_spine(&self) -> Result<Spine, Memory>
        ensures { IfOk result (λ spine. joined spine ≡ joined self.now) }
    {
        let _few = self.len();
        match &self.kind {
            Kind::Empty(alloc) => Ok(Spine::new(*alloc)),
            Kind::One(chunk) => spine_of_one(chunk),
            Kind::Many(spine) => Ok(spine.get().clone()?),
            Kind::Growing(growing) => growing.to_spine(),
        }
    }

    /// The chunks of a list, without it where there is at most one.
    fn of_spine(spine: Spine) -> Result<Chunked, Memory>
        ensures { IfOk result (λ chunked. joined chunked ≡ joined spine) }
    {
        let alloc = spine.allocator();
        let kind = match spine.count() {
            0 => Kind::Empty(alloc),
            1 => Kind::One(spine.into_one()?),
            _ => Kind::Many(Shared::of(alloc, spine)?),
        };
        Ok(Chunked { kind })
    }
}

/// The values as they grow, if they take one more in place, and else the values as they are.
#[inline(always)]
fn growing_if(growing: Growing) -> Result<Growing, Chunked>
    ensures same { IfOk result (λ same. same ≡ growing) }
    ensures takes { OnOk result (LastTakes growing) }
    ensures err { IfErr result (λ same. same ≡ growing) }
{
    if growing.takes() {
        Ok(growing)
    } else {
        Err(Chunked::of_growing(growing))
    }
}

/// A list of one chunk, or of none where that is empty.
fn spine_of_one(chunk: &Shared<Chunk>) -> Result<Spine, Memory>
    ensures { IfOk result (λ spine. joined spine ≡ joined (chunk.now ∷ [])) }
{
    let alloc = chunk.get().allocator();
    if chunk.get().len() == 0 {
        return Ok(Spine::new(alloc));
    }
    Spine::of_chunks(Chunks::of_one(alloc, chunk.clone()?)?)
}

/// Sets a value of a chunk that has all values, and its size.
fn set_in_chunk(
    chunk: &mut Shared<Chunk>,
    at: usize,
    value: &[u8],
    sizes: &mut IntCol,
) -> Result<(), Memory>
    requires at { at < length chunk.old }
    requires sizes { HasSizes chunk.old sizes.old }
    ensures ok { OnOk result (chunk.new ≡ slice_set chunk.old at value.now) }
    ensures sizes { OnOk result (HasSizes chunk.new sizes.new) }
    ensures err { OnErr result (chunk.new ≡ chunk.old) }
    ensures sizes_err { OnErr result (sizes.new ≡ sizes.old) }
{
    set_shared(chunk, at, value, sizes, at)
}

/// Adds a value to a chunk that has all values, and its size.
fn push_to_chunk(chunk: &mut Shared<Chunk>, value: &[u8], sizes: &mut IntCol) -> Result<(), Memory>
    requires room { length chunk.old < 512 }
    requires sizes { HasSizes chunk.old sizes.old }
    ensures ok { OnOk result (chunk.new ≡ chunk.old ++ value.now ∷ []) }
    ensures sizes { OnOk result (HasSizes chunk.new sizes.new) }
    ensures err { OnErr result (chunk.new ≡ chunk.old) }
    ensures sizes_err { OnErr result (sizes.new ≡ sizes.old) }
{
    push_shared(chunk, value, sizes)
}

/// Puts a value into a chunk that has all values, with its size, and makes the call, or none of these.
fn insert_in_chunk<F: FnMut() -> Result<(), Memory>>(
    chunk: &mut Shared<Chunk>,
    at: usize,
    value: &[u8],
    sizes: &mut IntCol,
    also: &mut F,
) -> Result<(), Memory>
    requires at { at ≤ length chunk.old }
    requires room { length chunk.old < 512 }
    requires sizes { HasSizes chunk.old sizes.old }
    requires also { F.pre also.old }
    ensures ok { OnOk result (chunk.new ≡ take at chunk.old ++ (replicate 1 value.now ++ drop at chunk.old)) }
    ensures sizes { OnOk result (HasSizes chunk.new sizes.new) }
    ensures err { OnErr result (chunk.new ≡ chunk.old) }
    ensures sizes_err { OnErr result (sizes.new ≡ sizes.old) }
    ensures also { Together F.step result also.old also.new }
{
    insert_shared(chunk, at, value, sizes, at, also)
}

/// Takes a value out of a chunk that has all values, with its size, and makes the call, or none of these.
fn remove_from_chunk<F: FnMut() -> Result<(), Memory>>(
    chunk: &mut Shared<Chunk>,
    at: usize,
    sizes: &mut IntCol,
    also: &mut F,
) -> Result<(), Memory>
    requires at { at < length chunk.old }
    requires sizes { HasSizes chunk.old sizes.old }
    requires also { F.pre also.old }
    ensures ok { OnOk result (chunk.new ≡ take at chunk.old ++ drop (at + 1) chunk.old) }
    ensures sizes { OnOk result (HasSizes chunk.new sizes.new) }
    ensures err { OnErr result (chunk.new ≡ chunk.old) }
    ensures sizes_err { OnErr result (sizes.new ≡ sizes.old) }
    ensures also { Together F.step result also.old also.new }
{
    remove_shared(chunk, at, sizes, at, also)
}

/// Adds a value that the last chunk of a list takes, and its size. Other owners keep the list as it was.
fn push_to_list(list: &mut Shared<Spine>, value: &[u8], sizes: &mut IntCol) -> Result<(), Memory>
    requires takes { LastTakes list.old }
    requires few { length (joined list.old) < 16777216 }
    requires sizes { HasSizes (joined list.old) sizes.old }
    ensures ok { OnOk result (joined list.new ≡ joined list.old ++ value.now ∷ []) }
    ensures sizes { OnOk result (HasSizes (joined list.new) sizes.new) }
    ensures err { OnErr result (list.new ≡ list.old) }
    ensures sizes_err { OnErr result (sizes.new ≡ sizes.old) }
{
    match list.sole() {
        Some(own) => own.push(value, sizes),
        None => list.own()?.push(value, sizes),
    }
}

/// Puts a value into a chunk of a list, with its size, and makes the call, or none of these. Other owners keep the list as it was.
fn insert_in_list<F: FnMut() -> Result<(), Memory>>(
    list: &mut Shared<Spine>,
    at: usize,
    place: &Place,
    value: &[u8],
    sizes: &mut IntCol,
    also: &mut F,
) -> Result<(), Memory>
    requires place { HasRoomAt list.old at place.now }
    requires few { length (joined list.old) < 16777216 }
    requires sizes { HasSizes (joined list.old) sizes.old }
    requires also { F.pre also.old }
    ensures ok { OnOk result (joined list.new ≡ take at (joined list.old) ++ (replicate 1 value.now ++ drop at (joined list.old))) }
    ensures sizes { OnOk result (HasSizes (joined list.new) sizes.new) }
    ensures err { OnErr result (list.new ≡ list.old) }
    ensures sizes_err { OnErr result (sizes.new ≡ sizes.old) }
    ensures also { Together F.step result also.old also.new }
{
    match list.sole() {
        Some(own) => own.insert_at(at, place, value, sizes, also),
        None => list.own()?.insert_at(at, place, value, sizes, also),
    }
}

/// Takes a value out of a chunk of a list, with its size, and makes the call, or none of these. Other owners keep the list as it was.
fn remove_from_list<F: FnMut() -> Result<(), Memory>>(
    list: &mut Shared<Spine>,
    at: usize,
    place: &Place,
    sizes: &mut IntCol,
    also: &mut F,
) -> Result<(), Memory>
    requires place { HasMoreAt list.old at place.now }
    requires sizes { HasSizes (joined list.old) sizes.old }
    requires also { F.pre also.old }
    ensures ok { OnOk result (joined list.new ≡ take at (joined list.old) ++ drop (at + 1) (joined list.old)) }
    ensures sizes { OnOk result (HasSizes (joined list.new) sizes.new) }
    ensures err { OnErr result (list.new ≡ list.old) }
    ensures sizes_err { OnErr result (sizes.new ≡ sizes.old) }
    ensures also { Together F.step result also.old also.new }
{
    match list.sole() {
        Some(own) => own.remove_at(at, place, sizes, also),
        None => list.own()?.remove_at(at, place, sizes, also),
    }
}
