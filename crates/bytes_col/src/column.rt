//! A column of texts or byte strings.
ghost use Rattle.std.specs.Prelude.{◌≡◌, ℕ, pos, ◌+◌, ◌-◌, ◌<◌, ◌≤◌, ◌==◌, [], ◌∷◌, ◌++◌, length, take, drop, map, replicate, slice_set, slice_index_or, Some, None, IfOk, IfErr, OnOk, OnErr, IfSome, IfNone, sum, nat_le, not, if◌then◌else◌};
ghost use Rattle.std.specs.Bool.{OnTrue};
ghost use Rattle.std.specs.List.{filter};
ghost use Rattle.std.specs.Ordering.{nat_cmp};
ghost use Rattle.std.specs.Cmp.Lexicographic.{slice_cmp};
ghost use Rattle.bytes_col.specs.Blocks.{AreBlocks, IsBlocksRefusal};
ghost use Rattle.segments.specs.Joined.{joined};
ghost use Rattle.segments.specs.Together.{Together};
ghost use Rattle.bytes_col.specs.Spine.{HasSizes, LastTakes, strings_of};
ghost use Rattle.bytes_col.specs.Strings.{Strings, Push, is_short, short_bytes, sizes_of, memo_rows, home_after};

use crate::blocks::{BlocksError, Memos};
use crate::cell::SHORT_MOST;
use crate::chunked::Chunked;
use crate::growing::Growing;
use crate::home::{BytesHome, Home};
use crate::order::order;
use crate::prepared::PreparedPush;
use crate::short_bytes::ShortBytes;
use int_col::IntCol;
use mk_value::{Bytes, Memory, Positions};
use std::alloc::Global;
use std::cmp::Ordering;
use std::marker::Model;

/// A column of at most 16,777,216 texts or byte strings, and where it stands in a file.
///
/// A value of more than 512 bytes is a memo; the others are short.
#[derive(Drop)]
pub struct BytesCol {
    chunks: Chunked,
    sizes: IntCol,
    home: Option<Home>,
}

/// The parts of a column that grows in place.
#[derive(Drop)]
pub(crate) struct GrowingColumn {
    pub(crate) growing: Growing,
    pub(crate) sizes: IntCol,
    pub(crate) home: Option<Home>,
}

impl Model for BytesCol {
    ghost use Rattle.bytes_col.specs.Blocks.{AreBlocks, IsBlocksRefusal};
    ghost use Rattle.bytes_col.specs.Strings.{Strings};
    ghost use Rattle.segments.specs.Joined.{joined};
    ghost use Rattle.bytes_col.specs.Spine.{strings_of, HasSizes};

    ghost Value = { Strings };

    ghost view = { λ c. strings_of c.chunks c.home };

    ghost invariant = { λ c. HasSizes (joined c.chunks) c.sizes };
}

impl BytesCol {
    /// The column of copies of these values.
    ///
    /// # Errors
    ///
    /// `Memory`.
    pub fn from_values(
        alloc: Global,
        values: &[Bytes],
        home: Option<BytesHome>,
    ) -> Result<BytesCol, Memory>
        requires { length values.now ≤ 16777216 }
        ensures values { IfOk result (λ column. column.values ≡ map (λ value. value.bytes) values.now) }
        ensures home { IfOk result (λ column. column.home ≡ home) }
    {
        let sizes = sizes(alloc, values)?;
        Ok(BytesCol {
            chunks: Chunked::of(alloc, values)?,
            sizes: IntCol::from_values(alloc, &sizes, None)?,
            home: common_home(alloc, home)?,
        })
    }

    /// The column of the values that have these sizes, these short values, joined in the order of the rows, and these memos. It goes
    /// value by value; the bytes of memos are not copied. The home of the sizes is left aside.
    ///
    /// # Errors
    ///
    /// `Mismatch`, exactly where no values have these blocks; `Memory`.
    pub fn from_blocks(
        alloc: Global,
        sizes: &IntCol,
        short: &[u8],
        memos: &Memos,
        home: Option<BytesHome>,
    ) -> Result<BytesCol, BlocksError>
        ensures values { IfOk result (λ column. AreBlocks column.values sizes.now.values short.now memos.now) }
        ensures home { IfOk result (λ column. column.home ≡ home) }
        ensures refused { IfErr result (IsBlocksRefusal sizes.now.values short.now memos.now) }
    {
        let chunks = Chunked::of_blocks(alloc, sizes, short, memos)?;
        let sizes = sizes.unplaced()?;
        let home = common_home(alloc, home)?;
        Ok(BytesCol {
            chunks,
            sizes,
            home,
        })
    }

    /// How many values there are.
    pub fn len(&self) -> usize
        ensures len { result ≡ length self.now.values }
        ensures few { length self.now.values ≤ 16777216 }
    {
        self.chunks.len()
    }

    /// Whether there are no values.
    pub fn is_empty(&self) -> bool
        ensures { result ≡ (length self.now.values == 0) }
    {
        self.len() == 0
    }

    /// The value at a place, lent.
    pub fn value(&self, at: usize) -> &[u8]
        requires { at < length self.now.values }
        ensures { result.now ≡ slice_index_or self.now.values at [] }
    {
        self.chunks.value(at)
    }

    /// A copy of the value at a place.
    ///
    /// # Errors
    ///
    /// `Memory`.
    pub fn get(&self, at: usize) -> Result<Bytes, Memory>
        requires { at < length self.now.values }
        ensures { IfOk result (λ value. value.bytes ≡ slice_index_or self.now.values at []) }
    {
        Bytes::from_slice(self.chunks.allocator(), self.chunks.value(at))
    }

    /// Sets the value at a place. The home is then none, also where the value was there before.
    ///
    /// The bytes of a short value are written behind those of its chunk, where they do not become too many, and no other value
    /// moves.
    ///
    /// # Errors
    ///
    /// `Memory`, and the column is as it was.
    pub fn set(&mut self, at: usize, value: &[u8]) -> Result<(), Memory>
        requires { at < length self.old.values }
        ensures ok { OnOk result (self.new ≡ record self.old { values = slice_set self.old.values at value.now; home = None }) }
        ensures err { OnErr result (self.new ≡ self.old) }
    {
        self.chunks.set(at, value, &mut self.sizes)?;
        self.home = None;
        Ok(())
    }

    /// Inserts copies of a value before a place, or at the end. The home is then none, unless there are no copies.
    ///
    /// The copies of a memo share its bytes, and whole chunks of copies are one chunk, shared. One value is put into the chunk at the
    /// place where that has room: in place, or into a copy of it where it is shared, with a walk over the places where chunks end. Else
    /// it costs copies of the values of the chunks at the place.
    ///
    /// # Errors
    ///
    /// `Memory`, and the column is as it was.
    pub fn insert(&mut self, at: usize, value: &[u8], count: usize) -> Result<(), Memory>
        requires at { at ≤ length self.old.values }
        requires few { length self.old.values + count ≤ 16777216 }
        ensures values { OnOk result (self.new.values ≡ take at self.old.values ++ (replicate count value.now ++ drop at self.old.values)) }
        ensures home { OnOk result (self.new.home ≡ home_after count self.old.home) }
        ensures err { OnErr result (self.new ≡ self.old) }
    {
        if count == 0 {
            return Ok(());
        }
        if count == 1 && at == self.len() {
            return self.push(value);
        }
        self.insert_then(at, value, count, &mut || Ok(()))
    }

    /// Adds a value at the end.
    fn push(&mut self, value: &[u8]) -> Result<(), Memory>
        requires { length self.old.values < 16777216 }
        ensures values { OnOk result (self.new.values ≡ self.old.values ++ value.now ∷ []) }
        ensures home { OnOk result (self.new.home ≡ None) }
        ensures err { OnErr result (self.new ≡ self.old) }
    {
        self.chunks.push(value, &mut self.sizes)?;
        self.home = None;
        Ok(())
    }

    /// Inserts copies of a value before a place, or at the end, and makes a call on the way, both or neither: the call is made when
    /// nothing can fail any more but itself. The home is then none.
    ///
    /// # Errors
    ///
    /// `Memory`, and the column is as it was; or the call's.
    pub fn insert_then<F: FnMut() -> Result<(), Memory>>(
        &mut self,
        at: usize,
        value: &[u8],
        count: usize,
        also: &mut F,
    ) -> Result<(), Memory>
        requires at { at ≤ length self.old.values }
        requires few { length self.old.values + count ≤ 16777216 }
        requires also { F.pre also.old }
        ensures values { OnOk result (self.new.values ≡ take at self.old.values ++ (replicate count value.now ++ drop at self.old.values)) }
        ensures home { OnOk result (self.new.home ≡ None) }
        ensures err { OnErr result (self.new ≡ self.old) }
        ensures also { Together F.step result also.old also.new }
    {
        self.chunks
            .insert_then(at, value, count, &mut self.sizes, also)?;
        self.home = None;
        Ok(())
    }

    /// Makes itself ready for one more value at the end: what then is done with it cannot fail.
    ///
    /// It costs the value in the end where the last chunk was made by such a push and has room. Else the last chunk is copied, if it has
    /// room, and the list of chunks, for which its groups are counted.
    ///
    /// # Errors
    ///
    /// The column as it was, for want of memory.
    #[inline(always)]
    pub fn prepare_push(self, value: &[u8]) -> Result<PreparedPush, BytesCol>
        requires { length self.values < 16777216 }
        ensures ok { IfOk result (λ prepared. prepared ≡ record { column = self; values = self.values ++ value.now ∷ [] }) }
        ensures err { IfErr result (λ same. same ≡ self) }
    {
        PreparedPush::of(self, value)
    }

    pub(crate) fn allocator(&self) -> Global {
        self.chunks.allocator()
    }

    /// The same values and one more, without a home.
    pub(crate) fn grown(&self, value: &[u8]) -> Result<BytesCol, Memory>
        requires { length self.now.values < 16777216 }
        ensures values { IfOk result (λ grown. grown.values ≡ self.now.values ++ value.now ∷ []) }
        ensures home { IfOk result (λ grown. grown.home ≡ None) }
    {
        let sizes = with_size(&self.sizes, value.len() as i64)?;
        Ok(BytesCol {
            chunks: self.chunks.grown(value)?,
            sizes,
            home: None,
        })
    }

    /// The parts of the column, if it takes one more value in place.
    ///
    /// # Errors
    ///
    /// The column as it is, if it does not.
    #[inline(always)]
    pub(crate) fn into_parts(self) -> Result<GrowingColumn, BytesCol>
        ensures same { IfOk result (λ parts. strings_of parts.growing parts.home ≡ self) }
        ensures takes { IfOk result (λ parts. LastTakes parts.growing) }
        ensures sizes { IfOk result (λ parts. HasSizes (joined parts.growing) parts.sizes) }
        ensures err { IfErr result (λ same. same ≡ self) }
    {
        let BytesCol {
            chunks,
            sizes,
            home,
        } = self;
        match chunks.into_growing() {
            Ok(growing) => Ok(GrowingColumn {
                growing,
                sizes,
                home,
            }),
            Err(chunks) => Err(BytesCol {
                chunks,
                sizes,
                home,
            }),
        }
    }

    /// The column of these parts.
    #[inline(always)]
    pub(crate) fn of_parts(parts: GrowingColumn) -> BytesCol
        requires { HasSizes (joined parts.growing) parts.sizes }
        ensures { result ≡ strings_of parts.growing parts.home }
    {
        let GrowingColumn {
            growing,
            sizes,
            home,
        } = parts;
        BytesCol {
            chunks: Chunked::of_growing(growing),
            sizes,
            home,
        }
    }

    /// Removes as many values from a place on. The home is then none, unless none are removed.
    ///
    /// One value is taken out of its chunk where that has more than a few: in place, or out of a copy of it where it is shared, with a
    /// walk over the places where chunks end. Else it costs copies of the values of the chunks at both ends.
    ///
    /// # Errors
    ///
    /// `Memory`, and the column is as it was.
    pub fn remove(&mut self, at: usize, count: usize) -> Result<(), Memory>
        requires { at + count ≤ length self.old.values }
        ensures values { OnOk result (self.new.values ≡ take at self.old.values ++ drop (at + count) self.old.values) }
        ensures home { OnOk result (self.new.home ≡ home_after count self.old.home) }
        ensures err { OnErr result (self.new ≡ self.old) }
    {
        if count == 0 {
            return Ok(());
        }
        self.remove_then(at, count, &mut || Ok(()))
    }

    /// Removes as many values from a place on, and makes a call on the way, both or neither: the call is made when nothing can fail any
    /// more but itself. The home is then none.
    ///
    /// # Errors
    ///
    /// `Memory`, and the column is as it was; or the call's.
    pub fn remove_then<F: FnMut() -> Result<(), Memory>>(
        &mut self,
        at: usize,
        count: usize,
        also: &mut F,
    ) -> Result<(), Memory>
        requires within { at + count ≤ length self.old.values }
        requires also { F.pre also.old }
        ensures values { OnOk result (self.new.values ≡ take at self.old.values ++ drop (at + count) self.old.values) }
        ensures home { OnOk result (self.new.home ≡ None) }
        ensures err { OnErr result (self.new ≡ self.old) }
        ensures also { Together F.step result also.old also.new }
    {
        // The list has few values.
        let _few = self.len();
        self.chunks.remove_then(at, count, &mut self.sizes, also)?;
        self.home = None;
        Ok(())
    }

    /// How the value at a place compares with another: the first byte that differs decides, and a proper prefix is less.
    pub fn cmp_with(&self, at: usize, with: &[u8]) -> Ordering
        requires { at < length self.now.values }
        ensures { result ≡ slice_cmp nat_cmp (slice_index_or self.now.values at []) with.now }
    {
        order(self.chunks.value(at), with)
    }

    /// How the values at two places compare, as in `cmp_with`.
    pub fn cmp_at(&self, a: usize, b: usize) -> Ordering
        requires a { a < length self.now.values }
        requires b { b < length self.now.values }
        ensures { result ≡ slice_cmp nat_cmp (slice_index_or self.now.values a []) (slice_index_or self.now.values b []) }
    {
        order(self.chunks.value(a), self.chunks.value(b))
    }

    /// The sizes of the values in bytes. They have no home of their own.
    pub fn sizes(&self) -> &IntCol
        ensures sizes { result.now.values ≡ sizes_of self.now.values }
        ensures home { result.now.home ≡ None }
    {
        &self.sizes
    }

    /// How many bytes the short values have together. It costs a look at each chunk.
    pub fn short_len(&self) -> u64
        ensures count { result ≡ length (short_bytes self.now.values) }
        ensures sum { result ≡ sum (filter (λ size. nat_le size 512) (map length self.now.values)) }
    {
        self.chunks.short_len() as u64
    }

    /// The rows of the memos, ascending. It costs a look at each segment of the sizes, and at each value where some size takes more
    /// than 8 bits.
    ///
    /// # Errors
    ///
    /// `Memory`.
    pub fn memo_rows(&self, alloc: Global) -> Result<Positions, Memory>
        ensures { IfOk result (λ rows. rows ≡ memo_rows self.now.values) }
    {
        let mut rows = Positions::new(alloc);
        if self.are_sizes_narrow() {
            return Ok(rows);
        }
        for row in 0..self.len() {
            push_where(&mut rows, self.is_memo(row), row as u32)?;
        }
        Ok(rows)
    }

    /// Whether each size is one of 8 bits, so that no value is a memo.
    fn are_sizes_narrow(&self) -> bool
        ensures { OnTrue result (memo_rows self.now.values ≡ []) }
    {
        self.sizes.width().bits() <= 8
    }

    /// Whether a value is a memo.
    fn is_memo(&self, row: usize) -> bool
        requires { row < length self.now.values }
        ensures { result ≡ not (is_short (slice_index_or self.now.values row [])) }
    {
        self.chunks.value(row).len() > SHORT_MOST
    }

    /// Writes the bytes of the short values, joined in the order of the rows, from byte `from` on.
    pub fn fill_short(&self, from: u64, into: &mut [u8])
        requires { from + length into.old ≤ length (short_bytes self.now.values) }
        ensures { into.new ≡ take (length into.old) (drop from (short_bytes self.now.values)) }
    {
        self.chunks.fill_short(0, from as usize, into);
    }

    /// The bytes of the short values, joined in the order of the rows, to be written one piece after another. It costs a look at
    /// each chunk.
    pub fn short(&self) -> ShortBytes<'_>
        ensures { result ≡ short_bytes self.now.values }
    {
        ShortBytes::of(&self.chunks)
    }

    /// Writes the bytes of a value from byte `from` on.
    pub fn fill_memo(&self, row: usize, from: u64, into: &mut [u8])
        requires row { row < length self.now.values }
        requires within { from + length into.old ≤ length (slice_index_or self.now.values row []) }
        ensures { into.new ≡ take (length into.old) (drop from (slice_index_or self.now.values row [])) }
    {
        let value = self.chunks.value(row);
        let from = from as usize;
        into.copy_from_slice(&value[from..from + into.len()]);
    }

    /// Where the column stands in a file, if it stands there as it is.
    pub fn home(&self) -> Option<&BytesHome>
        ensures some { IfSome result (λ home. self.now.home ≡ Some home.now) }
        ensures none { IfNone result (self.now.home ≡ None) }
    {
        match &self.home {
            None => None,
            Some(home) => Some(home.get()),
        }
    }

    /// Sets the home, and nothing else. It takes no memory.
    pub fn settle(&mut self, home: BytesHome)
        ensures { self.new ≡ record self.old { home = Some home } }
    {
        self.home = Some(Home::own(home));
    }

    /// A copy, which shares all values and the home. Only where the home was set by `settle` it costs the length of the home; the
    /// copies of the copy share it.
    ///
    /// # Errors
    ///
    /// `Memory`.
    pub fn same(&self) -> Result<BytesCol, Memory>
        ensures { IfOk result (λ copy. copy ≡ self.now) }
    {
        Ok(BytesCol {
            chunks: self.chunks.clone()?,
            sizes: self.sizes.same()?,
            home: same_home(self.chunks.allocator(), &self.home)?,
        })
    }

    /// The same values without a home, which share all memory.
    ///
    /// # Errors
    ///
    /// `Memory`, where there are as many copies as can be counted.
    pub fn unplaced(&self) -> Result<BytesCol, Memory>
        ensures { IfOk result (λ copy. copy ≡ record self.now { home = None }) }
    {
        Ok(BytesCol {
            chunks: self.chunks.clone()?,
            sizes: self.sizes.same()?,
            home: None,
        })
    }
}

/// The sizes of the values in bytes.
fn sizes(alloc: Global, values: &[Bytes]) -> Result<Vec<i64>, Memory>
    ensures { IfOk result (λ sizes. sizes.items ≡ sizes_of (map (λ value. value.bytes) values.now)) }
{
    let mut sizes = Vec::with_capacity(alloc, values.len())?;
    for value in values {
        sizes.push(value.as_slice().len() as i64)?;
    }
    Ok(sizes)
}

/// The sizes and one more. They have no home.
fn with_size(sizes: &IntCol, size: i64) -> Result<IntCol, Memory>
    requires { length sizes.now.values < 16777216 }
    ensures values { IfOk result (λ longer. longer.values ≡ sizes.now.values ++ size ∷ []) }
    ensures home { IfOk result (λ longer. longer.home ≡ None) }
{
    match sizes.same()?.prepare_push(size) {
        Ok(prepared) => Ok(prepared.finish()),
        Err(_) => Err(Memory),
    }
}

/// Adds a row where it is one of those that are sought.
fn push_where(rows: &mut Positions, sought: bool, row: u32) -> Result<(), Memory>
    ensures { OnOk result (rows.new ≡ rows.old ++ (if sought then row ∷ [] else [])) }
{
    if sought {
        rows.push(row)?;
    }
    Ok(())
}

/// A home that copies share.
fn common_home(alloc: Global, home: Option<BytesHome>) -> Result<Option<Home>, Memory>
    ensures { IfOk result (λ common. common ≡ home) }
{
    match home {
        None => Ok(None),
        Some(home) => Ok(Some(Home::common(alloc, home)?)),
    }
}

/// The same home for a copy.
fn same_home(alloc: Global, home: &Option<Home>) -> Result<Option<Home>, Memory>
    ensures { IfOk result (λ same. same ≡ home.now) }
{
    match home {
        None => Ok(None),
        Some(home) => Ok(Some(home.same(alloc)?)),
    }
}
