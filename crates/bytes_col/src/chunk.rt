//! A segment of values.
ghost use Rattle.std.specs.Prelude.{◌≡◌, ℕ, pos, ◌+◌, ◌-◌, ◌*◌, ◌<◌, ◌≤◌, [], ◌∷◌, ◌++◌, length, slice_set, slice_index_or, take, drop, replicate, None, IfOk, OnOk, OnErr, vec_capacity};
ghost use Rattle.bytes_col.specs.Growing.{front};
ghost use Rattle.bytes_col.specs.Strings.{short_bytes};
ghost use Rattle.std.specs.Bool.{OnTrue, OnFalse};
ghost use Rattle.segments.specs.Together.{Together};
ghost use Rattle.bytes_col.specs.Chunk.{cell_value, IsCell, IsBehind, HasSize, overwritten};

use crate::cell::{Cell, Piece, SHORT_MOST};
use crate::memo::Memo;
use int_col::IntCol;
use mk_value::Memory;
use segments::Shared;
use std::alloc::{AllocError, Global};
use std::marker::Model;

/// The most values of one chunk.
pub(crate) const CHUNK_MOST: usize = 512;

/// How many bytes of a chunk may be those of no value any more, beside as many as those of its values.
const LOOSE_MOST: usize = 4096;

/// At most 512 values. A short value that is added, or set to another size, is written behind the bytes, so that no other value
/// moves. No byte belongs to two values, so one of the same size can be written over the old one.
#[derive(Drop)]
pub(crate) struct Chunk {
    cells: Vec<Cell>,
    bytes: Vec<u8>,
    short: usize,
}

impl Model for Chunk {
    ghost use Rattle.std.specs.Prelude.{List, ℕ};
    ghost use Rattle.bytes_col.specs.Chunk.{cell_values, IsChunk};

    ghost Value = { List (List ℕ) };

    ghost view = { λ c. cell_values c.bytes.items c.cells.items };

    ghost invariant = { λ c. IsChunk c.cells.items c.bytes.items c.short };
}

impl Clone for Chunk {
    ghost is_clone = { λ a b. b ≡ a };

    /// A copy is made to be written to, so it has room for one more short value.
    #[cold]
    #[inline(never)]
    fn clone(&self) -> Result<Chunk, AllocError> {
        let room = self.bytes.len().saturating_add(SHORT_MOST);
        let mut bytes = Vec::with_capacity(*self.bytes.allocator(), room)?;
        bytes.extend_from_slice(&self.bytes)?;
        Ok(Chunk {
            cells: Vec::from_clones(*self.cells.allocator(), &self.cells)?,
            bytes,
            short: self.short,
        })
    }
}

impl Chunk {
    /// No values.
    pub(crate) fn new(alloc: Global) -> Chunk
        ensures { result ≡ [] }
    {
        Chunk {
            cells: Vec::new(alloc),
            bytes: Vec::new(alloc),
            short: 0,
        }
    }

    /// No values, and room for so many with so many short bytes together.
    fn with_room(alloc: Global, values: usize, bytes: usize) -> Result<Chunk, Memory>
        ensures { IfOk result (λ chunk. chunk ≡ []) }
    {
        Ok(Chunk {
            cells: Vec::with_capacity(alloc, values)?,
            bytes: Vec::with_capacity(alloc, bytes)?,
            short: 0,
        })
    }

    /// Makes room for about so many of another chunk's values.
    pub(crate) fn reserve(&mut self, other: &Chunk, count: usize) -> Result<(), Memory>
        ensures { self.new ≡ self.old }
    {
        let each = other.short.checked_div(other.len()).unwrap_or(0);
        self.cells.reserve(count)?;
        self.bytes.reserve(each.saturating_mul(count))?;
        Ok(())
    }

    pub(crate) fn allocator(&self) -> Global {
        *self.bytes.allocator()
    }

    /// How many values there are.
    pub(crate) fn len(&self) -> usize
        ensures count { result ≡ length self.now }
        ensures few { result ≤ 512 }
    {
        self.cells.len()
    }

    /// How many bytes the short values have together.
    pub(crate) fn short_len(&self) -> usize
        ensures count { result ≡ length (short_bytes self.now) }
        ensures few { result ≤ 262144 }
    {
        self.short
    }

    /// The value at a place.
    pub(crate) fn value(&self, at: usize) -> &[u8]
        requires { at < length self.now }
        ensures { result.now ≡ slice_index_or self.now at [] }
    {
        match &self.cells[at] {
            Cell::Short(piece) => &self.bytes[piece.start..piece.start + piece.len],
            Cell::Memo(memo) => memo.bytes(),
        }
    }

    /// Adds a value.
    pub(crate) fn append(&mut self, value: &[u8]) -> Result<(), Memory>
        requires { length self.old < 512 }
        ensures ok { OnOk result (self.new ≡ self.old ++ value.now ∷ []) }
        ensures err { OnErr result (self.new ≡ self.old) }
    {
        self.cells.reserve(1)?;
        let cell = stage(&mut self.bytes, value)?;
        self.cells.push_reserved(cell);
        self.short += short_size(value);
        Ok(())
    }

    /// Takes the last value away. Its bytes, if it is short, are those of no value then.
    pub(crate) fn pop(&mut self)
        requires { 0 < length self.old }
        ensures { self.new ≡ front self.old }
    {
        let last = self.len() - 1;
        let short = self.short - short_size(self.value(last));
        self.cells.truncate(last);
        self.short = short;
    }

    /// Adds a memo, which shares its bytes.
    pub(crate) fn append_memo(&mut self, memo: &Memo) -> Result<(), Memory>
        requires room { length self.old < 512 }
        requires long { 512 < length memo.now }
        ensures { OnOk result (self.new ≡ self.old ++ memo.now ∷ []) }
    {
        self.cells.reserve(1)?;
        self.cells.push_reserved(Cell::Memo(memo.clone()?));
        Ok(())
    }

    /// A copy, with one more value.
    pub(crate) fn with(&self, value: &[u8]) -> Result<Chunk, Memory>
        requires { length self.now < 512 }
        ensures { IfOk result (λ chunk. chunk ≡ self.now ++ value.now ∷ []) }
    {
        let mut chunk = self.clone()?;
        chunk.append(value)?;
        Ok(chunk)
    }

    /// Adds a value, and its size.
    #[inline]
    pub(crate) fn push(&mut self, value: &[u8], sizes: &mut IntCol) -> Result<(), Memory>
        requires room { length self.old < 512 }
        requires few { length sizes.old.values < 16777216 }
        ensures ok { OnOk result (self.new ≡ self.old ++ value.now ∷ []) }
        ensures sizes { OnOk result (sizes.new.values ≡ sizes.old.values ++ pos (length value.now) ∷ []) }
        ensures home { OnOk result (sizes.new.home ≡ None) }
        ensures err { OnErr result (self.new ≡ self.old) }
        ensures sizes_err { OnErr result (sizes.new ≡ sizes.old) }
    {
        self.cells.reserve(1)?;
        let cell = stage(&mut self.bytes, value)?;
        sizes.insert(sizes.len(), value.len() as i64, 1)?;
        self.cells.push_reserved(cell);
        self.short += short_size(value);
        Ok(())
    }

    /// Puts a value in before a place, or at the end, with its size, and makes the call, or none of these.
    pub(crate) fn insert_then<F: FnMut() -> Result<(), Memory>>(
        &mut self,
        at: usize,
        value: &[u8],
        sizes: &mut IntCol,
        row: usize,
        also: &mut F,
    ) -> Result<(), Memory>
        requires at { at ≤ length self.old }
        requires room { length self.old < 512 }
        requires row { row ≤ length sizes.old.values }
        requires few { length sizes.old.values < 16777216 }
        requires also { F.pre also.old }
        ensures ok { OnOk result (self.new ≡ take at self.old ++ (value.now ∷ drop at self.old)) }
        ensures sizes { OnOk result (sizes.new.values ≡ take row sizes.old.values ++ (replicate 1 (pos (length value.now)) ++ drop row sizes.old.values)) }
        ensures home { OnOk result (sizes.new.home ≡ None) }
        ensures err { OnErr result (self.new ≡ self.old) }
        ensures sizes_err { OnErr result (sizes.new ≡ sizes.old) }
        ensures also { Together F.step result also.old also.new }
    {
        self.tighten()?;
        self.put_then(at, value, sizes, row, also)
    }

    /// The same, where the bytes of no value are few.
    fn put_then<F: FnMut() -> Result<(), Memory>>(
        &mut self,
        at: usize,
        value: &[u8],
        sizes: &mut IntCol,
        row: usize,
        also: &mut F,
    ) -> Result<(), Memory>
        requires at { at ≤ length self.old }
        requires room { length self.old < 512 }
        requires row { row ≤ length sizes.old.values }
        requires few { length sizes.old.values < 16777216 }
        requires also { F.pre also.old }
        ensures ok { OnOk result (self.new ≡ take at self.old ++ (value.now ∷ drop at self.old)) }
        ensures sizes { OnOk result (sizes.new.values ≡ take row sizes.old.values ++ (replicate 1 (pos (length value.now)) ++ drop row sizes.old.values)) }
        ensures home { OnOk result (sizes.new.home ≡ None) }
        ensures err { OnErr result (self.new ≡ self.old) }
        ensures sizes_err { OnErr result (sizes.new ≡ sizes.old) }
        ensures also { Together F.step result also.old also.new }
    {
        self.cells.reserve(1)?;
        let cell = stage(&mut self.bytes, value)?;
        sizes.insert_then(row, value.len() as i64, 1, also)?;
        put_cell(&mut self.cells, at, cell);
        self.short += short_size(value);
        Ok(())
    }

    /// Takes the value at a place away, and its size, and makes the call, or none of these. Its bytes, if it is short, are those of no
    /// value then.
    pub(crate) fn remove_then<F: FnMut() -> Result<(), Memory>>(
        &mut self,
        at: usize,
        sizes: &mut IntCol,
        row: usize,
        also: &mut F,
    ) -> Result<(), Memory>
        requires at { at < length self.old }
        requires row { row < length sizes.old.values }
        requires also { F.pre also.old }
        ensures ok { OnOk result (self.new ≡ take at self.old ++ drop (at + 1) self.old) }
        ensures sizes { OnOk result (sizes.new.values ≡ take row sizes.old.values ++ drop (row + 1) sizes.old.values) }
        ensures home { OnOk result (sizes.new.home ≡ None) }
        ensures err { OnErr result (self.new ≡ self.old) }
        ensures sizes_err { OnErr result (sizes.new ≡ sizes.old) }
        ensures also { Together F.step result also.old also.new }
    {
        let short = self.short - short_size(self.value(at));
        sizes.remove_then(row, 1, also)?;
        take_cell(&mut self.cells, at);
        self.short = short;
        Ok(())
    }

    /// Adds a copy of another chunk's value. A memo's copy shares its bytes.
    pub(crate) fn add(&mut self, other: &Chunk, at: usize) -> Result<(), Memory>
        requires at { at < length other.now }
        requires room { length self.old < 512 }
        ensures { OnOk result (self.new ≡ self.old ++ slice_index_or other.now at [] ∷ []) }
    {
        self.cells.reserve(1)?;
        let cell = stage_copy(&mut self.bytes, &other.cells[at], &other.bytes)?;
        self.cells.push_reserved(cell);
        self.short += short_size(other.value(at));
        Ok(())
    }

    /// Adds so many copies of another chunk's value.
    pub(crate) fn add_copies(
        &mut self,
        other: &Chunk,
        at: usize,
        count: usize,
    ) -> Result<(), Memory>
        requires at { at < length other.now }
        requires room { length self.old + count ≤ 512 }
        ensures { OnOk result (self.new ≡ self.old ++ replicate count (slice_index_or other.now at [])) }
    {
        for _copy in 0..count {
            self.add(other, at)?;
        }
        Ok(())
    }

    /// Sets a value, and its size. One as long is written over the old one, where that is in memory of its own.
    pub(crate) fn set(
        &mut self,
        at: usize,
        value: &[u8],
        sizes: &mut IntCol,
        row: usize,
    ) -> Result<(), Memory>
        requires at { at < length self.old }
        requires size { HasSize sizes.old row (slice_index_or self.old at []) }
        ensures ok { OnOk result (self.new ≡ slice_set self.old at value.now) }
        ensures sizes { OnOk result (sizes.new ≡ record sizes.old { values = slice_set sizes.old.values row (pos (length value.now)); home = None }) }
        ensures len { length self.new ≡ length self.old }
        ensures err { OnErr result (self.new ≡ self.old) }
        ensures sizes_err { OnErr result (sizes.new ≡ sizes.old) }
    {
        if self.overwrite(at, value) {
            return Ok(());
        }
        self.put(at, value, sizes, row)
    }

    /// Writes a value over the one at a place, if that has as many bytes and is in memory of its own, and says whether it did.
    fn overwrite(&mut self, at: usize, value: &[u8]) -> bool
        requires { at < length self.old }
        ensures done { OnTrue result (self.new ≡ slice_set self.old at value.now) }
        ensures size { OnTrue result (length value.now ≡ length (slice_index_or self.old at [])) }
        ensures not_done { OnFalse result (self.new ≡ self.old) }
    {
        match &mut self.cells[at] {
            Cell::Short(piece) => overwrite_piece(&mut self.bytes, piece, value),
            Cell::Memo(memo) => memo.overwrite(value),
        }
    }

    /// Puts a value in place of another, and its size.
    fn put(&mut self, at: usize, value: &[u8], sizes: &mut IntCol, row: usize) -> Result<(), Memory>
        requires at { at < length self.old }
        requires row { row < length sizes.old.values }
        ensures ok { OnOk result (self.new ≡ slice_set self.old at value.now) }
        ensures sizes { OnOk result (sizes.new ≡ record sizes.old { values = slice_set sizes.old.values row (pos (length value.now)); home = None }) }
        ensures len { length self.new ≡ length self.old }
        ensures err { OnErr result (self.new ≡ self.old) }
        ensures sizes_err { OnErr result (sizes.new ≡ sizes.old) }
    {
        self.tighten()?;
        let short = self.short - short_size(self.value(at)) + short_size(value);
        let cell = stage(&mut self.bytes, value)?;
        sizes.set(row, value.len() as i64)?;
        self.cells[at] = cell;
        self.short = short;
        Ok(())
    }

    /// Drops the bytes of no value, where they have become many.
    fn tighten(&mut self) -> Result<(), Memory>
        ensures { self.new ≡ self.old }
    {
        if self.bytes.len() / 2 <= self.short.saturating_add(LOOSE_MOST) {
            return Ok(());
        }
        *self = self.packed()?;
        Ok(())
    }

    /// The same values, with no other bytes.
    fn packed(&self) -> Result<Chunk, Memory>
        ensures { IfOk result (λ chunk. chunk ≡ self.now) }
    {
        let room = self.short_len() + SHORT_MOST;
        let mut chunk = Chunk::with_room(*self.bytes.allocator(), self.len(), room)?;
        for at in 0..self.len() {
            chunk.add(self, at)?;
        }
        Ok(chunk)
    }
}

/// Adds a value, and its size. Other owners keep the chunk as it was.
pub(crate) fn push_shared(
    chunk: &mut Shared<Chunk>,
    value: &[u8],
    sizes: &mut IntCol,
) -> Result<(), Memory>
    requires room { length chunk.old < 512 }
    requires few { length sizes.old.values < 16777216 }
    ensures ok { OnOk result (chunk.new ≡ chunk.old ++ value.now ∷ []) }
    ensures sizes { OnOk result (sizes.new.values ≡ sizes.old.values ++ pos (length value.now) ∷ []) }
    ensures home { OnOk result (sizes.new.home ≡ None) }
    ensures err { OnErr result (chunk.new ≡ chunk.old) }
    ensures sizes_err { OnErr result (sizes.new ≡ sizes.old) }
{
    match chunk.sole() {
        Some(own) => own.push(value, sizes),
        None => chunk.own()?.push(value, sizes),
    }
}

/// Sets a value, and its size. Other owners keep the chunk as it was.
pub(crate) fn set_shared(
    chunk: &mut Shared<Chunk>,
    at: usize,
    value: &[u8],
    sizes: &mut IntCol,
    row: usize,
) -> Result<(), Memory>
    requires at { at < length chunk.old }
    requires size { HasSize sizes.old row (slice_index_or chunk.old at []) }
    ensures ok { OnOk result (chunk.new ≡ slice_set chunk.old at value.now) }
    ensures sizes { OnOk result (sizes.new ≡ record sizes.old { values = slice_set sizes.old.values row (pos (length value.now)); home = None }) }
    ensures len { length chunk.new ≡ length chunk.old }
    ensures err { OnErr result (chunk.new ≡ chunk.old) }
    ensures sizes_err { OnErr result (sizes.new ≡ sizes.old) }
{
    match chunk.sole() {
        Some(own) => own.set(at, value, sizes, row),
        None => chunk.own()?.set(at, value, sizes, row),
    }
}

/// Puts a value into a chunk, with its size, and makes the call, or none of these. Other owners keep the chunk as it was.
pub(crate) fn insert_shared<F: FnMut() -> Result<(), Memory>>(
    chunk: &mut Shared<Chunk>,
    at: usize,
    value: &[u8],
    sizes: &mut IntCol,
    row: usize,
    also: &mut F,
) -> Result<(), Memory>
    requires at { at ≤ length chunk.old }
    requires room { length chunk.old < 512 }
    requires row { row ≤ length sizes.old.values }
    requires few { length sizes.old.values < 16777216 }
    requires also { F.pre also.old }
    ensures ok { OnOk result (chunk.new ≡ take at chunk.old ++ (value.now ∷ drop at chunk.old)) }
    ensures sizes { OnOk result (sizes.new.values ≡ take row sizes.old.values ++ (replicate 1 (pos (length value.now)) ++ drop row sizes.old.values)) }
    ensures home { OnOk result (sizes.new.home ≡ None) }
    ensures err { OnErr result (chunk.new ≡ chunk.old) }
    ensures sizes_err { OnErr result (sizes.new ≡ sizes.old) }
    ensures also { Together F.step result also.old also.new }
{
    match chunk.sole() {
        Some(own) => own.insert_then(at, value, sizes, row, also),
        None => chunk.own()?.insert_then(at, value, sizes, row, also),
    }
}

/// Takes a value out of a chunk, with its size, and makes the call, or none of these. Other owners keep the chunk as it was.
pub(crate) fn remove_shared<F: FnMut() -> Result<(), Memory>>(
    chunk: &mut Shared<Chunk>,
    at: usize,
    sizes: &mut IntCol,
    row: usize,
    also: &mut F,
) -> Result<(), Memory>
    requires at { at < length chunk.old }
    requires row { row < length sizes.old.values }
    requires also { F.pre also.old }
    ensures ok { OnOk result (chunk.new ≡ take at chunk.old ++ drop (at + 1) chunk.old) }
    ensures sizes { OnOk result (sizes.new.values ≡ take row sizes.old.values ++ drop (row + 1) sizes.old.values) }
    ensures home { OnOk result (sizes.new.home ≡ None) }
    ensures err { OnErr result (chunk.new ≡ chunk.old) }
    ensures sizes_err { OnErr result (sizes.new ≡ sizes.old) }
    ensures also { Together F.step result also.old also.new }
{
    match chunk.sole() {
        Some(own) => own.remove_then(at, sizes, row, also),
        None => chunk.own()?.remove_then(at, sizes, row, also),
    }
}

/// Puts a cell in before a place, or at the end, where there is room for it.
fn put_cell(cells: &mut Vec<Cell>, at: usize, cell: Cell)
    requires at { at ≤ length cells.old.items }
    requires room { length cells.old.items < vec_capacity cells.old }
    ensures { cells.new.items ≡ take at cells.old.items ++ (cell ∷ drop at cells.old.items) }
{
    if cells.insert(at, cell).is_err() {
        unreachable!();
    }
}

/// Takes the cell at a place away.
fn take_cell(cells: &mut Vec<Cell>, at: usize)
    requires { at < length cells.old.items }
    ensures { cells.new.items ≡ take at cells.old.items ++ drop (at + 1) cells.old.items }
{
    let _cell = cells.remove(at);
}

/// How many short bytes a value has.
fn short_size(value: &[u8]) -> usize
    ensures count { result ≡ length (short_bytes (value.now ∷ [])) }
    ensures few { result ≤ 512 }
{
    if value.len() <= SHORT_MOST {
        value.len()
    } else {
        0
    }
}

/// The cell of a value, whose bytes are written behind those that are there, if it is short.
#[inline]
fn stage(bytes: &mut Vec<u8>, value: &[u8]) -> Result<Cell, Memory>
    ensures value { IfOk result (λ cell. cell_value bytes.new.items cell ≡ value.now) }
    ensures cell { IfOk result (λ cell. IsCell bytes.new.items cell) }
    ensures behind { IfOk result (λ cell. IsBehind (length bytes.old.items) cell) }
    ensures kept { OnOk result (bytes.new.items ≡ bytes.old.items ++ short_bytes (value.now ∷ [])) }
    ensures err { OnErr result (bytes.new.items ≡ bytes.old.items) }
{
    if value.len() > SHORT_MOST {
        return Ok(Cell::Memo(Memo::of(*bytes.allocator(), value)?));
    }
    let start = bytes.len();
    bytes.extend_from_slice(value)?;
    Ok(Cell::Short(Piece {
        start,
        len: value.len(),
    }))
}

/// The cell of a copy of another chunk's value, which has the other's cell and bytes.
fn stage_copy(bytes: &mut Vec<u8>, cell: &Cell, from: &[u8]) -> Result<Cell, Memory>
    requires { IsCell from.now cell.now }
    ensures value { IfOk result (λ copy. cell_value bytes.new.items copy ≡ cell_value from.now cell.now) }
    ensures cell { IfOk result (λ copy. IsCell bytes.new.items copy) }
    ensures behind { IfOk result (λ copy. IsBehind (length bytes.old.items) copy) }
    ensures kept { OnOk result (bytes.new.items ≡ bytes.old.items ++ short_bytes (cell_value from.now cell.now ∷ [])) }
    ensures err { OnErr result (bytes.new.items ≡ bytes.old.items) }
{
    match cell {
        Cell::Short(piece) => stage(bytes, &from[piece.start..piece.start + piece.len]),
        Cell::Memo(memo) => Ok(Cell::Memo(memo.clone()?)),
    }
}

/// Writes a value over a part of the bytes, if it is as long, and says whether it did.
fn overwrite_piece(bytes: &mut Vec<u8>, piece: &Piece, value: &[u8]) -> bool
    requires { piece.now.start + piece.now.len ≤ length bytes.old.items }
    ensures done { OnTrue result (bytes.new.items ≡ overwritten bytes.old.items piece.now value.now) }
    ensures size { OnTrue result (length value.now ≡ piece.now.len) }
    ensures not_done { OnFalse result (bytes.new.items ≡ bytes.old.items) }
{
    if piece.len != value.len() {
        return false;
    }
    bytes[piece.start..piece.start + piece.len].copy_from_slice(value);
    true
}
