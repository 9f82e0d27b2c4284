//! The short bytes of a column, from any place on.
ghost use Rattle.std.specs.Prelude.{◌≡◌, ℕ, ◌+◌, ◌-◌, ◌*◌, ◌<◌, ◌≤◌, [], ◌∷◌, ◌++◌, length, take, drop, min};
ghost use Rattle.bytes_col.specs.Strings.{short_bytes};
ghost use Rattle.bytes_col.specs.Filled.{Fills, short_from};
ghost use Rattle.segments.specs.Joined.{joined};

use crate::cell::SHORT_MOST;
use crate::chunk::Chunk;
use crate::chunked::{Chunked, Kind};
use crate::growing::Growing;
use crate::spine::Spine;

/// How far the short bytes were written: up to byte `skip` of those from row `row` on, and so many bytes.
#[derive(Clone, Copy, Debug)]
pub(crate) struct Filled {
    pub(crate) row: usize,
    pub(crate) skip: usize,
    pub(crate) bytes: usize,
}

impl Chunked {
    /// Writes short bytes from byte `skip` of those from row `row` on, and says how far.
    pub(crate) fn fill_short(&self, row: usize, skip: usize, into: &mut [u8]) -> Filled
        requires row { row ≤ length (joined self.now) }
        requires there { length into.old ≤ length (short_from (joined self.now) row skip) }
        ensures bytes { into.new ≡ take (length into.old) (short_from (joined self.now) row skip) }
        ensures rest { short_from (joined self.now) result.row result.skip ≡ drop (length into.old) (short_from (joined self.now) row skip) }
        ensures in_range { result.row ≤ length (joined self.now) }
    {
        let mut filled = Filled {
            row,
            skip,
            bytes: 0,
        };
        while filled.bytes < into.len() {
            let done = filled.bytes;
            let more = self.fill_some(filled.row, filled.skip, &mut into[done..]);
            filled = Filled {
                bytes: done + more.bytes,
                ..more
            };
        }
        filled
    }

    /// Writes short bytes of the chunk that has row `row`, as many as it has from there on and the slice takes.
    fn fill_some(&self, row: usize, skip: usize, into: &mut [u8]) -> Filled
        requires row { row < length (joined self.now) }
        requires some { 0 < length into.old }
        ensures { Fills (joined self.now) row skip into.old into.new result }
    {
        match self.kind() {
            Kind::Empty(_) => unreachable!(),
            Kind::One(chunk) => chunk.get().fill_short(row, skip, into),
            Kind::Many(spine) => spine.get().fill_short(row, skip, into),
            Kind::Growing(growing) => growing.fill_short(row, skip, into),
        }
    }
}

impl Spine {
    /// How many bytes the short values have together.
    pub(crate) fn short_len(&self) -> usize
        ensures count { result ≡ length (short_bytes (joined self.now)) }
    {
        let _few = self.len();
        let mut total = 0;
        for k in 0..self.count() {
            total += self.chunk(k).short_len();
        }
        total
    }

    /// Writes short bytes of the chunk that has row `row`, as many as it has from there on and the slice takes.
    fn fill_short(&self, row: usize, skip: usize, into: &mut [u8]) -> Filled
        requires row { row < length (joined self.now) }
        requires some { 0 < length into.old }
        ensures { Fills (joined self.now) row skip into.old into.new result }
    {
        // The list has few values, so that a row of it fits.
        let _few = self.len();
        let place = self.find(row);
        let chunk = self.chunk(place.segment);
        let filled = chunk.fill_short(place.offset, skip, into);
        Filled {
            row: row + (filled.row - place.offset),
            ..filled
        }
    }
}

impl Growing {
    /// Writes short bytes of the chunk that has row `row`, as many as it has from there on and the slice takes.
    fn fill_short(&self, row: usize, skip: usize, into: &mut [u8]) -> Filled
        requires row { row < length (joined self.now) }
        requires some { 0 < length into.old }
        ensures { Fills (joined self.now) row skip into.old into.new result }
    {
        // The list has few values, so that a row of it fits.
        let _few = self.len();
        let place = self.find(row);
        let chunk = self.chunk(place.segment);
        let filled = chunk.fill_short(place.offset, skip, into);
        Filled {
            row: row + (filled.row - place.offset),
            ..filled
        }
    }
}

impl Chunk {
    /// Writes short bytes from byte `skip` of those from value `at` on, as many as there are and the slice takes.
    fn fill_short(&self, at: usize, skip: usize, into: &mut [u8]) -> Filled
        requires at { at < length self.now }
        requires some { 0 < length into.old }
        ensures { Fills self.now at skip into.old into.new result }
    {
        if at == 0 && self.short_len() <= skip {
            return Filled {
                row: self.len(),
                skip: skip - self.short_len(),
                bytes: 0,
            };
        }
        self.fill_values(at, skip, into)
    }

    /// The same, value by value.
    fn fill_values(&self, at: usize, skip: usize, into: &mut [u8]) -> Filled
        requires at { at < length self.now }
        requires some { 0 < length into.old }
        ensures { Fills self.now at skip into.old into.new result }
    {
        let mut row = at;
        let mut left = skip;
        let mut done = 0;
        while row < self.len() && done < into.len() {
            let short = short_part(self.value(row));
            let count = fill_from(short, left, &mut into[done..]);
            done += count;
            let next = behind(short.len(), row, left + count);
            row = next.0;
            left = next.1;
        }
        Filled {
            row,
            skip: left,
            bytes: done,
        }
    }
}

/// The row and the byte behind so many bytes of a row, which has `len`.
fn behind(len: usize, row: usize, skip: usize) -> (usize, usize)
    requires { row < 512 }
    ensures stays { skip < len → (result.0 ≡ row) × (result.1 ≡ skip) }
    ensures goes { len ≤ skip → (result.0 ≡ row + 1) × (result.1 ≡ skip - len) }
{
    if skip < len {
        (row, skip)
    } else {
        (row + 1, skip - len)
    }
}

/// The short bytes of a value: all, or none.
fn short_part(value: &[u8]) -> &[u8]
    ensures bytes { result.now ≡ short_bytes (value.now ∷ []) }
{
    if value.len() <= SHORT_MOST {
        value
    } else {
        &[]
    }
}

/// Writes the bytes of a value from byte `skip` on, as many as there are and the slice takes, and says how many.
fn fill_from(value: &[u8], skip: usize, into: &mut [u8]) -> usize
    ensures count { result ≡ min (length value.now - skip) (length into.old) }
    ensures bytes { take result into.new ≡ take result (drop skip value.now) }
{
    let count = value.len().saturating_sub(skip).min(into.len());
    if count == 0 {
        return 0;
    }
    into[..count].copy_from_slice(&value[skip..skip + count]);
    count
}
