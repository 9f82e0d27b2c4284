//! The short bytes of a column, one piece after another.
ghost use Rattle.std.specs.Prelude.{◌≡◌, ℕ, ◌+◌, ◌-◌, ◌<◌, ◌≤◌, ◌==◌, length, take, drop};
ghost use Rattle.segments.specs.Joined.{joined};
ghost use Rattle.bytes_col.specs.Strings.{short_bytes};

use crate::chunked::Chunked;
use std::marker::Model;

/// What is still to be written of the short values of a column, joined. A caller sees the bytes to come.
///
/// It keeps the row that it has come to, so that the pieces together cost about what one piece costs.
#[derive(Drop)]
pub struct ShortBytes<'a> {
    chunks: &'a Chunked,
    row: usize,
    skip: usize,
    left: usize,
}

impl<'a> Model for ShortBytes<'a> {
    ghost use Rattle.std.specs.Prelude.{List, ℕ};
    ghost use Rattle.segments.specs.Joined.{joined};
    ghost use Rattle.bytes_col.specs.Cursor.{IsCursor};
    ghost use Rattle.bytes_col.specs.Filled.{short_from};

    ghost Value = { List ℕ };

    ghost view = { λ s. short_from (joined s.chunks.now) s.row s.skip };

    ghost invariant = { λ s. IsCursor (joined s.chunks.now) s.row s.skip s.left };
}

impl<'a> ShortBytes<'a> {
    /// The short bytes of all values.
    pub(crate) fn of(chunks: &'a Chunked) -> ShortBytes<'a>
        ensures { result ≡ short_bytes (joined chunks.now) }
    {
        ShortBytes {
            chunks,
            row: 0,
            skip: 0,
            left: chunks.short_len(),
        }
    }

    /// How many bytes are to come.
    pub fn len(&self) -> usize
        ensures { result ≡ length self.now }
    {
        self.left
    }

    /// Whether none are to come.
    pub fn is_empty(&self) -> bool
        ensures { result ≡ (length self.now == 0) }
    {
        self.left == 0
    }

    /// Writes the next bytes, as many as the slice takes. It takes no memory.
    pub fn fill(&mut self, into: &mut [u8])
        requires { length into.old ≤ length self.old }
        ensures bytes { into.new ≡ take (length into.old) self.old }
        ensures rest { self.new ≡ drop (length into.old) self.old }
    {
        let filled = self.chunks.fill_short(self.row, self.skip, into);
        self.row = filled.row;
        self.skip = filled.skip;
        self.left -= into.len();
    }
}
