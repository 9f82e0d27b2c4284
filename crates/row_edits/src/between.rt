//! The rows between two events of a line, as a table.
ghost use Rattle.std.specs.Prelude.{◌≡◌, ◌<◌, [], true, length, slice_index_or, MatchOption};
ghost use Rattle.std.specs.Coded.{Coded-set, le_prop};
ghost use Rattle.mk_value.specs.Heading.{attributes_code};
ghost use Rattle.row_edits.specs.Edits.{AreInRange-prop};
ghost use Rattle.row_edits.specs.Lines.{IsBetween, row_at, rows_between};

use crate::edit::RowEdit;
use crate::lent::cmp_lent;
use crate::origin::{origin, origin_in, size_after, size_by};
use mk_value::{Lent, Memory, Schema, TableRead, Value};
use std::cmp::Ordering;

/// The rows of a view once some edits of a line have happened, and a part of the next: each is one of the table before the line, or the row
/// that came, which stands in the table after it. It takes no memory.
#[derive(Drop)]
pub struct Between<'a, T: TableRead> {
    pub before: &'a T,
    pub after: &'a T,
    /// The edits that have happened.
    pub whole: &'a [RowEdit],
    /// As much of the next one as has happened.
    pub part: RowEdit,
    /// Where the row that comes with the line stands after it, if one comes.
    pub home: usize,
    pub ghost same_schema: { T.schema after.now ≡ T.schema before.now } by { Coded-set attributes_code (T.schema after.now) (T.schema before.now) },
    pub ghost between: { IsBetween whole.now part home (T.rows before.now) (T.rows after.now) } by { Prim.hlevel (AreInRange-prop, le_prop) },
}

impl<'a, T: TableRead> Between<'a, T> {
    /// Where a row stands in the table before, or none where it is the row that came.
    fn place(&self, row: usize) -> Option<usize>
        requires { row < length (rows_between self.now.whole.now self.now.part self.now.home (T.rows self.now.before.now) (T.rows self.now.after.now)) }
        ensures { MatchOption result
            ((self.now.home < length (T.rows self.now.after.now))
            × (slice_index_or (rows_between self.now.whole.now self.now.part self.now.home (T.rows self.now.before.now) (T.rows self.now.after.now)) row [] ≡ row_at (T.rows self.now.after.now) self.now.home))
            (λ at. (at < length (T.rows self.now.before.now))
            × (slice_index_or (rows_between self.now.whole.now self.now.part self.now.home (T.rows self.now.before.now) (T.rows self.now.after.now)) row [] ≡ slice_index_or (T.rows self.now.before.now) at [])) }
    {
        let _size = self.before.size();
        match origin_in(self.part, row) {
            Some(at) => origin(self.whole, at),
            None => None,
        }
    }
}

impl<'a, T: TableRead> TableRead for Between<'a, T> {
    ghost schema = { λ b. T.schema b.before.now };

    ghost rows = { λ b. rows_between b.whole.now b.part b.home (T.rows b.before.now) (T.rows b.after.now) };

    fn schema(&self) -> &Schema {
        self.before.schema()
    }

    fn size(&self) -> usize {
        let _after = self.after.size();
        size_after(self.part, size_by(self.whole, self.before.size()))
    }

    fn get(&self, row: usize, col: usize) -> Result<Value, Memory> {
        match self.place(row) {
            Some(at) => self.before.get(at, col),
            None => self.after.get(self.home, col),
        }
    }

    fn lend(&self, row: usize, col: usize) -> Lent<'_> {
        match self.place(row) {
            Some(at) => self.before.lend(at, col),
            None => self.after.lend(self.home, col),
        }
    }

    fn cmp_cell(&self, row: usize, col: usize, with: &Value) -> Ordering {
        match self.place(row) {
            Some(at) => self.before.cmp_cell(at, col, with),
            None => self.after.cmp_cell(self.home, col, with),
        }
    }

    fn cmp_rows(&self, a: usize, b: usize, col: usize) -> Ordering {
        match (self.place(a), self.place(b)) {
            (Some(a), Some(b)) => self.before.cmp_rows(a, b, col),
            (None, None) => self.after.cmp_rows(self.home, self.home, col),
            _ => cmp_lent(&self.lend(a, col), &self.lend(b, col)),
        }
    }
}
