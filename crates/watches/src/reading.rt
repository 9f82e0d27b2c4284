// The rows of a watch as a table.
ghost use Rattle.std.specs.Prelude.{◌≡◌, ◌<◌, [], length, slice_index_or};
ghost use Rattle.watches.specs.Rows.{rows_of};

use crate::rows::WatchRows;
use mk_value::{Lent, Memory, Schema, TableRead, Value};
use std::cmp::Ordering;

impl WatchRows<'_> {
    /// Where a row stands in the view.
    fn place(&self, row: usize) -> usize
        requires { row < length (rows_of self.now) }
        ensures within { result < length self.now.rows.now.rows }
        ensures value { slice_index_or self.now.rows.now.rows result [] ≡ slice_index_or (rows_of self.now) row [] }
    {
        self.watches.at(self.number, row)
    }
}

impl TableRead for WatchRows<'_> {
    ghost schema = { λ w. w.rows.now.schema };

    ghost rows = { rows_of };

    fn schema(&self) -> &Schema {
        self.rows.schema()
    }

    fn size(&self) -> usize {
        // The rows of the view are of its schema.
        let _size = self.rows.size();
        self.watches.len(self.number)
    }

    fn get(&self, row: usize, col: usize) -> Result<Value, Memory> {
        self.rows.get(self.place(row), col)
    }

    fn lend(&self, row: usize, col: usize) -> Lent<'_> {
        self.rows.lend(self.place(row), col)
    }

    fn cmp_cell(&self, row: usize, col: usize, with: &Value) -> Ordering {
        self.rows.cmp_cell(self.place(row), col, with)
    }

    fn cmp_rows(&self, a: usize, b: usize, col: usize) -> Ordering {
        self.rows.cmp_rows(self.place(a), self.place(b), col)
    }
}
