//! Some of the rows of a table, one after another.
ghost use Rattle.std.specs.Prelude.{◌≡◌, ◌+◌, ◌<◌, ◌≤◌, length, take, drop, IfOk};
ghost use Rattle.mk_value.specs.Data.{cell};
ghost use Rattle.mk_value.specs.Lending.{Lends};
ghost use Rattle.mk_value.specs.Order.{value_cmp};
ghost use Rattle.mk_value.specs.Tables.{AreNumbers, IsComparable, IsPlainDomain, column_numbers, domain_at};
ghost use Rattle.mk_value.specs.Values.{datum_of};
ghost use Rattle.tables.specs.Slices.{IsWithin, rows_in_slice};

use crate::Table;
use mk_value::{Lent, Memory, Rows, TableRead, Value};
use std::alloc::Global;
use std::cmp::Ordering;

/// So many rows of a table, from a place on.
#[derive(Clone, Copy)]
pub(crate) struct Slice<'a> {
    pub(crate) table: &'a Table,
    pub(crate) from: usize,
    pub(crate) count: usize,
}

impl<'a> Slice<'a> {
    /// The value at a row and a column.
    pub(crate) fn get(&self, row: usize, col: usize) -> Result<Value, Memory>
        requires within { IsWithin self.now }
        requires row_in { row < self.now.count }
        requires col_in { col < length self.now.table.now.schema }
        ensures { IfOk result (λ value. datum_of value ≡ cell (rows_in_slice self.now) row col) }
    {
        self.table.get(self.from + row, col)
    }

    /// The value at a row and a column, lent.
    pub(crate) fn lend(&self, row: usize, col: usize) -> Lent<'a>
        requires within { IsWithin self.now }
        requires row_in { row < self.now.count }
        requires col_in { col < length self.now.table.now.schema }
        ensures { Lends result (cell (rows_in_slice self.now) row col) }
    {
        self.table.lend(self.from + row, col)
    }

    /// The rows, with memory of their own.
    #[cycle(copy)]
    pub(crate) fn to_rows(&self, alloc: Global) -> Result<Rows, Memory>
        requires { IsWithin self.now }
        ensures { IfOk result (λ rows. rows ≡ rows_in_slice self.now) }
    {
        let mut rows = Rows::new(alloc);
        for at in 0..self.count {
            rows.push(self.table.row(alloc, self.from + at)?)?;
        }
        Ok(rows)
    }

    /// The numbers of a column from a row on, as many as there is place for.
    pub(crate) fn fill(&self, col: usize, from: usize, into: &mut [i64])
        requires within { IsWithin self.now }
        requires col_in { col < length self.now.table.now.schema }
        requires numbers { AreNumbers (domain_at self.now.table.now.schema col) }
        requires rows_in { from + length into.old ≤ self.now.count }
        ensures { into.new ≡ take (length into.old) (drop from (column_numbers (rows_in_slice self.now) col)) }
    {
        self.table.fill(col, self.from + from, into);
    }

    /// The order of the value at a row and a column, beside another value of the column's kind.
    pub(crate) fn cmp_cell(&self, row: usize, col: usize, with: &Value) -> Ordering
        requires within { IsWithin self.now }
        requires row_in { row < self.now.count }
        requires col_in { col < length self.now.table.now.schema }
        requires comparable { IsComparable (datum_of with.now) (domain_at self.now.table.now.schema col) }
        ensures { result ≡ value_cmp (cell (rows_in_slice self.now) row col) (datum_of with.now) }
    {
        self.table.cmp_cell(self.from + row, col, with)
    }

    /// The order of the values of two rows in a column that is no view.
    pub(crate) fn cmp_rows(&self, a: usize, b: usize, col: usize) -> Ordering
        requires within { IsWithin self.now }
        requires first_in { a < self.now.count }
        requires second_in { b < self.now.count }
        requires col_in { col < length self.now.table.now.schema }
        requires plain { IsPlainDomain (domain_at self.now.table.now.schema col) }
        ensures { result ≡ value_cmp (cell (rows_in_slice self.now) a col) (cell (rows_in_slice self.now) b col) }
    {
        self.table.cmp_rows(self.from + a, self.from + b, col)
    }
}
