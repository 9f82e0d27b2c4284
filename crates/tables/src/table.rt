//! A table.
ghost use Rattle.std.specs.Prelude.{◌≡◌, ◌+◌, ◌<◌, ◌≤◌, [], length, slice_index_or, IfOk, OnOk, OnErr};
ghost use Rattle.std.specs.Bool.{OnTrue};
ghost use Rattle.mk_value.specs.Data.{IsOf, IsRowOf};
ghost use Rattle.mk_value.specs.Heading.{Domain, heading_of};
ghost use Rattle.mk_value.specs.Kinds.{domain_of};
ghost use Rattle.mk_value.specs.Tables.{domain_at};
ghost use Rattle.mk_value.specs.Values.{datum_of};
ghost use Rattle.tables.specs.Columns.{AreColumnsIn, AreColumnsOf, home_of, table_of_columns};
ghost use Rattle.tables.specs.Homes.{column_of, empty_homes_in, no_home};
ghost use Rattle.tables.specs.Pools.{IsPoolable};
ghost use Rattle.tables.specs.Read.{IsViewDomain, IsWhole, values_read};
ghost use Rattle.tables.specs.Rests.{RestsOn};
ghost use Rattle.tables.specs.Rows.{with_rows_inserted, with_rows_removed};
ghost use Rattle.tables.specs.Shapes.{HasHomes};
ghost use Rattle.tables.specs.Stored.{stored_of};
ghost use Rattle.tables.specs.Tables.{IsTable, inner_table, with_inner, with_value};

use crate::cols::{have_same_empty_homes, have_simple_homes};
use crate::column::Column;
use crate::{Cols, Nested, Shared};
use mk_value::{Lent, Memory, Row, Rows, Schema, TableRead, Value};
use std::alloc::Global;
use std::cmp::Ordering;
use std::marker::Model;

/// How many rows a table of a pool has at most.
const POOLED_ROWS: usize = 64;

/// A table: a schema, a number of rows, and a column for each property.
#[cycle(table)]
#[derive(Drop)]
pub struct Table {
    schema: segments::Shared<Schema>,
    rows: u32,
    cols: Cols,
}

impl Model for Table {
    ghost use Rattle.tables.specs.Columns.{AreColumnsOf, table_of_columns};
    ghost use Rattle.tables.specs.Sizes.{table_size};
    ghost use Rattle.tables.specs.Tables.{StoredTable, stored_code};

    ghost Value = { StoredTable };

    ghost coded = { stored_code };

    ghost view = { λ t. table_of_columns t.rows t.schema t.cols };

    ghost invariant = { λ t. AreColumnsOf t.rows t.schema t.cols };

    ghost size = { table_size };

    ghost use Rattle.tables.specs.Falls.{table_falls};

    ghost size_decreases = { λ t h. table_falls t h };
}

impl Table {
    /// The table of these columns, with their homes. It has the schema together with others.
    ///
    /// # Errors
    ///
    /// `Memory`.
    pub fn of_columns(
        schema: &segments::Shared<Schema>,
        rows: usize,
        cols: Cols,
    ) -> Result<Table, Memory>
        requires { AreColumnsOf rows schema.now cols }
        ensures { IfOk result (λ table. table ≡ table_of_columns rows schema.now cols) }
    {
        Ok(Table {
            schema: schema.clone()?,
            rows: rows as u32,
            cols,
        })
    }

    /// The table of these columns in place of its own. It has the schema together with this one.
    ///
    /// # Errors
    ///
    /// `Memory`.
    pub fn with_cols(&self, cols: Cols) -> Result<Table, Memory>
        requires { AreColumnsOf (length self.now.rows) self.now.schema cols }
        ensures { IfOk result (λ table. table ≡ table_of_columns (length self.now.rows) self.now.schema cols) }
    {
        Table::of_columns(self.shared_schema(), self.len(), cols)
    }

    /// How many rows there are, at most 16,777,216.
    pub fn len(&self) -> usize
        ensures value { result ≡ length self.now.rows }
        ensures whole { IsTable self.now }
        ensures homes { HasHomes self.now }
    {
        let _properties = self.schema.get().len();
        self.rows as usize
    }

    /// The columns, one for each property, each with its home.
    pub fn cols(&self) -> &Cols
        ensures value { self.now ≡ table_of_columns (length self.now.rows) self.now.schema result.now }
        ensures whole { AreColumnsOf (length self.now.rows) self.now.schema result.now }
    {
        &self.cols
    }

    /// A column, beside the kind of its values.
    pub fn column(&self, col: usize) -> Column<'_>
        requires { col < length self.now.schema }
        ensures values { values_read result ≡ column_of self.now.rows col }
        ensures whole { IsWhole result }
        ensures kind { domain_of result.kind.now ≡ domain_at self.now.schema col }
        ensures home { home_of (stored_of result.col.now) ≡ slice_index_or self.now.homes col no_home }
    {
        let prop = &self.schema.get().as_slice()[col];
        Column {
            kind: &prop.kind,
            col: &self.cols.as_slice()[col],
        }
    }

    /// A table of the same schema, rows and homes, which shares the columns.
    ///
    /// # Errors
    ///
    /// `Memory`.
    pub fn same(&self) -> Result<Table, Memory>
        ensures { IfOk result (λ table. table ≡ self.now) }
    {
        Ok(Table {
            schema: self.schema.clone()?,
            rows: self.rows,
            cols: self.cols.same()?,
        })
    }

    /// Puts copies of a row, so many times, before the row at a place, or at the end. The tables in them have no homes, and where
    /// there are any the plain columns have none.
    ///
    /// One row at the end costs its values: each column is made ready for it, and then takes it in place where its last segment is its own.
    /// Elsewhere a column of numbers, texts or byte strings takes it in the segment at the place, where that has room: in place where nothing
    /// else holds the segment, and else in a copy of it. A column of tables is copied, but for what the copy shares.
    ///
    /// # Errors
    ///
    /// `Memory`, and the table is as it was.
    pub fn insert_rows(&mut self, at: usize, row: &Row, count: usize) -> Result<(), Memory>
        requires at { at ≤ length self.old.rows }
        requires few { length self.old.rows + count ≤ 16777216 }
        requires row { IsRowOf row.now self.old.schema }
        ensures ok { OnOk result (self.new ≡ with_rows_inserted at row.now count self.old) }
        ensures err { OnErr result (self.new ≡ self.old) }
        ensures rests { RestsOn self.new self.old }
    {
        if count == 0 {
            return Ok(());
        }
        if count == 1 && at == self.len() {
            return self.push_row(row);
        }
        self.put_rows(at, row, count)
    }

    /// Removes so many rows from a place on. Where there are any, the plain columns have no homes.
    ///
    /// # Errors
    ///
    /// `Memory`, and the table is as it was.
    pub fn remove_rows(&mut self, at: usize, count: usize) -> Result<(), Memory>
        requires { at + count ≤ length self.old.rows }
        ensures ok { OnOk result (self.new ≡ with_rows_removed at count self.old) }
        ensures err { OnErr result (self.new ≡ self.old) }
        ensures rests { RestsOn self.new self.old }
    {
        if count == 0 {
            return Ok(());
        }
        self.take_rows(at, count)
    }

    /// Gives the value at a row and a column another. A plain column has no home then; the table of a view value has none.
    ///
    /// # Errors
    ///
    /// `Memory`, and the table is as it was.
    pub fn set_cell(&mut self, row: usize, col: usize, value: &Value) -> Result<(), Memory>
        requires row_in { row < length self.old.rows }
        requires col_in { col < length self.old.schema }
        requires fits { IsOf (datum_of value.now) (domain_at self.old.schema col) }
        ensures ok { OnOk result (self.new ≡ with_value self.old row col (datum_of value.now) (empty_homes_in (domain_at self.old.schema col) (datum_of value.now))) }
        ensures err { OnErr result (self.new ≡ self.old) }
        ensures rests { RestsOn self.new self.old }
    {
        let alloc = self.cols.allocator();
        let prop = &self.schema.get().as_slice()[col];
        self.cols.set_value(alloc, &prop.kind, col, row, value)
    }

    /// The table in a cell of a view column.
    pub fn inner(&self, row: usize, col: usize) -> Nested<'_>
        requires row_in { row < length self.now.rows }
        requires col_in { col < length self.now.schema }
        requires view { IsViewDomain (domain_at self.now.schema col) }
        ensures value { result ≡ inner_table self.now row col }
        ensures whole { IsTable result }
        ensures homes { HasHomes result }
    {
        let table = self.column(col).views().get(row);
        let _rows = table.len();
        table
    }

    /// Puts a table, with its homes, in place of the one in a cell of a view column.
    ///
    /// # Errors
    ///
    /// `Memory`, and the table is as it was.
    pub fn set_inner(&mut self, row: usize, col: usize, table: Shared) -> Result<(), Memory>
        requires row_in { row < length self.old.rows }
        requires col_in { col < length self.old.schema }
        requires view { domain_at self.old.schema col ≡ Domain.relation (heading_of table.schema) }
        ensures ok { OnOk result (self.new ≡ with_inner self.old row col table) }
        ensures err { OnErr result (self.new ≡ self.old) }
        ensures rests { RestsOn table (inner_table self.old row col) → RestsOn self.new self.old }
    {
        let _rows = table.table().len();
        self.cols.set_view(col, row, table)
    }

    /// Puts a row at the end.
    fn push_row(&mut self, row: &Row) -> Result<(), Memory>
        requires few { length self.old.rows < 16777216 }
        requires row { IsRowOf row.now self.old.schema }
        ensures ok { OnOk result (self.new ≡ with_rows_inserted (length self.old.rows) row.now 1 self.old) }
        ensures err { OnErr result (self.new ≡ self.old) }
        ensures rests { RestsOn self.new self.old }
    {
        let rows = self.len();
        let props = self.schema.get().as_slice();
        self.cols.push_row(rows, props, row.as_slice())?;
        self.rows += 1;
        Ok(())
    }

    /// Puts copies of a row at a place, some.
    fn put_rows(&mut self, at: usize, row: &Row, count: usize) -> Result<(), Memory>
        requires at { at ≤ length self.old.rows }
        requires few { length self.old.rows + count ≤ 16777216 }
        requires some { 0 < count }
        requires row { IsRowOf row.now self.old.schema }
        ensures ok { OnOk result (self.new ≡ with_rows_inserted at row.now count self.old) }
        ensures err { OnErr result (self.new ≡ self.old) }
        ensures rests { RestsOn self.new self.old }
    {
        let rows = self.len();
        let props = self.schema.get().as_slice();
        self.cols
            .insert_rows(rows, at, props, row.as_slice(), count)?;
        self.rows = (rows + count) as u32;
        Ok(())
    }

    /// Removes some rows from a place on.
    fn take_rows(&mut self, at: usize, count: usize) -> Result<(), Memory>
        requires within { at + count ≤ length self.old.rows }
        requires some { 0 < count }
        ensures ok { OnOk result (self.new ≡ with_rows_removed at count self.old) }
        ensures err { OnErr result (self.new ≡ self.old) }
        ensures rests { RestsOn self.new self.old }
    {
        let rows = self.len();
        self.cols.remove_rows(at, count)?;
        self.rows = (rows - count) as u32;
        Ok(())
    }

    /// The rows, with memory of their own.
    ///
    /// # Errors
    ///
    /// `Memory`.
    #[cycle(copy)]
    pub fn to_rows(&self, alloc: Global) -> Result<Rows, Memory>
        ensures { IfOk result (λ rows. rows ≡ self.now.rows) }
    {
        let mut rows = Rows::new(alloc);
        for at in 0..self.len() {
            rows.push(self.row(alloc, at)?)?;
        }
        Ok(rows)
    }

    /// A row, with memory of its own.
    ///
    /// # Errors
    ///
    /// `Memory`.
    #[cycle(copy)]
    pub fn row(&self, alloc: Global, at: usize) -> Result<Row, Memory>
        requires { at < length self.now.rows }
        ensures { IfOk result (λ row. row ≡ slice_index_or self.now.rows at []) }
    {
        let mut row = Row::new(alloc);
        for col in 0..self.width() {
            row.push(self.column(col).value(alloc, at)?)?;
        }
        Ok(row)
    }

    /// How many columns there are.
    fn width(&self) -> usize
        ensures width { result ≡ length self.now.schema }
        ensures whole { IsTable self.now }
        ensures homes { HasHomes self.now }
    {
        self.schema.get().len()
    }

    /// The schema, to be had together with this table.
    pub(crate) fn shared_schema(&self) -> &segments::Shared<Schema>
        ensures { result.now ≡ self.now.schema }
    {
        &self.schema
    }

    /// Whether both tables have no rows, and have the same schema and homes.
    pub(crate) fn is_same_empty(&self, other: &Table) -> bool
        ensures { OnTrue result (self.now ≡ other.now) }
    {
        if self.rows > 0 || other.rows > 0 {
            return false;
        }
        let ours = self.schema.get();
        let theirs = other.schema.get();
        if !ours.is_same(theirs) {
            return false;
        }
        have_same_empty_homes(self.cols.as_slice(), other.cols.as_slice())
    }

    /// Whether the table is small, and all its columns are plain and have homes of blocks that go into six bytes, none of which is of a long
    /// value: then it may stand in a pool.
    pub(crate) fn is_poolable(&self) -> bool
        ensures { OnTrue result (IsPoolable self.now.schema self.now) }
    {
        if self.len() > POOLED_ROWS {
            return false;
        }
        have_simple_homes(self.cols.as_slice())
    }

    /// The allocator of the columns.
    pub(crate) fn allocator(&self) -> Global {
        self.cols.allocator()
    }
}

impl TableRead for Table {
    ghost schema = { λ t. t.schema };

    ghost rows = { λ t. t.rows };

    fn schema(&self) -> &Schema {
        let schema = self.schema.get();
        let _len = schema.len();
        schema
    }

    fn size(&self) -> usize {
        self.len()
    }

    fn get(&self, row: usize, col: usize) -> Result<Value, Memory> {
        self.column(col).value(self.allocator(), row)
    }

    fn lend(&self, row: usize, col: usize) -> Lent<'_> {
        self.column(col).lend(row)
    }

    fn fill(&self, col: usize, from: usize, into: &mut [i64]) {
        self.column(col).fill(from, into);
    }

    fn cmp_cell(&self, row: usize, col: usize, with: &Value) -> Ordering {
        self.column(col).cmp_with(row, with)
    }

    fn cmp_rows(&self, a: usize, b: usize, col: usize) -> Ordering {
        self.column(col).cmp_at(a, b)
    }
}
