//! A table in a row of a view column, as it is read.
ghost use Rattle.std.specs.Prelude.{◌≡◌, ◌<◌, length, slice_get, slice_index_or, Some, IfOk, IfErr};
ghost use Rattle.mk_value.specs.Tables.{domain_at};
ghost use Rattle.tables.specs.Pools.{IsPlacedAt, no_table};
ghost use Rattle.tables.specs.Read.{IsViewDomain};
ghost use Rattle.tables.specs.Shapes.{HasHomes};
ghost use Rattle.tables.specs.Tables.{IsTable, inner_table};

use crate::pool::Pool;
use crate::{Block, Shared};
use mk_value::{Lent, Memory, Rows, Schema, TableRead, Value};
use std::alloc::Global;
use std::cmp::Ordering;
use std::marker::Model;

/// Where a table in a row stands.
#[derive(Clone, Copy)]
enum Place<'a> {
    /// In columns of its own.
    Own(&'a Shared),
    /// In a pool, at a number.
    Part(&'a Pool, usize),
}

/// A table in a row of a view column, lent. A caller sees the table.
#[derive(Drop)]
pub struct Nested<'a> {
    place: Place<'a>,
}

impl<'a> Model for Nested<'a> {
    ghost use Rattle.tables.specs.Tables.{StoredTable, stored_code};

    ghost Value = { StoredTable };

    ghost coded = { stored_code };

    ghost use Rattle.tables.specs.Nested.{IsNested, nested_table};

    ghost view = { λ n. nested_table n.place };

    ghost invariant = { λ n. IsNested n.place };
}

impl<'a> Nested<'a> {
    /// A table in columns of its own.
    pub fn of(table: &'a Shared) -> Nested<'a>
        ensures { result ≡ table.now }
    {
        Nested {
            place: Place::Own(table),
        }
    }

    /// A table of a pool.
    pub(crate) fn part(pool: &'a Pool, number: usize) -> Nested<'a>
        requires { number < length pool.now }
        ensures { slice_get pool.now number ≡ Some result }
    {
        Nested {
            place: Place::Part(pool, number),
        }
    }

    /// How many rows there are.
    pub fn len(&self) -> usize
        ensures value { result ≡ length self.now.rows }
        ensures whole { IsTable self.now }
        ensures homes { HasHomes self.now }
    {
        match self.place {
            Place::Own(table) => table.table().len(),
            Place::Part(pool, number) => pool.rows(number).count,
        }
    }

    /// The table in a cell of a view column.
    pub fn inner(&self, row: usize, col: usize) -> Nested<'a>
        requires row_in { row < length self.now.rows }
        requires col_in { col < length self.now.schema }
        requires view { IsViewDomain (domain_at self.now.schema col) }
        ensures value { result ≡ inner_table self.now row col }
        ensures whole { IsTable result }
        ensures homes { HasHomes result }
    {
        match self.place {
            Place::Own(table) => table.table().inner(row, col),
            // A table of a pool has no view column.
            Place::Part(pool, number) => no_inner(pool, number, col),
        }
    }

    /// The table, if it has columns of its own.
    ///
    /// # Errors
    ///
    /// The blocks of its homes, if it has not: each of its columns is plain and has a home, and no home has blocks of long values.
    pub fn own(&self) -> Result<&'a Shared, &'a [Block]>
        ensures own { IfOk result (λ table. table.now ≡ self.now) }
        ensures placed { IfErr result (λ blocks. IsPlacedAt self.now blocks.now) }
    {
        match self.place {
            Place::Own(table) => Ok(table),
            Place::Part(pool, number) => Err(pool.blocks(number)),
        }
    }

    /// The table, to be held: the very same where it has columns of its own, and else one made of its values.
    ///
    /// # Errors
    ///
    /// `Memory`.
    pub fn to_shared(&self) -> Result<Shared, Memory>
        ensures { IfOk result (λ table. table ≡ self.now) }
    {
        match self.place {
            Place::Own(table) => same_table(table),
            Place::Part(pool, number) => pool.to_shared(number),
        }
    }

    /// The rows, with memory of their own.
    ///
    /// # Errors
    ///
    /// `Memory`.
    #[cycle(copy)]
    pub(crate) fn to_rows(&self, alloc: Global) -> Result<Rows, Memory>
        ensures { IfOk result (λ rows. rows ≡ self.now.rows) }
    {
        match self.place {
            Place::Own(table) => table.table().to_rows(alloc),
            Place::Part(pool, number) => pool.rows(number).to_rows(alloc),
        }
    }
}

/// A table in a cell of a view column of a pool, of which there are none.
fn no_inner<'a>(pool: &'a Pool, number: usize, col: usize) -> Nested<'a>
    requires number { number < length pool.now }
    requires col_in { col < length (slice_index_or pool.now number no_table).schema }
    requires view { IsViewDomain (domain_at (slice_index_or pool.now number no_table).schema col) }
    ensures { ⊥ }
{
    let _blocks = pool.blocks(number);
    unreachable!()
}

/// One more holder of a table.
fn same_table(table: &Shared) -> Result<Shared, Memory>
    ensures { IfOk result (λ same. same ≡ table.now) }
{
    Ok(table.clone()?)
}

impl<'a> TableRead for Nested<'a> {
    ghost schema = { λ t. t.schema };

    ghost rows = { λ t. t.rows };

    fn schema(&self) -> &Schema {
        match self.place {
            Place::Own(table) => table.schema(),
            Place::Part(pool, _) => pool.schema(),
        }
    }

    fn size(&self) -> usize {
        self.len()
    }

    fn get(&self, row: usize, col: usize) -> Result<Value, Memory> {
        match self.place {
            Place::Own(table) => table.get(row, col),
            Place::Part(pool, number) => pool.rows(number).get(row, col),
        }
    }

    fn lend(&self, row: usize, col: usize) -> Lent<'_> {
        match self.place {
            Place::Own(table) => table.lend(row, col),
            Place::Part(pool, number) => pool.rows(number).lend(row, col),
        }
    }

    fn fill(&self, col: usize, from: usize, into: &mut [i64]) {
        match self.place {
            Place::Own(table) => table.fill(col, from, into),
            Place::Part(pool, number) => pool.rows(number).fill(col, from, into),
        }
    }

    fn cmp_cell(&self, row: usize, col: usize, with: &Value) -> Ordering {
        match self.place {
            Place::Own(table) => table.cmp_cell(row, col, with),
            Place::Part(pool, number) => pool.rows(number).cmp_cell(row, col, with),
        }
    }

    fn cmp_rows(&self, a: usize, b: usize, col: usize) -> Ordering {
        match self.place {
            Place::Own(table) => table.cmp_rows(a, b, col),
            Place::Part(pool, number) => pool.rows(number).cmp_rows(a, b, col),
        }
    }
}
