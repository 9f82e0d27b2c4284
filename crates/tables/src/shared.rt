//! Tables that are shared.
ghost use Rattle.std.specs.Prelude.{◌≡◌, IfOk, IfSome};

use crate::Table;
use mk_value::{Lent, Memory, Same, Schema, TableRead, Value};
use std::alloc::{AllocError, Global};
use std::cmp::Ordering;
use std::marker::Model;
use std::rc::Rc;

/// A table that several hold. An edit by one of them leaves it as it is for the others.
#[cycle(table)]
#[derive(Drop)]
pub struct Shared {
    table: Rc<Table>,
}

impl Model for Shared {
    ghost use Rattle.tables.specs.Sizes.{shared_size};
    ghost use Rattle.tables.specs.Tables.{StoredTable, stored_code};

    ghost Value = { StoredTable };

    ghost coded = { stored_code };

    ghost view = { λ s. s.table.value };

    ghost size = { shared_size };

    ghost use Rattle.tables.specs.Falls.{shared_falls};

    ghost size_decreases = { λ s _. shared_falls s };
}

impl Clone for Shared {
    ghost is_clone = { λ a b. b ≡ a };

    /// One more holder of the table.
    fn clone(&self) -> Result<Shared, AllocError> {
        Ok(Shared {
            table: self.table.clone()?,
        })
    }
}

/// The table, to be shared. Its homes are kept.
///
/// # Errors
///
/// `Memory`.
pub fn share(alloc: Global, table: Table) -> Result<Shared, Memory>
    ensures { IfOk result (λ shared. shared ≡ table) }
{
    Ok(Shared {
        table: Rc::new(alloc, table)?,
    })
}

impl Shared {
    ghost use Rattle.std.specs.Borrow.{LendsIf, sem};
    ghost use Rattle.tables.specs.contracts.shared.Shared.{the_row};
    ghost use Rattle.tables.specs.contracts.table.Table.{the_row as table_row};

    /// The table, to be edited in place, where nobody else holds it. It takes no memory.
    pub fn sole(&mut self) -> Option<&mut Table>
        ensures* writes_back { sem 𝓛 (LendsIf the_row table_row self.entry result (λ w. w) self.old) }
        ensures value { IfSome result (λ table. table.now ≡ self.old) }
    {
        Rc::get_mut(&mut self.table)
    }

    /// This table once more in place of one that is the same and has no rows, so that there is one of them in memory, and any other as it
    /// is.
    pub(crate) fn or_same(&self, table: Shared) -> Result<Shared, Memory>
        ensures { IfOk result (λ same. same ≡ table) }
    {
        if self.table().is_same_empty(table.table()) {
            return Ok(self.clone()?);
        }
        Ok(table)
    }

    /// The table that is shared.
    pub fn table(&self) -> &Table
        ensures { result.now ≡ self.now }
    {
        &self.table
    }
}

impl TableRead for Shared {
    ghost schema = { λ t. t.schema };

    ghost rows = { λ t. t.rows };

    fn schema(&self) -> &Schema {
        self.table().schema()
    }

    fn size(&self) -> usize {
        self.table().size()
    }

    fn get(&self, row: usize, col: usize) -> Result<Value, Memory> {
        self.table().get(row, col)
    }

    fn lend(&self, row: usize, col: usize) -> Lent<'_> {
        self.table().lend(row, col)
    }

    fn fill(&self, col: usize, from: usize, into: &mut [i64]) {
        self.table().fill(col, from, into);
    }

    fn cmp_cell(&self, row: usize, col: usize, with: &Value) -> Ordering {
        self.table().cmp_cell(row, col, with)
    }

    fn cmp_rows(&self, a: usize, b: usize, col: usize) -> Ordering {
        self.table().cmp_rows(a, b, col)
    }
}

impl Same for Shared {
    /// The very same table, with one holder more. A count that is refused is `Memory`.
    fn same(&self) -> Result<Shared, Memory>
        ensures schema { IfOk result (λ table. table.schema ≡ self.now.schema) }
        ensures rows { IfOk result (λ table. table.rows ≡ self.now.rows) }
        ensures homes { IfOk result (λ table. table.homes ≡ self.now.homes) }
    {
        Ok(self.clone()?)
    }
}
