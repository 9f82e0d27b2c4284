//! Rows of a table as rows of their own.
ghost use Rattle.std.specs.Prelude.{◌≡◌, ◌<◌, [], length, slice_index_or, IfOk};
ghost use Rattle.mk_value.specs.Data.{AreRowsOf};

use mk_value::{Memory, Row, Rows, TableRead};
use std::alloc::Global;

/// The rows of a table, as rows of their own.
pub fn copy_rows<T: TableRead>(alloc: Global, table: &T) -> Result<Rows, Memory>
    ensures value { IfOk result (λ rows. rows ≡ T.rows table.now) }
    ensures whole { IfOk result (λ rows. AreRowsOf rows (T.schema table.now)) }
{
    let mut rows = Rows::new(alloc);
    for row in 0..table.size() {
        rows.push(copy_row(alloc, table, row)?)?;
    }
    Ok(rows)
}

/// A row of a table, as one of its own.
pub fn copy_row<T: TableRead>(alloc: Global, table: &T, row: usize) -> Result<Row, Memory>
    requires { row < length (T.rows table.now) }
    ensures { IfOk result (λ copy. copy ≡ slice_index_or (T.rows table.now) row []) }
{
    let _size = table.size();
    let mut copy = Row::new(alloc);
    for col in 0..table.schema().len() {
        copy.push(table.get(row, col)?)?;
    }
    Ok(copy)
}
