//! What a viewer is asked.
ghost use Rattle.std.specs.Prelude.{◌≡◌, ◌<◌, [], length, map, slice_index_or, None, IfOk};
ghost use Rattle.relations.specs.Columns.{column_of};
ghost use Rattle.relations.specs.Refusals.{absent};
ghost use Rattle.viewed.specs.Asking.{AreAsked, asked};

use mk_value::{Memory, Name, Schema, TableRead};
use relations::lookup::column;
use relations::{Columns, values_in};
use std::alloc::Global;
use viewers::Viewer;

/// The columns of the names, one for each.
pub(crate) fn columns_of(alloc: Global, schema: &Schema, names: &[Name]) -> Result<Columns, Memory>
    requires { absent schema.now names.now ≡ None }
    ensures { IfOk result (λ columns. columns ≡ map (column_of schema.now) names.now) }
{
    let mut columns = Columns::new(alloc);
    for name in names {
        columns.push(column(schema, name))?;
    }
    Ok(columns)
}

/// The answer for a row of the table.
pub(crate) fn answer_for<T: TableRead, V: Viewer>(
    alloc: Global,
    table: &T,
    viewer: &V,
    columns: &Columns,
    row: usize,
) -> Result<i64, Memory>
    requires asked { AreAsked (T.schema table.now) (V.meaning viewer.now).takes columns.now }
    requires row_in { row < length (T.rows table.now) }
    ensures { IfOk result (λ answer. answer ≡ asked (V.meaning viewer.now).gives columns.now (slice_index_or (T.rows table.now) row [])) }
{
    let _size = table.size();
    let values = values_in(alloc, table, columns, row)?;
    Ok(viewer.answer(&values))
}
