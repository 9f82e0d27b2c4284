//! Rows by all their values, where none of these is a view.
ghost use Rattle.std.specs.Prelude.{◌≡◌, true, IfOk};
ghost use Rattle.grouping.specs.WholeRows.{is_plain as has_plain_values};

use crate::key_index::KeyIndex;
use mk_value::{Memory, Schema, TableRead};
use relations::all_columns;
use relations::lookup::is_view;
use std::alloc::Global;

/// Whether no property of a schema is a view.
pub fn is_plain(schema: &Schema) -> bool
    ensures { result ≡ has_plain_values schema.now }
{
    for at in 0..schema.len() {
        let prop = &schema.as_slice()[at];
        if is_view(&prop.kind) {
            return false;
        }
    }
    true
}

/// The index of the rows of a table by all their values. It has no copy of a row.
pub fn whole_index<'a, T: TableRead>(alloc: Global, table: &'a T) -> Result<KeyIndex<'a, T>, Memory>
    requires { has_plain_values (T.schema table.now) ≡ true }
    ensures { IfOk result (λ index. index ≡ T.rows table.now) }
{
    let _size = table.size();
    let columns = all_columns(alloc, table.schema().len())?;
    KeyIndex::new(alloc, table, columns)
}
