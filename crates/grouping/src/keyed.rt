//! What the key of a table is made of: its properties, the others, and the index of the keys of all rows.
ghost use Rattle.std.specs.Prelude.{◌≡◌, map, None, IfOk};
ghost use Rattle.relations.specs.Refusals.{a_view, absent};
ghost use Rattle.relations.specs.Rows.{once, others, properties_of, values_of};

use crate::key_index::KeyIndex;
use crate::keys::TableKeys;
use derived::Derived;
use mk_value::{Memory, Name, Props, Same, Schema, TableRead};
use relations::{named_columns, other_columns, properties_in};
use std::alloc::Global;

/// The properties of these names, a repeated name once.
pub(crate) fn key_properties(alloc: Global, schema: &Schema, keys: &[Name]) -> Result<Props, Memory>
    requires { absent schema.now keys.now ≡ None }
    ensures { IfOk result (λ props. props ≡ properties_of schema.now (once keys.now)) }
{
    let columns = named_columns(alloc, schema, keys)?;
    properties_in(alloc, schema, &columns)
}

/// The properties of all other names.
pub(crate) fn other_properties(
    alloc: Global,
    schema: &Schema,
    keys: &[Name],
) -> Result<Props, Memory>
    ensures { IfOk result (λ props. props ≡ properties_of schema.now (others schema.now keys.now)) }
{
    let _width = schema.len();
    let columns = other_columns(alloc, schema, keys)?;
    properties_in(alloc, schema, &columns)
}

/// The index of the keys of all rows. It has no copy of a key.
pub(crate) fn key_index<'a, T: TableRead + Same + Drop>(
    alloc: Global,
    table: &'a Derived<T>,
    keys: &[Name],
) -> Result<KeyIndex<'a, Derived<T>>, Memory>
    requires named { absent table.now.schema keys.now ≡ None }
    requires plain { a_view table.now.schema keys.now ≡ None }
    ensures { IfOk result (λ index. index ≡ map (values_of table.now.schema (once keys.now)) table.now.rows) }
{
    let columns = named_columns(alloc, table.schema(), keys)?;
    KeyIndex::new(alloc, table, columns)
}

/// The keys of all rows.
pub(crate) fn table_keys<'a, T: TableRead + Same + Drop>(
    alloc: Global,
    table: &'a Derived<T>,
    keys: &[Name],
) -> Result<TableKeys<'a, Derived<T>>, Memory>
    requires named { absent table.now.schema keys.now ≡ None }
    requires plain { a_view table.now.schema keys.now ≡ None }
    ensures { IfOk result (λ keyed. keyed ≡ map (values_of table.now.schema (once keys.now)) table.now.rows) }
{
    let columns = named_columns(alloc, table.schema(), keys)?;
    Ok(TableKeys::of(table, columns))
}
