// How many bytes a stream has, so that its room is taken at once.
ghost use Rattle.std.specs.Prelude.{◌≡◌, ◌+◌, ◌^◌, ◌<◌, length, IfOk};
ghost use Rattle.std.specs.List.{flat_map};
ghost use Rattle.std.specs.Result.{OkIff};
ghost use Rattle.mk_value.specs.Data.{cell};
ghost use Rattle.mk_value.specs.Kinds.{domain_of};
ghost use Rattle.mk_value.specs.Tables.{domain_at};
ghost use Rattle.stream_codec.specs.Stream.{spelled, spelled_rows, spelled_value, spelled_view};
ghost use Rattle.struct_text.specs.Spelling.{spelling};
ghost use Rattle.tables.specs.Homes.{column_of};
ghost use Rattle.tables.specs.Tables.{IsTable};

use crate::saving::SIGNATURE;
use mk_value::{Kind, Lent, Memory, Name, Schema, TableRead, Text};
use std::alloc::Global;
use struct_text::print;
use tables::Nested;
use view_store::Root;

/// The number of bytes of the stream of the views of a root.
///
/// A column of numbers is counted at once, and a table that several rows share as often as it stands in one.
///
/// # Errors
///
/// `Memory`, also where no `usize` holds the number.
pub(crate) fn stream_length(alloc: Global, root: &Root) -> Result<usize, Memory>
    ensures { IfOk result (λ len. len ≡ length (spelled root.now)) }
{
    let names = root.names().as_slice();
    let tables = root.tables();
    let mut len = SIGNATURE.len() + 4;
    for at in 0..names.len() {
        let view = view_length(alloc, &names[at], &Nested::of(&tables[at]))?;
        len = sum(len, view)?;
    }
    Ok(len)
}

/// The structure text of a view.
pub(crate) fn structure_text(alloc: Global, name: &Name, schema: &Schema) -> Result<Text, Memory>
    ensures { IfOk result (λ text. text.bytes ≡ spelling name.now schema.now) }
{
    let mut text = Text::new(alloc);
    print(name, schema, &mut text)?;
    Ok(text)
}

/// The sum of two lengths, or `Memory` where no `usize` holds it.
fn sum(one: usize, two: usize) -> Result<usize, Memory>
    ensures { OkIff result (one + two < 2 ^ 64) (one + two) }
{
    one.checked_add(two).ok_or(Memory)
}

/// The number of bytes of a view.
fn view_length(alloc: Global, name: &Name, table: &Nested<'_>) -> Result<usize, Memory>
    ensures { IfOk result (λ len. len ≡ length (spelled_view (record { name = name.now; table = table.now }))) }
{
    let text = structure_text(alloc, name, table.schema())?;
    let structure = sum(4, text.len())?;
    sum(structure, rows_length(table)?)
}

/// The number of bytes of rows behind their number.
#[cycle(length)]
fn rows_length(table: &Nested<'_>) -> Result<usize, Memory>
    ensures { let len = length (spelled_rows table.now.rows) in OkIff result (len < 2 ^ 64) len }
{
    // That there are so many says that they are of its schema.
    let _rows = table.len();
    let mut len = 4;
    for col in 0..table.schema().len() {
        let column = column_length(table, col)?;
        len = sum(len, column)?;
    }
    Ok(len)
}

/// The number of bytes of the values of a column.
#[cycle(length)]
fn column_length(table: &Nested<'_>, col: usize) -> Result<usize, Memory>
    requires whole { IsTable table.now }
    requires col_in { col < length table.now.schema }
    ensures { let len = length (flat_map spelled_value (column_of table.now.rows col)) in OkIff result (len < 2 ^ 64) len }
{
    match kind_at(table.schema(), col) {
        Kind::I => Ok(4 * table.len()),
        Kind::L => Ok(8 * table.len()),
        Kind::S | Kind::B | Kind::V(_) => values_length(table, col),
    }
}

/// The kind of a property.
fn kind_at(schema: &Schema, col: usize) -> &Kind
    requires { col < length schema.now }
    ensures { domain_at schema.now col ≡ domain_of result.now }
{
    let prop = &schema.as_slice()[col];
    &prop.kind
}

/// The same, value by value.
#[cycle(length)]
fn values_length(table: &Nested<'_>, col: usize) -> Result<usize, Memory>
    requires whole { IsTable table.now }
    requires col_in { col < length table.now.schema }
    ensures { let len = length (flat_map spelled_value (column_of table.now.rows col)) in OkIff result (len < 2 ^ 64) len }
{
    let mut len = 0;
    for row in 0..table.len() {
        let value = value_length(table, row, col)?;
        len = sum(len, value)?;
    }
    Ok(len)
}

/// The number of bytes of the value at a row and a column.
#[cycle(length)]
fn value_length(table: &Nested<'_>, row: usize, col: usize) -> Result<usize, Memory>
    requires whole { IsTable table.now }
    requires row_in { row < length table.now.rows }
    requires col_in { col < length table.now.schema }
    ensures { let len = length (spelled_value (cell table.now.rows row col)) in OkIff result (len < 2 ^ 64) len }
{
    match table.lend(row, col) {
        Lent::I(_) => Ok(4),
        Lent::L(_) => Ok(8),
        Lent::S(text) => sum(4, text.len()),
        Lent::B(bytes) => sum(4, bytes.len()),
        Lent::V(_) => rows_length(&table.inner(row, col)),
    }
}
