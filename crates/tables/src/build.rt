//! Tables made from rows.
ghost use Rattle.std.specs.Prelude.{◌≡◌, [], map, IfOk, None};
ghost use Rattle.mk_value.specs.Data.{AreRowsOf, IsOf};
ghost use Rattle.mk_value.specs.Kinds.{domain_of};
ghost use Rattle.mk_value.specs.Tables.{number_in};
ghost use Rattle.mk_value.specs.Values.{datum_of};
ghost use Rattle.tables.specs.Build.{AreCells, HasColumn, IsTableOfRows};
ghost use Rattle.tables.specs.Columns.{AreColumnsIn, IsColumnWith};
ghost use Rattle.tables.specs.Homes.{column_of, empty_home, rows_in};
ghost use Rattle.tables.specs.Shapes.{bytes_in};
ghost use Rattle.tables.specs.Stored.{stored_of};
ghost use Rattle.tables.specs.Tables.{table_without_homes};

use crate::cols::{Col, Cols};
use crate::shared::{Shared, share};
use crate::table::Table;
use crate::tables::Tables;
use bytes_col::BytesCol;
use int_col::IntCol;
use mk_value::{Bytes, Kind, Memory, Rows, Schema, Value};
use std::alloc::Global;

/// The table of these rows, no column of which has a home.
///
/// # Errors
///
/// `Memory`.
pub fn from_rows(alloc: Global, schema: Schema, rows: &Rows) -> Result<Table, Memory>
    requires { AreRowsOf rows.now schema }
    ensures { IfOk result (λ table. table ≡ table_without_homes schema rows.now) }
{
    let schema = segments::Shared::of(alloc, schema)?;
    table_of_rows(alloc, &schema, rows)
}

/// The table of a schema that has no rows.
///
/// # Errors
///
/// `Memory`.
pub fn empty_table(alloc: Global, schema: &Schema) -> Result<Table, Memory>
    ensures { IfOk result (λ table. table ≡ table_without_homes schema.now []) }
{
    from_rows(alloc, schema.copy()?, &Rows::new(alloc))
}

/// The table of the rows in a value of a view property, to be shared. It has the schema together with one that
/// stands beside it in the column, if that has the same.
pub(crate) fn inner_of_rows(
    alloc: Global,
    kind: &Kind,
    rows: &Rows,
    beside: Option<&segments::Shared<Schema>>,
) -> Result<Shared, Memory>
    requires { IsOf (datum_of (Value.V rows.now)) (domain_of kind.now) }
    ensures { IfOk result (IsTableOfRows (domain_of kind.now) rows.now) }
{
    let Kind::V(schema) = kind else {
        unreachable!()
    };
    let schema = shared_schema(alloc, schema, beside)?;
    share(alloc, table_of_rows(alloc, &schema, rows)?)
}

/// The schema, together with a table that has the same, or as a copy.
fn shared_schema(
    alloc: Global,
    schema: &Schema,
    beside: Option<&segments::Shared<Schema>>,
) -> Result<segments::Shared<Schema>, Memory>
    ensures { IfOk result (λ shared. shared ≡ schema.now) }
{
    if let Some(same) = beside {
        if same.get().is_same(schema) {
            return Ok(same.clone()?);
        }
    }
    segments::Shared::of(alloc, schema.copy()?)
}

/// The table of these rows, which has the schema together with others.
#[cycle(build)]
pub(crate) fn table_of_rows(
    alloc: Global,
    schema: &segments::Shared<Schema>,
    rows: &Rows,
) -> Result<Table, Memory>
    requires { AreRowsOf rows.now schema.now }
    ensures { IfOk result (λ table. table ≡ table_without_homes schema.now rows.now) }
{
    let cols = cols_of_rows(alloc, schema.get(), rows)?;
    Table::of_columns(schema, rows.len(), cols)
}

/// A column for each property.
#[cycle(build)]
fn cols_of_rows(alloc: Global, schema: &Schema, rows: &Rows) -> Result<Cols, Memory>
    requires { AreRowsOf rows.now schema.now }
    ensures { IfOk result (AreColumnsIn (table_without_homes schema.now rows.now)) }
{
    let props = schema.as_slice();
    let mut cols = Cols::with_capacity(alloc, props.len())?;
    for at in 0..props.len() {
        let prop = &props[at];
        cols.push(col_of_rows(alloc, &prop.kind, rows, at)?)?;
    }
    Ok(cols)
}

/// The column of the values at a place of each row.
#[cycle(build)]
fn col_of_rows(alloc: Global, kind: &Kind, rows: &Rows, at: usize) -> Result<Col, Memory>
    requires { AreCells rows.now at (domain_of kind.now) }
    ensures { IfOk result (λ col. IsColumnWith (domain_of kind.now) (column_of rows.now at) (empty_home (domain_of kind.now) (column_of rows.now at)) (stored_of col)) }
{
    match kind {
        Kind::I => Ok(Col::Ints(ints_of_rows(alloc, rows, at)?)),
        Kind::L => Ok(Col::Ints(ints_of_rows(alloc, rows, at)?)),
        Kind::S => Ok(Col::Blobs(blobs_of_rows(alloc, rows, at)?)),
        Kind::B => Ok(Col::Blobs(blobs_of_rows(alloc, rows, at)?)),
        Kind::V(schema) => Ok(Col::Views(views_of_rows(alloc, schema, rows, at)?)),
    }
}

/// The tables of the rows in a view column.
#[cycle(build)]
fn views_of_rows(alloc: Global, schema: &Schema, rows: &Rows, at: usize) -> Result<Tables, Memory>
    requires { AreCells rows.now at (domain_of (Kind.V schema.now)) }
    ensures { IfOk result (λ tables. tables ≡ map (λ d. table_without_homes schema.now (rows_in d)) (column_of rows.now at)) }
{
    let schema = segments::Shared::of(alloc, schema.copy()?)?;
    let mut tables = Tables::new(alloc);
    for row in rows.as_slice() {
        let table = table_of_value(alloc, &schema, &row.as_slice()[at])?;
        tables.push(share(alloc, table)?)?;
    }
    Ok(tables)
}

/// The table of the rows in a value of a view property.
#[cycle(build)]
fn table_of_value(
    alloc: Global,
    schema: &segments::Shared<Schema>,
    value: &Value,
) -> Result<Table, Memory>
    requires { IsOf (datum_of value.now) (domain_of (Kind.V schema.now)) }
    ensures { IfOk result (λ table. table ≡ table_without_homes schema.now (rows_in (datum_of value.now))) }
{
    match value {
        Value::V(rows) => table_of_rows(alloc, schema, rows),
        _ => unreachable!(),
    }
}

/// The column of the numbers at a place of each row.
pub(crate) fn ints_of_rows(alloc: Global, rows: &Rows, at: usize) -> Result<IntCol, Memory>
    requires { HasColumn rows.now at }
    ensures values { IfOk result (λ column. column.values ≡ map number_in (column_of rows.now at)) }
    ensures home { IfOk result (λ column. column.home ≡ None) }
{
    let mut values = Vec::with_capacity(alloc, rows.len())?;
    for row in rows.as_slice() {
        values.push(number_of(&row.as_slice()[at]))?;
    }
    IntCol::from_values(alloc, &values, None)
}

/// The column of the texts or byte strings at a place of each row.
pub(crate) fn blobs_of_rows(alloc: Global, rows: &Rows, at: usize) -> Result<BytesCol, Memory>
    requires { HasColumn rows.now at }
    ensures values { IfOk result (λ column. column.values ≡ map bytes_in (column_of rows.now at)) }
    ensures home { IfOk result (λ column. column.home ≡ None) }
{
    let mut values = Vec::with_capacity(alloc, rows.len())?;
    for row in rows.as_slice() {
        values.push(bytes_of(alloc, &row.as_slice()[at])?)?;
    }
    BytesCol::from_values(alloc, &values, None)
}

/// The number that a value is, and 0 where it is none.
fn number_of(value: &Value) -> i64
    ensures { result ≡ number_in (datum_of value.now) }
{
    match value {
        Value::I(number) => i64::from(*number),
        Value::L(number) => *number,
        _ => 0,
    }
}

/// The bytes of a text or a byte string, and none of another value.
fn bytes_of(alloc: Global, value: &Value) -> Result<Bytes, Memory>
    ensures { IfOk result (λ bytes. bytes.bytes ≡ bytes_in (datum_of value.now)) }
{
    match value {
        Value::S(text) => Bytes::from_slice(alloc, text.as_str().as_bytes()),
        Value::B(bytes) => bytes.copy(),
        _ => Ok(Bytes::new(alloc)),
    }
}
