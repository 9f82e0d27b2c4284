//! Tables and columns under another schema.
ghost use Rattle.std.specs.Prelude.{◌≡◌, ◌<◌, ◌≤◌, All, length, map, IfOk, MatchOption};
ghost use Rattle.mk_value.specs.Heading.{Domain, heading_of};
ghost use Rattle.mk_value.specs.Kinds.{domain_of};
ghost use Rattle.mk_value.specs.Limits.{max_rows};
ghost use Rattle.tables.specs.Columns.{AreColumnsIn, IsTableOf};
ghost use Rattle.tables.specs.Read.{IsWhole, values_read};
ghost use Rattle.tables.specs.Rests.{RestsOn};
ghost use Rattle.tables.specs.Stored.{stored_of};
ghost use Rattle.restructure.specs.Columns.{IsColumnUnder, IsUnder};
ghost use Rattle.restructure.specs.Restructuring.{restructured};

use crate::conversion::{to_bytes, to_integers, to_longs, to_texts};
use mk_value::{Kind, Memory, Schema, TableRead};
use std::alloc::Global;
use tables::{Col, Cols, Column, Shared, Table, Tables, default_column, share};

/// The table under a new schema. Each property of it takes, row by row, what the old property of its name has:
///
/// - the same value where the kind is the same; views are restructured row by row;
/// - the same number where one of 32 bits becomes one of 64, and also the other way where it fits, else 0;
/// - the same bytes where a text becomes a byte string, and also the other way where they are UTF-8 without a zero byte, else
///   the empty text;
/// - the default where the kinds are others, or where the old schema has no property of that name.
///
/// Properties that the new schema lacks are gone. A plain column whose values stay as they are is shared with the old table, and costs a
/// count; it keeps its home where the kind is the same. Any other costs its values.
///
/// # Errors
///
/// `Memory`.
pub fn restructure(alloc: Global, old: &Table, schema: &Schema) -> Result<Table, Memory>
    ensures ok { IfOk result (λ table. table ≡ restructured old.now schema.now) }
    ensures rests { IfOk result (λ table. RestsOn table old.now) }
    ensures same { old.now.schema ≡ schema.now → IfOk result (λ table. table ≡ old.now) }
{
    // Both are whole: so the new table rests on the old one.
    let _rows = old.len();
    let _properties = schema.len();
    let schema = segments::Shared::of(alloc, schema.copy()?)?;
    restructure_table(alloc, old, &schema)
}

/// The table under a new schema, which it has together with others.
#[cycle(restructure)]
fn restructure_table(
    alloc: Global,
    old: &Table,
    new: &segments::Shared<Schema>,
) -> Result<Table, Memory>
    ensures { IfOk result (λ table. table ≡ restructured old.now new.now) }
{
    let cols = restructure_cols(alloc, old, new.get())?;
    Table::of_columns(new, old.len(), cols)
}

/// A column for each property of the new schema.
#[cycle(restructure)]
fn restructure_cols(alloc: Global, old: &Table, new: &Schema) -> Result<Cols, Memory>
    ensures { IfOk result (AreColumnsIn (restructured old.now new.now)) }
{
    let props = new.as_slice();
    let mut cols = Cols::with_capacity(alloc, props.len())?;
    for at in 0..props.len() {
        let prop = &props[at];
        let place = old.schema().find(prop.name.as_str());
        cols.push(restructure_place(alloc, old, place, &prop.kind)?)?;
    }
    Ok(cols)
}

/// The column of a new property that has this place in the old schema, or none.
#[cycle(restructure)]
fn restructure_place(
    alloc: Global,
    old: &Table,
    place: Option<usize>,
    kind: &Kind,
) -> Result<Col, Memory>
    requires { MatchOption place (Unit {0}) (λ k. k < length old.now.schema) }
    ensures { IfOk result (λ col. IsColumnUnder old.now place (domain_of kind.now) (stored_of col)) }
{
    match place {
        Some(at) => restructure_column(alloc, old.column(at), old.len(), kind),
        None => default_column(alloc, kind, old.len()),
    }
}

/// The column of so many rows under a kind.
#[cycle(restructure)]
fn restructure_column(
    alloc: Global,
    old: Column<'_>,
    rows: usize,
    kind: &Kind,
) -> Result<Col, Memory>
    requires whole { IsWhole old }
    requires rows { rows ≡ length (values_read old) }
    requires few { rows ≤ max_rows }
    ensures { IfOk result (λ col. IsUnder (domain_of old.entry.kind.now) (domain_of kind.now) (stored_of old.entry.col.now) (stored_of col)) }
{
    match kind {
        Kind::I => to_integers(alloc, old, rows),
        Kind::L => to_longs(alloc, old, rows),
        Kind::S => to_texts(alloc, old, rows),
        Kind::B => to_bytes(alloc, old, rows),
        Kind::V(schema) => to_views(alloc, old, rows, schema),
    }
}

/// The column as one of views of a schema.
#[cycle(restructure)]
fn to_views(alloc: Global, old: Column<'_>, rows: usize, schema: &Schema) -> Result<Col, Memory>
    requires whole { IsWhole old }
    requires rows { rows ≡ length (values_read old) }
    requires few { rows ≤ max_rows }
    ensures { IfOk result (λ col. IsUnder (domain_of old.entry.kind.now) (Domain.relation (heading_of schema.now)) (stored_of old.entry.col.now) (stored_of col)) }
{
    match old.kind {
        Kind::V(_) => Ok(Col::Views(restructure_views(alloc, old.views(), schema)?)),
        _ => {
            let kind = Kind::V(schema.copy()?);
            default_column(alloc, &kind, rows)
        }
    }
}

/// The tables in the rows of a view column under a new schema.
#[cycle(restructure)]
fn restructure_views(alloc: Global, old: &Tables, new: &Schema) -> Result<Tables, Memory>
    ensures made { IfOk result (λ tables. tables ≡ map (λ t. restructured t new.now) old.now) }
    ensures whole { IfOk result (All (IsTableOf new.now)) }
{
    let schema = segments::Shared::of(alloc, new.copy()?)?;
    let mut tables = Tables::new(alloc);
    for at in 0..old.len() {
        let inner = old.get(at).to_shared()?;
        tables.push(restructure_inner(alloc, &inner, &schema)?)?;
    }
    Ok(tables)
}

/// The table in a row of a view column under a new schema.
#[cycle(restructure)]
fn restructure_inner(
    alloc: Global,
    old: &Shared,
    new: &segments::Shared<Schema>,
) -> Result<Shared, Memory>
    ensures made { IfOk result (λ table. table ≡ restructured old.now new.now) }
    ensures whole { IfOk result (IsTableOf new.now) }
{
    let table = restructure_table(alloc, old.table(), new)?;
    let _rows = table.len();
    share(alloc, table)
}
