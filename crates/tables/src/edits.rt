//! Rows that are put into columns and removed from them, at any place: in all columns or in none. Each column makes itself ready, then those
//! behind it are edited, and when none of these can fail any more it is changed itself.
ghost use Rattle.std.specs.Prelude.{◌≡◌, ◌+◌, ◌<◌, ◌≤◌, length, map, OnOk, OnErr};
ghost use Rattle.mk_value.specs.Data.{IsOf};
ghost use Rattle.mk_value.specs.Kinds.{domain_of};
ghost use Rattle.mk_value.specs.Values.{datum_of};
ghost use Rattle.segments.specs.Together.{Together};
ghost use Rattle.tables.specs.Columns.{IsColumnOf};
ghost use Rattle.tables.specs.Edits.{ArePutIn, AreWithout, HasNumbersIn, HasSome, HasStringsIn, HasTablesIn, HaveSome, IsPutIn, IsWithout, TakesNumbers, TakesStrings, TakesTables};
ghost use Rattle.tables.specs.Prepared.{AreReady};
ghost use Rattle.tables.specs.Stored.{stored_of};

use crate::Shared;
use crate::build::inner_of_rows;
use crate::cols::Col;
use crate::column::{views_inserted, views_removed};
use mk_value::{Kind, Memory, Prop, Value};
use std::alloc::Global;

/// Puts copies of a row, so many, at a place of columns of so many rows: into all of them or into none.
pub(crate) fn insert_rows(
    alloc: Global,
    rows: usize,
    at: usize,
    cols: &mut [Col],
    props: &[Prop],
    values: &[Value],
    count: usize,
) -> Result<(), Memory>
    requires at { at ≤ rows }
    requires few { rows + count ≤ 16777216 }
    requires ready { AreReady rows props.now (map datum_of values.now) (map stored_of cols.old) }
    ensures ok { OnOk result (ArePutIn at count props.now (map datum_of values.now) (map stored_of cols.old) (map stored_of cols.new)) }
    ensures err { OnErr result (map stored_of cols.new ≡ map stored_of cols.old) }
{
    let Some((first, rest)) = cols.split_first_mut() else {
        return Ok(());
    };
    let prop = &props[0];
    let more = &props[1..];
    let behind = &values[1..];
    let mut also = ||
        requires at { at ≤ rows }
        requires few { rows + count ≤ 16777216 }
        requires ready { AreReady rows more.now (map datum_of behind.now) (map stored_of rest.now) }
        ensures ok { OnOk result (ArePutIn at count more.entry.now (map datum_of behind.entry.now) (map stored_of rest.entry.now) (map stored_of rest.exit.now)) }
        ensures err { OnErr result (map stored_of rest.exit.now ≡ map stored_of rest.entry.now) }
    { insert_rows(alloc, rows, at, rest, more, behind, count) };
    insert_value(
        first, alloc, rows, &prop.kind, at, &values[0], count, &mut also,
    )
}

/// Removes so many rows from a place on: from all columns or from none.
pub(crate) fn remove_rows(cols: &mut [Col], at: usize, count: usize) -> Result<(), Memory>
    requires few { at + count ≤ 16777216 }
    requires within { HaveSome (at + count) (map stored_of cols.old) }
    ensures ok { OnOk result (AreWithout at count (map stored_of cols.old) (map stored_of cols.new)) }
    ensures err { OnErr result (map stored_of cols.new ≡ map stored_of cols.old) }
{
    let Some((first, rest)) = cols.split_first_mut() else {
        return Ok(());
    };
    let mut also = ||
        requires few { at + count ≤ 16777216 }
        requires within { HaveSome (at + count) (map stored_of rest.now) }
        ensures ok { OnOk result (AreWithout at count (map stored_of rest.entry.now) (map stored_of rest.exit.now)) }
        ensures err { OnErr result (map stored_of rest.exit.now ≡ map stored_of rest.entry.now) }
    { remove_rows(rest, at, count) };
    remove_values(first, at, count, &mut also)
}

/// Puts copies of a value at a place of a column of so many, and makes the call, or neither.
fn insert_value<F: FnMut() -> Result<(), Memory>>(
    col: &mut Col,
    alloc: Global,
    rows: usize,
    kind: &Kind,
    at: usize,
    value: &Value,
    count: usize,
    also: &mut F,
) -> Result<(), Memory>
    requires at { at ≤ rows }
    requires few { rows + count ≤ 16777216 }
    requires whole { IsColumnOf rows (domain_of kind.now) (stored_of col.old) }
    requires fits { IsOf (datum_of value.now) (domain_of kind.now) }
    requires also { F.pre also.old }
    ensures ok { OnOk result (IsPutIn at count (domain_of kind.now) (datum_of value.now) (stored_of col.old) (stored_of col.new)) }
    ensures err { OnErr result (stored_of col.new ≡ stored_of col.old) }
    ensures also { Together F.step result also.old also.new }
{
    match value {
        Value::I(number) => insert_number(col, at, i64::from(*number), count, also),
        Value::L(number) => insert_number(col, at, *number, count, also),
        Value::S(text) => insert_string(col, at, text.as_str().as_bytes(), count, also),
        Value::B(bytes) => insert_string(col, at, bytes.as_slice(), count, also),
        Value::V(inner) => {
            let table = inner_of_rows(alloc, kind, inner, col.inner_schema())?;
            insert_table(col, at, &table, count, also)
        }
    }
}

/// Puts copies of a number at a place of a column of numbers, and makes the call, or neither.
fn insert_number<F: FnMut() -> Result<(), Memory>>(
    col: &mut Col,
    at: usize,
    number: i64,
    count: usize,
    also: &mut F,
) -> Result<(), Memory>
    requires takes { TakesNumbers at count (stored_of col.old) }
    requires also { F.pre also.old }
    ensures ok { OnOk result (HasNumbersIn at count number (stored_of col.old) (stored_of col.new)) }
    ensures err { OnErr result (stored_of col.new ≡ stored_of col.old) }
    ensures also { Together F.step result also.old also.new }
{
    let Col::Ints(column) = col else {
        unreachable!()
    };
    column.insert_then(at, number, count, also)
}

/// Puts copies of a text or a byte string at a place of a column of them, and makes the call, or neither.
fn insert_string<F: FnMut() -> Result<(), Memory>>(
    col: &mut Col,
    at: usize,
    value: &[u8],
    count: usize,
    also: &mut F,
) -> Result<(), Memory>
    requires takes { TakesStrings at count (stored_of col.old) }
    requires also { F.pre also.old }
    ensures ok { OnOk result (HasStringsIn at count value.now (stored_of col.old) (stored_of col.new)) }
    ensures err { OnErr result (stored_of col.new ≡ stored_of col.old) }
    ensures also { Together F.step result also.old also.new }
{
    let Col::Blobs(column) = col else {
        unreachable!()
    };
    column.insert_then(at, value, count, also)
}

/// Puts copies of a table at a place of a column of tables, by a copy of it, and makes the call, or neither.
fn insert_table<F: FnMut() -> Result<(), Memory>>(
    col: &mut Col,
    at: usize,
    table: &Shared,
    count: usize,
    also: &mut F,
) -> Result<(), Memory>
    requires takes { TakesTables at (stored_of col.old) }
    requires also { F.pre also.old }
    ensures ok { OnOk result (HasTablesIn at count table.now (stored_of col.old) (stored_of col.new)) }
    ensures err { OnErr result (stored_of col.new ≡ stored_of col.old) }
    ensures also { Together F.step result also.old also.new }
{
    let Col::Views(tables) = col else {
        unreachable!()
    };
    let longer = views_inserted(tables, at, table, count)?;
    also()?;
    *tables = longer;
    Ok(())
}

/// Removes so many values from a place on from a column, one of tables by a copy, and makes the call, or neither.
fn remove_values<F: FnMut() -> Result<(), Memory>>(
    col: &mut Col,
    at: usize,
    count: usize,
    also: &mut F,
) -> Result<(), Memory>
    requires few { at + count ≤ 16777216 }
    requires within { HasSome (at + count) (stored_of col.old) }
    requires also { F.pre also.old }
    ensures ok { OnOk result (IsWithout at count (stored_of col.old) (stored_of col.new)) }
    ensures err { OnErr result (stored_of col.new ≡ stored_of col.old) }
    ensures also { Together F.step result also.old also.new }
{
    match col {
        Col::Ints(column) => column.remove_then(at, count, also),
        Col::Blobs(column) => column.remove_then(at, count, also),
        Col::Views(tables) => {
            let shorter = views_removed(tables, at, count)?;
            also()?;
            *tables = shorter;
            Ok(())
        }
    }
}
