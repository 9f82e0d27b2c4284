//! A row that is put at the end of columns: each is made ready for its value first, and then none can fail.
ghost use Rattle.std.specs.Prelude.{◌≡◌, ◌<◌, length, map, IfOk, IfErr, OnOk, OnErr};
ghost use Rattle.mk_value.specs.Data.{IsOf};
ghost use Rattle.mk_value.specs.Kinds.{domain_of};
ghost use Rattle.mk_value.specs.Values.{datum_of};
ghost use Rattle.tables.specs.Columns.{IsColumnOf, views};
ghost use Rattle.tables.specs.Stored.{stored_of};
ghost use Rattle.tables.specs.Prepared.{AreReady, ArePushed, HasRoomForNumber, HasRoomForString, IsAfter, IsReadyFor, IsReadyForNumber, IsReadyForString, IsLonger, column_before};

use crate::build::inner_of_rows;
use crate::cols::Col;
use crate::growing::{Growing, Longer};
use crate::tables::Tables;
use mk_value::{Kind, Memory, Prop, Rows, Value};
use std::alloc::Global;
use std::mem::replace;

/// Tables, and a copy of them with one more.
#[derive(Drop)]
pub(crate) struct Copied {
    before: Tables,
    longer: Tables,
}

/// A column that is ready for one more value.
#[derive(Drop)]
pub(crate) enum PreparedColumn {
    Ints(int_col::PreparedPush),
    Blobs(bytes_col::PreparedPush),
    /// The list of the tables, which has the one more already.
    Listed(Longer),
    /// By a copy. It is boxed, so that a value that is put in place moves no room for it.
    Views(Box<Copied>),
}

impl PreparedColumn {
    /// The column with the value at its end. It takes no memory.
    #[inline(always)]
    fn finish(self) -> Col
        ensures { IsAfter self (stored_of result) }
    {
        match self {
            PreparedColumn::Ints(push) => Col::Ints(push.finish()),
            PreparedColumn::Blobs(push) => Col::Blobs(push.finish()),
            PreparedColumn::Listed(list) => Col::Views(Tables::of_list(list.finish())),
            PreparedColumn::Views(copied) => Col::Views(Box::into_inner(copied).longer),
        }
    }

    /// The column as it was. It takes no memory.
    fn cancel(self) -> Col
        ensures { stored_of result ≡ column_before self }
    {
        match self {
            PreparedColumn::Ints(push) => Col::Ints(push.cancel()),
            PreparedColumn::Blobs(push) => Col::Blobs(push.cancel()),
            PreparedColumn::Listed(list) => Col::Views(Tables::of_list(list.cancel())),
            PreparedColumn::Views(copied) => Col::Views(Box::into_inner(copied).before),
        }
    }
}

/// Puts a row at the end of columns of so many rows, of all or of none.
pub(crate) fn push_row(
    alloc: Global,
    rows: usize,
    cols: &mut [Col],
    props: &[Prop],
    values: &[Value],
) -> Result<(), Memory>
    requires few { rows < 16777216 }
    requires ready { AreReady rows props.now (map datum_of values.now) (map stored_of cols.old) }
    ensures ok { OnOk result (ArePushed rows props.now (map datum_of values.now) (map stored_of cols.old) (map stored_of cols.new)) }
    ensures err { OnErr result (map stored_of cols.new ≡ map stored_of cols.old) }
{
    let Some((first, rest)) = cols.split_first_mut() else {
        return Ok(());
    };
    let prop = &props[0];
    let column = replace(first, Col::Views(Tables::new(alloc)));
    match prepare(alloc, rows, column, &prop.kind, &values[0]) {
        Ok(prepared) => match push_row(alloc, rows, rest, &props[1..], &values[1..]) {
            Ok(()) => {
                *first = prepared.finish();
                Ok(())
            }
            Err(error) => {
                *first = prepared.cancel();
                Err(error)
            }
        },
        Err(column) => {
            *first = column;
            Err(Memory)
        }
    }
}

/// Makes a column of so many values ready for one more.
#[inline(always)]
fn prepare(
    alloc: Global,
    rows: usize,
    col: Col,
    kind: &Kind,
    value: &Value,
) -> Result<PreparedColumn, Col>
    requires few { rows < 16777216 }
    requires whole { IsColumnOf rows (domain_of kind.now) (stored_of col) }
    requires fits { IsOf (datum_of value.now) (domain_of kind.now) }
    ensures ok { IfOk result (IsReadyFor rows (domain_of kind.now) (datum_of value.now) (stored_of col)) }
    ensures err { IfErr result (λ same. stored_of same ≡ stored_of col) }
{
    match value {
        Value::I(number) => prepare_number(col, i64::from(*number)),
        Value::L(number) => prepare_number(col, *number),
        Value::S(text) => prepare_string(col, text.as_str().as_bytes()),
        Value::B(bytes) => prepare_string(col, bytes.as_slice()),
        Value::V(inner) => prepare_table(alloc, col, kind, inner, rows),
    }
}

/// Makes a column of numbers ready for one more.
#[inline(always)]
fn prepare_number(col: Col, number: i64) -> Result<PreparedColumn, Col>
    requires { HasRoomForNumber (stored_of col) }
    ensures ok { IfOk result (IsReadyForNumber (stored_of col) number) }
    ensures err { IfErr result (λ same. stored_of same ≡ stored_of col) }
{
    let Col::Ints(column) = col else {
        unreachable!()
    };
    match column.prepare_push(number) {
        Ok(push) => Ok(PreparedColumn::Ints(push)),
        Err(column) => Err(Col::Ints(column)),
    }
}

/// Makes a column of texts or byte strings ready for one more.
#[inline(always)]
fn prepare_string(col: Col, value: &[u8]) -> Result<PreparedColumn, Col>
    requires { HasRoomForString (stored_of col) }
    ensures ok { IfOk result (IsReadyForString (stored_of col) value.now) }
    ensures err { IfErr result (λ same. stored_of same ≡ stored_of col) }
{
    let Col::Blobs(column) = col else {
        unreachable!()
    };
    match column.prepare_push(value) {
        Ok(push) => Ok(PreparedColumn::Blobs(push)),
        Err(column) => Err(Col::Blobs(column)),
    }
}

/// Makes a column of tables ready for the table of these rows.
fn prepare_table(
    alloc: Global,
    col: Col,
    kind: &Kind,
    inner: &Rows,
    rows: usize,
) -> Result<PreparedColumn, Col>
    requires whole { IsColumnOf rows (domain_of kind.now) (stored_of col) }
    requires fits { IsOf (datum_of (Value.V inner.now)) (domain_of kind.now) }
    ensures ok { IfOk result (IsReadyFor rows (domain_of kind.now) (datum_of (Value.V inner.now)) (stored_of col)) }
    ensures err { IfErr result (λ same. stored_of same ≡ stored_of col) }
{
    let Col::Views(tables) = col else {
        unreachable!()
    };
    match tables.into_list() {
        Ok(list) => put_in_list(alloc, list, kind, inner, rows),
        Err(tables) => put_in_copy(alloc, tables, kind, inner, rows),
    }
}

/// Puts the table of these rows into a list.
fn put_in_list(
    alloc: Global,
    list: Growing,
    kind: &Kind,
    inner: &Rows,
    rows: usize,
) -> Result<PreparedColumn, Col>
    requires whole { IsColumnOf rows (domain_of kind.now) (views list) }
    requires fits { IsOf (datum_of (Value.V inner.now)) (domain_of kind.now) }
    ensures ok { IfOk result (IsReadyFor rows (domain_of kind.now) (datum_of (Value.V inner.now)) (views list)) }
    ensures err { IfErr result (λ same. stored_of same ≡ views list) }
{
    match with_table(alloc, list, kind, inner) {
        Ok(longer) => Ok(PreparedColumn::Listed(longer)),
        Err(list) => Err(Col::Views(Tables::of_list(list))),
    }
}

/// Puts the table of these rows into a copy of a list.
fn put_in_copy(
    alloc: Global,
    tables: Tables,
    kind: &Kind,
    inner: &Rows,
    rows: usize,
) -> Result<PreparedColumn, Col>
    requires whole { IsColumnOf rows (domain_of kind.now) (views tables) }
    requires fits { IsOf (datum_of (Value.V inner.now)) (domain_of kind.now) }
    ensures ok { IfOk result (IsReadyFor rows (domain_of kind.now) (datum_of (Value.V inner.now)) (views tables)) }
    ensures err { IfErr result (λ same. stored_of same ≡ views tables) }
{
    let Ok(longer) = longer(alloc, &tables, kind, inner) else {
        return Err(Col::Views(tables));
    };
    let copied = Copied {
        before: tables,
        longer,
    };
    match Box::new(alloc, copied) {
        Ok(copied) => Ok(PreparedColumn::Views(copied)),
        Err(failed) => Err(Col::Views(failed.value.before)),
    }
}

/// A copy of the tables, with the table of these rows behind them.
fn longer(alloc: Global, tables: &Tables, kind: &Kind, rows: &Rows) -> Result<Tables, Memory>
    requires { IsOf (datum_of (Value.V rows.now)) (domain_of kind.now) }
    ensures { IfOk result (IsLonger (domain_of kind.now) rows.now tables.now) }
{
    match with_table(alloc, tables.to_list()?, kind, rows) {
        Ok(longer) => Ok(Tables::of_list(longer.finish())),
        Err(_) => Err(Memory),
    }
}

/// A list, and behind its tables the table of these rows.
///
/// # Errors
///
/// The list as it was, for want of memory.
fn with_table(alloc: Global, list: Growing, kind: &Kind, rows: &Rows) -> Result<Longer, Growing>
    requires { IsOf (datum_of (Value.V rows.now)) (domain_of kind.now) }
    ensures ok { IfOk result (IsLonger (domain_of kind.now) rows.now list) }
    ensures err { IfErr result (λ same. same ≡ list) }
{
    match inner_of_rows(alloc, kind, rows, list.last_schema()) {
        Ok(table) => list.with(table),
        Err(Memory) => Err(list),
    }
}
