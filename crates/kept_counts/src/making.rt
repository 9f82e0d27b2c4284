//! Counts and filters made of a view.
ghost use Rattle.std.specs.Prelude.{◌≡◌, ◌<◌, All, Option, length, map, true, None, IfOk};
ghost use Rattle.std.specs.Option.{is_none};
ghost use Rattle.derived.specs.Viewing.{keep_due};
ghost use Rattle.relations.specs.Columns.{column_of};
ghost use Rattle.relations.specs.Answers.{AnswersDue};
ghost use Rattle.relations.specs.Refusals.{absent};
ghost use Rattle.relations.specs.declared.error.DerivedError.{DerivedError as TheError};
ghost use Rattle.relations.specs.Rows.{once};
ghost use Rattle.viewers.specs.Laws.{gives};
ghost use Rattle.kept_counts.specs.Keeping.{AreWaiting, IsFilterBy, may_key as may_be_key};

use derived::{DerivedError, held};
use live_counts::{LiveCounts, LiveFilter};
use mk_value::{Memory, Name, Positions, Rows, Schema, Sequence, TableRead};
use relations::lookup::column;
use relations::{Columns, check_named, check_plain, named_columns};
use std::alloc::Global;
use tables::Shared;
use viewed::keep;
use viewers::{Law, Viewer};

/// Whether rows of the schema may be counted by these keys.
pub(crate) fn may_key(schema: &Schema, keys: &[Name]) -> bool
    ensures { result ≡ may_be_key schema.now keys.now }
{
    if keys.is_empty() || check_named(schema, keys).is_err() {
        return false;
    }
    check_plain(schema, keys).is_ok()
}

/// The counts of these rows by these keys.
pub(crate) fn counts_of(alloc: Global, rows: &Shared, keys: &[Name]) -> Result<LiveCounts, Memory>
    requires { may_be_key rows.now.schema keys.now ≡ true }
    ensures { IfOk result (AreWaiting rows.now.schema rows.now.rows keys.now) }
{
    let columns = named_columns(alloc, rows.schema(), keys)?;
    let positions = positions_of(alloc, rows.schema(), &columns)?;
    LiveCounts::make(alloc, rows, positions)
}

/// Columns as positions.
fn positions_of(alloc: Global, schema: &Schema, columns: &Columns) -> Result<Positions, Memory>
    requires { All (λ j. j < length schema.now) columns.now }
    ensures { IfOk result (λ positions. positions ≡ columns.now) }
{
    let _width = schema.len();
    let mut positions = Positions::new(alloc);
    for column in columns.as_slice() {
        positions.push(*column as u32)?;
    }
    Ok(positions)
}

/// Whether a viewer may be asked of these properties of rows of the schema. It asks of no row.
pub(crate) fn may_ask<V: Viewer>(
    alloc: Global,
    schema: &Schema,
    viewer: &V,
    props: &[Name],
) -> Result<bool, Memory>
    ensures { IfOk result (λ may. may ≡ is_none (keep_due (V.meaning viewer.now).name (V.meaning viewer.now).takes props.now schema.now)) }
{
    let no_rows = held::<Shared>(schema.copy()?, Rows::new(alloc))?;
    let answer = keep(alloc, no_rows, viewer, props);
    is_done(&answer)
}

/// Whether a call was done, or refused what it was due.
fn is_done<T>(answer: &Result<T, DerivedError>) -> Result<bool, Memory>
    ensures { (due : Option TheError) → AnswersDue due answer.now → IfOk result (λ done. done ≡ is_none due) }
{
    match answer {
        Ok(_) => Ok(true),
        Err(error) => match error {
            DerivedError::Memory => Err(Memory),
            _ => Ok(false),
        },
    }
}

/// What a viewer keeps of these rows by these properties, where it answers by this law. Each row is asked once.
pub(crate) fn filter_of<V: Viewer>(
    alloc: Global,
    rows: &Shared,
    viewer: &V,
    law: Law,
    props: &[Name],
) -> Result<LiveFilter, Memory>
    requires due { keep_due (V.meaning viewer.now).name (V.meaning viewer.now).takes props.now rows.now.schema ≡ None }
    requires law { (V.meaning viewer.now).gives ≡ gives law }
    ensures { IfOk result (IsFilterBy rows.now.schema rows.now.rows law props.now) }
{
    let columns = columns_of(alloc, rows.schema(), props)?;
    LiveFilter::make(alloc, rows, viewer, columns)
}

/// The columns of the names, one for each.
fn columns_of(alloc: Global, schema: &Schema, names: &[Name]) -> Result<Columns, Memory>
    requires { absent schema.now names.now ≡ None }
    ensures { IfOk result (λ columns. columns ≡ map (column_of schema.now) names.now) }
{
    let mut columns = Columns::new(alloc);
    for name in names {
        columns.push(column(schema, name))?;
    }
    Ok(columns)
}

/// The same names.
pub(crate) fn copy_names(alloc: Global, names: &[Name]) -> Result<Sequence<Name>, Memory>
    ensures { IfOk result (λ copies. copies ≡ names.now) }
{
    let mut copies = Sequence::new(alloc);
    for name in names {
        copies.push(name.copy()?)?;
    }
    Ok(copies)
}
