//! The refusals that an edit is due, found before anything is changed and without memory.
ghost use Rattle.std.specs.Prelude.{◌≡◌, ◌≤◌, length};
ghost use Rattle.std.specs.Result.{result_err};
ghost use Rattle.mk_value.specs.Limits.{max_rows};
ghost use Rattle.mk_value.specs.Heading.{find};
ghost use Rattle.mk_value.specs.Values.{datum_of};
ghost use Rattle.view_store.specs.Changes.{FitsSizes, edit_of};
ghost use Rattle.view_store.specs.Fitting.{are_of};
ghost use Rattle.view_store.specs.Refusals.{due_in, kind_refusal, range_refusal, value_refusal};

use crate::EditError;
use crate::change::Change;
use crate::walk::{find_schema, find_table};
use mk_value::{MAX_ROWS, Name, Row, Schema, Step, TableRead, Value, fits};
use tables::{Nested, Shared};

/// Answers the first refusal that the edit of a table is due.
pub(crate) fn check(table: &Shared, steps: &[Step], change: Change<'_>) -> Result<(), EditError>
    requires { FitsSizes change }
    ensures { result_err result ≡ due_in table.now steps.now (edit_of change.entry) }
{
    let target = find_schema(table.schema(), steps)?;
    check_kinds(target, change)?;
    let inside = find_table(Nested::of(table), steps)?;
    check_places(inside.size(), change)
}

/// Answers the refusal that the schema of the rows gives alone.
fn check_kinds(schema: &Schema, change: Change<'_>) -> Result<(), EditError>
    ensures { result_err result ≡ kind_refusal schema.now (edit_of change.entry) }
{
    match change {
        Change::Insert(_, row, _) => {
            if schema.len() < row.len() {
                return Err(EditError::NoProp);
            }
            if !values_fit(row, schema) {
                return Err(EditError::WrongKind);
            }
            Ok(())
        }
        Change::Set(_, prop, value) => check_value(schema, prop, value),
        Change::Remove(_, _) => Ok(()),
    }
}

/// Whether each value is of the kind of the property in its place.
fn values_fit(row: &Row, schema: &Schema) -> bool
    requires { length row.now ≤ length schema.now }
    ensures { result ≡ are_of row.now schema.now }
{
    let values = row.as_slice();
    let props = schema.as_slice();
    for at in 0..values.len() {
        let prop = &props[at];
        if !fits(&values[at], &prop.kind) {
            return false;
        }
    }
    true
}

/// Answers the refusal of a value for a property.
fn check_value(schema: &Schema, prop: &Name, value: &Value) -> Result<(), EditError>
    ensures { result_err result ≡ value_refusal schema.now (find schema.now prop.now) (datum_of value.now) }
{
    let Some(col) = schema.find(prop.as_str()) else {
        return Err(EditError::NoProp);
    };
    let prop = &schema.as_slice()[col];
    if !fits(value, &prop.kind) {
        return Err(EditError::WrongKind);
    }
    Ok(())
}

/// Answers the refusal that the number of rows gives.
fn check_places(size: usize, change: Change<'_>) -> Result<(), EditError>
    requires few { size ≤ max_rows }
    requires sizes { FitsSizes change }
    ensures { result_err result ≡ range_refusal size (edit_of change.entry) }
{
    let in_range = match change {
        Change::Insert(at, _, _) => at <= size,
        Change::Set(row, _, _) => row < size,
        Change::Remove(at, count) => at <= size && count <= size - at,
    };
    if !in_range {
        return Err(EditError::OutOfRange(size as u64));
    }
    if let Change::Insert(_, _, count) = change
        && size + count > MAX_ROWS
    {
        return Err(EditError::TooMany((size + count) as u64));
    }
    Ok(())
}
