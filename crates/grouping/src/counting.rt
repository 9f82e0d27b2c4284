//! The number of rows of each distinct key.
ghost use Rattle.std.specs.Prelude.{◌≡◌, ◌<◌, ◌≤◌, ◌++◌, ◌∷◌, [], length, None, IfOk};
ghost use Rattle.std.specs.Result.{result_err};
ghost use Rattle.mk_value.specs.Heading.{Domain};
ghost use Rattle.mk_value.specs.Limits.{max_rows};
ghost use Rattle.derived.specs.Grouping.{counts};
ghost use Rattle.derived.specs.Layers.{table_of};
ghost use Rattle.relations.specs.Answers.{AnswersDue};
ghost use Rattle.derived.specs.Refusals.{counts_due};
ghost use Rattle.relations.specs.Rows.{once, properties_of};
ghost use Rattle.grouping.specs.Groups.{counted_keys};

use crate::key_index::KeyIndex;
use crate::keyed::{key_index, key_properties};
use derived::{Derived, held};
use mk_value::{Kind, MAX_PROPERTIES, Memory, Name, Prop, Rows, Same, Schema, TableRead, Value};
use relations::lookup::is_among;
use relations::{DerivedError, check_named, check_plain, count_distinct};
use std::alloc::Global;

/// A row for each distinct key, ascending by key: the key, and under the name COUNT, as a value of kind I, the number of rows
/// that have it. A key that is named again counts once. It costs n log n comparisons of keys.
///
/// # Errors
///
/// The first that is due: `NameTaken` where COUNT is a key, `NoProp` with the first key that is absent, `KeyIsView` with the
/// first that is a view, `TooWide` where the keys are 64. Else `Memory`.
pub fn counts<T: TableRead + Same + Drop>(
    alloc: Global,
    base: Derived<T>,
    keys: &[Name],
    count: &Name,
) -> Result<Derived<T>, DerivedError>
    requires some { 0 < length keys.now }
    ensures due { AnswersDue (counts_due keys.now count.now (table_of base)) result }
    ensures ok { IfOk result (λ d. table_of d ≡ counts keys.now count.now (table_of base)) }
{
    check_counts(base.schema(), keys, count)?;
    let _size = base.size();
    let index = key_index(alloc, &base, keys)?;
    let schema = counted_schema(alloc, base.schema(), keys, count)?;
    let rows = counted_rows(alloc, &index)?;
    Ok(held(schema, rows)?)
}

/// Answers the first refusal that counting is due, which the rows have no part in.
pub(crate) fn check_counts(schema: &Schema, keys: &[Name], count: &Name) -> Result<(), DerivedError>
    ensures { result_err result ≡ counts_due keys.now count.now (record { schema = schema.now; rows = [] }) }
{
    if is_among(keys, count) {
        return Err(DerivedError::NameTaken(count.copy()?));
    }
    check_named(schema, keys)?;
    check_plain(schema, keys)?;
    if count_distinct(keys) >= MAX_PROPERTIES {
        return Err(DerivedError::TooWide);
    }
    Ok(())
}

/// The properties of the keys, and then the count.
fn counted_schema(
    alloc: Global,
    schema: &Schema,
    keys: &[Name],
    count: &Name,
) -> Result<Schema, Memory>
    requires some { 0 < length keys.now }
    requires due { counts_due keys.now count.now (record { schema = schema.now; rows = [] }) ≡ None }
    ensures { IfOk result (λ made. made ≡ properties_of schema.now (once keys.now) ++ record { name = count.now; domain = Domain.integer } ∷ []) }
{
    let _width = schema.len();
    let mut props = key_properties(alloc, schema, keys)?;
    let name = count.copy()?;
    let kind = Kind::I;
    props.push(Prop { name, kind })?;
    Ok(Schema::of(props))
}

/// Each key, and the number of its rows.
fn counted_rows<T: TableRead>(alloc: Global, index: &KeyIndex<'_, T>) -> Result<Rows, Memory>
    requires { length index.now ≤ max_rows }
    ensures { IfOk result (λ rows. rows ≡ counted_keys index.now) }
{
    let mut rows = Rows::new(alloc);
    for group in 0..index.groups() {
        let mut row = index.key(alloc, group)?;
        let number = index.group(group).len();
        row.push(Value::I(number as i32))?;
        rows.push(row)?;
    }
    Ok(rows)
}
