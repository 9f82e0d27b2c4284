//! The rows of each distinct key as a view.
ghost use Rattle.std.specs.Prelude.{◌≡◌, ◌<◌, ◌++◌, ◌∷◌, [], All, length, map, not, slice_index_or, None, IfOk};
ghost use Rattle.std.specs.Result.{result_err};
ghost use Rattle.std.specs.List.{filter, list_any};
ghost use Rattle.mk_value.specs.Heading.{Domain, heading_depth, heading_of};
ghost use Rattle.mk_value.specs.Limits.{max_depth};
ghost use Rattle.derived.specs.Grouping.{group_by};
ghost use Rattle.derived.specs.Layers.{table_of};
ghost use Rattle.relations.specs.Columns.{values_at};
ghost use Rattle.relations.specs.Answers.{AnswersDue};
ghost use Rattle.relations.specs.Refusals.{none_left};
ghost use Rattle.derived.specs.Refusals.{group_by_due};
ghost use Rattle.relations.specs.Rows.{is_among as is_name_among, once, others, properties_of};
ghost use Rattle.grouping.specs.Groups.{grouped_keys};

use crate::key_index::KeyIndex;
use crate::keyed::{key_index, key_properties, other_properties};
use derived::{Derived, held};
use mk_value::{Kind, MAX_DEPTH, Memory, Name, Prop, Rows, Same, Schema, TableRead, Value};
use relations::lookup::is_among;
use relations::{Columns, DerivedError, check_named, check_plain, other_columns, values_in};
use std::alloc::Global;

/// A row for each distinct key, ascending by key: the key, and under the name SUB the view of the other properties of the rows
/// that have it, in base order. A key that is named again counts once. It costs n log n comparisons of keys, and copies the
/// values of all rows.
///
/// # Errors
///
/// The first that is due: `NameTaken` where SUB is a key, `NoProp` with the first key that is absent, or with SUB where no
/// property is left for it, `KeyIsView` with the first key that is a view, `TooDeep` where the view of the other properties
/// would nest too deep. Else `Memory`.
pub fn group_by<T: TableRead + Same + Drop>(
    alloc: Global,
    base: Derived<T>,
    keys: &[Name],
    sub: &Name,
) -> Result<Derived<T>, DerivedError>
    requires some { 0 < length keys.now }
    ensures due { AnswersDue (group_by_due keys.now sub.now (table_of base)) result }
    ensures ok { IfOk result (λ d. table_of d ≡ group_by keys.now sub.now (table_of base)) }
{
    check_group_by(base.schema(), keys, sub)?;
    let _size = base.size();
    let index = key_index(alloc, &base, keys)?;
    let schema = grouped_schema(alloc, base.schema(), keys, sub)?;
    let rest = other_columns(alloc, base.schema(), keys)?;
    let rows = grouped_rows(alloc, &base, &rest, &index)?;
    Ok(held(schema, rows)?)
}

/// Answers the first refusal that grouping is due, which the rows have no part in.
pub(crate) fn check_group_by(schema: &Schema, keys: &[Name], sub: &Name) -> Result<(), DerivedError>
    ensures { result_err result ≡ group_by_due keys.now sub.now (record { schema = schema.now; rows = [] }) }
{
    let _width = schema.len();
    if is_among(keys, sub) {
        return Err(DerivedError::NameTaken(sub.copy()?));
    }
    check_named(schema, keys)?;
    check_left(schema, keys, sub)?;
    check_plain(schema, keys)?;
    if depth_of_others(schema, keys) + 2 > MAX_DEPTH {
        return Err(DerivedError::TooDeep);
    }
    Ok(())
}

/// Refuses the view of the other properties where none is left for it.
fn check_left(schema: &Schema, keys: &[Name], sub: &Name) -> Result<(), DerivedError>
    ensures { result_err result ≡ none_left (others schema.now keys.now) (sub.now ∷ []) }
{
    if !has_others(schema, keys) {
        return Err(DerivedError::NoProp(sub.copy()?));
    }
    Ok(())
}

/// Whether the schema has a property that is not among these names.
fn has_others(schema: &Schema, names: &[Name]) -> bool
    ensures { result ≡ list_any (λ a. not (is_name_among names.now a.name)) schema.now }
{
    schema
        .as_slice()
        .iter()
        .any(|prop| !is_among(names, &prop.name))
}

/// How deep the kinds of the properties that are not among these names nest.
fn depth_of_others(schema: &Schema, names: &[Name]) -> usize
    ensures value { result ≡ heading_depth (heading_of (filter (λ a. not (is_name_among names.now a.name)) schema.now)) }
    ensures shallow { result < max_depth }
{
    let mut depth = 0;
    for prop in schema.as_slice() {
        if !is_among(names, &prop.name) {
            depth = depth.max(prop.kind.depth());
        }
    }
    depth
}

/// The properties of the keys, and then the view of the others.
fn grouped_schema(
    alloc: Global,
    schema: &Schema,
    keys: &[Name],
    sub: &Name,
) -> Result<Schema, Memory>
    requires some { 0 < length keys.now }
    requires due { group_by_due keys.now sub.now (record { schema = schema.now; rows = [] }) ≡ None }
    ensures { IfOk result (λ made. made ≡ properties_of schema.now (once keys.now) ++ record { name = sub.now; domain = Domain.relation (heading_of (properties_of schema.now (others schema.now keys.now))) } ∷ []) }
{
    let _width = schema.len();
    let mut props = key_properties(alloc, schema, keys)?;
    let inner = Schema::of(other_properties(alloc, schema, keys)?);
    let _sub = sub.as_bytes();
    let name = sub.copy()?;
    let kind = Kind::V(inner);
    props.push(Prop { name, kind })?;
    Ok(Schema::of(props))
}

/// Each key, and the view of the values that its rows have in these columns.
fn grouped_rows<T: TableRead + Same + Drop>(
    alloc: Global,
    table: &Derived<T>,
    columns: &Columns,
    index: &KeyIndex<'_, Derived<T>>,
) -> Result<Rows, Memory>
    requires columns_in { All (λ j. j < length table.now.schema) columns.now }
    requires as_many { length index.now ≡ length table.now.rows }
    ensures { IfOk result (λ rows. rows ≡ grouped_keys columns.now table.now.rows index.now) }
{
    let mut rows = Rows::new(alloc);
    for group in 0..index.groups() {
        let mut row = index.key(alloc, group)?;
        let inner = rows_at(alloc, table, columns, index.group(group))?;
        row.push(Value::V(inner))?;
        rows.push(row)?;
    }
    Ok(rows)
}

/// The values of the rows at these positions in these columns.
fn rows_at<T: TableRead + Same + Drop>(
    alloc: Global,
    table: &Derived<T>,
    columns: &Columns,
    positions: &[u32],
) -> Result<Rows, Memory>
    requires columns_in { All (λ j. j < length table.now.schema) columns.now }
    requires positions_in { All (λ i. i < length table.now.rows) positions.now }
    ensures { IfOk result (λ rows. rows ≡ map (λ i. values_at columns.now (slice_index_or table.now.rows i [])) positions.now) }
{
    let mut rows = Rows::new(alloc);
    for position in positions {
        let row = *position as usize;
        rows.push(values_in(alloc, table, columns, row)?)?;
    }
    Ok(rows)
}
