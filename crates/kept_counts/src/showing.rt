//! The tables of counts and of filters.
ghost use Rattle.std.specs.Prelude.{◌≡◌, ◌<◌, ◌≤◌, ◌++◌, ◌∷◌, [], All, List, length, map, true, None, IfOk};
ghost use Rattle.std.specs.List.Sorted.{IsPermutation};
ghost use Rattle.derived.specs.Grouping.{counts as counts_by};
ghost use Rattle.derived.specs.Layers.{table_of};
ghost use Rattle.derived.specs.Refusals.{counts_due};
ghost use Rattle.live.specs.declared.op.WatchOp.TheVariants.{Sort};
ghost use Rattle.live_counts.specs.Counting.{AreCounts};
ghost use Rattle.mk_value.specs.Data.{Datum};
ghost use Rattle.mk_value.specs.Heading.{Domain};
ghost use Rattle.mk_value.specs.Limits.{max_rows};
ghost use Rattle.mk_value.specs.Tables.{Table};
ghost use Rattle.relations.specs.declared.criteria.Key.{Key};
ghost use Rattle.relations.specs.Columns.{column_of};
ghost use Rattle.relations.specs.Positions.{numbers};
ghost use Rattle.relations.specs.Refusals.{a_view, absent};
ghost use Rattle.relations.specs.Rows.{once, properties_of, rows_at};
ghost use Rattle.kept_counts.specs.Following.{counted_at};
ghost use Rattle.kept_counts.specs.Keeping.{AreCountsBy, table_stored};

use derived::{Derived, held, pick};
use live_counts::{LiveCounts, LiveFilter};
use mk_value::{
    Kind, MAX_PROPERTIES, Memory, Name, Positions, Prop, Rows, Same, Schema, TableRead, Value,
};
use relations::lookup::is_among;
use relations::{Columns, count_distinct, named_columns, properties_in, values_in};
use std::alloc::Global;
use tables::Shared;

/// Whether counts by these keys may be under this name.
pub(crate) fn may_count(keys: &[Name], count: &Name) -> bool
    ensures { result ≡ true → (t : Table) → absent t.schema keys.now ≡ None → a_view t.schema keys.now ≡ None → counts_due keys.now count.now t ≡ None }
{
    !is_among(keys, count) && count_distinct(keys) < MAX_PROPERTIES
}

/// The table of the counts of these rows, in any order. It takes time for the keys, and not for the rows.
pub(crate) fn counted(
    alloc: Global,
    rows: &Shared,
    keys: &[Name],
    count: &Name,
    counts: &LiveCounts,
) -> Result<Derived<Shared>, Memory>
    requires by { AreCountsBy rows.now.schema rows.now.rows keys.now counts.now }
    requires due { counts_due keys.now count.now (table_stored rows.now) ≡ None }
    ensures { IfOk result (λ d. (other : List (List Datum)) → IsPermutation rows.now.rows other → table_of d ≡ counts_by keys.now count.now (record { schema = rows.now.schema; rows = other })) }
{
    let _size = rows.size();
    let columns = named_columns(alloc, rows.schema(), keys)?;
    let schema = counted_schema(alloc, rows.schema(), keys, &columns, count)?;
    let made = counted_rows(alloc, rows, &columns, counts)?;
    Ok(held(schema, made)?)
}

/// The properties of the keys, and then the count.
fn counted_schema(
    alloc: Global,
    schema: &Schema,
    keys: &[Name],
    columns: &Columns,
    count: &Name,
) -> Result<Schema, Memory>
    requires some { 0 < length keys.now }
    requires due { counts_due keys.now count.now (record { schema = schema.now; rows = [] }) ≡ None }
    requires columns { columns.now ≡ map (column_of schema.now) (once keys.now) }
    ensures { IfOk result (λ made. made ≡ properties_of schema.now (once keys.now) ++ record { name = count.now; domain = Domain.integer } ∷ []) }
{
    let _width = schema.len();
    let mut props = properties_in(alloc, schema, columns)?;
    let name = count.copy()?;
    let kind = Kind::I;
    props.push(Prop { name, kind })?;
    Ok(Schema::of(props))
}

/// Each key, and the number of its rows.
fn counted_rows(
    alloc: Global,
    rows: &Shared,
    columns: &Columns,
    counts: &LiveCounts,
) -> Result<Rows, Memory>
    requires columns { All (λ j. j < length rows.now.schema) columns.now }
    requires now { AreCounts rows.now.schema rows.now.rows counts.now }
    requires sorts { (keys : List Key) × (counts.now.op ≡ Sort keys) }
    ensures { IfOk result (λ made. made ≡ map (counted_at columns.now rows.now.rows counts.now) (numbers (length counts.now.starts))) }
{
    let mut made = Rows::new(alloc);
    for key in 0..counts.len() {
        let mut row = values_in(alloc, rows, columns, counts.first(key))?;
        row.push(Value::I(counts.count(key) as i32))?;
        made.push(row)?;
    }
    Ok(made)
}

/// The table of the rows at the positions that a filter keeps. It takes time for these alone.
pub(crate) fn kept_rows(
    alloc: Global,
    rows: &Shared,
    filter: &LiveFilter,
) -> Result<Derived<Shared>, Memory>
    requires few { length filter.now.kept ≤ max_rows }
    requires in_range { All (λ i. i < length rows.now.rows) filter.now.kept }
    ensures { IfOk result (λ d. table_of d ≡ record { schema = rows.now.schema; rows = rows_at rows.now.rows filter.now.kept }) }
{
    let positions = positions_kept(alloc, rows.size(), filter)?;
    pick(alloc, rows.same()?, positions)
}

/// The positions that a filter keeps, each below a size.
fn positions_kept(alloc: Global, size: usize, filter: &LiveFilter) -> Result<Positions, Memory>
    requires few { size ≤ max_rows }
    requires in_range { All (λ i. i < size) filter.now.kept }
    ensures { IfOk result (λ positions. positions ≡ filter.now.kept) }
{
    let mut positions = Positions::new(alloc);
    for at in 0..filter.len() {
        positions.push(filter.at(at) as u32)?;
    }
    Ok(positions)
}
