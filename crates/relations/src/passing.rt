//! The rows of a table whose values lie within bounds.
ghost use Rattle.std.specs.Prelude.{◌≡◌, ◌<◌, [], length, slice_index_or, None, IfOk};
ghost use Rattle.relations.specs.Criteria.{is_in_range as is_row_in_range};
ghost use Rattle.relations.specs.Positions.{AreResolved, first_passing, passing};
ghost use Rattle.relations.specs.Refusals.{range_due};

use crate::columns::Columns;
use crate::criteria::Criterion;
use crate::lookup::column;
use crate::merging::merged;
use crate::scanning::{Window, first_lead, is_within, passes_by};
use mk_value::{Memory, Positions, Schema, TableRead};
use std::alloc::Global;

/// The positions of the rows whose values lie at or between the bounds of the criteria, ascending. With no criteria all positions.
pub fn positions_in_range<T: TableRead>(
    alloc: Global,
    table: &T,
    criteria: &[Criterion],
) -> Result<Positions, Memory>
    requires { range_due criteria.now (T.schema table.now) ≡ None }
    ensures { IfOk result (λ positions. positions ≡ passing (is_row_in_range (T.schema table.now) criteria.now) [] (T.rows table.now)) }
{
    let asked = merged(alloc, criteria)?;
    let items = asked.as_slice();
    let columns = columns_of(alloc, table.schema(), items)?;
    passing_positions(alloc, table, &columns, items)
}

/// The first position, not before a start, of a row whose values lie at or between the bounds of the criteria, if there is one.
pub fn find<T: TableRead>(
    alloc: Global,
    table: &T,
    criteria: &[Criterion],
    start: usize,
) -> Result<Option<usize>, Memory>
    requires { range_due criteria.now (T.schema table.now) ≡ None }
    ensures { IfOk result (λ found. found ≡ first_passing (is_row_in_range (T.schema table.now) criteria.now) (T.rows table.now) start) }
{
    let asked = merged(alloc, criteria)?;
    let items = asked.as_slice();
    let columns = columns_of(alloc, table.schema(), items)?;
    first_from(alloc, table, &columns, items, start)
}

/// Whether the values of a row lie at or between the bounds of the criteria. It takes no memory, and looks each name up.
pub fn is_in_range<T: TableRead>(table: &T, row: usize, criteria: &[Criterion]) -> bool
    requires asked { range_due criteria.now (T.schema table.now) ≡ None }
    requires row_in { row < length (T.rows table.now) }
    ensures { result ≡ is_row_in_range (T.schema table.now) criteria.now (slice_index_or (T.rows table.now) row []) }
{
    for at in 0..criteria.len() {
        let criterion = &criteria[at];
        let col = column(table.schema(), &criterion.prop);
        if !is_within(table, row, col, criterion) {
            return false;
        }
    }
    true
}

/// The columns of the criteria.
pub(crate) fn columns_of(
    alloc: Global,
    schema: &Schema,
    criteria: &[Criterion],
) -> Result<Columns, Memory>
    requires { range_due criteria.now schema.now ≡ None }
    ensures { IfOk result (AreResolved schema.now criteria.now) }
{
    let mut columns = Columns::new(alloc);
    for criterion in criteria {
        columns.push(column(schema, &criterion.prop))?;
    }
    Ok(columns)
}

/// The positions of the rows that lie within the bounds.
fn passing_positions<T: TableRead>(
    alloc: Global,
    table: &T,
    columns: &Columns,
    criteria: &[Criterion],
) -> Result<Positions, Memory>
    requires { AreResolved (T.schema table.now) criteria.now columns.now }
    ensures { IfOk result (λ positions. positions ≡ passing (is_row_in_range (T.schema table.now) criteria.now) [] (T.rows table.now)) }
{
    let lead = first_lead(criteria);
    let mut window = Window::new(alloc, table)?;
    let mut positions = Positions::new(alloc);
    for row in 0..table.size() {
        if !passes_by(table, columns, criteria, lead, &mut window, row) {
            continue;
        }
        positions.push(row as u32)?;
    }
    Ok(positions)
}

/// The first row from a start on that lies within the bounds.
fn first_from<T: TableRead>(
    alloc: Global,
    table: &T,
    columns: &Columns,
    criteria: &[Criterion],
    start: usize,
) -> Result<Option<usize>, Memory>
    requires { AreResolved (T.schema table.now) criteria.now columns.now }
    ensures { IfOk result (λ found. found ≡ first_passing (is_row_in_range (T.schema table.now) criteria.now) (T.rows table.now) start) }
{
    let lead = first_lead(criteria);
    let mut window = Window::new(alloc, table)?;
    for row in start..table.size() {
        if passes_by(table, columns, criteria, lead, &mut window, row) {
            return Ok(Some(row));
        }
    }
    Ok(None)
}
