//! Where a table has values in the order of its keys.
ghost use Rattle.std.specs.Prelude.{◌≡◌, ◌<◌, ◌≤◌, [], count_by, length, map, take, slice_index_or, None, IfOk};
ghost use Rattle.std.specs.List.Sorted.{IsSorted};
ghost use Rattle.relations.specs.Criteria.{is_in_range};
ghost use Rattle.relations.specs.Positions.{AreResolved};
ghost use Rattle.relations.specs.Refusals.{range_due};
ghost use Rattle.relations.specs.Searching.{asked_cmp, rows_before};
ghost use Rattle.relations.specs.Sorting.{row_cmp};

use crate::columns::Columns;
use crate::criteria::{Criterion, Key};
use crate::lookup::column;
use crate::merging::merged;
use crate::passing::columns_of;
use crate::scanning::{Window, first_lead, passes_by};
use crate::sorting::turned;
use mk_value::{Memory, TableRead};
use std::alloc::Global;
use std::cmp::Ordering;

/// The number of rows whose values lie at or between the bounds of the criteria.
pub fn count_equal<T: TableRead>(
    alloc: Global,
    table: &T,
    criteria: &[Criterion],
) -> Result<usize, Memory>
    requires { range_due criteria.now (T.schema table.now) ≡ None }
    ensures { IfOk result (λ count. count ≡ count_by (is_in_range (T.schema table.now) criteria.now) (T.rows table.now)) }
{
    let asked = merged(alloc, criteria)?;
    let items = asked.as_slice();
    let columns = columns_of(alloc, table.schema(), items)?;
    count_passing(alloc, table, &columns, items)
}

/// The number of rows that lie within the bounds.
fn count_passing<T: TableRead>(
    alloc: Global,
    table: &T,
    columns: &Columns,
    criteria: &[Criterion],
) -> Result<usize, Memory>
    requires { AreResolved (T.schema table.now) criteria.now columns.now }
    ensures { IfOk result (λ count. count ≡ count_by (is_in_range (T.schema table.now) criteria.now) (T.rows table.now)) }
{
    let lead = first_lead(criteria);
    let mut window = Window::new(alloc, table)?;
    let mut count = 0;
    for row in 0..table.size() {
        if passes_by(table, columns, criteria, lead, &mut window, row) {
            count += 1;
        }
    }
    Ok(count)
}

/// The number of rows that come before the values of the criteria in the order of the first keys, one criterion a key. It looks at all
/// rows, in whatever order they stand, and takes no memory.
pub fn count_before<T: TableRead>(table: &T, keys: &[Key], criteria: &[Criterion]) -> usize
    requires { range_due criteria.now (T.schema table.now) ≡ None }
    ensures { result ≡ rows_before (T.schema table.now) keys.now criteria.now (T.rows table.now) }
{
    let mut count = 0;
    for row in 0..table.size() {
        if cmp_asked(table, keys, criteria, row).is_lt() {
            count += 1;
        }
    }
    count
}

/// The same number of rows that stand in the order of the keys, found by halving: so the position of the first that does not come
/// before the values. The criteria name the first keys. It takes no memory.
pub fn lower<T: TableRead>(table: &T, keys: &[Key], criteria: &[Criterion]) -> usize
    requires asked { range_due criteria.now (T.schema table.now) ≡ None }
    requires named { map (λ c. c.prop) criteria.now ≡ take (length criteria.now) (map (λ k. k.prop) keys.now) }
    requires ordered { IsSorted (row_cmp (T.schema table.now) keys.now) (T.rows table.now) }
    ensures { result ≡ rows_before (T.schema table.now) keys.now criteria.now (T.rows table.now) }
{
    let mut low = 0;
    let mut high = table.size();
    while low < high {
        let middle = low + (high - low) / 2;
        if cmp_asked(table, keys, criteria, middle).is_lt() {
            low = middle + 1;
        } else {
            high = middle;
        }
    }
    low
}

/// How a row stands to the values of the criteria.
fn cmp_asked<T: TableRead>(table: &T, keys: &[Key], criteria: &[Criterion], row: usize) -> Ordering
    requires asked { range_due criteria.now (T.schema table.now) ≡ None }
    requires row_in { row < length (T.rows table.now) }
    ensures { result ≡ asked_cmp (T.schema table.now) keys.now criteria.now (slice_index_or (T.rows table.now) row []) }
{
    for at in 0..keys.len().min(criteria.len()) {
        let criterion = &criteria[at];
        let col = column(table.schema(), &criterion.prop);
        let order = table.cmp_cell(row, col, &criterion.low);
        if order.is_ne() {
            return turned(order, keys[at].down);
        }
    }
    Ordering::Equal
}
