//! Counts made of a table.
ghost use Rattle.std.specs.Prelude.{◌≡◌, ◌^◌, ◌<◌, [], All, false, length, slice_index_or, None, IfOk};
ghost use Rattle.mk_value.specs.Tables.{domain_at};
ghost use Rattle.relations.specs.Fitting.{is_view};
ghost use Rattle.relations.specs.Positions.{order_of};
ghost use Rattle.relations.specs.Refusals.{sort_due};
ghost use Rattle.relations.specs.Sorting.{row_cmp};
ghost use Rattle.live.specs.Watching.{IsAsked};
ghost use Rattle.live_counts.specs.Counting.{keys_in};
ghost use Rattle.live_counts.specs.Runs.{flags, starts, ties};

use live::{Keys, WatchOp};
use mk_value::{Memory, Positions, Schema, TableRead};
use relations::{Key, cmp_by_keys, positions_ordered};
use std::alloc::Global;

/// The keys in these columns, upwards.
pub(crate) fn keys_of(alloc: Global, schema: &Schema, columns: &Positions) -> Result<Keys, Memory>
    requires { All (λ j. j < length schema.now) columns.now }
    ensures { IfOk result (λ keys. keys ≡ keys_in schema.now columns.now) }
{
    let mut keys = Keys::new(alloc);
    for col in columns.as_slice() {
        let prop = &schema.as_slice()[*col as usize];
        let prop = prop.name.copy()?;
        keys.push(Key { prop, down: false })?;
    }
    Ok(keys)
}

/// The positions of all rows in the order of the keys, of which there is at least one.
pub(crate) fn positions_by<T: TableRead>(
    alloc: Global,
    rows: &T,
    keys: &Keys,
) -> Result<Vec<u32>, Memory>
    requires some { 0 < length keys.now }
    requires asked { sort_due keys.now (T.schema rows.now) ≡ None }
    ensures { IfOk result (λ kept. kept.items ≡ order_of (row_cmp (T.schema rows.now) keys.now) [] (T.rows rows.now)) }
{
    Ok(positions_ordered(alloc, rows, keys.as_slice())?.into_vec())
}

/// Whether two rows have equal keys.
fn ties_in<T: TableRead>(rows: &T, op: &WatchOp, a: usize, b: usize) -> bool
    requires asked { IsAsked (T.schema rows.now) op.now }
    requires first { a < length (T.rows rows.now) }
    requires second { b < length (T.rows rows.now) }
    ensures { result ≡ ties (T.schema rows.now) op.now (T.rows rows.now) a b }
{
    match op {
        WatchOp::Range(_) => true,
        WatchOp::Sort(keys) => cmp_by_keys(rows, a, b, keys.as_slice()).is_eq(),
    }
}

/// Whether a run of equal keys begins with the row at a place of the order.
fn begins<T: TableRead>(rows: &T, op: &WatchOp, kept: &[u32], at: usize) -> bool
    requires asked { IsAsked (T.schema rows.now) op.now }
    requires within { All (λ i. i < length (T.rows rows.now)) kept.now }
    requires there { at < length kept.now }
    ensures { result ≡ slice_index_or (flags (ties (T.schema rows.now) op.now (T.rows rows.now)) kept.now) at false }
{
    if at == 0 {
        return true;
    }
    let before = kept[at - 1] as usize;
    let here = kept[at] as usize;
    !ties_in(rows, op, before, here)
}

/// The places at which the runs of equal keys begin.
pub(crate) fn starts_of<T: TableRead>(
    alloc: Global,
    rows: &T,
    op: &WatchOp,
    kept: &[u32],
) -> Result<Vec<u32>, Memory>
    requires asked { IsAsked (T.schema rows.now) op.now }
    requires within { All (λ i. i < length (T.rows rows.now)) kept.now }
    requires few { length kept.now < 2 ^ 32 }
    ensures { IfOk result (λ all. all.items ≡ starts (ties (T.schema rows.now) op.now (T.rows rows.now)) kept.now) }
{
    let mut all = Vec::new(alloc);
    for at in 0..kept.len() {
        if begins(rows, op, kept, at) {
            all.push(at as u32)?;
        }
    }
    Ok(all)
}
