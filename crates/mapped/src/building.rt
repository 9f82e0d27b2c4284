//! The keys of rows, and their positions in order.
ghost use Rattle.std.specs.Prelude.{◌≡◌, ◌≤◌, ◌<◌, [], length, take, slice_index_or, IfOk, None};
ghost use Rattle.mk_value.specs.Limits.{max_rows};
ghost use Rattle.relations.specs.Positions.{place_cmp};
ghost use Rattle.relations.specs.WholeOrder.{whole_row_cmp};
ghost use Rattle.mapped.specs.Keys.{keys_of};
ghost use Rattle.mapped.specs.Index.{AreKeys};
ghost use Rattle.mapped.specs.Order.{IsOrderOf, IsSortOf, least};
ghost use Rattle.mapped.specs.Refusals.{first_repeated as first_repeated_of};

use mk_value::{Memory, Row, TableRead};
use relations::cmp_whole_row;
use std::alloc::Global;
use std::cmp::Ordering;

/// The keys of all rows: the first values of each, so many.
pub(crate) fn keys_of_rows<T: TableRead>(
    alloc: Global,
    rows: &T,
    keys: usize,
) -> Result<Vec<Row>, Memory>
    requires { keys ≤ length (T.schema rows.now) }
    ensures value { IfOk result (λ all. all.items ≡ keys_of keys (T.rows rows.now)) }
    ensures few { IfOk result (λ all. length all.items ≤ max_rows) }
{
    let mut all = Vec::new(alloc);
    for row in 0..rows.size() {
        all.push(key_of_row(alloc, rows, row, keys)?)?;
    }
    Ok(all)
}

/// The first values of a row, so many.
fn key_of_row<T: TableRead>(alloc: Global, rows: &T, row: usize, keys: usize) -> Result<Row, Memory>
    requires few { keys ≤ length (T.schema rows.now) }
    requires row_in { row < length (T.rows rows.now) }
    ensures { IfOk result (λ key. key ≡ take keys (slice_index_or (T.rows rows.now) row [])) }
{
    // Each row has a value for each property.
    let _size = rows.size();
    let mut key = Row::new(alloc);
    for col in 0..keys {
        key.push(rows.get(row, col)?)?;
    }
    Ok(key)
}

/// The positions of keys in the order of the keys, those of equal keys ascending.
pub(crate) fn order_of(alloc: Global, keys: &[Row]) -> Result<Vec<u32>, Memory>
    requires { length keys.now ≤ max_rows }
    ensures { IfOk result (λ order. IsSortOf keys.now order.items) }
{
    let mut order = Vec::new(alloc);
    for at in 0..keys.len() {
        order.push(at as u32)?;
    }
    let none = Row::new(alloc);
    order.sort_unstable_by(|a, b| cmp_positions(keys, &none, *a, *b));
    Ok(order)
}

/// The order of two positions: that of the keys there, or of another where there is none, and where these tie that of the positions.
fn cmp_positions(keys: &[Row], none: &Row, a: u32, b: u32) -> Ordering
    ensures { result ≡ place_cmp whole_row_cmp none.now keys.now a b }
{
    let order = cmp_whole_row(key_at(keys, none, a), key_at(keys, none, b));
    order.then(a.cmp(&b))
}

/// The key at a position, or another where there is none.
fn key_at<'a>(keys: &'a [Row], none: &'a Row, at: u32) -> &'a Row
    ensures { result.now ≡ slice_index_or keys.now at none.now }
{
    keys.get(at as usize).unwrap_or(none)
}

/// The first key that stood before.
pub(crate) fn first_repeated(keys: &[Row], order: &[u32]) -> Option<u32>
    requires few { length keys.now ≤ max_rows }
    requires order { IsSortOf keys.now order.now }
    ensures value { result ≡ first_repeated_of keys.now }
    ensures distinct { result ≡ None → IsOrderOf keys.now order.now }
    ensures whole { result ≡ None → AreKeys keys.now }
{
    let mut first: Option<u32> = None;
    for place in 1..order.len() {
        let at = order[place];
        let before = &keys[order[place - 1] as usize];
        if cmp_whole_row(before, &keys[at as usize]).is_eq() {
            first = Some(earlier(first, at));
        }
    }
    first
}

/// The lesser of two positions, the one of which may be missing.
fn earlier(first: Option<u32>, at: u32) -> u32
    ensures { result ≡ least first at }
{
    match first {
        Some(first) => first.min(at),
        None => at,
    }
}
