//! Rows that stand in the order of their keys.
ghost use Rattle.std.specs.Prelude.{◌≡◌, ◌<◌, ◌≤◌, ◌+◌, ◌-◌, ◌*◌, ◌^◌, ◌&&◌, [], ℕ, List, nat_lt, length, take, slice_index_or, IfOk, None};
ghost use Rattle.std.specs.Result.{result_err};
ghost use Rattle.std.specs.Ordering.{is_eq};
ghost use Rattle.mk_value.specs.Data.{Datum};
ghost use Rattle.mapped.specs.Keys.{AscendByKey, after_put, IsKeyFor, IsLower, key_cmp, keys_of, put_of, row_to_key, rows_below};
ghost use Rattle.mapped.specs.Refusals.{count_due, first_unordered as first_unordered_of, ordered_due};

use crate::MapError;
use crate::halving::middle;
use crate::probe::{KeyProbe, OverKeys, cmp_with_key};
use mk_value::{Row, Schema, Steps, TableRead};
use relations::lookup::is_view;
use std::cmp::Ordering;
use std::marker::{Brand, Model};
use std::sync::ledger::{Blank, Ledger};

/// A view whose rows stand in strictly ascending order of their keys. It keeps how many values a key has, and contracts see that number.
#[derive(Debug, Drop)]
pub struct Ordered {
    keys: usize,
}

impl Model for Ordered {
    ghost use Rattle.std.specs.Prelude.{ℕ};

    ghost Value = { ℕ };

    ghost view = { λ o. o.keys };
}

/// Where a row is put among rows that stand in the order of their keys.
#[derive(Clone, Copy, Debug)]
pub enum Put {
    /// In the place of the row that has its key.
    Replace(usize),
    /// Before the row at this position, since no row has its key.
    Insert(usize),
}

impl Ordered {
    /// A mapping of rows that stand in strictly ascending order of their first values, so many. It looks at all rows and takes no memory.
    pub fn make<T: TableRead>(rows: &T, keys: usize) -> Result<Ordered, MapError>
        ensures due { result_err result ≡ ordered_due keys (T.schema rows.now) (T.rows rows.now) }
        ensures value { IfOk result (λ ordered. ordered ≡ keys) }
        ensures ascend { IfOk result (λ ordered. AscendByKey keys (T.rows rows.now)) }
    {
        check_count(rows.schema(), keys)?;
        match first_unordered(rows, keys) {
            Some(row) => Err(MapError::KeysBroken(row as u64)),
            None => Ok(Ordered { keys }),
        }
    }

    /// The first row whose key is not less than this one, or the number of rows, found by halving. A key of fewer values is compared with
    /// as many first values of the rows. It takes no memory.
    pub fn lower<L: Ledger, P: KeyProbe<L>>(
        &self,
        rows: &P,
        key: &Row,
        steps: &mut Steps<L>,
    ) -> usize
        requires ascend { AscendByKey self.now (P.rows rows.now) }
        requires key { IsKeyFor (P.schema rows.now) key.now }
        requires some { 0 < length key.now }
        requires few { length key.now ≤ self.now }
        ensures place { IsLower key.now (P.rows rows.now) result }
        ensures count { result ≡ rows_below key.now (P.rows rows.now) }
        ensures least { steps.old ≤ steps.new }
        // At most b comparisons, with b the greatest number of which this holds.
        ensures cost { 2 ^ (steps.new - steps.old) ≤ 2 * length (P.rows rows.now) + 1 }
    {
        let mut low = 0;
        let mut high = rows.size();
        while low < high {
            let middle = middle(low, high);
            if rows.compare_key(middle, key, steps).is_lt() {
                low = middle + 1;
            } else {
                high = middle;
            }
        }
        low
    }

    /// Where a row of this key is put. It takes no memory.
    pub fn where_to_put<T: TableRead>(&self, rows: &T, key: &Row) -> Put
        requires ascend { AscendByKey self.now (T.rows rows.now) }
        requires key { IsKeyFor (T.schema rows.now) key.now }
        requires some { 0 < length key.now }
        requires full { length key.now ≡ self.now }
        ensures place { result ≡ put_of key.now (T.rows rows.now) }
        // With any row of this key put there the rows ascend again.
        ensures ascends { (row : List Datum) → take self.now row ≡ key.now → AscendByKey self.now (after_put result row (T.rows rows.now)) }
    {
        let at = lower_uncounted::<Brand, T>(self, rows, key, Blank::new(1));
        if has_key(rows, key, at) {
            Put::Replace(at)
        } else {
            Put::Insert(at)
        }
    }
}

/// `lower` for who counts no steps.
fn lower_uncounted<L: Ledger, T: TableRead>(
    ordered: &Ordered,
    rows: &T,
    key: &Row,
    blank: Blank,
) -> usize
    requires ascend { AscendByKey ordered.now (T.rows rows.now) }
    requires key { IsKeyFor (T.schema rows.now) key.now }
    requires some { 0 < length key.now }
    requires few { length key.now ≤ ordered.now }
    requires name { blank.name ≡ L.name }
    requires parts { blank.parts ≡ L.parts }
    requires share { 0 < blank.parts }
    ensures place { IsLower key.now (T.rows rows.now) result }
    ensures count { result ≡ rows_below key.now (T.rows rows.now) }
{
    let mut steps = Steps::<L>::new(blank);
    ordered.lower(&OverKeys { rows }, key, &mut steps)
}

/// Whether the row at a position has the key.
fn has_key<T: TableRead>(rows: &T, key: &Row, at: usize) -> bool
    requires key { IsKeyFor (T.schema rows.now) key.now }
    ensures { result ≡ (nat_lt at (length (T.rows rows.now)) && is_eq (row_to_key (slice_index_or (T.rows rows.now) at []) key.now)) }
{
    at < rows.size() && cmp_with_key(rows, at, key).is_eq()
}

/// Refuses a number of keys that the schema cannot have.
pub(crate) fn check_count(schema: &Schema, keys: usize) -> Result<(), MapError>
    ensures { result_err result ≡ count_due keys schema.now }
{
    if keys == 0 || keys > schema.len() {
        return Err(MapError::NoKeys);
    }
    for at in 0..keys {
        let prop = &schema.as_slice()[at];
        if is_view(&prop.kind) {
            return Err(MapError::KeyIsView);
        }
    }
    Ok(())
}

/// The first row whose key is not above that of the row before it.
fn first_unordered<T: TableRead>(rows: &T, keys: usize) -> Option<usize>
    requires { count_due keys (T.schema rows.now) ≡ None }
    ensures { result ≡ first_unordered_of (keys_of keys (T.rows rows.now)) }
{
    for row in 1..rows.size() {
        if !cmp_rows_by_key(rows, row - 1, row, keys).is_lt() {
            return Some(row);
        }
    }
    None
}

/// The order of two rows by their first values, so many.
fn cmp_rows_by_key<T: TableRead>(rows: &T, a: usize, b: usize, keys: usize) -> Ordering
    requires plain { count_due keys (T.schema rows.now) ≡ None }
    requires first_in { a < length (T.rows rows.now) }
    requires second_in { b < length (T.rows rows.now) }
    ensures { result ≡ key_cmp (take keys (slice_index_or (T.rows rows.now) a [])) (take keys (slice_index_or (T.rows rows.now) b [])) }
{
    // Each row has a value for each property.
    let _size = rows.size();
    for col in 0..keys {
        let order = rows.cmp_rows(a, b, col);
        if order.is_ne() {
            return order;
        }
    }
    Ordering::Equal
}
