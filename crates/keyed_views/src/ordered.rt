//! Rows that stand in the order of their keys, over a line.
ghost use Rattle.std.specs.Prelude.{◌≡◌, ◌<◌, ◌≤◌, ◌-◌, ℕ, List, length, nat_lt, take, if◌then◌else◌};
ghost use Rattle.mk_value.specs.Data.{Datum};
ghost use Rattle.mapped.specs.Keys.{AscendByKey, IsKeyFor, IsLower, has_key, rows_below};
ghost use Rattle.keyed_views.specs.Keyed.{edits_of, moved_to, put_ordered as put_by_order, set_ordered as set_by_order};
ghost use Rattle.row_edits.specs.Edits.{edited_by};

use crate::keyed::{KeyedEdit, without};
use mapped::{KeyProbe, Ordered, OverKeys};
use mk_value::{Row, Steps, TableRead};
use std::marker::Brand;
use std::sync::ledger::{Blank, Ledger};

/// How a row of this key comes among rows that stand in the order of their keys: in the place of the row that has the key, or else behind
/// the rows whose keys are less. It takes no memory.
pub fn put_ordered<T: TableRead>(ordered: &Ordered, rows: &T, key: &Row) -> KeyedEdit
    requires ascend { AscendByKey ordered.now (T.rows rows.now) }
    requires key { IsKeyFor (T.schema rows.now) key.now }
    requires some { 0 < length key.now }
    requires full { length key.now ≡ ordered.now }
    ensures due { result ≡ put_by_order (rows_below key.now (T.rows rows.now)) (has_key key.now (T.rows rows.now) (rows_below key.now (T.rows rows.now))) }
    // With any row of this key the rows ascend again.
    ensures ascends { (row : List Datum) → take ordered.now row ≡ key.now → AscendByKey ordered.now (edited_by row (edits_of result) (T.rows rows.now)) }
{
    let (low, has) = stands::<Brand, T>(ordered, rows, key, Blank::new(1));
    put_at(low, has)
}

/// How the row at a place, which is given this key, comes to stand in the order again: another row that has the key goes, and the row moves
/// behind the others whose keys are less. It takes no memory.
pub fn set_ordered<T: TableRead>(ordered: &Ordered, rows: &T, key: &Row, at: usize) -> KeyedEdit
    requires ascend { AscendByKey ordered.now (T.rows rows.now) }
    requires key { IsKeyFor (T.schema rows.now) key.now }
    requires some { 0 < length key.now }
    requires full { length key.now ≡ ordered.now }
    requires there { at < length (T.rows rows.now) }
    ensures due { result ≡ set_by_order at (rows_below key.now (T.rows rows.now)) (has_key key.now (T.rows rows.now) (rows_below key.now (T.rows rows.now))) }
    // With any row of this key the rows ascend again.
    ensures ascends { (row : List Datum) → take ordered.now row ≡ key.now → AscendByKey ordered.now (edited_by row (edits_of result) (T.rows rows.now)) }
{
    let (low, has) = stands::<Brand, T>(ordered, rows, key, Blank::new(1));
    set_at(at, low, has)
}

/// How many rows have lesser keys, and whether the row behind them has this one.
fn stands<L: Ledger, T: TableRead>(
    ordered: &Ordered,
    rows: &T,
    key: &Row,
    blank: Blank,
) -> (usize, bool)
    requires ascend { AscendByKey ordered.now (T.rows rows.now) }
    requires key { IsKeyFor (T.schema rows.now) key.now }
    requires some { 0 < length key.now }
    requires few { length key.now ≤ ordered.now }
    requires name { blank.name ≡ L.name }
    requires parts { blank.parts ≡ L.parts }
    requires share { 0 < blank.parts }
    ensures place { IsLower key.now (T.rows rows.now) result.0 }
    ensures count { result.0 ≡ rows_below key.now (T.rows rows.now) }
    ensures has { result.1 ≡ has_key key.now (T.rows rows.now) result.0 }
{
    let mut steps = Steps::<L>::new(blank);
    let over = OverKeys { rows };
    let low = ordered.lower(&over, key, &mut steps);
    let has = low < rows.size() && over.compare_key(low, key, &mut steps).is_eq();
    (low, has)
}

/// A row comes at a place, in the place of the row there where that has its key.
fn put_at(low: usize, has: bool) -> KeyedEdit
    ensures { result ≡ put_by_order low has }
{
    if has {
        KeyedEdit::Replace { at: low }
    } else {
        KeyedEdit::Put { at: low }
    }
}

/// A row is given a key that comes behind so many of all rows, the one at that place having it or not.
fn set_at(at: usize, low: usize, has: bool) -> KeyedEdit
    ensures { result ≡ set_by_order at low has }
{
    if !has {
        return moved(at, None, among_others(at, low));
    }
    if low == at {
        return KeyedEdit::Change { at, other: None };
    }
    moved(at, Some(low), among_others(at, low))
}

/// How many of the other rows are among the first so many of all.
fn among_others(at: usize, low: usize) -> usize
    ensures { result ≡ (if nat_lt at low then low - 1 else low) }
{
    if at < low { low - 1 } else { low }
}

/// A row stays where its change leaves it, or moves before another place.
fn moved(at: usize, other: Option<usize>, to: usize) -> KeyedEdit
    ensures { result ≡ moved_to at other to }
{
    if to == without(other, at) {
        return KeyedEdit::Change { at, other };
    }
    KeyedEdit::Move { at, other, to }
}
