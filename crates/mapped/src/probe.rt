//! Rows that are seen by comparisons with keys alone.
ghost use Rattle.std.specs.Prelude.{◌≡◌, ◌+◌, ◌<◌, List, [], length, slice_index_or};
ghost use Rattle.mk_value.specs.Data.{AreRowsOf, Datum};
ghost use Rattle.mk_value.specs.Heading.{Attribute};
ghost use Rattle.mapped.specs.Keys.{IsKeyFor, row_to_key};

use mk_value::{Row, Steps, TableRead};
use std::cmp::Ordering;
use std::sync::ledger::Ledger;

/// A table whose rows are compared with keys, and seen in no other way; each comparison counts one step. It means a schema and rows.
pub trait KeyProbe<L: Ledger> {
    ghost schema: { Self → List Attribute };

    ghost rows: { Self → List (List Datum) };

    /// The number of rows.
    fn size(&self) -> usize
        ensures value { result ≡ length (rows self.now) }
        ensures whole { AreRowsOf (rows self.now) (schema self.now) };

    /// The order of a row's first values, as many as the key has, beside the key. It takes no memory.
    fn compare_key(&self, row: usize, key: &Row, steps: &mut Steps<L>) -> Ordering
        requires row_in { row < length (rows self.now) }
        requires key { IsKeyFor (schema self.now) key.now }
        ensures value { result ≡ row_to_key (slice_index_or (rows self.now) row []) key.now }
        ensures one { steps.new ≡ steps.old + 1 };
}

/// A table as a probe.
#[derive(Drop)]
pub struct OverKeys<'a, T: TableRead> {
    pub rows: &'a T,
}

impl<'a, T: TableRead, L: Ledger> KeyProbe<L> for OverKeys<'a, T> {
    ghost schema = { λ p. T.schema p.rows.now };

    ghost rows = { λ p. T.rows p.rows.now };

    fn size(&self) -> usize {
        self.rows.size()
    }

    fn compare_key(&self, row: usize, key: &Row, steps: &mut Steps<L>) -> Ordering {
        steps.tick();
        cmp_with_key(self.rows, row, key)
    }
}

/// The order of a row's first values, as many as the key has, beside the key.
pub(crate) fn cmp_with_key<T: TableRead>(rows: &T, row: usize, key: &Row) -> Ordering
    requires row_in { row < length (T.rows rows.now) }
    requires key { IsKeyFor (T.schema rows.now) key.now }
    ensures { result ≡ row_to_key (slice_index_or (T.rows rows.now) row []) key.now }
{
    // Each row has a value for each property.
    let _size = rows.size();
    let values = key.as_slice();
    for at in 0..values.len() {
        let order = rows.cmp_cell(row, at, &values[at]);
        if order.is_ne() {
            return order;
        }
    }
    Ordering::Equal
}
