ghost use Rattle.std.specs.Prelude.{◌≡◌, ◌+◌, ◌<◌, ◌≤◌, ℕ, List, [], length, slice_index_or, None};
ghost use Rattle.mk_value.specs.Data.{Datum};
ghost use Rattle.mk_value.specs.Heading.{Attribute};
ghost use Rattle.mk_value.specs.Limits.{max_rows};
ghost use Rattle.relations.specs.Criteria.{is_in_range};
ghost use Rattle.relations.specs.Refusals.{range_due, sort_due};
ghost use Rattle.relations.specs.Sorting.{row_cmp};

use crate::op::{Criteria, Keys};
use mk_value::{Steps, TableRead};
use relations::{cmp_by_keys, is_in_range};
use std::cmp::Ordering;
use std::sync::ledger::Ledger;

/// Rows that are seen by tests and comparisons alone, each of which counts one step. It means a schema and a list of rows. No call of
/// it takes memory.
pub trait Probe<L: Ledger> {
    ghost schema: { Self → List Attribute };

    ghost rows: { Self → List (List Datum) };

    /// The number of rows, at most 16,777,216.
    fn size(&self) -> usize
        ensures value { result ≡ length (rows self.now) }
        ensures few { length (rows self.now) ≤ max_rows };

    /// Whether a row passes the criteria.
    fn test(&self, row: usize, op: &Criteria, steps: &mut Steps<L>) -> bool
        requires row_in { row < length (rows self.now) }
        requires asked { range_due op.now (schema self.now) ≡ None }
        ensures value { result ≡ is_in_range (schema self.now) op.now (slice_index_or (rows self.now) row []) }
        ensures one { steps.new ≡ steps.old + 1 };

    /// The order of two rows by the keys alone: equal where they differ in none.
    fn compare(&self, a: usize, b: usize, keys: &Keys, steps: &mut Steps<L>) -> Ordering
        requires first_in { a < length (rows self.now) }
        requires second_in { b < length (rows self.now) }
        requires asked { sort_due keys.now (schema self.now) ≡ None }
        ensures value { result ≡ row_cmp (schema self.now) keys.now (slice_index_or (rows self.now) a []) (slice_index_or (rows self.now) b []) }
        ensures one { steps.new ≡ steps.old + 1 };
}

/// A table as rows that are tested and compared.
#[derive(Drop)]
pub struct Over<'a, T: TableRead> {
    pub rows: &'a T,
}

impl<'a, L: Ledger, T: TableRead> Probe<L> for Over<'a, T> {
    ghost schema = { λ s. T.schema s.rows.now };

    ghost rows = { λ s. T.rows s.rows.now };

    fn size(&self) -> usize {
        self.rows.size()
    }

    fn test(&self, row: usize, op: &Criteria, steps: &mut Steps<L>) -> bool {
        steps.tick();
        is_in_range(self.rows, row, op.as_slice())
    }

    fn compare(&self, a: usize, b: usize, keys: &Keys, steps: &mut Steps<L>) -> Ordering {
        steps.tick();
        cmp_by_keys(self.rows, a, b, keys.as_slice())
    }
}
