//! Rows that stand in the order of keys, as a view or a watch keeps them: what is sought among them is found by halving.
ghost use Rattle.std.specs.Prelude.{◌≡◌, ◌+◌, ◌<◌, ◌≤◌, [], ℕ, true, false, length, slice_index_or, None, IfSome};
ghost use Rattle.expr_text.specs.Meanings.{query_of};
ghost use Rattle.std.specs.List.Sorted.{IsSorted};
ghost use Rattle.questions.specs.InOrder.{IsInOrder, StandInOrder, placed, sought};
ghost use Rattle.relations.specs.Criteria.{is_in_range};
ghost use Rattle.relations.specs.Refusals.{range_due};
ghost use Rattle.relations.specs.Sorting.{row_cmp};
ghost use Rattle.questions.specs.Answers.{Answers};
ghost use Rattle.questions.specs.Kept.{table_of};
ghost use Rattle.questions.specs.Places.{upwards};

use crate::error::QuestionError;
use crate::known::Known;
use crate::located::{Located, tested};
use crate::sorted::{begin, upwards};
use expr_text::{Crit, Expr};
use mk_value::TableRead;
use relations::{Criterion, Key, is_in_range, lower};
use std::alloc::Global;
use tables::Shared;
use watches::view_of;

/// A view whose rows stand in the order of their first values, so many.
#[derive(Clone, Copy, Drop)]
pub(crate) struct InOrder<'a> {
    pub table: &'a Shared,
    pub keys: usize,
}

impl<'a> Known<'a> {
    /// The view that an expression names, if its rows stand in the order of their keys.
    pub(crate) fn in_order(&self, expr: &Expr) -> Option<InOrder<'a>>
        ensures { IfSome result (λ view. IsInOrder self.now (query_of expr.now) view.table.now view.keys) }
    {
        let Expr::Path(path) = expr else {
            return None;
        };
        let keys = self.order_at(path)?;
        let table = view_of(self.views, path.name())?;
        Some(InOrder { table, keys })
    }
}

impl InOrder<'_> {
    /// The position of the first row that does not come before the values of the criteria; the number of rows where there is none.
    ///
    /// # Errors
    ///
    /// `NoProp`, `Kind` by the criteria; `Unsorted` where they do not name the first keys, in order, each once. Else `Memory`.
    pub fn search(&self, alloc: Global, criteria: &[Crit]) -> Result<u64, QuestionError>
        requires { StandInOrder self.now.table.now self.now.keys }
        ensures { Answers (λ position. position) (sought (table_of self.now.table.now) (upwards self.now.keys self.now.table.now.schema) criteria.now) result }
    {
        // The rows are of the schema.
        let _rows = self.table.size();
        let keys = upwards(alloc, self.table.schema(), self.keys)?;
        search_among(alloc, self.table, keys.as_slice(), criteria)
    }

    /// The same position, and the number of rows with the values, which stand from there on. It looks at these alone, and at one more.
    ///
    /// # Errors
    ///
    /// As of `search`.
    pub fn locate(&self, alloc: Global, criteria: &[Crit]) -> Result<Located, QuestionError>
        requires { StandInOrder self.now.table.now self.now.keys }
        ensures { Answers (λ at. at) (placed (table_of self.now.table.now) (upwards self.now.keys self.now.table.now.schema) criteria.now) result }
    {
        // The rows are of the schema.
        let _rows = self.table.size();
        let keys = upwards(alloc, self.table.schema(), self.keys)?;
        locate_among(alloc, self.table, keys.as_slice(), criteria)
    }
}

/// The position of the first row of a table, whose rows stand in the order of the keys, that does not come before the values of the criteria;
/// the number of rows if there is none.
///
/// # Errors
///
/// `NoProp`, `Kind` by the criteria; `Unsorted` if they do not name the first keys, in order, each once. Else `Memory`.
pub(crate) fn search_among<T: TableRead>(
    alloc: Global,
    table: &T,
    keys: &[Key],
    criteria: &[Crit],
) -> Result<u64, QuestionError>
    requires { IsSorted (row_cmp (T.schema table.now) keys.now) (T.rows table.now) }
    ensures { Answers (λ position. position) (sought (record { schema = T.schema table.now; rows = T.rows table.now }) keys.now criteria.now) result }
{
    let values = tested(alloc, table.schema(), criteria)?;
    if !begin(criteria, keys) {
        return Err(QuestionError::Unsorted);
    }
    Ok(lower(table, keys, values.as_slice()) as u64)
}

/// The same position, and the number of rows with the values, which stand from there on. It looks at these alone, and at one more.
///
/// # Errors
///
/// As of `search_among`.
pub(crate) fn locate_among<T: TableRead>(
    alloc: Global,
    table: &T,
    keys: &[Key],
    criteria: &[Crit],
) -> Result<Located, QuestionError>
    requires { IsSorted (row_cmp (T.schema table.now) keys.now) (T.rows table.now) }
    ensures { Answers (λ at. at) (placed (record { schema = T.schema table.now; rows = T.rows table.now }) keys.now criteria.now) result }
{
    let values = tested(alloc, table.schema(), criteria)?;
    if !begin(criteria, keys) {
        return Err(QuestionError::Unsorted);
    }
    let position = lower(table, keys, values.as_slice());
    let count = run_of(table, values.as_slice(), position);
    Ok(Located {
        position: position as u64,
        count: count as u64,
    })
}

/// How many rows have the values of the criteria, one behind the other from a place on.
fn run_of<T: TableRead>(table: &T, criteria: &[Criterion], from: usize) -> usize
    requires asked { range_due criteria.now (T.schema table.now) ≡ None }
    requires from { from ≤ length (T.rows table.now) }
    ensures within { from + result ≤ length (T.rows table.now) }
    ensures inside { (k : ℕ) → from ≤ k → k < from + result → is_in_range (T.schema table.now) criteria.now (slice_index_or (T.rows table.now) k []) ≡ true }
    ensures ends { from + result < length (T.rows table.now) → is_in_range (T.schema table.now) criteria.now (slice_index_or (T.rows table.now) (from + result) []) ≡ false }
{
    for end in from..table.size() {
        if !is_in_range(table, end, criteria) {
            return end - from;
        }
    }
    table.size() - from
}
