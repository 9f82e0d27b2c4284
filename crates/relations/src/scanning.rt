//! Rows that are asked one after another whether they lie within bounds.
//!
//! What the first criterion asks is found once for a scan: numbers are read by blocks, and of two equal bounds one is compared. The
//! other criteria are asked only of rows that pass the first.
ghost use Rattle.std.specs.Prelude.{◌≡◌, ◌<◌, ◌≤◌, ℕ, [], drop, length, slice_index, slice_index_or, IfOk, pos};
ghost use Rattle.mk_value.specs.Data.{cell};
ghost use Rattle.mk_value.specs.Tables.{AreNumbers, IsComparable, column_numbers, domain_at};
ghost use Rattle.mk_value.specs.Values.{datum_of};
ghost use Rattle.relations.specs.Criteria.{is_in_range, is_within as is_value_within};
ghost use Rattle.relations.specs.Positions.{AreResolved};
ghost use Rattle.relations.specs.Scanning.{IsFirstLead, IsLead, IsLeadOf, IsWindow};

use crate::columns::Columns;
use crate::criteria::Criterion;
use crate::order::cmp_whole_value;
use mk_value::{Memory, TableRead, Value};
use std::alloc::Global;

/// How many numbers are read together.
const BLOCK: usize = 1024;

/// What a criterion asks of a value.
#[derive(Clone, Copy, Debug)]
pub(crate) enum Lead {
    /// To be a number at or between two numbers.
    Numbers(i64, i64),
    /// To be one value.
    One,
    /// To lie at or between two values.
    Between,
}

/// Numbers of a column that were read together, those of the rows from one up to another.
#[derive(Debug, Drop)]
pub(crate) struct Window {
    from: usize,
    until: usize,
    numbers: Vec<i64>,
}

impl Window {
    /// Place for the numbers of a table of so many rows; none is read yet.
    pub(crate) fn new<T: TableRead>(alloc: Global, table: &T) -> Result<Window, Memory>
        ensures { IfOk result (λ window. (col : ℕ) → IsWindow (T.rows table.now) col window) }
    {
        let numbers = vec![in alloc; 0; table.size().min(BLOCK)]?;
        Ok(Window {
            from: 0,
            until: 0,
            numbers,
        })
    }

    /// The number at a row. Where it is not held it is read, with those behind it.
    fn number<T: TableRead>(&mut self, table: &T, col: usize, row: usize) -> i64
        requires row_in { row < length (T.rows table.now) }
        requires col_in { col < length (T.schema table.now) }
        requires numbers { AreNumbers (domain_at (T.schema table.now) col) }
        requires held { IsWindow (T.rows table.now) col self.old }
        ensures value { result ≡ slice_index_or (column_numbers (T.rows table.now) col) row (pos 0) }
        ensures held { IsWindow (T.rows table.now) col self.new }
    {
        self.hold(table, col, row);
        self.numbers[row - self.from]
    }

    /// Reads the number of a row where it is not held, with those behind it.
    fn hold<T: TableRead>(&mut self, table: &T, col: usize, row: usize)
        requires row_in { row < length (T.rows table.now) }
        requires col_in { col < length (T.schema table.now) }
        requires numbers { AreNumbers (domain_at (T.schema table.now) col) }
        requires held { IsWindow (T.rows table.now) col self.old }
        ensures held { IsWindow (T.rows table.now) col self.new }
        ensures from { self.new.from ≤ row }
        ensures until { row < self.new.until }
    {
        if row < self.from || self.until <= row {
            self.read(table, col, row);
        }
    }

    /// Reads the numbers of a row and of those behind it, and of rows before it where too few are behind.
    fn read<T: TableRead>(&mut self, table: &T, col: usize, row: usize)
        requires row_in { row < length (T.rows table.now) }
        requires col_in { col < length (T.schema table.now) }
        requires numbers { AreNumbers (domain_at (T.schema table.now) col) }
        requires held { IsWindow (T.rows table.now) col self.old }
        ensures held { IsWindow (T.rows table.now) col self.new }
        ensures from { self.new.from ≤ row }
        ensures until { row < self.new.until }
    {
        let count = self.numbers.len();
        let from = row.min(table.size() - count);
        table.fill(col, from, self.numbers.as_mut_slice());
        self.from = from;
        self.until = from + count;
    }
}

/// What the first criterion asks, if there is one.
pub(crate) fn first_lead(criteria: &[Criterion]) -> Lead
    ensures { IsFirstLead criteria.now result }
{
    match criteria.first() {
        Some(criterion) => lead_of(criterion),
        None => Lead::Between,
    }
}

/// What a criterion asks.
fn lead_of(criterion: &Criterion) -> Lead
    ensures { IsLeadOf criterion.now.low criterion.now.high result }
{
    match (&criterion.low, &criterion.high) {
        (Value::I(low), Value::I(high)) => Lead::Numbers(i64::from(*low), i64::from(*high)),
        (Value::L(low), Value::L(high)) => Lead::Numbers(*low, *high),
        (low, high) => lead_of_values(low, high),
    }
}

/// What two bounds ask of values that are no numbers.
fn lead_of_values(low: &Value, high: &Value) -> Lead
    ensures { IsLeadOf (datum_of low.now) (datum_of high.now) result }
{
    if cmp_whole_value(low, high).is_eq() {
        Lead::One
    } else {
        Lead::Between
    }
}

/// Whether a row lies within the bounds, by what the first criterion asks.
pub(crate) fn passes_by<T: TableRead>(
    table: &T,
    columns: &Columns,
    criteria: &[Criterion],
    lead: Lead,
    window: &mut Window,
    row: usize,
) -> bool
    requires resolved { AreResolved (T.schema table.now) criteria.now columns.now }
    requires lead { IsFirstLead criteria.now lead }
    requires held { IsWindow (T.rows table.now) (slice_index columns.now 0) window.old }
    requires row_in { row < length (T.rows table.now) }
    ensures value { result ≡ is_in_range (T.schema table.now) criteria.now (slice_index_or (T.rows table.now) row []) }
    ensures held { IsWindow (T.rows table.now) (slice_index columns.now 0) window.new }
{
    if criteria.is_empty() {
        return true;
    }
    let col = columns.as_slice()[0];
    is_within_by(table, col, &criteria[0], lead, window, row)
        && passes(table, columns, criteria, 1, row)
}

/// Whether a value lies within the bounds of a criterion, by what it asks.
fn is_within_by<T: TableRead>(
    table: &T,
    col: usize,
    criterion: &Criterion,
    lead: Lead,
    window: &mut Window,
    row: usize,
) -> bool
    requires row_in { row < length (T.rows table.now) }
    requires col_in { col < length (T.schema table.now) }
    requires low { IsComparable criterion.now.low (domain_at (T.schema table.now) col) }
    requires high { IsComparable criterion.now.high (domain_at (T.schema table.now) col) }
    requires lead { IsLead criterion.now lead }
    requires held { IsWindow (T.rows table.now) col window.old }
    ensures value { result ≡ is_value_within criterion.now (cell (T.rows table.now) row col) }
    ensures held { IsWindow (T.rows table.now) col window.new }
{
    match lead {
        Lead::Numbers(low, high) => {
            // Its size says that each value is of its column's kind.
            let _size = table.size();
            let number = window.number(table, col, row);
            low <= number && number <= high
        }
        Lead::One => table.cmp_cell(row, col, &criterion.low).is_eq(),
        Lead::Between => is_within(table, row, col, criterion),
    }
}

/// Whether a row lies within the bounds of the criteria from one on.
fn passes<T: TableRead>(
    table: &T,
    columns: &Columns,
    criteria: &[Criterion],
    first: usize,
    row: usize,
) -> bool
    requires resolved { AreResolved (T.schema table.now) criteria.now columns.now }
    requires row_in { row < length (T.rows table.now) }
    ensures { result ≡ is_in_range (T.schema table.now) (drop first criteria.now) (slice_index_or (T.rows table.now) row []) }
{
    let columns = columns.as_slice();
    for at in first..criteria.len() {
        let criterion = &criteria[at];
        if !is_within(table, row, columns[at], criterion) {
            return false;
        }
    }
    true
}

/// Whether a value lies within the bounds of a criterion.
pub(crate) fn is_within<T: TableRead>(
    table: &T,
    row: usize,
    col: usize,
    criterion: &Criterion,
) -> bool
    requires row_in { row < length (T.rows table.now) }
    requires col_in { col < length (T.schema table.now) }
    requires low { IsComparable criterion.now.low (domain_at (T.schema table.now) col) }
    requires high { IsComparable criterion.now.high (domain_at (T.schema table.now) col) }
    ensures { result ≡ is_value_within criterion.now (cell (T.rows table.now) row col) }
{
    table.cmp_cell(row, col, &criterion.low).is_ge()
        && table.cmp_cell(row, col, &criterion.high).is_le()
}
