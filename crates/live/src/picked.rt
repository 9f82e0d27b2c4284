//! The rows of a watch as a table: those of the root at the positions in which they stand there.
ghost use Rattle.std.specs.Prelude.{◌≡◌, ◌<◌, ◌≤◌, [], All, length, slice_index, IfOk};
ghost use Rattle.std.specs.Option.{ForSome};
ghost use Rattle.mk_value.specs.Data.{Datum};
ghost use Rattle.mk_value.specs.Limits.{max_rows};
ghost use Rattle.relations.specs.Rows.{rows_at};
ghost use Rattle.live.specs.Chains.{AreLinked, LeadTo, seen};
ghost use Rattle.live.specs.Putting.{spelled};
ghost use Rattle.live.specs.Watching.{IsAsked, positions};

use crate::chain::root_place;
use crate::op::WatchOp;
use crate::watch::Watch;
use mk_value::{Lent, Memory, Schema, TableRead, Value};
use places::Places;
use relations::{positions_in_range, positions_ordered};
use std::alloc::Global;
use std::cmp::Ordering;

/// The rows of a table at these positions.
#[derive(Drop)]
pub(crate) struct Picked<'a, T: TableRead> {
    pub rows: &'a T,
    pub at: &'a [u32],
    pub ghost within: { All (λ i. i < length (T.rows rows.now)) at.now },
    pub ghost few: { length at.now ≤ max_rows },
}

impl<'a, T: TableRead> Picked<'a, T> {
    /// Where a row stands in the table.
    fn place(&self, row: usize) -> usize
        requires { row < length self.now.at.now }
        ensures value { result ≡ slice_index self.now.at.now row }
        ensures within { result < length (T.rows self.now.rows.now) }
    {
        self.at[row] as usize
    }
}

impl<'a, T: TableRead> TableRead for Picked<'a, T> {
    ghost schema = { λ p. T.schema p.rows.now };

    ghost rows = { λ p. rows_at (T.rows p.rows.now) p.at.now };

    fn schema(&self) -> &Schema {
        self.rows.schema()
    }

    fn size(&self) -> usize {
        let _size = self.rows.size();
        self.at.len()
    }

    fn get(&self, row: usize, col: usize) -> Result<Value, Memory> {
        self.rows.get(self.place(row), col)
    }

    fn lend(&self, row: usize, col: usize) -> Lent<'_> {
        self.rows.lend(self.place(row), col)
    }

    fn cmp_cell(&self, row: usize, col: usize, with: &Value) -> Ordering {
        self.rows.cmp_cell(self.place(row), col, with)
    }

    fn cmp_rows(&self, a: usize, b: usize, col: usize) -> Ordering {
        self.rows.cmp_rows(self.place(a), self.place(b), col)
    }
}

/// The positions of the rows that a watch shows of a table, in one list, a sorting without keys by all properties that are no views.
fn flat_positions<T: TableRead>(alloc: Global, rows: &T, op: &WatchOp) -> Result<Vec<u32>, Memory>
    requires { IsAsked (T.schema rows.now) op.now }
    ensures { IfOk result (λ kept. kept.items ≡ positions (T.schema rows.now) (spelled (T.schema rows.now) op.now) (T.rows rows.now)) }
{
    let kept = match op {
        WatchOp::Range(criteria) => positions_in_range(alloc, rows, criteria.as_slice())?,
        WatchOp::Sort(keys) => positions_ordered(alloc, rows, keys.as_slice())?,
    };
    Ok(kept.into_vec())
}

/// The same in chunks.
fn positions_of<T: TableRead>(alloc: Global, rows: &T, op: &WatchOp) -> Result<Places, Memory>
    requires { IsAsked (T.schema rows.now) op.now }
    ensures { IfOk result (λ kept. kept.list ≡ positions (T.schema rows.now) (spelled (T.schema rows.now) op.now) (T.rows rows.now)) }
{
    let _size = rows.size();
    let flat = flat_positions(alloc, rows, op)?;
    Ok(Places::of(alloc, &flat)?)
}

/// Where the rows of a watch stand in the table.
fn root_places<T: TableRead>(
    alloc: Global,
    watches: &[Watch],
    over: usize,
    rows: &T,
) -> Result<Vec<u32>, Memory>
    requires linked { AreLinked (T.rows rows.now) watches.now }
    requires there { over < length watches.now }
    ensures { IfOk result (λ places. LeadTo (T.rows rows.now) watches.now over places.items) }
{
    let _size = rows.size();
    let mut places = Vec::new(alloc);
    for row in 0..watches[over].len() {
        places.push(root_place(watches, Some(over), row) as u32)?;
    }
    Ok(places)
}

/// The positions of the rows that a watch over a source shows.
pub(crate) fn seen_positions<T: TableRead>(
    alloc: Global,
    watches: &[Watch],
    over: Option<usize>,
    op: &WatchOp,
    rows: &T,
) -> Result<Places, Memory>
    requires asked { IsAsked (T.schema rows.now) op.now }
    requires linked { AreLinked (T.rows rows.now) watches.now }
    requires there { ForSome over (λ w. w < length watches.now) }
    ensures { IfOk result (λ kept. kept.list ≡ positions (T.schema rows.now) (spelled (T.schema rows.now) op.now) (seen (T.rows rows.now) watches.now over)) }
{
    let Some(over) = over else {
        return positions_of(alloc, rows, op);
    };
    let at = root_places(alloc, watches, over, rows)?;
    let picked = Picked { rows, at: &at };
    positions_of(alloc, &picked, op)
}
