//! An index of rows by their whole values.
ghost use Rattle.std.specs.Prelude.{◌≡◌, ◌<◌, ◌≤◌, [], All, length, map, slice_index_or, IfOk};
ghost use Rattle.mk_value.specs.Limits.{max_rows};
ghost use Rattle.relations.specs.Equality.{is_row_among};
ghost use Rattle.grouping.specs.Index.{IsOrderOf, first_positions, keys_less, keys_of, numbers, positions_of};

use crate::entry::Entry;
use crate::groups::{end_of, part, starts_of};
use mk_value::{Memory, Positions, Row, Rows};
use relations::cmp_whole_row;
use std::alloc::Global;
use std::marker::Model;

/// An index of a list of rows, which contracts see as that list. The rows that are the same make a group; groups are counted
/// from 0, ascending by the order of whole rows.
#[derive(Drop)]
pub struct RowIndex {
    rows: Rows,
    /// The positions of the rows in the order of whole rows, ties by position.
    order: Vec<u32>,
    /// The places of the order at which groups begin.
    starts: Vec<u32>,
}

impl Model for RowIndex {
    ghost use Rattle.std.specs.Prelude.{List};
    ghost use Rattle.mk_value.specs.Data.{Datum};
    ghost use Rattle.mk_value.specs.DataCode.{rows_code};
    ghost use Rattle.grouping.specs.Index.{IsIndexOf};

    ghost Value = { List (List Datum) };

    ghost coded = { rows_code };

    ghost view = { λ x. x.rows };

    ghost invariant = { λ x. IsIndexOf x.rows x.order.items x.starts.items };
}

impl RowIndex {
    /// The index of these rows. It costs n log n comparisons of rows.
    pub fn new(alloc: Global, rows: Rows) -> Result<RowIndex, Memory>
        requires { length rows ≤ max_rows }
        ensures { IfOk result (λ index. index ≡ rows) }
    {
        let order = order_of(alloc, &rows)?;
        let starts = starts_of(alloc, &rows, &order)?;
        Ok(RowIndex {
            rows,
            order,
            starts,
        })
    }

    /// The positions of the rows that are the same as this one, ascending. It takes no memory.
    pub fn positions(&self, row: &Row) -> &[u32]
        ensures { result.now ≡ positions_of self.now row.now }
    {
        let group = self.search(row);
        if group >= self.groups() {
            return &[];
        }
        if cmp_whole_row(self.key(group), row).is_ne() {
            return &[];
        }
        self.group(group)
    }

    /// Whether a row of the list is the same as this one. It takes no memory.
    pub fn has(&self, row: &Row) -> bool
        ensures { result ≡ is_row_among self.now row.now }
    {
        let group = self.search(row);
        if group >= self.groups() {
            return false;
        }
        cmp_whole_row(self.key(group), row).is_eq()
    }

    /// The number of groups.
    pub fn groups(&self) -> usize
        ensures { result ≡ length (keys_of self.now) }
    {
        self.starts.len()
    }

    /// The row that those of a group are the same as.
    pub fn key(&self, group: usize) -> &Row
        requires { group < length (keys_of self.now) }
        ensures { result.now ≡ slice_index_or (keys_of self.now) group [] }
    {
        let first = self.order[self.starts[group] as usize];
        &self.rows.as_slice()[first as usize]
    }

    /// The positions of the rows of a group, ascending.
    pub fn group(&self, group: usize) -> &[u32]
        requires { group < length (keys_of self.now) }
        ensures { result.now ≡ positions_of self.now (slice_index_or (keys_of self.now) group []) }
    {
        let start = self.starts[group] as usize;
        let end = end_of(&self.starts, group, self.order.len());
        part(&self.order, start, end)
    }
}

impl RowIndex {
    /// The positions of the first row of each group, ascending.
    pub(crate) fn firsts(&self, alloc: Global) -> Result<Positions, Memory>
        ensures { IfOk result (λ firsts. firsts ≡ first_positions self.now) }
    {
        let mut firsts = Vec::new(alloc);
        for group in 0..self.groups() {
            firsts.push(self.group(group)[0])?;
        }
        firsts.sort_unstable();
        Ok(Positions::from(firsts))
    }

    /// The number of groups whose rows are less than this one.
    fn search(&self, row: &Row) -> usize
        ensures { result ≡ keys_less self.now row.now }
    {
        let mut low = 0;
        let mut high = self.groups();
        while low < high {
            let middle = low + (high - low) / 2;
            if cmp_whole_row(self.key(middle), row).is_lt() {
                low = middle + 1;
            } else {
                high = middle;
            }
        }
        low
    }
}

/// The positions of the rows, in the order of whole rows, ties by position.
fn order_of(alloc: Global, rows: &Rows) -> Result<Vec<u32>, Memory>
    requires { length rows.now ≤ max_rows }
    ensures order { IfOk result (λ order. IsOrderOf rows.now order.items) }
    ensures len { IfOk result (λ order. length order.items ≡ length rows.now) }
{
    let mut entries = entries_of(alloc, rows)?;
    entries.sort_unstable();
    let mut order = Vec::new(alloc);
    for entry in entries.iter() {
        order.push(entry.at)?;
    }
    Ok(order)
}

/// The rows with their positions.
fn entries_of<'a>(alloc: Global, rows: &'a Rows) -> Result<Vec<Entry<'a>>, Memory>
    requires { length rows.now ≤ max_rows }
    ensures numbers { IfOk result (λ entries. map (λ e. e.at) entries.items ≡ numbers (length rows.now)) }
    ensures rows { IfOk result (λ entries. All (λ e. e.row.now ≡ slice_index_or rows.now e.at []) entries.items) }
{
    let mut entries = Vec::new(alloc);
    for (at, row) in rows.as_slice().iter().enumerate() {
        entries.push(Entry { row, at: at as u32 })?;
    }
    Ok(entries)
}
