//! What a line does to the rows of a view that is kept by key, as edits.
ghost use Rattle.std.specs.Prelude.{◌≡◌, ◌++◌, IfOk, OnOk};
ghost use Rattle.live.specs.Placing.{closed_by};
ghost use Rattle.mapped.specs.Index.{row_of};
ghost use Rattle.keyed_views.specs.Keyed.{edits_of, gone, home_of, other_than, put_by};
ghost use Rattle.keyed_views.specs.declared.keyed.KeyedEdit.TheVariants.{Change};

use mapped::HashIndex;
use mk_value::{Memory, Row};
use row_edits::{RowEdit, RowEdits};
use std::alloc::Global;

/// What a line does to the rows of a view that is kept by key. All rows that come with it are one row.
#[derive(Clone, Copy, Debug)]
pub enum KeyedEdit {
    /// A row comes before a place.
    Put {
        at: usize,
    },
    /// The row at a place goes, and the row that comes, which has its key, takes its place.
    Replace {
        at: usize,
    },
    /// The row at a place changes, and then the other row that has its key now goes, if there is one.
    Change {
        at: usize,
        other: Option<usize>,
    },
    /// The same, and then the row goes from there and comes before another place.
    Move {
        at: usize,
        other: Option<usize>,
        to: usize,
    },
    /// Rows go, from a place on.
    Remove {
        at: usize,
        count: usize,
    },
}

impl KeyedEdit {
    /// It as edits of rows, one after another.
    pub fn edits(self, alloc: Global) -> Result<RowEdits, Memory>
        ensures { IfOk result (λ edits. edits ≡ edits_of self) }
    {
        let mut edits = RowEdits::new(alloc);
        match self {
            KeyedEdit::Put { at } => edits.push(RowEdit::Insert { at, count: 1 })?,
            KeyedEdit::Replace { at } => {
                edits.push(RowEdit::Remove { at, count: 1 })?;
                edits.push(RowEdit::Insert { at, count: 1 })?;
            }
            KeyedEdit::Change { at, other } => {
                edits.push(RowEdit::Change { at })?;
                push_gone(&mut edits, other)?;
            }
            KeyedEdit::Move { at, other, to } => {
                edits.push(RowEdit::Change { at })?;
                push_gone(&mut edits, other)?;
                edits.push(RowEdit::Remove {
                    at: without(other, at),
                    count: 1,
                })?;
                edits.push(RowEdit::Insert { at: to, count: 1 })?;
            }
            KeyedEdit::Remove { at, count } => edits.push(RowEdit::Remove { at, count })?,
        }
        Ok(edits)
    }

    /// Where the row that comes stands after it, and 0 where none comes.
    pub fn home(self) -> usize
        ensures { result ≡ home_of self }
    {
        match self {
            KeyedEdit::Put { at } | KeyedEdit::Replace { at } => at,
            KeyedEdit::Change { at, other } => without(other, at),
            KeyedEdit::Move { to, .. } => to,
            KeyedEdit::Remove { .. } => 0,
        }
    }

    /// Puts a row of this key among rows that an index keeps: in the place of the row that has the key, or else before a place.
    pub fn put_hashed(index: &HashIndex, key: &Row, at: usize) -> KeyedEdit
        ensures { result ≡ put_by (row_of key.now index.now.keys) at }
    {
        match index.find(key) {
            Some(row) => KeyedEdit::Replace { at: row },
            None => KeyedEdit::Put { at },
        }
    }

    /// Gives the row at a place this key among rows that an index keeps: the other row that has it goes.
    pub fn set_hashed(index: &HashIndex, key: &Row, at: usize) -> KeyedEdit
        ensures { result ≡ Change at (other_than at (row_of key.now index.now.keys)) }
    {
        KeyedEdit::Change {
            at,
            other: other_than(at, index.find(key)),
        }
    }
}

/// The row, where it is another than the one at a place.
fn other_than(at: usize, row: Option<usize>) -> Option<usize>
    ensures { result ≡ other_than at row }
{
    match row {
        Some(row) if row == at => None,
        row => row,
    }
}

/// The place that a row has once another is gone, if one goes.
pub(crate) fn without(other: Option<usize>, at: usize) -> usize
    ensures { result ≡ closed_by other at }
{
    match other {
        Some(other) if other < at => at - 1,
        _ => at,
    }
}

/// Appends the removal of a row, if one goes.
fn push_gone(edits: &mut RowEdits, other: Option<usize>) -> Result<(), Memory>
    ensures { OnOk result (edits.new ≡ edits.old ++ gone other) }
{
    if let Some(at) = other {
        edits.push(RowEdit::Remove { at, count: 1 })?;
    }
    Ok(())
}
