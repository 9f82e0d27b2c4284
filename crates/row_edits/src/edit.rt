//! Edits of rows, and the events that they are.
ghost use Rattle.std.specs.Prelude.{◌≡◌, ◌+◌, ◌<◌, ◌≤◌, ◌^◌, length};
ghost use Rattle.mk_value.specs.Limits.{max_rows};
ghost use Rattle.row_edits.specs.Edits.{AreInRange, IsInRange};
ghost use Rattle.row_edits.specs.Events.{begun, count_all, count_of, event_of};

use crate::event::Event;
use mk_value::Sequence;

/// An edit of a list of rows.
#[derive(Clone, Copy, Debug)]
pub enum RowEdit {
    /// Copies of a row come in before a place.
    Insert { at: usize, count: usize },
    /// Rows go, from a place on.
    Remove { at: usize, count: usize },
    /// The row at a place changes.
    Change { at: usize },
}

/// Edits, one after another. All rows that come with them are one row.
pub type RowEdits = Sequence<RowEdit>;

impl RowEdit {
    /// How many events it is: one for each row that comes, goes or changes.
    pub fn count(self) -> usize
        ensures { result ≡ count_of self }
    {
        match self {
            RowEdit::Insert { count, .. } | RowEdit::Remove { count, .. } => count,
            RowEdit::Change { .. } => 1,
        }
    }

    /// The event of a number: rows come one behind the other, and go from one place.
    pub fn event(self, number: usize) -> Event
        requires small { number < count_of self }
        requires in_range { (size : _) × IsInRange self size × (size ≤ max_rows) }
        ensures { result ≡ event_of self number }
    {
        match self {
            RowEdit::Insert { at, .. } => Event::Insert(at + number),
            RowEdit::Remove { at, .. } => Event::Remove(at),
            RowEdit::Change { at } => Event::Change(at),
        }
    }

    /// As much of it as its first events are.
    pub fn begun(self, events: usize) -> RowEdit
        ensures { result ≡ begun events self }
    {
        match self {
            RowEdit::Insert { at, .. } => RowEdit::Insert { at, count: events },
            RowEdit::Remove { at, .. } => RowEdit::Remove { at, count: events },
            RowEdit::Change { at } if events == 0 => RowEdit::Remove { at, count: 0 },
            RowEdit::Change { at } => RowEdit::Change { at },
        }
    }
}

/// How many events the edits are, which may be made of so many rows; with more than a number of 64 bits has, that number.
pub fn count_events(edits: &[RowEdit]) -> usize
    requires { count_all edits.now < 2 ^ 64 }
    ensures { result ≡ count_all edits.now }
{
    let mut count = 0;
    for edit in edits {
        count += edit.count();
    }
    count
}
