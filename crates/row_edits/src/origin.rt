//! Where a row that stands after edits stood before them.
ghost use Rattle.std.specs.Prelude.{◌≡◌, ℕ, List, length};
ghost use Rattle.mk_value.specs.Data.{Datum};
ghost use Rattle.row_edits.specs.Edits.{AreInRange, IsInRange, size_after, size_by};
ghost use Rattle.row_edits.specs.Origins.{ComesFrom, StandAfter, StandsAfter, stood_at};

use crate::edit::RowEdit;

/// Where a row that stands after an edit stood before it, or none where it came with the edit.
pub(crate) fn origin_in(edit: RowEdit, row: usize) -> Option<usize>
    requires { (size : ℕ) × StandsAfter edit row size }
    ensures { result ≡ stood_at edit row }
{
    match edit {
        RowEdit::Insert { at, count } => {
            if row < at {
                Some(row)
            } else if row < at + count {
                None
            } else {
                Some(row - count)
            }
        }
        RowEdit::Remove { at, count } => {
            if row < at {
                Some(row)
            } else {
                Some(row + count)
            }
        }
        RowEdit::Change { at } => { if row == at { None } else { Some(row) } }
    }
}

/// Where a row that stands after edits stood before them, or none where it came with them.
pub(crate) fn origin(edits: &[RowEdit], row: usize) -> Option<usize>
    requires { (size : ℕ) × StandAfter edits.now row size }
    ensures { (came : List Datum) (rows : List (List Datum)) → StandAfter edits.now row (length rows) → ComesFrom edits.now row result came rows }
{
    let mut left = edits.len();
    let mut at = row;
    while left > 0 {
        left -= 1;
        match origin_in(edits[left], at) {
            Some(before) => at = before,
            None => return None,
        }
    }
    Some(at)
}

/// How many rows there are after an edit of so many.
pub(crate) fn size_after(edit: RowEdit, size: usize) -> usize
    requires { IsInRange edit size }
    ensures { result ≡ size_after edit size }
{
    match edit {
        RowEdit::Insert { count, .. } => size + count,
        RowEdit::Remove { count, .. } => size - count,
        RowEdit::Change { .. } => size,
    }
}

/// How many rows there are after edits of so many.
pub(crate) fn size_by(edits: &[RowEdit], size: usize) -> usize
    requires { AreInRange edits.now size }
    ensures { result ≡ size_by edits.now size }
{
    let mut rows = size;
    for edit in edits {
        rows = size_after(*edit, rows);
    }
    rows
}
