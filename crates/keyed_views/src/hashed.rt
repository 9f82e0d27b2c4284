//! An index follows a line.
ghost use Rattle.std.specs.Prelude.{◌≡◌, ◌≤◌, ◌+◌, [], length, true, None, Some};
ghost use Rattle.mapped.specs.Index.{row_of};
ghost use Rattle.keyed_views.specs.Keyed.{IsHashed, edits_of};
ghost use Rattle.keyed_views.specs.declared.keyed.KeyedEdit.TheVariants.{Change};
ghost use Rattle.row_edits.specs.Edits.{edited, edited_by};
ghost use Rattle.row_edits.specs.declared.edit.RowEdit.TheVariants as row_edit;

use crate::keyed::{KeyedEdit, without};
use mapped::{Event, HashIndex};
use mk_value::Row;

/// An index follows a line with which a row of this key comes: the keys are edited as the rows are. Two events are reserved. It takes no
/// memory.
pub fn follow_hashed(index: &mut HashIndex, edit: KeyedEdit, key: Row)
    requires reserved { 2 ≤ index.old.spare }
    requires hashed { IsHashed edit key index.old.keys }
    ensures keys { index.new.keys ≡ edited_by key (edits_of edit) index.old.keys }
{
    let _size = index.len();
    match edit {
        KeyedEdit::Put { at } => index.follow(&Event::Insert(at), Some(key)),
        KeyedEdit::Change { at, other } => follow_change(index, at, other, key),
        // The row that comes has the key of the one that goes.
        KeyedEdit::Replace { at: _ } => drop(key),
        KeyedEdit::Move { .. } | KeyedEdit::Remove { .. } => unreachable!(),
    }
}

/// The row at a place changes, and the other row of its key goes, if there is one.
fn follow_change(index: &mut HashIndex, at: usize, other: Option<usize>, key: Row)
    requires reserved { 2 ≤ index.old.spare }
    requires hashed { IsHashed (Change at other) key index.old.keys }
    ensures keys { index.new.keys ≡ edited_by key (edits_of (Change at other)) index.old.keys }
{
    let _size = index.len();
    match other {
        None => follow_own(index, at, key),
        Some(other) => follow_both(index, at, other, key),
    }
}

/// The row at a place changes, and no other row has its key. Where it has the key that it had there is nothing to do.
fn follow_own(index: &mut HashIndex, at: usize, key: Row)
    requires reserved { 2 ≤ index.old.spare }
    requires hashed { IsHashed (Change at None) key index.old.keys }
    ensures keys { index.new.keys ≡ edited_by key (edits_of (Change at None)) index.old.keys }
{
    let _size = index.len();
    if has_at(index, &key, at) {
        return;
    }
    index.follow(&Event::Change(at), Some(key));
}

/// Whether the row at a place has the key.
fn has_at(index: &HashIndex, key: &Row, at: usize) -> bool
    ensures { result ≡ true → (row_of key.now index.now.keys ≡ Some at) }
{
    match index.find(key) {
        Some(row) => row == at,
        None => false,
    }
}

/// The row at a place changes, and the other row of its key goes. The index follows the removal first, so that the keys are distinct after
/// each.
fn follow_both(index: &mut HashIndex, at: usize, other: usize, key: Row)
    requires reserved { 2 ≤ index.old.spare }
    requires hashed { IsHashed (Change at (Some other)) key index.old.keys }
    ensures keys { index.new.keys ≡ edited_by key (edits_of (Change at (Some other))) index.old.keys }
{
    let _size = index.len();
    index.follow(&Event::Remove(other), None);
    index.follow(&Event::Change(without(Some(other), at)), Some(key));
}

/// An index follows the removal of rows, from a place on, in one pass. It takes no memory and no room.
pub fn follow_removal(index: &mut HashIndex, at: usize, count: usize)
    requires { at + count ≤ length index.old.keys }
    ensures keys { index.new.keys ≡ edited [] (row_edit.Remove at count) index.old.keys }
{
    index.remove(at, count);
}
