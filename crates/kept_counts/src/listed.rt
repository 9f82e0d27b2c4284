//! A list of what is kept of views: what is found in it, and what is done to all.
ghost use Rattle.std.specs.Prelude.{◌≡◌, ◌<◌, ◌≤◌, ◌++◌, ◌∷◌, [], List, true, length, position, IfSome, OnOk, OnErr};
ghost use Rattle.std.specs.Option.{ForSome, is_none};
ghost use Rattle.mk_value.specs.Data.{Datum};
ghost use Rattle.mk_value.specs.Names.{same_bytes};
ghost use Rattle.row_edits.specs.Edits.{IsInRange, edited};
ghost use Rattle.kept_counts.specs.Following.{AreEach, Follows, FollowsOn, Forgets, Notes};
ghost use Rattle.kept_counts.specs.Keeping.{AllHaveNoted, AreCountedOver, Counted, counted_by, is_kept, is_of, kept_by};

use crate::entry::Entry;
use mk_value::{Memory, Name};
use row_edits::{Line, RowEdit};
use tables::Shared;
use viewers::Law;

/// Whether the counts of a view by these keys are kept.
pub(crate) fn has_counts(list: &[Entry], view: &Name, keys: &[Name]) -> bool
    ensures { result ≡ is_kept list.now view.now (counted_by keys.now) }
{
    list.iter().any(|entry| entry.is_counts(view, keys))
}

/// Whether what the law keeps of a view by these properties is kept.
pub(crate) fn has_filter(list: &[Entry], view: &Name, law: Law, props: &[Name]) -> bool
    ensures { result ≡ is_kept list.now view.now (kept_by law props.now) }
{
    list.iter().any(|entry| entry.is_filter(view, law, props))
}

/// The place of the counts of a view by these keys.
pub(crate) fn find_counts(list: &[Entry], view: &Name, keys: &[Name]) -> Option<usize>
    ensures { result ≡ position (is_of view.now (counted_by keys.now)) list.now }
{
    list.iter().position(|entry| entry.is_counts(view, keys))
}

/// The place of what the law keeps of a view by these properties.
pub(crate) fn find_filter(list: &[Entry], view: &Name, law: Law, props: &[Name]) -> Option<usize>
    ensures { result ≡ position (is_of view.now (kept_by law props.now)) list.now }
{
    list.iter()
        .position(|entry| entry.is_filter(view, law, props))
}

/// The place of the first that keeps nothing.
pub(crate) fn find_blank(list: &[Entry]) -> Option<usize>
    ensures { result ≡ position (λ (e : Counted). is_none e.kept) list.now }
{
    list.iter().position(|entry| entry.is_blank())
}

/// Puts one behind the others.
pub(crate) fn push(list: &mut Vec<Entry>, entry: Entry) -> Result<(), Memory>
    ensures ok { OnOk result (list.new.items ≡ list.old.items ++ entry ∷ []) }
    ensures err { OnErr result (list.new.items ≡ list.old.items) }
{
    list.push(entry)?;
    Ok(())
}

/// What is kept of a view notes an edit of its rows before it is made.
pub(crate) fn note_all(list: &mut [Entry], view: &Name, rows: &Shared, edit: RowEdit)
    requires kept { AreCountedOver view.now rows.now.schema rows.now.rows list.old }
    requires range { IsInRange edit (length rows.now.rows) }
    ensures { AreEach (Notes view.now rows.now.schema rows.now.rows edit) list.old list.new }
{
    for entry in list.iter_mut() {
        entry.note(view, rows, edit);
    }
}

/// What is kept of a view is dropped.
pub(crate) fn forget_all(list: &mut [Entry], view: &Name)
    ensures { AreEach (Forgets view.now) list.old list.new }
{
    for entry in list.iter_mut() {
        entry.forget(view);
    }
}

/// What is kept of a view follows the edit of its rows that it noted. Nothing is dropped.
pub(crate) fn follow_all(list: &mut [Entry], view: &Name, rows: &Shared, edit: RowEdit)
    requires noted { (before : List (List Datum)) × AllHaveNoted view.now rows.now.schema before edit list.old × ((row : List Datum) × (rows.now.rows ≡ edited row edit before)) }
    ensures { AreEach (FollowsOn view.now rows.now.schema rows.now.rows) list.old list.new }
{
    for entry in list.iter_mut() {
        entry.follow(view, rows, edit);
    }
}

/// What is kept of a view follows a line on it.
pub(crate) fn follow_line_all(list: &mut [Entry], view: &Name, line: &Line<'_, Shared>)
    requires kept { AreCountedOver view.now line.now.before.now.schema line.now.before.now.rows list.old }
    ensures { AreEach (Follows view.now line.now.before.now.schema line.now.after.now.rows) list.old list.new }
{
    for entry in list.iter_mut() {
        entry.follow_line(view, line);
    }
}
