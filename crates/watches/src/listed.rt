//! A list of the watches of views: those of a view found, and what is asked of all and done to all.
ghost use Rattle.std.specs.Prelude.{◌≡◌, ◌<◌, ◌≤◌, ◌++◌, ◌∷◌, [], List, true, All, length, position, IfOk, Some, OnOk, OnErr};
ghost use Rattle.std.specs.List.{list_any};
ghost use Rattle.watches.specs.Lines.{room_for};
ghost use Rattle.live.specs.Edits.{room_of};
ghost use Rattle.mk_value.specs.Data.{Datum};
ghost use Rattle.mk_value.specs.Names.{same_bytes};
ghost use Rattle.row_edits.specs.Edits.{IsInRange, edited};
ghost use Rattle.row_edits.specs.Events.{count_all, count_of};
ghost use Rattle.watches.specs.Groups.{AreEach, Follows, Forgets, Notes, Stays};
ghost use Rattle.watches.specs.Keeping.{AreKeptOver, HasRoom, HaveNoted, HaveRoom, Kept, followed, followed_of};
ghost use Rattle.watches.specs.Watches.{Shown, count, is_among, stands_over};

use crate::followed::Followed;
use mk_value::{Memory, Name};
use row_edits::{Line, RowEdit};
use tables::Shared;

/// How many watches there are.
pub(crate) fn count(list: &[Followed]) -> usize
    requires { count (followed list.now) ≤ 64 }
    ensures { result ≡ count (followed list.now) }
{
    let mut count = 0;
    for watches in list {
        count += watches.len();
    }
    count
}

/// Whether a watch has the name.
pub(crate) fn is_watch(list: &[Followed], name: &Name) -> bool
    ensures { result ≡ list_any (λ (k : Kept). is_among (followed_of k).watches name.now) list.now }
{
    list.iter().any(|watches| watches.has(name))
}

/// Whether a watch stands over the view of the name.
pub(crate) fn is_watched(list: &[Followed], view: &Name) -> bool
    ensures { result ≡ list_any (λ (k : Kept). same_bytes k.view view.now) list.now }
{
    list.iter().any(|watches| watches.is_of(view))
}

/// Whether a watch stands over the watch of the name.
pub(crate) fn has_over(list: &[Followed], name: &Name) -> bool
    ensures { result ≡ list_any (λ (k : Kept). list_any (λ (s : Shown). stands_over (followed_of k).watches name.now s.source) (followed_of k).watches) list.now }
{
    list.iter().any(|watches| watches.has_over(name))
}

/// The place of the view among whose watches one has the name.
pub(crate) fn find(list: &[Followed], name: &Name) -> Option<usize>
    ensures { result ≡ position (λ (k : Kept). is_among (followed_of k).watches name.now) list.now }
{
    list.iter().position(|watches| watches.has(name))
}

/// The place of the view among whose watches one has the name, which a watch has.
pub(crate) fn at(list: &[Followed], name: &Name) -> usize
    requires { list_any (λ (k : Kept). is_among (followed_of k).watches name.now) list.now ≡ true }
    ensures { position (λ (k : Kept). is_among (followed_of k).watches name.now) list.now ≡ Some result }
{
    find(list, name).unwrap()
}

/// The place of the view of the name among those that are watched.
pub(crate) fn find_view(list: &[Followed], view: &Name) -> Option<usize>
    ensures { result ≡ position (λ (k : Kept). same_bytes k.view view.now) list.now }
{
    list.iter().position(|watches| watches.is_of(view))
}

/// Puts the watches of a view behind those of the others.
pub(crate) fn push(list: &mut Vec<Followed>, watches: Followed) -> Result<(), Memory>
    ensures ok { OnOk result (list.new.items ≡ list.old.items ++ watches ∷ []) }
    ensures err { OnErr result (list.new.items ≡ list.old.items) }
{
    list.push(watches)?;
    Ok(())
}

/// Lays so many chunks more aside for each watch of a view.
pub(crate) fn reserve_all(list: &mut [Followed], view: &Name, more: usize) -> Result<(), Memory>
    ensures stay { AreEach Stays list.old list.new }
    ensures room { OnOk result (HaveRoom view.now more list.new) }
{
    for watches in list.iter_mut() {
        watches.reserve(view, more)?;
    }
    Ok(())
}

/// The watches of a view note an edit of its rows before it is made.
pub(crate) fn note_all(list: &mut [Followed], view: &Name, rows: &Shared, edit: RowEdit)
    requires kept { AreKeptOver view.now rows.now.schema rows.now.rows list.old }
    requires range { IsInRange edit (length rows.now.rows) }
    requires room { HaveRoom view.now (room_of edit) list.old }
    ensures { AreEach (Notes view.now rows.now.schema rows.now.rows edit) list.old list.new }
{
    for watches in list.iter_mut() {
        watches.note(view, rows, edit);
    }
}

/// The watches of a view wait for an event again.
pub(crate) fn forget_all(list: &mut [Followed], view: &Name, rows: &Shared, edit: RowEdit)
    requires { HaveNoted view.now rows.now.schema rows.now.rows edit list.old }
    ensures { AreEach (Forgets view.now) list.old list.new }
{
    for watches in list.iter_mut() {
        watches.forget(view, rows, edit);
    }
}

/// The watches of a view follow the edit of its rows that they noted.
pub(crate) fn follow_all(list: &mut [Followed], view: &Name, rows: &Shared, edit: RowEdit)
    requires noted { (before : List (List Datum)) × HaveNoted view.now rows.now.schema before edit list.old × ((row : List Datum) × (rows.now.rows ≡ edited row edit before)) }
    ensures { AreEach (Follows view.now (count_of edit) rows.now.schema rows.now.rows) list.old list.new }
{
    for watches in list.iter_mut() {
        watches.follow(view, rows, edit);
    }
}

/// The watches of a view follow a line on it.
pub(crate) fn follow_line_all(list: &mut [Followed], view: &Name, line: &Line<'_, Shared>)
    requires kept { AreKeptOver view.now line.now.before.now.schema line.now.before.now.rows list.old }
    requires room { HaveRoom view.now (room_for line.now.edits.now) list.old }
    ensures { AreEach (Follows view.now (count_all line.now.edits.now) line.now.before.now.schema line.now.after.now.rows) list.old list.new }
{
    for watches in list.iter_mut() {
        watches.follow_line(view, line);
    }
}
