//! Watches follow an edit that is made between a note and a call, and a line, edit by edit.
ghost use Rattle.std.specs.Prelude.{◌≡◌, ◌+◌, ◌<◌, ◌≤◌, ◌^◌, List, length, None};
ghost use Rattle.mk_value.specs.Data.{Datum};
ghost use Rattle.live.specs.Chains.{AreNow, AreSame};
ghost use Rattle.live.specs.Edits.{room_of as room_taken};
ghost use Rattle.live.specs.Putting.{spare};
ghost use Rattle.row_edits.specs.Edits.{IsInRange, edited};
ghost use Rattle.row_edits.specs.Events.{count_all, count_of};
ghost use Rattle.row_edits.specs.Lines.{edit_at, rows_at_event};
ghost use Rattle.watches.specs.Lines.{AreReady, HaveFollowed, room_for};

use live::{Over, Watches, room_of};
use mk_value::{Steps, TableRead};
use row_edits::{Line, RowEdit};
use std::marker::Brand;
use std::sync::ledger::{Blank, Ledger};

/// Watches note an edit of these rows before it is made. It takes no memory.
pub fn note_edit<T: TableRead>(watches: &mut Watches, rows: &T, edit: RowEdit)
    requires now { AreNow (T.schema rows.now) (T.rows rows.now) watches.old.watches }
    requires range { IsInRange edit (length (T.rows rows.now)) }
    requires reserved { room_taken edit ≤ spare watches.old }
    ensures same { AreSame watches.old.watches watches.new.watches }
    ensures ready { AreReady (T.schema rows.now) (T.rows rows.now) edit watches.new }
{
    note::<Brand, T>(watches, rows, edit, Blank::new(1));
}

/// `note_edit` with a count of steps, which nobody asks for.
fn note<L: Ledger, T: TableRead>(watches: &mut Watches, rows: &T, edit: RowEdit, blank: Blank)
    requires now { AreNow (T.schema rows.now) (T.rows rows.now) watches.old.watches }
    requires range { IsInRange edit (length (T.rows rows.now)) }
    requires reserved { room_taken edit ≤ spare watches.old }
    requires name { blank.name ≡ L.name }
    requires parts { blank.parts ≡ L.parts }
    requires share { 0 < blank.parts }
    ensures same { AreSame watches.old.watches watches.new.watches }
    ensures ready { AreReady (T.schema rows.now) (T.rows rows.now) edit watches.new }
{
    let mut steps = Steps::<L>::new(blank);
    watches.note_edit(&Over { rows }, edit, &mut steps);
}

/// Watches wait for an event again: the edit of these rows that they noted is not made. It takes no memory.
pub fn forget_edit<T: TableRead>(watches: &mut Watches, rows: &T, edit: RowEdit)
    requires { AreReady (T.schema rows.now) (T.rows rows.now) edit watches.old }
    ensures same { AreSame watches.old.watches watches.new.watches }
    ensures noted { watches.new.noted ≡ None }
{
    // An edit of no rows notes nothing.
    let nothing = RowEdit::Remove { at: 0, count: 0 };
    note_edit(watches, rows, nothing);
}

/// Watches follow the edit that they noted, whose rows after it these are, in one step whatever its count. It takes no memory.
pub fn follow_edit<T: TableRead>(watches: &mut Watches, rows: &T, edit: RowEdit)
    requires { (before : List (List Datum)) × AreReady (T.schema rows.now) before edit watches.old × ((row : List Datum) × (T.rows rows.now ≡ edited row edit before)) }
    ensures now { AreNow (T.schema rows.now) (T.rows rows.now) watches.new.watches }
    ensures followed { HaveFollowed (count_of edit) watches.old.watches watches.new.watches }
    ensures noted { watches.new.noted ≡ None }
{
    follow::<Brand, T>(watches, rows, edit, Blank::new(1));
}

/// `follow_edit` with a count of steps, which nobody asks for.
fn follow<L: Ledger, T: TableRead>(watches: &mut Watches, rows: &T, edit: RowEdit, blank: Blank)
    requires ready { (before : List (List Datum)) × AreReady (T.schema rows.now) before edit watches.old × ((row : List Datum) × (T.rows rows.now ≡ edited row edit before)) }
    requires name { blank.name ≡ L.name }
    requires parts { blank.parts ≡ L.parts }
    requires share { 0 < blank.parts }
    ensures now { AreNow (T.schema rows.now) (T.rows rows.now) watches.new.watches }
    ensures followed { HaveFollowed (count_of edit) watches.old.watches watches.new.watches }
    ensures noted { watches.new.noted ≡ None }
{
    let mut steps = Steps::<L>::new(blank);
    watches.follow_edit(&Over { rows }, edit, &mut steps);
}

/// Watches follow one edit of a line, in one step whatever its count.
fn follow_part<L: Ledger, T: TableRead>(
    watches: &mut Watches,
    line: &Line<'_, T>,
    edit: usize,
    steps: &mut Steps<L>,
)
    requires edit_in { edit < length line.now.edits.now }
    requires now { AreNow (T.schema line.now.before.now) (rows_at_event line.now.edits.now line.now.home edit 0 (T.rows line.now.before.now) (T.rows line.now.after.now)) watches.old.watches }
    requires reserved { room_taken (edit_at line.now.edits.now edit) ≤ spare watches.old }
    ensures now { AreNow (T.schema line.now.before.now) (rows_at_event line.now.edits.now line.now.home edit (count_of (edit_at line.now.edits.now edit)) (T.rows line.now.before.now) (T.rows line.now.after.now)) watches.new.watches }
    ensures followed { HaveFollowed (count_of (edit_at line.now.edits.now edit)) watches.old.watches watches.new.watches }
    ensures noted { watches.new.noted ≡ None }
    ensures spare { spare watches.old ≤ spare watches.new + room_taken (edit_at line.now.edits.now edit) }
{
    let change = line.edits[edit];
    let before = line.between(edit, 0);
    let after = line.between(edit, change.count());
    watches.follow(
        &Over { rows: &before },
        &Over { rows: &after },
        change,
        steps,
    );
}

/// Watches follow a line: from the rows before it to those after it. It takes no memory.
pub fn follow_line<T: TableRead>(watches: &mut Watches, line: &Line<'_, T>)
    requires now { AreNow (T.schema line.now.before.now) (T.rows line.now.before.now) watches.old.watches }
    requires noted { watches.old.noted ≡ None }
    requires reserved { room_for line.now.edits.now ≤ spare watches.old }
    ensures now { AreNow (T.schema line.now.after.now) (T.rows line.now.after.now) watches.new.watches }
    ensures followed { HaveFollowed (count_all line.now.edits.now) watches.old.watches watches.new.watches }
    ensures noted { watches.new.noted ≡ None }
{
    follow_edits::<Brand, T>(watches, line, Blank::new(1));
}

/// `follow_line` with a count of steps, which nobody asks for.
fn follow_edits<L: Ledger, T: TableRead>(watches: &mut Watches, line: &Line<'_, T>, blank: Blank)
    requires now { AreNow (T.schema line.now.before.now) (T.rows line.now.before.now) watches.old.watches }
    requires noted { watches.old.noted ≡ None }
    requires reserved { room_for line.now.edits.now ≤ spare watches.old }
    requires name { blank.name ≡ L.name }
    requires parts { blank.parts ≡ L.parts }
    requires share { 0 < blank.parts }
    ensures now { AreNow (T.schema line.now.after.now) (T.rows line.now.after.now) watches.new.watches }
    ensures followed { HaveFollowed (count_all line.now.edits.now) watches.old.watches watches.new.watches }
    ensures noted { watches.new.noted ≡ None }
{
    let mut steps = Steps::<L>::new(blank);
    for edit in 0..line.edits.len() {
        follow_part(watches, line, edit, &mut steps);
    }
}

/// How many chunks a watch takes for edits at most: some for rows that come, one for a row that changes, none for rows that go.
pub fn room_for(edits: &[RowEdit]) -> usize
    requires { room_for edits.now < 2 ^ 64 }
    ensures { result ≡ room_for edits.now }
{
    let mut room = 0;
    for edit in edits {
        room += room_of(*edit);
    }
    room
}
