//! What is kept of a view notes an edit of one row, and follows it; and it follows a line of such edits.
ghost use Rattle.std.specs.Prelude.{◌≡◌, ◌<◌, List, true, length, None, Some};
ghost use Rattle.std.specs.Option.{ForSome, option_map};
ghost use Rattle.live.specs.Putting.{IsPlace};
ghost use Rattle.live.specs.Watching.{IsTurn, root_turn};
ghost use Rattle.live_counts.specs.Counting.{AreCounts, AreDue};
ghost use Rattle.live_counts.specs.Filtering.{IsFiltered};
ghost use Rattle.mk_value.specs.Data.{Datum};
ghost use Rattle.relations.specs.Refusals.{absent};
ghost use Rattle.row_edits.specs.Edits.{IsInRange, edited};
ghost use Rattle.row_edits.specs.Events.{count_of};
ghost use Rattle.row_edits.specs.Lines.{edit_at, rows_at_event};
ghost use Rattle.kept_counts.specs.Keeping.{HasNoted, IsWaiting, is_kept_by, single as single_event, what_of};

use crate::asking::fits;
use crate::kept::Kept;
use live::Over;
use live_counts::{LiveCounts, LiveFilter};
use mk_value::{Name, Steps, TableRead};
use row_edits::{Event, Line, RowEdit};
use std::marker::Brand;
use std::sync::ledger::{Blank, Ledger};
use tables::Shared;
use viewers::Law;

/// An edit of one row as an event.
fn single(edit: RowEdit) -> Option<Event>
    ensures { result ≡ single_event edit }
{
    match edit {
        RowEdit::Insert { at, count } if count == 1 => Some(Event::Insert(at)),
        RowEdit::Remove { at, count } if count == 1 => Some(Event::Remove(at)),
        RowEdit::Change { at } => Some(Event::Change(at)),
        RowEdit::Insert { .. } | RowEdit::Remove { .. } => None,
    }
}

/// What has noted an edit of these rows, if it is of one row and there is memory for it.
pub(crate) fn noted(kept: Option<Kept>, rows: &Shared, edit: RowEdit) -> Option<Kept>
    requires now { ForSome kept (IsWaiting rows.now.schema rows.now.rows) }
    requires range { IsInRange edit (length rows.now.rows) }
    ensures { ForSome result (HasNoted rows.now.schema rows.now.rows edit) }
{
    let Some(event) = single(edit) else {
        return None;
    };
    let Some(kept) = kept else {
        return None;
    };
    match kept {
        Kept::Counts(keys, counts) => {
            let Some(counts) = mark::<Brand>(counts, rows, &event, Blank::new(1)) else {
                return None;
            };
            Some(Kept::Counts(keys, counts))
        }
        Kept::Filter(law, props, mut filter) => {
            if filter.reserve(1).is_err() {
                return None;
            }
            Some(Kept::Filter(law, props, filter))
        }
    }
}

/// Counts note an event, with a count of steps, which nobody asks for.
fn mark<L: Ledger>(
    mut counts: LiveCounts,
    rows: &Shared,
    event: &Event,
    blank: Blank,
) -> Option<LiveCounts>
    requires now { AreCounts rows.now.schema rows.now.rows counts }
    requires place { IsPlace event.now (length rows.now.rows) }
    requires name { blank.name ≡ L.name }
    requires parts { blank.parts ≡ L.parts }
    requires share { 0 < blank.parts }
    ensures now { ForSome result (AreCounts rows.now.schema rows.now.rows) }
    ensures op { ForSome result (λ new. new.op ≡ counts.op) }
    ensures noted { ForSome result (λ new. new.noted ≡ Some event.now) }
{
    if counts.reserve(1).is_err() {
        return None;
    }
    let mut steps = Steps::<L>::new(blank);
    counts.before(&Over { rows }, event, &mut steps);
    Some(counts)
}

/// What has followed the edit that it noted, which made these rows. Nothing is dropped.
pub(crate) fn followed(kept: Option<Kept>, rows: &Shared, edit: RowEdit) -> Option<Kept>
    requires noted { (before : List (List Datum)) × ForSome kept (HasNoted rows.now.schema before edit) × ((row : List Datum) × (rows.now.rows ≡ edited row edit before)) }
    ensures over { ForSome result (IsWaiting rows.now.schema rows.now.rows) }
    ensures stays { option_map what_of result ≡ option_map what_of kept }
{
    let Some(kept) = kept else {
        return None;
    };
    let Some(event) = single(edit) else {
        unreachable!();
    };
    match kept {
        Kept::Counts(keys, counts) => {
            let counts = advance::<Brand>(counts, rows, &event, Blank::new(1));
            Some(Kept::Counts(keys, counts))
        }
        Kept::Filter(law, props, mut filter) => {
            pass(&mut filter, rows, law, props.as_slice(), &event);
            Some(Kept::Filter(law, props, filter))
        }
    }
}

/// A filter follows an event, which made these rows. The row that came is asked once. It takes no memory.
fn pass<T: TableRead>(filter: &mut LiveFilter, rows: &T, law: Law, props: &[Name], event: &Event)
    requires present { absent (T.schema rows.now) props.now ≡ None }
    requires room { 0 < filter.old.room }
    requires due { (before : List (List Datum)) × IsFiltered (is_kept_by (T.schema rows.now) law props.now) before filter.old.kept × IsTurn (root_turn event.now) before (T.rows rows.now) }
    ensures { IsFiltered (is_kept_by (T.schema rows.now) law props.now) (T.rows rows.now) filter.new.kept }
{
    let _size = rows.size();
    let fits = fits(rows, law, props, event);
    let _own = filter.after(event, fits);
}

/// Counts follow an event, with a count of steps, which nobody asks for.
fn advance<L: Ledger>(
    mut counts: LiveCounts,
    rows: &Shared,
    event: &Event,
    blank: Blank,
) -> LiveCounts
    requires due { AreDue rows.now.schema counts event.now rows.now.rows }
    requires noted { counts.noted ≡ Some event.now }
    requires name { blank.name ≡ L.name }
    requires parts { blank.parts ≡ L.parts }
    requires share { 0 < blank.parts }
    ensures now { AreCounts rows.now.schema rows.now.rows result }
    ensures op { result.op ≡ counts.op }
    ensures noted { result.noted ≡ None }
{
    let mut steps = Steps::<L>::new(blank);
    counts.after(&Over { rows }, event, &mut steps);
    counts
}

/// What has followed a line, if each of its edits is of one row and there is memory for it.
pub(crate) fn followed_line(kept: Option<Kept>, line: &Line<'_, Shared>) -> Option<Kept>
    requires { ForSome kept (IsWaiting line.now.before.now.schema line.now.before.now.rows) }
    ensures { ForSome result (IsWaiting line.now.before.now.schema line.now.after.now.rows) }
{
    let Some(kept) = kept else {
        return None;
    };
    match kept {
        Kept::Counts(keys, counts) => {
            let Some(counts) = advance_line::<Brand>(counts, line, Blank::new(1)) else {
                return None;
            };
            Some(Kept::Counts(keys, counts))
        }
        Kept::Filter(law, props, filter) => {
            let Some(filter) = pass_line(filter, law, props.as_slice(), line) else {
                return None;
            };
            Some(Kept::Filter(law, props, filter))
        }
    }
}

/// A filter that has followed a line, if each of its edits is of one row and there is memory for it.
fn pass_line(
    filter: LiveFilter,
    law: Law,
    props: &[Name],
    line: &Line<'_, Shared>,
) -> Option<LiveFilter>
    requires present { absent line.now.before.now.schema props.now ≡ None }
    requires now { IsFiltered (is_kept_by line.now.before.now.schema law props.now) line.now.before.now.rows filter.kept }
    ensures { ForSome result (λ new. IsFiltered (is_kept_by line.now.before.now.schema law props.now) line.now.after.now.rows new.kept) }
{
    let mut passed = filter;
    for edit in 0..line.edits.len() {
        if !pass_part(&mut passed, law, props, line, edit) {
            return None;
        }
    }
    Some(passed)
}

/// A filter follows one edit of a line, if it is of one row and there is memory for it, and tells whether.
fn pass_part(
    filter: &mut LiveFilter,
    law: Law,
    props: &[Name],
    line: &Line<'_, Shared>,
    edit: usize,
) -> bool
    requires present { absent line.now.before.now.schema props.now ≡ None }
    requires edit_in { edit < length line.now.edits.now }
    requires now { IsFiltered (is_kept_by line.now.before.now.schema law props.now) (rows_at_event line.now.edits.now line.now.home edit 0 line.now.before.now.rows line.now.after.now.rows) filter.old.kept }
    ensures { result ≡ true → IsFiltered (is_kept_by line.now.before.now.schema law props.now) (rows_at_event line.now.edits.now line.now.home edit (count_of (edit_at line.now.edits.now edit)) line.now.before.now.rows line.now.after.now.rows) filter.new.kept }
{
    let change = line.edits[edit];
    let Some(event) = single(change) else {
        return false;
    };
    if filter.reserve(1).is_err() {
        return false;
    }
    let after = line.between(edit, change.count());
    pass(filter, &after, law, props, &event);
    true
}

/// Counts follow a line, with a count of steps, which nobody asks for.
fn advance_line<L: Ledger>(
    counts: LiveCounts,
    line: &Line<'_, Shared>,
    blank: Blank,
) -> Option<LiveCounts>
    requires now { AreCounts line.now.before.now.schema line.now.before.now.rows counts }
    requires waiting { counts.noted ≡ None }
    requires name { blank.name ≡ L.name }
    requires parts { blank.parts ≡ L.parts }
    requires share { 0 < blank.parts }
    ensures now { ForSome result (AreCounts line.now.before.now.schema line.now.after.now.rows) }
    ensures op { ForSome result (λ new. new.op ≡ counts.op) }
    ensures noted { ForSome result (λ new. new.noted ≡ None) }
{
    let mut steps = Steps::<L>::new(blank);
    let mut followed = counts;
    for edit in 0..line.edits.len() {
        if !follow_part(&mut followed, line, edit, &mut steps) {
            return None;
        }
    }
    Some(followed)
}

/// Counts follow one edit of a line, if it is of one row and there is memory for it, and tell whether.
fn follow_part<L: Ledger>(
    counts: &mut LiveCounts,
    line: &Line<'_, Shared>,
    edit: usize,
    steps: &mut Steps<L>,
) -> bool
    requires edit_in { edit < length line.now.edits.now }
    requires now { AreCounts line.now.before.now.schema (rows_at_event line.now.edits.now line.now.home edit 0 line.now.before.now.rows line.now.after.now.rows) counts.old }
    ensures now { result ≡ true → AreCounts line.now.before.now.schema (rows_at_event line.now.edits.now line.now.home edit (count_of (edit_at line.now.edits.now edit)) line.now.before.now.rows line.now.after.now.rows) counts.new }
    ensures op { result ≡ true → counts.new.op ≡ counts.old.op }
    ensures noted { result ≡ true → counts.new.noted ≡ None }
{
    let change = line.edits[edit];
    let Some(event) = single(change) else {
        return false;
    };
    if counts.reserve(1).is_err() {
        return false;
    }
    let before = line.between(edit, 0);
    let after = line.between(edit, change.count());
    counts.before(&Over { rows: &before }, &event, steps);
    counts.after(&Over { rows: &after }, &event, steps);
    true
}
