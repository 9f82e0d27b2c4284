//! Laws of the definitions that the contracts of the watches cite.
ghost use Rattle.std.specs.Prelude.{◌≡◌, ◌+◌, ◌*◌, ◌^◌, ◌<◌, ◌≤◌, [], ℕ, List, false, length, slice_index, slice_index_or, slice_set, insert, remove, Some};
ghost use Rattle.mk_value.specs.Data.{Datum};
ghost use Rattle.mk_value.specs.Heading.{Attribute};
ghost use Rattle.relations.specs.Criteria.{Interval};
ghost use Rattle.relations.specs.Rows.{rows_at};
ghost use Rattle.relations.specs.declared.criteria.Key.{Key};
ghost use Rattle.row_edits.specs.Edits.{IsInRange, edited};
ghost use Rattle.row_edits.specs.Events.{begun, count_of, event_of};
ghost use Rattle.row_edits.specs.declared.edit.RowEdit.{RowEdit};
ghost use Rattle.live.specs.Chains.{AreNow, place_in_root, seen};
ghost use Rattle.live.specs.Costs.{digits};
ghost use Rattle.live.specs.Histories.{AreHeard, AreStepped, HaveHeard, HaveStepped, Heard, Stepped};
ghost use Rattle.live.specs.Laws.{IsAnswer, IsMove, shown};
ghost use Rattle.live.specs.Putting.{IsPlace};
ghost use Rattle.live.specs.States.{WatchState};
ghost use Rattle.live.specs.Watching.{IsTurn, own, passes, positions, root_turn};
ghost use Rattle.live.specs.declared.op.WatchOp.{WatchOp};
ghost use Rattle.live.specs.declared.op.WatchOp.TheVariants as op;
ghost use Rattle.live.specs.declared.turn.Turn.{Turn};
ghost use Rattle.live.specs.declared.turn.Turn.TheVariants as turn;

/// What is seen through a watch are the rows that it shows of what is seen through its source.
pub fn a_watch_shows_its_rows()
    ensures { (schema : List Attribute) (rows : List (List Datum)) (watches : List WatchState) (k : ℕ) (d : WatchState) → AreNow schema rows watches → k < length watches
        → seen rows watches (Some k) ≡ shown schema (slice_index_or watches k d).op (seen rows watches (slice_index_or watches k d).source) }
{}

/// Each row that is seen through a watch stands in the root where the watches say.
pub fn places_lead_to_rows()
    ensures within { (schema : List Attribute) (rows : List (List Datum)) (watches : List WatchState) (k : ℕ) (d : WatchState) (i : ℕ) → AreNow schema rows watches → k < length watches → i < length (slice_index_or watches k d).kept
        → place_in_root watches (Some k) i < length rows }
    ensures value { (schema : List Attribute) (rows : List (List Datum)) (watches : List WatchState) (k : ℕ) (d : WatchState) (i : ℕ) → AreNow schema rows watches → k < length watches → i < length (slice_index_or watches k d).kept
        → slice_index_or rows (place_in_root watches (Some k) i) [] ≡ slice_index_or (seen rows watches (Some k)) i [] }
{}

/// An insertion, a removal and a change of one row are events of the rows.
pub fn edits_are_events()
    ensures comes { (p : ℕ) (rows : List (List Datum)) (row : List Datum) → p ≤ length rows → IsTurn (turn.Comes p) rows (insert rows p row) }
    ensures goes { (p : ℕ) (rows : List (List Datum)) → p < length rows → IsTurn (turn.Goes p) rows (remove rows p) }
    ensures changes { (p : ℕ) (rows : List (List Datum)) (row : List Datum) → p < length rows → IsTurn (turn.Changes p) rows (slice_set rows p row) }
{}

/// Each event of an edit is an event of the rows once those before it have happened.
pub fn events_are_turns()
    ensures turn { (e : RowEdit) (k : ℕ) (row : List Datum) (rows : List (List Datum)) → IsInRange e (length rows) → k < count_of e
        → IsTurn (root_turn (event_of e k)) (edited row (begun k e) rows) (edited row (begun (k + 1) e) rows) }
    ensures place { (e : RowEdit) (k : ℕ) (row : List Datum) (rows : List (List Datum)) → IsInRange e (length rows) → k < count_of e
        → IsPlace (event_of e k) (length (edited row (begun k e) rows)) }
{}

/// The own events of a watch lead from its rows before to its rows after, so that another watch can stand over it.
pub fn own_events_are_events()
    ensures { (schema : List Attribute) (w : WatchOp) (old new : List (List Datum)) (t : Turn) → IsTurn t old new
        → IsTurn (own w (positions schema w old) (positions schema w new) t) (rows_at old (positions schema w old)) (rows_at new (positions schema w new)) }
{}

/// A watch answers an insertion or a removal by the same where it has the row, and else by nothing.
pub fn a_watch_answers_a_row()
    ensures comes { (schema : List Attribute) (w : WatchOp) (q : ℕ) (old new : List (List Datum)) → IsTurn (turn.Comes q) old new
        → IsAnswer false (passes schema w (slice_index_or new q [])) (own w (positions schema w old) (positions schema w new) (turn.Comes q)) }
    ensures goes { (schema : List Attribute) (w : WatchOp) (p : ℕ) (old new : List (List Datum)) → IsTurn (turn.Goes p) old new
        → IsAnswer (passes schema w (slice_index_or old p [])) false (own w (positions schema w old) (positions schema w new) (turn.Goes p)) }
{}

/// A selection answers a change by whether the row passed and passes.
pub fn a_selection_answers_a_change()
    ensures { (schema : List Attribute) (criteria : List Interval) (p : ℕ) (old new : List (List Datum)) → IsTurn (turn.Changes p) old new
        → IsAnswer (passes schema (op.Range criteria) (slice_index_or old p [])) (passes schema (op.Range criteria) (slice_index_or new p []))
        (own (op.Range criteria) (positions schema (op.Range criteria) old) (positions schema (op.Range criteria) new) (turn.Changes p)) }
{}

/// A sorting answers a change by a removal and then an insertion.
pub fn a_sorting_answers_a_change()
    ensures { (schema : List Attribute) (keys : List Key) (p : ℕ) (old new : List (List Datum)) → IsTurn (turn.Changes p) old new
        → IsMove (own (op.Sort keys) (positions schema (op.Sort keys) old) (positions schema (op.Sort keys) new) (turn.Changes p)) }
{}

/// What a search by halves takes is at most the number of binary digits.
pub fn steps_are_digits()
    ensures { (steps n : ℕ) → 2 ^ steps ≤ 2 * n + 1 → steps ≤ digits n }
{}

/// Over every list of events that are noted and followed one after another, each watch keeps the positions that the rows then make due and has
/// followed one event more for each; what was told are the own events of each watch, by the rows before and after each event alone; and no more
/// tests and comparisons were made than the sizes of the sources allow.
pub fn watches_follow_events()
    ensures { (schema : List Attribute) (rows : List (List Datum)) (watches : List WatchState) (heard : List Heard) → AreNow schema rows watches → AreHeard schema rows watches heard
        → HaveHeard schema rows watches heard }
{}

/// Over every list of edits that are followed in one step each, each watch keeps the positions that the rows then make due and has followed one event
/// more for each row that came, went or changed; and no more tests and comparisons were made than the sizes of the sources allow, whatever the
/// counts of the edits.
pub fn watches_follow_edits()
    ensures { (schema : List Attribute) (rows : List (List Datum)) (watches : List WatchState) (edits : List Stepped) → AreNow schema rows watches → AreStepped schema rows watches edits
        → HaveStepped schema rows watches edits }
{}
