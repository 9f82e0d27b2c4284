//! An edit of the root, followed by all watches in one step: copies of a row come side by side, rows go side by side, or one row changes.
ghost use Rattle.std.specs.Prelude.{◌≡◌, ◌+◌, ◌-◌, ◌*◌, ◌^◌, ◌<◌, ◌≤◌, [], ℕ, List, All, true, false, length, map, slice_index_or, sum_by, None, Some};
ghost use Rattle.std.specs.Option.{ForSome};
ghost use Rattle.mk_value.specs.Data.{Datum};
ghost use Rattle.relations.specs.Rows.{rows_at};
ghost use Rattle.places.specs.Numbers.{chunks_for};
ghost use Rattle.row_edits.specs.Events.{count_of};
ghost use Rattle.live.specs.Answers.{AreEditDue, HaveAnswered, HaveDone, follow_cost, noted_for, room_followed};
ghost use Rattle.live.specs.Chains.{AreInside, AreLinked, AreNoted, AreNow, HaveRoom, seen};
ghost use Rattle.live.specs.Costs.{after_cost};
ghost use Rattle.live.specs.Edits.{AreFew, AreLeft, AreSpreadDue, HasTaken, HaveRoomFor, HaveTaken, IsSpread, IsSpreadDue, came_to, room_of};
ghost use Rattle.live.specs.Leaving.{goes_at, kept_left, places_among, went};
ghost use Rattle.live.specs.States.{WatchState};
ghost use Rattle.live.specs.Turns.{answer_of, still_watch};
ghost use Rattle.live.specs.Watching.{IsAsked, comes_to, goes_from, is_sorting, placed, positions, root_turn, told};

use crate::chain::{Seen, after_all, root_place};
use crate::probe::Probe;
use crate::ranks::write_ranks;
use crate::removed::answer_to_removal;
use crate::turn::Turn;
use crate::watch::Watch;
use mk_value::Steps;
use places::chunks_for;
use row_edits::RowEdit;
use std::marker::PhantomData;
use std::sync::ledger::Ledger;

/// How many chunks a watch takes for an edit at most: some for rows that come, one for a row that changes, and none for rows that go.
pub fn room_of(edit: RowEdit) -> usize
    ensures { result ≡ room_of edit }
{
    match edit {
        RowEdit::Insert { count, .. } => chunks_for(count),
        RowEdit::Remove { .. } => 0,
        RowEdit::Change { .. } => 1,
    }
}

/// Where the first of the rows that came stands in a source: as in the root, or as a watch has it.
fn came_to(at: usize, below: &[Watch], source: Option<usize>) -> Option<usize>
    requires { ForSome source (λ s. s < length below.now) }
    ensures { result ≡ came_to at below.now source }
{
    match source {
        None => Some(at),
        Some(s) => below[s].turn().comes_to(),
    }
}

/// One watch follows copies of a row that came into the root, which the watches before it have followed.
fn spread<L: Ledger, P: Probe<L>>(
    rows: &P,
    below: &[Watch],
    watch: &mut Watch,
    at: usize,
    count: usize,
    steps: &mut Steps<L>,
)
    requires asked { IsAsked (P.schema rows.now) watch.old.op }
    requires linked { AreLinked (P.rows rows.now) below.now }
    requires source { ForSome watch.old.source (λ s. s < length below.now) }
    requires some { 0 < count }
    requires room { chunks_for count ≤ watch.old.room }
    requires due { IsSpreadDue (P.schema rows.now) watch.old.op watch.old.kept (came_to at below.now watch.old.source) count (seen (P.rows rows.now) below.now watch.old.source) }
    ensures now { watch.new.kept ≡ positions (P.schema rows.now) watch.old.op (seen (P.rows rows.now) below.now watch.old.source) }
    ensures spread { (row : List Datum) (before : List (List Datum)) → watch.old.kept ≡ positions (P.schema rows.now) watch.old.op before
        → IsSpread (came_to at below.now watch.old.source) count row before (seen (P.rows rows.now) below.now watch.old.source)
        → IsSpread (comes_to watch.new.turn) count row (rows_at before watch.old.kept) (rows_at (seen (P.rows rows.now) below.now watch.old.source) watch.new.kept) }
    ensures told { watch.new.turn ≡ told false None (placed watch.new.kept (came_to at below.now watch.old.source)) }
    ensures answer { watch.new.answer ≡ answer_of count watch.new.turn }
    ensures taken { HasTaken count (chunks_for count) watch.old watch.new }
    ensures least { steps.old ≤ steps.new }
    ensures cost { is_sorting watch.old.op ≡ true → 2 ^ (steps.new - steps.old) ≤ 2 * length (seen (P.rows rows.now) below.now watch.old.source) + 1 }
    ensures test { is_sorting watch.old.op ≡ false → steps.new ≤ steps.old + 1 }
{
    let over = watch.source();
    let came = came_to(at, below, over);
    let seen = Seen {
        rows,
        watches: below,
        over,
        ledger: PhantomData,
    };
    watch.spread(&seen, came, count, steps);
}

/// All watches follow copies of a row that came into the root, each after its source.
pub(crate) fn spread_all<L: Ledger, P: Probe<L>>(
    rows: &P,
    watches: &mut [Watch],
    at: usize,
    count: usize,
    steps: &mut Steps<L>,
)
    requires due { AreSpreadDue (P.schema rows.now) watches.old at count (P.rows rows.now) }
    requires some { 0 < count }
    requires room { HaveRoomFor (chunks_for count) watches.old }
    ensures now { AreNow (P.schema rows.now) (P.rows rows.now) watches.new }
    ensures told { (k : ℕ) (d : WatchState) → k < length watches.old → (slice_index_or watches.new k d).turn ≡ told false None (placed (slice_index_or watches.new k d).kept (came_to at watches.new (slice_index_or watches.old k d).source)) }
    ensures answer { (k : ℕ) (d : WatchState) → k < length watches.old → (slice_index_or watches.new k d).answer ≡ answer_of count (slice_index_or watches.new k d).turn }
    ensures made { (due : AreSpreadDue (P.schema rows.now) watches.old at count (P.rows rows.now)) (k : ℕ) (d : WatchState) → k < length watches.old
        → IsSpread (comes_to (slice_index_or watches.new k d).turn) count due.row (seen due.before watches.old (Some k)) (seen (P.rows rows.now) watches.new (Some k)) }
    ensures taken { HaveTaken count (chunks_for count) watches.old watches.new }
    ensures cost { steps.new ≤ steps.old + sum_by (after_cost (P.rows rows.now) watches.new) watches.new }
{
    let _size = rows.size();
    for i in 0..watches.len() {
        let (below, rest) = watches.split_at_mut(i);
        spread(rows, below, &mut rest[0], at, count, steps);
    }
}

/// Whether a row of a watch stands in the root among so many from a place on.
pub(crate) fn goes(watches: &[Watch], over: usize, row: usize, at: usize, count: usize) -> bool
    requires inside { AreInside watches.now }
    requires there { over < length watches.now }
    requires row_in { (d : WatchState) → row < length (slice_index_or watches.now over d).kept }
    requires small { at + count < 2 ^ 32 }
    ensures { result ≡ goes_at at count watches.now (Some over) row }
{
    let place = root_place(watches, Some(over), row);
    at <= place && place < at + count
}

/// The first of the rows of a watch that stand side by side right before a place, and go.
fn first_of_run(watches: &[Watch], over: usize, end: usize, at: usize, count: usize) -> usize
    requires inside { AreInside watches.now }
    requires there { over < length watches.now }
    requires end_in { (d : WatchState) → end ≤ length (slice_index_or watches.now over d).kept }
    requires small { at + count < 2 ^ 32 }
    ensures within { result ≤ end }
    ensures go { (k : ℕ) → result ≤ k → k < end → goes_at at count watches.now (Some over) k ≡ true }
    ensures stays { 0 < result → goes_at at count watches.now (Some over) (result - 1) ≡ false }
{
    let mut first = end;
    while first > 0 {
        if !goes(watches, over, first - 1, at, count) {
            return first;
        }
        first -= 1;
    }
    first
}

/// A watch over another follows the removal of rows of the root: it leaves out one run of places of its source after another, the last first.
fn leave_by_runs(below: &[Watch], over: usize, watch: &mut Watch, at: usize, count: usize)
    requires inside { AreInside below.now }
    requires there { over < length below.now }
    requires within { (d : WatchState) → All (λ i. i < length (slice_index_or below.now over d).kept) watch.old.kept }
    requires few { AreFew below.now }
    requires small { at + count < 2 ^ 32 }
    ensures kept { watch.new.kept ≡ kept_left (goes_at at count below.now (Some over)) watch.old.kept }
    ensures taken { HasTaken 0 0 watch.old watch.new }
{
    let mut end = below[over].len();
    while end > 0 {
        let first = first_of_run(below, over, end, at, count);
        if first < end {
            watch.leave(first, end - first);
            end = first;
        } else {
            end -= 1;
        }
    }
}

/// A watch over another follows the removal of rows of the root: in one pass over the rows of its source and one over its own, where there is
/// room beside for the ranks of these rows, and else run by run.
fn leave_through(
    below: &[Watch],
    over: usize,
    watch: &mut Watch,
    at: usize,
    count: usize,
    aside: &mut Vec<u32>,
)
    requires inside { AreInside below.now }
    requires there { over < length below.now }
    requires within { (d : WatchState) → All (λ i. i < length (slice_index_or below.now over d).kept) watch.old.kept }
    requires few { AreFew below.now }
    requires small { at + count < 2 ^ 32 }
    ensures kept { watch.new.kept ≡ kept_left (goes_at at count below.now (Some over)) watch.old.kept }
    ensures taken { HasTaken 0 0 watch.old watch.new }
{
    if aside.capacity() < below[over].len() {
        leave_by_runs(below, over, watch, at, count);
        return;
    }
    write_ranks(aside, below, over, at, count);
    watch.leave_unranked(aside);
}

/// One watch leaves out the rows of the root that go, so many from a place on. The watches before it have not followed that.
fn leave_rows(below: &[Watch], watch: &mut Watch, at: usize, count: usize, aside: &mut Vec<u32>)
    requires inside { AreInside below.now }
    requires source { ForSome watch.old.source (λ s. s < length below.now) }
    requires within { ForSome watch.old.source (λ s. (d : WatchState) → All (λ i. i < length (slice_index_or below.now s d).kept) watch.old.kept) }
    requires few { AreFew below.now }
    requires small { at + count < 2 ^ 32 }
    ensures kept { watch.new.kept ≡ kept_left (goes_at at count below.now watch.old.source) watch.old.kept }
    ensures taken { HasTaken 0 0 watch.old watch.new }
{
    match watch.source() {
        None => watch.leave(at, count),
        Some(over) => leave_through(below, over, watch, at, count, aside),
    }
}

/// One watch follows the removal of rows of the root, so many from a place on. The watches before it have not followed it.
fn leave(below: &[Watch], watch: &mut Watch, at: usize, count: usize, aside: &mut Vec<u32>)
    requires inside { AreInside below.now }
    requires source { ForSome watch.old.source (λ s. s < length below.now) }
    requires within { ForSome watch.old.source (λ s. (d : WatchState) → All (λ i. i < length (slice_index_or below.now s d).kept) watch.old.kept) }
    requires few { AreFew below.now }
    requires some { 0 < count }
    requires small { at + count < 2 ^ 32 }
    ensures kept { watch.new.kept ≡ kept_left (goes_at at count below.now watch.old.source) watch.old.kept }
    ensures answer { watch.new.answer ≡ went at count (places_among at count below.now watch.old) }
    ensures taken { HasTaken count 0 watch.old watch.new }
{
    let answer = answer_to_removal(below, watch, at, count);
    leave_rows(below, watch, at, count, aside);
    watch.count(count, answer);
}

/// All watches follow the removal of rows of the root, so many from a place on: each before its source, whose old positions it wants.
pub(crate) fn leave_all(watches: &mut [Watch], at: usize, count: usize, aside: &mut Vec<u32>)
    requires inside { AreInside watches.old }
    requires few { AreFew watches.old }
    requires some { 0 < count }
    requires small { at + count < 2 ^ 32 }
    ensures { AreLeft at count watches.old watches.new }
{
    let mut left = watches.len();
    while left > 0 {
        left -= 1;
        let (below, rest) = watches.split_at_mut(left);
        leave(below, &mut rest[0], at, count, aside);
    }
}

/// All watches answer nothing, to an edit of no rows.
fn answer_nothing(watches: &mut [Watch])
    ensures { watches.new ≡ map still_watch watches.old }
{
    for watch in watches.iter_mut() {
        watch.answer_nothing();
    }
}

/// All watches follow an edit of the root, of which they have noted the row that changes.
pub(crate) fn follow_all<L: Ledger, P: Probe<L>>(
    rows: &P,
    watches: &mut [Watch],
    aside: &mut Vec<u32>,
    edit: RowEdit,
    steps: &mut Steps<L>,
)
    requires due { AreEditDue (P.schema rows.now) watches.old edit (P.rows rows.now) }
    requires ready { ForSome (noted_for edit) (λ e. AreNoted (goes_from (root_turn e)) watches.old × HaveRoom watches.old) }
    requires room { HaveRoomFor (room_followed edit) watches.old }
    ensures now { AreNow (P.schema rows.now) (P.rows rows.now) watches.new }
    ensures answered { HaveAnswered edit watches.old watches.new }
    ensures done { (due : AreEditDue (P.schema rows.now) watches.old edit (P.rows rows.now)) → HaveDone edit due.before (P.rows rows.now) watches.old watches.new }
    ensures taken { HaveTaken (count_of edit) (room_of edit) watches.old watches.new }
    ensures cost { steps.new ≤ steps.old + follow_cost edit (P.rows rows.now) watches.new }
{
    let _size = rows.size();
    match edit {
        RowEdit::Insert { count: 0, .. } => answer_nothing(watches),
        RowEdit::Insert { at, count } => spread_all(rows, watches, at, count, steps),
        RowEdit::Remove { count: 0, .. } => answer_nothing(watches),
        RowEdit::Remove { at, count } => leave_all(watches, at, count, aside),
        RowEdit::Change { at } => after_all(rows, watches, Turn::Changes(at), steps),
    }
}
