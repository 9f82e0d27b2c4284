//! One watch over the rows of its source: where its rows stand, and what one turn of the source does to that.
ghost use Rattle.std.specs.Prelude.{◌≡◌, ◌≢◌, ◌+◌, ◌-◌, ◌*◌, ◌^◌, ◌<◌, ◌≤◌, ◌==◌, [], ℕ, true, false, Bool, List, Some, All, length, map, remove, position, slice_index, slice_index_or};
ghost use Rattle.std.specs.List.{AllPairs};
ghost use Rattle.std.specs.Option.{ForSome};
ghost use Rattle.places.specs.Numbers.{chunks_for};
ghost use Rattle.std.specs.Ordering.{is_lt};
ghost use Rattle.std.specs.declared.cmp.Ordering.TheVariants.{Less};
ghost use Rattle.mk_value.specs.Data.{Datum};
ghost use Rattle.relations.specs.Rows.{rows_at};
ghost use Rattle.live.specs.Edits.{AreOthersThan, IsSpread, IsSpreadDue};
ghost use Rattle.row_edits.specs.Runs.{moved_up, with_run};
ghost use Rattle.live.specs.Placing.{closed, opened, closed_by, opened_by, without};
ghost use Rattle.live.specs.Watching.{IsAsked, IsDue, comes_to, goes_from, is_sorting, own, passes, placed, position_cmp, positions, stays, told};

use crate::op::WatchOp;
use crate::probe::Probe;
use crate::turn::Turn;
use mk_value::Steps;
use places::Places;
use std::sync::ledger::Ledger;

/// Whether the watch has a row.
fn has<L: Ledger, P: Probe<L>>(rows: &P, op: &WatchOp, row: usize, steps: &mut Steps<L>) -> bool
    requires asked { IsAsked (P.schema rows.now) op.now }
    requires there { row < length (P.rows rows.now) }
    ensures value { result ≡ passes (P.schema rows.now) op.now (slice_index_or (P.rows rows.now) row []) }
    ensures least { steps.old ≤ steps.new }
    ensures one { steps.new ≤ steps.old + 1 }
    ensures free { is_sorting op.now ≡ true → steps.new ≡ steps.old }
{
    match op {
        WatchOp::Range(criteria) => rows.test(row, criteria, steps),
        WatchOp::Sort(_) => true,
    }
}

/// Whether a row stands before another in the watch.
fn stands_before<L: Ledger, P: Probe<L>>(
    rows: &P,
    op: &WatchOp,
    a: usize,
    b: usize,
    steps: &mut Steps<L>,
) -> bool
    requires asked { IsAsked (P.schema rows.now) op.now }
    requires first { a < length (P.rows rows.now) }
    requires second { b < length (P.rows rows.now) }
    ensures value { result ≡ is_lt (position_cmp (P.schema rows.now) op.now (P.rows rows.now) a b) }
    ensures least { steps.old ≤ steps.new }
    ensures one { steps.new ≤ steps.old + 1 }
    ensures free { is_sorting op.now ≡ false → steps.new ≡ steps.old }
{
    match op {
        WatchOp::Range(_) => a < b,
        WatchOp::Sort(keys) => rows.compare(a, b, keys, steps).then(a.cmp(&b)).is_lt(),
    }
}

/// The first place of the kept positions whose row does not stand before a row: where that row stands, or is to stand.
fn place<L: Ledger, P: Probe<L>>(
    rows: &P,
    op: &WatchOp,
    kept: &Places,
    row: usize,
    steps: &mut Steps<L>,
) -> usize
    requires asked { IsAsked (P.schema rows.now) op.now }
    requires there { row < length (P.rows rows.now) }
    requires within { All (λ k. k < length (P.rows rows.now)) kept.now.list }
    requires order { AllPairs (λ i j. position_cmp (P.schema rows.now) op.now (P.rows rows.now) i j ≡ Less) kept.now.list }
    ensures within { result ≤ length kept.now.list }
    ensures below { (k : ℕ) → k < result → position_cmp (P.schema rows.now) op.now (P.rows rows.now) (slice_index kept.now.list k) row ≡ Less }
    ensures above { (k : ℕ) → result ≤ k → k < length kept.now.list → position_cmp (P.schema rows.now) op.now (P.rows rows.now) (slice_index kept.now.list k) row ≢ Less }
    ensures least { steps.old ≤ steps.new }
    ensures cost { 2 ^ (steps.new - steps.old) ≤ 2 * length kept.now.list + 1 }
    ensures free { is_sorting op.now ≡ false → steps.new ≡ steps.old }
{
    let mut low = 0;
    let mut high = kept.len();
    while low < high {
        let middle = low + (high - low) / 2;
        if stands_before(rows, op, kept.get(middle) as usize, row, steps) {
            low = middle + 1;
        } else {
            high = middle;
        }
    }
    low
}

/// The place of a row in the watch, if the watch has it.
fn find<L: Ledger, P: Probe<L>>(
    rows: &P,
    op: &WatchOp,
    kept: &Places,
    row: usize,
    steps: &mut Steps<L>,
) -> Option<usize>
    requires asked { IsAsked (P.schema rows.now) op.now }
    requires there { row < length (P.rows rows.now) }
    requires now { kept.now.list ≡ positions (P.schema rows.now) op.now (P.rows rows.now) }
    ensures value { result ≡ position (λ k. k == row) kept.now.list }
    ensures least { steps.old ≤ steps.new }
    ensures cost { 2 ^ (steps.new - steps.old) ≤ 2 * length (P.rows rows.now) + 1 }
    ensures free { is_sorting op.now ≡ false → steps.new ≡ steps.old }
{
    let at = place(rows, op, kept, row, steps);
    if at < kept.len() && kept.get(at) as usize == row {
        return Some(at);
    }
    None
}

/// Takes the row at a place out, if one is named.
fn take_out(kept: &mut Places, at: Option<usize>)
    requires { ForSome at (λ i. i < length kept.old.list) }
    ensures list { kept.new.list ≡ without at kept.old.list }
    ensures spare { kept.old.spare ≤ kept.new.spare }
{
    if let Some(at) = at {
        kept.remove(at);
    }
}

/// Moves the positions from p on up, if there are any: a row that came last in a source of so many moves none.
fn open_at(kept: &mut Places, p: usize, size: usize)
    requires within { All (λ k. k + 1 < size) kept.old.list }
    requires small { p < size }
    requires few { size < 2 ^ 32 }
    ensures list { kept.new.list ≡ map (opened p) kept.old.list }
    ensures spare { kept.new.spare ≡ kept.old.spare }
{
    if p + 1 < size {
        kept.raise(p as u32, 1);
    }
}

/// Moves the positions past p down, which is none of them.
fn close_at(kept: &mut Places, p: usize)
    requires apart { All (λ k. k ≢ p) kept.old.list }
    requires small { p < 2 ^ 32 }
    ensures list { kept.new.list ≡ map (closed p) kept.old.list }
    ensures spare { kept.new.spare ≡ kept.old.spare }
{
    kept.lower(p as u32, 1);
}

/// Gives the kept positions the numbers that they have after a turn of the source, which has so many rows then. Where a row changes there is
/// nothing to do.
fn move_numbers(kept: &mut Places, turn: Turn, size: usize)
    requires few { size < 2 ^ 32 }
    requires went { ForSome (goes_from turn) (λ p. p < 2 ^ 32) }
    requires came { ForSome (comes_to turn) (λ p. p < size) }
    requires apart { ForSome (goes_from turn) (λ p. All (λ k. k ≢ p) kept.old.list) }
    requires within { ForSome (comes_to turn) (λ p. All (λ k. k + 1 < size) (map (closed_by (goes_from turn)) kept.old.list)) }
    ensures list { kept.new.list ≡ map (opened_by (comes_to turn)) (map (closed_by (goes_from turn)) kept.old.list) }
    ensures spare { kept.new.spare ≡ kept.old.spare }
{
    match turn {
        Turn::Still | Turn::Changes(_) => {}
        Turn::Comes(p) => open_at(kept, p, size),
        Turn::Goes(p) => close_at(kept, p),
        Turn::Moves(p, q) => {
            close_at(kept, p);
            open_at(kept, q, size);
        }
    }
}

/// Puts the row at p in where it is to stand, if the watch has it.
fn enter<L: Ledger, P: Probe<L>>(
    rows: &P,
    op: &WatchOp,
    kept: &mut Places,
    row: usize,
    steps: &mut Steps<L>,
) -> Option<usize>
    requires asked { IsAsked (P.schema rows.now) op.now }
    requires there { row < length (P.rows rows.now) }
    requires others { kept.old.list ≡ map (opened row) (positions (P.schema rows.now) op.now (remove (P.rows rows.now) row)) }
    requires room { 0 < kept.old.spare }
    ensures now { kept.new.list ≡ positions (P.schema rows.now) op.now (P.rows rows.now) }
    ensures value { result ≡ position (λ k. k == row) kept.new.list }
    ensures spare { kept.old.spare ≤ kept.new.spare + 1 }
    ensures least { steps.old ≤ steps.new }
    ensures cost { is_sorting op.now ≡ true → 2 ^ (steps.new - steps.old) ≤ 2 * length (P.rows rows.now) + 1 }
    ensures test { is_sorting op.now ≡ false → steps.new ≤ steps.old + 1 }
{
    let _size = rows.size();
    if !has(rows, op, row, steps) {
        return None;
    }
    let at = place(rows, op, kept, row, steps);
    kept.insert(at, row as u32);
    Some(at)
}

/// Moves the positions from a place on up by a count, if there are any: rows that came last in a source of so many move none.
fn open_run(kept: &mut Places, at: usize, count: usize, size: usize)
    requires within { All (λ k. k + count < size) kept.old.list }
    requires there { at + count ≤ size }
    requires few { size < 2 ^ 32 }
    ensures list { kept.new.list ≡ map (moved_up at count) kept.old.list }
    ensures spare { kept.new.spare ≡ kept.old.spare }
{
    if at + count < size {
        kept.raise(at as u32, count as u32);
    }
}

/// Puts copies of a row, so many from a place of the source on, in where they are to stand, if the watch has them. Answers where the first
/// stands then.
fn put_run<L: Ledger, P: Probe<L>>(
    rows: &P,
    op: &WatchOp,
    kept: &mut Places,
    at: usize,
    count: usize,
    steps: &mut Steps<L>,
) -> Option<usize>
    requires asked { IsAsked (P.schema rows.now) op.now }
    requires some { 0 < count }
    requires others { AreOthersThan (P.schema rows.now) op.now at count kept.old.list (P.rows rows.now) }
    requires room { chunks_for count ≤ kept.old.spare }
    ensures now { kept.new.list ≡ positions (P.schema rows.now) op.now (P.rows rows.now) }
    ensures put { kept.new.list ≡ with_run result at count kept.old.list }
    ensures value { result ≡ position (λ k. k == at) kept.new.list }
    ensures there { ForSome result (λ p. p ≤ length kept.old.list) }
    ensures spare { kept.old.spare ≤ kept.new.spare + chunks_for count }
    ensures least { steps.old ≤ steps.new }
    ensures cost { is_sorting op.now ≡ true → 2 ^ (steps.new - steps.old) ≤ 2 * length (P.rows rows.now) + 1 }
    ensures test { is_sorting op.now ≡ false → steps.new ≤ steps.old + 1 }
{
    let _size = rows.size();
    if !has(rows, op, at, steps) {
        return None;
    }
    let place = place(rows, op, kept, at, steps);
    kept.insert_many(place, at as u32, count as u32);
    Some(place)
}

/// Whether a change of a row is told as a change, where the row stays in the watch.
fn stays(op: &WatchOp, turn: Turn) -> bool
    ensures { result ≡ stays op.now turn }
{
    matches!((op, turn), (WatchOp::Range(_), Turn::Changes(_)))
}

/// What is told of a row that leaves a place and one that takes a place.
pub fn told(stays: bool, from: Option<usize>, to: Option<usize>) -> Turn
    ensures { result ≡ told stays from to }
{
    match (from, to) {
        (None, None) => Turn::Still,
        (None, Some(to)) => Turn::Comes(to),
        (Some(from), None) => Turn::Goes(from),
        (Some(_), Some(to)) if stays => Turn::Changes(to),
        (Some(from), Some(to)) => Turn::Moves(from, to),
    }
}

/// What a watch keeps: what it shows, the positions of its rows in those of its source, and where the row that is to go stands in it.
#[derive(Drop)]
pub struct Keeper {
    pub op: WatchOp,
    pub kept: Places,
    pub going: Option<usize>,
}

impl Keeper {
    /// Notes, before a turn of the source, the place of the row that will go.
    pub fn before<L: Ledger, P: Probe<L>>(
        &mut self,
        rows: &P,
        goes_from: Option<usize>,
        steps: &mut Steps<L>,
    )
        requires asked { IsAsked (P.schema rows.now) self.old.op }
        requires there { ForSome goes_from (λ p. p < length (P.rows rows.now)) }
        requires now { self.old.kept.list ≡ positions (P.schema rows.now) self.old.op (P.rows rows.now) }
        ensures noted { self.new.going ≡ placed self.old.kept.list goes_from }
        ensures kept { (self.new.kept ≡ self.old.kept) × (self.new.op ≡ self.old.op) }
        ensures least { steps.old ≤ steps.new }
        ensures cost { 2 ^ (steps.new - steps.old) ≤ 2 * length (P.rows rows.now) + 1 }
        ensures free { is_sorting self.old.op ≡ false → steps.new ≡ steps.old }
    {
        self.going = match goes_from {
            None => None,
            Some(row) => find(rows, &self.op, &self.kept, row, steps),
        };
    }

    /// Follows a turn of the source, and answers its own.
    pub fn after<L: Ledger, P: Probe<L>>(
        &mut self,
        rows: &P,
        turn: Turn,
        steps: &mut Steps<L>,
    ) -> Turn
        requires asked { IsAsked (P.schema rows.now) self.old.op }
        requires room { 0 < self.old.kept.spare }
        requires due { IsDue (P.schema rows.now) self.old.op self.old.kept.list turn (P.rows rows.now) }
        requires noted { self.old.going ≡ placed self.old.kept.list (goes_from turn) }
        ensures now { self.new.kept.list ≡ positions (P.schema rows.now) self.old.op (P.rows rows.now) }
        ensures told { result ≡ own self.old.op self.old.kept.list self.new.kept.list turn }
        ensures op { self.new.op ≡ self.old.op }
        ensures spare { self.old.kept.spare ≤ self.new.kept.spare + 1 }
        ensures least { steps.old ≤ steps.new }
        ensures cost { is_sorting self.old.op ≡ true → 2 ^ (steps.new - steps.old) ≤ 2 * length (P.rows rows.now) + 1 }
        ensures test { is_sorting self.old.op ≡ false → steps.new ≤ steps.old + 1 }
    {
        let size = rows.size();
        take_out(&mut self.kept, self.going);
        move_numbers(&mut self.kept, turn, size);
        let to = match turn.comes_to() {
            None => None,
            Some(row) => enter(rows, &self.op, &mut self.kept, row, steps),
        };
        told(stays(&self.op, turn), self.going, to)
    }
    /// Follows copies of a row that came side by side in the source, so many from a place on. They stand side by side in the watch too, where
    /// it has them: answers where the first does. It makes one test, or one search.
    pub fn spread<L: Ledger, P: Probe<L>>(
        &mut self,
        rows: &P,
        at: usize,
        count: usize,
        steps: &mut Steps<L>,
    ) -> Option<usize>
        requires asked { IsAsked (P.schema rows.now) self.old.op }
        requires some { 0 < count }
        requires room { chunks_for count ≤ self.old.kept.spare }
        requires due { IsSpreadDue (P.schema rows.now) self.old.op self.old.kept.list (Some at) count (P.rows rows.now) }
        ensures now { self.new.kept.list ≡ positions (P.schema rows.now) self.old.op (P.rows rows.now) }
        ensures spread { (row : List Datum) (before : List (List Datum)) → self.old.kept.list ≡ positions (P.schema rows.now) self.old.op before → IsSpread (Some at) count row before (P.rows rows.now)
            → IsSpread result count row (rows_at before self.old.kept.list) (rows_at (P.rows rows.now) self.new.kept.list) }
        ensures value { result ≡ placed self.new.kept.list (Some at) }
        ensures op { self.new.op ≡ self.old.op }
        ensures spare { self.old.kept.spare ≤ self.new.kept.spare + chunks_for count }
        ensures least { steps.old ≤ steps.new }
        ensures cost { is_sorting self.old.op ≡ true → 2 ^ (steps.new - steps.old) ≤ 2 * length (P.rows rows.now) + 1 }
        ensures test { is_sorting self.old.op ≡ false → steps.new ≤ steps.old + 1 }
    {
        let size = rows.size();
        open_run(&mut self.kept, at, count, size);
        put_run(rows, &self.op, &mut self.kept, at, count, steps)
    }
}
