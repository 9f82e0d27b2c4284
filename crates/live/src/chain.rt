//! Watches over watches: rows seen through the positions that they keep, and one event noted and followed by all, each after its source.
ghost use Rattle.std.specs.Prelude.{◌≡◌, ◌+◌, ◌-◌, ◌*◌, ◌^◌, ◌<◌, ◌≤◌, [], ℕ, true, false, length, map, slice_index_or, sum_by, None, Some};
ghost use Rattle.std.specs.Option.{ForSome};
ghost use Rattle.live.specs.Chains.{AreDue, AreInOrder, AreInside, AreLinked, AreNoted, AreNow, AreSame, AreTold, HaveRoom, IsRaised, IsSame, depth, going_of, place_in_root, seen, turn_of};
ghost use Rattle.live.specs.States.{WatchState};
ghost use Rattle.live.specs.Costs.{after_cost, before_cost};
ghost use Rattle.live.specs.Watching.{IsAsked, IsDue, IsTurn, goes_from, is_sorting, own, placed, positions};

use crate::op::{Criteria, Keys};
use crate::probe::Probe;
use crate::turn::Turn;
use crate::watch::Watch;
use mk_value::Steps;
use std::cmp::Ordering;
use std::marker::PhantomData;
use std::sync::ledger::Ledger;

/// Where a row of the root, or of a watch, stands in the root.
pub(crate) fn root_place(watches: &[Watch], over: Option<usize>, row: usize) -> usize
    requires inside { AreInside watches.now }
    requires there { ForSome over (λ w. w < length watches.now) }
    requires row_in { ForSome over (λ w. (d : WatchState) → row < length (slice_index_or watches.now w d).kept) }
    ensures { result ≡ place_in_root watches.now over row }
{
    let mut at = row;
    let mut over = over;
    while let Some(w) = over {
        let watch = &watches[w];
        at = watch.position(at);
        over = watch.source();
    }
    at
}

/// How many watches a source is over the root, itself among them.
pub(crate) fn depth_of(watches: &[Watch], source: Option<usize>) -> usize
    requires order { AreInOrder watches.now }
    requires there { ForSome source (λ w. w < length watches.now) }
    ensures { result ≡ depth watches.now source }
{
    let mut count = 0;
    let mut over = source;
    while let Some(w) = over {
        count += 1;
        over = watches[w].source();
    }
    count
}

/// The rows of the root, or those of a watch, seen through the positions that the watches keep.
#[derive(Drop)]
pub(crate) struct Seen<'a, L: Ledger, P: Probe<L>> {
    pub rows: &'a P,
    pub watches: &'a [Watch],
    pub over: Option<usize>,
    pub ledger: PhantomData<L>,
    pub ghost linked: { AreLinked (P.rows rows.now) watches.now },
    pub ghost there: { ForSome over (λ w. w < length watches.now) },
}

impl<'a, L: Ledger, P: Probe<L>> Seen<'a, L, P> {
    /// Where a row stands in the root.
    fn root_of(&self, row: usize) -> usize
        requires { row < length (seen (P.rows self.now.rows.now) self.now.watches.now self.now.over) }
        ensures within { result < length (P.rows self.now.rows.now) }
        ensures value { slice_index_or (P.rows self.now.rows.now) result [] ≡ slice_index_or (seen (P.rows self.now.rows.now) self.now.watches.now self.now.over) row [] }
    {
        root_place(self.watches, self.over, row)
    }
}

impl<'a, L: Ledger, P: Probe<L>> Probe<L> for Seen<'a, L, P> {
    ghost schema = { λ s. P.schema s.rows.now };

    ghost rows = { λ s. seen (P.rows s.rows.now) s.watches.now s.over };

    fn size(&self) -> usize {
        match self.over {
            None => self.rows.size(),
            Some(w) => self.watches[w].len(),
        }
    }

    fn test(&self, row: usize, op: &Criteria, steps: &mut Steps<L>) -> bool {
        self.rows.test(self.root_of(row), op, steps)
    }

    fn compare(&self, a: usize, b: usize, keys: &Keys, steps: &mut Steps<L>) -> Ordering {
        self.rows
            .compare(self.root_of(a), self.root_of(b), keys, steps)
    }
}

/// What an event of the root does to a source.
fn turn_of(root: Turn, below: &[Watch], source: Option<usize>) -> Turn
    requires { ForSome source (λ s. s < length below.now) }
    ensures { result ≡ turn_of root below.now source }
{
    match source {
        None => root,
        Some(s) => below[s].turn(),
    }
}

/// One watch follows an event of the root, which the watches before it have followed.
fn follow<L: Ledger, P: Probe<L>>(
    rows: &P,
    below: &[Watch],
    watch: &mut Watch,
    root: Turn,
    steps: &mut Steps<L>,
)
    requires asked { IsAsked (P.schema rows.now) watch.old.op }
    requires linked { AreLinked (P.rows rows.now) below.now }
    requires source { ForSome watch.old.source (λ s. s < length below.now) }
    requires room { 0 < watch.old.room }
    requires due { IsDue (P.schema rows.now) watch.old.op watch.old.kept (turn_of root below.now watch.old.source) (seen (P.rows rows.now) below.now watch.old.source) }
    requires noted { watch.old.going ≡ placed watch.old.kept (goes_from (turn_of root below.now watch.old.source)) }
    ensures now { watch.new.kept ≡ positions (P.schema rows.now) watch.old.op (seen (P.rows rows.now) below.now watch.old.source) }
    ensures told { watch.new.turn ≡ own watch.old.op watch.old.kept watch.new.kept (turn_of root below.now watch.old.source) }
    ensures raised { IsRaised watch.old watch.new }
    ensures least { steps.old ≤ steps.new }
    ensures cost { is_sorting watch.old.op ≡ true → 2 ^ (steps.new - steps.old) ≤ 2 * length (seen (P.rows rows.now) below.now watch.old.source) + 1 }
    ensures test { is_sorting watch.old.op ≡ false → steps.new ≤ steps.old + 1 }
{
    let over = watch.source();
    let turn = turn_of(root, below, over);
    let seen = Seen {
        rows,
        watches: below,
        over,
        ledger: PhantomData,
    };
    watch.follow(&seen, turn, steps);
}

/// All watches follow an event of the root, each after its source.
pub(crate) fn after_all<L: Ledger, P: Probe<L>>(
    rows: &P,
    watches: &mut [Watch],
    root: Turn,
    steps: &mut Steps<L>,
)
    requires due { AreDue (P.schema rows.now) watches.old root (P.rows rows.now) }
    requires noted { AreNoted (goes_from root) watches.old }
    requires room { HaveRoom watches.old }
    ensures now { AreNow (P.schema rows.now) (P.rows rows.now) watches.new }
    ensures told { AreTold root watches.old watches.new }
    ensures made { (due : AreDue (P.schema rows.now) watches.old root (P.rows rows.now)) (k : ℕ) (d : WatchState) → k < length watches.old
        → IsTurn (slice_index_or watches.new k d).turn (seen due.before watches.old (Some k)) (seen (P.rows rows.now) watches.new (Some k)) }
    ensures cost { steps.new ≤ steps.old + sum_by (after_cost (P.rows rows.now) watches.new) watches.new }
{
    let _size = rows.size();
    for i in 0..watches.len() {
        let (below, rest) = watches.split_at_mut(i);
        follow(rows, below, &mut rest[0], root, steps);
    }
}

/// Where the row that goes stood in a source.
fn going_of(goes: Option<usize>, below: &[Watch], source: Option<usize>) -> Option<usize>
    requires { ForSome source (λ s. s < length below.now) }
    ensures { result ≡ going_of goes below.now source }
{
    match source {
        None => goes,
        Some(s) => below[s].going(),
    }
}

/// One watch notes where the row that goes stands in it, which the watches before it have noted.
fn note<L: Ledger, P: Probe<L>>(
    rows: &P,
    below: &[Watch],
    watch: &mut Watch,
    goes: Option<usize>,
    steps: &mut Steps<L>,
)
    requires asked { IsAsked (P.schema rows.now) watch.old.op }
    requires linked { AreLinked (P.rows rows.now) below.now }
    requires source { ForSome watch.old.source (λ s. s < length below.now) }
    requires there { ForSome (going_of goes below.now watch.old.source) (λ p. p < length (seen (P.rows rows.now) below.now watch.old.source)) }
    requires now { watch.old.kept ≡ positions (P.schema rows.now) watch.old.op (seen (P.rows rows.now) below.now watch.old.source) }
    ensures noted { watch.new.going ≡ placed watch.old.kept (going_of goes below.now watch.old.source) }
    ensures same { IsSame watch.old watch.new }
    ensures room { watch.new.room ≡ watch.old.room }
    ensures least { steps.old ≤ steps.new }
    ensures cost { 2 ^ (steps.new - steps.old) ≤ 2 * length (seen (P.rows rows.now) below.now watch.old.source) + 1 }
    ensures free { is_sorting watch.old.op ≡ false → steps.new ≡ steps.old }
{
    let over = watch.source();
    let goes = going_of(goes, below, over);
    let seen = Seen {
        rows,
        watches: below,
        over,
        ledger: PhantomData,
    };
    watch.note(&seen, goes, steps);
}

/// All watches note, before an event of the root, where the row that goes stands in them.
pub(crate) fn before_all<L: Ledger, P: Probe<L>>(
    rows: &P,
    watches: &mut [Watch],
    goes: Option<usize>,
    steps: &mut Steps<L>,
)
    requires now { AreNow (P.schema rows.now) (P.rows rows.now) watches.old }
    requires there { ForSome goes (λ p. p < length (P.rows rows.now)) }
    ensures noted { AreNoted goes watches.new }
    ensures same { AreSame watches.old watches.new }
    ensures room { map (λ w. w.room) watches.new ≡ map (λ w. w.room) watches.old }
    ensures cost { steps.new ≤ steps.old + sum_by (before_cost (P.rows rows.now) watches.old) watches.old }
{
    for i in 0..watches.len() {
        let (below, rest) = watches.split_at_mut(i);
        note(rows, below, &mut rest[0], goes, steps);
    }
}
