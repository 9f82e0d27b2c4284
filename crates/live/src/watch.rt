ghost use Rattle.std.specs.Prelude.{◌≡◌, ◌+◌, ◌-◌, ◌*◌, ◌^◌, ◌<◌, ◌≤◌, [], ℕ, List, All, true, false, filter, length, map, slice_index, slice_index_or, None, OnOk};
ghost use Rattle.std.specs.Option.{ForSome};
ghost use Rattle.mk_value.specs.Data.{Datum};
ghost use Rattle.relations.specs.Rows.{rows_at};
ghost use Rattle.places.specs.Numbers.{chunks_for};
ghost use Rattle.live.specs.Chains.{IsRaised, IsSame};
ghost use Rattle.live.specs.Edits.{HasTaken, IsSpread, IsSpreadDue};
ghost use Rattle.row_edits.specs.Runs.{kept_outside};
ghost use Rattle.live.specs.Leaving.{has_rank};
ghost use Rattle.live.specs.Putting.{closed_source};
ghost use Rattle.live.specs.Turns.{answer_of, still_watch};
ghost use Rattle.live.specs.Watching.{IsAsked, IsDue, MeansAs, comes_to, goes_from, is_sorting, own, placed, positions, told};
ghost use Rattle.live.specs.declared.answer.Answer.TheVariants.{Nothing};
ghost use Rattle.live.specs.declared.turn.Turn.TheVariants.{Still};

use crate::answer::Answer;
use crate::keeper::{Keeper, told};
use crate::op::WatchOp;
use crate::probe::Probe;
use crate::turn::Turn;
use mk_value::{Memory, Steps};
use places::Places;
use std::marker::Model;
use std::sync::ledger::Ledger;

/// A watch among others: over the root, or over one that was put before.
#[derive(Drop)]
pub(crate) struct Watch {
    number: u32,
    source: Option<usize>,
    op: WatchOp,
    /// It asks rows what the operator asks, with each property once.
    keeper: Keeper,
    turn: Turn,
    answer: Answer,
    followed: u64,
}

impl Model for Watch {
    ghost use Rattle.live.specs.States.{WatchState};

    ghost Value = { WatchState };

    ghost use Rattle.std.specs.Coded.{codes};
    ghost use Rattle.relations.specs.Criteria.{interval_code};

    ghost coded = { Prim.hlevel (codes, interval_code) };

    ghost view = { λ w. record {
      number = w.number;
      source = w.source;
      op = w.op;
      kept = w.keeper.kept.list;
      room = w.keeper.kept.spare;
      going = w.keeper.going;
      turn = w.turn;
      answer = w.answer;
      followed = w.followed;
    } };

    ghost use Rattle.live.specs.Watching.{MeansAs};

    ghost invariant = { λ w. MeansAs w.op w.keeper.op };
}

impl Watch {
    /// A watch that has followed nothing. What is asked of rows is what the operator asks.
    pub fn new(
        number: u32,
        source: Option<usize>,
        op: WatchOp,
        asked: WatchOp,
        kept: Places,
    ) -> Watch
        requires { MeansAs op asked }
        ensures number { result.number ≡ number }
        ensures source { result.source ≡ source }
        ensures op { result.op ≡ op }
        ensures kept { result.kept ≡ kept.list }
        ensures turn { result.turn ≡ Still }
        ensures answer { result.answer ≡ Nothing }
        ensures followed { result.followed ≡ 0 }
    {
        let keeper = Keeper {
            op: asked,
            kept,
            going: None,
        };
        Watch {
            number,
            source,
            op,
            keeper,
            turn: Turn::Still,
            answer: Answer::Nothing,
            followed: 0,
        }
    }

    pub fn number(&self) -> u32
        ensures { result ≡ self.now.number }
    {
        self.number
    }

    /// The place of its source among the watches, or none where that is the root.
    pub fn source(&self) -> Option<usize>
        ensures { result ≡ self.now.source }
    {
        self.source
    }

    /// What it shows of its source.
    pub fn op(&self) -> &WatchOp
        ensures { result.now ≡ self.now.op }
    {
        &self.op
    }

    /// How many rows it shows.
    pub fn len(&self) -> usize
        ensures { result ≡ length self.now.kept }
    {
        self.keeper.kept.len()
    }

    /// Where a row stands in the source.
    pub fn position(&self, row: usize) -> usize
        requires { row < length self.now.kept }
        ensures { result ≡ slice_index self.now.kept row }
    {
        self.keeper.kept.get(row) as usize
    }

    /// Where the row that is to go stands in it.
    pub fn going(&self) -> Option<usize>
        ensures { result ≡ self.now.going }
    {
        self.keeper.going
    }

    /// What the last event did to it.
    pub fn turn(&self) -> Turn
        ensures { result ≡ self.now.turn }
    {
        self.turn
    }

    /// What it answered to the last event or edit.
    pub fn answer(&self) -> Answer
        ensures { result ≡ self.now.answer }
    {
        self.answer
    }

    /// How many events it has followed.
    pub fn followed(&self) -> u64
        ensures { result ≡ self.now.followed }
    {
        self.followed
    }

    /// Lays so many chunks of positions aside.
    pub fn reserve(&mut self, more: usize) -> Result<(), Memory>
        ensures same { IsSame self.old self.new }
        ensures going { self.new.going ≡ self.old.going }
        ensures grown { self.old.room ≤ self.new.room }
        ensures room { OnOk result (more ≤ self.new.room) }
    {
        self.keeper.kept.reserve(more)?;
        Ok(())
    }

    /// Moves the place of its source down where it stands behind the watch that was taken out.
    pub fn close_source(&mut self, taken: usize)
        ensures { self.new ≡ closed_source taken self.old }
    {
        self.source = match self.source {
            Some(source) if taken < source => Some(source - 1),
            other => other,
        };
    }

    /// Notes, before a turn of the source, where the row that will go stands.
    pub fn note<L: Ledger, P: Probe<L>>(
        &mut self,
        rows: &P,
        goes_from: Option<usize>,
        steps: &mut Steps<L>,
    )
        requires asked { IsAsked (P.schema rows.now) self.old.op }
        requires there { ForSome goes_from (λ p. p < length (P.rows rows.now)) }
        requires now { self.old.kept ≡ positions (P.schema rows.now) self.old.op (P.rows rows.now) }
        ensures noted { self.new.going ≡ placed self.old.kept goes_from }
        ensures same { IsSame self.old self.new }
        ensures room { self.new.room ≡ self.old.room }
        ensures least { steps.old ≤ steps.new }
        ensures cost { 2 ^ (steps.new - steps.old) ≤ 2 * length (P.rows rows.now) + 1 }
        ensures free { is_sorting self.old.op ≡ false → steps.new ≡ steps.old }
    {
        self.keeper.before(rows, goes_from, steps);
    }

    /// Follows a turn of the source.
    pub fn follow<L: Ledger, P: Probe<L>>(&mut self, rows: &P, turn: Turn, steps: &mut Steps<L>)
        requires asked { IsAsked (P.schema rows.now) self.old.op }
        requires room { 0 < self.old.room }
        requires due { IsDue (P.schema rows.now) self.old.op self.old.kept turn (P.rows rows.now) }
        requires noted { self.old.going ≡ placed self.old.kept (goes_from turn) }
        ensures now { self.new.kept ≡ positions (P.schema rows.now) self.old.op (P.rows rows.now) }
        ensures told { self.new.turn ≡ own self.old.op self.old.kept self.new.kept turn }
        ensures raised { IsRaised self.old self.new }
        ensures least { steps.old ≤ steps.new }
        ensures cost { is_sorting self.old.op ≡ true → 2 ^ (steps.new - steps.old) ≤ 2 * length (P.rows rows.now) + 1 }
        ensures test { is_sorting self.old.op ≡ false → steps.new ≤ steps.old + 1 }
    {
        self.turn = self.keeper.after(rows, turn, steps);
        self.answer = Answer::of_turn(1, self.turn);
        self.followed = self.followed.saturating_add(1);
    }

    /// Follows copies of a row that came side by side in the source, so many from a place on, if one is named. Its turn is then that they come,
    /// told by where the first of them stands.
    pub fn spread<L: Ledger, P: Probe<L>>(
        &mut self,
        rows: &P,
        at: Option<usize>,
        count: usize,
        steps: &mut Steps<L>,
    )
        requires asked { IsAsked (P.schema rows.now) self.old.op }
        requires some { 0 < count }
        requires room { chunks_for count ≤ self.old.room }
        requires due { IsSpreadDue (P.schema rows.now) self.old.op self.old.kept at count (P.rows rows.now) }
        ensures now { self.new.kept ≡ positions (P.schema rows.now) self.old.op (P.rows rows.now) }
        ensures spread { (row : List Datum) (before : List (List Datum)) → self.old.kept ≡ positions (P.schema rows.now) self.old.op before → IsSpread at count row before (P.rows rows.now)
            → IsSpread (comes_to self.new.turn) count row (rows_at before self.old.kept) (rows_at (P.rows rows.now) self.new.kept) }
        ensures told { self.new.turn ≡ told false None (placed self.new.kept at) }
        ensures answer { self.new.answer ≡ answer_of count self.new.turn }
        ensures taken { HasTaken count (chunks_for count) self.old self.new }
        ensures least { steps.old ≤ steps.new }
        ensures cost { is_sorting self.old.op ≡ true → 2 ^ (steps.new - steps.old) ≤ 2 * length (P.rows rows.now) + 1 }
        ensures test { is_sorting self.old.op ≡ false → steps.new ≤ steps.old + 1 }
    {
        let to = match at {
            None => None,
            Some(at) => self.keeper.spread(rows, at, count, steps),
        };
        self.turn = told(false, None, to);
        self.answer = Answer::of_turn(count, self.turn);
        self.followed = self.followed.saturating_add(count as u64);
    }

    /// Leaves out the rows that stood in the source from a place on, so many, and moves the others up to them.
    pub fn leave(&mut self, at: usize, count: usize)
        requires { at + count < 2 ^ 32 }
        ensures kept { self.new.kept ≡ kept_outside at count self.old.kept }
        ensures taken { HasTaken 0 0 self.old self.new }
    {
        self.keeper.kept.remove_positions(at as u32, count as u32);
    }

    /// Leaves out the rows of the source that have no rank, and moves the others to theirs.
    pub fn leave_unranked(&mut self, ranks: &[u32])
        requires { All (λ k. k < length ranks.now) self.old.kept }
        ensures kept { self.new.kept ≡ filter has_rank (map (λ k. slice_index_or ranks.now k 0) self.old.kept) }
        ensures taken { HasTaken 0 0 self.old self.new }
    {
        self.keeper.kept.keep_ranked(ranks);
    }

    /// Counts events that it has followed, and keeps what it answered to them.
    pub fn count(&mut self, events: usize, answer: Answer)
        requires { 0 < events }
        ensures kept { self.new.kept ≡ self.old.kept }
        ensures answer { self.new.answer ≡ answer }
        ensures taken { HasTaken events 0 self.old self.new }
    {
        self.answer = answer;
        self.followed = self.followed.saturating_add(events as u64);
    }

    /// Answers nothing, to an edit of no rows.
    pub fn answer_nothing(&mut self)
        ensures { self.new ≡ still_watch self.old }
    {
        self.answer = Answer::Nothing;
    }
}
