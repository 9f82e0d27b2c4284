//! All watches of a root.
ghost use Rattle.std.specs.Prelude.{◌≡◌, ◌≢◌, ◌+◌, ◌<◌, ◌≤◌, [], ℕ, All, IsTrue, ◌↔◌, List, length, slice_index_or, sum_by, None, Some, IfOk, OnOk, OnErr};
ghost use Rattle.std.specs.Option.{ForSome};
ghost use Rattle.std.specs.Result.{result_err};
ghost use Rattle.mk_value.specs.Data.{Datum};
ghost use Rattle.mk_value.specs.Heading.{Attribute};
ghost use Rattle.mk_value.specs.Limits.{max_rows};
ghost use Rattle.row_edits.specs.Edits.{IsInRange, edited};
ghost use Rattle.row_edits.specs.Events.{count_of};
ghost use Rattle.live.specs.Answers.{AreEditDue, HaveAnswered, HaveDone, follow_cost, note_cost, noted_for, room_followed, room_noted};
ghost use Rattle.live.specs.Chains.{AreDue, AreNow, AreSame, AreTold, depth, place_in_root};
ghost use Rattle.live.specs.Costs.{after_cost, before_cost};
ghost use Rattle.live.specs.Edits.{HaveFollowed, edit_cost, room_of};
ghost use Rattle.live.specs.Numbers.{over_of, place_of, watch_of};
ghost use Rattle.live.specs.Putting.{AnswersPut, IsPlace, IsPut, put_due, spare, without_watch};
ghost use Rattle.live.specs.States.{WatchState};
ghost use Rattle.live.specs.Telling.{told_by};
ghost use Rattle.live.specs.Watching.{root_turn};

use crate::answer::Answer;
use crate::chain::{after_all, before_all, depth_of, root_place};
use crate::edited::follow_all;
use crate::error::WatchError;
use crate::listed::{
    close_sources, find, free_number, is_there, most_through, place, push, reserve_all, tell_all,
};
use crate::op::WatchOp;
use crate::out::Out;
use crate::picked::seen_positions;
use crate::probe::Probe;
use crate::putting::{asked_once, check_op, spelled};
use crate::turn::Turn;
use crate::watch::Watch;
use mk_value::{Memory, Schema, Steps, TableRead};
use row_edits::{Event, RowEdit};
use std::alloc::Global;
use std::marker::Model;
use std::sync::ledger::Ledger;

/// The watches of one root view, each over its rows or over a watch that was put before.
#[derive(Drop)]
pub struct Watches {
    list: Vec<Watch>,
    noted: Option<Event>,
    /// Room for a number for each row of a watch that others stand over.
    aside: Vec<u32>,
}

impl Model for Watches {
    ghost use Rattle.live.specs.States.{Watching};

    ghost Value = { Watching };

    ghost use Rattle.std.specs.Coded.{codes};
    ghost use Rattle.relations.specs.Criteria.{interval_code};

    ghost coded = { Prim.hlevel (codes, interval_code) };

    ghost use Rattle.live.specs.Keeping.{AreKept};

    ghost view = { λ s. record { watches = s.list.items; noted = s.noted } };

    ghost invariant = { λ s. AreKept s.list.items s.noted };
}

impl Watches {
    /// No watches.
    pub fn new(alloc: Global) -> Watches
        ensures watches { result.watches ≡ [] }
        ensures noted { result.noted ≡ None }
        ensures now { (schema : List Attribute) (rows : List (List Datum)) → length rows ≤ max_rows → AreNow schema rows result.watches }
    {
        Watches {
            list: Vec::new(alloc),
            noted: None,
            aside: Vec::new(alloc),
        }
    }

    /// Adds a watch over the rows, or over an earlier watch, and gives it the least number that no watch has. A sorting without keys
    /// is by all properties that are no views. The rows are those that the watches stand over.
    ///
    /// # Errors
    ///
    /// In this order: `NoProp` where a named property is absent, `WrongKind` where one is a view or a value does not fit it, `TooDeep`
    /// where the chain would be more than four long, `Memory`. The watches are then as before.
    pub fn put<T: TableRead>(
        &mut self,
        source: Option<u32>,
        op: WatchOp,
        rows: &T,
    ) -> Result<u32, WatchError>
        requires source { ForSome source (λ n. place_of self.old.watches n < length self.old.watches) }
        requires few { length self.old.watches < 64 }
        requires now { AreNow (T.schema rows.now) (T.rows rows.now) self.old.watches }
        ensures due { AnswersPut (put_due (T.schema rows.now) op (depth self.old.watches (over_of self.old.watches source))) result }
        ensures put { IfOk result (IsPut (T.schema rows.now) (T.rows rows.now) self.old.watches (over_of self.old.watches source) op self.new.watches) }
        ensures noted { OnOk result (self.new.noted ≡ None) }
        ensures now { AreNow (T.schema rows.now) (T.rows rows.now) self.new.watches }
        ensures err { OnErr result (self.new ≡ self.old) }
    {
        let schema = rows.schema();
        check_op(schema, &op)?;
        let over = place(&self.list, source);
        if depth_of(&self.list, over) > 3 {
            return Err(WatchError::TooDeep);
        }
        let alloc = *self.list.allocator();
        let kept = seen_positions(alloc, &self.list, over, &op, rows)?;
        let op = spelled(alloc, schema, op)?;
        let asked = asked_once(alloc, &op)?;
        let number = free_number(&self.list);
        push(&mut self.list, Watch::new(number, over, op, asked, kept))?;
        self.noted = None;
        Ok(number)
    }

    /// Whether a watch may be put, whatever memory there is.
    ///
    /// # Errors
    ///
    /// The refusal that is due, as of `put`.
    pub fn check(
        &self,
        source: Option<u32>,
        op: &WatchOp,
        schema: &Schema,
    ) -> Result<(), WatchError>
        requires { ForSome source (λ n. place_of self.now.watches n < length self.now.watches) }
        ensures { result_err result ≡ put_due schema.now op.now (depth self.now.watches (over_of self.now.watches source)) }
    {
        check_op(schema, op)?;
        let over = place(&self.list, source);
        if depth_of(&self.list, over) > 3 {
            return Err(WatchError::TooDeep);
        }
        Ok(())
    }

    /// Takes out a watch that no watch stands over.
    pub fn take_out(&mut self, watch: u32)
        requires there { place_of self.old.watches watch < length self.old.watches }
        requires free { All (λ w. w.source ≢ Some (place_of self.old.watches watch)) self.old.watches }
        ensures watches { self.new.watches ≡ without_watch (place_of self.old.watches watch) self.old.watches }
        ensures noted { self.new.noted ≡ None }
        ensures now { (schema : List Attribute) (rows : List (List Datum)) → AreNow schema rows self.old.watches → AreNow schema rows self.new.watches }
    {
        let at = find(&self.list, watch);
        let _taken = self.list.remove(at);
        close_sources(&mut self.list, at);
        self.noted = None;
    }

    /// Lays so many chunks of positions aside for each watch: one for an event, and [`room_of`](crate::room_of) for an edit; and makes room beside
    /// for the ranks of rows that go from under a watch.
    ///
    /// # Errors
    ///
    /// `Memory`; the watches are then as before.
    pub fn reserve(&mut self, more: usize) -> Result<(), Memory>
        ensures same { AreSame self.old.watches self.new.watches }
        ensures noted { self.new.noted ≡ self.old.noted }
        ensures now { (schema : List Attribute) (rows : List (List Datum)) → AreNow schema rows self.old.watches → AreNow schema rows self.new.watches }
        ensures spare { OnOk result (more ≤ spare self.new) }
    {
        if more == usize::MAX {
            return Err(Memory);
        }
        self.aside.clear();
        self.aside.reserve(most_through(&self.list))?;
        // One is set aside where an event is noted.
        reserve_all(&mut self.list, more + 1)
    }

    /// Notes an event before it happens. It takes no memory.
    pub fn before<L: Ledger, P: Probe<L>>(&mut self, rows: &P, event: &Event, steps: &mut Steps<L>)
        requires now { AreNow (P.schema rows.now) (P.rows rows.now) self.old.watches }
        requires reserved { 0 < spare self.old }
        requires place { IsPlace event.now (length (P.rows rows.now)) }
        ensures same { AreSame self.old.watches self.new.watches }
        ensures now { AreNow (P.schema rows.now) (P.rows rows.now) self.new.watches }
        ensures noted { self.new.noted ≡ Some event.now }
        ensures spare { spare self.old ≤ spare self.new + 1 }
        ensures cost { steps.new ≤ steps.old + sum_by (before_cost (P.rows rows.now) self.old.watches) self.old.watches }
    {
        before_all(
            rows,
            &mut self.list,
            Turn::of_root(event).goes_from(),
            steps,
        );
        self.noted = Some(*event);
    }

    /// Follows the event that was noted last, after it happened, and puts the own events of each watch into the list, which is emptied
    /// first. It takes no memory.
    pub fn after<L: Ledger, P: Probe<L>>(
        &mut self,
        rows: &P,
        event: &Event,
        out: &mut Out,
        steps: &mut Steps<L>,
    )
        requires due { AreDue (P.schema rows.now) self.old.watches (root_turn event.now) (P.rows rows.now) }
        requires noted { self.old.noted ≡ Some event.now }
        requires told_room { length self.old.watches ≤ out.old.spare }
        ensures now { AreNow (P.schema rows.now) (P.rows rows.now) self.new.watches }
        ensures told { AreTold (root_turn event.now) self.old.watches self.new.watches }
        ensures out { out.new.told ≡ told_by self.new.watches }
        ensures noted { self.new.noted ≡ None }
        ensures spare { spare self.old ≤ spare self.new }
        ensures out_spare { out.new.spare ≡ out.old.spare }
        ensures cost { steps.new ≤ steps.old + sum_by (after_cost (P.rows rows.now) self.new.watches) self.new.watches }
    {
        after_all(rows, &mut self.list, Turn::of_root(event), steps);
        self.noted = None;
        tell_all(&self.list, out);
    }

    /// Notes an edit of the root and follows it, where both the rows before and those after it can be seen.
    pub fn follow<L: Ledger, P: Probe<L>, Q: Probe<L>>(
        &mut self,
        before: &P,
        after: &Q,
        edit: RowEdit,
        steps: &mut Steps<L>,
    )
        requires schema { Q.schema after.now ≡ P.schema before.now }
        requires now { AreNow (P.schema before.now) (P.rows before.now) self.old.watches }
        requires range { IsInRange edit (length (P.rows before.now)) }
        requires made { (row : List Datum) × (Q.rows after.now ≡ edited row edit (P.rows before.now)) }
        requires reserved { room_of edit ≤ spare self.old }
        ensures now { AreNow (P.schema before.now) (Q.rows after.now) self.new.watches }
        ensures followed { HaveFollowed (count_of edit) self.old.watches self.new.watches }
        ensures noted { self.new.noted ≡ None }
        ensures spare { spare self.old ≤ spare self.new + room_of edit }
        ensures cost { steps.new ≤ steps.old + edit_cost edit (P.rows before.now) (Q.rows after.now) self.old.watches self.new.watches }
    {
        self.note_edit(before, edit, steps);
        self.follow_edit(after, edit, steps);
    }

    /// Notes an edit of the root before it happens: of a row that changes where it stands, and of rows that come or go nothing. It takes no
    /// memory.
    pub fn note_edit<L: Ledger, P: Probe<L>>(
        &mut self,
        rows: &P,
        edit: RowEdit,
        steps: &mut Steps<L>,
    )
        requires now { AreNow (P.schema rows.now) (P.rows rows.now) self.old.watches }
        requires range { IsInRange edit (length (P.rows rows.now)) }
        requires reserved { room_noted edit ≤ spare self.old }
        ensures same { AreSame self.old.watches self.new.watches }
        ensures now { AreNow (P.schema rows.now) (P.rows rows.now) self.new.watches }
        ensures noted { self.new.noted ≡ noted_for edit }
        ensures spare { spare self.old ≤ spare self.new + room_noted edit }
        ensures cost { steps.new ≤ steps.old + note_cost edit (P.rows rows.now) self.old.watches }
    {
        match edit {
            RowEdit::Insert { .. } | RowEdit::Remove { .. } => self.noted = None,
            RowEdit::Change { at } => self.before(rows, &Event::Change(at), steps),
        }
    }

    /// Follows the edit of the root that was noted last, after it happened, in one step whatever its count: rows that come cost as much as one,
    /// and rows that go no test and no comparison. Each watch keeps what it answers. Room is wanted for the rows that come. It takes no memory.
    pub fn follow_edit<L: Ledger, P: Probe<L>>(
        &mut self,
        rows: &P,
        edit: RowEdit,
        steps: &mut Steps<L>,
    )
        requires due { AreEditDue (P.schema rows.now) self.old.watches edit (P.rows rows.now) }
        requires noted { self.old.noted ≡ noted_for edit }
        requires reserved { room_followed edit ≤ spare self.old }
        ensures now { AreNow (P.schema rows.now) (P.rows rows.now) self.new.watches }
        ensures answered { HaveAnswered edit self.old.watches self.new.watches }
        ensures done { (due : AreEditDue (P.schema rows.now) self.old.watches edit (P.rows rows.now)) → HaveDone edit due.before (P.rows rows.now) self.old.watches self.new.watches }
        ensures followed { HaveFollowed (count_of edit) self.old.watches self.new.watches }
        ensures noted { self.new.noted ≡ None }
        ensures spare { spare self.old ≤ spare self.new + room_followed edit }
        ensures cost { steps.new ≤ steps.old + follow_cost edit (P.rows rows.now) self.new.watches }
    {
        follow_all(rows, &mut self.list, &mut self.aside, edit, steps);
        self.noted = None;
    }

    /// How many watches there are.
    pub fn count(&self) -> usize
        ensures { result ≡ length self.now.watches }
    {
        self.list.len()
    }

    /// Whether a watch has this number.
    pub fn has(&self, watch: u32) -> bool
        ensures { IsTrue result ↔ (place_of self.now.watches watch < length self.now.watches) }
    {
        is_there(&self.list, watch)
    }

    /// The number of the watch at a place, in the order in which they were put.
    pub fn number_at(&self, place: usize) -> u32
        requires { place < length self.now.watches }
        ensures { (d : WatchState) → result ≡ (slice_index_or self.now.watches place d).number }
    {
        self.list[place].number()
    }

    /// The place of the source of the watch at a place, or none where that is the root.
    pub fn source_at(&self, place: usize) -> Option<usize>
        requires { place < length self.now.watches }
        ensures source { (d : WatchState) → result ≡ (slice_index_or self.now.watches place d).source }
        ensures before { ForSome result (λ s. s < place) }
    {
        self.list[place].source()
    }

    /// What the watch at a place shows of its source.
    pub fn op_at(&self, place: usize) -> &WatchOp
        requires { place < length self.now.watches }
        ensures { (d : WatchState) → result.now ≡ (slice_index_or self.now.watches place d).op }
    {
        self.list[place].op()
    }

    /// What the rows of a watch did by the last event or edit that it followed, and nothing where it has followed none.
    pub fn answer(&self, watch: u32) -> Answer
        requires { place_of self.now.watches watch < length self.now.watches }
        ensures { (d : WatchState) → result ≡ (watch_of self.now.watches watch d).answer }
    {
        self.list[find(&self.list, watch)].answer()
    }

    /// How many events a watch has followed since it was put.
    pub fn followed(&self, watch: u32) -> u64
        requires { place_of self.now.watches watch < length self.now.watches }
        ensures { (d : WatchState) → result ≡ (watch_of self.now.watches watch d).followed }
    {
        self.list[find(&self.list, watch)].followed()
    }

    /// Where the row at a place of a watch stands in the root.
    pub fn at(&self, watch: u32, i: usize) -> usize
        requires there { place_of self.now.watches watch < length self.now.watches }
        requires row_in { (d : WatchState) → i < length (watch_of self.now.watches watch d).kept }
        ensures { result ≡ place_in_root self.now.watches (Some (place_of self.now.watches watch)) i }
    {
        root_place(&self.list, Some(find(&self.list, watch)), i)
    }

    /// How many rows a watch has.
    pub fn len(&self, watch: u32) -> usize
        requires { place_of self.now.watches watch < length self.now.watches }
        ensures { (d : WatchState) → result ≡ length (watch_of self.now.watches watch d).kept }
    {
        self.list[find(&self.list, watch)].len()
    }
}
