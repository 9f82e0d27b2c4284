ghost use Rattle.std.specs.Prelude.{◌≡◌, ◌+◌, ◌-◌, ◌<◌, ◌≤◌, All, false, length, slice_index, None, Some, IfOk, OnOk};
ghost use Rattle.mk_value.specs.Tables.{domain_at};
ghost use Rattle.relations.specs.Fitting.{is_view};
ghost use Rattle.live.specs.Costs.{digits};
ghost use Rattle.live.specs.Putting.{IsPlace};
ghost use Rattle.live.specs.declared.op.WatchOp.TheVariants as op;
ghost use Rattle.live_counts.specs.Counting.{AreCounts, AreDue, IsSame, keys_in, run_end, spare};

use crate::beside::gain;
use crate::flags::{lose, run_end};
use crate::making::{keys_of, positions_by, starts_of};
use live::{Event, Keeper, Probe, Turn, WatchOp};
use mk_value::{Memory, Positions, Steps, TableRead};
use places::Places;
use std::alloc::Global;
use std::marker::Model;
use std::sync::ledger::Ledger;

/// The number of rows of each key of a table.
#[derive(Drop)]
pub struct LiveCounts {
    keeper: Keeper,
    starts: Vec<u32>,
    noted: Option<Event>,
}

impl Model for LiveCounts {
    ghost use Rattle.std.specs.Prelude.{◌-◌, min, vec_len};
    ghost use Rattle.std.specs.Vec.{vec_capacity};
    ghost use Rattle.live_counts.specs.States.{CountsState};

    ghost Value = { CountsState };

    ghost use Rattle.std.specs.Coded.{codes};
    ghost use Rattle.relations.specs.Criteria.{interval_code};

    ghost coded = { Prim.hlevel (codes, interval_code) };

    ghost use Rattle.live_counts.specs.Counting.{AreKept};

    ghost view = { λ c. record {
      op = c.keeper.op;
      kept = c.keeper.kept.list;
      starts = c.starts.items;
      room = min c.keeper.kept.spare (vec_capacity c.starts - vec_len c.starts);
      going = c.keeper.going;
      noted = c.noted;
    } };

    ghost invariant = { λ c. AreKept (record {
      op = c.keeper.op;
      kept = c.keeper.kept.list;
      starts = c.starts.items;
      room = min c.keeper.kept.spare (vec_capacity c.starts - vec_len c.starts);
      going = c.keeper.going;
      noted = c.noted;
    }) };
}

impl LiveCounts {
    /// The counts of a table by the properties in these columns, of which there is at least one.
    pub fn make<T: TableRead>(
        alloc: Global,
        rows: &T,
        keys: Positions,
    ) -> Result<LiveCounts, Memory>
        requires some { 0 < length keys }
        requires plain { All (λ j. (j < length (T.schema rows.now)) × (is_view (domain_at (T.schema rows.now) j) ≡ false)) keys }
        ensures counts { IfOk result (AreCounts (T.schema rows.now) (T.rows rows.now)) }
        ensures op { IfOk result (λ c. c.op ≡ op.Sort (keys_in (T.schema rows.now) keys)) }
        ensures noted { IfOk result (λ c. c.noted ≡ None) }
    {
        let _size = rows.size();
        let keys = keys_of(alloc, rows.schema(), &keys)?;
        let flat = positions_by(alloc, rows, &keys)?;
        let op = WatchOp::Sort(keys);
        let starts = starts_of(alloc, rows, &op, &flat)?;
        let kept = Places::of(alloc, &flat)?;
        let going = None;
        Ok(LiveCounts {
            keeper: Keeper { op, kept, going },
            starts,
            noted: None,
        })
    }

    /// Makes room for so many events more.
    ///
    /// # Errors
    ///
    /// `Memory`; the counts are then as before.
    pub fn reserve(&mut self, more: usize) -> Result<(), Memory>
        ensures same { IsSame self.old self.new }
        ensures noted { self.new.noted ≡ self.old.noted }
        ensures spare { OnOk result (more ≤ spare self.new) }
    {
        if more == usize::MAX {
            return Err(Memory);
        }
        // One is set aside where an event is noted.
        self.keeper.kept.reserve(more + 1)?;
        self.starts.reserve(more + 1)?;
        Ok(())
    }

    /// Notes an event before it happens. It takes no memory.
    pub fn before<L: Ledger, P: Probe<L>>(&mut self, rows: &P, event: &Event, steps: &mut Steps<L>)
        requires now { AreCounts (P.schema rows.now) (P.rows rows.now) self.old }
        requires reserved { 0 < spare self.old }
        requires place { IsPlace event.now (length (P.rows rows.now)) }
        ensures same { IsSame self.old self.new }
        ensures now { AreCounts (P.schema rows.now) (P.rows rows.now) self.new }
        ensures noted { self.new.noted ≡ Some event.now }
        ensures spare { spare self.old ≤ spare self.new + 1 }
        ensures cost { steps.new ≤ steps.old + digits (length (P.rows rows.now)) }
    {
        self.keeper
            .before(rows, Turn::of_root(event).goes_from(), steps);
        self.noted = Some(*event);
    }

    /// Follows the event that was noted last, after it happened. It takes no memory.
    pub fn after<L: Ledger, P: Probe<L>>(&mut self, rows: &P, event: &Event, steps: &mut Steps<L>)
        requires due { AreDue (P.schema rows.now) self.old event.now (P.rows rows.now) }
        requires noted { self.old.noted ≡ Some event.now }
        ensures now { AreCounts (P.schema rows.now) (P.rows rows.now) self.new }
        ensures op { self.new.op ≡ self.old.op }
        ensures noted { self.new.noted ≡ None }
        ensures spare { spare self.old ≤ spare self.new }
        ensures cost { steps.new ≤ steps.old + digits (length (P.rows rows.now)) + 2 }
    {
        let _size = rows.size();
        lose(&mut self.starts, self.keeper.kept.len(), self.keeper.going);
        let told = self.keeper.after(rows, Turn::of_root(event), steps);
        let op = &self.keeper.op;
        let kept = &self.keeper.kept;
        gain(rows, op, kept, &mut self.starts, told.comes_to(), steps);
        self.noted = None;
    }

    /// The number of keys.
    pub fn len(&self) -> usize
        ensures { result ≡ length self.now.starts }
    {
        self.starts.len()
    }

    /// The position of a row that has the key of this number, keys ascending: the first of them.
    pub fn first(&self, i: usize) -> usize
        requires { i < length self.now.starts }
        ensures { result ≡ slice_index self.now.kept (slice_index self.now.starts i) }
    {
        self.keeper.kept.get(self.starts[i] as usize) as usize
    }

    /// How many rows have the key of this number.
    pub fn count(&self, i: usize) -> u32
        requires { i < length self.now.starts }
        ensures { result ≡ run_end self.now i - slice_index self.now.starts i }
    {
        let start = self.starts[i] as usize;
        let end = run_end(&self.starts, self.keeper.kept.len(), i);
        (end - start) as u32
    }
}
