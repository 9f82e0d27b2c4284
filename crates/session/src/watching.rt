//! Watches: putting them over views and over one another, and giving them up.
ghost use Rattle.std.specs.Prelude.{◌≡◌, ◌⊎◌, false, map, nat_lt, not, true, None, IfOk, IsSome, OnErr, OnOk, MatchOption, Some};
ghost use Rattle.cmd_text.specs.declared.command.Command.TheVariants as commands;
ghost use Rattle.expr_text.specs.InLines.{IsOperation};
ghost use Rattle.expr_text.specs.Meanings.{query_of};
ghost use Rattle.watches.specs.Lines.{refusal_of};
ghost use Rattle.watches.specs.Keeping.{max_watches};
ghost use Rattle.watches.specs.Watches.{has_over, is_watch};
ghost use Rattle.questions.specs.Operations.{computed_by as computation_of, operand as operand_of, operation as operation_of};
ghost use Rattle.session.specs.Answered.{Answered};
ghost use Rattle.session.specs.Commands.{put_over, unwatched, watch_size};
ghost use Rattle.session.specs.Following.{KeepsPositions};
ghost use Rattle.session.specs.Naming.{asked_table, full_due, kept_due, over_computed_due, table_under as table_below, total, unfit, unwatch_due, watch_due};
ghost use Rattle.session.specs.Refusals.{AnswersDue};

use crate::refusals::{of_memory, of_put, of_question, of_watch};
use crate::{Session, replies};
use cmd_text::{Refusal, Reply};
use expr_text::Expr;
use live::{WatchError, WatchOp, Watches};
use mk_value::{Name, Schema, TableRead};
use questions::{Standing, computed_by, has_cursor_on, operand, operation};
use std::alloc::Global;
use tables::Table;
use viewers::Viewer;
use watches::{MAX_WATCHES, Watched, check_watch};

impl Session {
    /// Puts a watch over what the operation is asked of, and answers the number of its rows.
    pub(crate) fn watch<V: Viewer>(&mut self, viewers: &[V], name: &Name, expr: &Expr) -> Reply
        requires { IsOperation (query_of expr.now) }
        ensures { Answered (map V.meaning viewers.now) (commands.Watch name.now expr.now) self.old result self.new }
    {
        let computation = match computed_by(self.alloc, expr) {
            Ok(computation) => computation,
            Err(memory) => return replies::refused(of_memory(memory)),
        };
        match computation {
            Some(shows) => {
                replies::count(self.put_computed(viewers, name, operand(expr), shows))
            }
            None => replies::count(self.put_watch(viewers, name, expr)),
        }
    }

    /// Puts a selection, a range or a sorting over a view or a watch, and gives the number of its rows.
    ///
    /// # Errors
    ///
    /// The first that is due: `NoName` where the operation is asked of neither a view nor a watch; `Exists` where something has the new name;
    /// `NoProp`, `Kind` by the operation, and `Kind` over a computed watch; `Limit` where the chain would be five long, or it would be the
    /// 65th watch. `Memory`.
    fn put_watch<V: Viewer>(
        &mut self,
        viewers: &[V],
        name: &Name,
        expr: &Expr,
    ) -> Result<u64, Refusal>
        requires whole { IsOperation (query_of expr.now) }
        requires kept { computation_of (query_of expr.now) ≡ None }
        ensures due { AnswersDue (watch_due (map V.meaning viewers.now) self.old name.now (query_of expr.now)) result }
        ensures size { IfOk result (λ size. size ≡ watch_size self.old (query_of expr.now)) }
        ensures ok { OnOk result (self.new ≡ put_over self.old name.now (query_of expr.now)) }
        ensures err { OnErr result (self.new ≡ self.old) }
    {
        let source = operand(expr);
        let Some(_table) = self.table_under(source) else {
            return Err(self.refusal_over_computed(viewers, name, expr));
        };
        if self.is_full() {
            return Err(self.refusal_of_full(name, expr));
        }
        self.put_kept(name, expr)
    }

    /// Puts one where one watch more may be put.
    ///
    /// # Errors
    ///
    /// The first that is due: `NoName` where the operation is asked of neither a view nor a watch; `Exists` where something has the new name;
    /// `NoProp`, `Kind` by the operation; `Limit` where the chain would be five long. `Memory`.
    fn put_kept(&mut self, name: &Name, expr: &Expr) -> Result<u64, Refusal>
        requires whole { IsOperation (query_of expr.now) }
        requires kept { computation_of (query_of expr.now) ≡ None }
        ensures due { AnswersDue (kept_due self.old name.now (query_of expr.now)) result }
        ensures size { IfOk result (λ size. size ≡ watch_size self.old (query_of expr.now)) }
        ensures ok { OnOk result (self.new ≡ put_over self.old name.now (query_of expr.now)) }
        ensures err { OnErr result (self.new ≡ self.old) }
    {
        let source = operand(expr);
        let Some(table) = self.table_under(source) else {
            return Err(Refusal::NoName);
        };
        if self.is_taken(name) {
            return Err(Refusal::Exists);
        }
        let op = match operation(self.alloc, expr, table.schema()) {
            Ok(op) => op,
            Err(error) => return Err(of_watch(error)),
        };
        of_put(self.watches.put(name, source, op, self.store.views()))
    }

    /// The table of the view over which what has this name stands.
    fn table_under(&self, name: &Name) -> Option<&Table>
        ensures { MatchOption result (table_below self.now name.now ≡ None) (λ table. table_below self.now name.now ≡ Some table.now) }
    {
        self.store.views().table(self.watches.view_under(name))
    }

    /// The watch of a name, among the watches of its view: it keeps the positions of the rows that it shows.
    pub fn watched(&self, name: &Name) -> Option<Watched<'_>>
        ensures { MatchOption result (is_watch self.now.watches name.now ≡ false) (λ w. KeepsPositions self.now name.now w.watches.now w.number) }
    {
        self.watches.watched(name)
    }

    /// Gives a watch up, computed or not.
    ///
    /// # Errors
    ///
    /// `NoName` where there is none; `InUse` where a watch or a cursor stands on it.
    pub(crate) fn unwatch(&mut self, name: &Name) -> Result<(), Refusal>
        ensures due { AnswersDue (unwatch_due self.old name.now) result }
        ensures ok { OnOk result (self.new ≡ unwatched self.old name.now) }
        ensures err { OnErr result (self.new ≡ self.old) }
    {
        if !self.watches.is_watch(name) && !self.computed.is_computed(name) {
            return Err(Refusal::NoName);
        }
        if self.watches.has_over(name)
            || self.computed.is_source(name)
            || has_cursor_on(self.cursors.as_slice(), Standing::Watch, name)
        {
            return Err(Refusal::InUse);
        }
        self.give_watch_up(name);
        Ok(())
    }

    /// Takes a watch out on which nothing stands.
    fn give_watch_up(&mut self, name: &Name)
        requires { has_over self.old.watches name.now ≡ false }
        ensures { self.new ≡ unwatched self.old name.now }
    {
        if self.watches.is_watch(name) {
            self.watches.take_out(name);
        } else {
            self.computed.take_out(name);
            // Those that are still asked for are made anew.
            self.counted.clear();
        }
    }

    /// Whether there are as many watches as there may be, computed or not.
    pub(crate) fn is_full(&self) -> bool
        ensures { result ≡ not (nat_lt (total self.now) max_watches) }
    {
        self.watches.count() >= MAX_WATCHES - self.computed.count()
    }

    /// The refusal of a watch that would be one too many.
    fn refusal_of_full(&self, name: &Name, expr: &Expr) -> Refusal
        requires whole { IsOperation (query_of expr.now) }
        requires kept { computation_of (query_of expr.now) ≡ None }
        requires there { IsSome (table_below self.now (operand_of (query_of expr.now))) }
        ensures { (result ≡ Refusal.Memory) ⊎ (full_due self.now name.now (query_of expr.now) ≡ Some result) }
    {
        if self.is_taken(name) {
            return Refusal::Exists;
        }
        match self.table_under(operand(expr)) {
            Some(table) => of_watch(refusal_of_operation(self.alloc, expr, table.schema())),
            None => unreachable!(),
        }
    }

    /// The refusal of a selection, a range or a sorting that is asked of no view and of no watch that keeps positions.
    fn refusal_over_computed<V: Viewer>(&self, viewers: &[V], name: &Name, expr: &Expr) -> Refusal
        requires whole { IsOperation (query_of expr.now) }
        requires kept { computation_of (query_of expr.now) ≡ None }
        ensures { (result ≡ Refusal.Memory) ⊎ (over_computed_due (asked_table (map V.meaning viewers.now) self.now (operand_of (query_of expr.now))) self.now name.now (query_of expr.now) ≡ Some result) }
    {
        let table = match self.scope(viewers).source(self.alloc, operand(expr)) {
            Ok(table) => table,
            Err(error) => return of_question(error),
        };
        if self.is_taken(name) {
            return Refusal::Exists;
        }
        of_unfit(refusal_of_operation(self.alloc, expr, table.schema()))
    }
}

/// The refusal of a watch that may not be put, whatever it shows: that of its operation, or else `TooDeep`.
fn refusal_of_operation(alloc: Global, expr: &Expr, schema: &Schema) -> WatchError
    requires whole { IsOperation (query_of expr.now) }
    requires kept { computation_of (query_of expr.now) ≡ None }
    ensures { (result ≡ WatchError.Memory) ⊎ (result ≡ refusal_of schema.now (operation_of schema.now (query_of expr.now))) }
{
    match operation(alloc, expr, schema) {
        Ok(op) => refusal_of_op(alloc, schema, &op),
        Err(error) => error,
    }
}

/// The same, where the operation is known.
fn refusal_of_op(alloc: Global, schema: &Schema, op: &WatchOp) -> WatchError
    ensures { result ≡ refusal_of schema.now op.now }
{
    let watches = Watches::new(alloc);
    match check_watch(&watches, None, op, schema, true) {
        Ok(()) => unreachable!(),
        Err(error) => error,
    }
}

/// How the refusal of a watch over a computed one is told.
fn of_unfit(error: WatchError) -> Refusal
    ensures memory { error ≡ WatchError.Memory → result ≡ Refusal.Memory }
    ensures value { (error ≡ WatchError.Memory → ⊥) → result ≡ unfit error }
{
    match error {
        WatchError::NoProp => Refusal::NoProp,
        WatchError::Memory => Refusal::Memory,
        _ => Refusal::Kind,
    }
}
