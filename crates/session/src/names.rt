//! Names beside those of views: those of snapshots, cursors and watches.
ghost use Rattle.std.specs.Prelude.{◌≡◌, length, map, IfErr, IfOk, OnErr, OnOk};
ghost use Rattle.std.specs.Result.{result_err};
ghost use Rattle.cmd_text.specs.declared.command.Command.TheVariants as commands;
ghost use Rattle.eval.specs.Parts.{IsWhole};
ghost use Rattle.expr_text.specs.Meanings.{query_of};
ghost use Rattle.questions.specs.Cursors.{without_cursor};
ghost use Rattle.questions.specs.Kept.{table_of, without_kept};
ghost use Rattle.session.specs.Answered.{Answered};
ghost use Rattle.session.specs.Commands.{with_cursor, with_snapshot};
ghost use Rattle.session.specs.Naming.{is_beside_views as is_name_beside, is_taken as is_name_taken, new_name_due, uncursor_due, undup_due};
ghost use Rattle.session.specs.Refusals.{AnswersDue};

use crate::asking::scope_of;
use crate::refusals::of_memory;
use crate::{Session, replies};
use cmd_text::{Refusal, Reply};
use expr_text::Expr;
use mk_value::{Memory, Name, TableRead};
use questions::{
    Cursor, MAX_CURSORS, MAX_SNAPSHOTS, Snapshot, Standing, has_cursor_on, is_cursor, is_snapshot,
    take_out_cursor, take_out_snapshot,
};
use tables::Shared;
use viewers::Viewer;

impl Session {
    /// Whether a snapshot, a cursor or a watch has the name.
    pub(crate) fn is_beside_views(&self, name: &Name) -> bool
        ensures { result ≡ is_name_beside self.now name.now }
    {
        is_snapshot(self.snapshots.as_slice(), name)
            || is_cursor(self.cursors.as_slice(), name)
            || self.watches.is_watch(name)
            || self.computed.is_computed(name)
    }

    /// Whether a view, a snapshot, a cursor or a watch has the name.
    pub(crate) fn is_taken(&self, name: &Name) -> bool
        ensures { result ≡ is_name_taken self.now name.now }
    {
        self.store.views().table(name).is_some() || self.is_beside_views(name)
    }

    /// Answers the refusal of a new name, where there are so many of its sort and may be so many.
    fn check_new_name(&self, name: &Name, count: usize, most: usize) -> Result<(), Refusal>
        ensures { result_err result ≡ new_name_due self.now name.now count most }
    {
        if self.is_taken(name) {
            return Err(Refusal::Exists);
        }
        if count >= most {
            return Err(Refusal::Limit);
        }
        Ok(())
    }

    /// Keeps the value of an expression as a snapshot, and answers how many rows it has.
    pub(crate) fn keep<V: Viewer>(&mut self, viewers: &[V], name: &Name, expr: &Expr) -> Reply
        requires { IsWhole (query_of expr.now) }
        ensures { Answered (map V.meaning viewers.now) (commands.Dup name.now expr.now) self.old result self.new }
    {
        let table = match scope_of(
            &self.store,
            &self.snapshots,
            &self.watches,
            &self.mappings,
            &self.computed,
            &self.counted,
            viewers,
        )
        .table(self.alloc, expr)
        {
            Ok(table) => table,
            Err(error) => return replies::unanswered(error),
        };
        if let Err(refusal) = self.check_new_name(name, self.snapshots.len(), MAX_SNAPSHOTS) {
            return replies::refused(refusal);
        }
        replies::count(self.push_snapshot(name, table))
    }

    /// Adds a snapshot last, and gives the number of its rows.
    fn push_snapshot(&mut self, name: &Name, table: Shared) -> Result<u64, Refusal>
        ensures memory { IfErr result (λ e. e ≡ Refusal.Memory) }
        ensures size { IfOk result (λ size. size ≡ length table.rows) }
        ensures ok { OnOk result (self.new ≡ with_snapshot self.old name.now (table_of table)) }
        ensures err { OnErr result (self.new ≡ self.old) }
    {
        let size = table.size() as u64;
        let name = name.copy().map_err(of_memory)?;
        self.snapshots
            .push(Snapshot { name, table })
            .map_err(of_memory)?;
        Ok(size)
    }

    /// Gives a snapshot up.
    ///
    /// # Errors
    ///
    /// `NoName` where there is none; `InUse` where a cursor stands on it.
    pub(crate) fn give_up(&mut self, name: &Name) -> Result<(), Refusal>
        ensures due { AnswersDue (undup_due self.old name.now) result }
        ensures ok { OnOk result (self.new ≡ record self.old { snapshots = without_kept self.old.snapshots name.now }) }
        ensures err { OnErr result (self.new ≡ self.old) }
    {
        if !is_snapshot(self.snapshots.as_slice(), name) {
            return Err(Refusal::NoName);
        }
        if has_cursor_on(self.cursors.as_slice(), Standing::Snapshot, name) {
            return Err(Refusal::InUse);
        }
        take_out_snapshot(&mut self.snapshots, name);
        Ok(())
    }

    /// Sets a cursor on the first row of what a name stands for, and answers its position.
    pub(crate) fn set_cursor<V: Viewer>(
        &mut self,
        viewers: &[V],
        name: &Name,
        target: &Name,
    ) -> Reply
        ensures { Answered (map V.meaning viewers.now) (commands.Cursor name.now target.now) self.old result self.new }
    {
        let Some(standing) = self.scope(viewers).standing(target) else {
            return replies::refused(Refusal::NoName);
        };
        if let Err(refusal) = self.check_new_name(name, self.cursors.len(), MAX_CURSORS) {
            return replies::refused(refusal);
        }
        replies::count(self.push_cursor(name, target, standing))
    }

    /// Adds a cursor last, and gives its position.
    fn push_cursor(
        &mut self,
        name: &Name,
        target: &Name,
        standing: Standing,
    ) -> Result<u64, Refusal>
        ensures memory { IfErr result (λ e. e ≡ Refusal.Memory) }
        ensures position { IfOk result (λ position. position ≡ 0) }
        ensures ok { OnOk result (self.new ≡ with_cursor self.old name.now target.now standing) }
        ensures err { OnErr result (self.new ≡ self.old) }
    {
        let cursor = cursor_on(name, target, standing).map_err(of_memory)?;
        self.cursors.push(cursor).map_err(of_memory)?;
        Ok(0)
    }

    /// Gives a cursor up.
    ///
    /// # Errors
    ///
    /// `NoName` where there is none.
    pub(crate) fn remove_cursor(&mut self, name: &Name) -> Result<(), Refusal>
        ensures due { AnswersDue (uncursor_due self.old name.now) result }
        ensures ok { OnOk result (self.new ≡ record self.old { cursors = without_cursor self.old.cursors name.now }) }
        ensures err { OnErr result (self.new ≡ self.old) }
    {
        if !is_cursor(self.cursors.as_slice(), name) {
            return Err(Refusal::NoName);
        }
        take_out_cursor(&mut self.cursors, name);
        Ok(())
    }

    /// Moves a cursor one row further, and answers its position.
    pub(crate) fn next<V: Viewer>(&mut self, viewers: &[V], name: &Name) -> Reply
        ensures { Answered (map V.meaning viewers.now) (commands.Next name.now) self.old result self.new }
    {
        match scope_of(
            &self.store,
            &self.snapshots,
            &self.watches,
            &self.mappings,
            &self.computed,
            &self.counted,
            viewers,
        )
        .next(self.alloc, &mut self.cursors, name)
        {
            Ok(position) => replies::counted(position),
            Err(error) => replies::unanswered(error),
        }
    }

    /// Moves a cursor one row back, and answers its position.
    pub(crate) fn previous<V: Viewer>(&mut self, viewers: &[V], name: &Name) -> Reply
        ensures { Answered (map V.meaning viewers.now) (commands.Prev name.now) self.old result self.new }
    {
        match scope_of(
            &self.store,
            &self.snapshots,
            &self.watches,
            &self.mappings,
            &self.computed,
            &self.counted,
            viewers,
        )
        .previous(self.alloc, &mut self.cursors, name)
        {
            Ok(position) => replies::counted(position),
            Err(error) => replies::unanswered(error),
        }
    }

    /// Answers the row at a cursor.
    pub(crate) fn row<V: Viewer>(&self, viewers: &[V], name: &Name) -> Reply
        ensures { Answered (map V.meaning viewers.now) (commands.Row name.now) self.now result self.now }
    {
        match self
            .scope(viewers)
            .row(self.alloc, self.cursors.as_slice(), name)
        {
            Ok(text) => Reply::Row(text),
            Err(error) => replies::unanswered(error),
        }
    }
}

/// A cursor at the first row.
fn cursor_on(name: &Name, target: &Name, standing: Standing) -> Result<Cursor, Memory>
    ensures { IfOk result (λ cursor. cursor ≡ record { name = name.now; target = target.now; standing = standing; position = 0 }) }
{
    Ok(Cursor {
        name: name.copy()?,
        target: target.copy()?,
        standing,
        position: 0,
    })
}
