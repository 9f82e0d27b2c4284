//! The commands that reach the disk: `commit`, `reopen` and `revert`.
ghost use Rattle.std.specs.Prelude.{◌≡◌, ◌≤◌, List, IfErr, IfOk, false, length};
ghost use Rattle.cmd_text.specs.declared.command.Command.TheVariants as commands;
ghost use Rattle.cmd_text.specs.Replies.{reply_bytes};
ghost use Rattle.host_io.specs.Calls.{CountsFaults};
ghost use Rattle.lines.specs.Lines.{max_line};
ghost use Rattle.lines.specs.Served.{state_of};
ghost use Rattle.storage.specs.Stored.{is_shut};
ghost use Rattle.viewers.specs.Meanings.{Meaning};
ghost use Rattle.session.specs.Carried.{Carried};
ghost use Rattle.session.specs.Disk.{IsSteady};
ghost use Rattle.session.specs.Planning.{IsPlannedNext, IsUnplanned};
ghost use Rattle.session.specs.Going.{GoesOn};
ghost use Rattle.session.specs.Saying.{IsOneLine};

use crate::refusals::{of_opening, of_plan, of_revert};
use crate::{Session, replies};
use cmd_text::{Note, Refusal, Reply};
use commit_plan::Plan;
use host_io::{Failed, Host};

impl Session {
    /// Stores the views as the next commit, with the note where it is not empty.
    pub(crate) fn commit<H: Host>(&mut self, host: &mut H, note: &Note) -> Reply
        requires open { is_shut self.old.store ≡ false }
        requires ready { H.tells → IsSteady (state_of self.old (H.outside host.old)) }
        ensures carried { (viewers : List Meaning) → Carried H.tells viewers (commands.Commit note.now) (state_of self.old (H.outside host.old)) (reply_bytes result) (state_of self.new (H.outside host.new)) }
        ensures one_line { IsOneLine result }
        ensures short { length (reply_bytes result) ≤ max_line }
        ensures counts { CountsFaults (result ≡ Reply.Refused Refusal.Disk) (H.outside host.old) (H.outside host.new) }
        ensures goes { H.tells → GoesOn (commands.Commit note.now) (state_of self.old (H.outside host.old)) (state_of self.new (H.outside host.new)) (H.outside host.old) (H.outside host.new) }
    {
        let plan = match self.plan(note) {
            Ok(plan) => plan,
            Err(refusal) => return replies::refused(refusal),
        };
        match self.store.carry(host, plan) {
            Ok(number) => replies::committed(number),
            Err(Failed) => replies::refused(Refusal::Disk),
        }
    }

    /// Plans the commit of the views. It takes all memory of the commit.
    fn plan(&self, note: &Note) -> Result<Plan, Refusal>
        requires open { is_shut self.now.store ≡ false }
        ensures planned { IfOk result (IsPlannedNext self.now.store note.now) }
        ensures refused { IfErr result (IsUnplanned self.now.store note.now) }
    {
        match self.store.plan(self.alloc, note.as_text()) {
            Ok(plan) => Ok(plan),
            Err(error) => Err(of_plan(error)),
        }
    }

    /// Opens the file anew. Where the session is shut, what was pending is settled first. No cursor, watch or mapping stands on any more.
    pub(crate) fn reopen<H: Host>(&mut self, host: &mut H) -> Reply
        requires ready { H.tells → IsSteady (state_of self.old (H.outside host.old)) }
        ensures carried { (viewers : List Meaning) → Carried H.tells viewers commands.Reopen (state_of self.old (H.outside host.old)) (reply_bytes result) (state_of self.new (H.outside host.new)) }
        ensures one_line { IsOneLine result }
        ensures short { length (reply_bytes result) ≤ max_line }
        ensures counts { CountsFaults (result ≡ Reply.Refused Refusal.Disk) (H.outside host.old) (H.outside host.new) }
        ensures goes { H.tells → GoesOn commands.Reopen (state_of self.old (H.outside host.old)) (state_of self.new (H.outside host.new)) (H.outside host.old) (H.outside host.new) }
    {
        let number = match self.store.reopen(self.alloc, host) {
            Ok(number) => number,
            Err(error) => return replies::refused(of_opening(error)),
        };
        self.cursors.clear();
        self.watches.clear();
        self.computed.clear();
        self.mappings.clear();
        self.counted.clear();
        replies::reopened(number)
    }

    /// Brings the views of the commit before back. No cursor, watch or mapping stands on any more.
    pub(crate) fn revert<H: Host>(&mut self, host: &mut H) -> Reply
        requires open { is_shut self.old.store ≡ false }
        requires ready { H.tells → IsSteady (state_of self.old (H.outside host.old)) }
        ensures carried { (viewers : List Meaning) → Carried H.tells viewers commands.Revert (state_of self.old (H.outside host.old)) (reply_bytes result) (state_of self.new (H.outside host.new)) }
        ensures one_line { IsOneLine result }
        ensures short { length (reply_bytes result) ≤ max_line }
        ensures counts { CountsFaults (result ≡ Reply.Refused Refusal.Disk) (H.outside host.old) (H.outside host.new) }
        ensures goes { H.tells → GoesOn commands.Revert (state_of self.old (H.outside host.old)) (state_of self.new (H.outside host.new)) (H.outside host.old) (H.outside host.new) }
    {
        if self.store.before().is_none() {
            return replies::refused(Refusal::NoName);
        }
        let number = match self.store.revert(self.alloc, host) {
            Ok(number) => number,
            Err(error) => return replies::refused(of_revert(error)),
        };
        self.cursors.clear();
        self.watches.clear();
        self.computed.clear();
        self.mappings.clear();
        self.counted.clear();
        replies::reverted(number)
    }
}
