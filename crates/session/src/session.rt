ghost use Rattle.std.specs.Prelude.{◌≡◌, ◌⊎◌, ◌+◌, ◌≤◌, ◌↔◌, ◌&&◌, List, [], not, true, false, length, map};
ghost use Rattle.cmd_text.specs.declared.command.Command.{Command as TheCommand};
ghost use Rattle.cmd_text.specs.declared.command.Command.TheVariants as commands;
ghost use Rattle.cmd_text.specs.Lines.{Reads};
ghost use Rattle.cmd_text.specs.Replies.{reply_bytes};
ghost use Rattle.host_io.specs.Calls.{CountsFaults};
ghost use Rattle.host_io.specs.Outside.{Goes, Outside};
ghost use Rattle.lines.specs.Lines.{max_line};
ghost use Rattle.lines.specs.Served.{state_of};
ghost use Rattle.recovery.specs.Commits.{IsCommit};
ghost use Rattle.storage.specs.Stored.{is_shut};
ghost use Rattle.viewers.specs.Meanings.{Meaning};
ghost use Rattle.session.specs.Answered.{Answered};
ghost use Rattle.session.specs.Carried.{Carried, ChangesNothing};
ghost use Rattle.session.specs.Commands.{goes_when_shut, off_disk, reach_of, taken, takes_memory};
ghost use Rattle.session.specs.Disk.{IsSteady};
ghost use Rattle.session.specs.Lines.{IsOfLine, is_blank, is_quit};
ghost use Rattle.session.specs.Going.{GoesOn, GoesOnLine};
ghost use Rattle.session.specs.Saying.{FitsIn, IsUnbounded, KeepsRoom};
ghost use Rattle.session.specs.World.{view_size, world_over};
ghost use Rattle.session.specs.Step.{Step};

use crate::refusals::of_reading;
use crate::replies;
use crate::saying::{refuse, say, say_quit};
use crate::words::{is_blank, is_quit};
use cmd_text::{Command, Refusal, Reply, Space, read_command};
use computing::Computing;
use host_io::Host;
use kept_counts::KeptCounts;
use keyed_views::{By, Mappings};
use lines::Flow;
use mk_value::{Memory, Name, TableRead, Text};
use questions::{Cursors, Snapshots};
use std::alloc::Global;
use std::marker::Model;
use storage::Store;
use viewers::Viewer;
use watches::Following;

/// A session: a store, whose views its lines edit and whose commits they make, the snapshots and cursors beside its views, the
/// watches of its views, which keep the positions of their rows, the counts and filters whose rows are made when they are asked for,
/// the views whose rows are kept by key, and counts and filtered rows that are at hand, which no reply shows.
#[derive(Drop)]
pub struct Session {
    pub(crate) store: Store,
    pub(crate) snapshots: Snapshots,
    pub(crate) cursors: Cursors,
    pub(crate) watches: Following,
    pub(crate) computed: Computing,
    pub(crate) mappings: Mappings,
    pub(crate) counted: KeptCounts,
    pub(crate) alloc: Global,
}

/// The viewers that the lines of a session may ask. The first of a name is asked.
#[derive(Drop)]
pub struct Viewers<'a, V: Viewer> {
    pub list: &'a [V],
}

impl Model for Session {
    ghost use Rattle.std.specs.Coded.{codes};
    ghost use Rattle.watches.specs.Keeping.{AreKept, followed};
    ghost use Rattle.kept_counts.specs.Keeping.{AreCounted};
    ghost use Rattle.keyed_views.specs.Keeping.{AreKept as AreMapped, mapped};
    ghost use Rattle.questions.specs.Cursors.{placed_code};
    ghost use Rattle.questions.specs.Kept.{kept_code};
    ghost use Rattle.relations.specs.Criteria.{interval_code};
    ghost use Rattle.session.specs.World.{World};
    ghost use Rattle.storage.specs.StoredCode.{stored_code};

    ghost Value = { World };

    ghost coded = { Prim.hlevel (codes, stored_code, kept_code, placed_code, interval_code) };

    ghost view = { λ s. record { store = s.store; snapshots = s.snapshots; cursors = s.cursors; watches = followed s.watches; computed = s.computed; mappings = mapped s.mappings } };

    ghost invariant = { λ s. (AreKept s.store.views s.watches × AreCounted s.store.views s.counted) × AreMapped s.store.views s.mappings };
}

impl Session {
    /// A session over a store, with neither snapshots, cursors, watches nor mappings.
    pub fn over(alloc: Global, store: Store) -> Session
        ensures { result ≡ world_over store }
    {
        Session {
            store,
            snapshots: Snapshots::new(alloc),
            cursors: Cursors::new(alloc),
            watches: Following::new(alloc),
            computed: Computing::new(alloc),
            mappings: Mappings::new(alloc),
            counted: KeptCounts::new(alloc),
            alloc,
        }
    }

    /// The number of the commit that the file stands for.
    pub fn number(&self) -> u64
        ensures value { result ≡ self.now.store.kept.number }
        ensures whole { IsCommit self.now.store.kept }
    {
        self.store.number()
    }

    /// The number of rows of a view, and 0 if there is none of the name.
    pub fn view_size(&self, name: &Name) -> u64
        ensures { result ≡ view_size self.now name.now }
    {
        match self.store.views().table(name) {
            Some(table) => table.size() as u64,
            None => 0,
        }
    }

    /// Carries a command out, and gives the reply to it: the one that it is due, or a refusal for want of memory or because the disk
    /// failed. It makes no other call of the host than those on its disk.
    ///
    /// The disk is written by `Commit` alone, and a crash at any moment leaves the commit that is kept, or the one that is being made
    /// with that as the one before it.
    pub fn step<H: Host, V: Viewer>(
        &mut self,
        host: &mut H,
        viewers: &[V],
        command: &Command,
    ) -> Reply
        requires line { IsOfLine command.now }
        requires ready { H.tells → IsSteady (state_of self.old (H.outside host.old)) }
        ensures carried { Carried H.tells (map V.meaning viewers.now) command.now (state_of self.old (H.outside host.old)) (reply_bytes result) (state_of self.new (H.outside host.new)) }

        // The reply fits the room of a reply, or it is one of lines or of a row, and nothing changed before it is said.
        ensures fits { FitsIn (max_line + 1) result }
        ensures unsaid { IsUnbounded result → ChangesNothing H.tells command.now (state_of self.old (H.outside host.old)) (state_of self.new (H.outside host.new)) }
        ensures silent { result ≡ Reply.Silent → command.now ≡ commands.Nothing }

        ensures counts { CountsFaults ⊥ (H.outside host.old) (H.outside host.new) }
        ensures goes { H.tells → GoesOn command.now (state_of self.old (H.outside host.old)) (state_of self.new (H.outside host.new)) (H.outside host.old) (H.outside host.new) }

        // No call of any host is made but for a commit, an opening anew or a look at the commit before, and none for these where the
        // session is shut for them.
        ensures off_disk { reach_of command.now ≡ off_disk → host.new ≡ host.old }
        ensures shut { is_shut self.old.store && not (goes_when_shut command.now) ≡ true → host.new ≡ host.old }
    {
        if self.refuses(command) {
            return replies::refused(Refusal::Shut);
        }
        match command {
            Command::Commit(note) => self.commit(host, note),
            Command::Reopen => self.reopen(host),
            Command::Revert => self.revert(host),
            _ => self.carry_out(viewers, command),
        }
    }

    /// Whether the session is shut for the command.
    fn refuses(&self, command: &Command) -> bool
        ensures { result ≡ is_shut self.now.store && not (goes_when_shut command.now) }
    {
        self.store.is_shut() && !goes_when_shut(command)
    }

    /// Carries a command out that reaches no disk, and gives the reply to it. What it asks to count or to filter is kept before.
    fn carry_out<V: Viewer>(&mut self, viewers: &[V], command: &Command) -> Reply
        requires line { IsOfLine command.now }
        requires no_disk { reach_of command.now ≡ off_disk }
        ensures { Answered (map V.meaning viewers.now) command.now self.old result self.new }
    {
        self.keep_counts(viewers, command);
        self.dispatch(viewers, command)
    }

    /// Carries a command out that reaches no disk, by the function for it.
    fn dispatch<V: Viewer>(&mut self, viewers: &[V], command: &Command) -> Reply
        requires line { IsOfLine command.now }
        requires no_disk { reach_of command.now ≡ off_disk }
        ensures { Answered (map V.meaning viewers.now) command.now self.old result self.new }
    {
        match command {
            Command::Nothing => Reply::Silent,
            Command::Getas(name, schema) => replies::text(self.getas(name, schema)),
            Command::Drop(name) => replies::done(self.drop_view(name)),
            Command::Struct => replies::lines(self.structures()),
            Command::Add(path, literals) => self.answer_add(path, literals),
            Command::Insert(path, place, copies, literals) => {
                self.answer_insert(path, *place, *copies, literals)
            }
            Command::Set(path, row, prop, literal) => { self.answer_set(path, *row, prop, literal) }
            Command::Remove(path, place, rows) => replies::count(self.remove(path, *place, *rows)),
            Command::Size(expr) => self.size(viewers, expr),
            Command::Show(expr) => self.rows(viewers, expr),
            Command::Find(expr, start, criteria) => self.find(viewers, expr, *start, criteria),
            Command::Search(expr, criteria) => self.search(viewers, expr, criteria),
            Command::Locate(expr, criteria) => self.locate(viewers, expr, criteria),
            Command::Dup(name, expr) => self.keep(viewers, name, expr),
            Command::Undup(name) => replies::done(self.give_up(name)),
            Command::Watch(name, expr) => self.watch(viewers, name, expr),
            Command::Unwatch(name) => replies::done(self.unwatch(name)),
            Command::Hash(name, keys) => replies::done(self.map(By::Hash, name, *keys)),
            Command::Ordered(name, keys) => replies::done(self.map(By::Order, name, *keys)),
            Command::Unmap(name) => replies::done(self.unmap(name)),
            Command::Cursor(name, target) => self.set_cursor(viewers, name, target),
            Command::Uncursor(name) => replies::done(self.remove_cursor(name)),
            Command::Next(name) => self.next(viewers, name),
            Command::Prev(name) => self.previous(viewers, name),
            Command::Row(name) => self.row(viewers, name),
            Command::Log => replies::lines(self.notes()),
            Command::Rollback => self.rollback(),
            Command::Space => replies::taken(self.taken()),
            Command::Quit => Reply::Quit,
            Command::Commit(_) | Command::Reopen | Command::Revert => unreachable!(),
        }
    }

    /// Gives up all edits since the last commit. It takes no memory.
    fn rollback(&mut self) -> Reply
        ensures { (viewers : List Meaning) → Answered viewers commands.Rollback self.old result self.new }
    {
        self.store.rollback();
        self.cursors.clear();
        self.watches.clear();
        self.computed.clear();
        self.mappings.clear();
        self.counted.clear();
        replies::rolled_back(self.store.number())
    }

    /// What the last commit takes up of the file. It takes no memory.
    fn taken(&self) -> Space
        ensures { result ≡ taken self.now.store }
    {
        let space = self.store.space();
        Space {
            number: space.number,
            end: space.end,
            used: space.used,
        }
    }

    /// Answers a line that asks for something and goes on.
    fn answer_line<H: Host, V: Viewer>(
        &mut self,
        host: &mut H,
        viewers: &[V],
        line: &[u8],
        out: &mut Text,
    )
        requires short { length line.now ≤ max_line }
        requires asks { is_blank line.now ≡ false }
        requires goes_on { is_quit line.now ≡ false }
        requires empty { out.old.bytes ≡ [] }
        requires room { max_line + 1 ≤ out.old.spare }
        requires ready { H.tells → IsSteady (state_of self.old (H.outside host.old)) }
        ensures step { Step H.tells (map V.meaning viewers.now) (state_of self.old (H.outside host.old)) line.now out.new.bytes (state_of self.new (H.outside host.new)) }
        ensures room { KeepsRoom out.old out.new }
        ensures said { out.new.bytes ≡ [] → ⊥ }
        ensures counts { CountsFaults ⊥ (H.outside host.old) (H.outside host.new) }
        ensures goes { H.tells → GoesOnLine line.now (state_of self.old (H.outside host.old)) (state_of self.new (H.outside host.new)) (H.outside host.old) (H.outside host.new) }
    {
        match read_command(self.alloc, line) {
            Ok(command) => {
                self.answer_command(host, viewers, &command, out);
                drop(command);
            }
            Err(error) => refuse(of_reading(error), out),
        }
    }

    /// Carries a command out, and writes the reply to it.
    fn answer_command<H: Host, V: Viewer>(
        &mut self,
        host: &mut H,
        viewers: &[V],
        command: &Command,
        out: &mut Text,
    )
        requires line { IsOfLine command.now }
        requires asks { command.now ≡ commands.Nothing → ⊥ }
        requires empty { out.old.bytes ≡ [] }
        requires room { max_line + 1 ≤ out.old.spare }
        requires ready { H.tells → IsSteady (state_of self.old (H.outside host.old)) }
        ensures carried { Carried H.tells (map V.meaning viewers.now) command.now (state_of self.old (H.outside host.old)) out.new.bytes (state_of self.new (H.outside host.new)) }
        ensures room { KeepsRoom out.old out.new }
        ensures said { out.new.bytes ≡ [] → ⊥ }
        ensures counts { CountsFaults ⊥ (H.outside host.old) (H.outside host.new) }
        ensures goes { H.tells → GoesOn command.now (state_of self.old (H.outside host.old)) (state_of self.new (H.outside host.new)) (H.outside host.old) (H.outside host.new) }
    {
        let reply = self.step(host, viewers, command);
        match say(&reply, out) {
            Ok(()) => {}
            Err(Memory) => refuse(Refusal::Memory, out),
        }
    }
}

/// Whether a session that is shut answers the command as any other does.
fn goes_when_shut(command: &Command) -> bool
    ensures { result ≡ goes_when_shut command.now }
{
    matches!(command, Command::Nothing | Command::Reopen | Command::Quit)
}

impl<H: Host, V: Viewer> lines::Session<H, Viewers<'_, V>> for Session {
    ghost use Rattle.std.specs.Prelude.{map};
    ghost use Rattle.session.specs.Step.{machine};

    ghost machine = { λ context. machine (map V.meaning context.list.now) };

    fn answer(
        &mut self,
        host: &mut H,
        context: &Viewers<'_, V>,
        line: &[u8],
        out: &mut Text,
    ) -> Flow {
        if is_quit(line) {
            say_quit(out);
            return Flow::Ends;
        }
        if is_blank(line) {
            return Flow::Goes;
        }
        self.answer_line(host, context.list, line, out);
        Flow::Goes
    }
}
