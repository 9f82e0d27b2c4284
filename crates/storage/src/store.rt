//! A store in memory, over its file.
ghost use Rattle.std.specs.Prelude.{◌≡◌, ◌≢◌, ℕ, Err, Some, ◌^◌, ◌<◌, ◌≤◌, [], map, IfErr, IfOk, IsErrOf, OnErr, OnOk, false, true};
ghost use Rattle.std.specs.Option.{option_map};
ghost use Rattle.host_io.specs.Calls.{CountsDisk, CountsFaults, Looks};
ghost use Rattle.view_store.specs.Rests.{ViewsRestOn};
ghost use Rattle.storage.specs.declared.mode.Mode.TheVariants as modes;
ghost use Rattle.host_io.specs.Disk.{IsSettled, settled};
ghost use Rattle.host_io.specs.Outside.{Goes};
ghost use Rattle.commit_writes.specs.Plans.{IsSoundAfter};
ghost use Rattle.commit_plan.specs.Following.{IsNote};
ghost use Rattle.dir_codec.specs.Values.{note_of};
ghost use Rattle.commit_plan.specs.Plans.{IsPlanOf, last_number};
ghost use Rattle.recovery.specs.Commits.{IsCommit, footprint_of};
ghost use Rattle.recovery.specs.Keeping.{commit_in};
ghost use Rattle.recovery.specs.Opening.{NamesCause};
ghost use Rattle.storage.specs.Committing.{Commits};
ghost use Rattle.storage.specs.Marking.{marks_of};
ghost use Rattle.storage.specs.NewStore.{new_file};
ghost use Rattle.storage.specs.Planning.{IsPlanned, IsRefusedFor};
ghost use Rattle.storage.specs.declared.error.PlanError.TheVariants as plan_error;
ghost use Rattle.storage.specs.Stored.{HasNumber, Rests, committed, failed, floor_of, if_marked, is_shut, new_store, before_expected, before_reopened, opened_store, reopened, rolled_back, with_views};
ghost use Rattle.storage.specs.Syncing.{SyncsAtMost};
ghost use Rattle.recovery.specs.Standing.{StandsFor};

use crate::creation::{first_commit, make_file};
use crate::error::PlanError;
use crate::marks::mark_of;
use crate::mode::Mode;
use commit_marks::{Mark, Marks};
use commit_plan::{Plan, plan};
use commit_writes::{WritesBlocks, carry};
use dir_codec::Notes;
use free_space::FIRST_PLACE;
use host_io::{Disk, Failed};
use mk_value::{Memory, Text};
use recovery::{Kept, OpenError, Opened, open};
use std::alloc::Global;
use std::marker::Model;
use view_store::Views;

/// A store: the commit that its file stands for, and the views as they were edited since.
#[derive(Drop)]
pub struct Store {
    kept: Kept,
    /// The views that are edited, once an edit has made them others than those of the commit.
    edited: Option<Views>,
    before: Option<u64>,
    attempted: Option<Kept>,
    slot: u8,
    other: Option<Mark>,
    mode: Mode,
    cap: u64,
}

impl Model for Store {
    ghost use Rattle.storage.specs.Seen.{stored_of};
    ghost use Rattle.storage.specs.Stored.{IsStore, Stored};

    ghost Value = { Stored };

    ghost use Rattle.storage.specs.StoredCode.{stored_code};

    ghost coded = { stored_code };

    ghost view = { λ s. stored_of s.kept s.edited s.before s.attempted s.slot s.other s.mode s.cap };

    ghost invariant = { λ s. IsStore (stored_of s.kept s.edited s.before s.attempted s.slot s.other s.mode s.cap) };
}

impl Store {
    /// Makes a store without views in an empty file.
    ///
    /// # Errors
    ///
    /// `Failed`, which comes only where the disk failed. Then the file may hold any bytes.
    pub fn create<D: Disk>(
        alloc: Global,
        disk: &mut D,
        mode: Mode,
        cap: u64,
    ) -> Result<Store, Failed>
        requires empty { D.tells → (D.outside disk.old).now.disk.seen ≡ [] }
        requires writes { mode ≢ modes.Read }
        requires room { 208 ≤ cap }
        requires capped { cap < 2 ^ 63 }
        ensures counts { CountsDisk (D.outside disk.old) (D.outside disk.new) result }
        ensures new { IfOk result (λ store. store ≡ new_store mode cap) }
        ensures made { D.tells → OnOk result ((D.outside disk.new).now.disk ≡ settled new_file) }
        ensures rests { D.tells → IfOk result (λ store. Rests store (D.outside disk.new).now.disk) }
        ensures moments { D.tells → Goes (λ at. at.said ≡ (D.outside disk.old).now.said) (D.outside disk.old) (D.outside disk.new) }
        ensures said { D.tells → (D.outside disk.new).now.said ≡ (D.outside disk.old).now.said }
        ensures input { D.tells → (D.outside disk.new).input ≡ (D.outside disk.old).input }
    {
        make_file(disk)?;
        Ok(Store {
            kept: first_commit(alloc),
            edited: None,
            before: None,
            attempted: None,
            slot: 0,
            other: None,
            mode,
            cap,
        })
    }

    /// Opens the store of a file.
    ///
    /// # Errors
    ///
    /// `NotAStore` and `Damaged` exactly where the file stands for no commit, with the cause; `Failed`, which comes only where the disk
    /// failed; `Memory`. The disk is as before.
    pub fn open<D: Disk>(
        alloc: Global,
        disk: &mut D,
        mode: Mode,
        cap: u64,
    ) -> Result<Store, OpenError>
        requires settled { D.tells → IsSettled (D.outside disk.old).now.disk }
        requires capped { cap < 2 ^ 63 }
        ensures counts { CountsFaults (IsErrOf result OpenError.Failed) (D.outside disk.old) (D.outside disk.new) }
        ensures same { D.tells → Looks (D.outside disk.old) (D.outside disk.new) }
        ensures new { IfOk result (λ store. store ≡ opened_store store.kept store.slot store.other mode cap) }
        ensures rests { D.tells → IfOk result (λ store. Rests store (D.outside disk.old).now.disk) }
        ensures refused { D.tells → IfErr result (NamesCause (D.outside disk.old).now.disk.seen) }
    {
        let opened = open(alloc, disk)?;
        Ok(Store::of_file(opened, mode, cap))
    }

    /// The store of a file that was opened.
    fn of_file(opened: Opened, mode: Mode, cap: u64) -> Store
        requires whole { IsCommit (commit_in opened.kept) }
        requires low { opened.marks.slot ≤ 1 }
        requires capped { cap < 2 ^ 63 }
        ensures { result ≡ opened_store (commit_in opened.kept) opened.marks.slot opened.marks.other mode cap }
    {
        let _names = opened.kept.views.names();
        let _tables = opened.kept.views.tables();
        Store {
            kept: opened.kept,
            edited: None,
            before: number_of(opened.marks.other),
            attempted: None,
            slot: opened.marks.slot,
            other: opened.marks.other,
            mode,
            cap,
        }
    }

    /// The views that are edited.
    pub fn views(&self) -> &Views
        ensures { result.now ≡ self.now.views }
    {
        match &self.edited {
            Some(views) => views,
            None => &self.kept.views,
        }
    }

    /// Makes these the views that are edited. Those of the commit stay, for `rollback`.
    pub fn put_views(&mut self, views: Views)
        requires rests { ViewsRestOn views self.old.views }
        ensures { self.new ≡ record self.old { views = views } }
    {
        let _names = views.names();
        let _tables = views.tables();
        self.edited = Some(views);
    }

    /// The views, to be edited and given back. The first time after a commit they are shared with it.
    pub(crate) fn take_views(&mut self) -> Result<Views, Memory>
        ensures ok { OnOk result (self.new ≡ rolled_back self.old) }
        ensures views { IfOk result (λ views. views ≡ self.old.views) }
        ensures rests { IfOk result (λ views. ViewsRestOn views self.new.kept.views) }
        ensures err { OnErr result (self.new ≡ self.old) }
    {
        match self.edited.take() {
            Some(views) => Ok(views),
            None => self.kept.views.same(),
        }
    }

    /// Makes these the views that are edited.
    pub(crate) fn give_back(&mut self, views: Views)
        requires rests { ViewsRestOn views self.old.kept.views }
        ensures { self.new ≡ with_views self.old views }
    {
        let _names = views.names();
        let _tables = views.tables();
        self.edited = Some(views);
    }

    /// The commit that the file stands for.
    pub(crate) fn kept(&self) -> &Kept
        ensures kept { commit_in result.now ≡ self.now.kept }
        ensures whole { IsCommit self.now.kept }
    {
        &self.kept
    }

    /// The notes of the commit that the file stands for, oldest first.
    pub fn notes(&self) -> &Notes
        ensures { map note_of result.now ≡ self.now.kept.notes }
    {
        &self.kept.notes
    }

    /// The number of the commit before, where the file still has it.
    pub fn before(&self) -> Option<u64>
        ensures value { result ≡ self.now.before }

        // Its mark is that of the other slot.
        ensures marked { (number : ℕ) → result ≡ Some number → HasNumber number self.now.other }
    {
        self.before
    }

    /// How the store is used.
    pub fn mode(&self) -> Mode
        ensures { result ≡ self.now.mode }
    {
        self.mode
    }

    /// The number of the commit that the file stands for.
    pub fn number(&self) -> u64
        ensures value { result ≡ self.now.kept.number }

        // That commit is whole.
        ensures whole { IsCommit self.now.kept }
    {
        self.kept.number
    }

    /// Whether a commit failed under way, so that the file is to be opened again before it is written.
    pub fn is_shut(&self) -> bool
        ensures { result ≡ is_shut self.now }
    {
        self.attempted.is_some()
    }

    /// Opens the file anew. Where a commit failed under way, what was written is first made to outlast a crash, so that what is read
    /// stays so.
    ///
    /// # Errors
    ///
    /// Those of `open`, and the store is as it was.
    pub fn reopen<D: Disk>(&mut self, alloc: Global, disk: &mut D) -> Result<u64, OpenError>
        requires rests { D.tells → is_shut self.old ≡ false → Rests self.old (D.outside disk.old).now.disk }
        ensures counts { CountsFaults (IsErrOf result OpenError.Failed) (D.outside disk.old) (D.outside disk.new) }
        ensures ok { OnOk result (self.new ≡ reopened self.old self.new.kept self.new.slot self.new.other) }
        ensures number { IfOk result (λ number. number ≡ self.new.kept.number) }
        ensures err { OnErr result (self.new ≡ self.old) }
        ensures stands { D.tells → OnOk result (StandsFor (D.outside disk.old).now.disk.seen self.new.kept) }
        ensures rests { D.tells → OnOk result (Rests self.new (D.outside disk.new).now.disk) }
        ensures refused { D.tells → IfErr result (NamesCause (D.outside disk.old).now.disk.seen) }
        ensures syncs { D.tells → SyncsAtMost (is_shut self.old) (D.outside disk.old) (D.outside disk.new) }
    {
        self.settle(disk)?;
        let opened = open(alloc, disk)?;
        Ok(self.put_opened(opened))
    }

    /// Makes what was written outlast a crash, where a commit failed under way.
    fn settle<D: Disk>(&self, disk: &mut D) -> Result<(), Failed>
        ensures counts { CountsDisk (D.outside disk.old) (D.outside disk.new) result }
        ensures seen { D.tells → (D.outside disk.new).now.disk.seen ≡ (D.outside disk.old).now.disk.seen }
        ensures settled { D.tells → OnOk result (is_shut self.now ≡ true → IsSettled (D.outside disk.new).now.disk) }
        ensures syncs { D.tells → SyncsAtMost (is_shut self.now) (D.outside disk.old) (D.outside disk.new) }
    {
        if self.is_shut() {
            return disk.sync();
        }
        Ok(())
    }

    /// Makes the commit of a file that was opened the one that is kept.
    fn put_opened(&mut self, opened: Opened) -> u64
        requires whole { IsCommit (commit_in opened.kept) }
        requires low { opened.marks.slot ≤ 1 }
        ensures number { result ≡ self.new.kept.number }
        ensures ok { self.new ≡ reopened self.old (commit_in opened.kept) opened.marks.slot opened.marks.other }
    {
        let _names = opened.kept.views.names();
        let _tables = opened.kept.views.tables();
        let number = opened.kept.number;
        self.before = self.before_of(number, opened.marks.other);
        self.kept = opened.kept;
        self.edited = None;
        self.attempted = None;
        self.slot = opened.marks.slot;
        self.other = opened.marks.other;
        number
    }

    /// The number of the commit before, once the file was opened anew, stands for the commit of this number and has this mark in its
    /// other slot.
    fn before_of(&self, number: u64, other: Option<Mark>) -> Option<u64>
        ensures value { result ≡ before_reopened self.now number other }
        ensures beside { (number : ℕ) → result ≡ Some number → HasNumber number other }
    {
        if_marked(self.before_expected(number), other)
    }

    /// The number of the commit before that is expected, once the file was opened anew and stands for the commit of this number.
    fn before_expected(&self, number: u64) -> Option<u64>
        ensures { result ≡ before_expected self.now number }
    {
        if !self.is_shut() {
            return self.before;
        }
        if number == self.kept.number {
            return None;
        }
        Some(self.kept.number)
    }

    /// The marks of the file.
    fn marks(&self) -> Marks
        ensures marks { result ≡ marks_of self.now }
        ensures low { result.slot ≤ 1 }
        ensures whole { IsCommit self.now.kept }
    {
        Marks {
            chosen: mark_of(&self.kept),
            slot: self.slot,
            other: self.other,
        }
    }

    /// Writes the blocks of the commit that is to be kept next, and its mark in the other slot.
    fn write_commit<D: Disk, B: WritesBlocks>(
        &self,
        disk: &mut D,
        blocks: &B,
        next: &Kept,
    ) -> Result<(), Failed>
        requires whole { IsCommit (commit_in next.now) }
        requires sound { IsSoundAfter (footprint_of self.now.kept) (B.blocks blocks.now) (footprint_of (commit_in next.now)) }
        requires rests { D.tells → Rests self.now (D.outside disk.old).now.disk }
        ensures counts { CountsDisk (D.outside disk.old) (D.outside disk.new) result }
        ensures commits { D.tells → Commits self.now (record { next = commit_in next.now; writes = B.blocks blocks.now }) (D.outside disk.old) (D.outside disk.new) result }
        ensures rests { D.tells → OnOk result (Rests (committed self.now (commit_in next.now)) (D.outside disk.new).now.disk) }
    {
        carry(disk, &self.marks(), blocks, &mark_of(next))
    }

    /// Plans the next commit of a store that is not shut, with this note where it is not empty. It takes all memory of the commit.
    ///
    /// # Errors
    ///
    /// `ReadOnly` exactly where the store is only read. Else `LastNumber` exactly where the last commit has the greatest number. Else
    /// `Full` exactly where the file would end past the cap, with that end and the cap. `Memory` may come in place of `Full` and where
    /// none of them does.
    pub fn plan(&self, alloc: Global, note: &Text) -> Result<Plan, PlanError>
        requires open { is_shut self.now ≡ false }
        requires note { IsNote note.now.bytes }
        ensures plans { IfOk result (IsPlanOf (floor_of self.now.mode self.now.kept.end) self.now.kept self.now.views note.now.bytes) }
        ensures within { IfOk result (λ plan. plan.next.end ≤ self.now.cap) }
        ensures planned { IfOk result (IsPlanned self.now) }
        ensures refused { IfErr result (IsRefusedFor self.now note.now.bytes) }
        ensures read_only { self.now.mode ≡ modes.Read → result ≡ Err plan_error.ReadOnly }
        ensures last { self.now.mode ≢ modes.Read → self.now.kept.number ≡ last_number → result ≡ Err plan_error.LastNumber }
    {
        let floor = match self.mode {
            Mode::Write => FIRST_PLACE,
            Mode::Extend => self.kept.end,
            Mode::Read => return Err(PlanError::ReadOnly),
        };
        let plan = plan(alloc, &self.kept, self.views(), note, floor, self.cap)?;
        Ok(plan)
    }

    /// Writes the commit that was planned of this store as it is, which is not shut, and gives its number. It takes no memory. A crash at
    /// any moment of it leaves the commit that is kept, or the next one with that as the one before it, and at each moment only the
    /// slot that is not chosen and the extents of the blocks have changed.
    ///
    /// # Errors
    ///
    /// `Failed`, which comes only where the disk failed. The file may stand for either commit then, and the store is shut until the
    /// file is opened anew.
    pub fn carry<D: Disk>(&mut self, disk: &mut D, plan: Plan) -> Result<u64, Failed>
        requires open { is_shut self.old ≡ false }
        requires planned { IsPlanned self.old plan }
        requires rests { D.tells → Rests self.old (D.outside disk.old).now.disk }
        ensures counts { CountsDisk (D.outside disk.old) (D.outside disk.new) result }
        ensures number { IfOk result (λ number. number ≡ plan.next.number) }
        ensures ok { OnOk result (self.new ≡ committed self.old plan.next) }
        ensures err { OnErr result (self.new ≡ failed self.old plan.next) }
        ensures commits { D.tells → Commits self.old plan (D.outside disk.old) (D.outside disk.new) result }
        ensures rests { D.tells → OnOk result (Rests self.new (D.outside disk.new).now.disk) }
    {
        match self.write_commit(disk, &plan, plan.next()) {
            Ok(()) => Ok(self.put_committed(plan.into_next())),
            Err(error) => {
                self.attempted = Some(plan.into_next());
                Err(error)
            }
        }
    }

    /// Makes a commit that was written the one that is kept, and gives its number.
    fn put_committed(&mut self, next: Kept) -> u64
        requires { IsCommit (commit_in next) }
        ensures number { result ≡ next.number }
        ensures ok { self.new ≡ committed self.old (commit_in next) }
    {
        let number = next.number;
        self.before = Some(self.kept.number);
        self.other = Some(mark_of(&self.kept));
        self.slot = 1 - self.slot;
        self.attempted = None;
        self.edited = None;
        self.kept = next;
        number
    }

    /// Gives up all edits since the last commit. It takes no memory.
    pub fn rollback(&mut self)
        ensures { self.new ≡ rolled_back self.old }
    {
        self.edited = None;
    }
}

/// The number of a mark, where there is one.
fn number_of(mark: Option<Mark>) -> Option<u64>
    ensures { result ≡ option_map (λ m. m.number) mark }
{
    Some(mark?.number)
}

/// This number, where the other slot has its mark.
fn if_marked(number: Option<u64>, other: Option<Mark>) -> Option<u64>
    ensures { result ≡ if_marked number other }
{
    match (number, other) {
        (Some(number), Some(mark)) if mark.number == number => Some(number),
        _ => None,
    }
}
