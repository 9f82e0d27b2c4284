//! A store over a host in memory.
ghost use Rattle.std.specs.Prelude.{◌≡◌, ◌⊎◌, ◌<◌, ◌≤◌, [], false, length, IfOk, IsSome};
ghost use Rattle.commit_plan.specs.Following.{IsNote};
ghost use Rattle.mk_value.specs.Limits.{max_rows};

use host_io::{Effect, Failed, Fault, MemHost};
use mk_value::{Bytes, MAX_VIEWS, Name, Path, Row, Schema, Text, Value};
use recovery::OpenError;
use std::alloc::Global;
use std::marker::Model;
use std::test::Fail;
use storage::{Mode, PlanError, RevertError, Store};
use view_store::{EditError, empty_table, structure_fits};

/// How many writes and syncs, and how many bytes written, a host has room for.
const ROOM: usize = 100_000;

/// The least cap of a new store, which is as long.
const LEAST_CAP: u32 = 208;

/// A store, and the host that its file is on. A contract sees whether the store is shut.
#[derive(Drop)]
pub struct Fixture {
    store: Store,
    host: MemHost,
}

impl Model for Fixture {
    ghost use Rattle.std.specs.Prelude.{◌≡◌, Bool, false};
    ghost use Rattle.host_io.specs.Memory.{outside_of};
    ghost use Rattle.storage.specs.Stored.{Rests, is_shut};

    ghost Value = { Bool };

    ghost view = { λ f. is_shut f.store };

    ghost invariant = { λ f. is_shut f.store ≡ false → Rests f.store (outside_of f.host).now.disk };
}

/// Why there is no next commit.
#[derive(Clone, Copy, Debug, PartialEq, Eq)]
pub enum CommitError {
    /// It was not planned.
    Unplanned(PlanError),
    /// The disk failed under way.
    Failed,
}

impl From<PlanError> for CommitError {
    fn from(error: PlanError) -> CommitError {
        CommitError::Unplanned(error)
    }
}

impl From<Failed> for CommitError {
    fn from(_error: Failed) -> CommitError {
        CommitError::Failed
    }
}

impl Fixture {
    /// A new store in an empty file.
    pub fn create(alloc: Global, script: &[Fault], mode: Mode, cap: u32) -> Result<Fixture, Fail> {
        if mode == Mode::Read {
            return Err(Fail::new("a new store is not only read"));
        }
        if cap < LEAST_CAP {
            return Err(Fail::new("a new store does not fit the cap"));
        }
        let mut host = MemHost::new(alloc, b"", b"", script, 0, ROOM)?;
        let store = Store::create(alloc, &mut host, mode, u64::from(cap))?;
        Ok(Fixture { store, host })
    }

    /// The store of a file.
    pub fn open(
        alloc: Global,
        file: &[u8],
        script: &[Fault],
        mode: Mode,
        cap: u32,
    ) -> Result<Fixture, OpenError> {
        let mut host = MemHost::new(alloc, file, b"", script, 0, ROOM)?;
        let store = Store::open(alloc, &mut host, mode, u64::from(cap))?;
        Ok(Fixture { store, host })
    }

    pub fn store(&self) -> &Store {
        &self.store
    }

    pub fn is_shut(&self) -> bool
        ensures { result ≡ self.now }
    {
        self.store.is_shut()
    }

    /// The bytes of the file as they are read.
    pub fn file(&self) -> &[u8] {
        self.host.image()
    }

    /// How many calls of the host were made.
    pub fn calls(&self) -> u64 {
        self.host.calls()
    }

    /// The file after a crash that comes when so many calls were made.
    pub fn crash(&self, after: u64, choice: Effect) -> Result<Bytes, Fail> {
        if after > self.host.calls() {
            return Err(Fail::new("no such call"));
        }
        Ok(self.host.crash(after, choice)?)
    }

    /// Puts a view of this schema in that has no rows.
    pub fn make(&mut self, alloc: Global, name: &Name, schema: &Schema) -> Result<(), Fail> {
        if !structure_fits(name, schema) || self.store.views().names().len() >= MAX_VIEWS {
            return Err(Fail::new("no room"));
        }
        self.store.put_view(name, empty_table(alloc, schema)?)?;
        Ok(())
    }

    pub fn drop_view(&mut self, name: &Name) -> Result<(), EditError> {
        self.store.drop_view(name)
    }

    pub fn insert(
        &mut self,
        path: &Path,
        pos: usize,
        row: &Row,
        copies: u16,
    ) -> Result<(), EditError> {
        self.store.insert_rows(path, pos, row, usize::from(copies))
    }

    pub fn set(
        &mut self,
        path: &Path,
        row: usize,
        prop: &Name,
        value: &Value,
    ) -> Result<(), EditError> {
        self.store.set(path, row, prop, value)
    }

    pub fn remove(&mut self, path: &Path, pos: usize, count: usize) -> Result<(), EditError> {
        self.store.remove_rows(path, pos, count)
    }

    /// Removes rows in a copy of the views, and makes it the views that are edited.
    pub fn remove_in_copy(
        &mut self,
        path: &Path,
        pos: usize,
        count: usize,
    ) -> Result<(), EditError> {
        let mut views = self.store.views().same()?;
        views.remove_rows(path, pos, count)?;
        self.store.put_views(views);
        Ok(())
    }

    pub fn rollback(&mut self) {
        self.store.rollback();
    }

    /// Plans the next commit and carries it out.
    pub fn commit(&mut self, alloc: Global, note: &Text) -> Result<u64, CommitError>
        requires open { self.old ≡ false }
        requires note { IsNote note.now.bytes }
    {
        let plan = self.store.plan(alloc, note)?;
        Ok(self.store.carry(&mut self.host, plan)?)
    }

    pub fn revert(&mut self, alloc: Global) -> Result<u64, RevertError>
        requires { self.old ≡ false }
    {
        self.store.revert(alloc, &mut self.host)
    }

    pub fn reopen(&mut self, alloc: Global) -> Result<u64, OpenError> {
        self.store.reopen(alloc, &mut self.host)
    }
}
