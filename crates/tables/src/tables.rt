//! The tables in the rows of a view column.
ghost use Rattle.std.specs.Prelude.{◌≡◌, ◌+◌, ◌-◌, ◌<◌, ◌≤◌, [], ◌∷◌, ◌++◌, length, slice_get, slice_set, Some, IfOk, IfErr, IfSome, OnOk, OnErr};
ghost use Rattle.std.specs.Bool.{OnTrue};
ghost use Rattle.segments.specs.Joined.{joined};
ghost use Rattle.tables.specs.Pools.{IsChunkAt};
ghost use Rattle.tables.specs.Rows.{inserted, removed};

use crate::chunk::{CHUNK_MOST, Chunk, TableList};
use crate::growing::Growing;
use crate::spine::{SPINE_MOST, Spine};
use crate::{Nested, Shared};
use mk_value::{Memory, Schema};
use std::alloc::Global;
use std::marker::Model;

/// A list of shared tables, in chunks that copies share. A caller sees the tables.
#[cycle(table)]
#[derive(Drop)]
pub struct Tables {
    kind: Kind,
}

/// What is kept: one chunk, which copies share, or a list of chunks, the last of which is no other's.
#[cycle(table)]
#[derive(Drop)]
enum Kind {
    One(Chunk),
    Growing(Growing),
}

impl Model for Tables {
    ghost use Rattle.std.specs.Prelude.{List};
    ghost use Rattle.tables.specs.Columns.{tables_code};
    ghost use Rattle.tables.specs.Sizes.{tables_size};
    ghost use Rattle.tables.specs.Tables.{StoredTable};

    ghost Value = { List StoredTable };

    ghost coded = { tables_code };

    ghost use Rattle.tables.specs.Lists.{tables_of};

    ghost view = { λ t. tables_of t.kind };

    ghost size = { tables_size };

    ghost use Rattle.tables.specs.Falls.{tables_fall};

    ghost size_decreases = { λ t _. tables_fall t };
}

impl Tables {
    /// No tables.
    pub fn new(alloc: Global) -> Tables
        ensures { result ≡ [] }
    {
        Tables {
            kind: Kind::Growing(Growing::new(alloc)),
        }
    }

    /// How many tables there are.
    pub fn len(&self) -> usize
        ensures { result ≡ length self.now }
    {
        match &self.kind {
            Kind::One(chunk) => chunk.len(),
            Kind::Growing(list) => list.len(),
        }
    }

    /// Whether there are no tables.
    pub(crate) fn is_empty(&self) -> bool
        ensures { OnTrue result (self.now ≡ []) }
    {
        self.len() == 0
    }

    /// The schema of a table of the list, if there is one.
    pub(crate) fn schema(&self) -> Option<&segments::Shared<Schema>> {
        match &self.kind {
            Kind::One(chunk) => chunk.last_schema(),
            Kind::Growing(list) => list.last_schema(),
        }
    }

    /// The chunk that begins with the table at a place, if its tables are kept together.
    pub(crate) fn pool_at(&self, at: usize) -> Option<&Chunk>
        requires { at < length self.now }
        ensures { IfSome result (λ chunk. IsChunkAt self.now at chunk.now) }
    {
        match &self.kind {
            Kind::One(chunk) => pool_alone(chunk, at),
            Kind::Growing(list) => list.pool_at(at),
        }
    }

    /// The table at a place.
    pub fn get(&self, at: usize) -> Nested<'_>
        requires { at < length self.now }
        ensures { slice_get self.now at ≡ Some result }
    {
        match &self.kind {
            Kind::One(chunk) => chunk.get(at),
            Kind::Growing(list) => list.get(at),
        }
    }

    /// Adds a table behind the others. No copy of the list is changed. A table without rows that is the same as the last one becomes that
    /// very table, in memory.
    ///
    /// # Errors
    ///
    /// `Memory`, and the list is as it was.
    pub fn push(&mut self, table: Shared) -> Result<(), Memory>
        ensures ok { OnOk result (self.new ≡ self.old ++ table ∷ []) }
        ensures err { OnErr result (self.new ≡ self.old) }
    {
        match &mut self.kind {
            Kind::One(chunk) if chunk.len() < CHUNK_MOST => chunk.push(table),
            Kind::Growing(list) if list.is_empty() => {
                let chunk = first_chunk(list.allocator(), table)?;
                self.kind = Kind::One(chunk);
                Ok(())
            }
            Kind::Growing(list) if list.has_room() => list.push(table),
            _ => {
                let mut list = self.to_list()?;
                list.push(table)?;
                *self = Tables::of_list(list);
                Ok(())
            }
        }
    }

    /// Keeps small tables that have homes together, in the same columns. A caller sees no difference.
    ///
    /// # Errors
    ///
    /// `Memory`.
    pub fn pool(&mut self) -> Result<(), Memory>
        ensures { self.new ≡ self.old }
    {
        let few = self.len();
        if few > SPINE_MOST {
            return Ok(());
        }
        let spine = self.to_growing()?.into_spine()?;
        *self = Tables::of_spine(spine.pooled()?)?;
        Ok(())
    }

    /// Puts a table in place of the one at a place. No copy of the list is changed.
    pub(crate) fn set(&mut self, at: usize, table: Shared) -> Result<(), Memory>
        requires { at < length self.old }
        ensures ok { OnOk result (self.new ≡ slice_set self.old at table) }
        ensures err { OnErr result (self.new ≡ self.old) }
    {
        match &mut self.kind {
            Kind::One(chunk) => chunk.set(at, table),
            Kind::Growing(list) => list.set(at, table),
        }
    }

    /// Puts one table, so many times, before the one at a place, or at the end. No copy of the list is changed.
    pub(crate) fn insert(&mut self, at: usize, table: &Shared, count: usize) -> Result<(), Memory>
        requires { at ≤ length self.old }
        ensures ok { OnOk result (self.new ≡ inserted at count table.now self.old) }
        ensures err { OnErr result (self.new ≡ self.old) }
    {
        match &mut self.kind {
            Kind::One(chunk) if has_room_for(chunk, count) => chunk.insert(at, table, count),
            _ => {
                *self = self.with(at, table, count)?;
                Ok(())
            }
        }
    }

    /// Removes so many tables from a place on. No copy of the list is changed.
    pub(crate) fn remove(&mut self, at: usize, count: usize) -> Result<(), Memory>
        requires { at + count ≤ length self.old }
        ensures ok { OnOk result (self.new ≡ removed at count self.old) }
        ensures err { OnErr result (self.new ≡ self.old) }
    {
        match &mut self.kind {
            Kind::One(chunk) => chunk.remove(at, count),
            Kind::Growing(_) => {
                *self = self.without(at, count)?;
                Ok(())
            }
        }
    }

    /// The tables, with one put so many times before the one at a place, or at the end.
    fn with(&self, at: usize, table: &Shared, count: usize) -> Result<Tables, Memory>
        requires { at ≤ length self.now }
        ensures { IfOk result (λ tables. tables ≡ inserted at count table.now self.now) }
    {
        let growing = self.to_growing()?;
        if count > SPINE_MOST || self.len() > SPINE_MOST - count {
            let mut list = growing.into_list()?;
            list.insert(at, table, count)?;
            return Ok(Tables::of_list(Growing::of_list(list)));
        }
        let mut spine = growing.into_spine()?;
        spine.insert(at, table, count)?;
        Tables::of_spine(spine)
    }

    /// The tables without so many from a place on.
    fn without(&self, at: usize, count: usize) -> Result<Tables, Memory>
        requires { at + count ≤ length self.now }
        ensures { IfOk result (λ tables. tables ≡ removed at count self.now) }
    {
        let growing = self.to_growing()?;
        if self.len() > SPINE_MOST {
            let mut list = growing.into_list()?;
            list.remove(at, count);
            return Ok(Tables::of_list(Growing::of_list(list)));
        }
        let mut spine = growing.into_spine()?;
        spine.remove(at, count)?;
        Tables::of_spine(spine)
    }

    /// The tables of a spine, which one chunk needs none of.
    pub(crate) fn of_spine(spine: Spine) -> Result<Tables, Memory>
        ensures { IfOk result (λ tables. tables ≡ joined spine) }
    {
        match spine.only_chunk()? {
            Some(chunk) => Ok(Tables {
                kind: Kind::One(chunk),
            }),
            None => Ok(Tables::of_list(Growing::of_spine(spine)?)),
        }
    }

    /// The tables in this list.
    pub(crate) fn of_list(list: Growing) -> Tables
        ensures { result ≡ list }
    {
        Tables {
            kind: Kind::Growing(list),
        }
    }

    /// The list of the tables, if it is no other's and takes one more table in place.
    ///
    /// # Errors
    ///
    /// The tables as they are, if it may not.
    pub(crate) fn into_list(self) -> Result<Growing, Tables>
        ensures ok { IfOk result (λ list. list ≡ self) }
        ensures err { IfErr result (λ same. same ≡ self) }
    {
        let Tables { kind } = self;
        match kind {
            Kind::Growing(list) => list_if_room(list),
            kind => Err(Tables { kind }),
        }
    }

    /// A list of the same tables, which takes one more in place.
    pub(crate) fn to_list(&self) -> Result<Growing, Memory>
        ensures { IfOk result (λ list. list ≡ self.now) }
    {
        self.to_growing()?.roomy()
    }

    /// A list of the same tables.
    fn to_growing(&self) -> Result<Growing, Memory>
        ensures { IfOk result (λ list. list ≡ self.now) }
    {
        match &self.kind {
            Kind::One(chunk) => Ok(Growing::of_list(chunk.to_list()?)),
            Kind::Growing(list) => list.same(),
        }
    }

    /// The same tables, in the same chunks but for the last one that is no other's.
    pub(crate) fn same(&self) -> Result<Tables, Memory>
        ensures { IfOk result (λ tables. tables ≡ self.now) }
    {
        match &self.kind {
            Kind::One(chunk) => Ok(Tables {
                kind: Kind::One(chunk.clone()?),
            }),
            Kind::Growing(list) => same_growing(list),
        }
    }
}

/// The chunk, if it begins with the table at a place and its tables are kept together.
fn pool_alone(chunk: &Chunk, at: usize) -> Option<&Chunk>
    requires { at < length chunk.now }
    ensures { IfSome result (λ pool. IsChunkAt chunk.now at pool.now) }
{
    if at > 0 {
        return None;
    }
    if !chunk.is_pool() {
        return None;
    }
    Some(chunk)
}

/// Whether one chunk holds so many tables more.
fn has_room_for(chunk: &Chunk, count: usize) -> bool {
    count <= CHUNK_MOST && chunk.len() <= CHUNK_MOST - count
}

/// A chunk of one table.
fn first_chunk(alloc: Global, table: Shared) -> Result<Chunk, Memory>
    ensures { IfOk result (λ chunk. chunk ≡ table ∷ []) }
{
    let mut list = TableList::new(alloc);
    list.push(table)?;
    Chunk::of(list)
}

/// The list, if it takes one more table in place.
fn list_if_room(list: Growing) -> Result<Growing, Tables>
    ensures ok { IfOk result (λ same. same ≡ list) }
    ensures err { IfErr result (λ same. same ≡ list) }
{
    if list.has_room() {
        Ok(list)
    } else {
        Err(Tables::of_list(list))
    }
}

/// The same tables. Those of one chunk come into a chunk that further copies share.
fn same_growing(list: &Growing) -> Result<Tables, Memory>
    ensures { IfOk result (λ tables. tables ≡ list.now) }
{
    match list.to_chunk()? {
        Some(chunk) => Ok(Tables {
            kind: Kind::One(chunk),
        }),
        None => Ok(Tables::of_list(list.same()?)),
    }
}
