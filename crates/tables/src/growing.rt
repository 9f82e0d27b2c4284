//! The tables in the rows of a view column, as a list that grows at its end.
ghost use Rattle.std.specs.Prelude.{◌≡◌, ◌+◌, ◌-◌, ◌<◌, ◌≤◌, [], ◌∷◌, ◌++◌, length, take, drop, slice_get, slice_set, Some, IfOk, IfErr, IfSome, OnOk, OnErr};
ghost use Rattle.std.specs.Bool.{OnTrue};
ghost use Rattle.segments.specs.Joined.{joined};
ghost use Rattle.tables.specs.Pools.{IsChunkAt};

use crate::chunk::{CHUNK_MOST, Chunk, TableList};
use crate::spine::{SPINE_MOST, Spine};
use crate::{Nested, Shared};
use mk_value::{Memory, Schema};
use std::alloc::{AllocError, Global};
use std::marker::Model;
use std::rc::Rc;

/// What stands before the last chunk of a list.
#[cycle(table)]
#[derive(Drop)]
pub(crate) enum Head {
    /// Nothing, as in a list of one chunk.
    Empty,
    /// A spine, which copies share.
    Chunks(Rc<Spine>),
}

/// The chunks before the last, which copies share, and the last, which is no other list's and may be empty.
#[cycle(table)]
#[derive(Drop)]
pub(crate) struct Growing {
    head: Head,
    last: TableList,
}

impl Model for Growing {
    ghost use Rattle.std.specs.Prelude.{List, ◌++◌};
    ghost use Rattle.tables.specs.Columns.{tables_code};
    ghost use Rattle.tables.specs.Sizes.{growing_size};
    ghost use Rattle.tables.specs.Tables.{StoredTable};

    ghost Value = { List StoredTable };

    ghost coded = { tables_code };

    ghost use Rattle.tables.specs.Lists.{head_tables};

    ghost view = { λ g. head_tables g.head ++ g.last };

    ghost size = { growing_size };

    ghost use Rattle.tables.specs.Falls.{growing_falls};

    ghost size_decreases = { λ g _. growing_falls g };
}

impl Growing {
    ghost use Rattle.tables.specs.Lists.{head_tables};

    /// No tables, which take no memory.
    pub(crate) fn new(alloc: Global) -> Growing
        ensures { result ≡ [] }
    {
        Growing {
            head: Head::Empty,
            last: TableList::new(alloc),
        }
    }

    /// The tables of a spine.
    pub(crate) fn of_spine(spine: Spine) -> Result<Growing, Memory>
        ensures { IfOk result (λ growing. growing ≡ joined spine) }
    {
        let alloc = spine.allocator();
        Ok(Growing {
            head: Head::Chunks(Rc::new(alloc, spine)?),
            last: TableList::new(alloc),
        })
    }

    /// These tables, in one chunk.
    pub(crate) fn of_list(list: TableList) -> Growing
        ensures { result ≡ list }
    {
        Growing {
            head: Head::Empty,
            last: list,
        }
    }

    /// How many tables there are.
    pub(crate) fn len(&self) -> usize
        ensures { result ≡ length self.now }
    {
        match &self.head {
            Head::Empty => self.last.len(),
            Head::Chunks(spine) => spine.len() + self.last.len(),
        }
    }

    /// Whether there are no tables.
    pub(crate) fn is_empty(&self) -> bool
        ensures { OnTrue result (self.now ≡ []) }
    {
        self.len() == 0
    }

    pub(crate) fn allocator(&self) -> Global {
        self.last.allocator()
    }

    /// The chunk that begins with the table at a place, if its tables are kept together.
    pub(crate) fn pool_at(&self, at: usize) -> Option<&Chunk>
        requires { at < length self.now }
        ensures { IfSome result (λ chunk. IsChunkAt self.now at chunk.now) }
    {
        match &self.head {
            Head::Empty => None,
            Head::Chunks(spine) if at < spine.len() => spine.pool_at(at),
            Head::Chunks(_) => None,
        }
    }

    /// The schema of a table that stands near the end, if there is one.
    pub(crate) fn last_schema(&self) -> Option<&segments::Shared<Schema>> {
        match &self.head {
            Head::Empty => self.last.last_schema(),
            Head::Chunks(spine) => last_schema_in(spine, &self.last),
        }
    }

    /// The table at a place.
    pub(crate) fn get(&self, at: usize) -> Nested<'_>
        requires { at < length self.now }
        ensures { slice_get self.now at ≡ Some result }
    {
        match &self.head {
            Head::Empty => self.last.get(at),
            Head::Chunks(spine) => get_in(spine, &self.last, at),
        }
    }

    /// Puts a table in place of the one at a place. No copy of the list is changed.
    pub(crate) fn set(&mut self, at: usize, table: Shared) -> Result<(), Memory>
        requires { at < length self.old }
        ensures ok { OnOk result (self.new ≡ slice_set self.old at table) }
        ensures err { OnErr result (self.new ≡ self.old) }
    {
        match &mut self.head {
            Head::Empty => {
                self.last.set(at, table);
                Ok(())
            }
            Head::Chunks(spine) => set_in(spine, &mut self.last, at, table),
        }
    }

    /// Whether one more table goes into the last chunk. An empty one stands behind a spine, whose last chunk may have room, until a
    /// table is put there. A list of more tables than a spine has stays in one chunk.
    pub(crate) fn has_room(&self) -> bool {
        let last = self.last.len();
        match &self.head {
            Head::Empty => last < CHUNK_MOST || last >= SPINE_MOST,
            Head::Chunks(_) => last > 0 && last < CHUNK_MOST,
        }
    }

    /// Adds a table behind the others, to the last chunk.
    pub(crate) fn push(&mut self, table: Shared) -> Result<(), Memory>
        ensures ok { OnOk result (self.new ≡ self.old ++ table ∷ []) }
        ensures err { OnErr result (self.new ≡ self.old) }
    {
        self.last.push(table)
    }

    /// The same tables, in the same spine.
    pub(crate) fn same(&self) -> Result<Growing, Memory>
        ensures { IfOk result (λ same. same ≡ self.now) }
    {
        Ok(Growing {
            head: Growing::same_head(&self.head)?,
            last: self.last.clone()?,
        })
    }

    /// The same head.
    fn same_head(head: &Head) -> Result<Head, Memory>
        ensures { IfOk result (λ same. head_tables same ≡ head_tables head.now) }
    {
        match head {
            Head::Empty => Ok(Head::Empty),
            Head::Chunks(spine) => Ok(Head::Chunks(spine.clone()?)),
        }
    }

    /// The same tables in a chunk that copies share, where there are some and no spine.
    pub(crate) fn to_chunk(&self) -> Result<Option<Chunk>, Memory>
        ensures { IfOk result (λ chunk. IfSome chunk (λ c. c ≡ self.now)) }
    {
        match &self.head {
            Head::Empty => chunk_of_some(&self.last),
            Head::Chunks(_) => Ok(None),
        }
    }

    /// All tables in one list.
    pub(crate) fn into_list(self) -> Result<TableList, Memory>
        ensures { IfOk result (λ list. list ≡ self) }
    {
        let Growing { head, last } = self;
        match head {
            Head::Empty => Ok(last),
            Head::Chunks(spine) => listed(&spine, &last),
        }
    }

    /// A spine of all tables, which shares the chunks before the last.
    pub(crate) fn into_spine(self) -> Result<Spine, Memory>
        requires { length self ≤ 16777216 }
        ensures { IfOk result (λ spine. joined spine ≡ self) }
    {
        let Growing { head, last } = self;
        match head {
            Head::Empty => Spine::of_list(last),
            Head::Chunks(spine) => spine.with(last),
        }
    }

    /// The same tables, with room in the last chunk.
    pub(crate) fn roomy(self) -> Result<Growing, Memory>
        ensures { IfOk result (λ growing. growing ≡ self) }
    {
        if self.has_room() {
            return Ok(self);
        }
        if self.len() > SPINE_MOST {
            return Ok(Growing::of_list(self.into_list()?));
        }
        reopened(self.into_spine()?)
    }

    /// The tables and one more.
    ///
    /// # Errors
    ///
    /// The tables as they are, for want of memory.
    pub(crate) fn with(self, table: Shared) -> Result<Longer, Growing>
        ensures ok { IfOk result (λ longer. longer ≡ self ++ table ∷ []) }
        ensures err { IfErr result (λ same. same ≡ self) }
    {
        let Growing { head, mut last } = self;
        match last.push(table) {
            Ok(()) => Ok(Longer { head, last }),
            Err(Memory) => Err(Growing { head, last }),
        }
    }
}

/// Tables to which one was added that can be taken away again: the last chunk has it.
#[derive(Drop)]
pub(crate) struct Longer {
    head: Head,
    last: TableList,
}

impl Model for Longer {
    ghost use Rattle.std.specs.Prelude.{List, ◌++◌, ◌<◌, length};
    ghost use Rattle.tables.specs.Columns.{tables_code};
    ghost use Rattle.tables.specs.Tables.{StoredTable};

    ghost Value = { List StoredTable };

    ghost coded = { tables_code };

    ghost use Rattle.tables.specs.Lists.{head_tables};

    ghost view = { λ l. head_tables l.head ++ l.last };

    ghost invariant = { λ l. 0 < length l.last };
}

impl Longer {
    /// The tables with the one that was added. It takes no memory.
    pub(crate) fn finish(self) -> Growing
        ensures { result ≡ self }
    {
        let Longer { head, last } = self;
        Growing { head, last }
    }

    /// The tables without it. It takes no memory.
    pub(crate) fn cancel(self) -> Growing
        ensures { result ≡ take (length self - 1) self }
    {
        let Longer { head, mut last } = self;
        last.pop();
        Growing { head, last }
    }
}

/// The table at a place of a spine or of the chunk behind it.
fn get_in<'a>(spine: &'a Spine, last: &'a TableList, at: usize) -> Nested<'a>
    requires { at < length (joined spine.now ++ last.now) }
    ensures { slice_get (joined spine.now ++ last.now) at ≡ Some result }
{
    let before = spine.len();
    if at < before {
        return spine.get(at);
    }
    last.get(at - before)
}

/// The schema of a table that stands near the end of a spine and the chunk behind it.
fn last_schema_in<'a>(
    spine: &'a Spine,
    last: &'a TableList,
) -> Option<&'a segments::Shared<Schema>> {
    match last.last_schema() {
        Some(schema) => Some(schema),
        None => spine.last_schema(),
    }
}

/// Puts a table in place of the one at a place of a spine or of the chunk behind it. Other owners of the spine keep it.
fn set_in(
    spine: &mut Rc<Spine>,
    last: &mut TableList,
    at: usize,
    table: Shared,
) -> Result<(), Memory>
    requires { at < length (joined spine.old.value ++ last.old) }
    ensures ok { OnOk result (joined spine.new.value ++ last.new ≡ slice_set (joined spine.old.value ++ last.old) at table) }
    ensures spine { OnErr result (spine.new.value ≡ spine.old.value) }
    ensures last { OnErr result (last.new ≡ last.old) }
{
    let before = spine.len();
    if at < before {
        return set_shared(spine, at, table);
    }
    last.set(at - before, table);
    Ok(())
}

/// Puts a table in place of one in a spine, which becomes its holder's own.
fn set_shared(spine: &mut Rc<Spine>, at: usize, table: Shared) -> Result<(), Memory>
    requires { at < length (joined spine.old.value) }
    ensures ok { OnOk result (joined spine.new.value ≡ slice_set (joined spine.old.value) at table) }
    ensures err { OnErr result (spine.new.value ≡ spine.old.value) }
{
    let own = Rc::make_mut(spine)?;
    own.set(at, table)
}

/// A chunk of the same tables, if there are some.
fn chunk_of_some(list: &TableList) -> Result<Option<Chunk>, Memory>
    ensures { IfOk result (λ chunk. IfSome chunk (λ c. c ≡ list.now)) }
{
    if list.len() == 0 {
        return Ok(None);
    }
    Ok(Some(Chunk::of(list.clone()?)?))
}

/// The tables of a spine and of the chunk behind it in one list.
fn listed(spine: &Spine, last: &TableList) -> Result<TableList, Memory>
    ensures { IfOk result (λ list. list ≡ joined spine.now ++ last.now) }
{
    let mut list = TableList::new(last.allocator());
    spine.push_part(&mut list, 0, spine.len())?;
    list.push_part(last, 0, last.len())?;
    Ok(list)
}

/// The tables of a spine, with its last chunk taken out of it if that has room.
fn reopened(spine: Spine) -> Result<Growing, Memory>
    ensures { IfOk result (λ growing. growing ≡ joined spine) }
{
    if spine.is_last_full() {
        return Growing::of_spine(spine);
    }
    let last = spine.last().to_list()?;
    let head = spine.without_last()?;
    Ok(Growing {
        head: Head::Chunks(Rc::new(last.allocator(), head)?),
        last,
    })
}
