//! A chunk of the tables in the rows of a view column.
ghost use Rattle.std.specs.Prelude.{◌≡◌, ◌+◌, ◌-◌, ◌^◌, ◌<◌, ◌≤◌, [], ◌∷◌, ◌++◌, length, take, drop, replicate, slice_get, slice_set, slice_index_or, Some, All, IfOk, OnOk, OnErr};
ghost use Rattle.std.specs.Bool.{OnFalse, OnTrue};
ghost use Rattle.segments.specs.Joined.{joined, counts_of};
ghost use Rattle.tables.specs.Pools.{Adds, HasAllHomes, IsPoolable, no_table};
ghost use Rattle.tables.specs.Rows.{inserted, removed};
ghost use Rattle.tables.specs.Shapes.{HasHomes};

use crate::item::Item;
use crate::pool::Pool;
use crate::{Nested, Shared, Table};
use mk_value::{Memory, Schema};
use std::alloc::{AllocError, Global};
use std::marker::Model;
use std::rc::Rc;

/// How many tables a chunk of a spine has at most. An edit of a shared list copies a count for each table of a chunk.
pub(crate) const CHUNK_MOST: usize = 1024;

/// How many tables a pool has at most. An edit of one of them makes a list of all, in which the others stay in the pool.
const POOL_MOST: usize = 128;

/// The tables of a chunk, one after another.
#[cycle(table)]
#[derive(Drop)]
pub(crate) struct TableList {
    items: Vec<Item>,
}

/// A chunk, which copies share. An edit by one of its holders leaves it as it is for the others.
#[cycle(table)]
#[derive(Drop)]
pub(crate) struct Chunk {
    kind: ChunkKind,
}

/// How the tables of a chunk are kept.
#[cycle(table)]
#[derive(Drop)]
enum ChunkKind {
    /// One by one.
    Listed(Rc<TableList>),
    /// Together, in the same columns.
    Pooled(Rc<Pool>),
}

impl Model for TableList {
    ghost use Rattle.std.specs.Prelude.{List};
    ghost use Rattle.tables.specs.Columns.{tables_code};
    ghost use Rattle.tables.specs.Sizes.{list_size};
    ghost use Rattle.tables.specs.Tables.{StoredTable};

    ghost Value = { List StoredTable };

    ghost coded = { tables_code };

    ghost view = { λ l. l.items.items };

    ghost size = { list_size };

    ghost use Rattle.tables.specs.Falls.{list_falls};

    ghost size_decreases = { λ l _. list_falls l };
}

impl Model for Chunk {
    ghost use Rattle.std.specs.Prelude.{List};
    ghost use Rattle.tables.specs.Columns.{tables_code};
    ghost use Rattle.tables.specs.Sizes.{chunk_size};
    ghost use Rattle.tables.specs.Tables.{StoredTable};

    ghost Value = { List StoredTable };

    ghost coded = { tables_code };

    ghost use Rattle.tables.specs.Lists.{chunk_tables};

    ghost view = { λ c. chunk_tables c.kind };

    ghost size = { chunk_size };

    ghost use Rattle.tables.specs.Falls.{chunk_falls};

    ghost size_decreases = { λ c _. chunk_falls c };
}

impl Clone for TableList {
    ghost is_clone = { λ a b. b ≡ a };

    fn clone(&self) -> Result<TableList, AllocError> {
        Ok(TableList {
            items: Vec::from_clones(*self.items.allocator(), &self.items)?,
        })
    }
}

impl Clone for Chunk {
    ghost is_clone = { λ a b. b ≡ a };

    /// One more holder of the chunk.
    fn clone(&self) -> Result<Chunk, AllocError> {
        match &self.kind {
            ChunkKind::Listed(list) => Ok(Chunk {
                kind: ChunkKind::Listed(list.clone()?),
            }),
            ChunkKind::Pooled(pool) => Ok(Chunk {
                kind: ChunkKind::Pooled(pool.clone()?),
            }),
        }
    }
}

impl TableList {
    /// No tables, which take no memory.
    pub(crate) fn new(alloc: Global) -> TableList
        ensures { result ≡ [] }
    {
        TableList {
            items: Vec::new(alloc),
        }
    }

    pub(crate) fn allocator(&self) -> Global {
        *self.items.allocator()
    }

    /// How many tables there are.
    pub(crate) fn len(&self) -> usize
        ensures len { result ≡ length self.now }
        ensures few { result < 2 ^ 63 }
    {
        self.items.len()
    }

    /// The table at a place.
    pub(crate) fn get(&self, at: usize) -> Nested<'_>
        requires { at < length self.now }
        ensures { slice_get self.now at ≡ Some result }
    {
        self.items[at].lend()
    }

    /// Adds a table behind the others. Where it has no rows, and the last one is the same, it is that one once more.
    pub(crate) fn push(&mut self, table: Shared) -> Result<(), Memory>
        ensures ok { OnOk result (self.new ≡ self.old ++ table ∷ []) }
        ensures err { OnErr result (self.new ≡ self.old) }
    {
        let table = self.or_last(table)?;
        self.push_item(Item::own(table))
    }

    /// Adds a table behind the others, as it stands.
    fn push_item(&mut self, item: Item) -> Result<(), Memory>
        ensures ok { OnOk result (self.new ≡ self.old ++ item ∷ []) }
        ensures err { OnErr result (self.new ≡ self.old) }
    {
        self.items.push(item)?;
        Ok(())
    }

    /// The last table once more in place of one that is the same and has no rows, and any other as it is.
    fn or_last(&self, table: Shared) -> Result<Shared, Memory>
        ensures { IfOk result (λ same. same ≡ table) }
    {
        match self.last() {
            Some(last) => last.or_same(table),
            None => Ok(table),
        }
    }

    /// The last table, if there is one.
    fn last(&self) -> Option<&Item> {
        self.items.last()
    }

    /// Whether there are as many tables as go into a chunk: fewer where a pool may have the first.
    pub(crate) fn is_sealed(&self) -> bool
        ensures some { OnTrue result (0 < length self.now) }
        ensures few { OnFalse result (length self.now < 1024) }
    {
        self.items.len() >= CHUNK_MOST || self.items.len() >= POOL_MOST && self.is_first_poolable()
    }

    /// Whether the first table is such that a pool may have it.
    pub(crate) fn is_first_poolable(&self) -> bool {
        match self.items.first() {
            Some(first) => first.is_poolable(),
            None => false,
        }
    }

    /// The schema of the last table.
    pub(crate) fn last_schema(&self) -> Option<&segments::Shared<Schema>> {
        match self.last() {
            Some(last) => Some(last.shared_schema()),
            None => None,
        }
    }

    /// Takes the last table away.
    pub(crate) fn pop(&mut self)
        ensures { self.new ≡ take (length self.old - 1) self.old }
    {
        let _last = self.items.pop();
    }

    /// Adds a table behind the others, so many times.
    pub(crate) fn push_copies(&mut self, table: &Shared, count: usize) -> Result<(), Memory>
        ensures ok { OnOk result (self.new ≡ self.old ++ replicate count table.now) }
    {
        push_copies(&mut self.items, table, count)
    }

    /// Adds tables of another list behind the others, so many from a place on.
    pub(crate) fn push_part(
        &mut self,
        list: &TableList,
        from: usize,
        count: usize,
    ) -> Result<(), Memory>
        requires { from + count ≤ length list.now }
        ensures ok { OnOk result (self.new ≡ self.old ++ take count (drop from list.now)) }
    {
        push_each(&mut self.items, &list.items[from..from + count])
    }

    /// Puts a table in place of the one at a place.
    pub(crate) fn set(&mut self, at: usize, table: Shared)
        requires { at < length self.old }
        ensures { self.new ≡ slice_set self.old at table }
    {
        self.items[at] = Item::own(table);
    }

    /// Puts one table, so many times, before the one at a place, or at the end.
    pub(crate) fn insert(&mut self, at: usize, table: &Shared, count: usize) -> Result<(), Memory>
        requires { at ≤ length self.old }
        ensures ok { OnOk result (self.new ≡ inserted at count table.now self.old) }
        ensures err { OnErr result (self.new ≡ self.old) }
    {
        let before = self.items.len();
        match push_copies(&mut self.items, table, count) {
            Ok(()) => {
                self.items[at..].rotate_right(count);
                Ok(())
            }
            Err(error) => {
                self.items.truncate(before);
                Err(error)
            }
        }
    }

    /// Removes so many tables from a place on.
    pub(crate) fn remove(&mut self, at: usize, count: usize)
        requires { at + count ≤ length self.old }
        ensures { self.new ≡ removed at count self.old }
    {
        self.items[at..].rotate_left(count);
        let left = self.items.len() - count;
        self.items.truncate(left);
    }
}

/// Appends one table so many times. An error leaves the tables before them.
fn push_copies(tables: &mut Vec<Item>, table: &Shared, count: usize) -> Result<(), Memory>
    ensures ok { OnOk result (tables.new.items ≡ tables.old.items ++ replicate count table.now) }
    ensures err { OnErr result (take (length tables.old.items) tables.new.items ≡ tables.old.items) }
{
    for _ in 0..count {
        tables.push(Item::own(table.clone()?))?;
    }
    Ok(())
}

/// Appends tables in order.
fn push_each(tables: &mut Vec<Item>, more: &[Item]) -> Result<(), Memory>
    ensures { OnOk result (tables.new.items ≡ tables.old.items ++ more.now) }
{
    for table in more {
        tables.push(table.clone()?)?;
    }
    Ok(())
}

impl Chunk {
    ghost use Rattle.tables.specs.Lists.{chunk_tables};

    /// The chunk of these tables.
    pub(crate) fn of(list: TableList) -> Result<Chunk, Memory>
        ensures { IfOk result (λ chunk. chunk ≡ list) }
    {
        Ok(Chunk {
            kind: ChunkKind::Listed(Rc::new(list.allocator(), list)?),
        })
    }

    /// The chunk of the tables of a pool.
    pub(crate) fn of_pool(pool: Pool) -> Result<Chunk, Memory>
        ensures { IfOk result (λ chunk. chunk ≡ pool) }
    {
        Ok(Chunk {
            kind: ChunkKind::Pooled(Rc::new(pool.allocator(), pool)?),
        })
    }

    /// How many tables there are.
    pub(crate) fn len(&self) -> usize
        ensures len { result ≡ length self.now }
        ensures few { result < 2 ^ 63 }
    {
        match &self.kind {
            ChunkKind::Listed(list) => list.len(),
            ChunkKind::Pooled(pool) => pool.len(),
        }
    }

    /// The table at a place.
    pub(crate) fn get(&self, at: usize) -> Nested<'_>
        requires { at < length self.now }
        ensures { slice_get self.now at ≡ Some result }
    {
        match &self.kind {
            ChunkKind::Listed(list) => list.get(at),
            ChunkKind::Pooled(pool) => Nested::part(pool, at),
        }
    }

    /// The schema of the last table, if it has columns of its own, or of all where they are kept together.
    pub(crate) fn last_schema(&self) -> Option<&segments::Shared<Schema>> {
        match &self.kind {
            ChunkKind::Listed(list) => list.last_schema(),
            ChunkKind::Pooled(pool) => Some(pool.shared_schema()),
        }
    }

    /// The tables, one by one.
    pub(crate) fn to_list(&self) -> Result<TableList, Memory>
        ensures { IfOk result (λ list. list ≡ self.now) }
    {
        match &self.kind {
            ChunkKind::Listed(list) => cloned(list),
            ChunkKind::Pooled(pool) => pooled_list(pool, 0, pool.len()),
        }
    }

    /// Appends chunks of the same tables, small ones with homes kept together.
    pub(crate) fn push_pooled(&self, chunks: &mut Vec<Chunk>) -> Result<(), Memory>
        requires some { 0 < length self.now }
        requires few { length self.now ≤ 1024 }
        ensures { OnOk result (Adds chunks.old.items self.now chunks.new.items) }
    {
        match &self.kind {
            ChunkKind::Listed(list) if list.is_first_poolable() => push_pools(list, chunks),
            _ => push_kept(self, chunks),
        }
    }

    /// Whether the tables are kept together.
    pub(crate) fn is_pool(&self) -> bool
        ensures some { OnTrue result (0 < length self.now) }
        ensures few { OnTrue result (length self.now ≤ 128) }
        ensures homes { OnTrue result (All HasAllHomes self.now) }
        ensures shaped { OnTrue result (All HasHomes self.now) }
    {
        match &self.kind {
            ChunkKind::Listed(_) => false,
            ChunkKind::Pooled(pool) => pool.len() > 0,
        }
    }

    /// Adds so many of the tables from a place on behind those of a list.
    pub(crate) fn push_part(
        &self,
        into: &mut TableList,
        from: usize,
        count: usize,
    ) -> Result<(), Memory>
        requires { from + count ≤ length self.now }
        ensures { OnOk result (into.new ≡ into.old ++ take count (drop from self.now)) }
    {
        match &self.kind {
            ChunkKind::Listed(list) => into.push_part(list, from, count),
            ChunkKind::Pooled(pool) => push_pooled(into, pool, from, count),
        }
    }

    /// Adds a table behind the others.
    pub(crate) fn push(&mut self, table: Shared) -> Result<(), Memory>
        ensures ok { OnOk result (self.new ≡ self.old ++ table ∷ []) }
        ensures err { OnErr result (self.new ≡ self.old) }
    {
        match &mut self.kind {
            ChunkKind::Listed(list) => push_listed(list, table),
            ChunkKind::Pooled(_) => {
                let mut list = self.to_list()?;
                list.push(table)?;
                *self = Chunk::of(list)?;
                Ok(())
            }
        }
    }

    /// Puts a table in place of the one at a place.
    pub(crate) fn set(&mut self, at: usize, table: Shared) -> Result<(), Memory>
        requires { at < length self.old }
        ensures ok { OnOk result (self.new ≡ slice_set self.old at table) }
        ensures len { length self.new ≡ length self.old }
        ensures err { OnErr result (self.new ≡ self.old) }
    {
        match &mut self.kind {
            ChunkKind::Listed(list) => set_listed(list, at, table),
            ChunkKind::Pooled(_) => {
                let mut list = self.to_list()?;
                list.set(at, table);
                *self = Chunk::of(list)?;
                Ok(())
            }
        }
    }

    /// Puts one table, so many times, before the one at a place, or at the end.
    pub(crate) fn insert(&mut self, at: usize, table: &Shared, count: usize) -> Result<(), Memory>
        requires { at ≤ length self.old }
        ensures ok { OnOk result (self.new ≡ inserted at count table.now self.old) }
        ensures err { OnErr result (self.new ≡ self.old) }
    {
        match &mut self.kind {
            ChunkKind::Listed(list) => insert_listed(list, at, table, count),
            ChunkKind::Pooled(_) => {
                let mut list = self.to_list()?;
                list.insert(at, table, count)?;
                *self = Chunk::of(list)?;
                Ok(())
            }
        }
    }

    /// Removes so many tables from a place on.
    pub(crate) fn remove(&mut self, at: usize, count: usize) -> Result<(), Memory>
        requires { at + count ≤ length self.old }
        ensures ok { OnOk result (self.new ≡ removed at count self.old) }
        ensures err { OnErr result (self.new ≡ self.old) }
    {
        match &mut self.kind {
            ChunkKind::Listed(list) => remove_listed(list, at, count),
            ChunkKind::Pooled(_) => {
                let mut list = self.to_list()?;
                list.remove(at, count);
                *self = Chunk::of(list)?;
                Ok(())
            }
        }
    }
}

/// Appends a chunk as it is.
fn push_kept(chunk: &Chunk, chunks: &mut Vec<Chunk>) -> Result<(), Memory>
    requires some { 0 < length chunk.now }
    requires few { length chunk.now ≤ 1024 }
    ensures { OnOk result (Adds chunks.old.items chunk.now chunks.new.items) }
{
    chunks.push(chunk.clone()?)?;
    Ok(())
}

/// Appends chunks of the tables of a list, each of so many as a pool has at most.
fn push_pools(list: &TableList, chunks: &mut Vec<Chunk>) -> Result<(), Memory>
    ensures { OnOk result (Adds chunks.old.items list.now chunks.new.items) }
{
    let mut from = 0;
    while from < list.len() {
        let count = (list.len() - from).min(POOL_MOST);
        chunks.push(pooled_part(list, from, count)?)?;
        from += count;
    }
    Ok(())
}

/// The chunk of tables, kept together where all of them may be.
pub(crate) fn sealed_chunk(list: TableList) -> Result<Chunk, Memory>
    requires some { 0 < length list }
    requires few { length list ≤ 1024 }
    ensures { IfOk result (λ chunk. chunk ≡ list) }
{
    if list.len() > POOL_MOST || !list.is_first_poolable() {
        return Chunk::of(list);
    }
    let tables = own_tables(list.allocator(), &list.items)?;
    if !are_poolable(&tables) {
        return Chunk::of(list);
    }
    pooled_chunk(list.allocator(), &tables)
}

/// A chunk of so many tables from a place on, kept together where all of them may be.
fn pooled_part(list: &TableList, from: usize, count: usize) -> Result<Chunk, Memory>
    requires some { 0 < count }
    requires few { count ≤ 128 }
    requires within { from + count ≤ length list.now }
    ensures { IfOk result (λ chunk. chunk ≡ take count (drop from list.now)) }
{
    let tables = own_tables(list.allocator(), &list.items[from..from + count])?;
    if !are_poolable(&tables) {
        return part(list, from, count);
    }
    pooled_chunk(list.allocator(), &tables)
}

/// The tables of items, each in columns of its own.
fn own_tables(alloc: Global, items: &[Item]) -> Result<Vec<Shared>, Memory>
    ensures { IfOk result (λ tables. tables.items ≡ items.now) }
{
    let mut tables = Vec::new(alloc);
    for item in items {
        tables.push(item.lend().to_shared()?)?;
    }
    Ok(tables)
}

/// The chunk of tables that are kept together.
fn pooled_chunk(alloc: Global, tables: &[Shared]) -> Result<Chunk, Memory>
    requires some { 0 < length tables.now }
    requires few { length tables.now ≤ 128 }
    requires each { All (IsPoolable (slice_index_or tables.now 0 no_table).schema) tables.now }
    ensures { IfOk result (λ chunk. chunk ≡ tables.now) }
{
    let schema = tables[0].table().shared_schema();
    Chunk::of_pool(Pool::of(alloc, schema, tables)?)
}

/// Whether tables may be kept together: small ones of one schema.
fn are_poolable(tables: &[Shared]) -> bool
    requires { 0 < length tables.now }
    ensures { OnTrue result (All (IsPoolable (slice_index_or tables.now 0 no_table).schema) tables.now) }
{
    let schema = tables[0].table().shared_schema().get();
    for table in tables {
        if !is_poolable_with(table.table(), schema) {
            return false;
        }
    }
    true
}

/// Whether a table may be kept together with others of a schema.
fn is_poolable_with(table: &Table, schema: &Schema) -> bool
    ensures { OnTrue result (IsPoolable schema.now table.now) }
{
    if !table.shared_schema().get().is_same(schema) {
        return false;
    }
    table.is_poolable()
}

/// A copy of a list.
fn cloned(list: &TableList) -> Result<TableList, Memory>
    ensures { IfOk result (λ copy. copy ≡ list.now) }
{
    Ok(list.clone()?)
}

/// So many tables of a pool from a place on, which stay in it.
fn pooled_list(pool: &Rc<Pool>, from: usize, count: usize) -> Result<TableList, Memory>
    requires { from + count ≤ length pool.now.value }
    ensures { IfOk result (λ list. list ≡ take count (drop from pool.now.value)) }
{
    let mut list = TableList::new(pool.allocator());
    push_pooled(&mut list, pool, from, count)?;
    Ok(list)
}

/// Adds so many tables of a pool from a place on, which stay in it, behind those of a list.
fn push_pooled(
    list: &mut TableList,
    pool: &Rc<Pool>,
    from: usize,
    count: usize,
) -> Result<(), Memory>
    requires { from + count ≤ length pool.now.value }
    ensures { OnOk result (list.new ≡ list.old ++ take count (drop from pool.now.value)) }
{
    // A pool has few tables.
    let _few = pool.len();
    for at in 0..count {
        list.push_item(Item::part(pool, from + at)?)?;
    }
    Ok(())
}

/// Adds a table behind those of a list, which becomes its holder's own.
fn push_listed(list: &mut Rc<TableList>, table: Shared) -> Result<(), Memory>
    ensures ok { OnOk result (list.new.value ≡ list.old.value ++ table ∷ []) }
    ensures err { OnErr result (list.new.value ≡ list.old.value) }
{
    let list = Rc::make_mut(list)?;
    list.push(table)
}

/// Puts a table in place of one of a list, which becomes its holder's own.
fn set_listed(list: &mut Rc<TableList>, at: usize, table: Shared) -> Result<(), Memory>
    requires { at < length list.old.value }
    ensures ok { OnOk result (list.new.value ≡ slice_set list.old.value at table) }
    ensures err { OnErr result (list.new.value ≡ list.old.value) }
{
    let list = Rc::make_mut(list)?;
    list.items[at] = Item::own(table);
    Ok(())
}

/// Puts one table, so many times, into a list, which becomes its holder's own.
fn insert_listed(
    list: &mut Rc<TableList>,
    at: usize,
    table: &Shared,
    count: usize,
) -> Result<(), Memory>
    requires { at ≤ length list.old.value }
    ensures ok { OnOk result (list.new.value ≡ inserted at count table.now list.old.value) }
    ensures err { OnErr result (list.new.value ≡ list.old.value) }
{
    let list = Rc::make_mut(list)?;
    list.insert(at, table, count)
}

/// Removes so many tables from a list, which becomes its holder's own.
fn remove_listed(list: &mut Rc<TableList>, at: usize, count: usize) -> Result<(), Memory>
    requires { at + count ≤ length list.old.value }
    ensures ok { OnOk result (list.new.value ≡ removed at count list.old.value) }
    ensures err { OnErr result (list.new.value ≡ list.old.value) }
{
    let list = Rc::make_mut(list)?;
    list.remove(at, count);
    Ok(())
}

/// Tables cut into full chunks and a last one of what is left. No chunk is empty.
pub(crate) fn cut(list: TableList) -> Result<Vec<Chunk>, Memory>
    ensures tables { IfOk result (λ chunks. joined chunks.items ≡ list) }
    ensures some { IfOk result (λ chunks. All (λ n. 0 < n) (counts_of chunks.items)) }
    ensures few { IfOk result (λ chunks. All (λ n. n ≤ 1024) (counts_of chunks.items)) }
{
    if list.len() > CHUNK_MOST {
        return cut_copies(&list);
    }
    let mut chunks = Vec::new(list.allocator());
    if list.len() > 0 {
        chunks.push(Chunk::of(list)?)?;
    }
    Ok(chunks)
}

/// The same of tables that stay where they are.
fn cut_copies(list: &TableList) -> Result<Vec<Chunk>, Memory>
    ensures tables { IfOk result (λ chunks. joined chunks.items ≡ list.now) }
    ensures some { IfOk result (λ chunks. All (λ n. 0 < n) (counts_of chunks.items)) }
    ensures few { IfOk result (λ chunks. All (λ n. n ≤ 1024) (counts_of chunks.items)) }
{
    let mut chunks = Vec::new(list.allocator());
    let mut from = 0;
    while from < list.len() {
        let count = (list.len() - from).min(CHUNK_MOST);
        chunks.push(part(list, from, count)?)?;
        from += count;
    }
    Ok(chunks)
}

/// A chunk of so many tables from a place on.
fn part(list: &TableList, from: usize, count: usize) -> Result<Chunk, Memory>
    requires { from + count ≤ length list.now }
    ensures { IfOk result (λ chunk. chunk ≡ take count (drop from list.now)) }
{
    let mut tables = TableList::new(list.allocator());
    tables.push_part(list, from, count)?;
    Chunk::of(tables)
}
