//! The tables of a view column as they are put together, from the first to the last.
ghost use Rattle.std.specs.Prelude.{◌≡◌, ◌+◌, ◌<◌, ◌≤◌, ◌∷◌, ◌++◌, [], All, length, take, drop, IfOk, OnOk, OnErr};
ghost use Rattle.std.specs.Bool.{OnTrue};
ghost use Rattle.segments.specs.Joined.{joined};
ghost use Rattle.tables.specs.Pools.{Adds, HasAllHomes};
ghost use Rattle.tables.specs.Shapes.{HasHomes};

use crate::Shared;
use crate::chunk::{Chunk, TableList, sealed_chunk};
use crate::growing::Growing;
use crate::spine::{SPINE_MOST, Spine};
use crate::tables::Tables;
use mk_value::Memory;
use std::alloc::Global;
use std::marker::Model;
use std::mem::replace;

/// Tables in chunks that are done, and those of the chunk that comes. Small tables that have homes are kept together as soon as there are
/// so many as a pool has. A caller sees the tables.
#[derive(Drop)]
pub struct TablesBuilder {
    chunks: Vec<Chunk>,
    last: TableList,
}

impl Model for TablesBuilder {
    ghost use Rattle.std.specs.Prelude.{List, ◌++◌};
    ghost use Rattle.segments.specs.Joined.{joined};
    ghost use Rattle.tables.specs.Columns.{tables_code};
    ghost use Rattle.tables.specs.Building.{IsBuilding};
    ghost use Rattle.tables.specs.Tables.{StoredTable};

    ghost Value = { List StoredTable };

    ghost coded = { tables_code };

    ghost view = { λ b. joined b.chunks.items ++ b.last };

    ghost invariant = { λ b. IsBuilding b.chunks.items b.last };
}

impl TablesBuilder {
    /// No tables.
    pub fn new(alloc: Global) -> TablesBuilder
        ensures { result ≡ [] }
    {
        TablesBuilder {
            chunks: Vec::new(alloc),
            last: TableList::new(alloc),
        }
    }

    /// Adds a table behind the others.
    ///
    /// # Errors
    ///
    /// `Memory`.
    pub fn push(&mut self, table: Shared) -> Result<(), Memory>
        ensures { OnOk result (self.new ≡ self.old ++ table ∷ []) }
    {
        if !self.last.is_sealed() {
            return self.last.push(table);
        }
        seal(&mut self.chunks, &mut self.last)?;
        self.last.push(table)
    }

    /// Adds the table at a place of a list behind the others, and those behind it that are kept together with it, as they are. It tells how
    /// many these are: none where the table has columns of its own.
    ///
    /// # Errors
    ///
    /// `Memory`.
    pub fn push_pool(&mut self, tables: &Tables, at: usize) -> Result<usize, Memory>
        requires { at < length tables.now }
        ensures within { IfOk result (λ count. at + count ≤ length tables.now) }
        ensures added { IfOk result (λ count. self.new ≡ self.old ++ take count (drop at tables.now)) }
        ensures homes { IfOk result (λ count. All HasAllHomes (take count (drop at tables.now))) }
        ensures shaped { IfOk result (λ count. All HasHomes (take count (drop at tables.now))) }
    {
        let Some(chunk) = tables.pool_at(at) else {
            return Ok(0);
        };
        seal(&mut self.chunks, &mut self.last)?;
        let count = chunk.len();
        self.chunks.push(chunk.clone()?)?;
        Ok(count)
    }

    /// The tables.
    ///
    /// # Errors
    ///
    /// `Memory`, and so it is where small tables are kept together and there are more than 16,777,216 in all, more than a view has rows.
    pub fn finish(self) -> Result<Tables, Memory>
        ensures { IfOk result (λ tables. tables ≡ self) }
    {
        let TablesBuilder {
            mut chunks,
            mut last,
        } = self;
        if chunks.is_empty() && !last.is_first_poolable() {
            return Ok(Tables::of_list(Growing::of_list(last)));
        }
        seal(&mut chunks, &mut last)?;
        if !are_few(&chunks) {
            return Err(Memory);
        }
        Tables::of_spine(Spine::of_chunks(chunks)?)
    }
}

/// Puts the chunk that comes behind the others, if it has tables. The next one has none.
fn seal(chunks: &mut Vec<Chunk>, last: &mut TableList) -> Result<(), Memory>
    requires { length last.old ≤ 1024 }
    ensures added { OnOk result (Adds chunks.old.items last.old chunks.new.items) }
    ensures none { last.new ≡ [] }
    ensures err { OnErr result (chunks.new.items ≡ chunks.old.items) }
{
    if last.len() == 0 {
        return Ok(());
    }
    let list = replace(last, TableList::new(last.allocator()));
    chunks.push(sealed_chunk(list)?)?;
    Ok(())
}

/// Whether a list of chunks may have so many tables.
fn are_few(chunks: &[Chunk]) -> bool
    ensures { OnTrue result (length (joined chunks.now) ≤ 16777216) }
{
    let mut left = SPINE_MOST;
    for chunk in chunks {
        let count = chunk.len();
        if count > left {
            return false;
        }
        left -= count;
    }
    true
}
