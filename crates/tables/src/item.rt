//! A table of a list: one in columns of its own, or one of a pool.
ghost use Rattle.std.specs.Prelude.{◌≡◌, ◌<◌, length, slice_index_or, IfOk};
ghost use Rattle.tables.specs.Pools.{no_table};

use crate::pool::Pool;
use crate::{Nested, Shared};
use mk_value::{Memory, Schema};
use std::alloc::AllocError;
use std::marker::Model;
use std::rc::Rc;

/// A table of a list. A caller sees the table.
#[cycle(table)]
#[derive(Drop)]
pub(crate) struct Item {
    kind: ItemKind,
}

/// Where the table of an item stands.
#[cycle(table)]
#[derive(Drop)]
enum ItemKind {
    /// In columns of its own.
    Own(Shared),
    /// In a pool that others may hold too, at a number.
    Part(Rc<Pool>, u32),
}

impl Model for Item {
    ghost use Rattle.tables.specs.Sizes.{item_size};
    ghost use Rattle.tables.specs.Tables.{StoredTable, stored_code};

    ghost Value = { StoredTable };

    ghost coded = { stored_code };

    ghost use Rattle.tables.specs.Items.{IsItem, item_table};

    ghost view = { λ i. item_table i.kind };

    ghost invariant = { λ i. IsItem i.kind };

    ghost size = { item_size };

    ghost use Rattle.tables.specs.Falls.{item_falls};

    ghost size_decreases = { λ i h. item_falls i h };
}

impl Clone for Item {
    ghost is_clone = { λ a b. b ≡ a };

    /// One more holder of the table, or of the pool that has it.
    fn clone(&self) -> Result<Item, AllocError> {
        match &self.kind {
            ItemKind::Own(table) => Ok(Item {
                kind: ItemKind::Own(table.clone()?),
            }),
            ItemKind::Part(pool, number) => Ok(Item {
                kind: ItemKind::Part(pool.clone()?, *number),
            }),
        }
    }
}

impl Item {
    /// A table in columns of its own.
    pub(crate) fn own(table: Shared) -> Item
        ensures { result ≡ table }
    {
        Item {
            kind: ItemKind::Own(table),
        }
    }

    /// A table of a pool, which gets one more holder.
    pub(crate) fn part(pool: &Rc<Pool>, number: usize) -> Result<Item, Memory>
        requires { number < length pool.now.value }
        ensures { IfOk result (λ item. item ≡ slice_index_or pool.now.value number no_table) }
    {
        // A pool has few tables, and all are of one schema.
        let _few = pool.len();
        let _schema = pool.shared_schema();
        Ok(Item {
            kind: ItemKind::Part(pool.clone()?, number as u32),
        })
    }

    /// The table.
    pub(crate) fn lend(&self) -> Nested<'_>
        ensures { result ≡ self.now }
    {
        match &self.kind {
            ItemKind::Own(table) => Nested::of(table),
            ItemKind::Part(pool, number) => Nested::part(pool, *number as usize),
        }
    }

    /// Whether a pool may have the table. One that has it may.
    pub(crate) fn is_poolable(&self) -> bool {
        match &self.kind {
            ItemKind::Own(table) => table.table().is_poolable(),
            ItemKind::Part(_, _) => true,
        }
    }

    /// The schema of the table, to be had together with it.
    pub(crate) fn shared_schema(&self) -> &segments::Shared<Schema> {
        match &self.kind {
            ItemKind::Own(table) => table.table().shared_schema(),
            ItemKind::Part(pool, _) => pool.shared_schema(),
        }
    }

    /// This table once more in place of one that is the same and has no rows, if it has columns of its own, and any other as it is.
    pub(crate) fn or_same(&self, table: Shared) -> Result<Shared, Memory>
        ensures { IfOk result (λ same. same ≡ table) }
    {
        match &self.kind {
            ItemKind::Own(own) => own.or_same(table),
            ItemKind::Part(_, _) => Ok(table),
        }
    }
}
