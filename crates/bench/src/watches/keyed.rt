//! An index of keys that no two rows have.
ghost use Rattle.std.specs.Prelude.{◌<◌, ◌≤◌, insert, length, slice_set, IsTrue};
ghost use Rattle.mapped.specs.Index.{AreKeys};

use super::follower::Follower;
use crate::clock::nanoseconds_since;
use crate::structures::schema;
use anyhow::{Context, Result, bail, ensure};
use live::Event;
use mapped::HashIndex;
use mk_value::{HeldRows, MAX_ROWS, Row, Rows, Schema, Steps, Value, rows_fit};
use std::alloc::Global;
use std::sync::ledger::Ledger;
use std::time::Instant;

/// How keys follow one another.
#[derive(Clone, Copy)]
pub enum Keys {
    /// Each is greater than all before.
    Ascending,
    /// They look random.
    Scattered,
}

impl Keys {
    /// The key of a number. No two have one.
    fn key(self, alloc: Global, number: u32) -> Result<Row> {
        let factor = match self {
            Keys::Ascending => 1,
            Keys::Scattered => 6_364_136_223_846_793_005,
        };
        let key = u64::from(number).wrapping_mul(factor);
        let mut row = Row::new(alloc);
        row.push(Value::L(key.cast_signed()))?;
        Ok(row)
    }
}

/// An index, and the keys that come to it.
#[derive(Drop)]
pub struct Keyed {
    alloc: Global,
    index: HashIndex,
    keys: Keys,
    next: u32,
}

/// An index of so many keys.
pub fn index_keys(alloc: Global, count: u32, keys: Keys) -> Result<Keyed> {
    let index = key_index(alloc, count, keys)?;
    Ok(Keyed {
        alloc,
        index,
        keys,
        next: count,
    })
}

/// The index of so many keys alone.
fn key_index(alloc: Global, count: u32, keys: Keys) -> Result<HashIndex> {
    let table = key_table(alloc, count, keys)?;
    Ok(HashIndex::make(alloc, &table, 1)?)
}

/// The table of so many keys.
fn key_table(alloc: Global, count: u32, keys: Keys) -> Result<HeldRows> {
    let schema = schema(alloc, "orders[key:L]")?;
    let rows = key_rows(alloc, count, keys)?;
    held(schema, rows).context("no rows of the schema")
}

/// So many keys.
fn key_rows(alloc: Global, count: u32, keys: Keys) -> Result<Rows> {
    let mut rows = Rows::new(alloc);
    for number in 0..count {
        rows.push(keys.key(alloc, number)?)?;
    }
    Ok(rows)
}

/// The table of these rows, if they are of the schema.
fn held(schema: Schema, rows: Rows) -> Option<HeldRows> {
    if !rows_fit(&rows, &schema) {
        return None;
    }
    Some(HeldRows::of(schema, rows))
}

/// A row with a key that no row has comes in. The nanoseconds that following took.
fn insert(rt: &HostRuntime, index: &mut HashIndex, at: usize, key: Row) -> Result<u64> {
    ensure!(is_new(index, at, &key), "no place, or a key that a row has");
    index.reserve(1)?;
    let start = Instant::now(rt)?;
    index.follow(&mapped::Event::Insert(at), Some(key));
    nanoseconds_since(rt, &start)
}

/// A row goes. The nanoseconds that following took.
fn remove(rt: &HostRuntime, index: &mut HashIndex, at: usize) -> Result<u64> {
    if at >= index.len() {
        bail!("no row");
    }
    index.reserve(1)?;
    let start = Instant::now(rt)?;
    index.follow(&mapped::Event::Remove(at), None);
    nanoseconds_since(rt, &start)
}

/// A row gets a key that no other row has. The nanoseconds that following took.
fn change(rt: &HostRuntime, index: &mut HashIndex, at: usize, key: Row) -> Result<u64> {
    ensure!(at < index.len(), "no row");
    ensure!(is_free(index, at, &key), "a key that another row has");
    index.reserve(1)?;
    let start = Instant::now(rt)?;
    index.follow(&mapped::Event::Change(at), Some(key));
    nanoseconds_since(rt, &start)
}

/// Whether a row with the key may come in at a position, since no row has it.
fn is_new(index: &HashIndex, at: usize, key: &Row) -> bool
    ensures there { IsTrue result → at ≤ length index.now.keys }
    ensures keys { IsTrue result → AreKeys (insert index.now.keys at key.now) }
{
    let size = index.len();
    at <= size && size < MAX_ROWS && index.find(key).is_none()
}

/// Whether no row but the one at a position has the key.
fn is_free(index: &HashIndex, at: usize, key: &Row) -> bool
    requires { at < length index.now.keys }
    ensures { IsTrue result → AreKeys (slice_set index.now.keys at key.now) }
{
    let _size = index.len();
    match index.find(key) {
        Some(row) => row == at,
        None => true,
    }
}

impl Follower for Keyed {
    fn size(&self) -> usize {
        self.index.len()
    }

    /// Of the row the key alone matters here, and that is the next one.
    fn follow<L: Ledger>(
        self,
        rt: &HostRuntime,
        event: &Event,
        _row: &Row,
        _steps: &mut Steps<L>,
    ) -> Result<(Keyed, u64)> {
        let mut keyed = self;
        let key = keyed.keys.key(keyed.alloc, keyed.next)?;
        keyed.next = keyed.next.wrapping_add(1);
        let index = &mut keyed.index;
        let nanoseconds = match *event {
            Event::Insert(at) => insert(rt, index, at, key)?,
            Event::Remove(at) => remove(rt, index, at)?,
            Event::Change(at) => change(rt, index, at, key)?,
        };
        Ok((keyed, nanoseconds))
    }
}
