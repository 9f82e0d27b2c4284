//! Chains of watches, and what they show.

use super::followed::{Followed, begin, put};
use super::numbers::{AMOUNTS, NUMBERS};
use crate::structures::name;
use anyhow::Result;
use live::{Criteria, Keys, WatchOp};
use mk_value::Value;
use relations::{Criterion, Key};
use std::alloc::Global;
use tables::Table;

/// What a watch shows.
#[derive(Clone, Copy)]
pub enum Shown {
    /// The rows with the lower half of the amounts.
    LowerAmounts,
    /// The rows with the lower half of the numbers.
    LowerNumbers,
    /// All rows in the order of the amounts.
    ByAmount,
    /// All rows in the order of the numbers.
    ByNumber,
}

impl Shown {
    /// It as what is asked of a watch.
    fn op(self, alloc: Global) -> Result<WatchOp> {
        match self {
            Shown::LowerAmounts => up_to(alloc, b"amount", (AMOUNTS / 2) as i32),
            Shown::LowerNumbers => up_to(alloc, b"number", (NUMBERS / 2) as i32),
            Shown::ByAmount => sorted_by(alloc, b"amount"),
            Shown::ByNumber => sorted_by(alloc, b"number"),
        }
    }
}

/// The rows whose values of a property are at most so great.
fn up_to(alloc: Global, prop: &[u8], greatest: i32) -> Result<WatchOp> {
    let mut criteria = Criteria::new(alloc);
    criteria.push(Criterion {
        prop: name(prop)?,
        low: Value::I(0),
        high: Value::I(greatest),
    })?;
    Ok(WatchOp::Range(criteria))
}

/// All rows in the order of a property.
fn sorted_by(alloc: Global, prop: &[u8]) -> Result<WatchOp> {
    let mut keys = Keys::new(alloc);
    keys.push(Key {
        prop: name(prop)?,
        down: false,
    })?;
    Ok(WatchOp::Sort(keys))
}

/// A table, and a watch for each of what is to be shown, over the one before.
pub fn watch_chain(alloc: Global, table: Table, shown: &[Shown]) -> Result<Followed> {
    let mut followed = begin(alloc, table);
    put_chain(alloc, &mut followed, shown)?;
    Ok(followed)
}

/// Puts a watch for each of what is to be shown, over the one before.
fn put_chain(alloc: Global, followed: &mut Followed, shown: &[Shown]) -> Result<()> {
    let mut source = None;
    for what in shown {
        source = Some(put(followed, source, what.op(alloc)?)?);
    }
    Ok(())
}
