//! Chains of sixteen operators over one table, through which its cells are read.

use crate::operators::rows::Relation;
use crate::operators::task::key;
use crate::structures::name;
use anyhow::Result;
use derived::{Criterion, Key, range, rename, slice, sort};
use mk_value::{MAX_ROWS, Name, Value};
use std::alloc::Global;

/// An operator that keeps all rows.
#[derive(Clone, Copy)]
enum Link {
    Range,
    Rename,
    Slice,
    Sort,
}

/// Operators one over another, four of them four times.
pub struct Chain {
    pub name: &'static str,
    links: [Link; 4],
}

pub static CHAINS: [Chain; 5] = [
    Chain {
        name: "ranges",
        links: [Link::Range; 4],
    },
    Chain {
        name: "renamings",
        links: [Link::Rename; 4],
    },
    Chain {
        name: "slices",
        links: [Link::Slice; 4],
    },
    Chain {
        name: "sortings",
        links: [Link::Sort; 4],
    },
    Chain {
        name: "all_four",
        links: [Link::Range, Link::Rename, Link::Slice, Link::Sort],
    },
];

/// What the operators are asked with, of the amounts.
#[derive(Drop)]
pub struct Operands {
    amount: Name,
    all: [Criterion; 1],
    upwards: [Key; 1],
}

impl Operands {
    pub fn new() -> Result<Operands> {
        Ok(Operands {
            amount: name(b"amount")?,
            upwards: [key(b"amount", false)?],
            all: [Criterion {
                prop: name(b"amount")?,
                low: Value::L(i64::MIN),
                high: Value::L(i64::MAX),
            }],
        })
    }
}

impl Chain {
    /// The operators over a table.
    pub fn over(&self, alloc: Global, table: Relation, operands: &Operands) -> Result<Relation> {
        let mut table = table;
        for at in 0..16usize {
            table = self.links[at % 4].over(alloc, table, operands)?;
        }
        Ok(table)
    }
}

impl Link {
    fn over(self, alloc: Global, table: Relation, operands: &Operands) -> Result<Relation> {
        match self {
            Link::Range => ranged(alloc, table, operands),
            Link::Rename => renamed(alloc, table, operands),
            Link::Slice => sliced(alloc, table),
            Link::Sort => sorted(alloc, table, operands),
        }
    }
}

fn ranged(alloc: Global, table: Relation, operands: &Operands) -> Result<Relation> {
    Ok(range(alloc, table, &operands.all)?)
}

/// A property gets the name that it has, so that the next operator finds it.
fn renamed(alloc: Global, table: Relation, operands: &Operands) -> Result<Relation> {
    let amount = &operands.amount;
    Ok(rename(alloc, table, amount, amount)?)
}

fn sliced(alloc: Global, table: Relation) -> Result<Relation> {
    Ok(slice(alloc, table, 0, MAX_ROWS as u64, 1)?)
}

fn sorted(alloc: Global, table: Relation, operands: &Operands) -> Result<Relation> {
    Ok(sort(alloc, table, &operands.upwards)?)
}
