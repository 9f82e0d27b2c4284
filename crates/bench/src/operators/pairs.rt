//! A join of sixteen million pairs, for the memory that it takes.

use crate::operators::rows::{Relation, relation, table};
use crate::operators::task::joined_by;
use crate::structures::name;
use anyhow::{Result, bail};
use joins::join_size;
use mk_value::{Row, Rows, TableRead, Value};
use std::alloc::Global;
use tables::Shared;

/// How many rows each of the two tables has, all of one number.
const ROWS: usize = 4_096;

/// Rows of one number.
fn equal_rows(alloc: Global) -> Result<Rows> {
    let mut rows = Rows::new(alloc);
    for _row in 0..ROWS {
        rows.push(row(alloc)?)?;
    }
    Ok(rows)
}

/// A row of the one number.
fn row(alloc: Global) -> Result<Row> {
    let mut row = Row::new(alloc);
    row.push(Value::I(7))?;
    Ok(row)
}

/// The table of them.
fn equal_table(alloc: Global) -> Result<Shared> {
    let rows = equal_rows(alloc)?;
    table(alloc, "t[k:I]", &rows)
}

/// The size that a join of a table with itself would have.
fn join_size_of(alloc: Global, table: &Relation) -> Result<usize> {
    let keys = [name(b"k")?];
    Ok(join_size(alloc, table, table, &keys, false)?)
}

/// How many rows a join of a table with itself has, by its size alone.
fn counted(alloc: Global, rows: &Shared) -> Result<usize> {
    let table = relation(rows)?;
    join_size_of(alloc, &table)
}

/// The join of a table with itself.
fn joined(alloc: Global, rows: &Shared) -> Result<Relation> {
    let keys = [name(b"k")?];
    joined_by(alloc, rows, rows, &keys)
}

/// The same by the join's rows.
fn listed(alloc: Global, rows: &Shared) -> Result<usize> {
    let pairs = joined(alloc, rows)?;
    Ok(pairs.size())
}

/// How many pairs a table has with itself, or without a join how many rows.
fn count_of(alloc: Global, rows: &Shared, what: &str) -> Result<usize> {
    match what {
        "none" => Ok(relation(rows)?.size()),
        "size" => counted(alloc, rows),
        "rows" => listed(alloc, rows),
        _ => bail!("pairs are asked for by none, size or rows"),
    }
}

/// The same of the table of one number.
fn count_pairs(alloc: Global, what: &str) -> Result<usize> {
    let rows = equal_table(alloc)?;
    count_of(alloc, &rows, what)
}

/// Prints how many pairs there are, by their size alone or by the join's rows, or without a join how many rows there are.
pub fn list_pairs(rt: &HostRuntime, what: &str) -> Result<()> {
    let count = count_pairs(rt.alloc(), what)?;
    println!(rt; "{count}")?;
    Ok(())
}
