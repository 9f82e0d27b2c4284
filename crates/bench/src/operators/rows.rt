//! The tables that operators are timed on, in columns as the store has them.

use crate::structures::{columns, schema};
use anyhow::Result;
use derived::{Derived, leaf};
use mk_value::{Row, Rows, Same, Text, Value};
use std::alloc::Global;
use tables::{Shared, share};

/// A table as operators take and answer it.
pub type Relation = Derived<Shared>;

/// The different numbers, and the different names.
const NUMBERS: u64 = 1_000;

/// The different amounts, and how far apart the places of a row's three values are scattered from.
const AMOUNTS: u64 = 1_000_000;

/// What is asked about.
#[derive(Drop)]
pub struct Tables {
    /// Rows of a number, a name and an amount.
    pub orders: Shared,
    /// As many such rows, of which the first half are the last of `orders`.
    pub later: Shared,
    /// A row for each number: the number and a label.
    pub labels: Shared,
}

/// Tables of so many rows, and the labels.
pub fn make_tables(alloc: Global, count: u32) -> Result<Tables> {
    Ok(Tables {
        orders: orders(alloc, 0, count)?,
        later: orders(alloc, count / 2, count)?,
        labels: labels(alloc)?,
    })
}

/// A table, to be asked about.
pub fn relation(table: &Shared) -> Result<Relation> {
    Ok(leaf(table.same()?)?)
}

/// A number that looks random for each place.
fn scattered(place: u64) -> u64 {
    let once = place
        .wrapping_mul(6_364_136_223_846_793_005)
        .wrapping_add(1_442_695_040_888_963_407);
    let twice = (once ^ (once >> 29)).wrapping_mul(6_364_136_223_846_793_005);
    twice >> 33
}

/// The rows of so many places, from the first on.
fn orders(alloc: Global, first: u32, count: u32) -> Result<Shared> {
    let rows = order_rows(alloc, first, count)?;
    table(alloc, "orders[number:I,name:S,amount:L]", &rows)
}

fn order_rows(alloc: Global, first: u32, count: u32) -> Result<Rows> {
    let mut rows = Rows::new(alloc);
    for place in 0..count {
        rows.push(order(alloc, u64::from(first) + u64::from(place))?)?;
    }
    Ok(rows)
}

fn order(alloc: Global, place: u64) -> Result<Row> {
    let number = scattered(place) % NUMBERS;
    let named = scattered(place.wrapping_add(AMOUNTS)) % NUMBERS;
    let amount = scattered(place.wrapping_add(2 * AMOUNTS)) % AMOUNTS;
    let mut row = Row::new(alloc);
    row.push(Value::I(number as i32))?;
    row.push(Value::S(numbered_name(alloc, named)?))?;
    row.push(Value::L(amount as i64))?;
    Ok(row)
}

fn numbered_name(alloc: Global, number: u64) -> Result<Text> {
    let mut name = Text::from_str(alloc, "name")?;
    name.push_integer(number)?;
    Ok(name)
}

fn labels(alloc: Global) -> Result<Shared> {
    let rows = label_rows(alloc)?;
    table(alloc, "labels[number:I,label:S]", &rows)
}

fn label_rows(alloc: Global) -> Result<Rows> {
    let mut rows = Rows::new(alloc);
    for number in 0..NUMBERS {
        rows.push(label(alloc, number)?)?;
    }
    Ok(rows)
}

fn label(alloc: Global, number: u64) -> Result<Row> {
    let mut row = Row::new(alloc);
    row.push(Value::I((number % NUMBERS) as i32))?;
    row.push(Value::S(numbered_name(alloc, number)?))?;
    Ok(row)
}

/// The table of rows under the schema that a text spells.
pub fn table(alloc: Global, text: &str, rows: &Rows) -> Result<Shared> {
    let table = columns(alloc, schema(alloc, text)?, rows)?;
    Ok(share(alloc, table)?)
}
