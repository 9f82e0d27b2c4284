//! The table whose events are followed: rows of a number and an amount, in columns as the store has them.
ghost use Rattle.std.specs.Prelude.{◌≡◌, ◌≤◌, insert, length, OnOk};
ghost use Rattle.live.specs.Putting.{IsPlace};
ghost use Rattle.live.specs.Watching.{IsTurn, root_turn};

use crate::columns::random::Random;
use crate::structures::{columns, schema};
use anyhow::{Result, ensure};
use live::Event;
use mk_value::{MAX_ROWS, Row, Rows, TableRead, Value, row_fits};
use std::alloc::Global;
use tables::Table;

/// The different numbers.
pub const NUMBERS: usize = 1_000;

/// The different amounts.
pub const AMOUNTS: usize = 1_000_000;

/// A row of a random number and a random amount.
pub fn row(alloc: Global, random: &mut Random) -> Result<Row> {
    let mut row = Row::new(alloc);
    row.push(Value::I(random.place(NUMBERS) as i32))?;
    row.push(Value::I(random.place(AMOUNTS) as i32))?;
    Ok(row)
}

/// A table of so many such rows.
pub fn table(alloc: Global, count: u32) -> Result<Table> {
    let rows = rows(alloc, count)?;
    columns(alloc, schema(alloc, "orders[number:I,amount:I]")?, &rows)
}

/// So many such rows.
fn rows(alloc: Global, count: u32) -> Result<Rows> {
    let mut random = Random::new();
    let mut rows = Rows::new(alloc);
    for _row in 0..count {
        rows.push(row(alloc, &mut random)?)?;
    }
    Ok(rows)
}

/// Does to a table what an event tells; the row is the one that comes.
pub fn edit(table: &mut Table, event: &Event, row: &Row) -> Result<()>
    requires { IsPlace event.now (length table.old.rows) }
    ensures schema { OnOk result (table.new.schema ≡ table.old.schema) }
    ensures rows { OnOk result (IsTurn (root_turn event.now) table.old.rows table.new.rows) }
{
    match *event {
        Event::Insert(at) => insert(table, at, row),
        Event::Remove(at) => Ok(table.remove_rows(at, 1)?),
        Event::Change(at) => {
            table.remove_rows(at, 1)?;
            insert(table, at, row)
        }
    }
}

/// Puts a row in, if it fits.
fn insert(table: &mut Table, at: usize, row: &Row) -> Result<()>
    requires { at ≤ length table.old.rows }
    ensures schema { OnOk result (table.new.schema ≡ table.old.schema) }
    ensures rows { OnOk result (table.new.rows ≡ insert table.old.rows at row.now) }
{
    ensure!(table.len() < MAX_ROWS, "too many rows");
    ensure!(row_fits(row, table.schema()), "no row of the schema");
    table.insert_rows(at, row, 1)?;
    Ok(())
}
