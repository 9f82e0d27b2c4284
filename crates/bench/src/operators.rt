//! Times the operators over a million rows in columns.
//!
//! For each operator it prints the nanoseconds a row until it has answered, those until each value of the answer was read too, the
//! rows that it answers, and what their values add up to. For each chain of operators, and for the table alone, it prints the nanoseconds
//! in which a number and a text are read, cell by cell in order.

mod chain;
mod pairs;
mod rows;
mod task;
mod total;

use self::chain::{CHAINS, Chain, Operands};
pub use self::pairs::list_pairs;
use self::rows::{Relation, Tables, make_tables, relation};
use self::task::{TASKS, Task};
use self::total::{column_total, total};
use crate::clock::{nanoseconds_since, print_each};
use anyhow::Result;
use mk_value::TableRead;
use std::time::Instant;

/// The rows that are timed.
const MANY: u32 = 1_000_000;

/// The rows that are gone over without a clock.
const FEW: u32 = 10_000;

/// Does a task, and prints its name and what is answered.
fn list(rt: &HostRuntime, tables: &Tables, task: Task) -> Result<()> {
    let answer = task.run(rt.alloc(), tables)?;
    list_answer(rt, task, &answer)
}

/// Prints the name of a task and what is answered.
fn list_answer(rt: &HostRuntime, task: Task, answer: &Relation) -> Result<()> {
    let (size, sum) = (answer.size(), total(answer)?);
    println!(rt; "{task:?} {size} {sum}")?;
    Ok(())
}

/// Does a task, and prints its name, the times and what is answered.
fn measure(rt: &HostRuntime, tables: &Tables, task: Task) -> Result<()> {
    let start = Instant::now(rt)?;
    let answer = task.run(rt.alloc(), tables)?;
    measure_answer(rt, task, &start, &answer)
}

/// Reads an answer that was asked for at `start`, and prints the name of its task, the times and what is answered.
fn measure_answer(rt: &HostRuntime, task: Task, start: &Instant, answer: &Relation) -> Result<()> {
    let answered = nanoseconds_since(rt, start)?;
    let sum = total(answer)?;
    let read = nanoseconds_since(rt, start)?;
    print!(rt; "{task:?}")?;
    print_each(rt, answered, MANY)?;
    print_each(rt, read, MANY)?;
    println!(rt; " {} {sum}", answer.size())?;
    Ok(())
}

/// Reads the numbers and then the texts of a table, and prints the times and what the values add up to.
fn measure_cells(rt: &HostRuntime, what: &str, table: &Relation) -> Result<()> {
    print!(rt; "cells {what}")?;
    let numbers = measure_column(rt, table, 0)?;
    let texts = measure_column(rt, table, 1)?;
    println!(rt; " {numbers} {texts}")?;
    Ok(())
}

/// Reads a column of a table, prints the nanoseconds a row, and gives what its values add up to.
fn measure_column(rt: &HostRuntime, table: &Relation, col: usize) -> Result<u64> {
    let start = Instant::now(rt)?;
    let sum = column_total(table, col)?;
    let spent = nanoseconds_since(rt, &start)?;
    print_each(rt, spent, MANY)?;
    Ok(sum)
}

/// Reads cells of the table alone, and through each chain.
fn measure_chains(rt: &HostRuntime, tables: &Tables) -> Result<()> {
    measure_alone(rt, tables)?;
    let operands = Operands::new()?;
    for chain in &CHAINS {
        measure_chain(rt, tables, chain, &operands)?;
    }
    Ok(())
}

/// Reads cells of the table alone.
fn measure_alone(rt: &HostRuntime, tables: &Tables) -> Result<()> {
    let table = relation(&tables.orders)?;
    measure_cells(rt, "alone", &table)
}

/// Reads cells through a chain.
fn measure_chain(
    rt: &HostRuntime,
    tables: &Tables,
    chain: &Chain,
    operands: &Operands,
) -> Result<()> {
    let table = chain.over(rt.alloc(), relation(&tables.orders)?, operands)?;
    measure_cells(rt, chain.name, &table)
}

/// Times each task, and then the chains.
pub fn measure_all(rt: &HostRuntime) -> Result<()> {
    let tables = make_tables(rt.alloc(), MANY)?;
    for task in &TASKS {
        measure(rt, &tables, *task)?;
    }
    measure_chains(rt, &tables)
}

/// Does each task over a few rows.
pub fn list_all(rt: &HostRuntime) -> Result<()> {
    let tables = make_tables(rt.alloc(), FEW)?;
    for task in &TASKS {
        list(rt, &tables, *task)?;
    }
    Ok(())
}
