//! What is timed.
ghost use Rattle.std.specs.Prelude.{◌≡◌, ◌<◌, All, IfOk, length};

use crate::operators::rows::{Relation, Tables, relation};
use crate::structures::name;
use anyhow::Result;
use derived::{Criterion, Key, project, range, select, sort};
use grouping::{counts, group_by, unique};
use joins::{join, union};
use mk_value::{Name, Value};
use std::alloc::Global;
use tables::Shared;

/// An operator on the rows.
#[derive(Clone, Copy, Debug)]
pub enum Task {
    /// The rows of one number: one in a thousand.
    Select,
    /// The rows of amounts between two: one in ten.
    Range,
    /// By amount upwards.
    SortOne,
    /// By name upwards, then by amount downwards.
    SortTwo,
    /// The number of rows of each name.
    Counts,
    /// The rows of each name.
    GroupBy,
    /// The pairs of a number and a name.
    Unique,
    /// Each row beside the one label of its number.
    Join,
    /// The rows and as many others, of which half are the same.
    Union,
}

pub static TASKS: [Task; 9] = [
    Task::Select,
    Task::Range,
    Task::SortOne,
    Task::SortTwo,
    Task::Counts,
    Task::GroupBy,
    Task::Unique,
    Task::Join,
    Task::Union,
];

impl Task {
    /// The answer of the operator.
    pub fn run(self, alloc: Global, tables: &Tables) -> Result<Relation> {
        match self {
            Task::Select => selected(alloc, tables),
            Task::Range => ranged(alloc, tables),
            Task::SortOne => sorted_by_one(alloc, tables),
            Task::SortTwo => sorted_by_two(alloc, tables),
            Task::Counts => counted(alloc, tables),
            Task::GroupBy => grouped(alloc, tables),
            Task::Unique => distinct(alloc, tables),
            Task::Join => joined(alloc, tables),
            Task::Union => united(alloc, tables),
        }
    }
}

fn numbered(number: i32) -> Result<Criterion>
    ensures { IfOk result (λ c. c.low ≡ c.high) }
{
    Ok(Criterion {
        prop: name(b"number")?,
        low: Value::I(number),
        high: Value::I(number),
    })
}

fn between(low: i64, high: i64) -> Result<Criterion> {
    Ok(Criterion {
        prop: name(b"amount")?,
        low: Value::L(low),
        high: Value::L(high),
    })
}

pub fn key(prop: &[u8], down: bool) -> Result<Key> {
    Ok(Key {
        prop: name(prop)?,
        down,
    })
}

fn selected(alloc: Global, tables: &Tables) -> Result<Relation> {
    selected_by(alloc, tables, &[numbered(500)?])
}

fn selected_by(alloc: Global, tables: &Tables, criteria: &[Criterion]) -> Result<Relation>
    requires { All (λ c. c.low ≡ c.high) criteria.now }
{
    Ok(select(alloc, relation(&tables.orders)?, criteria)?)
}

fn ranged(alloc: Global, tables: &Tables) -> Result<Relation> {
    ranged_by(alloc, tables, &[between(400_000, 499_999)?])
}

fn ranged_by(alloc: Global, tables: &Tables, criteria: &[Criterion]) -> Result<Relation> {
    Ok(range(alloc, relation(&tables.orders)?, criteria)?)
}

fn sorted_by_one(alloc: Global, tables: &Tables) -> Result<Relation> {
    sorted_by(alloc, tables, &[key(b"amount", false)?])
}

fn sorted_by_two(alloc: Global, tables: &Tables) -> Result<Relation> {
    sorted_by(
        alloc,
        tables,
        &[key(b"name", false)?, key(b"amount", true)?],
    )
}

fn sorted_by(alloc: Global, tables: &Tables, keys: &[Key]) -> Result<Relation> {
    Ok(sort(alloc, relation(&tables.orders)?, keys)?)
}

fn counted(alloc: Global, tables: &Tables) -> Result<Relation> {
    let (keys, count) = ([name(b"name")?], name(b"orders")?);
    let orders = relation(&tables.orders)?;
    Ok(counts(alloc, orders, &keys, &count)?)
}

fn grouped(alloc: Global, tables: &Tables) -> Result<Relation> {
    let (keys, view) = ([name(b"name")?], name(b"orders")?);
    let orders = relation(&tables.orders)?;
    Ok(group_by(alloc, orders, &keys, &view)?)
}

fn distinct(alloc: Global, tables: &Tables) -> Result<Relation> {
    Ok(unique(alloc, projected(alloc, tables)?)?)
}

/// The number and the name of each row.
fn projected(alloc: Global, tables: &Tables) -> Result<Relation> {
    let props = [name(b"number")?, name(b"name")?];
    let orders = relation(&tables.orders)?;
    Ok(project(alloc, orders, &props)?)
}

fn joined(alloc: Global, tables: &Tables) -> Result<Relation> {
    let keys = [name(b"number")?];
    joined_by(alloc, &tables.orders, &tables.labels, &keys)
}

/// The rows of a table beside those of another by some of their properties.
pub fn joined_by(alloc: Global, table: &Shared, other: &Shared, keys: &[Name]) -> Result<Relation>
    requires { 0 < length keys.now }
{
    let table = relation(table)?;
    let other = relation(other)?;
    Ok(join(alloc, table, other, keys, false)?)
}

fn united(alloc: Global, tables: &Tables) -> Result<Relation> {
    let orders = relation(&tables.orders)?;
    let later = relation(&tables.later)?;
    Ok(union(alloc, orders, later)?)
}
