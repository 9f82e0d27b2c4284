//! Times rows that are put in and removed at random places of a view that nobody else holds.

use crate::clock::{nanoseconds_since, print_each};
use crate::columns::random::Random;
use crate::views::{filled_view, path_to, put_row, take_row};
use anyhow::{Result, ensure};
use mk_value::{Path, Row, Text, Value};
use std::alloc::Global;
use std::time::Instant;
use view_store::Root;

/// How many rows the view has.
static SIZES: [u32; 4] = [1_000, 10_000, 100_000, 1_000_000];

/// How often rows are put in and then removed.
const ROUNDS: u32 = 100;

/// How many rows are put in, and how many are removed, at a time.
const EDITS: u32 = 100;

/// A view of rows of a number and a text, the path to it, a row, and where the next edits are.
#[derive(Drop)]
struct Edited<'a> {
    root: Root,
    path: &'a Path,
    row: &'a Row,
    random: Random,
}

impl<'a> Edited<'a> {
    /// A view of so many rows, which were put in one by one.
    fn new(alloc: Global, path: &'a Path, row: &'a Row, rows: u32) -> Result<Edited<'a>> {
        let root = filled_view(alloc, "t[n:I,s:S]", path, row, 0)?;
        let random = Random::new();
        let mut edited = Edited {
            root,
            path,
            row,
            random,
        };
        for at in 0..rows {
            put_row(&mut edited.root, path, at as usize, row, 1)?;
        }
        Ok(edited)
    }

    /// A random place of the view.
    fn place(&mut self) -> Result<usize> {
        let size = self.root.size(self.path)?;
        ensure!(size > 0, "no rows");
        Ok(self.random.place(size))
    }

    fn insert(&mut self) -> Result<()> {
        for _edit in 0..EDITS {
            let place = self.place()?;
            put_row(&mut self.root, self.path, place, self.row, 1)?;
        }
        Ok(())
    }

    fn remove(&mut self) -> Result<()> {
        for _edit in 0..EDITS {
            let place = self.place()?;
            take_row(&mut self.root, self.path, place)?;
        }
        Ok(())
    }
}

fn row(alloc: Global) -> Result<Row> {
    let mut row = Row::new(alloc);
    row.push(Value::I(1_000))?;
    row.push(Value::S(Text::from_str(alloc, "first text")?))?;
    Ok(row)
}

/// Times the edits of a view of so many rows, and prints a line.
fn time_edits(rt: &HostRuntime, path: &Path, row: &Row, rows: u32) -> Result<()> {
    let mut edited = Edited::new(rt.alloc(), path, row, rows)?;
    let mut inserting = 0u64;
    let mut removing = 0u64;
    for _round in 0..ROUNDS {
        let start = Instant::now(rt)?;
        edited.insert()?;
        inserting = inserting.saturating_add(nanoseconds_since(rt, &start)?);
        let start = Instant::now(rt)?;
        edited.remove()?;
        removing = removing.saturating_add(nanoseconds_since(rt, &start)?);
    }
    print!(rt; "{rows} rows, ns an edit: insert")?;
    print_each(rt, inserting, ROUNDS * EDITS)?;
    print!(rt; " remove")?;
    print_each(rt, removing, ROUNDS * EDITS)?;
    println!(rt; "")?;
    Ok(())
}

/// Times the edits at each size.
pub fn measure_all(rt: &HostRuntime) -> Result<()> {
    let path = path_to(rt.alloc(), b"t")?;
    let row = row(rt.alloc())?;
    for rows in &SIZES {
        time_edits(rt, &path, &row, *rows)?;
    }
    Ok(())
}
