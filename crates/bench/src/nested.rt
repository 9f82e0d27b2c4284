//! Times rows put into a view inside the middle row of a long one, while another copy of all is held.

use crate::clock::{nanoseconds_since, print_each};
use crate::structures::name;
use crate::views::{filled_view, path_to, put_row};
use anyhow::Result;
use mk_value::{Path, Row, Step, Value};
use std::alloc::Global;
use std::time::Instant;
use view_store::Root;

/// How many rows are put in, one after another.
const EDITS: u32 = 1_000;

/// The path to the view inside a row.
fn inner(alloc: Global, row: u32) -> Result<Path> {
    let mut path = path_to(alloc, b"t")?;
    path.push(Step {
        row: u64::from(row),
        prop: name(b"v")?,
    })?;
    Ok(path)
}

/// A row whose other values are defaults.
fn row(alloc: Global) -> Result<Row> {
    let mut row = Row::new(alloc);
    row.push(Value::I(1))?;
    Ok(row)
}

/// Puts rows into the view of a path, each while another copy of the views is held.
fn put_rows(root: &mut Root, path: &Path, row: &Row) -> Result<()> {
    for _edit in 0..EDITS {
        let held = root.same()?;
        put_row(root, path, 0, row, 1)?;
        drop(held);
    }
    Ok(())
}

/// A view of so many rows, each with a view inside.
fn views(alloc: Global, row: &Row, count: u32) -> Result<Root> {
    let path = path_to(alloc, b"t")?;
    filled_view(alloc, "t[k:I,v[x:I,s:S]]", &path, row, count)
}

/// Times the edits at so many rows, and prints a line.
fn time_edits(rt: &HostRuntime, count: u32) -> Result<()> {
    let path = inner(rt.alloc(), count / 2)?;
    time_path(rt, &path, count)
}

/// Times the edits at a path.
fn time_path(rt: &HostRuntime, path: &Path, count: u32) -> Result<()> {
    let row = row(rt.alloc())?;
    time_row(rt, path, &row, count)
}

/// Times the edits that put a row in at a path.
fn time_row(rt: &HostRuntime, path: &Path, row: &Row, count: u32) -> Result<()> {
    let mut root = views(rt.alloc(), row, count)?;
    time_root(rt, &mut root, path, row, count)
}

/// Times the edits of views that are there, and prints the line.
fn time_root(rt: &HostRuntime, root: &mut Root, path: &Path, row: &Row, count: u32) -> Result<()> {
    let start = Instant::now(rt)?;
    put_rows(root, path, row)?;
    let spent = nanoseconds_since(rt, &start)?;
    print!(rt; "{count} rows, ns an edit:")?;
    print_each(rt, spent, EDITS)?;
    println!(rt; ", {} rows inside", root.size(path)?)?;
    Ok(())
}

/// How many rows a view has.
static SIZES: [u32; 3] = [100_000, 1_000_000, 4_000_000];

/// Times the edits at each size.
pub fn measure_all(rt: &HostRuntime) -> Result<()> {
    for size in &SIZES {
        time_edits(rt, *size)?;
    }
    Ok(())
}
