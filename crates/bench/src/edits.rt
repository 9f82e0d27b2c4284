//! Times edits of a long view that nobody else holds: a number and a text that are set all over it, a row put in at its end, and one
//! put into its middle.

use crate::clock::{nanoseconds_since, print_each};
use crate::columns::random::Random;
use crate::structures::name;
use crate::views::{filled_view, path_to, put_row, set_value};
use anyhow::{Result, ensure};
use mk_value::{Name, Path, Row, Text, Value};
use std::alloc::Global;
use std::time::Instant;
use view_store::Root;

#[derive(Clone, Copy)]
enum Edit {
    SetNumber,
    SetText,
    Add,
    Insert,
}

/// What is timed, and how many edits of it.
static TIMED: [(&str, Edit, u32); 4] = [
    ("set a number", Edit::SetNumber, 100_000),
    ("set a text", Edit::SetText, 100_000),
    ("add", Edit::Add, 100_000),
    ("insert", Edit::Insert, 1_000),
];

/// How many rows the view has before the edits.
static SIZES: [u32; 4] = [100_000, 1_000_000, 4_000_000, 16_000_000];

/// A view of rows of a number, a text and a long number, the path to it, and a row.
#[derive(Drop)]
struct Edited<'a> {
    root: Root,
    path: &'a Path,
    row: &'a Row,
}

impl<'a> Edited<'a> {
    /// A view of so many rows, all alike.
    fn new(alloc: Global, path: &'a Path, row: &'a Row, rows: u32) -> Result<Edited<'a>> {
        let root = filled_view(alloc, "t[n:I,s:S,l:L]", path, row, rows)?;
        Ok(Edited { root, path, row })
    }

    fn edit(&mut self, alloc: Global, edit: Edit, count: u32) -> Result<()> {
        match edit {
            Edit::SetNumber => self.set_numbers(count),
            Edit::SetText => self.set_texts(alloc, count),
            Edit::Add => self.add(count),
            Edit::Insert => self.insert(count),
        }
    }

    fn size(&self) -> Result<usize> {
        Ok(self.root.size(self.path)?)
    }

    /// Sets numbers at random places, each of as many bits as those that are there.
    fn set_numbers(&mut self, count: u32) -> Result<()> {
        let prop = name(b"n")?;
        let mut random = Random::new();
        for edit in 0..count {
            let value = Value::I(NUMBER + (edit % 1_000) as i32);
            self.set_somewhere(&mut random, &prop, &value)?;
        }
        Ok(())
    }

    /// Sets texts at random places, each of as many bytes as those that are there.
    fn set_texts(&mut self, alloc: Global, count: u32) -> Result<()> {
        let prop = name(b"s")?;
        let value = Value::S(Text::from_str(alloc, "other text")?);
        let mut random = Random::new();
        for _edit in 0..count {
            self.set_somewhere(&mut random, &prop, &value)?;
        }
        Ok(())
    }

    fn set_somewhere(&mut self, random: &mut Random, prop: &Name, value: &Value) -> Result<()> {
        let size = self.size()?;
        ensure!(size > 0, "no rows");
        set_value(&mut self.root, self.path, random.place(size), prop, value)
    }

    /// Puts rows in at the end, one after another.
    fn add(&mut self, count: u32) -> Result<()> {
        for _edit in 0..count {
            let end = self.size()?;
            put_row(&mut self.root, self.path, end, self.row, 1)?;
        }
        Ok(())
    }

    /// Puts rows into the middle, one after another.
    fn insert(&mut self, count: u32) -> Result<()> {
        for _edit in 0..count {
            let middle = self.size()? / 2;
            put_row(&mut self.root, self.path, middle, self.row, 1)?;
        }
        Ok(())
    }
}

/// The number of a row. It takes 16 bits, and so do those that are set in its place.
const NUMBER: i32 = 1_000;

fn row(alloc: Global) -> Result<Row> {
    let mut row = Row::new(alloc);
    row.push(Value::I(NUMBER))?;
    row.push(Value::S(Text::from_str(alloc, "first text")?))?;
    row.push(Value::L(1 << 40))?;
    Ok(row)
}

/// Times all edits of a view of so many rows, and prints a line.
fn time_edits(rt: &HostRuntime, rows: u32) -> Result<()> {
    let path = path_to(rt.alloc(), b"t")?;
    time_path(rt, &path, rows)
}

/// Times all edits of the view of a path.
fn time_path(rt: &HostRuntime, path: &Path, rows: u32) -> Result<()> {
    let row = row(rt.alloc())?;
    time_view(rt, path, &row, rows)
}

/// Times all edits of the view of a path, with a row so many times.
fn time_view(rt: &HostRuntime, path: &Path, row: &Row, rows: u32) -> Result<()> {
    let mut edited = Edited::new(rt.alloc(), path, row, rows)?;
    time_each(rt, &mut edited, rows)
}

/// Times each kind of edits, and prints the line.
fn time_each(rt: &HostRuntime, edited: &mut Edited<'_>, rows: u32) -> Result<()> {
    print!(rt; "{rows} rows, ns an edit:")?;
    for (what, edit, count) in &TIMED {
        time_edit(rt, edited, what, *edit, *count)?;
    }
    println!(rt; "")?;
    Ok(())
}

/// Times so many edits of a kind, and prints the nanoseconds of one.
fn time_edit(
    rt: &HostRuntime,
    edited: &mut Edited<'_>,
    what: &str,
    edit: Edit,
    count: u32,
) -> Result<()> {
    let start = Instant::now(rt)?;
    edited.edit(rt.alloc(), edit, count)?;
    let spent = nanoseconds_since(rt, &start)?;
    print!(rt; " {what}")?;
    print_each(rt, spent, count)
}

/// Times the edits at each size.
pub fn measure_all(rt: &HostRuntime) -> Result<()> {
    for rows in &SIZES {
        time_edits(rt, *rows)?;
    }
    Ok(())
}
