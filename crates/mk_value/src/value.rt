ghost use Rattle.std.specs.Prelude.{◌≡◌, ◌↔◌, ◌+◌, ◌<◌, ◌≤◌, ◌++◌, ◌∷◌, [], length, map, take, drop, replicate, slice_index_or, slice_set, IsTrue, IfOk, OnOk, OnErr};
ghost use Rattle.mk_value.specs.Data.{IsOf, cell, default_of};

use crate::{Bytes, Kind, Memory, Schema, Text};
use std::alloc::Global;
use std::marker::Model;
use std::mem;

/// A value of a property.
#[cycle(value)]
#[derive(Debug, Drop)]
pub enum Value {
    /// A number of 32 bits.
    I(i32),
    /// A number of 64 bits.
    L(i64),
    /// A text. Its length and its bytes are within the limits of kind S where `fits` says so.
    S(Text),
    /// A byte string.
    B(Bytes),
    /// The rows of a view.
    V(Rows),
}

/// A row: a list of values.
#[cycle(value)]
#[derive(Debug, Drop)]
pub struct Row {
    cells: Vec<Value>,
}

/// A list of rows.
#[cycle(value)]
#[derive(Debug, Drop)]
pub struct Rows {
    items: Vec<Row>,
}

impl Model for Row {
    ghost use Rattle.std.specs.Prelude.{List, map};
    ghost use Rattle.mk_value.specs.Data.{Datum, row_weight};
    ghost use Rattle.mk_value.specs.DataCode.{row_code};

    ghost Value = { List Datum };

    ghost coded = { row_code };

    ghost use Rattle.mk_value.specs.Values.{datum_of};

    ghost view = { λ r. map datum_of r.cells.items };

    ghost size = { row_weight };

    ghost use Rattle.mk_value.specs.DataFalls.{row_falls};

    ghost size_decreases = { λ r _. row_falls r };
}

impl Model for Rows {
    ghost use Rattle.std.specs.Prelude.{List};
    ghost use Rattle.mk_value.specs.Data.{Datum, rows_weight};
    ghost use Rattle.mk_value.specs.DataCode.{rows_code};

    ghost Value = { List (List Datum) };

    ghost coded = { rows_code };

    ghost view = { λ r. r.items.items };

    ghost size = { rows_weight };

    ghost use Rattle.mk_value.specs.DataFalls.{rows_fall};

    ghost size_decreases = { λ r _. rows_fall r };
}

impl Value {
    ghost use Rattle.mk_value.specs.Values.{datum_of};
    ghost use Rattle.mk_value.specs.Kinds.{domain_of};

    /// An equal value, which has memory of its own.
    #[cycle(copy_value)]
    pub fn copy(&self) -> Result<Value, Memory>
        ensures { IfOk result (λ value. datum_of value ≡ datum_of self.now) }
    {
        match self {
            Value::I(number) => Ok(Value::I(*number)),
            Value::L(number) => Ok(Value::L(*number)),
            Value::S(text) => Ok(Value::S(text.copy()?)),
            Value::B(bytes) => Ok(Value::B(bytes.copy()?)),
            Value::V(rows) => Ok(Value::V(rows.copy()?)),
        }
    }
}

impl Row {
    ghost use Rattle.mk_value.specs.Values.{datum_of};

    /// The empty row.
    pub fn new(alloc: Global) -> Row
        ensures { result ≡ [] }
    {
        Row {
            cells: Vec::new(alloc),
        }
    }

    /// Appends a value.
    pub fn push(&mut self, value: Value) -> Result<(), Memory>
        ensures ok { OnOk result (self.new ≡ self.old ++ datum_of value ∷ []) }
        ensures err { OnErr result (self.new ≡ self.old) }
    {
        self.cells.push(value)?;
        Ok(())
    }

    pub fn as_slice(&self) -> &[Value]
        ensures { map datum_of result.now ≡ self.now }
    {
        self.cells.as_slice()
    }

    /// The number of values.
    pub fn len(&self) -> usize
        ensures { result ≡ length self.now }
    {
        self.cells.len()
    }

    pub fn is_empty(&self) -> bool
        ensures { IsTrue result ↔ (self.now ≡ []) }
    {
        self.cells.is_empty()
    }

    /// An equal row, which has memory of its own.
    #[cycle(copy_value)]
    pub fn copy(&self) -> Result<Row, Memory>
        ensures { IfOk result (λ row. row ≡ self.now) }
    {
        let mut copy = Row::new(*self.cells.allocator());
        for value in self.cells.iter() {
            copy.push(value.copy()?)?;
        }
        Ok(copy)
    }
}

impl Rows {
    ghost use Rattle.mk_value.specs.Values.{datum_of};

    /// No rows.
    pub fn new(alloc: Global) -> Rows
        ensures { result ≡ [] }
    {
        Rows {
            items: Vec::new(alloc),
        }
    }

    /// Appends a row.
    pub fn push(&mut self, row: Row) -> Result<(), Memory>
        ensures ok { OnOk result (self.new ≡ self.old ++ row ∷ []) }
        ensures err { OnErr result (self.new ≡ self.old) }
    {
        self.items.push(row)?;
        Ok(())
    }

    pub fn as_slice(&self) -> &[Row]
        ensures { result.now ≡ self.now }
    {
        self.items.as_slice()
    }

    /// The number of rows.
    pub fn len(&self) -> usize
        ensures { result ≡ length self.now }
    {
        self.items.len()
    }

    pub fn is_empty(&self) -> bool
        ensures { IsTrue result ↔ (self.now ≡ []) }
    {
        self.items.is_empty()
    }

    /// Puts copies of a row, so many times, before the row at a place. It costs these copies and the rows behind them.
    pub fn insert(&mut self, at: usize, row: &Row, count: usize) -> Result<(), Memory>
        requires { at ≤ length self.old }
        ensures ok { OnOk result (self.new ≡ take at self.old ++ (replicate count row.now ++ drop at self.old)) }
        ensures err { OnErr result (self.new ≡ self.old) }
    {
        let before = self.items.len();
        match push_copies(&mut self.items, row, count) {
            Ok(()) => {
                self.items[at..].rotate_right(count);
                Ok(())
            }
            Err(error) => {
                self.items.truncate(before);
                Err(error)
            }
        }
    }

    /// Removes so many rows from a place on. It costs these rows and those behind them, and takes no memory.
    pub fn remove(&mut self, at: usize, count: usize)
        requires { at + count ≤ length self.old }
        ensures { self.new ≡ take at self.old ++ drop (at + count) self.old }
    {
        self.items[at..].rotate_left(count);
        let left = self.items.len() - count;
        self.items.truncate(left);
    }

    /// Gives the value at a row and a column another, and gives the old one back. It takes no memory.
    pub fn replace(&mut self, row: usize, col: usize, value: Value) -> Value
        requires row_in { row < length self.old }
        requires col_in { col < length (slice_index_or self.old row []) }
        ensures old { datum_of result ≡ cell self.old row col }
        ensures new { self.new ≡ slice_set self.old row (slice_set (slice_index_or self.old row []) col (datum_of value)) }
    {
        let row = &mut self.items[row];
        mem::replace(&mut row.cells[col], value)
    }

    /// Equal rows, which have memory of their own.
    #[cycle(copy_value)]
    pub fn copy(&self) -> Result<Rows, Memory>
        ensures { IfOk result (λ rows. rows ≡ self.now) }
    {
        let mut copy = Rows::new(*self.items.allocator());
        for row in self.items.iter() {
            copy.push(row.copy()?)?;
        }
        Ok(copy)
    }
}

/// Appends copies of a row, so many times. An error leaves those before it at the end.
fn push_copies(rows: &mut Vec<Row>, row: &Row, count: usize) -> Result<(), Memory>
    ensures ok { OnOk result (rows.new.items ≡ rows.old.items ++ replicate count row.now) }
    ensures err { OnErr result (take (length rows.old.items) rows.new.items ≡ rows.old.items) }
{
    for _ in 0..count {
        rows.push(row.copy()?)?;
    }
    Ok(())
}
