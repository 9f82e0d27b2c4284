//! The loops over columns of integers that are timed.

use super::{EDITS, Edit, Reading, Timed};
use crate::columns::random::Random;
use int_col::IntCol;
use mk_value::{MAX_ROWS, Memory};
use std::alloc::Global;

/// The integers of a width in bits: the least of them, and how many follow one another from it on.
#[derive(Clone, Copy)]
pub struct Spread {
    pub bits: u32,
    least: i64,
    count: u64,
}

/// The widths that are timed.
pub static SPREADS: [Spread; 7] = [
    Spread {
        bits: 1,
        least: 0,
        count: 2,
    },
    Spread {
        bits: 2,
        least: 0,
        count: 4,
    },
    Spread {
        bits: 4,
        least: 0,
        count: 16,
    },
    Spread {
        bits: 8,
        least: -0x80,
        count: 0x100,
    },
    Spread {
        bits: 16,
        least: -0x8000,
        count: 0x1_0000,
    },
    Spread {
        bits: 32,
        least: -0x8000_0000,
        count: 0x1_0000_0000,
    },
    Spread {
        bits: 64,
        least: i64::MIN,
        count: u64::MAX,
    },
];

/// So many random values of the width.
pub fn samples(alloc: Global, spread: Spread, count: usize) -> Result<Vec<i64>, Memory> {
    let mut random = Random::new();
    let mut values = Vec::with_capacity(alloc, count)?;
    let least = spread.least.cast_unsigned();
    let numbers = spread.count.max(1);
    for _value in 0..count {
        let value = least.wrapping_add(random.below(numbers));
        values.push(value.cast_signed())?;
    }
    Ok(values)
}

/// A column, and the values that are put into it.
#[derive(Drop)]
pub struct Integers<'a> {
    column: IntCol,
    values: &'a [i64],
}

impl<'a> Integers<'a> {
    /// An empty column.
    pub fn new(alloc: Global, values: &'a [i64]) -> Result<Integers<'a>, Memory> {
        let column = IntCol::from_values(alloc, &[], None)?;
        Ok(Integers { column, values })
    }
}

impl Timed for Integers<'_> {
    fn read(&self, how: Reading) -> Result<u64, Memory> {
        let sum = match how {
            Reading::Order => sum_in_order(&self.column),
            Reading::Random | Reading::Compare => sum_at_random(&self.column),
        };
        Ok(sum.cast_unsigned())
    }

    fn edit(&mut self, edit: Edit) -> Result<(), Memory> {
        let values = self.values;
        match edit {
            Edit::Append => append_all(&mut self.column, values),
            Edit::Set | Edit::SetLonger => set_in_order(&mut self.column, values),
            Edit::SetRandom => set_at_random(&mut self.column, values),
            Edit::Insert => insert_in_the_middle(&mut self.column, values),
            Edit::Remove => remove_in_the_middle(&mut self.column),
            Edit::Shared => set_where_shared(&mut self.column, values),
        }
    }
}

/// Puts a value in, if there is such a place and room.
fn put(column: &mut IntCol, at: usize, value: i64) -> Result<(), Memory> {
    let len = column.len();
    if at <= len && len < MAX_ROWS {
        column.insert(at, value, 1)?;
    }
    Ok(())
}

/// Takes a value out, if there is such a place.
fn take(column: &mut IntCol, at: usize) -> Result<(), Memory> {
    if at < column.len() {
        column.remove(at, 1)?;
    }
    Ok(())
}

/// Sets the value at a place, if there is one.
fn set(column: &mut IntCol, at: usize, value: i64) -> Result<(), Memory> {
    if at < column.len() {
        column.set(at, value)?;
    }
    Ok(())
}

fn append_all(column: &mut IntCol, values: &[i64]) -> Result<(), Memory> {
    for (at, value) in values.iter().enumerate() {
        put(column, at, *value)?;
    }
    Ok(())
}

/// Adds up the values in order.
fn sum_in_order(column: &IntCol) -> i64 {
    let mut sum = 0i64;
    for at in 0..column.len() {
        sum = sum.wrapping_add(column.get(at));
    }
    sum
}

/// Adds up as many values as there are, at random places.
fn sum_at_random(column: &IntCol) -> i64 {
    let mut random = Random::new();
    let mut sum = 0i64;
    let len = column.len();
    for _value in 0..len {
        sum = sum.wrapping_add(column.get(random.place(len)));
    }
    sum
}

fn set_in_order(column: &mut IntCol, values: &[i64]) -> Result<(), Memory> {
    for (at, value) in values.iter().enumerate() {
        set(column, at, *value)?;
    }
    Ok(())
}

fn set_at_random(column: &mut IntCol, values: &[i64]) -> Result<(), Memory> {
    let mut random = Random::new();
    for value in values {
        let at = random.place(column.len().max(1));
        set(column, at, *value)?;
    }
    Ok(())
}

/// Inserts values in the middle.
fn insert_in_the_middle(column: &mut IntCol, values: &[i64]) -> Result<(), Memory> {
    for at in 0..values.len().min(EDITS as usize) {
        let middle = column.len() / 2;
        put(column, middle, values[at])?;
    }
    Ok(())
}

/// Removes values in the middle.
fn remove_in_the_middle(column: &mut IntCol) -> Result<(), Memory> {
    for _value in 0..EDITS {
        let middle = column.len() / 2;
        take(column, middle)?;
    }
    Ok(())
}

/// Sets values at random places, each beside a copy of the column, which goes after it.
fn set_where_shared(column: &mut IntCol, values: &[i64]) -> Result<(), Memory> {
    let mut random = Random::new();
    for at in 0..values.len().min(EDITS as usize) {
        set_beside_copy(column, &mut random, values[at])?;
    }
    Ok(())
}

/// Sets a value at a random place beside a copy of the column.
fn set_beside_copy(column: &mut IntCol, random: &mut Random, value: i64) -> Result<(), Memory> {
    let _copy = column.same()?;
    let at = random.place(column.len().max(1));
    set(column, at, value)
}
