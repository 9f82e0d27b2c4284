//! The loops over columns of texts that are timed.

use super::{EDITS, Edit, Reading, Timed};
use crate::columns::random::Random;
use bytes_col::BytesCol;
use mk_value::{Bytes, MAX_ROWS, Memory};
use std::alloc::Global;
use std::cmp::Ordering;

/// A column, the text of which it gets so many copies, and one that is a byte longer.
#[derive(Drop)]
pub struct Texts<'a> {
    column: BytesCol,
    text: &'a [u8],
    longer: &'a [u8],
    count: usize,
}

impl<'a> Texts<'a> {
    /// An empty column. Its text is all but the last byte of the longer one.
    pub fn new(alloc: Global, longer: &'a [u8], count: usize) -> Result<Texts<'a>, Memory> {
        let column = BytesCol::from_values(alloc, &[], None)?;
        Ok(Texts {
            column,
            text: &longer[..longer.len().saturating_sub(1)],
            longer,
            count,
        })
    }
}

impl Timed for Texts<'_> {
    fn read(&self, how: Reading) -> Result<u64, Memory> {
        match how {
            Reading::Order => sum_in_order(&self.column),
            Reading::Random => sum_at_random(&self.column),
            Reading::Compare => Ok(count_equal(&self.column, self.text)),
        }
    }

    fn edit(&mut self, edit: Edit) -> Result<(), Memory> {
        let (text, longer, count) = (self.text, self.longer, self.count);
        match edit {
            Edit::Append => append_all(&mut self.column, text, count),
            Edit::Set => set_in_order(&mut self.column, text),
            Edit::SetRandom => set_at_random(&mut self.column, text),
            Edit::SetLonger => set_in_order(&mut self.column, longer),
            Edit::Insert => insert_in_the_middle(&mut self.column, text),
            Edit::Remove => remove_in_the_middle(&mut self.column),
            Edit::Shared => set_where_shared(&mut self.column, text),
        }
    }
}

/// Puts a text in, if there is such a place and room.
fn put(column: &mut BytesCol, at: usize, text: &[u8]) -> Result<(), Memory> {
    let len = column.len();
    if at <= len && len < MAX_ROWS {
        column.insert(at, text, 1)?;
    }
    Ok(())
}

/// Takes a text out, if there is such a place.
fn take(column: &mut BytesCol, at: usize) -> Result<(), Memory> {
    if at < column.len() {
        column.remove(at, 1)?;
    }
    Ok(())
}

/// Sets the text at a place, if there is one.
fn set(column: &mut BytesCol, at: usize, text: &[u8]) -> Result<(), Memory> {
    if at < column.len() {
        column.set(at, text)?;
    }
    Ok(())
}

fn append_all(column: &mut BytesCol, text: &[u8], count: usize) -> Result<(), Memory> {
    for at in 0..count {
        put(column, at, text)?;
    }
    Ok(())
}

/// The last byte of a text, as a number.
fn last_byte(text: &Bytes) -> u64 {
    text.as_slice().last().map_or(0, |byte| u64::from(*byte))
}

/// Adds up the last bytes of copies of the values in order.
fn sum_in_order(column: &BytesCol) -> Result<u64, Memory> {
    let mut sum = 0u64;
    for at in 0..column.len() {
        sum = sum.wrapping_add(last_byte(&column.get(at)?));
    }
    Ok(sum)
}

/// Adds up the last bytes of copies of as many values as there are, at random places.
fn sum_at_random(column: &BytesCol) -> Result<u64, Memory> {
    let mut random = Random::new();
    let mut sum = 0u64;
    let len = column.len();
    for _text in 0..len {
        sum = sum.wrapping_add(last_byte(&column.get(random.place(len))?));
    }
    Ok(sum)
}

/// How many of as many values as there are, at random places, are the text.
fn count_equal(column: &BytesCol, text: &[u8]) -> u64 {
    let mut random = Random::new();
    let mut equal = 0u64;
    let len = column.len();
    for _text in 0..len {
        let order = column.cmp_with(random.place(len), text);
        equal = equal.wrapping_add(u64::from(order == Ordering::Equal));
    }
    equal
}

/// Sets each value to the text, in order.
fn set_in_order(column: &mut BytesCol, text: &[u8]) -> Result<(), Memory> {
    for at in 0..column.len() {
        set(column, at, text)?;
    }
    Ok(())
}

/// Sets as many copies of the text as there are values, at random places.
fn set_at_random(column: &mut BytesCol, text: &[u8]) -> Result<(), Memory> {
    let mut random = Random::new();
    for _text in 0..column.len() {
        let at = random.place(column.len().max(1));
        set(column, at, text)?;
    }
    Ok(())
}

/// Inserts copies of the text in the middle, one by one.
fn insert_in_the_middle(column: &mut BytesCol, text: &[u8]) -> Result<(), Memory> {
    for _text in 0..EDITS {
        let middle = column.len() / 2;
        put(column, middle, text)?;
    }
    Ok(())
}

/// Removes values in the middle, one by one.
fn remove_in_the_middle(column: &mut BytesCol) -> Result<(), Memory> {
    for _text in 0..EDITS {
        let middle = column.len() / 2;
        take(column, middle)?;
    }
    Ok(())
}

/// Sets copies of the text at random places, each beside a copy of the column, which goes after it.
fn set_where_shared(column: &mut BytesCol, text: &[u8]) -> Result<(), Memory> {
    let mut random = Random::new();
    for _text in 0..EDITS {
        set_beside_copy(column, &mut random, text)?;
    }
    Ok(())
}

/// Sets the text at a random place beside a copy of the column.
fn set_beside_copy(column: &mut BytesCol, random: &mut Random, text: &[u8]) -> Result<(), Memory> {
    let _copy = column.same()?;
    let at = random.place(column.len().max(1));
    set(column, at, text)
}
