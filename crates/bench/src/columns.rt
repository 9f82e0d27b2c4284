//! Times the calls of `int_col` and `bytes_col` over columns of a million values, in nanoseconds a call.

mod integers;
pub mod random;
mod texts;

use self::integers::Integers;
pub use self::integers::{SPREADS, Spread, samples};
use self::texts::Texts;
use crate::clock::{nanoseconds_since, print_each};
use anyhow::Result;
use mk_value::Memory;
use std::time::Instant;

/// How many values a column has.
const COUNT: u32 = 1_048_576;

/// How many values a column of memos has.
const MEMOS: u32 = 131_072;

/// How many edits in the middle, or of a shared column, are timed.
const EDITS: u32 = 1_000;

/// How the values of a column are read.
#[derive(Clone, Copy)]
pub enum Reading {
    /// In order.
    Order,
    /// As many as there are, at random places.
    Random,
    /// Compared at random places.
    Compare,
}

/// What is done to all values of a column one after another, or to so many as edits are timed.
#[derive(Clone, Copy)]
pub enum Edit {
    /// Put in at the end.
    Append,
    /// Set in order.
    Set,
    /// Set at random places.
    SetRandom,
    /// Set in order, to a text that is longer.
    SetLonger,
    /// Put in, in the middle.
    Insert,
    /// Taken out of the middle.
    Remove,
    /// Set at random places, each beside a copy of the column, which goes after it.
    Shared,
}

#[derive(Clone, Copy)]
enum Step {
    Read(Reading),
    Edit(Edit),
}

/// A column that is timed.
pub trait Timed {
    /// What is read, added up, so that it is read indeed.
    fn read(&self, how: Reading) -> Result<u64, Memory>;

    fn edit(&mut self, edit: Edit) -> Result<(), Memory>;
}

/// What is timed, and how many calls a step takes where it does not go over all values.
static OF_INTEGERS: [(&str, Step, Option<u32>); 8] = [
    ("append", Step::Edit(Edit::Append), None),
    ("order", Step::Read(Reading::Order), None),
    ("random", Step::Read(Reading::Random), None),
    ("set", Step::Edit(Edit::Set), None),
    ("set_random", Step::Edit(Edit::SetRandom), None),
    ("insert", Step::Edit(Edit::Insert), Some(EDITS)),
    ("remove", Step::Edit(Edit::Remove), Some(EDITS)),
    ("shared", Step::Edit(Edit::Shared), Some(EDITS)),
];

static OF_TEXTS: [(&str, Step, Option<u32>); 10] = [
    ("append", Step::Edit(Edit::Append), None),
    ("order", Step::Read(Reading::Order), None),
    ("random", Step::Read(Reading::Random), None),
    ("compare", Step::Read(Reading::Compare), None),
    ("set", Step::Edit(Edit::Set), None),
    ("set_random", Step::Edit(Edit::SetRandom), None),
    ("set_longer", Step::Edit(Edit::SetLonger), None),
    ("insert", Step::Edit(Edit::Insert), Some(EDITS)),
    ("remove", Step::Edit(Edit::Remove), Some(EDITS)),
    ("shared", Step::Edit(Edit::Shared), Some(EDITS)),
];

/// Carries out a step, and gives what it reads, added up.
fn carry_out<C: Timed>(column: &mut C, step: Step) -> Result<u64, Memory> {
    match step {
        Step::Read(how) => column.read(how),
        Step::Edit(edit) => {
            column.edit(edit)?;
            Ok(0)
        }
    }
}

/// Carries out a step, prints the nanoseconds a call, and gives what was read, added up.
fn time_step<C: Timed>(
    rt: &HostRuntime,
    column: &mut C,
    what: &str,
    step: Step,
    calls: u32,
) -> Result<u64> {
    let start = Instant::now(rt)?;
    let sum = carry_out(column, step)?;
    let spent = nanoseconds_since(rt, &start)?;
    print!(rt; " {what}")?;
    print_each(rt, spent, calls)?;
    Ok(sum)
}

/// Times the steps of a column that is empty and gets so many values, and ends the line.
fn time_steps<C: Timed>(
    rt: &HostRuntime,
    column: &mut C,
    steps: &[(&str, Step, Option<u32>)],
    count: u32,
) -> Result<()> {
    let mut sum = 0u64;
    for (what, step, calls) in steps {
        let read = time_step(rt, column, what, *step, calls.unwrap_or(count))?;
        sum = sum.wrapping_add(read);
    }
    println!(rt; " ({sum})")?;
    Ok(())
}

/// Times the calls of a column of these integers.
fn time_values(rt: &HostRuntime, values: &[i64]) -> Result<()> {
    let mut column = Integers::new(rt.alloc(), values)?;
    time_steps(rt, &mut column, &OF_INTEGERS, COUNT)
}

/// Times the calls of a column of integers, and prints a line.
fn time_integers(rt: &HostRuntime, spread: Spread) -> Result<()> {
    print!(rt; "{} bits:", spread.bits)?;
    time_values(rt, &samples(rt.alloc(), spread, COUNT as usize)?)
}

/// Times the calls of a column of so many copies of a text, which is all but the last byte of a longer one.
fn time_copies(rt: &HostRuntime, longer: &[u8], count: u32) -> Result<()> {
    let mut column = Texts::new(rt.alloc(), longer, count as usize)?;
    time_steps(rt, &mut column, &OF_TEXTS, count)
}

/// Times the calls of a column of texts of so many bytes, and prints a line.
fn time_texts(rt: &HostRuntime, len: usize, count: u32) -> Result<()> {
    print!(rt; "{len} bytes:")?;
    let longer = vec![in rt.alloc(); b'x'; len.saturating_add(1)]?;
    time_copies(rt, &longer, count)
}

/// The lengths of texts that are timed, and how many there are.
static LENGTHS: [(usize, u32); 3] = [(5, COUNT), (100, COUNT), (600, MEMOS)];

/// Times all calls, at each width and at three lengths of texts.
pub fn measure_all(rt: &HostRuntime) -> Result<()> {
    for spread in &SPREADS {
        time_integers(rt, *spread)?;
    }
    for (len, count) in &LENGTHS {
        time_texts(rt, *len, *count)?;
    }
    Ok(())
}
