//! Streams of lines over a chain of watches, each from a number.
ghost use Rattle.std.specs.Prelude.{◌≡◌};
ghost use Rattle.row_edits.specs.Events.{count_all};
ghost use Rattle.keyed_views.specs.Keyed.{edits_of};

use crate::lined::{Lined, begin_lines, follow_one, put_watch};
use crate::streams::{Numbers, op, row, table};
use keyed_views::KeyedEdit;
use mk_value::{HeldRows, Same, TableRead};
use std::alloc::Global;
use std::test::Fail;

/// A chain of watches by these operators, each over the one before.
fn chain(alloc: Global, table: HeldRows, ops: &[usize]) -> Result<Lined, Fail> {
    let mut lined = begin_lines(alloc, table);
    let mut source = None;
    for which in ops {
        let (more, number) = put_watch(lined, source, op(alloc, *which)?)?;
        lined = more;
        source = Some(number);
    }
    Ok(lined)
}

/// A line that may happen to so many rows, and how many events it is.
fn line(numbers: &mut Numbers, size: usize) -> (KeyedEdit, usize)
    ensures { result.1 ≡ count_all (edits_of result.0) }
{
    if size == 0 {
        return (KeyedEdit::Put { at: 0 }, 1);
    }
    let at = numbers.below(size);
    let other = None;
    match numbers.below(5) {
        0 => {
            let count = numbers.below(size - at);
            (KeyedEdit::Remove { at, count }, count)
        }
        1 => (KeyedEdit::Change { at, other }, 1),
        2 => {
            let to = numbers.below(size);
            (KeyedEdit::Move { at, other, to }, 3)
        }
        _ => (KeyedEdit::Put { at }, 1),
    }
}

/// Where the rows of a watch stand in the table, and how many events it has followed.
fn state(alloc: Global, lined: &Lined, watch: u32) -> Result<(Vec<usize>, u64), Fail> {
    if !lined.watches.has(watch) {
        return Err(Fail::new("no such watch"));
    }
    let mut places = Vec::new(alloc);
    for i in 0..lined.watches.len(watch) {
        places.push(lined.watches.at(watch, i))?;
    }
    Ok((places, lined.watches.followed(watch)))
}

/// The number of events that each of so many watches has followed.
fn all_followed(alloc: Global, lined: &Lined, count: u32) -> Result<Vec<u64>, Fail> {
    let mut all = Vec::new(alloc);
    for watch in 0..count {
        let (_, followed) = state(alloc, lined, watch)?;
        all.push(followed)?;
    }
    Ok(all)
}

/// Refuses a watch with other positions than one made anew, or one that has not followed so many events more.
fn check(
    alloc: Global,
    watch: u32,
    lined: &Lined,
    anew: &Lined,
    old: u64,
    count: usize,
) -> Result<(), Fail> {
    let (places, followed) = state(alloc, lined, watch)?;
    let (wanted, _) = state(alloc, anew, watch)?;
    if places != wanted {
        return Err(Fail::new("made anew it keeps other positions"));
    }
    if old.checked_add(count as u64) != Some(followed) {
        return Err(Fail::new("it has followed another number of events"));
    }
    Ok(())
}

/// One line, followed and checked.
fn one_line(
    alloc: Global,
    lined: Lined,
    ops: &[usize],
    numbers: &mut Numbers,
) -> Result<Lined, Fail> {
    let (line, count) = line(numbers, lined.table.size());
    let row = row(alloc, numbers)?;
    let watches = u32::try_from(ops.len())?;
    let old = all_followed(alloc, &lined, watches)?;
    let lined = follow_one(alloc, lined, line, count, &row)?;
    let anew = chain(alloc, lined.table.same()?, ops)?;
    for watch in 0..watches {
        let Some(old) = old.get(watch as usize) else {
            return Err(Fail::new("fewer watches than operators"));
        };
        check(alloc, watch, &lined, &anew, *old, count)?;
    }
    Ok(lined)
}

/// A chain of three watches, and twelve lines.
fn stream(alloc: Global, seed: u64) -> Result<(), Fail> {
    let mut numbers = Numbers { state: seed };
    let ops = [numbers.below(6), numbers.below(6), numbers.below(6)];
    let mut lined = chain(alloc, table(alloc, &mut numbers)?, &ops)?;
    for _ in 0..12 {
        lined = one_line(alloc, lined, &ops, &mut numbers)?;
    }
    Ok(())
}

#[test]
fn watches_follow_lines(rt: HostRuntime) -> Result<(), Fail> {
    for seed in 0..100 {
        stream(rt.alloc(), seed)?;
    }
    Ok(())
}
