//! A hundred streams of events, each from a number.
ghost use Rattle.std.specs.Prelude.{◌≡◌, ◌<◌};

use crate::counted::{Counted, begin_counts, recount};
use crate::followed::{Followed, begin, follow, put};
use live::{Criteria, Event, Keys, Out, Told, WatchOp};
use mk_value::{HeldRows, Row, Rows, Same, Steps, TableRead, Value, rows_fit};
use relations::{Criterion, Key};
use std::alloc::Global;
use std::marker::Brand;
use std::sync::ledger::{Blank, Ledger};
use std::test::Fail;
use struct_text::parse;

/// Numbers that follow from the first.
#[derive(Drop)]
pub(crate) struct Numbers {
    pub(crate) state: u64,
}

impl Numbers {
    /// The next number below a bound.
    pub(crate) fn below(&mut self, bound: usize) -> usize
        requires { 0 < bound }
        ensures { result < bound }
    {
        self.state = self
            .state
            .wrapping_mul(6364136223846793005)
            .wrapping_add(1442695040888963407);
        (self.state >> 33) as usize % bound
    }
}

/// A row of two numbers below five, so that many rows tie and many are the same.
pub(crate) fn row(alloc: Global, numbers: &mut Numbers) -> Result<Row, Fail> {
    let mut row = Row::new(alloc);
    row.push(Value::I(numbers.below(5) as i32))?;
    row.push(Value::I(numbers.below(5) as i32))?;
    Ok(row)
}

/// A table of a few rows.
pub(crate) fn table(alloc: Global, numbers: &mut Numbers) -> Result<HeldRows, Fail> {
    let (_, schema) = parse(alloc, "t[a:I,b:I]")?;
    let mut rows = Rows::new(alloc);
    for _ in 0..numbers.below(6) {
        rows.push(row(alloc, numbers)?)?;
    }
    if !rows_fit(&rows, &schema) {
        return Err(Fail::new("rows of another schema"));
    }
    Ok(HeldRows::of(schema, rows))
}

/// One criterion, on numbers from one to another.
fn range(alloc: Global, name: &str, low: i32, high: i32) -> Result<WatchOp, Fail> {
    let (prop, _) = parse(alloc, name)?;
    let mut criteria = Criteria::new(alloc);
    criteria.push(Criterion {
        prop,
        low: Value::I(low),
        high: Value::I(high),
    })?;
    Ok(WatchOp::Range(criteria))
}

/// One key, or none.
fn sort(alloc: Global, name: &str, down: bool) -> Result<WatchOp, Fail> {
    let (prop, _) = parse(alloc, name)?;
    let mut keys = Keys::new(alloc);
    keys.push(Key { prop, down })?;
    Ok(WatchOp::Sort(keys))
}

/// One of six operators.
pub(crate) fn op(alloc: Global, which: usize) -> Result<WatchOp, Fail> {
    match which {
        0 => range(alloc, "a[x:I]", 1, 3),
        1 => range(alloc, "b[x:I]", 2, 2),
        2 => sort(alloc, "a[x:I]", false),
        3 => sort(alloc, "b[x:I]", true),
        4 => range(alloc, "a[x:I]", 0, 4),
        _ => Ok(WatchOp::Sort(Keys::new(alloc))),
    }
}

/// A chain of watches by these operators, each over the one before, and the number of the last.
fn chain(alloc: Global, table: HeldRows, ops: &[usize]) -> Result<Followed, Fail> {
    let mut followed = begin(alloc, table);
    let mut source = None;
    for which in ops {
        let (more, number) = put(followed, source, op(alloc, *which)?)?;
        followed = more;
        source = Some(number);
    }
    Ok(followed)
}

/// An event that may happen to so many rows.
pub(crate) fn event(numbers: &mut Numbers, size: usize) -> Event {
    if size == 0 {
        return Event::Insert(0);
    }
    match numbers.below(4) {
        0 => Event::Insert(numbers.below(size)),
        1 => Event::Remove(numbers.below(size)),
        2 => Event::Insert(size),
        _ => Event::Change(numbers.below(size)),
    }
}

/// Where the rows of a watch stand in the table.
fn places(alloc: Global, followed: &Followed, watch: u32) -> Result<Vec<usize>, Fail> {
    if !followed.watches.has(watch) {
        return Err(Fail::new("no such watch"));
    }
    let mut places = Vec::new(alloc);
    for i in 0..followed.watches.len(watch) {
        places.push(followed.watches.at(watch, i))?;
    }
    Ok(places)
}

/// A row as one number.
fn value(row: &Row) -> i64 {
    match row.as_slice() {
        [Value::I(a), Value::I(b)] => i64::from(*a) * 8 + i64::from(*b),
        _ => -1,
    }
}

/// The rows of a watch.
fn shown(alloc: Global, followed: &Followed, watch: u32) -> Result<Vec<i64>, Fail> {
    let places = places(alloc, followed, watch)?;
    let rows = followed.table.rows();
    let mut all = Vec::new(alloc);
    for place in &places {
        let Some(row) = rows.as_slice().get(*place) else {
            return Err(Fail::new("a place past the rows"));
        };
        all.push(value(row))?;
    }
    Ok(all)
}

/// The rows of each of so many watches.
fn all_shown(alloc: Global, followed: &Followed, count: u32) -> Result<Vec<Vec<i64>>, Fail> {
    let mut all = Vec::new(alloc);
    for watch in 0..count {
        all.push(shown(alloc, followed, watch)?)?;
    }
    Ok(all)
}

/// Does to rows what an event of theirs tells; the new rows say what a row that comes is.
fn tell(rows: &mut Vec<i64>, new: &[i64], event: &Event) -> Result<(), Fail> {
    match *event {
        Event::Insert(at) if at <= rows.len() && at < new.len() => rows.insert(at, new[at])?,
        Event::Remove(at) if at < rows.len() => {
            let _gone = rows.remove(at);
        }
        Event::Change(at) if at < rows.len() && at < new.len() => rows[at] = new[at],
        _ => return Err(Fail::new("an event out of place")),
    }
    Ok(())
}

/// Refuses events of a watch that do not lead from its old rows to its new ones.
fn lead(rows: &mut Vec<i64>, new: &[i64], watch: u32, out: &[Told]) -> Result<(), Fail> {
    for told in out {
        if told.watch == watch {
            tell(rows, new, &told.event)?;
        }
    }
    if rows.as_slice() != new {
        return Err(Fail::new("the events lead to other rows"));
    }
    Ok(())
}

/// Refuses places of a watch that are not those of one made anew.
fn are_places(
    alloc: Global,
    watch: u32,
    followed: &Followed,
    places_anew: &[usize],
) -> Result<(), Fail> {
    let places = places(alloc, followed, watch)?;
    if places.as_slice() != places_anew {
        return Err(Fail::new("made anew it keeps other positions"));
    }
    Ok(())
}

/// Refuses events of a watch that do not lead from its old rows to its new ones, and places that are not those of watches made anew.
fn check(
    alloc: Global,
    watch: u32,
    rows: &mut Vec<i64>,
    followed: &Followed,
    anew: &Followed,
    out: &[Told],
) -> Result<(), Fail> {
    lead(rows, &shown(alloc, followed, watch)?, watch, out)?;
    are_places(alloc, watch, followed, &places(alloc, anew, watch)?)
}

/// One event, followed and checked.
fn one_event<L: Ledger>(
    alloc: Global,
    followed: Followed,
    ops: &[usize],
    numbers: &mut Numbers,
    out: &mut Out,
    steps: &mut Steps<L>,
) -> Result<Followed, Fail> {
    let event = event(numbers, followed.table.size());
    let row = row(alloc, numbers)?;
    let count = u32::try_from(ops.len())?;
    let mut old = all_shown(alloc, &followed, count)?;
    let followed = follow(followed, &event, &row, out, steps)?;
    let anew = chain(alloc, followed.table.same()?, ops)?;
    for watch in 0..count {
        let at = watch as usize;
        if at >= old.len() {
            return Err(Fail::new("fewer watches than operators"));
        }
        check(alloc, watch, &mut old[at], &followed, &anew, out.as_slice())?;
    }
    Ok(followed)
}

/// A chain of one to four watches, and twelve events.
fn stream<L: Ledger>(alloc: Global, seed: u64, blank: Blank) -> Result<(), Fail>
    requires name { blank.name ≡ L.name }
    requires parts { blank.parts ≡ L.parts }
    requires some { 0 < blank.parts }
{
    let mut steps = Steps::<L>::new(blank);
    let mut numbers = Numbers { state: seed };
    let ops = [
        numbers.below(6),
        numbers.below(6),
        numbers.below(6),
        numbers.below(6),
    ];
    let ops = &ops[..1 + numbers.below(4)];
    let mut followed = chain(alloc, table(alloc, &mut numbers)?, ops)?;
    let mut out = Out::new(alloc);
    for _ in 0..12 {
        followed = one_event(alloc, followed, ops, &mut numbers, &mut out, &mut steps)?;
    }
    Ok(())
}

/// The first row and the number of rows of each key.
fn keys_counted(alloc: Global, counted: &Counted) -> Result<Vec<(usize, u32)>, Fail> {
    let mut all = Vec::new(alloc);
    for i in 0..counted.counts.len() {
        all.push((counted.counts.first(i), counted.counts.count(i)))?;
    }
    Ok(all)
}

/// Refuses counts that are not those made anew.
fn are_counts(alloc: Global, counted: &Counted, anew: &Counted) -> Result<(), Fail> {
    if keys_counted(alloc, counted)? != keys_counted(alloc, anew)? {
        return Err(Fail::new("made anew it has other counts"));
    }
    Ok(())
}

/// One event, counted and checked.
fn count_event<L: Ledger>(
    alloc: Global,
    counted: Counted,
    numbers: &mut Numbers,
    steps: &mut Steps<L>,
) -> Result<Counted, Fail> {
    let event = event(numbers, counted.table.size());
    let row = row(alloc, numbers)?;
    let counted = recount(counted, &event, &row, steps)?;
    let anew = begin_counts(alloc, counted.table.same()?, 1)?;
    are_counts(alloc, &counted, &anew)?;
    Ok(counted)
}

/// Counts, and twelve events.
fn count_stream<L: Ledger>(alloc: Global, seed: u64, blank: Blank) -> Result<(), Fail>
    requires name { blank.name ≡ L.name }
    requires parts { blank.parts ≡ L.parts }
    requires some { 0 < blank.parts }
{
    let mut steps = Steps::<L>::new(blank);
    let mut numbers = Numbers { state: seed };
    let mut held = begin_counts(alloc, table(alloc, &mut numbers)?, 1)?;
    for _ in 0..12 {
        held = count_event(alloc, held, &mut numbers, &mut steps)?;
    }
    Ok(())
}

#[test]
fn positions_and_counts_are_those_made_anew(rt: HostRuntime) -> Result<(), Fail> {
    for seed in 0..100 {
        stream::<Brand>(rt.alloc(), seed, Blank::new(1))?;
        count_stream::<Brand>(rt.alloc(), seed, Blank::new(1))?;
    }
    Ok(())
}
