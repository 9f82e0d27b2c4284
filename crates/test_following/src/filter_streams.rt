//! A hundred streams of events of a table that is filtered, each from a number.
ghost use Rattle.std.specs.Prelude.{◌≡◌, ◌<◌, ◌∷◌, [], map, IfOk};
ghost use Rattle.mk_value.specs.Heading.{Domain};
ghost use Rattle.mk_value.specs.Kinds.{domain_of};
ghost use Rattle.viewers.specs.Laws.{AreArguments, gives};

use crate::filtered::{Filtered, begin_filter, number_columns, refilter};
use crate::streams::{Numbers, event};
use live::Event;
use live_counts::LiveFilter;
use mk_value::{HeldRows, Kind, Memory, Name, Row, Rows, Same, Steps, TableRead, Value, rows_fit};
use std::alloc::Global;
use std::marker::Brand;
use std::sync::ledger::{Blank, Ledger};
use std::test::Fail;
use struct_text::parse;
use viewers::{Call, Kinds, Law, StoredViewer, Viewer, sum};

/// A row of two numbers from -2 to 2, so that one sum in five is 0, and rows with other numbers have the same sum.
fn row(alloc: Global, numbers: &mut Numbers) -> Result<Row, Fail> {
    let mut row = Row::new(alloc);
    row.push(Value::I(numbers.below(5) as i32 - 2))?;
    row.push(Value::I(numbers.below(5) as i32 - 2))?;
    Ok(row)
}

/// A table of up to five rows.
fn table(alloc: Global, numbers: &mut Numbers) -> Result<HeldRows, Fail> {
    let (_, schema) = parse(alloc, "t[a:I,b:I]")?;
    let mut rows = Rows::new(alloc);
    for _ in 0..numbers.below(6) {
        rows.push(row(alloc, numbers)?)?;
    }
    if !rows_fit(&rows, &schema) {
        return Err(Fail::new("rows of another schema"));
    }
    Ok(HeldRows::of(schema, rows))
}

/// Whether the sum of a row's numbers is not 0.
fn passes(row: &Row) -> bool {
    match row.as_slice() {
        [Value::I(a), Value::I(b)] => i64::from(*a) + i64::from(*b) != 0,
        _ => false,
    }
}

/// Whether there is a row at a place, and it passes.
fn passes_at(rows: &Rows, at: usize) -> bool {
    match rows.as_slice().get(at) {
        Some(row) => passes(row),
        None => false,
    }
}

/// The places of the rows that pass.
fn passing(alloc: Global, rows: &Rows) -> Result<Vec<usize>, Fail> {
    let mut places = Vec::new(alloc);
    for at in 0..rows.len() {
        if passes_at(rows, at) {
            places.push(at)?;
        }
    }
    Ok(places)
}

/// How many rows before a place pass.
fn passing_before(rows: &Rows, place: usize) -> usize {
    let mut count: usize = 0;
    for at in 0..place {
        if passes_at(rows, at) {
            count = count.saturating_add(1);
        }
    }
    count
}

/// What is told of the rows that pass: a row that passed and passes has changed, one that passes only now has come, and one that passed
/// only before has gone.
fn own_event(old: &Rows, new: &Rows, event: &Event) -> Option<Event> {
    let (at, passed, passes) = match *event {
        Event::Insert(at) => (at, false, passes_at(new, at)),
        Event::Remove(at) => (at, passes_at(old, at), false),
        Event::Change(at) => (at, passes_at(old, at), passes_at(new, at)),
    };
    let own = passing_before(old, at);
    match (passed, passes) {
        (true, true) => Some(Event::Change(own)),
        (false, true) => Some(Event::Insert(own)),
        (true, false) => Some(Event::Remove(own)),
        (false, false) => None,
    }
}

/// Whether two events are the same, or neither is one.
fn are_same(one: Option<Event>, two: Option<Event>) -> bool {
    match (one, two) {
        (None, None) => true,
        (Some(Event::Insert(a)), Some(Event::Insert(b)))
        | (Some(Event::Remove(a)), Some(Event::Remove(b)))
        | (Some(Event::Change(a)), Some(Event::Change(b))) => a == b,
        _ => false,
    }
}

/// The positions that a filter keeps.
fn kept(alloc: Global, filter: &LiveFilter) -> Result<Vec<usize>, Fail> {
    let mut places = Vec::new(alloc);
    for i in 0..filter.len() {
        places.push(filter.at(i))?;
    }
    Ok(places)
}

/// The filter of a table's rows by the sum of their numbers.
fn filter<V: Viewer>(alloc: Global, table: HeldRows, viewer: &V) -> Result<Filtered<'_, V>, Fail>
    requires { (V.meaning viewer.now).takes ≡ Domain.integer ∷ Domain.integer ∷ [] }
{
    let columns = number_columns(alloc, &table)?;
    begin_filter(alloc, table, viewer, columns)
}

/// Refuses positions that are not those of the rows that pass, of the filter and of one made anew.
fn check<V: Viewer>(alloc: Global, filtered: &Filtered<'_, V>, viewer: &V) -> Result<(), Fail>
    requires { (V.meaning viewer.now).takes ≡ Domain.integer ∷ Domain.integer ∷ [] }
{
    let places = passing(alloc, filtered.table.rows())?;
    if kept(alloc, &filtered.filter)? != places {
        return Err(Fail::new("it keeps other positions"));
    }
    let anew = filter(alloc, filtered.table.same()?, viewer)?;
    if kept(alloc, &anew.filter)? != places {
        return Err(Fail::new("made anew it keeps other positions"));
    }
    Ok(())
}

/// One event, followed and checked.
fn one_event<'a, L: Ledger, V: Viewer>(
    alloc: Global,
    filtered: Filtered<'a, V>,
    viewer: &V,
    numbers: &mut Numbers,
    steps: &mut Steps<L>,
) -> Result<Filtered<'a, V>, Fail>
    requires { (V.meaning viewer.now).takes ≡ Domain.integer ∷ Domain.integer ∷ [] }
{
    let event = event(numbers, filtered.table.size());
    let row = row(alloc, numbers)?;
    let old = filtered.table.rows().copy()?;
    let (filtered, told) = refilter(alloc, filtered, &event, &row, steps)?;
    if !are_same(told, own_event(&old, filtered.table.rows(), &event)) {
        return Err(Fail::new("it tells another event"));
    }
    check(alloc, &filtered, viewer)?;
    Ok(filtered)
}

/// A filter, and twelve events.
fn stream<V: Viewer>(alloc: Global, seed: u64, viewer: &V) -> Result<(), Fail>
    requires { (V.meaning viewer.now).takes ≡ Domain.integer ∷ Domain.integer ∷ [] }
{
    let mut numbers = Numbers { state: seed };
    let filtered = filter(alloc, table(alloc, &mut numbers)?, viewer)?;
    twelve_events::<Brand, V>(alloc, filtered, viewer, &mut numbers, Blank::new(1))
}

/// Twelve events of a filter, with a count of steps.
fn twelve_events<L: Ledger, V: Viewer>(
    alloc: Global,
    filtered: Filtered<'_, V>,
    viewer: &V,
    numbers: &mut Numbers,
    blank: Blank,
) -> Result<(), Fail>
    requires takes { (V.meaning viewer.now).takes ≡ Domain.integer ∷ Domain.integer ∷ [] }
    requires name { blank.name ≡ L.name }
    requires parts { blank.parts ≡ L.parts }
    requires some { 0 < blank.parts }
{
    let mut steps = Steps::<L>::new(blank);
    let mut filtered = filtered;
    for _ in 0..12 {
        filtered = one_event(alloc, filtered, viewer, numbers, &mut steps)?;
    }
    Ok(())
}

/// A hundred streams.
fn streams<V: Viewer>(alloc: Global, viewer: &V) -> Result<(), Fail>
    requires { (V.meaning viewer.now).takes ≡ Domain.integer ∷ Domain.integer ∷ [] }
{
    for seed in 0..100 {
        stream(alloc, seed, viewer)?;
    }
    Ok(())
}

/// The kinds of two numbers.
fn pair_kinds(alloc: Global) -> Result<Kinds, Memory>
    ensures { IfOk result (λ kinds. map domain_of kinds ≡ Domain.integer ∷ Domain.integer ∷ []) }
{
    let mut kinds = Kinds::new(alloc);
    kinds.push(Kind::I)?;
    kinds.push(Kind::I)?;
    Ok(kinds)
}

fn name(word: &str) -> Result<Name, Fail> {
    match Name::from_bytes(word.as_bytes()) {
        Some(name) => Ok(name),
        None => Err(Fail::new("no name")),
    }
}

#[test]
fn filters_keep_and_tell_the_rows_that_pass(rt: HostRuntime) -> Result<(), Fail> {
    let alloc = rt.alloc();
    let sums: Call = Box::new(
        alloc,
        |row: &Row| -> i64
            requires { AreArguments (Domain.integer ∷ Domain.integer ∷ []) row.now }
            ensures { result ≡ gives Law.Sum row.now }
        { sum(row) },
    )?;
    let viewer = StoredViewer::new(name("sum")?, Law::Sum, pair_kinds(alloc)?, sums);
    streams(alloc, &viewer)
}
