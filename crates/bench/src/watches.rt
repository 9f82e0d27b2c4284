//! Times the events that watches, counts of a key and an index of keys follow, and prints for each of them and each number of rows the
//! nanoseconds of an insertion, a removal and a change of one row. Only what follows is timed, not what edits the table.
ghost use Rattle.std.specs.Prelude.{◌≡◌, ◌<◌};

mod chains;
mod counted;
mod events;
mod followed;
mod follower;
mod keyed;
mod numbers;

use self::chains::{Shown, watch_chain};
use self::counted::count_numbers;
use self::events::{EventKind, Places};
use self::follower::Follower;
use self::keyed::{Keys, index_keys};
use crate::columns::random::Random;
use anyhow::{Result, ensure};
use mk_value::Steps;
use std::marker::Brand;
use std::sync::ledger::{Blank, Ledger};

/// How many events of each kind are timed.
const EVENTS: u32 = 300;

/// How many events come before those that are timed, for which the kept positions may be moved to a larger place.
const WARM: u32 = 3;

/// Follows so many events of a kind, prints the nanoseconds an event, and gives what has followed them.
fn time_events<F: Follower + Drop, L: Ledger>(
    rt: &HostRuntime,
    follower: F,
    kind: EventKind,
    places: Places,
    steps: &mut Steps<L>,
) -> Result<F> {
    let mut random = Random::new();
    let mut follower = follower;
    let mut spent = 0u64;
    for count in 0..WARM + EVENTS {
        let (after, nanoseconds) = time_event(rt, follower, kind, places, &mut random, steps)?;
        follower = after;
        if count >= WARM {
            spent = spent.saturating_add(nanoseconds);
        }
    }
    print!(rt; " {}", spent / u64::from(EVENTS))?;
    Ok(follower)
}

/// Follows an event of a kind, and gives what has followed it, and the nanoseconds.
fn time_event<F: Follower + Drop, L: Ledger>(
    rt: &HostRuntime,
    follower: F,
    kind: EventKind,
    places: Places,
    random: &mut Random,
    steps: &mut Steps<L>,
) -> Result<(F, u64)> {
    let size = follower.size();
    ensure!(size > 0, "no rows");
    let event = kind.event(places, random, size);
    let row = numbers::row(rt.alloc(), random)?;
    follower.follow(rt, &event, &row, steps)
}

/// Times the three kinds of events, and prints a line.
fn time_follower<F: Follower + Drop, L: Ledger>(
    rt: &HostRuntime,
    what: &str,
    follower: F,
    places: Places,
    steps: &mut Steps<L>,
) -> Result<()> {
    print!(rt; "{what} {}", follower.size())?;
    let follower = time_events(rt, follower, EventKind::Insert, places, steps)?;
    let follower = time_events(rt, follower, EventKind::Remove, places, steps)?;
    let _follower = time_events(rt, follower, EventKind::Change, places, steps)?;
    println!(rt; "")?;
    Ok(())
}

/// Watches by what they show, each over the one before.
static CHAINS: [(&str, &[Shown]); 5] = [
    ("selection", &[Shown::LowerAmounts]),
    ("sorting", &[Shown::ByAmount]),
    ("chain_of_2", &[Shown::LowerAmounts, Shown::ByNumber]),
    (
        "chain_of_3",
        &[Shown::LowerAmounts, Shown::ByNumber, Shown::LowerNumbers],
    ),
    (
        "chain_of_4",
        &[
            Shown::LowerAmounts,
            Shown::ByNumber,
            Shown::LowerNumbers,
            Shown::ByAmount,
        ],
    ),
];

/// Times each chain of watches.
fn time_chains<L: Ledger>(rt: &HostRuntime, size: u32, steps: &mut Steps<L>) -> Result<()> {
    for (what, shown) in &CHAINS {
        time_chain(rt, what, shown, size, steps)?;
    }
    Ok(())
}

/// Times a chain of watches.
fn time_chain<L: Ledger>(
    rt: &HostRuntime,
    what: &str,
    shown: &[Shown],
    size: u32,
    steps: &mut Steps<L>,
) -> Result<()> {
    let table = numbers::table(rt.alloc(), size)?;
    let chain = watch_chain(rt.alloc(), table, shown)?;
    time_follower(rt, what, chain, Places::Anywhere, steps)
}

/// Times counts of a key.
fn time_counts<L: Ledger>(rt: &HostRuntime, size: u32, steps: &mut Steps<L>) -> Result<()> {
    let counts = count_numbers(rt.alloc(), numbers::table(rt.alloc(), size)?)?;
    time_follower(rt, "counts", counts, Places::Anywhere, steps)
}

/// Indexes of keys, by how the keys follow one another and where rows come and go.
static INDEXES: [(&str, Keys, Places); 2] = [
    ("index", Keys::Scattered, Places::Anywhere),
    ("index_end", Keys::Ascending, Places::Last),
];

/// Times each index of keys.
fn time_indexes<L: Ledger>(rt: &HostRuntime, size: u32, steps: &mut Steps<L>) -> Result<()> {
    for (what, keys, places) in &INDEXES {
        let index = index_keys(rt.alloc(), size, *keys)?;
        time_follower(rt, what, index, *places, steps)?;
    }
    Ok(())
}

/// How many rows a table has.
static SIZES: [u32; 2] = [50_000, 1_000_000];

/// Times all, at each number of rows, with a counter of steps made of a blank ledger.
fn time_each_size<L: Ledger>(rt: &HostRuntime, blank: Blank) -> Result<()>
    requires name { blank.name ≡ L.name }
    requires parts { blank.parts ≡ L.parts }
    requires some { 0 < blank.parts }
{
    let mut steps = Steps::<L>::new(blank);
    for size in &SIZES {
        time_chains(rt, *size, &mut steps)?;
        time_counts(rt, *size, &mut steps)?;
        time_indexes(rt, *size, &mut steps)?;
    }
    Ok(())
}

/// Times what follows events, over 50,000 rows and over a million.
pub fn measure_all(rt: &HostRuntime) -> Result<()> {
    time_each_size::<Brand>(rt, Blank::new(1))
}
