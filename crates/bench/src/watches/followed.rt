//! A table and the watches over it.
ghost use Rattle.std.specs.Prelude.{◌<◌, length, OnOk};
ghost use Rattle.std.specs.Option.{ForSome};
ghost use Rattle.live.specs.Chains.{AreNow};
ghost use Rattle.live.specs.Numbers.{place_of};

use super::events::is_place;
use super::follower::Follower;
use super::numbers::edit;
use crate::clock::nanoseconds_since;
use anyhow::{Result, ensure};
use live::{Event, Out, Over, WatchOp, Watches};
use mk_value::{Row, Steps, TableRead};
use std::alloc::Global;
use std::sync::ledger::Ledger;
use std::time::Instant;
use tables::Table;

/// A table, and watches that keep the positions of their rows in it.
#[derive(Drop)]
pub struct Followed {
    table: Table,
    watches: Watches,
    out: Out,
    ghost now: { AreNow table.schema table.rows watches.watches },
}

/// Puts one watch more, and gives its number.
pub fn put(followed: &mut Followed, source: Option<u32>, op: WatchOp) -> Result<u32> {
    check_source(&followed.watches, source)?;
    Ok(followed.watches.put(source, op, &followed.table)?)
}

/// Refuses one watch more than there may be, and a source that is none of the watches.
fn check_source(watches: &Watches, source: Option<u32>) -> Result<()>
    ensures few { OnOk result (length watches.now.watches < 64) }
    ensures source { OnOk result (ForSome source (λ n. place_of watches.now.watches n < length watches.now.watches)) }
{
    ensure!(watches.count() < 64, "too many watches");
    match source {
        None => Ok(()),
        Some(number) => {
            ensure!(watches.has(number), "no such source");
            Ok(())
        }
    }
}

/// Edits a table as an event tells, and has the watches follow. The nanoseconds that following took.
fn time_event<L: Ledger>(
    rt: &HostRuntime,
    table: &mut Table,
    watches: &mut Watches,
    out: &mut Out,
    event: &Event,
    row: &Row,
    steps: &mut Steps<L>,
) -> Result<u64>
    requires { AreNow table.old.schema table.old.rows watches.old.watches }
    ensures { OnOk result (AreNow table.new.schema table.new.rows watches.new.watches) }
{
    ensure!(is_place(event, table.size()), "no such row");
    watches.reserve(1)?;
    out.reserve(watches.count())?;
    let start = Instant::now(rt)?;
    watches.before(&Over { rows: &*table }, event, steps);
    let before = nanoseconds_since(rt, &start)?;
    edit(table, event, row)?;
    let start = Instant::now(rt)?;
    watches.after(&Over { rows: &*table }, event, out, steps);
    let after = nanoseconds_since(rt, &start)?;
    Ok(before.saturating_add(after))
}

/// A table without watches.
pub fn begin(alloc: Global, table: Table) -> Followed {
    let _size = table.size();
    Followed {
        table,
        watches: Watches::new(alloc),
        out: Out::new(alloc),
    }
}

impl Follower for Followed {
    fn size(&self) -> usize {
        self.table.size()
    }

    fn follow<L: Ledger>(
        self,
        rt: &HostRuntime,
        event: &Event,
        row: &Row,
        steps: &mut Steps<L>,
    ) -> Result<(Followed, u64)> {
        let Followed {
            mut table,
            mut watches,
            mut out,
        } = self;
        let nanoseconds = time_event(rt, &mut table, &mut watches, &mut out, event, row, steps)?;
        Ok((
            Followed {
                table,
                watches,
                out,
            },
            nanoseconds,
        ))
    }
}
