//! A table and the counts of its numbers.
ghost use Rattle.std.specs.Prelude.{◌≡◌, ◌<◌, ◌∷◌, [], false, length, IfOk, OnOk};
ghost use Rattle.mk_value.specs.Tables.{domain_at};
ghost use Rattle.relations.specs.Fitting.{is_view};
ghost use Rattle.live_counts.specs.Counting.{AreCounts};

use super::events::is_place;
use super::follower::Follower;
use super::numbers::edit;
use crate::clock::nanoseconds_since;
use anyhow::{Context, Result, ensure};
use live::{Event, Over};
use live_counts::LiveCounts;
use mk_value::{Positions, Row, Steps, TableRead};
use relations::lookup::is_view;
use std::alloc::Global;
use std::sync::ledger::Ledger;
use std::time::Instant;
use tables::Table;

/// A table, and the counts of its rows by the first property.
#[derive(Drop)]
pub struct Counted {
    table: Table,
    counts: LiveCounts,
    ghost now: { AreCounts table.schema table.rows counts },
}

/// The first column, as the only one, if it is none of views.
fn first_column(alloc: Global, table: &Table) -> Result<Positions>
    ensures only { IfOk result (λ columns. columns ≡ 0 ∷ []) }
    ensures there { IfOk result (λ _. 0 < length table.now.schema) }
    ensures plain { IfOk result (λ _. is_view (domain_at table.now.schema 0) ≡ false) }
{
    let prop = table.schema().as_slice().first().context("no column")?;
    ensure!(!is_view(&prop.kind), "a column of views");
    let mut columns = Positions::new(alloc);
    columns.push(0)?;
    Ok(columns)
}

/// A table, and the counts of its numbers.
pub fn count_numbers(alloc: Global, table: Table) -> Result<Counted> {
    let counts = counts_of(alloc, &table)?;
    Ok(Counted { table, counts })
}

/// The counts of the numbers of a table.
fn counts_of(alloc: Global, table: &Table) -> Result<LiveCounts>
    ensures { IfOk result (AreCounts table.now.schema table.now.rows) }
{
    let columns = first_column(alloc, table)?;
    Ok(LiveCounts::make(alloc, table, columns)?)
}

/// Edits a table as an event tells, and has the counts follow. The nanoseconds that following took.
fn time_event<L: Ledger>(
    rt: &HostRuntime,
    table: &mut Table,
    counts: &mut LiveCounts,
    event: &Event,
    row: &Row,
    steps: &mut Steps<L>,
) -> Result<u64>
    requires { AreCounts table.old.schema table.old.rows counts.old }
    ensures { OnOk result (AreCounts table.new.schema table.new.rows counts.new) }
{
    ensure!(is_place(event, table.size()), "no such row");
    counts.reserve(1)?;
    let start = Instant::now(rt)?;
    counts.before(&Over { rows: &*table }, event, steps);
    let before = nanoseconds_since(rt, &start)?;
    edit(table, event, row)?;
    let start = Instant::now(rt)?;
    counts.after(&Over { rows: &*table }, event, steps);
    let after = nanoseconds_since(rt, &start)?;
    Ok(before.saturating_add(after))
}

impl Follower for Counted {
    fn size(&self) -> usize {
        self.table.size()
    }

    fn follow<L: Ledger>(
        self,
        rt: &HostRuntime,
        event: &Event,
        row: &Row,
        steps: &mut Steps<L>,
    ) -> Result<(Counted, u64)> {
        let Counted {
            mut table,
            mut counts,
        } = self;
        let nanoseconds = time_event(rt, &mut table, &mut counts, event, row, steps)?;
        Ok((Counted { table, counts }, nanoseconds))
    }
}
