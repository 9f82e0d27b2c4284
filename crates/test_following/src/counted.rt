//! A table and the counts of its rows, which follow its events.
ghost use Rattle.std.specs.Prelude.{◌≡◌, ◌<◌, ◌∷◌, [], false, length, IfOk};
ghost use Rattle.mk_value.specs.Tables.{domain_at};
ghost use Rattle.relations.specs.Fitting.{is_view};
ghost use Rattle.live_counts.specs.Counting.{AreCounts};

use crate::followed::{edited, is_place};
use live::{Event, Over};
use live_counts::LiveCounts;
use mk_value::{HeldRows, Positions, Row, Steps, TableRead};
use relations::lookup::is_view;
use std::alloc::Global;
use std::sync::ledger::Ledger;
use std::test::Fail;

/// A table, and the counts of its rows by one property.
#[derive(Drop)]
pub struct Counted {
    pub table: HeldRows,
    pub counts: LiveCounts,
    pub ghost now: { AreCounts table.schema table.rows counts },
}

/// The column of a property that is no view, as the only one.
fn only(alloc: Global, table: &HeldRows, col: u32) -> Result<Positions, Fail>
    ensures only { IfOk result (λ columns. columns ≡ col ∷ []) }
    ensures there { IfOk result (λ _. col < length table.now.schema) }
    ensures plain { IfOk result (λ _. is_view (domain_at table.now.schema col) ≡ false) }
{
    let Some(prop) = table.schema().as_slice().get(col as usize) else {
        return Err(Fail::new("no such column"));
    };
    if is_view(&prop.kind) {
        return Err(Fail::new("a column of views"));
    }
    let mut columns = Positions::new(alloc);
    columns.push(col)?;
    Ok(columns)
}

/// The table with the counts of its rows by the property in a column.
pub fn begin_counts(alloc: Global, table: HeldRows, col: u32) -> Result<Counted, Fail> {
    let columns = only(alloc, &table, col)?;
    let counts = LiveCounts::make(alloc, &table, columns)?;
    Ok(Counted { table, counts })
}

/// The table and the counts after an event.
pub fn recount<L: Ledger>(
    counted: Counted,
    event: &Event,
    row: &Row,
    steps: &mut Steps<L>,
) -> Result<Counted, Fail> {
    let Counted { table, mut counts } = counted;
    if !is_place(event, table.size()) {
        return Err(Fail::new("no such row"));
    }
    let new = edited(&table, event, row)?;
    counts.reserve(1)?;
    counts.before(&Over { rows: &table }, event, steps);
    counts.after(&Over { rows: &new }, event, steps);
    Ok(Counted { table: new, counts })
}
