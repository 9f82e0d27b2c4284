//! A table and the watches over it, which follow its events.
ghost use Rattle.std.specs.Prelude.{◌≡◌, ◌↔◌, length, IfOk, IsTrue, OnOk};
ghost use Rattle.live.specs.Chains.{AreNow};
ghost use Rattle.live.specs.Putting.{IsPlace};
ghost use Rattle.live.specs.Watching.{IsTurn, root_turn};

use live::{Event, Out, Over, WatchOp, Watches};
use mk_value::{HeldRows, Memory, Row, Rows, Steps, TableRead, rows_fit};
use std::alloc::Global;
use std::sync::ledger::Ledger;
use std::test::Fail;

/// A table, and watches that keep the positions of their rows in it.
#[derive(Drop)]
pub struct Followed {
    pub table: HeldRows,
    pub watches: Watches,
    pub ghost now: { AreNow table.schema table.rows watches.watches },
}

/// A table without watches.
pub fn begin(alloc: Global, table: HeldRows) -> Followed {
    let _size = table.size();
    Followed {
        table,
        watches: Watches::new(alloc),
    }
}

/// One watch more, and its number.
pub fn put(followed: Followed, source: Option<u32>, op: WatchOp) -> Result<(Followed, u32), Fail> {
    let Followed { table, mut watches } = followed;
    if watches.count() >= 64 {
        return Err(Fail::new("too many watches"));
    }
    if let Some(number) = source {
        if !watches.has(number) {
            return Err(Fail::new("no such source"));
        }
    }
    let number = watches.put(source, op, &table)?;
    Ok((Followed { table, watches }, number))
}

/// Does to rows what an event tells; the row is the one that comes.
fn edit(rows: &mut Rows, event: &Event, row: &Row) -> Result<(), Memory>
    requires { IsPlace event.now (length rows.old) }
    ensures { OnOk result (IsTurn (root_turn event.now) rows.old rows.new) }
{
    match *event {
        Event::Insert(at) => rows.insert(at, row, 1),
        Event::Remove(at) => {
            rows.remove(at, 1);
            Ok(())
        }
        Event::Change(at) => {
            rows.remove(at, 1);
            rows.insert(at, row, 1)
        }
    }
}

/// The table after an event.
pub fn edited(table: &HeldRows, event: &Event, row: &Row) -> Result<HeldRows, Fail>
    requires { IsPlace event.now (length table.now.rows) }
    ensures schema { IfOk result (λ new. new.schema ≡ table.now.schema) }
    ensures rows { IfOk result (λ new. IsTurn (root_turn event.now) table.now.rows new.rows) }
{
    let mut rows = table.rows().copy()?;
    edit(&mut rows, event, row)?;
    if !rows_fit(&rows, table.schema()) {
        return Err(Fail::new("a row of another schema"));
    }
    Ok(HeldRows::of(table.schema().copy()?, rows))
}

/// Whether the event may happen to so many rows.
pub fn is_place(event: &Event, size: usize) -> bool
    ensures { IsTrue result ↔ IsPlace event.now size }
{
    match *event {
        Event::Insert(at) => at <= size,
        Event::Remove(at) => at < size,
        Event::Change(at) => at < size,
    }
}

/// The table and the watches after an event.
pub fn follow<L: Ledger>(
    followed: Followed,
    event: &Event,
    row: &Row,
    out: &mut Out,
    steps: &mut Steps<L>,
) -> Result<Followed, Fail> {
    let Followed { table, mut watches } = followed;
    if !is_place(event, table.size()) {
        return Err(Fail::new("no such row"));
    }
    let new = edited(&table, event, row)?;
    watches.reserve(1)?;
    out.reserve(watches.count())?;
    watches.before(&Over { rows: &table }, event, steps);
    watches.after(&Over { rows: &new }, event, out, steps);
    Ok(Followed {
        table: new,
        watches,
    })
}
