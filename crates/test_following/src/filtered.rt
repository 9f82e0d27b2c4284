//! A table and a filter of its rows, which follows its events.
ghost use Rattle.std.specs.Prelude.{◌≡◌, ◌+◌, ◌<◌, ◌++◌, ◌∷◌, [], ℕ, None, Some, length, IfOk, OnOk};
ghost use Rattle.std.specs.Coded.{Coded-set, coded_list, le_prop};
ghost use Rattle.mk_value.specs.Heading.{Domain, domain_code};
ghost use Rattle.mk_value.specs.Tables.{domain_at};
ghost use Rattle.viewed.specs.Asking.{AreAsked, is_kept};
ghost use Rattle.live.specs.Watching.{comes_to, root_turn};
ghost use Rattle.live_counts.specs.Filtering.{FitsBy, IsFiltered};

use crate::followed::{edited, is_place};
use live::{Event, Turn};
use live_counts::LiveFilter;
use mk_value::{HeldRows, Kind, Row, Steps, TableRead};
use relations::Columns;
use std::alloc::Global;
use std::sync::ledger::Ledger;
use std::test::Fail;
use viewers::Viewer;

/// A table, and the filter of its rows by a viewer.
#[derive(Drop)]
pub struct Filtered<'a, V: Viewer> {
    pub table: HeldRows,
    pub viewer: &'a V,
    pub filter: LiveFilter,
    pub ghost asked: { AreAsked table.schema (V.meaning viewer.now).takes filter.columns } by { Prim.hlevel (le_prop, Coded-set (coded_list domain_code)) },
    pub ghost now: { IsFiltered (is_kept (V.meaning viewer.now).gives filter.columns) table.rows filter.kept },
}

/// Appends a column of numbers of kind I.
fn push_numbers(columns: &mut Columns, table: &HeldRows, col: usize) -> Result<(), Fail>
    ensures columns { OnOk result (columns.new ≡ columns.old ++ col ∷ []) }
    ensures there { OnOk result (col < length table.now.schema) }
    ensures kind { OnOk result (domain_at table.now.schema col ≡ Domain.integer) }
{
    let Some(prop) = table.schema().as_slice().get(col) else {
        return Err(Fail::new("no such column"));
    };
    let Kind::I = prop.kind else {
        return Err(Fail::new("a column of another kind"));
    };
    columns.push(col)?;
    Ok(())
}

/// The first two columns, which are of numbers of kind I.
pub fn number_columns(alloc: Global, table: &HeldRows) -> Result<Columns, Fail>
    ensures { IfOk result (λ columns. AreAsked table.now.schema (Domain.integer ∷ Domain.integer ∷ []) columns) }
{
    let mut columns = Columns::new(alloc);
    push_numbers(&mut columns, table, 0)?;
    push_numbers(&mut columns, table, 1)?;
    Ok(columns)
}

/// A table, with the filter of its rows by a viewer that is asked of the values in these columns.
pub fn begin_filter<V: Viewer>(
    alloc: Global,
    table: HeldRows,
    viewer: &V,
    columns: Columns,
) -> Result<Filtered<'_, V>, Fail>
    requires { AreAsked table.schema (V.meaning viewer.now).takes columns }
{
    let filter = LiveFilter::make(alloc, &table, viewer, columns)?;
    Ok(Filtered {
        table,
        viewer,
        filter,
    })
}

/// Whether the row that came or changed is kept, for which the viewer is asked once; where none came it is not asked.
fn fits<L: Ledger, V: Viewer>(
    alloc: Global,
    filter: &LiveFilter,
    viewer: &V,
    new: &HeldRows,
    event: &Event,
    steps: &mut Steps<L>,
) -> Result<bool, Fail>
    requires { AreAsked new.now.schema (V.meaning viewer.now).takes filter.now.columns }
    ensures fits { IfOk result (λ fits. FitsBy (is_kept (V.meaning viewer.now).gives filter.now.columns) (comes_to (root_turn event.now)) fits new.now.rows) }
    ensures one { (at : ℕ) → comes_to (root_turn event.now) ≡ Some at → OnOk result (steps.new ≡ steps.old + 1) }
    ensures none { comes_to (root_turn event.now) ≡ None → steps.new ≡ steps.old }
{
    let Some(at) = Turn::of_root(event).comes_to() else {
        return Ok(false);
    };
    let _size = new.size();
    let Some(row) = new.rows().as_slice().get(at) else {
        return Err(Fail::new("no row has come"));
    };
    Ok(filter.ask(alloc, viewer, row, steps)?)
}

/// The table and the filter after an event, and the event that the filter tells.
pub fn refilter<'a, L: Ledger, V: Viewer>(
    alloc: Global,
    filtered: Filtered<'a, V>,
    event: &Event,
    row: &Row,
    steps: &mut Steps<L>,
) -> Result<(Filtered<'a, V>, Option<Event>), Fail> {
    let Filtered {
        table,
        viewer,
        mut filter,
    } = filtered;
    if !is_place(event, table.size()) {
        return Err(Fail::new("no such row"));
    }
    let new = edited(&table, event, row)?;
    let _size = new.size();
    let fits = fits(alloc, &filter, viewer, &new, event, steps)?;
    filter.reserve(1)?;
    let told = filter.after(event, fits);
    Ok((
        Filtered {
            table: new,
            viewer,
            filter,
        },
        told,
    ))
}
