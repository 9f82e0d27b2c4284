//! Edits that nothing refuses.
ghost use Rattle.std.specs.Prelude.{◌≡◌, [], length, None, IfOk, OnOk, OnErr};
ghost use Rattle.tables.specs.Rests.{RestsOn};
ghost use Rattle.tables.specs.Rows.{completed};
ghost use Rattle.tables.specs.Shapes.{HasHomes};
ghost use Rattle.tables.specs.Tables.{IsTable};
ghost use Rattle.view_store.specs.Changes.{edit_of};
ghost use Rattle.view_store.specs.Edits.{Edit, edited, edited_here};
ghost use Rattle.view_store.specs.Refusals.{due_in};

use crate::change::Change;
use mk_value::{Memory, Row, Schema, Step, TableRead, default_of};
use std::alloc::Global;
use tables::{Shared, Table, share};

/// The table after an edit of the rows to which the steps lead. Each table on the way is made anew, and shares with the one before all
/// columns that the edit leaves.
pub(crate) fn edit(
    alloc: Global,
    table: &Shared,
    steps: &[Step],
    change: Change<'_>,
) -> Result<Shared, Memory>
    requires { due_in table.now steps.now (edit_of change) ≡ None }
    ensures ok { IfOk result (λ new. new ≡ edited steps.now (edit_of change.entry) table.now) }
    ensures rests { IfOk result (λ new. RestsOn new table.now) }
    ensures whole { IfOk result IsTable }
    ensures homes { IfOk result HasHomes }
{
    let mut new = table.table().same()?;
    match steps.split_first() {
        Some((step, rest)) => {
            let row = step.row as usize;
            let col = table.schema().find(step.prop.as_str()).unwrap();
            let nested = table.table().inner(row, col).to_shared()?;
            let inner = edit(alloc, &nested, rest, change)?;
            new.set_inner(row, col, inner)?;
        }
        None => edit_here(alloc, &mut new, change)?,
    }
    finished(alloc, new)
}

/// The table, to be shared. It is whole, as each table is.
fn finished(alloc: Global, table: Table) -> Result<Shared, Memory>
    ensures value { IfOk result (λ shared. shared ≡ table) }
    ensures whole { IfOk result IsTable }
    ensures homes { IfOk result HasHomes }
{
    let _rows = table.len();
    share(alloc, table)
}

/// Edits the rows of a shared table: in place, where nobody else holds it, and else in a copy in its place, while the others keep it.
pub(crate) fn edit_rows(alloc: Global, table: &mut Shared, change: Change<'_>) -> Result<(), Memory>
    requires { due_in table.old [] (edit_of change) ≡ None }
    ensures ok { OnOk result (table.new ≡ edited_here (edit_of change.entry) table.old) }
    ensures err { OnErr result (table.new ≡ table.old) }
    ensures rests { OnOk result (RestsOn table.new table.old) }
{
    match table.sole() {
        Some(own) => edit_here(alloc, own, change),
        None => edit_copy(alloc, table, change),
    }
}

/// Edits the rows of a shared table in a copy, and puts that in its place.
fn edit_copy(alloc: Global, table: &mut Shared, change: Change<'_>) -> Result<(), Memory>
    requires { due_in table.old [] (edit_of change) ≡ None }
    ensures ok { OnOk result (table.new ≡ edited_here (edit_of change.entry) table.old) }
    ensures err { OnErr result (table.new ≡ table.old) }
    ensures rests { OnOk result (RestsOn table.new table.old) }
{
    let mut copy = table.table().same()?;
    edit_here(alloc, &mut copy, change)?;
    *table = share(alloc, copy)?;
    Ok(())
}

/// Edits these very rows.
fn edit_here(alloc: Global, table: &mut Table, change: Change<'_>) -> Result<(), Memory>
    requires { due_in table.old [] (edit_of change) ≡ None }
    ensures ok { OnOk result (table.new ≡ edited_here (edit_of change.entry) table.old) }
    ensures err { OnErr result (table.new ≡ table.old) }
    ensures rests { RestsOn table.new table.old }
{
    match change {
        Change::Insert(at, row, count) => insert_here(alloc, table, at, row, count),
        Change::Set(row, prop, value) => {
            let col = table.schema().find(prop.as_str()).unwrap();
            table.set_cell(row, col, value)
        }
        Change::Remove(at, count) => table.remove_rows(at, count),
    }
}

/// Puts a row in among these very rows. One that has a value for each property is not copied.
fn insert_here(
    alloc: Global,
    table: &mut Table,
    at: usize,
    row: &Row,
    count: usize,
) -> Result<(), Memory>
    requires { due_in table.old [] (Edit.insert at row.now count) ≡ None }
    ensures ok { OnOk result (table.new ≡ edited_here (Edit.insert at row.now count) table.old) }
    ensures err { OnErr result (table.new ≡ table.old) }
    ensures rests { RestsOn table.new table.old }
{
    if row.len() == table.schema().len() {
        return insert_whole(table, at, row, count);
    }
    let full = completed_row(alloc, row, table.schema())?;
    table.insert_rows(at, &full, count)
}

/// Puts a row in that has a value for each property.
#[tactic(auto, using(crate::proofs::Editing::completed_whole))]
fn insert_whole(table: &mut Table, at: usize, row: &Row, count: usize) -> Result<(), Memory>
    requires due { due_in table.old [] (Edit.insert at row.now count) ≡ None }
    requires whole { length row.now ≡ length table.old.schema }
    ensures ok { OnOk result (table.new ≡ edited_here (Edit.insert at row.now count) table.old) }
    ensures err { OnErr result (table.new ≡ table.old) }
    ensures rests { RestsOn table.new table.old }
{
    table.insert_rows(at, row, count)
}

/// A copy of the row, with defaults for the values that are missing at its end.
fn completed_row(alloc: Global, row: &Row, schema: &Schema) -> Result<Row, Memory>
    ensures { IfOk result (λ full. full ≡ completed schema.now row.now) }
{
    let mut full = row.copy()?;
    let props = schema.as_slice();
    for at in row.len()..props.len() {
        let prop = &props[at];
        full.push(default_of(alloc, &prop.kind))?;
    }
    Ok(full)
}
