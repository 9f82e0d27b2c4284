//! A table and the watches over it, which follow lines.
ghost use Rattle.std.specs.Prelude.{◌≡◌, ◌∷◌, ◌<◌, [], length, slice_set, None, IfOk, IsNone, OnOk};
ghost use Rattle.live.specs.Chains.{AreNow};
ghost use Rattle.row_edits.specs.Edits.{IsInRange, edited, edited_by};
ghost use Rattle.row_edits.specs.Events.{count_all};
ghost use Rattle.row_edits.specs.declared.edit.RowEdit.TheVariants.{Insert, Remove};
ghost use Rattle.keyed_views.specs.Keyed.{IsInPlace, edits_of};
ghost use Rattle.keyed_views.specs.declared.keyed.KeyedEdit.TheVariants.{Move};

use keyed_views::{KeyedEdit, keyed_edits_are_lines};
use live::{WatchOp, Watches};
use mk_value::{HeldRows, MAX_ROWS, Row, Rows, TableRead, rows_fit};
use row_edits::Line;
use std::alloc::Global;
use std::test::Fail;
use watches::follow_line;

/// A table, and watches that keep the positions of their rows in it and have noted no event.
#[derive(Drop)]
pub struct Lined {
    pub table: HeldRows,
    pub watches: Watches,
    pub ghost now: { AreNow table.schema table.rows watches.watches },
    pub ghost quiet: { IsNone watches.noted },
}

/// A table without watches.
pub fn begin_lines(alloc: Global, table: HeldRows) -> Lined {
    let _size = table.size();
    Lined {
        table,
        watches: Watches::new(alloc),
    }
}

/// One watch more, and its number.
pub fn put_watch(lined: Lined, source: Option<u32>, op: WatchOp) -> Result<(Lined, u32), Fail> {
    let Lined { table, mut watches } = lined;
    if watches.count() >= 64 {
        return Err(Fail::new("too many watches"));
    }
    if let Some(number) = source {
        if !watches.has(number) {
            return Err(Fail::new("no such source"));
        }
    }
    let number = watches.put(source, op, &table)?;
    Ok((Lined { table, watches }, number))
}

/// Copies of a row come in before a place.
fn insert(rows: &mut Rows, at: usize, count: usize, row: &Row) -> Result<(), Fail>
    ensures in_range { OnOk result (IsInRange (Insert at count) (length rows.old)) }
    ensures rows { OnOk result (rows.new ≡ edited row.now (Insert at count) rows.old) }
{
    let size = rows.len();
    if at > size || size > MAX_ROWS || count > MAX_ROWS - size {
        return Err(Fail::new("no such place"));
    }
    rows.insert(at, row, count)?;
    Ok(())
}

/// Rows go, from a place on.
fn remove(rows: &mut Rows, at: usize, count: usize) -> Result<(), Fail>
    ensures in_range { OnOk result (IsInRange (Remove at count) (length rows.old)) }
    ensures rows { OnOk result (rows.new ≡ edited [] (Remove at count) rows.old) }
{
    let size = rows.len();
    if at > size || count > size - at {
        return Err(Fail::new("no such rows"));
    }
    rows.remove(at, count);
    Ok(())
}

/// A row comes in the place of another.
fn change(rows: &mut Rows, at: usize, row: &Row) -> Result<(), Fail>
    ensures in_range { OnOk result (at < length rows.old) }
    ensures rows { OnOk result (rows.new ≡ slice_set rows.old at row.now) }
{
    if at >= rows.len() {
        return Err(Fail::new("no such row"));
    }
    rows.remove(at, 1);
    rows.insert(at, row, 1)?;
    Ok(())
}

/// A row changes, and goes before another place.
fn move_row(rows: &mut Rows, at: usize, to: usize, row: &Row) -> Result<(), Fail>
    ensures in_place { OnOk result (IsInPlace (Move at None to) (length rows.old)) }
    ensures rows { OnOk result (rows.new ≡ edited_by row.now (edits_of (Move at None to)) rows.old) }
{
    change(rows, at, row)?;
    remove(rows, at, 1)?;
    insert(rows, to, 1, row)
}

/// Does to rows what a line does, where no other row has the key of the row that comes.
fn edit(rows: &mut Rows, edit: KeyedEdit, row: &Row) -> Result<(), Fail>
    ensures in_place { OnOk result (IsInPlace edit (length rows.old)) }
    ensures rows { OnOk result (rows.new ≡ edited_by row.now (edits_of edit) rows.old) }
{
    match edit {
        KeyedEdit::Put { at } => insert(rows, at, 1, row),
        KeyedEdit::Change { at, other: None } => change(rows, at, row),
        KeyedEdit::Move {
            at,
            other: None,
            to,
        } => move_row(rows, at, to, row),
        KeyedEdit::Remove { at, count } => remove(rows, at, count),
        _ => Err(Fail::new("another row goes")),
    }
}

/// The table after a line.
fn edited_table(table: &HeldRows, line: KeyedEdit, row: &Row) -> Result<HeldRows, Fail>
    ensures schema { IfOk result (λ new. new.schema ≡ table.now.schema) }
    ensures in_place { IfOk result (λ _. IsInPlace line (length table.now.rows)) }
    ensures rows { IfOk result (λ new. new.rows ≡ edited_by row.now (edits_of line) table.now.rows) }
{
    let mut rows = table.rows().copy()?;
    edit(&mut rows, line, row)?;
    if !rows_fit(&rows, table.schema()) {
        return Err(Fail::new("a row of another schema"));
    }
    Ok(HeldRows::of(table.schema().copy()?, rows))
}

/// The table and the watches after a line of so many events.
pub fn follow_one(
    alloc: Global,
    lined: Lined,
    line: KeyedEdit,
    count: usize,
    row: &Row,
) -> Result<Lined, Fail>
    requires { count ≡ count_all (edits_of line) }
{
    let Lined { table, mut watches } = lined;
    let after = edited_table(&table, line, row)?;
    let edits = line.edits(alloc)?;
    watches.reserve(count)?;
    let _size = table.size();
    keyed_edits_are_lines();
    follow_line(
        &mut watches,
        &Line {
            before: &table,
            after: &after,
            edits: edits.as_slice(),
            home: line.home(),
        },
    );
    Ok(Lined {
        table: after,
        watches,
    })
}
