//! Tables all of whose columns have a home.
ghost use Rattle.std.specs.Prelude.{◌≡◌, ◌-◌, ◌<◌, ◌≤◌, Some, None, length, take, drop, slice_index_or, IfOk};
ghost use Rattle.bytes_col.specs.Strings.{string_blocks};
ghost use Rattle.tables.specs.Columns.{integers, texts};
ghost use Rattle.tables.specs.Pools.{no_table};
ghost use Rattle.tables.specs.Stored.{stored_of};
ghost use Rattle.commit_plan.specs.Settling.{IsGivenHome, SettlesColumn, SettlesColumns, SettlesMore, SettlesTable, SettlesTables, column_count, counted, table_count};

use crate::places::Places;
use bytes_col::{BytesCol, BytesHome};
use int_col::IntCol;
use mk_value::{Memory, Span, Spans};
use std::alloc::Global;
use tables::{Col, Cols, Nested, Shared, Tables, TablesBuilder, share};

/// The table with the next spans as the homes of its columns that have none. The values and the schema are shared, and a table of which no
/// column is without a home is shared as it is.
///
/// # Errors
///
/// `Memory`.
#[cycle(settle)]
pub(crate) fn settle_table(
    alloc: Global,
    shared: &Shared,
    places: &mut Places<'_>,
) -> Result<Shared, Memory>
    requires { table_count shared.now ≤ length places.old }
    ensures { IfOk result (SettlesTable shared.now places.old places.new) }
{
    let table = shared.table();
    let left = places.left();
    let cols = settle_cols(alloc, table.cols(), places)?;
    if places.left() == left {
        return same_table(shared);
    }
    share(alloc, table.with_cols(cols)?)
}

/// One more holder of a table.
fn same_table(shared: &Shared) -> Result<Shared, Memory>
    ensures { IfOk result (λ same. same ≡ shared.now) }
{
    Ok(shared.clone()?)
}

/// The columns with the next spans as the homes of those that have none.
#[cycle(settle)]
fn settle_cols(alloc: Global, cols: &Cols, places: &mut Places<'_>) -> Result<Cols, Memory>
    requires { counted column_count cols.now ≤ length places.old }
    ensures { IfOk result (SettlesColumns cols.now places.old places.new) }
{
    let mut settled = Cols::with_capacity(alloc, cols.as_slice().len())?;
    'cols: for col in cols.as_slice() {
        settled.push(settle_col(alloc, col, places)?)?;
    }
    Ok(settled)
}

/// The column with the next spans as its home, where it has none.
#[cycle(settle)]
fn settle_col(alloc: Global, col: &Col, places: &mut Places<'_>) -> Result<Col, Memory>
    requires { column_count (stored_of col.now) ≤ length places.old }
    ensures { IfOk result (λ settled. SettlesColumn (stored_of col.now) places.old places.new (stored_of settled)) }
{
    match col {
        Col::Ints(column) => Ok(Col::Ints(settle_ints(column, places)?)),
        Col::Blobs(column) => Ok(Col::Blobs(settle_blobs(alloc, column, places)?)),
        Col::Views(tables) => Ok(Col::Views(settle_tables(alloc, tables, places)?)),
    }
}

/// The tables in the rows of a view column, one after another.
#[cycle(settle)]
fn settle_tables(alloc: Global, tables: &Tables, places: &mut Places<'_>) -> Result<Tables, Memory>
    requires { counted table_count tables.now ≤ length places.old }
    ensures { IfOk result (SettlesTables tables.now places.old places.new) }
{
    let mut settled = TablesBuilder::new(alloc);
    let mut row = 0;
    'rows: while row < tables.len() {
        row = settle_next(alloc, tables, row, places, &mut settled)?;
    }
    settled.finish()
}

/// Settles the table at a row, and those that are kept together with it, and gives the row behind them.
#[cycle(settle)]
fn settle_next(
    alloc: Global,
    tables: &Tables,
    row: usize,
    places: &mut Places<'_>,
    settled: &mut TablesBuilder,
) -> Result<usize, Memory>
    requires row_in { row < length tables.now }
    requires enough { table_count (slice_index_or tables.now row no_table) ≤ length places.old }
    ensures more { IfOk result (λ next. row < next) }
    ensures within { IfOk result (λ next. next ≤ length tables.now) }
    ensures settled { IfOk result (λ next. SettlesMore (take (next - row) (drop row tables.now)) places.old places.new settled.old settled.new) }
{
    // Their number bounds every row.
    let _size = tables.len();
    let together = settled.push_pool(tables, row)?;
    if together > 0 {
        return Ok(row + together);
    }
    settled.push(settle_nested(alloc, tables.get(row), places)?)?;
    Ok(row + 1)
}

/// The table in a row. One that has no columns of its own has nothing due.
#[cycle(settle)]
fn settle_nested(
    alloc: Global,
    table: Nested<'_>,
    places: &mut Places<'_>,
) -> Result<Shared, Memory>
    requires { table_count table ≤ length places.old }
    ensures { IfOk result (SettlesTable table.entry places.old places.new) }
{
    match table.own() {
        Ok(own) => settle_table(alloc, own, places),
        Err(_) => table.to_shared(),
    }
}

fn settle_ints(column: &IntCol, places: &mut Places<'_>) -> Result<IntCol, Memory>
    requires { column_count (integers column.now) ≤ length places.old }
    ensures { IfOk result (λ settled. SettlesColumn (integers column.now) places.old places.new (integers settled)) }
{
    match column.home() {
        Some(_) => column.same(),
        None => ints_at(column, places.one()),
    }
}

/// The same numbers with this home.
fn ints_at(column: &IntCol, block: Span) -> Result<IntCol, Memory>
    ensures { IfOk result (λ settled. settled ≡ record column.now { home = Some block }) }
{
    let mut settled = column.same()?;
    settled.settle(block);
    Ok(settled)
}

fn settle_blobs(
    alloc: Global,
    column: &BytesCol,
    places: &mut Places<'_>,
) -> Result<BytesCol, Memory>
    requires { column_count (texts column.now) ≤ length places.old }
    ensures { IfOk result (λ settled. SettlesColumn (texts column.now) places.old places.new (texts settled)) }
{
    match column.home() {
        Some(_) => column.same(),
        None => blobs_at(alloc, column, places),
    }
}

/// The same values with the next spans as their home.
fn blobs_at(alloc: Global, column: &BytesCol, places: &mut Places<'_>) -> Result<BytesCol, Memory>
    requires { length (string_blocks column.now.values) ≤ length places.old }
    ensures { IfOk result (IsGivenHome column.now places.old places.new) }
{
    let memos = column.memo_rows(alloc)?.len();
    let sizes = places.one();
    let short = places.one();
    let memos = Spans::from(Vec::from_slice(alloc, places.many(memos))?);
    let mut settled = column.same()?;
    settled.settle(BytesHome {
        sizes,
        short,
        memos,
    });
    Ok(settled)
}
