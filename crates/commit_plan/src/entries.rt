//! The directory of views and notes.
ghost use Rattle.std.specs.Prelude.{◌≡◌, map, IfOk};
ghost use Rattle.std.specs.List.{AllZip};
ghost use Rattle.bytes_col.specs.Strings.{memo_rows};
ghost use Rattle.dir_codec.specs.Values.{body_of, entry_of, note_of, view_of};
ghost use Rattle.tables.specs.Columns.{integers, texts};
ghost use Rattle.tables.specs.Stored.{stored_of};
ghost use Rattle.recovery.specs.Commits.{memos_at, strings_entry, view_entry};
ghost use Rattle.commit_plan.specs.Entries.{IsBodyOf, no_entry, stored_entry};

use bit_pack::Width;
use bytes_col::{BytesCol, BytesHome};
use dir_codec::{DirBodies, DirBody, DirCol, DirCols, DirView, DirViews, Memo, Memos};
use int_col::IntCol;
use mk_value::{Memory, Name, Span, TableRead};
use std::alloc::Global;
use tables::{Col, Cols, Shared, Table, Tables};
use view_store::Views;

/// What a directory has of views.
///
/// # Errors
///
/// `Memory`.
pub(crate) fn entries_of_views(alloc: Global, views: &Views) -> Result<DirViews, Memory>
    ensures { IfOk result (λ entries. map view_of entries ≡ map view_entry views.now) }
{
    let names = views.names().as_slice();
    let tables = views.tables();
    let mut entries = DirViews::new(alloc);
    'views: for at in 0..tables.len() {
        entries.push(dir_view(alloc, &names[at], &tables[at])?)?;
    }
    Ok(entries)
}

fn dir_view(alloc: Global, name: &Name, shared: &Shared) -> Result<DirView, Memory>
    ensures { IfOk result (λ entry. view_of entry ≡ view_entry (record { name = name.now; table = shared.now })) }
{
    let table = shared.table();
    Ok(DirView {
        name: name.copy()?,
        schema: table.schema().copy()?,
        body: table_body(alloc, table)?,
    })
}

#[cycle(entries)]
fn table_body(alloc: Global, table: &Table) -> Result<DirBody, Memory>
    ensures { IfOk result (λ body. IsBodyOf table.now (body_of body)) }
{
    Ok(DirBody {
        rows: table.len() as u32,
        cols: cols_entries(alloc, table.cols())?,
    })
}

#[cycle(entries)]
fn cols_entries(alloc: Global, cols: &Cols) -> Result<DirCols, Memory>
    ensures { IfOk result (λ entries. entries ≡ map stored_entry cols.now) }
{
    let mut entries = DirCols::with_capacity(alloc, cols.as_slice().len())?;
    'cols: for col in cols.as_slice() {
        entries.push(col_entry(alloc, col)?)?;
    }
    Ok(entries)
}

#[cycle(entries)]
fn col_entry(alloc: Global, col: &Col) -> Result<DirCol, Memory>
    ensures { IfOk result (λ entry. entry_of entry ≡ stored_entry (stored_of col.now)) }
{
    match col {
        Col::Ints(column) => Ok(ints_entry(column)),
        Col::Blobs(column) => blobs_entry(alloc, column),
        Col::Views(tables) => Ok(DirCol::Views(tables_bodies(alloc, tables)?)),
    }
}

#[cycle(entries)]
fn tables_bodies(alloc: Global, tables: &Tables) -> Result<DirBodies, Memory>
    ensures { IfOk result (AllZip IsBodyOf tables.now) }
{
    let mut bodies = DirBodies::new(alloc);
    'rows: for row in 0..tables.len() {
        let inner = tables.get(row).to_shared()?;
        bodies.push(table_body(alloc, inner.table())?)?;
    }
    Ok(bodies)
}

/// What a directory has of a column without a home.
fn without_home() -> DirCol
    ensures { entry_of result ≡ no_entry }
{
    DirCol::Ints {
        width: Width::W0,
        span: Span { place: 0, len: 0 },
    }
}

fn ints_entry(column: &IntCol) -> DirCol
    ensures { entry_of result ≡ stored_entry (integers column.now) }
{
    match column.home() {
        Some(span) => DirCol::Ints {
            width: column.width(),
            span,
        },
        None => without_home(),
    }
}

fn blobs_entry(alloc: Global, column: &BytesCol) -> Result<DirCol, Memory>
    ensures { IfOk result (λ entry. entry_of entry ≡ stored_entry (texts column.now)) }
{
    match column.home() {
        Some(home) => homed_blobs(alloc, column, home),
        None => Ok(without_home()),
    }
}

fn homed_blobs(alloc: Global, column: &BytesCol, home: &BytesHome) -> Result<DirCol, Memory>
    ensures { IfOk result (λ entry. entry_of entry ≡ strings_entry column.now.values home.now.sizes home.now.short home.now.memos) }
{
    let rows = column.memo_rows(alloc)?;
    Ok(DirCol::Blobs {
        width: column.sizes().width(),
        sizes: home.sizes,
        short: home.short,
        memos: memos_of(alloc, rows.as_slice(), home.memos.as_slice())?,
    })
}

fn memos_of(alloc: Global, rows: &[u32], spans: &[Span]) -> Result<Memos, Memory>
    ensures { IfOk result (λ memos. memos ≡ memos_at rows.now spans.now) }
{
    let mut memos = Memos::new(alloc);
    'memos: for at in 0..rows.len().min(spans.len()) {
        memos.push(Memo {
            row: rows[at],
            span: spans[at],
        })?;
    }
    Ok(memos)
}
