// The columns of a directory, with the tables inside them.
ghost use Rattle.std.specs.Prelude.{◌≡◌, ◌+◌, ◌*◌, ◌^◌, ◌<◌, ◌≤◌, length, IfErr, IfOk, IsErrOf};
ghost use Rattle.mk_value.specs.Heading.{heading_of};
ghost use Rattle.mk_value.specs.Kinds.{domain_of};
ghost use Rattle.host_io.specs.Calls.{CountsFaults, Looks};
ghost use Rattle.dir_codec.specs.Columns.{plain_bodies, plain_entries, plain_entry};
ghost use Rattle.dir_codec.specs.Dir.{AreBodies, AreEntries, Entry, IsEntry, bodies_from, entries_from, spelled_bodies, spelled_entries, spelled_entry};
ghost use Rattle.dir_codec.specs.Values.{entry_of};
ghost use Rattle.tables.specs.Columns.{AreColumnsOf, IsColumnOf as IsStoredOf};
ghost use Rattle.tables.specs.Stored.{stored_of};
ghost use Rattle.recovery.specs.Contents.{content_in};
ghost use Rattle.recovery.specs.Found.{AreColumnsFound, AreColumnsRead, AreFormed, AreTablesFound, AreTablesRead, EndsWithin, HasForm, HasLength, IsColumnFound, IsColumnRead, IsTableFound, IsTableRead, NamesUnreadable, located};

use crate::contents::Content;
use crate::error::{ColumnsError, ReadError};
use crate::numbers::read_numbers;
use crate::strings::{StringBlocks, read_strings};
use bit_pack::Width;
use dir_codec::{DirBodies, DirBody, DirCol, DirCols, Memo};
use host_io::Disk;
use mk_value::{Kind, Schema, Span};
use segments::Shared;
use std::alloc::Global;
use tables::{Col, Cols, Table, Tables, TablesBuilder, share};

/// What a directory has of a width and a span, of the count of memos, and of a memo, in bytes.
const NUMBERS_LEN: u64 = 17;

const STRINGS_LEN: u64 = 37;

const MEMO_LEN: u64 = 20;

const COUNT_LEN: u64 = 4;

/// Why columns are not read, where the one at this offset is not.
fn at_column(error: ReadError, at: u64) -> ColumnsError
    ensures { result ≡ located at error }
{
    match error {
        ReadError::Unreadable => ColumnsError::At(at),
        ReadError::Failed => ColumnsError::Failed,
        ReadError::Memory => ColumnsError::Memory,
    }
}

/// Reads a column of numbers.
fn read_number_column<D: Disk>(
    alloc: Global,
    disk: &mut D,
    kind: &Kind,
    width: Width,
    block: Span,
    rows: u32,
    at: u64,
) -> Result<Col, ColumnsError>
    requires few { rows ≤ 16777216 }
    requires fits { EndsWithin D.tells (length (D.outside disk.old).now.disk.seen) (λ end. IsEntry end rows (domain_of kind.now) (Entry.numbers width block)) }
    ensures counts { CountsFaults (IsErrOf result ColumnsError.Failed) (D.outside disk.old) (D.outside disk.new) }
    ensures same { D.tells → Looks (D.outside disk.old) (D.outside disk.new) }
    ensures whole { IfOk result (λ col. IsStoredOf rows (domain_of kind.now) (stored_of col)) }
    ensures made { IfOk result (λ col. IsColumnFound HasLength (domain_of kind.now) (Entry.numbers width block) (stored_of col)) }
    ensures column { D.tells → IfOk result (λ col.
        IsColumnRead (D.outside disk.old).now.disk.seen (domain_of kind.now) (Entry.numbers width block) rows at (stored_of col)) }
    ensures unreadable { D.tells → IfErr result
        (NamesUnreadable (D.outside disk.old).now.disk.seen (plain_entry (Entry.numbers width block) (domain_of kind.now) at rows)) }
{
    match read_numbers(alloc, disk, width, block, rows) {
        Ok(column) => Ok(Col::Ints(column)),
        Err(error) => Err(at_column(error, at)),
    }
}

/// Reads a column of texts or byte strings.
fn read_string_column<D: Disk>(
    alloc: Global,
    disk: &mut D,
    kind: &Kind,
    blocks: StringBlocks,
    memos: &[Memo],
    rows: u32,
    at: u64,
) -> Result<Col, ColumnsError>
    requires few { rows ≤ 16777216 }
    requires fits { EndsWithin D.tells (length (D.outside disk.old).now.disk.seen)
        (λ end. IsEntry end rows (domain_of kind.now) (Entry.strings blocks.width blocks.sizes blocks.short memos.now)) }
    ensures counts { CountsFaults (IsErrOf result ColumnsError.Failed) (D.outside disk.old) (D.outside disk.new) }
    ensures same { D.tells → Looks (D.outside disk.old) (D.outside disk.new) }
    ensures whole { IfOk result (λ col. IsStoredOf rows (domain_of kind.now) (stored_of col)) }
    ensures made { IfOk result (λ col. IsColumnFound HasLength (domain_of kind.now)
        (Entry.strings blocks.width blocks.sizes blocks.short memos.now) (stored_of col)) }
    ensures column { D.tells → IfOk result (λ col. IsColumnRead (D.outside disk.old).now.disk.seen (domain_of kind.now)
        (Entry.strings blocks.width blocks.sizes blocks.short memos.now) rows at (stored_of col)) }
    ensures unreadable { D.tells → IfErr result (NamesUnreadable (D.outside disk.old).now.disk.seen
        (plain_entry (Entry.strings blocks.width blocks.sizes blocks.short memos.now) (domain_of kind.now) at rows)) }
{
    match read_strings(alloc, disk, blocks, memos, rows, content_of(kind)) {
        Ok(column) => Ok(Col::Blobs(column)),
        Err(error) => Err(at_column(error, at)),
    }
}

/// What the values of a column of texts or byte strings are.
fn content_of(kind: &Kind) -> Content
    ensures { result ≡ content_in (domain_of kind.now) }
{
    match kind {
        Kind::S => Content::Texts,
        _ => Content::Strings,
    }
}

/// Reads a column of which the directory has the first byte at this offset, and gives the offset behind its last.
#[cycle(read)]
fn read_column<D: Disk>(
    alloc: Global,
    disk: &mut D,
    kind: &Kind,
    column: &DirCol,
    rows: u32,
    at: u64,
) -> Result<(Col, u64), ColumnsError>
    requires few { rows ≤ 16777216 }
    requires fits { EndsWithin D.tells (length (D.outside disk.old).now.disk.seen) (λ end. IsEntry end rows (domain_of kind.now) (entry_of column.now)) }
    requires room { at + length (spelled_entry (entry_of column.now)) < 2 ^ 64 }
    ensures counts { CountsFaults (IsErrOf result ColumnsError.Failed) (D.outside disk.old) (D.outside disk.new) }
    ensures same { D.tells → Looks (D.outside disk.old) (D.outside disk.new) }
    ensures next { IfOk result (λ r. r.1 ≡ at + length (spelled_entry (entry_of column.now))) }
    ensures whole { IfOk result (λ r. IsStoredOf rows (domain_of kind.now) (stored_of r.0)) }
    ensures made { IfOk result (λ r. IsColumnFound HasLength (domain_of kind.now) (entry_of column.now) (stored_of r.0)) }
    ensures column { D.tells → IfOk result (λ r.
        IsColumnRead (D.outside disk.old).now.disk.seen (domain_of kind.now) (entry_of column.now) rows at (stored_of r.0)) }
    ensures unreadable { D.tells → IfErr result
        (NamesUnreadable (D.outside disk.old).now.disk.seen (plain_entry (entry_of column.now) (domain_of kind.now) at rows)) }
{
    match column {
        DirCol::Ints { width, span } => {
            let col = read_number_column(alloc, disk, kind, *width, *span, rows, at)?;
            Ok((col, at + NUMBERS_LEN))
        }
        DirCol::Blobs {
            width,
            sizes,
            short,
            memos,
        } => {
            let blocks = StringBlocks {
                width: *width,
                sizes: *sizes,
                short: *short,
            };
            let held = memos.as_slice();
            let col = read_string_column(alloc, disk, kind, blocks, held, rows, at)?;
            Ok((col, at + STRINGS_LEN + MEMO_LEN * held.len() as u64))
        }
        DirCol::Views(bodies) => {
            let Kind::V(schema) = kind else {
                unreachable!()
            };
            let (tables, next) = read_bodies(alloc, disk, schema, bodies, at)?;
            Ok((Col::Views(tables), next))
        }
    }
}

/// Reads the columns of a table of so many rows.
#[cycle(read)]
fn read_columns<D: Disk>(
    alloc: Global,
    disk: &mut D,
    schema: &Schema,
    columns: &DirCols,
    rows: u32,
    at: u64,
) -> Result<(Cols, u64), ColumnsError>
    requires few { rows ≤ 16777216 }
    requires fits { EndsWithin D.tells (length (D.outside disk.old).now.disk.seen) (λ end. AreEntries end rows (heading_of schema.now) (entries_from columns.now)) }
    requires room { at + length (spelled_entries (entries_from columns.now)) < 2 ^ 64 }
    ensures counts { CountsFaults (IsErrOf result ColumnsError.Failed) (D.outside disk.old) (D.outside disk.new) }
    ensures same { D.tells → Looks (D.outside disk.old) (D.outside disk.new) }
    ensures next { IfOk result (λ r. r.1 ≡ at + length (spelled_entries (entries_from columns.now))) }
    ensures whole { IfOk result (λ r. AreColumnsOf rows schema.now r.0) }
    ensures made { IfOk result (λ r. AreColumnsFound HasLength schema.now columns.now r.0) }
    ensures columns { D.tells → IfOk result (λ r.
        AreColumnsRead (D.outside disk.old).now.disk.seen schema.now columns.now rows at r.0) }
    ensures unreadable { D.tells → IfErr result
        (NamesUnreadable (D.outside disk.old).now.disk.seen (plain_entries (entries_from columns.now) (heading_of schema.now) at rows)) }
{
    let props = schema.as_slice();
    let items = columns.as_slice();
    let mut cols = Cols::with_capacity(alloc, props.len())?;
    let mut next = at;
    for k in 0..props.len() {
        let prop = &props[k];
        let item = &items[k];
        let (col, behind) = read_column(alloc, disk, &prop.kind, item, rows, next)?;
        cols.push(col)?;
        next = behind;
    }
    Ok((cols, next))
}

/// Reads the tables in the rows of a view column, which share its schema.
#[cycle(read)]
fn read_bodies<D: Disk>(
    alloc: Global,
    disk: &mut D,
    schema: &Schema,
    bodies: &DirBodies,
    at: u64,
) -> Result<(Tables, u64), ColumnsError>
    requires fits { EndsWithin D.tells (length (D.outside disk.old).now.disk.seen) (λ end. AreBodies end (heading_of schema.now) (bodies_from bodies.now)) }
    requires room { at + length (spelled_bodies (bodies_from bodies.now)) < 2 ^ 64 }
    ensures counts { CountsFaults (IsErrOf result ColumnsError.Failed) (D.outside disk.old) (D.outside disk.new) }
    ensures same { D.tells → Looks (D.outside disk.old) (D.outside disk.new) }
    ensures next { IfOk result (λ r. r.1 ≡ at + length (spelled_bodies (bodies_from bodies.now))) }
    ensures whole { IfOk result (λ r. AreFormed schema.now bodies.now r.0) }
    ensures made { IfOk result (λ r. AreTablesFound HasLength bodies.now r.0) }
    ensures tables { D.tells → IfOk result (λ r. AreTablesRead (D.outside disk.old).now.disk.seen schema.now bodies.now at r.0) }
    ensures unreadable { D.tells → IfErr result
        (NamesUnreadable (D.outside disk.old).now.disk.seen (plain_bodies (bodies_from bodies.now) (heading_of schema.now) at)) }
{
    let shared = Shared::of(alloc, schema.copy()?)?;
    read_each(alloc, disk, &shared, bodies, at)
}

/// The same, where the schema is shared already.
#[cycle(read)]
fn read_each<D: Disk>(
    alloc: Global,
    disk: &mut D,
    schema: &Shared<Schema>,
    bodies: &DirBodies,
    at: u64,
) -> Result<(Tables, u64), ColumnsError>
    requires fits { EndsWithin D.tells (length (D.outside disk.old).now.disk.seen) (λ end. AreBodies end (heading_of schema.now) (bodies_from bodies.now)) }
    requires room { at + length (spelled_bodies (bodies_from bodies.now)) < 2 ^ 64 }
    ensures counts { CountsFaults (IsErrOf result ColumnsError.Failed) (D.outside disk.old) (D.outside disk.new) }
    ensures same { D.tells → Looks (D.outside disk.old) (D.outside disk.new) }
    ensures next { IfOk result (λ r. r.1 ≡ at + length (spelled_bodies (bodies_from bodies.now))) }
    ensures whole { IfOk result (λ r. AreFormed schema.now bodies.now r.0) }
    ensures made { IfOk result (λ r. AreTablesFound HasLength bodies.now r.0) }
    ensures tables { D.tells → IfOk result (λ r. AreTablesRead (D.outside disk.old).now.disk.seen schema.now bodies.now at r.0) }
    ensures unreadable { D.tells → IfErr result
        (NamesUnreadable (D.outside disk.old).now.disk.seen (plain_bodies (bodies_from bodies.now) (heading_of schema.now) at)) }
{
    let mut tables = TablesBuilder::new(alloc);
    let mut next = at;
    for body in bodies.as_slice() {
        let (table, behind) = read_table(alloc, disk, schema, body, next + COUNT_LEN)?;
        tables.push(share(alloc, table)?)?;
        next = behind;
    }
    Ok((tables.finish()?, next))
}

/// Reads a table, of which the directory has the first column at this offset. It has the schema together with others.
#[cycle(read)]
pub(crate) fn read_table<D: Disk>(
    alloc: Global,
    disk: &mut D,
    schema: &Shared<Schema>,
    body: &DirBody,
    at: u64,
) -> Result<(Table, u64), ColumnsError>
    requires few { body.now.rows ≤ 16777216 }
    requires fits { EndsWithin D.tells (length (D.outside disk.old).now.disk.seen)
        (λ end. AreEntries end body.now.rows (heading_of schema.now) (entries_from body.now.cols)) }
    requires room { at + length (spelled_entries (entries_from body.now.cols)) < 2 ^ 64 }
    ensures counts { CountsFaults (IsErrOf result ColumnsError.Failed) (D.outside disk.old) (D.outside disk.new) }
    ensures same { D.tells → Looks (D.outside disk.old) (D.outside disk.new) }
    ensures next { IfOk result (λ r. r.1 ≡ at + length (spelled_entries (entries_from body.now.cols))) }
    ensures whole { IfOk result (λ r. HasForm schema.now body.now.rows r.0) }
    ensures made { IfOk result (λ r. IsTableFound HasLength (entries_from body.now.cols) r.0) }
    ensures table { D.tells → IfOk result (λ r.
        IsTableRead (D.outside disk.old).now.disk.seen schema.now body.now.cols body.now.rows at r.0) }
    ensures unreadable { D.tells → IfErr result (NamesUnreadable (D.outside disk.old).now.disk.seen
        (plain_entries (entries_from body.now.cols) (heading_of schema.now) at body.now.rows)) }
{
    let (cols, next) = read_columns(alloc, disk, schema.get(), &body.cols, body.rows, at)?;
    let table = Table::of_columns(schema, body.rows as usize, cols)?;
    Ok((table, next))
}
