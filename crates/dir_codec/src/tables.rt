// The columns of a table, and the tables inside a column.
ghost use Rattle.std.specs.Prelude.{◌≡◌, ◌≤◌, ◌++◌, ℕ, List, [], ◌∷◌, length, replicate};
ghost use Rattle.byteorder.specs.Endian.{little_bytes};
ghost use Rattle.mk_value.specs.Heading.{heading_of};
ghost use Rattle.mk_value.specs.Kinds.{domain_of};
ghost use Rattle.mk_value.specs.Limits.{max_rows};
ghost use Rattle.dir_codec.specs.Dir.{AreBodies, AreEntries, IsEntry, bodies_from, count_bodies, entries_from, spelled_bodies, spelled_entries, spelled_entry};
ghost use Rattle.dir_codec.specs.Fields.{Due, column_due, columns_due, row_count};
ghost use Rattle.dir_codec.specs.Reads.{GivesPart};
ghost use Rattle.dir_codec.specs.Values.{entry_of};

use crate::columns::{read_numbers, read_strings};
use crate::dir::{DirBodies, DirBody, DirCol, DirCols};
use crate::error::DirError;
use crate::fields::read_between;
use mk_value::{Kind, MAX_ROWS, Schema};
use std::alloc::Global;

/// A column of so many rows.
#[cycle(read)]
fn read_column(
    alloc: Global,
    bytes: &[u8],
    at: usize,
    end: u64,
    rows: u32,
    kind: &Kind,
) -> Result<(DirCol, usize), DirError>
    requires within { at ≤ length bytes.now }
    requires few { rows ≤ max_rows }
    ensures { (number : ℕ) → GivesPart number end (column_due rows (domain_of kind.now)) bytes.now at
        (λ column. IsEntry end rows (domain_of kind.now) (entry_of column)) (λ column. spelled_entry (entry_of column)) result }
{
    match kind {
        Kind::I => read_numbers(bytes, at, end, rows, 32),
        Kind::L => read_numbers(bytes, at, end, rows, 64),
        Kind::S | Kind::B => read_strings(alloc, bytes, at, end, rows),
        Kind::V(schema) => {
            let (bodies, next) = read_bodies(alloc, bytes, at, end, rows, schema)?;
            Ok((DirCol::Views(bodies), next))
        }
    }
}

/// The columns of a table of so many rows.
#[cycle(read)]
fn read_columns(
    alloc: Global,
    bytes: &[u8],
    at: usize,
    end: u64,
    rows: u32,
    schema: &Schema,
) -> Result<(DirCols, usize), DirError>
    requires within { at ≤ length bytes.now }
    requires few { rows ≤ max_rows }
    ensures { (number : ℕ) → GivesPart number end (columns_due rows (heading_of schema.now)) bytes.now at
        (λ columns. AreEntries end rows (heading_of schema.now) (entries_from columns)) (λ columns. spelled_entries (entries_from columns)) result }
{
    let mut columns = DirCols::with_capacity(alloc, schema.len())?;
    let mut place = at;
    for prop in schema.as_slice() {
        let (column, next) = read_column(alloc, bytes, place, end, rows, &prop.kind)?;
        place = next;
        columns.push(column)?;
    }
    Ok((columns, place))
}

/// So many tables, one for each row of a view column. Room is taken for a table once its bytes were read.
#[cycle(read)]
fn read_bodies(
    alloc: Global,
    bytes: &[u8],
    at: usize,
    end: u64,
    count: u32,
    schema: &Schema,
) -> Result<(DirBodies, usize), DirError>
    requires { at ≤ length bytes.now }
    ensures { (number : ℕ) → GivesPart number end (replicate count (row_count (heading_of schema.now))) bytes.now at
        (λ bodies. (count_bodies (bodies_from bodies) ≡ count) × AreBodies end (heading_of schema.now) (bodies_from bodies))
        (λ bodies. spelled_bodies (bodies_from bodies)) result }
{
    let mut bodies = DirBodies::new(alloc);
    let mut place = at;
    for done in 0..count {
        let (body, next) = read_body(alloc, bytes, place, end, schema)?;
        place = next;
        bodies.push(body)?;
    }
    Ok((bodies, place))
}

/// A table: how many rows it has, and its columns.
#[cycle(read)]
pub(crate) fn read_body(
    alloc: Global,
    bytes: &[u8],
    at: usize,
    end: u64,
    schema: &Schema,
) -> Result<(DirBody, usize), DirError>
    requires { at ≤ length bytes.now }
    ensures { (number : ℕ) → GivesPart number end (row_count (heading_of schema.now) ∷ []) bytes.now at
        (λ body. (body.rows ≤ max_rows) × AreEntries end body.rows (heading_of schema.now) (entries_from body.cols))
        (λ body. little_bytes 4 body.rows ++ spelled_entries (entries_from body.cols)) result }
{
    let rows = read_between(bytes, at, 0, MAX_ROWS as u32)?;
    let (cols, next) = read_columns(alloc, bytes, at + 4, end, rows, schema)?;
    Ok((DirBody { rows, cols }, next))
}
