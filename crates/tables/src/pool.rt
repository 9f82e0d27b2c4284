//! Small tables that are kept together: the rows of one after another in the same columns.
ghost use Rattle.std.specs.Prelude.{◌≡◌, ◌^◌, ◌<◌, ◌≤◌, [], ◌∷◌, ◌++◌, All, length, map, slice_index_or, Some, IfOk, OnOk};
ghost use Rattle.std.specs.List.{flat_map};
ghost use Rattle.mk_value.specs.Data.{AreRowsOf};
ghost use Rattle.mk_value.specs.Heading.{Domain, IsHeading};
ghost use Rattle.mk_value.specs.Kinds.{domain_of};
ghost use Rattle.mk_value.specs.Tables.{number_in};
ghost use Rattle.tables.specs.Build.{AreCells, HasColumn};
ghost use Rattle.tables.specs.Columns.{AreColumnsIn, IsColumnWith, home_of, home_of_numbers, home_of_strings};
ghost use Rattle.tables.specs.Compact.{IsCompact};
ghost use Rattle.tables.specs.Homes.{column_of, strings};
ghost use Rattle.tables.specs.Pools.{HasAllHomes, IsPlacedAt, IsPoolable, block_count, blocks_count, blocks_of_tables, ends_of as table_ends, home_at, homed_table, no_table, rows_of_tables};
ghost use Rattle.tables.specs.Rests.{blocks_of as home_blocks};
ghost use Rattle.tables.specs.Shapes.{HasHomes, IsHomeOf, bytes_in};
ghost use Rattle.tables.specs.Slices.{IsWithin, rows_in_slice};
ghost use Rattle.tables.specs.Stored.{stored_of};
ghost use Rattle.tables.specs.Tables.{IsTable};

use crate::build::{blobs_of_rows, ints_of_rows, table_of_rows};
use crate::slice::Slice;
use crate::{Block, Col, Cols, Shared, Table, share};
use bytes_col::{BytesCol, BytesHome};
use int_col::IntCol;
use mk_value::{Kind, Memory, Rows, Schema, Span, Spans, TableRead};
use std::alloc::Global;
use std::marker::Model;

/// Tables of one schema, all of whose columns are plain and have a home of blocks that go into six bytes, none of which is of a long value.
/// Nothing in it ever changes. A caller sees the tables.
#[cycle(table)]
#[derive(Drop)]
pub(crate) struct Pool {
    /// The rows of all, whose columns have no homes.
    table: Table,
    /// Where the rows of each table end.
    ends: Vec<u16>,
    /// The blocks of the homes of each table, in the order of the columns.
    blocks: Vec<Block>,
}

impl Model for Pool {
    ghost use Rattle.std.specs.Prelude.{List};
    ghost use Rattle.tables.specs.Columns.{tables_code};
    ghost use Rattle.tables.specs.Pools.{IsPool, parts};
    ghost use Rattle.tables.specs.Sizes.{pool_size};
    ghost use Rattle.tables.specs.Tables.{StoredTable};

    ghost Value = { List StoredTable };

    ghost coded = { tables_code };

    ghost view = { λ p. parts p.table p.ends.items p.blocks.items };

    ghost invariant = { λ p. IsPool p.table p.ends.items p.blocks.items };

    ghost size = { pool_size };

    ghost use Rattle.tables.specs.Falls.{pool_falls};

    ghost size_decreases = { λ p h. pool_falls p h };
}

impl Pool {
    /// The pool of these tables.
    pub(crate) fn of(
        alloc: Global,
        schema: &segments::Shared<Schema>,
        tables: &[Shared],
    ) -> Result<Pool, Memory>
        requires some { 0 < length tables.now }
        requires each { All (IsPoolable schema.now) tables.now }
        requires few { length tables.now ≤ 128 }
        ensures { IfOk result (λ pool. pool ≡ tables.now) }
    {
        let rows = rows_of(alloc, tables)?;
        Ok(Pool {
            table: table_of_rows(alloc, schema, &rows)?,
            ends: ends_of(alloc, tables)?,
            blocks: blocks_of(alloc, schema.get(), tables)?,
        })
    }

    /// How many tables there are.
    pub(crate) fn len(&self) -> usize
        ensures len { result ≡ length self.now }
        ensures some { 0 < result }
        ensures few { result ≤ 128 }
        ensures homes { All HasAllHomes self.now }
        ensures shaped { All HasHomes self.now }
    {
        self.ends.len()
    }

    pub(crate) fn allocator(&self) -> Global {
        *self.ends.allocator()
    }

    /// The schema of the tables, to be had together with them.
    pub(crate) fn shared_schema(&self) -> &segments::Shared<Schema>
        ensures { All (λ t. t.schema ≡ result.now) self.now }
    {
        self.table.shared_schema()
    }

    /// The schema of each of the tables.
    pub(crate) fn schema(&self) -> &Schema
        ensures each { All (λ t. t.schema ≡ result.now) self.now }
        ensures whole { IsHeading result.now }
    {
        self.table.schema()
    }

    /// One of the tables, in columns of its own.
    ///
    /// # Errors
    ///
    /// `Memory`.
    pub(crate) fn to_shared(&self, number: usize) -> Result<Shared, Memory>
        requires { number < length self.now }
        ensures { IfOk result (λ table. table ≡ slice_index_or self.now number no_table) }
    {
        let alloc = self.allocator();
        let rows = self.rows(number).to_rows(alloc)?;
        let blocks = self.blocks(number);
        let cols = homed_cols(alloc, self.schema(), &rows, blocks)?;
        let table = Table::of_columns(self.shared_schema(), rows.len(), cols)?;
        share(alloc, table)
    }

    /// The blocks of the homes of a table.
    pub(crate) fn blocks(&self, number: usize) -> &[Block]
        requires { number < length self.now }
        ensures { IsPlacedAt (slice_index_or self.now number no_table) result.now }
    {
        let width = blocks_of_schema(self.table.schema());
        let first = number * width;
        &self.blocks[first..first + width]
    }

    /// The rows of a table, among those of all.
    pub(crate) fn rows(&self, number: usize) -> Slice<'_>
        requires { number < length self.now }
        ensures within { IsWithin result }
        ensures rows { rows_in_slice result ≡ (slice_index_or self.now number no_table).rows }
        ensures count { result.count ≡ length (slice_index_or self.now number no_table).rows }
        ensures schema { result.table.now.schema ≡ (slice_index_or self.now number no_table).schema }
        ensures whole { IsTable (slice_index_or self.now number no_table) }
        ensures homes { HasHomes (slice_index_or self.now number no_table) }
    {
        let _rows = self.table.len();
        let from = start_of(&self.ends, number);
        let end = end_of(&self.ends, number);
        Slice {
            table: &self.table,
            from,
            count: end - from,
        }
    }
}

/// The columns of rows of a schema, with homes of these blocks.
fn homed_cols(alloc: Global, schema: &Schema, rows: &Rows, blocks: &[Block]) -> Result<Cols, Memory>
    requires rows { AreRowsOf rows.now schema.now }
    requires enough { blocks_count schema.now ≤ length blocks.now }
    requires shaped { HasHomes (homed_table schema.now rows.now blocks.now) }
    ensures { IfOk result (AreColumnsIn (homed_table schema.now rows.now blocks.now)) }
{
    let props = schema.as_slice();
    let mut cols = Cols::with_capacity(alloc, props.len())?;
    let mut next = 0;
    for at in 0..props.len() {
        let prop = &props[at];
        cols.push(homed_col(alloc, &prop.kind, rows, at, &blocks[next..])?)?;
        next += blocks_of_kind(&prop.kind);
    }
    Ok(cols)
}

/// The column of the values at a place of each row, with the home that has the first of these blocks.
fn homed_col(
    alloc: Global,
    kind: &Kind,
    rows: &Rows,
    at: usize,
    blocks: &[Block],
) -> Result<Col, Memory>
    requires cells { AreCells rows.now at (domain_of kind.now) }
    requires enough { block_count (domain_of kind.now) ≤ length blocks.now }
    requires shaped { IsHomeOf (home_at (domain_of kind.now) blocks.now) (domain_of kind.now) (column_of rows.now at) }
    ensures { IfOk result (λ col. IsColumnWith (domain_of kind.now) (column_of rows.now at) (home_at (domain_of kind.now) blocks.now) (stored_of col)) }
{
    match kind {
        Kind::I => Ok(Col::Ints(placed_ints(alloc, rows, at, blocks)?)),
        Kind::L => Ok(Col::Ints(placed_ints(alloc, rows, at, blocks)?)),
        Kind::S => Ok(Col::Blobs(placed_blobs(alloc, rows, at, blocks)?)),
        Kind::B => Ok(Col::Blobs(placed_blobs(alloc, rows, at, blocks)?)),
        Kind::V(_) => unreachable!(),
    }
}

/// The column of the numbers at a place of each row, with the first block as its home.
fn placed_ints(alloc: Global, rows: &Rows, at: usize, blocks: &[Block]) -> Result<IntCol, Memory>
    requires cells { HasColumn rows.now at }
    requires enough { 1 ≤ length blocks.now }
    ensures values { IfOk result (λ column. column.values ≡ map number_in (column_of rows.now at)) }
    ensures home { IfOk result (λ column. home_of_numbers column.home ≡ home_at Domain.integer blocks.now) }
{
    let column = ints_of_rows(alloc, rows, at)?;
    Ok(ints_at(column, blocks[0].span()))
}

/// The column of the texts or byte strings at a place of each row, with the first two blocks as its home.
fn placed_blobs(alloc: Global, rows: &Rows, at: usize, blocks: &[Block]) -> Result<BytesCol, Memory>
    requires cells { HasColumn rows.now at }
    requires enough { 2 ≤ length blocks.now }
    ensures values { IfOk result (λ column. column.values ≡ map bytes_in (column_of rows.now at)) }
    ensures home { IfOk result (λ column. home_of_strings column.home ≡ home_at Domain.text blocks.now) }
{
    let column = blobs_of_rows(alloc, rows, at)?;
    Ok(blobs_at(alloc, column, blocks[0].span(), blocks[1].span()))
}

/// The numbers with a home.
fn ints_at(column: IntCol, block: Span) -> IntCol
    ensures { result ≡ record column { home = Some block } }
{
    let mut homed = column;
    homed.settle(block);
    homed
}

/// The texts or byte strings with a home that has no blocks of long values.
fn blobs_at(alloc: Global, column: BytesCol, sizes: Span, short: Span) -> BytesCol
    ensures values { result.values ≡ column.values }
    ensures home { home_of_strings result.home ≡ strings sizes short [] }
{
    let mut homed = column;
    homed.settle(BytesHome {
        sizes,
        short,
        memos: Spans::new(alloc),
    });
    homed
}

/// How many blocks the home of a column of a kind has that has no long values.
fn blocks_of_kind(kind: &Kind) -> usize
    ensures { result ≡ block_count (domain_of kind.now) }
{
    match kind {
        Kind::I | Kind::L => 1,
        Kind::S | Kind::B => 2,
        Kind::V(_) => 0,
    }
}

/// How many blocks the homes of a table of a schema have.
fn blocks_of_schema(schema: &Schema) -> usize
    ensures { result ≡ blocks_count schema.now }
{
    let mut count = 0;
    for prop in schema.as_slice() {
        count += blocks_of_kind(&prop.kind);
    }
    count
}

/// The rows of tables, one after another.
fn rows_of(alloc: Global, tables: &[Shared]) -> Result<Rows, Memory>
    ensures { IfOk result (λ rows. rows ≡ rows_of_tables tables.now) }
{
    let mut rows = Rows::new(alloc);
    for table in tables {
        push_rows(alloc, &mut rows, table.table())?;
    }
    Ok(rows)
}

/// Appends the rows of a table.
fn push_rows(alloc: Global, rows: &mut Rows, table: &Table) -> Result<(), Memory>
    ensures { OnOk result (rows.new ≡ rows.old ++ table.now.rows) }
{
    for at in 0..table.len() {
        rows.push(table.row(alloc, at)?)?;
    }
    Ok(())
}

/// Where the rows of each table end among those of all.
fn ends_of(alloc: Global, tables: &[Shared]) -> Result<Vec<u16>, Memory>
    requires { length (rows_of_tables tables.now) ≤ 8192 }
    ensures { IfOk result (λ ends. ends.items ≡ table_ends 0 tables.now) }
{
    let mut ends = Vec::with_capacity(alloc, tables.len())?;
    let mut end = 0;
    for table in tables {
        end += table.table().len();
        ends.push(end as u16)?;
    }
    Ok(ends)
}

/// The blocks of the homes of tables of a schema, one after another, in a list with room for just these.
fn blocks_of(alloc: Global, schema: &Schema, tables: &[Shared]) -> Result<Vec<Block>, Memory>
    requires { All IsCompact (blocks_of_tables tables.now) }
    ensures { IfOk result (λ blocks. blocks.items ≡ blocks_of_tables tables.now) }
{
    let count = tables.len().saturating_mul(blocks_of_schema(schema));
    let mut blocks = Vec::with_capacity(alloc, count)?;
    for table in tables {
        push_blocks(&mut blocks, table.table().cols())?;
    }
    Ok(blocks)
}

/// Appends the blocks of the homes of columns.
fn push_blocks(blocks: &mut Vec<Block>, cols: &Cols) -> Result<(), Memory>
    requires { All IsCompact (flat_map home_blocks (map home_of cols.now)) }
    ensures { OnOk result (blocks.new.items ≡ blocks.old.items ++ flat_map home_blocks (map home_of cols.now)) }
{
    for col in cols.as_slice() {
        col.push_blocks(blocks)?;
    }
    Ok(())
}

/// Where the rows of a table begin: where those of the one before it end.
fn start_of(ends: &[u16], number: usize) -> usize
    requires { number < length ends.now }
    ensures { result ≡ slice_index_or (0 ∷ ends.now) number 0 }
{
    if number == 0 {
        return 0;
    }
    ends[number - 1] as usize
}

/// Where the rows of a table end.
fn end_of(ends: &[u16], number: usize) -> usize
    requires { number < length ends.now }
    ensures { result ≡ slice_index_or ends.now number 0 }
{
    ends[number] as usize
}
