//! The columns of a table.
ghost use Rattle.std.specs.Prelude.{◌≡◌, ◌+◌, ◌<◌, ◌≤◌, [], ◌∷◌, ◌++◌, length, map, slice_index_or, slice_set, All, IfOk, OnOk, OnErr};
ghost use Rattle.mk_value.specs.Data.{IsOf};
ghost use Rattle.mk_value.specs.Kinds.{domain_of};
ghost use Rattle.mk_value.specs.Values.{datum_of};
ghost use Rattle.tables.specs.Cells.{IsWholeColumn, IsSet, IsSetIn, HasNumber, HasString, HasView, with_number, with_string, with_view};
ghost use Rattle.std.specs.Bool.{OnTrue};
ghost use Rattle.tables.specs.Columns.{column_values, home_of, home_of_numbers, home_of_strings, no_column};
ghost use Rattle.tables.specs.Compact.{IsCompact};
ghost use Rattle.tables.specs.Pools.{IsSimpleHome};
ghost use Rattle.tables.specs.Rests.{blocks_of};
ghost use Rattle.tables.specs.Homes.{empty_homes_in, strings};
ghost use Rattle.tables.specs.Edits.{ArePutIn, AreWithout, HaveSome};
ghost use Rattle.tables.specs.Prepared.{AreReady, ArePushed};
ghost use Rattle.tables.specs.Stored.{stored_of};

use crate::block::is_compact;
use crate::build::inner_of_rows;
use crate::edits::{insert_rows, remove_rows};
use crate::prepared::push_row;
use crate::{Block, Shared, Tables};
use bytes_col::{BytesCol, BytesHome};
use int_col::IntCol;
use mk_value::{Kind, Memory, Prop, Schema, Span, Value};
use std::alloc::Global;
use std::marker::Model;

/// A column, by what is kept in it.
#[cycle(table)]
#[derive(Drop)]
pub enum Col {
    /// Numbers of 32 or of 64 bits.
    Ints(IntCol),
    /// Texts or byte strings.
    Blobs(BytesCol),
    /// The tables in the rows of a view.
    Views(Tables),
}

/// The columns of a table, in the order of its properties. A caller sees what is kept in each.
#[cycle(table)]
#[derive(Drop)]
pub struct Cols {
    items: Vec<Col>,
}

impl Model for Cols {
    ghost use Rattle.std.specs.Prelude.{List, map};
    ghost use Rattle.tables.specs.Columns.{StoredColumn, stored_columns_code};
    ghost use Rattle.tables.specs.Sizes.{columns_size};

    ghost Value = { List StoredColumn };

    ghost coded = { stored_columns_code };

    ghost use Rattle.tables.specs.Stored.{stored_of};

    ghost view = { λ c. map stored_of c.items.items };

    ghost size = { columns_size };

    ghost use Rattle.tables.specs.Falls.{cols_fall};

    ghost size_decreases = { λ c _. cols_fall c };
}

impl Cols {
    ghost use Rattle.tables.specs.Stored.{stored_of};

    /// No columns.
    pub fn new(alloc: Global) -> Cols
        ensures { result ≡ [] }
    {
        Cols {
            items: Vec::new(alloc),
        }
    }

    /// No columns, with room for so many and no more: a table inside a row has columns of its own, and there may be many.
    ///
    /// # Errors
    ///
    /// `Memory`.
    pub fn with_capacity(alloc: Global, count: usize) -> Result<Cols, Memory>
        ensures { IfOk result (λ cols. cols ≡ []) }
    {
        Ok(Cols {
            items: Vec::with_capacity(alloc, count)?,
        })
    }

    /// Adds a column behind the others.
    ///
    /// # Errors
    ///
    /// `Memory`, and the columns are as they were.
    pub fn push(&mut self, col: Col) -> Result<(), Memory>
        ensures ok { OnOk result (self.new ≡ self.old ++ stored_of col ∷ []) }
        ensures err { OnErr result (self.new ≡ self.old) }
    {
        self.items.push(col)?;
        Ok(())
    }

    /// The columns, in order.
    pub fn as_slice(&self) -> &[Col]
        ensures { map stored_of result.now ≡ self.now }
    {
        self.items.as_slice()
    }

    /// The allocator of the list.
    pub(crate) fn allocator(&self) -> Global {
        *self.items.allocator()
    }

    /// Puts a row at the end of the columns of so many rows. No copy of a column is changed.
    pub(crate) fn push_row(
        &mut self,
        rows: usize,
        props: &[Prop],
        values: &[Value],
    ) -> Result<(), Memory>
        requires few { rows < 16777216 }
        requires ready { AreReady rows props.now (map datum_of values.now) self.old }
        ensures ok { OnOk result (ArePushed rows props.now (map datum_of values.now) self.old self.new) }
        ensures err { OnErr result (self.new ≡ self.old) }
    {
        push_row(self.allocator(), rows, &mut self.items, props, values)
    }

    /// Puts copies of a row at a place of the columns of so many rows. No copy of a column is changed.
    pub(crate) fn insert_rows(
        &mut self,
        rows: usize,
        at: usize,
        props: &[Prop],
        values: &[Value],
        count: usize,
    ) -> Result<(), Memory>
        requires at { at ≤ rows }
        requires few { rows + count ≤ 16777216 }
        requires ready { AreReady rows props.now (map datum_of values.now) self.old }
        ensures ok { OnOk result (ArePutIn at count props.now (map datum_of values.now) self.old self.new) }
        ensures err { OnErr result (self.new ≡ self.old) }
    {
        insert_rows(
            self.allocator(),
            rows,
            at,
            &mut self.items,
            props,
            values,
            count,
        )
    }

    /// Removes so many rows from a place on. No copy of a column is changed.
    pub(crate) fn remove_rows(&mut self, at: usize, count: usize) -> Result<(), Memory>
        requires few { at + count ≤ 16777216 }
        requires within { HaveSome (at + count) self.old }
        ensures ok { OnOk result (AreWithout at count self.old self.new) }
        ensures err { OnErr result (self.new ≡ self.old) }
    {
        remove_rows(&mut self.items, at, count)
    }

    /// Gives the value at a row of a column another. No copy of the column is changed.
    pub(crate) fn set_value(
        &mut self,
        alloc: Global,
        kind: &Kind,
        col: usize,
        row: usize,
        value: &Value,
    ) -> Result<(), Memory>
        requires col { col < length self.old }
        requires whole { IsWholeColumn (domain_of kind.now) (slice_index_or self.old col no_column) }
        requires row { row < length (column_values (domain_of kind.now) (slice_index_or self.old col no_column)) }
        requires fits { IsOf (datum_of value.now) (domain_of kind.now) }
        ensures ok { OnOk result (IsSetIn self.old col (domain_of kind.now) row (datum_of value.now) (empty_homes_in (domain_of kind.now) (datum_of value.now)) self.new) }
        ensures err { OnErr result (self.new ≡ self.old) }
    {
        set_value(&mut self.items[col], alloc, kind, row, value)
    }

    /// Puts a table in place of the one at a row of a column of tables. No copy of the column is changed.
    pub(crate) fn set_view(&mut self, col: usize, row: usize, table: Shared) -> Result<(), Memory>
        requires col { col < length self.old }
        requires row { HasView (slice_index_or self.old col no_column) row }
        ensures ok { OnOk result (self.new ≡ slice_set self.old col (with_view row table (slice_index_or self.old col no_column))) }
        ensures err { OnErr result (self.new ≡ self.old) }
    {
        set_view(&mut self.items[col], row, table)
    }

    /// The same columns, which share all that is kept in them.
    ///
    /// # Errors
    ///
    /// `Memory`.
    pub fn same(&self) -> Result<Cols, Memory>
        ensures { IfOk result (λ cols. cols ≡ self.now) }
    {
        let mut cols = Cols::with_capacity(self.allocator(), self.items.len())?;
        for col in self.items.iter() {
            cols.push(col.same()?)?;
        }
        Ok(cols)
    }
}

impl Col {
    ghost use Rattle.tables.specs.Stored.{stored_of};

    /// The same column, which shares all that is kept in it.
    ///
    /// # Errors
    ///
    /// `Memory`.
    pub fn same(&self) -> Result<Col, Memory>
        ensures { IfOk result (λ copy. stored_of copy ≡ stored_of self.now) }
    {
        match self {
            Col::Ints(column) => Ok(Col::Ints(column.same()?)),
            Col::Blobs(column) => Ok(Col::Blobs(column.same()?)),
            Col::Views(tables) => Ok(Col::Views(tables.same()?)),
        }
    }

    /// Whether the column has a home of blocks that go into six bytes, none of which is of a long value. One of tables has none.
    fn has_simple_home(&self) -> bool
        ensures { OnTrue result (IsSimpleHome (home_of (stored_of self.now))) }
    {
        match self {
            Col::Ints(column) => is_simple_block(column.home()),
            Col::Blobs(column) => has_simple_strings(column),
            Col::Views(_) => false,
        }
    }

    /// Appends the blocks of the home of a column, each of which goes into six bytes. One of tables has none.
    pub(crate) fn push_blocks(&self, blocks: &mut Vec<Block>) -> Result<(), Memory>
        requires { All IsCompact (blocks_of (home_of (stored_of self.now))) }
        ensures { OnOk result (blocks.new.items ≡ blocks.old.items ++ blocks_of (home_of (stored_of self.now))) }
    {
        match self {
            Col::Ints(column) => push_block(blocks, column.home()),
            Col::Blobs(column) => push_home(blocks, column),
            Col::Views(_) => Ok(()),
        }
    }

    /// The schema of a table of a column of tables, if there is one.
    pub(crate) fn inner_schema(&self) -> Option<&segments::Shared<Schema>> {
        match self {
            Col::Views(tables) => tables.schema(),
            _ => None,
        }
    }

    /// Whether both columns have the same home, and that is a home of a column without values.
    fn has_same_empty_home(&self, other: &Col) -> bool
        ensures { OnTrue result (home_of (stored_of self.now) ≡ home_of (stored_of other.now)) }
    {
        match (self, other) {
            (Col::Ints(one), Col::Ints(two)) => is_same_span(one.home(), two.home()),
            (Col::Blobs(one), Col::Blobs(two)) => have_same_empty_home(one, two),
            (Col::Views(one), Col::Views(two)) => one.is_empty() && two.is_empty(),
            _ => false,
        }
    }
}

/// Whether all columns have homes of blocks that go into six bytes, none of which is of a long value.
pub(crate) fn have_simple_homes(cols: &[Col]) -> bool
    ensures { OnTrue result (All (λ c. IsSimpleHome (home_of (stored_of c))) cols.now) }
{
    for col in cols {
        if !col.has_simple_home() {
            return false;
        }
    }
    true
}

/// Whether a column of numbers has a home, and its block goes into six bytes.
fn is_simple_block(block: Option<Span>) -> bool
    ensures { OnTrue result (IsSimpleHome (home_of_numbers block)) }
{
    match block {
        Some(block) => is_compact(block),
        None => false,
    }
}

/// Whether a column of texts or byte strings has a home of blocks that go into six bytes, none of which is of a long value.
fn has_simple_strings(column: &BytesCol) -> bool
    ensures { OnTrue result (IsSimpleHome (home_of_strings column.now.home)) }
{
    match column.home() {
        Some(home) => is_simple_home(home),
        None => false,
    }
}

/// Whether the blocks of a home go into six bytes, and none is of a long value.
fn is_simple_home(home: &BytesHome) -> bool
    ensures { OnTrue result (IsSimpleHome (strings home.now.sizes home.now.short home.now.memos)) }
{
    home.memos.is_empty() && is_compact(home.sizes) && is_compact(home.short)
}

/// Appends a block, if there is one.
fn push_block(blocks: &mut Vec<Block>, block: Option<Span>) -> Result<(), Memory>
    requires { All IsCompact (blocks_of (home_of_numbers block)) }
    ensures { OnOk result (blocks.new.items ≡ blocks.old.items ++ blocks_of (home_of_numbers block)) }
{
    match block {
        Some(block) => push_span(blocks, block),
        None => Ok(()),
    }
}

/// Appends the blocks of the home of a column of texts or byte strings.
fn push_home(blocks: &mut Vec<Block>, column: &BytesCol) -> Result<(), Memory>
    requires { All IsCompact (blocks_of (home_of_strings column.now.home)) }
    ensures { OnOk result (blocks.new.items ≡ blocks.old.items ++ blocks_of (home_of_strings column.now.home)) }
{
    match column.home() {
        Some(home) => push_strings(blocks, home),
        None => Ok(()),
    }
}

/// Appends the blocks of a home.
fn push_strings(blocks: &mut Vec<Block>, home: &BytesHome) -> Result<(), Memory>
    requires { All IsCompact (home.now.sizes ∷ home.now.short ∷ home.now.memos) }
    ensures { OnOk result (blocks.new.items ≡ blocks.old.items ++ home.now.sizes ∷ home.now.short ∷ home.now.memos) }
{
    push_span(blocks, home.sizes)?;
    push_span(blocks, home.short)?;
    push_spans(blocks, home.memos.as_slice())
}

/// Appends the blocks of spans.
fn push_spans(blocks: &mut Vec<Block>, spans: &[Span]) -> Result<(), Memory>
    requires { All IsCompact spans.now }
    ensures { OnOk result (blocks.new.items ≡ blocks.old.items ++ spans.now) }
{
    for span in spans {
        push_span(blocks, *span)?;
    }
    Ok(())
}

/// Appends the block of a span.
fn push_span(blocks: &mut Vec<Block>, span: Span) -> Result<(), Memory>
    requires { IsCompact span }
    ensures { OnOk result (blocks.new.items ≡ blocks.old.items ++ span ∷ []) }
{
    blocks.push(Block::of(span))?;
    Ok(())
}

/// Whether columns without values have the same homes.
pub(crate) fn have_same_empty_homes(ones: &[Col], twos: &[Col]) -> bool
    ensures { OnTrue result (map home_of (map stored_of ones.now) ≡ map home_of (map stored_of twos.now)) }
{
    if ones.len() != twos.len() {
        return false;
    }
    for at in 0..ones.len() {
        if !ones[at].has_same_empty_home(&twos[at]) {
            return false;
        }
    }
    true
}

/// Whether both are none, or the same span.
fn is_same_span(one: Option<Span>, two: Option<Span>) -> bool
    ensures { OnTrue result (one ≡ two) }
{
    match (one, two) {
        (None, None) => true,
        (Some(one), Some(two)) => one == two,
        _ => false,
    }
}

/// Whether both columns have no home, or the same one without blocks of long values.
fn have_same_empty_home(one: &BytesCol, two: &BytesCol) -> bool
    ensures { OnTrue result (one.now.home ≡ two.now.home) }
{
    match (one.home(), two.home()) {
        (None, None) => true,
        (Some(one), Some(two)) => is_same_empty_home(one, two),
        _ => false,
    }
}

/// Whether two homes are the same, and have no blocks of long values.
fn is_same_empty_home(one: &BytesHome, two: &BytesHome) -> bool
    ensures { OnTrue result (one.now ≡ two.now) }
{
    one.sizes == two.sizes && one.short == two.short && one.memos.is_empty() && two.memos.is_empty()
}

/// Sets a number in a column of numbers.
fn set_number(col: &mut Col, row: usize, number: i64) -> Result<(), Memory>
    requires { HasNumber (stored_of col.old) row }
    ensures ok { OnOk result (stored_of col.new ≡ with_number row number (stored_of col.old)) }
    ensures err { OnErr result (stored_of col.new ≡ stored_of col.old) }
{
    let Col::Ints(column) = col else {
        unreachable!()
    };
    column.set(row, number)
}

/// Sets a text or a byte string in a column of them.
fn set_blob(col: &mut Col, row: usize, value: &[u8]) -> Result<(), Memory>
    requires { HasString (stored_of col.old) row }
    ensures ok { OnOk result (stored_of col.new ≡ with_string row value.now (stored_of col.old)) }
    ensures err { OnErr result (stored_of col.new ≡ stored_of col.old) }
{
    let Col::Blobs(column) = col else {
        unreachable!()
    };
    column.set(row, value)
}

/// Sets a table in a column of tables.
fn set_view(col: &mut Col, row: usize, table: Shared) -> Result<(), Memory>
    requires { HasView (stored_of col.old) row }
    ensures ok { OnOk result (stored_of col.new ≡ with_view row table (stored_of col.old)) }
    ensures err { OnErr result (stored_of col.new ≡ stored_of col.old) }
{
    let Col::Views(tables) = col else {
        unreachable!()
    };
    tables.set(row, table)
}

/// Gives the value at a row of a column another.
fn set_value(
    col: &mut Col,
    alloc: Global,
    kind: &Kind,
    row: usize,
    value: &Value,
) -> Result<(), Memory>
    requires whole { IsWholeColumn (domain_of kind.now) (stored_of col.old) }
    requires row { row < length (column_values (domain_of kind.now) (stored_of col.old)) }
    requires fits { IsOf (datum_of value.now) (domain_of kind.now) }
    ensures ok { OnOk result (IsSet (stored_of col.old) (domain_of kind.now) row (datum_of value.now) (empty_homes_in (domain_of kind.now) (datum_of value.now)) (stored_of col.new)) }
    ensures err { OnErr result (stored_of col.new ≡ stored_of col.old) }
{
    match value {
        Value::I(number) => set_number(col, row, i64::from(*number)),
        Value::L(number) => set_number(col, row, *number),
        Value::S(text) => set_blob(col, row, text.as_str().as_bytes()),
        Value::B(bytes) => set_blob(col, row, bytes.as_slice()),
        Value::V(rows) => {
            let table = inner_of_rows(alloc, kind, rows, col.inner_schema())?;
            set_view(col, row, table)
        }
    }
}
