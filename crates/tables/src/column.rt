//! A column of a table as it is read.
ghost use Rattle.std.specs.Prelude.{◌≡◌, None, ◌+◌, ◌<◌, ◌≤◌, [], length, map, take, drop, replicate, slice_index_or, pos, IfOk};
ghost use Rattle.std.specs.Str.{IsUtf8};
ghost use Rattle.mk_value.specs.Data.{Datum, default_of as default_datum, integer, IsOf};
ghost use Rattle.mk_value.specs.Heading.{Domain};
ghost use Rattle.mk_value.specs.Kinds.{domain_of};
ghost use Rattle.mk_value.specs.Lending.{Lends};
ghost use Rattle.mk_value.specs.Order.{value_cmp};
ghost use Rattle.mk_value.specs.Tables.{AreNumbers, IsComparable, IsPlainDomain, number_in};
ghost use Rattle.mk_value.specs.Values.{datum_of};
ghost use Rattle.tables.specs.Columns.{IsColumnWith, home_of, integers, texts, views};
ghost use Rattle.tables.specs.Homes.{empty_home};
ghost use Rattle.tables.specs.Rows.{inserted, removed, home_inserted, home_removed};
ghost use Rattle.tables.specs.Stored.{stored_of};
ghost use Rattle.tables.specs.Read.{IsIntegers, IsTexts, AreViews, IsWhole, values_read};

use crate::build::inner_of_rows;
use crate::cols::Col;
use crate::shared::Shared;
use crate::tables::Tables;
use bytes_col::BytesCol;
use int_col::IntCol;
use mk_value::{Kind, Lent, Memory, Text, Value, default_of};
use std::alloc::Global;
use std::cmp::Ordering;

/// A column, beside the kind of its values.
#[derive(Clone, Copy)]
pub struct Column<'a> {
    pub kind: &'a Kind,
    pub col: &'a Col,
}

impl<'a> Column<'a> {
    /// The numbers of a column that keeps numbers.
    pub fn ints(&self) -> &'a IntCol
        requires { IsIntegers (stored_of self.now.col.now) }
        ensures { stored_of self.now.col.now ≡ integers result.now }
    {
        match self.col {
            Col::Ints(column) => column,
            _ => unreachable!(),
        }
    }

    /// The byte strings of a column that keeps texts or byte strings.
    pub fn blobs(&self) -> &'a BytesCol
        requires { IsTexts (stored_of self.now.col.now) }
        ensures { stored_of self.now.col.now ≡ texts result.now }
    {
        match self.col {
            Col::Blobs(column) => column,
            _ => unreachable!(),
        }
    }

    /// The tables of a column that keeps tables.
    pub fn views(&self) -> &'a Tables
        requires { AreViews (stored_of self.now.col.now) }
        ensures { stored_of self.now.col.now ≡ views result.now }
    {
        match self.col {
            Col::Views(tables) => tables,
            _ => unreachable!(),
        }
    }

    /// The value at a row, lent.
    pub(crate) fn lend(&self, row: usize) -> Lent<'a>
        requires whole { IsWhole self.now }
        requires row_in { row < length (values_read self.now) }
        ensures { Lends result (slice_index_or (values_read self.now) row (integer (pos 0))) }
    {
        match self.kind {
            Kind::I => Lent::I(self.ints().get(row) as i32),
            Kind::L => Lent::L(self.ints().get(row)),
            Kind::S => Lent::S(self.blobs().value(row)),
            Kind::B => Lent::B(self.blobs().value(row)),
            Kind::V(_) => Lent::V(self.views().get(row).len()),
        }
    }

    /// The numbers from a row on, as many as there is place for.
    pub(crate) fn fill(&self, from: usize, into: &mut [i64])
        requires whole { IsWhole self.now }
        requires numbers { AreNumbers (domain_of self.now.kind.now) }
        requires within { from + length into.old ≤ length (values_read self.now) }
        ensures { into.new ≡ take (length into.old) (drop from (map number_in (values_read self.now))) }
    {
        self.ints().read(from, into);
    }

    /// How the value at a row compares with another of its kind.
    pub(crate) fn cmp_with(&self, row: usize, with: &Value) -> Ordering
        requires whole { IsWhole self.now }
        requires row_in { row < length (values_read self.now) }
        requires comparable { IsComparable (datum_of with.now) (domain_of self.now.kind.now) }
        ensures { result ≡ value_cmp (slice_index_or (values_read self.now) row (integer (pos 0))) (datum_of with.now) }
    {
        match with {
            Value::I(number) => self.ints().get(row).cmp(&i64::from(*number)),
            Value::L(number) => self.ints().get(row).cmp(number),
            Value::S(text) => self.blobs().cmp_with(row, text.as_str().as_bytes()),
            Value::B(bytes) => self.blobs().cmp_with(row, bytes.as_slice()),
            Value::V(_) => unreachable!(),
        }
    }

    /// How the values at two rows compare.
    pub(crate) fn cmp_at(&self, a: usize, b: usize) -> Ordering
        requires whole { IsWhole self.now }
        requires first_in { a < length (values_read self.now) }
        requires second_in { b < length (values_read self.now) }
        requires plain { IsPlainDomain (domain_of self.now.kind.now) }
        ensures { result ≡ value_cmp (slice_index_or (values_read self.now) a (integer (pos 0))) (slice_index_or (values_read self.now) b (integer (pos 0))) }
    {
        match self.kind {
            Kind::I | Kind::L => self.ints().get(a).cmp(&self.ints().get(b)),
            Kind::S | Kind::B => self.blobs().cmp_at(a, b),
            Kind::V(_) => unreachable!(),
        }
    }
}

/// A text of these bytes.
pub(crate) fn text_of(alloc: Global, bytes: &[u8]) -> Result<Text, Memory>
    requires { IsUtf8 bytes.now }
    ensures { IfOk result (λ text. text.bytes ≡ bytes.now) }
{
    match str::from_utf8(bytes) {
        Ok(text) => Text::from_str(alloc, text),
        Err(_) => unreachable!(),
    }
}

impl Column<'_> {
    /// The value at a row, which has memory of its own.
    #[cycle(copy)]
    pub(crate) fn value(&self, alloc: Global, row: usize) -> Result<Value, Memory>
        requires whole { IsWhole self.now }
        requires row_in { row < length (values_read self.now) }
        ensures { IfOk result (λ value. datum_of value ≡ slice_index_or (values_read self.now) row (integer (pos 0))) }
    {
        match self.kind {
            Kind::I => Ok(Value::I(self.ints().get(row) as i32)),
            Kind::L => Ok(Value::L(self.ints().get(row))),
            Kind::S => Ok(Value::S(self.text(alloc, row)?)),
            Kind::B => Ok(Value::B(self.blobs().get(row)?)),
            Kind::V(_) => Ok(Value::V(self.views().get(row).to_rows(alloc)?)),
        }
    }

    /// The text at a row of a column of texts.
    fn text(&self, alloc: Global, row: usize) -> Result<Text, Memory>
        requires whole { IsWhole self.now }
        requires texts { domain_of self.now.kind.now ≡ Domain.text }
        requires row_in { row < length (values_read self.now) }
        ensures { IfOk result (λ text. Datum.text text.bytes ≡ slice_index_or (values_read self.now) row (integer (pos 0))) }
    {
        text_of(alloc, self.blobs().value(row))
    }
}

/// The numbers with so many more put in at a place. No copy of them is changed.
fn numbers_inserted(ints: &IntCol, at: usize, number: i64, count: usize) -> Result<IntCol, Memory>
    requires at { at ≤ length ints.now.values }
    requires some { 0 < count }
    requires few { length ints.now.values + count ≤ 16777216 }
    ensures values { IfOk result (λ column. column.values ≡ inserted at count number ints.now.values) }
    ensures home { IfOk result (λ column. column.home ≡ None) }
{
    let mut column = ints.same()?;
    column.insert(at, number, count)?;
    Ok(column)
}

/// The byte strings with so many more put in at a place. No copy of them is changed.
fn blobs_inserted(
    blobs: &BytesCol,
    at: usize,
    value: &[u8],
    count: usize,
) -> Result<BytesCol, Memory>
    requires at { at ≤ length blobs.now.values }
    requires some { 0 < count }
    requires few { length blobs.now.values + count ≤ 16777216 }
    ensures values { IfOk result (λ column. column.values ≡ inserted at count value.now blobs.now.values) }
    ensures home { IfOk result (λ column. column.home ≡ None) }
{
    let mut column = blobs.same()?;
    column.insert(at, value, count)?;
    Ok(column)
}

/// The tables with one put in so many times at a place. No copy of them is changed.
pub(crate) fn views_inserted(
    tables: &Tables,
    at: usize,
    table: &Shared,
    count: usize,
) -> Result<Tables, Memory>
    requires { at ≤ length tables.now }
    ensures { IfOk result (λ column. column ≡ inserted at count table.now tables.now) }
{
    let mut column = tables.same()?;
    column.insert(at, table, count)?;
    Ok(column)
}

/// The tables without so many from a place on. No copy of them is changed.
pub(crate) fn views_removed(tables: &Tables, at: usize, count: usize) -> Result<Tables, Memory>
    requires { at + count ≤ length tables.now }
    ensures { IfOk result (λ column. column ≡ removed at count tables.now) }
{
    let mut column = tables.same()?;
    column.remove(at, count)?;
    Ok(column)
}

impl Column<'_> {
    /// The column with so many values more at a place. No copy of it is changed.
    pub(crate) fn inserted(
        &self,
        alloc: Global,
        at: usize,
        value: &Value,
        count: usize,
    ) -> Result<Col, Memory>
        requires whole { IsWhole self.now }
        requires fits { IsOf (datum_of value.now) (domain_of self.now.kind.now) }
        requires at { at ≤ length (values_read self.now) }
        requires some { 0 < count }
        requires few { length (values_read self.now) + count ≤ 16777216 }
        ensures { IfOk result (λ col. IsColumnWith (domain_of self.now.kind.now) (inserted at count (datum_of value.now) (values_read self.now)) (home_inserted at count (domain_of self.now.kind.now) (datum_of value.now) (home_of (stored_of self.now.col.now))) (stored_of col)) }
    {
        match value {
            Value::I(number) => {
                let number = i64::from(*number);
                Ok(Col::Ints(numbers_inserted(self.ints(), at, number, count)?))
            }
            Value::L(number) => Ok(Col::Ints(numbers_inserted(self.ints(), at, *number, count)?)),
            Value::S(text) => {
                let bytes = text.as_str().as_bytes();
                Ok(Col::Blobs(blobs_inserted(self.blobs(), at, bytes, count)?))
            }
            Value::B(bytes) => {
                let bytes = bytes.as_slice();
                Ok(Col::Blobs(blobs_inserted(self.blobs(), at, bytes, count)?))
            }
            Value::V(rows) => {
                let table = inner_of_rows(alloc, self.kind, rows, self.col.inner_schema())?;
                Ok(Col::Views(views_inserted(self.views(), at, &table, count)?))
            }
        }
    }
}

/// The column of so many defaults of a kind. It has no home.
///
/// # Errors
///
/// `Memory`.
pub fn default_column(alloc: Global, kind: &Kind, count: usize) -> Result<Col, Memory>
    requires { count ≤ 16777216 }
    ensures { IfOk result (λ col. IsColumnWith (domain_of kind.now) (replicate count (default_datum (domain_of kind.now))) (empty_home (domain_of kind.now) (replicate count (default_datum (domain_of kind.now)))) (stored_of col)) }
{
    let empty = empty_column(alloc, kind)?;
    if count == 0 {
        return Ok(empty);
    }
    let value = default_of(alloc, kind);
    let column = Column { kind, col: &empty };
    column.inserted(alloc, 0, &value, count)
}

/// The column of a kind that has no values.
fn empty_column(alloc: Global, kind: &Kind) -> Result<Col, Memory>
    ensures { IfOk result (λ col. IsColumnWith (domain_of kind.now) [] (empty_home (domain_of kind.now) []) (stored_of col)) }
{
    match kind {
        Kind::I => Ok(Col::Ints(IntCol::from_values(alloc, &[], None)?)),
        Kind::L => Ok(Col::Ints(IntCol::from_values(alloc, &[], None)?)),
        Kind::S => Ok(Col::Blobs(BytesCol::from_values(alloc, &[], None)?)),
        Kind::B => Ok(Col::Blobs(BytesCol::from_values(alloc, &[], None)?)),
        Kind::V(_) => Ok(Col::Views(Tables::new(alloc))),
    }
}
