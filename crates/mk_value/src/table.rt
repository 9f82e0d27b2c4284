ghost use Rattle.std.specs.Prelude.{◌≡◌, ◌+◌, ◌<◌, ◌≤◌, ◌↔◌, List, length, take, drop, IfOk};
ghost use Rattle.mk_value.specs.Heading.{Attribute, IsHeading};
ghost use Rattle.mk_value.specs.Data.{AreRowsOf, Datum, cell};
ghost use Rattle.mk_value.specs.Order.{value_cmp};
ghost use Rattle.mk_value.specs.Tables.{AreNumbers, IsComparable, IsPlainDomain, column_numbers, domain_at};
ghost use Rattle.mk_value.specs.Lending.{Lends, number_lent};
ghost use Rattle.mk_value.specs.Values.{datum_of};

use crate::{Memory, Rows, Schema, Value, cmp_value};
use std::cmp::Ordering;
use std::marker::Model;

/// A value of a table as it is lent, without memory.
#[derive(Clone, Copy)]
pub enum Lent<'a> {
    I(i32),
    L(i64),
    /// The bytes of a text.
    S(&'a [u8]),
    B(&'a [u8]),
    /// The number of rows of a view.
    V(usize),
}

impl Lent<'_> {
    /// The number of a value of kind I or L, and 0 of any other.
    pub fn number(&self) -> i64
        ensures { result ≡ number_lent self.now }
    {
        match self {
            Lent::I(number) => i64::from(*number),
            Lent::L(number) => *number,
            _ => 0,
        }
    }
}

/// A table that can be read value by value. It means a schema and a list of rows.
pub trait TableRead {
    ghost schema: { Self → List Attribute };

    ghost rows: { Self → List (List Datum) };

    fn schema(&self) -> &Schema
        ensures value { result.now ≡ schema self.now }
        ensures whole { IsHeading (schema self.now) };

    /// The number of rows, at most 16,777,216.
    fn size(&self) -> usize
        ensures value { result ≡ length (rows self.now) }
        ensures whole { AreRowsOf (rows self.now) (schema self.now) };

    /// The value at a row and a column.
    fn get(&self, row: usize, col: usize) -> Result<Value, Memory>
        requires row_in { row < length (rows self.now) }
        requires col_in { col < length (schema self.now) }
        ensures { IfOk result (λ value. datum_of value ≡ cell (rows self.now) row col) };

    /// The value at a row and a column, lent. It takes no memory.
    fn lend(&self, row: usize, col: usize) -> Lent<'_>
        requires row_in { row < length (rows self.now) }
        requires col_in { col < length (schema self.now) }
        ensures { Lends result (cell (rows self.now) row col) };

    /// The values of a column of kind I or L, from a row on, as many as there is place for. It takes no memory.
    fn fill(&self, col: usize, from: usize, into: &mut [i64])
        requires col_in { col < length (schema self.now) }
        requires numbers { AreNumbers (domain_at (schema self.now) col) }
        requires within { from + length into.old ≤ length (rows self.now) }
        ensures { into.new ≡ take (length into.old) (drop from (column_numbers (rows self.now) col)) }
    {
        // Its size bounds every place.
        let _size = self.size();
        for at in 0..into.len() {
            into[at] = self.lend(from + at, col).number();
        }
    }

    /// The order of the value at a row and a column, beside another value of the column's kind. It takes no memory.
    fn cmp_cell(&self, row: usize, col: usize, with: &Value) -> Ordering
        requires row_in { row < length (rows self.now) }
        requires col_in { col < length (schema self.now) }
        requires comparable { IsComparable (datum_of with.now) (domain_at (schema self.now) col) }
        ensures { result ≡ value_cmp (cell (rows self.now) row col) (datum_of with.now) };

    /// The order of the values of two rows in a column that is no view. It takes no memory.
    fn cmp_rows(&self, a: usize, b: usize, col: usize) -> Ordering
        requires first_in { a < length (rows self.now) }
        requires second_in { b < length (rows self.now) }
        requires col_in { col < length (schema self.now) }
        requires plain { IsPlainDomain (domain_at (schema self.now) col) }
        ensures { result ≡ value_cmp (cell (rows self.now) a col) (cell (rows self.now) b col) };
}

/// A table that can be given once more, as one that shares its rows.
pub trait Same: TableRead {
    /// A table of the same schema and rows.
    fn same(&self) -> Result<Self, Memory>
    where
        Self: Sized,
        ensures schema { IfOk result (λ table. Self.schema table ≡ Self.schema self.now) }
        ensures rows { IfOk result (λ table. Self.rows table ≡ Self.rows self.now) };
}

/// The value, lent.
pub fn lend(value: &Value) -> Lent<'_>
    ensures { Lends result (datum_of value.now) }
{
    match value {
        Value::I(number) => Lent::I(*number),
        Value::L(number) => Lent::L(*number),
        Value::S(text) => Lent::S(text.as_str().as_bytes()),
        Value::B(bytes) => Lent::B(bytes.as_slice()),
        Value::V(rows) => Lent::V(rows.len()),
    }
}

/// A table of plain rows.
#[derive(Debug, Drop)]
pub struct HeldRows {
    schema: Schema,
    rows: Rows,
}

impl Model for HeldRows {
    ghost use Rattle.mk_value.specs.Data.{AreRowsOf};
    ghost use Rattle.mk_value.specs.Tables.{Table, table_code};

    ghost Value = { Table };

    ghost coded = { table_code };

    ghost view = { λ t. record { schema = t.schema; rows = t.rows } };

    ghost invariant = { λ t. AreRowsOf t.rows t.schema };
}

impl HeldRows {
    /// The table of these rows.
    pub fn of(schema: Schema, rows: Rows) -> HeldRows
        requires { AreRowsOf rows schema }
        ensures schema { result.schema ≡ schema }
        ensures rows { result.rows ≡ rows }
    {
        HeldRows { schema, rows }
    }

    /// The rows, in order.
    pub fn rows(&self) -> &Rows
        ensures value { result.now ≡ self.now.rows }
        ensures whole { AreRowsOf self.now.rows self.now.schema }
    {
        &self.rows
    }

    /// The value at a row and a column.
    fn cell(&self, row: usize, col: usize) -> &Value
        requires row_in { row < length self.now.rows }
        requires col_in { col < length self.now.schema }
        ensures { datum_of result.now ≡ cell self.now.rows row col }
    {
        let row = &self.rows.as_slice()[row];
        &row.as_slice()[col]
    }
}

impl TableRead for HeldRows {
    ghost schema = { λ t. t.schema };

    ghost rows = { λ t. t.rows };

    fn schema(&self) -> &Schema {
        let schema = &self.schema;
        let _len = schema.len();
        schema
    }

    fn size(&self) -> usize {
        self.rows.len()
    }

    fn get(&self, row: usize, col: usize) -> Result<Value, Memory> {
        self.cell(row, col).copy()
    }

    fn lend(&self, row: usize, col: usize) -> Lent<'_> {
        lend(self.cell(row, col))
    }

    fn cmp_cell(&self, row: usize, col: usize, with: &Value) -> Ordering {
        cmp_value(self.cell(row, col), with)
    }

    fn cmp_rows(&self, a: usize, b: usize, col: usize) -> Ordering {
        cmp_value(self.cell(a, col), self.cell(b, col))
    }
}

impl Same for HeldRows {
    fn same(&self) -> Result<HeldRows, Memory> {
        Ok(HeldRows {
            schema: self.schema.copy()?,
            rows: self.rows.copy()?,
        })
    }
}
