//! Tables that are filled row by row.
ghost use Rattle.std.specs.Prelude.{◌≡◌, ◌<◌, ◌≤◌, ◌-◌, ◌↔◌, [], ◌∷◌, ◌++◌, length, IsTrue, IfOk, OnOk};
ghost use Rattle.mk_value.specs.Data.{IsOf, relation, relation_of};
ghost use Rattle.mk_value.specs.Heading.{Domain, heading_of};
ghost use Rattle.mk_value.specs.Kinds.{domain_of};
ghost use Rattle.mk_value.specs.Limits.{max_rows};
ghost use Rattle.mk_value.specs.Values.{datum_of};
ghost use Rattle.stream_codec.specs.Progress.{next_domain, progress_at_start, with_next, with_row_ended};
ghost use Rattle.tables.specs.Tables.{HasNoHomes};

use crate::inner::{Inner, put_row};
use mk_value::{Kind, Memory, Row, Rows, Schema, TableRead, Value};
use std::alloc::Global;
use std::marker::Model;
use tables::{Shared, Table, empty_table};

/// A table under way: the rows that came, the values of the row that is coming, and how many rows come behind it.
///
/// The rows stand in columns. Where a value of the row is a view, the row has an empty one in its place, and the table waits beside it.
#[derive(Drop)]
pub(crate) struct PartialTable {
    table: Table,
    row: Row,
    inners: Vec<Inner>,
    left: u32,
}

impl Model for PartialTable {
    ghost use Rattle.stream_codec.specs.Progress.{TableProgress, progress_code};

    ghost Value = { TableProgress };

    ghost coded = { progress_code };

    ghost use Rattle.stream_codec.specs.Inners.{IsPartialTable, with_inners};

    ghost view = { λ t. record { schema = t.table.schema; rows = t.table.rows; row = with_inners t.inners.items t.row; left = t.left } };

    ghost invariant = { λ t. IsPartialTable t.table t.row t.inners.items t.left };
}

impl PartialTable {
    /// The table of so many rows of which none came.
    pub(crate) fn start(alloc: Global, schema: &Schema, count: u32) -> Result<PartialTable, Memory>
        requires some { 0 < count }
        requires few { count ≤ max_rows }
        ensures started { IfOk result (λ t. t ≡ progress_at_start schema.now (count - 1)) }
        ensures some { 0 < length schema.now }
    {
        let _properties = schema.len();
        Ok(PartialTable {
            table: empty_table(alloc, schema)?,
            row: Row::new(alloc),
            inners: Vec::new(alloc),
            left: count - 1,
        })
    }

    /// The kind of the value that comes next.
    pub(crate) fn kind(&self) -> &Kind
        requires { length self.now.row < length self.now.schema }
        ensures { domain_of result.now ≡ next_domain self.now }
    {
        let prop = &self.table.schema().as_slice()[self.row.len()];
        &prop.kind
    }

    /// Takes the next value.
    pub(crate) fn push(&mut self, value: Value) -> Result<(), Memory>
        requires within { length self.old.row < length self.old.schema }
        requires fits { IsOf (datum_of value) (next_domain self.old) }
        ensures { OnOk result (self.new ≡ with_next (datum_of value) self.old) }
    {
        self.row.push(value)?;
        Ok(())
    }

    /// Takes the next value, which is a view of this table.
    pub(crate) fn push_table(&mut self, alloc: Global, table: Shared) -> Result<(), Memory>
        requires within { length self.old.row < length self.old.schema }
        requires view { next_domain self.old ≡ Domain.relation (heading_of table.schema) }
        requires homeless { HasNoHomes table }
        ensures { OnOk result (self.new ≡ with_next (relation (relation_of table.rows)) self.old) }
    {
        let col = self.row.len();
        self.row.push(Value::V(Rows::new(alloc)))?;
        self.inners.push(Inner { col, table })?;
        Ok(())
    }

    /// Whether the row has all its values.
    pub(crate) fn is_row_whole(&self) -> bool
        ensures { IsTrue result ↔ (length self.now.schema ≤ length self.now.row) }
    {
        self.table.schema().len() <= self.row.len()
    }

    /// Whether no row comes behind this one.
    pub(crate) fn is_last_row(&self) -> bool
        ensures { IsTrue result ↔ (self.now.left ≡ 0) }
    {
        self.left == 0
    }

    /// Puts the row, which is whole, behind those that came, and goes on to the next one.
    pub(crate) fn next_row(self, alloc: Global) -> Result<PartialTable, Memory>
        requires whole { length self.schema ≤ length self.row }
        requires more { 0 < self.left }
        ensures ended { IfOk result (λ t. t ≡ with_row_ended (self.left - 1) self) }
        ensures some { 0 < length self.schema }
    {
        let PartialTable {
            mut table,
            row,
            inners,
            left,
        } = self;
        let _properties = table.schema().len();
        put_row(&mut table, &row, inners)?;
        Ok(PartialTable {
            table,
            row: Row::new(alloc),
            inners: Vec::new(alloc),
            left: left - 1,
        })
    }

    /// Puts the row, which is whole and the last, behind those that came, and gives the table.
    pub(crate) fn end(self) -> Result<Table, Memory>
        requires whole { length self.schema ≤ length self.row }
        requires last { self.left ≡ 0 }
        ensures schema { IfOk result (λ t. t.schema ≡ self.schema) }
        ensures rows { IfOk result (λ t. t.rows ≡ self.rows ++ self.row ∷ []) }
        ensures homeless { IfOk result HasNoHomes }
    {
        let PartialTable {
            mut table,
            row,
            inners,
            left: _,
        } = self;
        put_row(&mut table, &row, inners)?;
        Ok(table)
    }
}
