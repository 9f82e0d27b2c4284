//! Tables inside a row.
ghost use Rattle.std.specs.Prelude.{◌≡◌, ◌<◌, ◌∷◌, [], ◌++◌, length, All, slice_index_or, slice_set, OnOk};
ghost use Rattle.mk_value.specs.Data.{IsRowOf};
ghost use Rattle.mk_value.specs.Limits.{max_rows};
ghost use Rattle.stream_codec.specs.Inners.{IsInner, with_inners};
ghost use Rattle.tables.specs.Tables.{HasNoHomes, table_without_homes};

use mk_value::{Memory, Row};
use tables::{Shared, Table};

/// A table that is to stand in a row, at this column.
#[derive(Drop)]
pub(crate) struct Inner {
    pub(crate) col: usize,
    pub(crate) table: Shared,
}

/// Puts a row behind the rows of a table that has no homes, with these tables in it.
pub(crate) fn put_row(table: &mut Table, row: &Row, inners: Vec<Inner>) -> Result<(), Memory>
    requires few { length table.old.rows < max_rows }
    requires row { IsRowOf row.now table.old.schema }
    requires inners { All (IsInner table.old.schema) inners.items }
    requires homeless { HasNoHomes table.old }
    ensures { OnOk result (table.new ≡ table_without_homes table.old.schema (table.old.rows ++ with_inners inners.items row.now ∷ [])) }
{
    let at = table.len();
    table.insert_rows(at, row, 1)?;
    put_inners(table, at, &inners)
}

/// Puts tables into a row of a table that has no homes.
fn put_inners(table: &mut Table, at: usize, inners: &[Inner]) -> Result<(), Memory>
    requires within { at < length table.old.rows }
    requires wide { length (slice_index_or table.old.rows at []) ≡ length table.old.schema }
    requires inners { All (IsInner table.old.schema) inners.now }
    requires homeless { HasNoHomes table.old }
    ensures { OnOk result (table.new ≡ table_without_homes table.old.schema (slice_set table.old.rows at (with_inners inners.now (slice_index_or table.old.rows at [])))) }
{
    for inner in inners {
        table.set_inner(at, inner.col, inner.table.clone()?)?;
    }
    Ok(())
}
