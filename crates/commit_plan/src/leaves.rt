//! The leaf columns of tables: those that hold no tables themselves.
ghost use Rattle.std.specs.Prelude.{◌≡◌, ◌++◌, ◌∷◌, [], IfOk, OnOk};
ghost use Rattle.mk_value.specs.Heading.{Domain};
ghost use Rattle.tables.specs.Blocks.{plain_columns};
ghost use Rattle.tables.specs.Cells.{IsWholeColumn};
ghost use Rattle.tables.specs.Stored.{stored_of};
ghost use Rattle.recovery.specs.Commits.{plain_views};
ghost use Rattle.commit_plan.specs.Leaves.{AreLeaves, Gains};
ghost use Rattle.commit_plan.specs.Plain.{plain_of, plain_tables};

use bytes_col::BytesCol;
use int_col::IntCol;
use mk_value::Memory;
use std::alloc::Global;
use tables::{Block, Col, Nested, Table, Tables};
use view_store::Views;

/// A leaf column, lent.
#[derive(Clone, Copy)]
pub(crate) enum Leaf<'a> {
    /// Numbers of 32 or of 64 bits.
    Ints(&'a IntCol),
    /// Texts or byte strings.
    Blobs(&'a BytesCol),
    /// The columns of a table that has no columns of its own, each of which has a home of these blocks.
    Placed(&'a [Block]),
}

/// The leaf columns of views, nested ones too, in the order of a directory.
///
/// # Errors
///
/// `Memory`.
pub(crate) fn leaves_of(alloc: Global, views: &Views) -> Result<Vec<Leaf<'_>>, Memory>
    ensures { IfOk result (λ leaves. AreLeaves (plain_views views.now) leaves.items) }
{
    let mut leaves = Vec::new(alloc);
    'tables: for table in views.tables() {
        table_leaves(table.table(), &mut leaves)?;
    }
    Ok(leaves)
}

/// Appends the leaf columns of a table.
#[cycle(leaves)]
fn table_leaves<'a>(table: &'a Table, leaves: &mut Vec<Leaf<'a>>) -> Result<(), Memory>
    ensures { OnOk result (Gains (plain_columns table.now) leaves.old.items leaves.new.items) }
{
    'cols: for col in table.cols().as_slice() {
        col_leaves(col, leaves)?;
    }
    Ok(())
}

/// Appends the leaf columns in a column of a table.
#[cycle(leaves)]
fn col_leaves<'a>(col: &'a Col, leaves: &mut Vec<Leaf<'a>>) -> Result<(), Memory>
    ensures { OnOk result ((e : Domain) → IsWholeColumn e (stored_of col.now)
        → Gains (plain_of e (stored_of col.now)) leaves.old.items leaves.new.items) }
{
    match col {
        Col::Ints(column) => push_leaf(leaves, Leaf::Ints(column)),
        Col::Blobs(column) => push_leaf(leaves, Leaf::Blobs(column)),
        Col::Views(tables) => tables_leaves(tables, leaves),
    }
}

/// Appends the leaf columns of the tables in the rows of a view column.
#[cycle(leaves)]
fn tables_leaves<'a>(tables: &'a Tables, leaves: &mut Vec<Leaf<'a>>) -> Result<(), Memory>
    ensures { OnOk result (Gains (plain_tables tables.now) leaves.old.items leaves.new.items) }
{
    'rows: for row in 0..tables.len() {
        nested_leaves(tables.get(row), leaves)?;
    }
    Ok(())
}

/// Appends the leaf columns of a table in a row.
#[cycle(leaves)]
fn nested_leaves<'a>(table: Nested<'a>, leaves: &mut Vec<Leaf<'a>>) -> Result<(), Memory>
    ensures { OnOk result (Gains (plain_columns table.entry) leaves.old.items leaves.new.items) }
{
    match table.own() {
        Ok(own) => table_leaves(own.table(), leaves),
        Err(blocks) => push_leaf(leaves, Leaf::Placed(blocks)),
    }
}

/// Appends a leaf column.
fn push_leaf<'a>(leaves: &mut Vec<Leaf<'a>>, leaf: Leaf<'a>) -> Result<(), Memory>
    ensures { OnOk result (leaves.new.items ≡ leaves.old.items ++ leaf.entry ∷ []) }
{
    leaves.push(leaf)?;
    Ok(())
}
