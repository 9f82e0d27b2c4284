//! The blocks that columns are due.
ghost use Rattle.std.specs.Prelude.{◌≡◌, ◌<◌, ◌++◌, ◌∷◌, [], length, map, slice_index_or, IfOk, OnOk};
ghost use Rattle.tables.specs.Columns.{integers, texts};
ghost use Rattle.bytes_col.specs.Strings.{long_values, string_blocks};
ghost use Rattle.commit_plan.specs.Following.{blocks_due};
ghost use Rattle.commit_plan.specs.Leaves.{due_in};
ghost use Rattle.commit_plan.specs.Payloads.{payload_bytes};
ghost use Rattle.commit_plan.specs.Settling.{column_due};
ghost use Rattle.recovery.specs.Commits.{plain_views};

use crate::leaves::{Leaf, leaves_of};
use crate::payload::{MemoValue, Payload};
use bytes_col::BytesCol;
use int_col::IntCol;
use mk_value::Memory;
use segments::Shared;
use std::alloc::Global;
use view_store::Views;

/// The blocks that the columns of views are due, in the order of a directory: those of each column that has no home.
///
/// # Errors
///
/// `Memory`.
pub(crate) fn payloads_of(alloc: Global, views: &Views) -> Result<Vec<Payload>, Memory>
    ensures { IfOk result (λ payloads. map payload_bytes payloads.items ≡ blocks_due (plain_views views.now)) }
{
    let leaves = leaves_of(alloc, views)?;
    let mut payloads = Vec::new(alloc);
    'leaves: for leaf in leaves.as_slice() {
        push_due(alloc, *leaf, &mut payloads)?;
    }
    Ok(payloads)
}

/// Appends what a leaf is due.
fn push_due(alloc: Global, leaf: Leaf<'_>, payloads: &mut Vec<Payload>) -> Result<(), Memory>
    ensures { OnOk result (map payload_bytes payloads.new.items ≡ map payload_bytes payloads.old.items ++ due_in leaf.entry) }
{
    match leaf {
        Leaf::Ints(column) => push_ints(column, payloads),
        Leaf::Blobs(column) => push_blobs(alloc, column, payloads),
        Leaf::Placed(_blocks) => Ok(()),
    }
}

fn push_ints(column: &IntCol, payloads: &mut Vec<Payload>) -> Result<(), Memory>
    ensures { OnOk result (map payload_bytes payloads.new.items ≡ map payload_bytes payloads.old.items ++ column_due (integers column.now)) }
{
    match column.home() {
        Some(_block) => Ok(()),
        None => push(payloads, Payload::Numbers(column.same()?)),
    }
}

fn push_blobs(alloc: Global, column: &BytesCol, payloads: &mut Vec<Payload>) -> Result<(), Memory>
    ensures { OnOk result (map payload_bytes payloads.new.items ≡ map payload_bytes payloads.old.items ++ column_due (texts column.now)) }
{
    match column.home() {
        Some(_home) => Ok(()),
        None => push_strings(alloc, column, payloads),
    }
}

/// Appends the sizes, the short values and the memos of a column.
fn push_strings(alloc: Global, column: &BytesCol, payloads: &mut Vec<Payload>) -> Result<(), Memory>
    ensures { OnOk result (map payload_bytes payloads.new.items ≡ map payload_bytes payloads.old.items ++ string_blocks column.now.values) }
{
    push(payloads, Payload::Numbers(column.sizes().same()?))?;
    let shared = Shared::of(alloc, column.same()?)?;
    push(payloads, Payload::Short(shared.clone()?))?;
    push_memos(&shared, payloads)
}

/// Appends the memos of a column.
fn push_memos(column: &Shared<BytesCol>, payloads: &mut Vec<Payload>) -> Result<(), Memory>
    ensures { OnOk result (map payload_bytes payloads.new.items ≡ map payload_bytes payloads.old.items ++ long_values column.now.values) }
{
    'rows: for row in 0..column.get().len() {
        push_memo(column, row, payloads)?;
    }
    Ok(())
}

/// Appends the value of a row, where it is a memo.
fn push_memo(
    column: &Shared<BytesCol>,
    row: usize,
    payloads: &mut Vec<Payload>,
) -> Result<(), Memory>
    requires { row < length column.now.values }
    ensures { OnOk result (map payload_bytes payloads.new.items ≡ map payload_bytes payloads.old.items ++ long_values (slice_index_or column.now.values row [] ∷ [])) }
{
    if column.get().value(row).len() <= 512 {
        return Ok(());
    }
    let memo = MemoValue {
        column: column.clone()?,
        row,
    };
    push(payloads, Payload::Memo(memo))
}

/// Appends one.
pub(crate) fn push(payloads: &mut Vec<Payload>, payload: Payload) -> Result<(), Memory>
    ensures { OnOk result (map payload_bytes payloads.new.items ≡ map payload_bytes payloads.old.items ++ payload_bytes payload ∷ []) }
{
    payloads.push(payload)?;
    Ok(())
}
