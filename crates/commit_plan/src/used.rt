//! What a commit uses of its file.
ghost use Rattle.std.specs.Prelude.{◌≡◌, ◌++◌, ◌∷◌, [], IfOk, OnOk};
ghost use Rattle.std.specs.List.{filter};
ghost use Rattle.tables.specs.Columns.{home_of, integers, texts};
ghost use Rattle.tables.specs.Rests.{blocks, blocks_of};
ghost use Rattle.free_space.specs.Extents.{IsAligned};
ghost use Rattle.recovery.specs.Commits.{IsCommit, plain_views};
ghost use Rattle.recovery.specs.Keeping.{commit_in};
ghost use Rattle.commit_plan.specs.Following.{commit_spans};
ghost use Rattle.commit_plan.specs.Leaves.{homes_in};
ghost use Rattle.commit_plan.specs.Placing.{LeaveSame, has_bytes};

use crate::leaves::{Leaf, leaves_of};
use bytes_col::{BytesCol, BytesHome};
use free_space::{FreeError, FreeMap};
use int_col::IntCol;
use mk_value::{Memory, Span};
use recovery::Kept;
use std::alloc::Global;
use tables::Block;
use view_store::Views;

/// What is free beside the blocks of a commit, from the floor on.
///
/// # Errors
///
/// `Memory`.
pub(crate) fn free_beside(alloc: Global, kept: &Kept, floor: u64) -> Result<FreeMap, Memory>
    requires whole { IsCommit (commit_in kept.now) }
    requires aligned { IsAligned floor }
    ensures floor { IfOk result (λ free. free.floor ≡ floor) }
    ensures used { IfOk result (λ free. LeaveSame free.used (commit_spans (commit_in kept.now))) }
{
    let spans = used_spans(alloc, &kept.views, kept.dir)?;
    match FreeMap::from_used(alloc, floor, spans.as_slice()) {
        Ok(free) => Ok(free),
        Err(FreeError::Memory) => Err(Memory),
        Err(FreeError::Overlap(_, _)) => unreachable!(),
    }
}

/// The spans of the homes of views and of their directory, without those of no bytes.
fn used_spans(alloc: Global, views: &Views, dir: Span) -> Result<Vec<Span>, Memory>
    ensures { IfOk result (λ spans. spans.items ≡ filter has_bytes (blocks (plain_views views.now) ++ dir ∷ [])) }
{
    let leaves = leaves_of(alloc, views)?;
    let mut spans = Vec::new(alloc);
    'leaves: for leaf in leaves.as_slice() {
        push_home(*leaf, &mut spans)?;
    }
    push_span(dir, &mut spans)?;
    Ok(spans)
}

/// Appends the spans of a leaf's home, if it has one.
fn push_home(leaf: Leaf<'_>, spans: &mut Vec<Span>) -> Result<(), Memory>
    ensures { OnOk result (spans.new.items ≡ spans.old.items ++ filter has_bytes (homes_in leaf.entry)) }
{
    match leaf {
        Leaf::Ints(column) => push_block(column, spans),
        Leaf::Blobs(column) => push_blocks(column, spans),
        Leaf::Placed(blocks) => push_placed(blocks, spans),
    }
}

fn push_block(column: &IntCol, spans: &mut Vec<Span>) -> Result<(), Memory>
    ensures { OnOk result (spans.new.items ≡ spans.old.items ++ filter has_bytes (blocks_of (home_of (integers column.now)))) }
{
    match column.home() {
        Some(block) => push_span(block, spans),
        None => Ok(()),
    }
}

fn push_blocks(column: &BytesCol, spans: &mut Vec<Span>) -> Result<(), Memory>
    ensures { OnOk result (spans.new.items ≡ spans.old.items ++ filter has_bytes (blocks_of (home_of (texts column.now)))) }
{
    match column.home() {
        Some(home) => push_strings(home, spans),
        None => Ok(()),
    }
}

fn push_strings(home: &BytesHome, spans: &mut Vec<Span>) -> Result<(), Memory>
    ensures { OnOk result (spans.new.items ≡ spans.old.items ++ filter has_bytes (home.now.sizes ∷ home.now.short ∷ home.now.memos)) }
{
    push_span(home.sizes, spans)?;
    push_span(home.short, spans)?;
    push_spans(home.memos.as_slice(), spans)
}

fn push_spans(more: &[Span], spans: &mut Vec<Span>) -> Result<(), Memory>
    ensures { OnOk result (spans.new.items ≡ spans.old.items ++ filter has_bytes more.now) }
{
    'more: for span in more {
        push_span(*span, spans)?;
    }
    Ok(())
}

fn push_placed(blocks: &[Block], spans: &mut Vec<Span>) -> Result<(), Memory>
    ensures { OnOk result (spans.new.items ≡ spans.old.items ++ filter has_bytes blocks.now) }
{
    'placed: for block in blocks {
        push_span(block.span(), spans)?;
    }
    Ok(())
}

/// Appends a span, if it has bytes.
fn push_span(span: Span, spans: &mut Vec<Span>) -> Result<(), Memory>
    ensures { OnOk result (spans.new.items ≡ spans.old.items ++ filter has_bytes (span ∷ [])) }
{
    if span.len == 0 {
        return Ok(());
    }
    spans.push(span)?;
    Ok(())
}
