//! Planning a commit.
ghost use Rattle.std.specs.Prelude.{◌≡◌, ◌+◌, ◌^◌, ◌<◌, ◌≤◌, ◌++◌, ◌∷◌, [], List, ℕ, map, length, IfOk, IfErr, IfSome, IfNone, IsErrOf, OnOk, All};
ghost use Rattle.dir_codec.specs.Values.{note_of};
ghost use Rattle.free_space.specs.Extents.{IsAligned, extent_end as end_of_extent};
ghost use Rattle.commit_writes.specs.Plans.{IsSoundAfter};
ghost use Rattle.recovery.specs.Commits.{IsCommit, footprint_of, plain_views};
ghost use Rattle.recovery.specs.Keeping.{commit_in};
ghost use Rattle.view_store.specs.Views.{NamedTable};
ghost use Rattle.commit_plan.specs.Following.{MayFollow, blocks_due, last_end};
ghost use Rattle.commit_plan.specs.Payloads.{payload_bytes};
ghost use Rattle.commit_plan.specs.Plans.{AreContents, AreDrafted, AreReady, EndsAt, IsPlanOf, IsPlanRefusal, last_number};

use crate::due::{payloads_of, push};
use crate::entries::entries_of_views;
use crate::error::PlanError;
use crate::notes::notes_with;
use crate::payload::Payload;
use crate::placing::{LAST_END, end_with, place_all, place_block};
use crate::planned::Plan;
use crate::used::free_beside;
use crate::views::settle_views;
use dir_codec::{Dir, Notes, encode};
use free_space::FreeMap;
use mk_value::{Bytes, Memory, Span, Text};
use recovery::Kept;
use std::alloc::Global;
use view_store::Views;

/// The greatest number of a commit.
const LAST_NUMBER: u64 = (1 << 63) - 1;

/// The blocks that columns are due, their spans, and what is free beside them.
#[derive(Drop)]
struct Draft {
    payloads: Vec<Payload>,
    spans: Vec<Span>,
    free: FreeMap,
}

/// What a commit keeps, and its directory as bytes.
#[derive(Drop)]
struct Contents {
    views: Views,
    notes: Notes,
    directory: Bytes,
}

/// Plans the commit that follows `kept`: it keeps these views, and this note where it is not empty. Each column without a home is
/// written, to the least places at or above the floor beside what `kept` uses, and the directory behind them. It takes all memory of the
/// commit and copies no values.
///
/// # Errors
///
/// `LastNumber` where `kept` has the greatest number; else `Full` with the end of the file and the cap, where the end passes the cap. An
/// end past the last that a file may have counts as that one. Else `Memory`, which may come wherever there is no other answer yet.
pub fn plan(
    alloc: Global,
    kept: &Kept,
    views: &Views,
    note: &Text,
    floor: u64,
    cap: u64,
) -> Result<Plan, PlanError>
    requires whole { IsCommit (commit_in kept.now) }
    requires may { MayFollow floor (commit_in kept.now) views.now note.now.bytes }
    requires cap { cap < 2 ^ 63 }
    ensures plans { IfOk result (IsPlanOf floor (commit_in kept.now) views.now note.now.bytes) }
    ensures within { IfOk result (λ plan. plan.next.end ≤ cap) }
    ensures whole { IfOk result (λ plan. IsCommit plan.next) }
    ensures sound { IfOk result (λ plan. IsSoundAfter (footprint_of (commit_in kept.now)) plan.writes (footprint_of plan.next)) }
    ensures refused { IfErr result (IsPlanRefusal floor (commit_in kept.now) views.now note.now.bytes cap) }
    ensures last { kept.now.number ≡ last_number → IsErrOf result PlanError.LastNumber }
{
    if kept.number == LAST_NUMBER {
        return Err(PlanError::LastNumber);
    }
    match draft_blocks(alloc, kept, views, floor)? {
        Some(drafted) => {
            let contents = contents_of(alloc, kept, views, note, &drafted.spans)?;
            finish(kept, cap, drafted, contents)
        }
        None => Err(PlanError::Full(LAST_END, cap)),
    }
}

/// The blocks that views are due, and their spans beside what a commit uses; none where one would pass the last end.
fn draft_blocks(
    alloc: Global,
    kept: &Kept,
    views: &Views,
    floor: u64,
) -> Result<Option<Draft>, Memory>
    requires whole { IsCommit (commit_in kept.now) }
    requires aligned { IsAligned floor }
    ensures floor { IfOk result (λ found. IfSome found (λ d. d.free.floor ≡ floor)) }
    ensures drafted { IfOk result (λ found. IfSome found (λ d. AreDrafted (commit_in kept.now) views.now (map payload_bytes d.payloads.items) d.spans.items d.free)) }
    ensures passes { IfOk result (λ found. IfNone found ((note : List ℕ) → EndsAt floor (commit_in kept.now) views.now note last_end)) }
{
    let mut free = free_beside(alloc, kept, floor)?;
    let payloads = payloads_of(alloc, views)?;
    free.reserve(payloads.len() + 1)?;
    match place_all(alloc, &mut free, &payloads)? {
        Some(spans) => Ok(Some(Draft {
            payloads,
            spans,
            free,
        })),
        None => Ok(None),
    }
}

/// What the next commit keeps, where the blocks that its views are due have these spans.
fn contents_of(
    alloc: Global,
    kept: &Kept,
    views: &Views,
    note: &Text,
    spans: &[Span],
) -> Result<Contents, Memory>
    requires few { length kept.now.notes ≤ 64 }
    requires number { kept.now.number < last_number }
    requires enough { length (blocks_due (plain_views views.now)) ≤ length spans.now }
    ensures { IfOk result (λ c. AreContents (commit_in kept.now) views.now note.now.bytes spans.now c.views (map note_of c.notes) c.directory.bytes) }
{
    let settled = settle_views(alloc, views, spans)?;
    let dir = Dir {
        views: entries_of_views(alloc, &settled)?,
        notes: notes_with(alloc, &kept.notes, kept.number + 1, note)?,
    };
    let directory = encode(alloc, &dir)?;
    Ok(Contents {
        views: settled,
        notes: dir.notes,
        directory,
    })
}

/// The plan of these blocks and of this directory behind them.
fn finish(kept: &Kept, cap: u64, draft: Draft, contents: Contents) -> Result<Plan, PlanError>
    requires whole { IsCommit (commit_in kept.now) }
    requires number { kept.now.number < last_number }
    requires spare { 0 < draft.free.spare }
    requires fit { All (λ s. end_of_extent s ≤ last_end) draft.spans.items }
    requires cap { cap < 2 ^ 63 }
    ensures plans { IfOk result (λ plan. (floor : ℕ) (views : List NamedTable) (note : List ℕ)
        → AreReady floor (commit_in kept.now) views note (map payload_bytes draft.payloads.items) draft.spans.items draft.free contents.views (map note_of contents.notes) contents.directory.bytes
        → IsPlanOf floor (commit_in kept.now) views note plan) }
    ensures within { IfOk result (λ plan. plan.next.end ≤ cap) }
    ensures refused { IfErr result (λ error. (floor : ℕ) (views : List NamedTable) (note : List ℕ)
        → AreReady floor (commit_in kept.now) views note (map payload_bytes draft.payloads.items) draft.spans.items draft.free contents.views (map note_of contents.notes) contents.directory.bytes
        → IsPlanRefusal floor (commit_in kept.now) views note cap error) }
{
    let Draft {
        mut payloads,
        mut spans,
        mut free,
    } = draft;
    let Some(dir) = place_block(&mut free, contents.directory.len() as u64) else {
        return Err(PlanError::Full(LAST_END, cap));
    };
    push(&mut payloads, Payload::Directory(contents.directory))?;
    push_span(&mut spans, dir)?;
    let end = end_with(kept.end, &spans);
    if end > cap {
        return Err(PlanError::Full(end, cap));
    }
    let next = Kept {
        number: kept.number + 1,
        views: contents.views,
        notes: contents.notes,
        dir,
        end,
    };
    Ok(Plan {
        next,
        payloads,
        spans,
    })
}

/// Appends a span.
fn push_span(spans: &mut Vec<Span>, span: Span) -> Result<(), Memory>
    ensures { OnOk result (spans.new.items ≡ spans.old.items ++ span ∷ []) }
{
    spans.push(span)?;
    Ok(())
}
