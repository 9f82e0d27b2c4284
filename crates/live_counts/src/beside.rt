//! The flag of a row that came, by the rows beside it in the order.
ghost use Rattle.std.specs.Prelude.{◌≡◌, ◌+◌, ◌^◌, ◌<◌, ◌≤◌, [], ℕ, All, insert, length, remove, slice_index_or, false, vec_len};
ghost use Rattle.std.specs.Option.{ForSome};
ghost use Rattle.std.specs.Vec.{vec_capacity};
ghost use Rattle.live.specs.Placing.{without};
ghost use Rattle.live.specs.Watching.{IsAsked, positions};
ghost use Rattle.live_counts.specs.Runs.{flags, going_flag, raised, ties};

use crate::flags::put_flag;
use live::{Probe, WatchOp};
use mk_value::Steps;
use places::Places;
use std::sync::ledger::Ledger;

/// Whether two rows have equal keys.
fn ties_with<L: Ledger, P: Probe<L>>(
    rows: &P,
    op: &WatchOp,
    a: u32,
    b: u32,
    steps: &mut Steps<L>,
) -> bool
    requires asked { IsAsked (P.schema rows.now) op.now }
    requires first { a < length (P.rows rows.now) }
    requires second { b < length (P.rows rows.now) }
    ensures value { result ≡ ties (P.schema rows.now) op.now (P.rows rows.now) a b }
    ensures least { steps.old ≤ steps.new }
    ensures one { steps.new ≤ steps.old + 1 }
{
    match op {
        WatchOp::Range(_) => true,
        WatchOp::Sort(keys) => rows.compare(a as usize, b as usize, keys, steps).is_eq(),
    }
}

/// Whether the flag at a place is raised: whether the row there has another key than the one before it.
fn begins_at<L: Ledger, P: Probe<L>>(
    rows: &P,
    op: &WatchOp,
    kept: &Places,
    at: usize,
    steps: &mut Steps<L>,
) -> bool
    requires asked { IsAsked (P.schema rows.now) op.now }
    requires within { All (λ k. k < length (P.rows rows.now)) kept.now.list }
    requires there { at < length kept.now.list }
    ensures value { result ≡ slice_index_or (flags (ties (P.schema rows.now) op.now (P.rows rows.now)) kept.now.list) at false }
    ensures least { steps.old ≤ steps.new }
    ensures one { steps.new ≤ steps.old + 1 }
{
    if at == 0 {
        return true;
    }
    !ties_with(rows, op, kept.get(at - 1), kept.get(at), steps)
}

/// Where the flag of a row that came stands, and whether it is raised: by comparing it with the rows beside it.
fn flag_that_comes<L: Ledger, P: Probe<L>>(
    rows: &P,
    op: &WatchOp,
    kept: &Places,
    to: usize,
    steps: &mut Steps<L>,
) -> (usize, bool)
    requires asked { IsAsked (P.schema rows.now) op.now }
    requires within { All (λ k. k < length (P.rows rows.now)) kept.now.list }
    requires there { to < length kept.now.list }
    ensures place { result.0 ≡ going_flag (flags (ties (P.schema rows.now) op.now (P.rows rows.now)) kept.now.list) to }
    ensures flag { result.1 ≡ slice_index_or (flags (ties (P.schema rows.now) op.now (P.rows rows.now)) kept.now.list) result.0 false }
    ensures least { steps.old ≤ steps.new }
    ensures two { steps.new ≤ steps.old + 2 }
{
    let count = kept.len();
    let here = begins_at(rows, op, kept, to, steps);
    let next = to + 1;
    if here && next < count && !begins_at(rows, op, kept, next, steps) {
        return (next, false);
    }
    (to, here)
}

/// Puts in the flag of the row that came, if one came.
pub(crate) fn gain<L: Ledger, P: Probe<L>>(
    rows: &P,
    op: &WatchOp,
    kept: &Places,
    starts: &mut Vec<u32>,
    to: Option<usize>,
    steps: &mut Steps<L>,
)
    requires asked { IsAsked (P.schema rows.now) op.now }
    requires now { kept.now.list ≡ positions (P.schema rows.now) op.now (P.rows rows.now) }
    requires there { ForSome to (λ o. o < length kept.now.list) }
    requires others { starts.old.items ≡ raised (flags (ties (P.schema rows.now) op.now (P.rows rows.now)) (without to kept.now.list)) }
    requires room { vec_len starts.old < vec_capacity starts.old }
    ensures starts { starts.new.items ≡ raised (flags (ties (P.schema rows.now) op.now (P.rows rows.now)) kept.now.list) }
    ensures len { vec_len starts.new ≤ vec_len starts.old + 1 }
    ensures capacity { vec_capacity starts.new ≡ vec_capacity starts.old }
    ensures least { steps.old ≤ steps.new }
    ensures two { steps.new ≤ steps.old + 2 }
{
    let Some(to) = to else {
        return;
    };
    let _size = rows.size();
    let (flag, begins) = flag_that_comes(rows, op, kept, to, steps);
    put_flag(starts, flag, begins);
}
