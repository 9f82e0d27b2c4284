//! Rows that go here and there from a source: the place that each of the others has then.
ghost use Rattle.std.specs.Prelude.{◌≡◌, ◌+◌, ◌^◌, ◌<◌, ◌≤◌, All, filter, length, map, slice_index_or, vec_len, Some, if◌then◌else◌};
ghost use Rattle.std.specs.Vec.{vec_capacity};
ghost use Rattle.relations.specs.Positions.{numbers};
ghost use Rattle.live.specs.Chains.{AreInside};
ghost use Rattle.mk_value.specs.Limits.{max_rows};
ghost use Rattle.live.specs.Leaving.{goes_at, has_rank, no_rank, rank_of};
ghost use Rattle.live.specs.States.{WatchState};

use crate::edited::goes;
use crate::watch::Watch;

/// What stands for the place of a row that goes: no table has so many rows.
const NO_RANK: u32 = u32::MAX;

/// Writes for each row of a watch the place that it has once those are out that stand in the root among so many from a place on, or that it is
/// one of these.
pub(crate) fn write_ranks(
    ranks: &mut Vec<u32>,
    watches: &[Watch],
    over: usize,
    at: usize,
    count: usize,
)
    requires inside { AreInside watches.now }
    requires there { over < length watches.now }
    requires room { (d : WatchState) → length (slice_index_or watches.now over d).kept ≤ vec_capacity ranks.old }
    requires few { (d : WatchState) → length (slice_index_or watches.now over d).kept ≤ max_rows }
    requires small { at + count < 2 ^ 32 }
    ensures ranks { (d : WatchState) → ranks.new.items ≡ map (rank_of (goes_at at count watches.now (Some over))) (numbers (length (slice_index_or watches.now over d).kept)) }
{
    ranks.clear();
    let mut rank = 0;
    for row in 0..watches[over].len() {
        let gone = goes(watches, over, row, at, count);
        ranks.push_reserved(rank_unless(gone, rank));
        rank = rank_behind(gone, rank);
    }
}

/// The rank of a row, unless it goes.
fn rank_unless(gone: bool, rank: u32) -> u32
    ensures { result ≡ (if gone then no_rank else rank) }
{
    if gone { NO_RANK } else { rank }
}

/// The rank of the row behind one.
fn rank_behind(gone: bool, rank: u32) -> u32
    requires { rank + 1 < 2 ^ 32 }
    ensures { result ≡ (if gone then rank else rank + 1) }
{
    if gone { rank } else { rank + 1 }
}
