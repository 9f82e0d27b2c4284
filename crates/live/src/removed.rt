//! Which rows of a watch go with rows of the root: what it answers to that.
ghost use Rattle.std.specs.Prelude.{◌≡◌, ◌+◌, ◌^◌, ◌<◌, ◌≤◌, ◌++◌, ◌∷◌, [], ℕ, List, All, length, slice_index, slice_index_or, false, true, Some};
ghost use Rattle.std.specs.Option.{ForSome};
ghost use Rattle.live.specs.Chains.{AreInside};
ghost use Rattle.live.specs.Leaving.{AreGone, goes_at, places_among, went};
ghost use Rattle.live.specs.States.{WatchState};

use crate::answer::Answer;
use crate::chain::root_place;
use crate::watch::Watch;

/// Rows of a watch that go: where the first of them stands, where the last ends, and how many they are.
#[derive(Clone, Copy)]
pub(crate) struct Gone {
    pub first: usize,
    pub end: usize,
    pub count: usize,
}

/// One row more, behind the others.
fn with_row(gone: Gone, row: usize) -> Gone
    requires end { gone.end ≤ row }
    requires count { gone.count ≤ gone.end }
    requires small { row + 1 < 2 ^ 64 }
    ensures gone { (places : List ℕ) → AreGone places gone.first gone.end gone.count → AreGone (places ++ row ∷ []) result.first result.end result.count }
    ensures end { result.end ≡ row + 1 }
    ensures count { result.count ≤ result.end }
{
    Gone {
        first: if gone.count == 0 { row } else { gone.first },
        end: row + 1,
        count: gone.count + 1,
    }
}

/// Whether a row of a watch stands in the root among so many from a place on.
fn is_among(below: &[Watch], watch: &Watch, row: usize, at: usize, count: usize) -> bool
    requires inside { AreInside below.now }
    requires source { ForSome watch.now.source (λ s. s < length below.now) }
    requires within { ForSome watch.now.source (λ s. (d : WatchState) → All (λ i. i < length (slice_index_or below.now s d).kept) watch.now.kept) }
    requires row_in { row < length watch.now.kept }
    requires small { at + count < 2 ^ 32 }
    ensures { result ≡ goes_at at count below.now watch.now.source (slice_index_or watch.now.kept row 0) }
{
    let place = root_place(below, watch.source(), watch.position(row));
    at <= place && place < at + count
}

/// The rows of a watch that stand in the root among so many from a place on.
fn rows_among(below: &[Watch], watch: &Watch, at: usize, count: usize) -> Gone
    requires inside { AreInside below.now }
    requires source { ForSome watch.now.source (λ s. s < length below.now) }
    requires within { ForSome watch.now.source (λ s. (d : WatchState) → All (λ i. i < length (slice_index_or below.now s d).kept) watch.now.kept) }
    requires small { at + count < 2 ^ 32 }
    ensures gone { AreGone (places_among at count below.now watch.now) result.first result.end result.count }
    ensures count { result.count ≤ result.end }
{
    let mut gone = Gone {
        first: 0,
        end: 0,
        count: 0,
    };
    for row in 0..watch.len() {
        if is_among(below, watch, row, at, count) {
            gone = with_row(gone, row);
        }
    }
    gone
}

/// What a watch answers where rows of the root go, so many from a place on. The watches before it have not followed that.
pub(crate) fn answer_to_removal(below: &[Watch], watch: &Watch, at: usize, count: usize) -> Answer
    requires inside { AreInside below.now }
    requires source { ForSome watch.now.source (λ s. s < length below.now) }
    requires within { ForSome watch.now.source (λ s. (d : WatchState) → All (λ i. i < length (slice_index_or below.now s d).kept) watch.now.kept) }
    requires small { at + count < 2 ^ 32 }
    ensures { result ≡ went at count (places_among at count below.now watch.now) }
{
    let gone = rows_among(below, watch, at, count);
    if gone.count == 0 {
        Answer::Nothing
    } else if gone.end - gone.count == gone.first {
        Answer::Remove {
            at: gone.first,
            count: gone.count,
        }
    } else {
        Answer::RemoveAmong { at, count }
    }
}
