//! The positions that a filter keeps, over what happens to the rows of its source.
ghost use Rattle.std.specs.Prelude.{◌≡◌, [], ◌+◌, ◌<◌, ◌≤◌, ◌^◌, ℕ, Bool, List, length, slice_index_or, vec_len};
ghost use Rattle.std.specs.Option.{ForSome};
ghost use Rattle.std.specs.Vec.{vec_capacity};
ghost use Rattle.mk_value.specs.Data.{Datum};
ghost use Rattle.live.specs.Watching.{goes_from, placed, stays};
ghost use Rattle.live.specs.declared.op.WatchOp.TheVariants as op;
ghost use Rattle.live_counts.specs.Filtering.{IsEntered, IsFilterDue, IsFiltered, IsPutIn, own_turn};

use crate::flags::{first_from, number_at};
use live::{Turn, leave, renumber, told};

/// The place of the row that goes among the kept positions, if one goes and is kept.
fn place_of_going(kept: &[u32], turn: Turn) -> Option<usize>
    requires order { (i j d : ℕ) → i < j → j < length kept.now → slice_index_or kept.now i d < slice_index_or kept.now j d }
    ensures { result ≡ placed kept.now (goes_from turn) }
{
    match turn.goes_from() {
        Some(row) => number_at(kept, row),
        None => None,
    }
}

/// Puts a number in where it stands in the order, and gives its place.
fn put_in(kept: &mut Vec<u32>, number: usize) -> usize
    requires order { (i j d : ℕ) → i < j → j < length kept.old.items → slice_index_or kept.old.items i d < slice_index_or kept.old.items j d }
    requires small { number < 2 ^ 32 }
    requires room { vec_len kept.old < vec_capacity kept.old }
    ensures put { IsPutIn kept.old.items number result kept.new.items }
    ensures len { vec_len kept.new ≡ vec_len kept.old + 1 }
    ensures capacity { vec_capacity kept.new ≡ vec_capacity kept.old }
{
    let at = first_from(kept, number);
    if kept.insert(at, number as u32).is_err() {
        unreachable!();
    }
    at
}

/// Puts in the position of the row that comes, if one comes and fits, and gives its place.
fn enter(kept: &mut Vec<u32>, comes: Option<usize>, fits: bool) -> Option<usize>
    requires order { ForSome comes (λ row. (i j d : ℕ) → i < j → j < length kept.old.items → slice_index_or kept.old.items i d < slice_index_or kept.old.items j d) }
    requires small { ForSome comes (λ row. row < 2 ^ 32) }
    requires room { vec_len kept.old < vec_capacity kept.old }
    ensures entered { IsEntered kept.old.items comes fits kept.new.items result }
    ensures len { vec_len kept.new ≤ vec_len kept.old + 1 }
    ensures capacity { vec_capacity kept.new ≡ vec_capacity kept.old }
{
    match comes {
        Some(row) if fits => Some(put_in(kept, row)),
        _ => None,
    }
}

/// Whether a row that stays is told to have changed.
fn is_change(turn: Turn) -> bool
    ensures { result ≡ stays (op.Range []) turn }
{
    matches!(turn, Turn::Changes(_))
}

/// Follows what happened to the rows of the source, and answers what happened to those that are kept.
pub(crate) fn follow(kept: &mut Vec<u32>, turn: Turn, fits: bool) -> Turn
    requires room { vec_len kept.old < vec_capacity kept.old }
    requires due { (test : List Datum → Bool) × (rows : List (List Datum)) × IsFilterDue test kept.old.items turn fits rows }
    ensures now { (test : List Datum → Bool) (rows : List (List Datum)) → IsFilterDue test kept.old.items turn fits rows → IsFiltered test rows kept.new.items }
    ensures told { result ≡ own_turn kept.old.items kept.new.items turn }
    ensures len { vec_len kept.new ≤ vec_len kept.old + 1 }
    ensures capacity { vec_capacity kept.new ≡ vec_capacity kept.old }
{
    let going = place_of_going(kept, turn);
    leave(kept, going);
    renumber(kept, turn);
    let to = enter(kept, turn.comes_to(), fits);
    told(is_change(turn), going, to)
}
