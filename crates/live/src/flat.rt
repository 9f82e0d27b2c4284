//! Places kept in one list, when one of them goes or comes.
ghost use Rattle.std.specs.Prelude.{◌≡◌, ◌≢◌, ◌+◌, ◌-◌, ◌^◌, ◌<◌, ◌≤◌, ℕ, All, length, map, vec_len};
ghost use Rattle.std.specs.Option.{ForSome};
ghost use Rattle.std.specs.Vec.{vec_capacity};
ghost use Rattle.live.specs.Placing.{closed, opened, closed_by, opened_by, without};
ghost use Rattle.live.specs.Watching.{comes_to, goes_from};

use crate::turn::Turn;

/// Takes the row at a place out, if one is named.
pub fn leave(kept: &mut Vec<u32>, at: Option<usize>)
    requires { ForSome at (λ i. i < length kept.old.items) }
    ensures items { kept.new.items ≡ without at kept.old.items }
    ensures len { vec_len kept.new ≤ vec_len kept.old }
    ensures capacity { vec_capacity kept.new ≡ vec_capacity kept.old }
{
    if let Some(at) = at {
        let _ = kept.remove(at);
    }
}

/// Moves the positions past p down.
pub fn close(kept: &mut [u32], p: usize)
    ensures { kept.new ≡ map (closed p) kept.old }
{
    for k in kept.iter_mut() {
        *k = if p < *k as usize { *k - 1 } else { *k };
    }
}

/// Moves the positions from p on up.
pub fn open(kept: &mut [u32], p: usize)
    requires { All (λ k. k + 1 < 2 ^ 32) kept.old }
    ensures { kept.new ≡ map (opened p) kept.old }
{
    for k in kept.iter_mut() {
        *k = if (*k as usize) < p { *k } else { *k + 1 };
    }
}

/// Gives the kept positions the numbers that they have after a turn of the source. Where a row changes there is nothing to do.
pub fn renumber(kept: &mut [u32], turn: Turn)
    requires small { All (λ k. k + 1 < 2 ^ 32) kept.old }
    requires apart { (p : ℕ) → turn ≡ Turn.Changes p → All (λ k. k ≢ p) kept.old }
    ensures { kept.new ≡ map (opened_by (comes_to turn)) (map (closed_by (goes_from turn)) kept.old) }
{
    match turn {
        Turn::Still | Turn::Changes(_) => {}
        Turn::Comes(p) => open(kept, p),
        Turn::Goes(p) => close(kept, p),
        Turn::Moves(p, q) => {
            close(kept, p);
            open(kept, q);
        }
    }
}
