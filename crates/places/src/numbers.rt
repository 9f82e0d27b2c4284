//! Positions in a row of memory.
ghost use Rattle.std.specs.Prelude.{◌≡◌, ◌+◌, ◌-◌, ◌^◌, ◌<◌, ◌≤◌, ◌++◌, length, map, filter, take, drop, slice_index_or, All, vec_len, vec_capacity};
ghost use Rattle.places.specs.Numbers.{has_rank, kept_ranked};
ghost use Rattle.row_edits.specs.Runs.{moved_down, run};

/// What stands for the place of a row that goes: no table has so many rows.
const NO_RANK: u32 = u32::MAX;

/// Adds so many numbers from the first on.
pub(crate) fn push_run(numbers: &mut Vec<u32>, first: u32, count: u32)
    requires room { vec_len numbers.old + count ≤ vec_capacity numbers.old }
    requires small { first + count < 2 ^ 32 }
    ensures items { numbers.new.items ≡ numbers.old.items ++ run first count }
    ensures len { vec_len numbers.new ≡ vec_len numbers.old + count }
    ensures capacity { vec_capacity numbers.new ≡ vec_capacity numbers.old }
{
    for k in 0..count {
        numbers.push_reserved(first + k);
    }
}

/// Adds these numbers.
pub(crate) fn push_all(numbers: &mut Vec<u32>, more: &[u32])
    requires { vec_len numbers.old + length more.now ≤ vec_capacity numbers.old }
    ensures items { numbers.new.items ≡ numbers.old.items ++ more.now }
    ensures capacity { vec_capacity numbers.new ≡ vec_capacity numbers.old }
{
    for p in more {
        numbers.push_reserved(*p);
    }
}

/// Moves the numbers from a place on to the end of another list.
pub(crate) fn move_tail(numbers: &mut Vec<u32>, at: usize, into: &mut Vec<u32>)
    requires there { at ≤ length numbers.old.items }
    requires room { vec_len into.old + vec_len numbers.old ≤ vec_capacity into.old }
    ensures front { numbers.new.items ≡ take at numbers.old.items }
    ensures back { into.new.items ≡ into.old.items ++ drop at numbers.old.items }
    ensures capacity { (vec_capacity numbers.new ≡ vec_capacity numbers.old) × (vec_capacity into.new ≡ vec_capacity into.old) }
{
    for p in &numbers[at..] {
        into.push_reserved(*p);
    }
    numbers.truncate(at);
}

/// Moves the positions from a place on down.
pub(crate) fn lower(kept: &mut [u32], at: u32, count: u32)
    requires { All (λ k. at ≤ k → count ≤ k) kept.old }
    ensures { kept.new ≡ map (moved_down at count) kept.old }
{
    for k in kept.iter_mut() {
        *k = if *k < at { *k } else { *k - count };
    }
}

/// Gives each position its rank.
fn rank_all(kept: &mut [u32], ranks: &[u32])
    requires { All (λ k. k < length ranks.now) kept.old }
    ensures { kept.new ≡ map (λ k. slice_index_or ranks.now k 0) kept.old }
{
    for k in kept.iter_mut() {
        *k = ranks[*k as usize];
    }
}

/// Keeps the positions that have a rank.
fn retain_ranked(kept: &mut Vec<u32>)
    ensures items { kept.new.items ≡ filter has_rank kept.old.items }
    ensures len { vec_len kept.new ≤ vec_len kept.old }
    ensures capacity { vec_capacity kept.new ≡ vec_capacity kept.old }
{
    let mut left = 0;
    for i in 0..kept.len() {
        let k = kept[i];
        kept[left] = k;
        if k != NO_RANK {
            left += 1;
        }
    }
    kept.truncate(left);
}

/// Drops the positions that have no rank, and gives the others theirs.
pub(crate) fn keep_ranked(kept: &mut Vec<u32>, ranks: &[u32])
    requires { All (λ k. k < length ranks.now) kept.old.items }
    ensures items { kept.new.items ≡ kept_ranked ranks.now kept.old.items }
    ensures len { vec_len kept.new ≤ vec_len kept.old }
    ensures capacity { vec_capacity kept.new ≡ vec_capacity kept.old }
{
    rank_all(kept, ranks);
    retain_ranked(kept);
}
