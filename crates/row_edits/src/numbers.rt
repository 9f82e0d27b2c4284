//! Positions that are kept of rows, when rows come side by side, or go side by side.
ghost use Rattle.std.specs.Prelude.{◌≡◌, ℕ, ◌+◌, ◌-◌, ◌^◌, ◌<◌, ◌≤◌, ◌++◌, length, map, filter, take, drop, All, vec_len, vec_capacity};
ghost use Rattle.row_edits.specs.Runs.{is_outside, kept_outside, moved_down, moved_up, run};

/// Moves the positions from a place on up.
pub fn raise(kept: &mut [u32], at: u32, count: u32)
    requires { All (λ k. k + count < 2 ^ 32) kept.old }
    ensures { kept.new ≡ map (moved_up at count) kept.old }
{
    for k in kept.iter_mut() {
        *k = if *k < at { *k } else { *k + count };
    }
}

/// Adds so many numbers from the first on.
fn push_run(kept: &mut Vec<u32>, first: u32, count: u32)
    requires room { vec_len kept.old + count ≤ vec_capacity kept.old }
    requires small { first + count < 2 ^ 32 }
    ensures items { kept.new.items ≡ kept.old.items ++ run first count }
    ensures len { vec_len kept.new ≡ vec_len kept.old + count }
    ensures capacity { vec_capacity kept.new ≡ vec_capacity kept.old }
{
    for k in 0..count {
        kept.push_reserved(first + k);
    }
}

/// Puts so many numbers from the first on in before a place.
pub fn insert_run(kept: &mut Vec<u32>, place: usize, first: u32, count: u32)
    requires there { place ≤ length kept.old.items }
    requires room { vec_len kept.old + count ≤ vec_capacity kept.old }
    requires small { first + count < 2 ^ 32 }
    ensures items { kept.new.items ≡ take place kept.old.items ++ (run first count ++ drop place kept.old.items) }
    ensures len { vec_len kept.new ≡ vec_len kept.old + count }
    ensures capacity { vec_capacity kept.new ≡ vec_capacity kept.old }
{
    push_run(kept, first, count);
    kept[place..].rotate_right(count as usize);
}

/// Keeps the positions that are none of so many from a place on.
fn retain(kept: &mut Vec<u32>, at: u32, count: u32)
    requires { at + count < 2 ^ 32 }
    ensures items { kept.new.items ≡ filter (is_outside at count) kept.old.items }
    ensures len { vec_len kept.new ≤ vec_len kept.old }
    ensures capacity { vec_capacity kept.new ≡ vec_capacity kept.old }
{
    let end = at + count;
    let mut left = 0;
    for i in 0..kept.len() {
        let k = kept[i];
        kept[left] = k;
        if k < at || end <= k {
            left += 1;
        }
    }
    kept.truncate(left);
}

/// Moves the positions from a place on down.
fn lower(kept: &mut [u32], at: u32, count: u32)
    requires { All (λ k. at ≤ k → count ≤ k) kept.old }
    ensures { kept.new ≡ map (moved_down at count) kept.old }
{
    for k in kept.iter_mut() {
        *k = if *k < at { *k } else { *k - count };
    }
}

/// Drops so many positions from a place on, and moves those from there on down.
pub fn remove_run(kept: &mut Vec<u32>, at: u32, count: u32)
    requires { at + count < 2 ^ 32 }
    ensures items { kept.new.items ≡ kept_outside at count kept.old.items }
    ensures len { vec_len kept.new ≤ vec_len kept.old }
    ensures capacity { vec_capacity kept.new ≡ vec_capacity kept.old }
{
    retain(kept, at, count);
    lower(kept, at, count);
}

/// Takes so many elements out, from a place on.
pub fn cut_out<T: Drop>(items: &mut Vec<T>, at: usize, count: usize)
    requires { at + count ≤ length items.old.items }
    ensures items { items.new.items ≡ take at items.old.items ++ drop (at + count) items.old.items }
    ensures len { vec_len items.new + count ≡ vec_len items.old }
    ensures capacity { vec_capacity items.new ≡ vec_capacity items.old }
{
    let left = items.len() - count;
    items[at..].rotate_left(count);
    items.truncate(left);
}
