//! The places where runs begin, as a list of numbers in order: flags of which the raised ones are kept by their places.
ghost use Rattle.std.specs.Prelude.{◌≡◌, ◌≢◌, ◌+◌, ◌^◌, ◌<◌, ◌≤◌, ◌==◌, Bool, ℕ, List, length, insert, position, remove, slice_index, slice_index_or, false, if◌then◌else◌, nat_lt, vec_len};
ghost use Rattle.std.specs.Option.{ForSome};
ghost use Rattle.std.specs.Vec.{vec_capacity};
ghost use Rattle.live_counts.specs.Runs.{going_flag, raised, without_flag};

use live::{close, leave, open};

/// The first place of the numbers from which on they are not below a number.
pub(crate) fn first_from(starts: &[u32], number: usize) -> usize
    requires order { (i j d : ℕ) → i < j → j < length starts.now → slice_index_or starts.now i d < slice_index_or starts.now j d }
    ensures within { result ≤ length starts.now }
    ensures below { (k : ℕ) → k < result → slice_index starts.now k < number }
    ensures above { (k : ℕ) → result ≤ k → k < length starts.now → number ≤ slice_index starts.now k }
{
    let mut low = 0;
    let mut high = starts.len();
    while low < high {
        let middle = low + (high - low) / 2;
        if (starts[middle] as usize) < number {
            low = middle + 1;
        } else {
            high = middle;
        }
    }
    low
}

/// The place of a number among the numbers, if it is there.
pub(crate) fn number_at(starts: &[u32], number: usize) -> Option<usize>
    requires order { (i j d : ℕ) → i < j → j < length starts.now → slice_index_or starts.now i d < slice_index_or starts.now j d }
    ensures { result ≡ position (λ k. k == number) starts.now }
{
    let at = first_from(starts, number);
    if at < starts.len() && starts[at] as usize == number {
        return Some(at);
    }
    None
}

/// Whether the flag at a place is raised.
fn is_raised(starts: &[u32], at: usize) -> bool
    requires order { (i j d : ℕ) → i < j → j < length starts.now → slice_index_or starts.now i d < slice_index_or starts.now j d }
    ensures { (fs : List Bool) → starts.now ≡ raised fs → result ≡ slice_index_or fs at false }
{
    number_at(starts, at).is_some()
}

/// The flag that is gone when the element at a place goes, of so many.
pub(crate) fn flag_that_goes(starts: &[u32], size: usize, at: usize) -> usize
    requires order { (i j d : ℕ) → i < j → j < length starts.now → slice_index_or starts.now i d < slice_index_or starts.now j d }
    requires within { at < size }
    ensures { (fs : List Bool) → starts.now ≡ raised fs → size ≡ length fs → result ≡ going_flag fs at }
{
    let next = at + 1;
    if is_raised(starts, at) && !(next == size || is_raised(starts, next)) {
        return next;
    }
    at
}

/// Takes a flag out.
pub(crate) fn take_flag(starts: &mut Vec<u32>, flag: usize)
    requires order { (i j d : ℕ) → i < j → j < length starts.old.items → slice_index_or starts.old.items i d < slice_index_or starts.old.items j d }
    ensures flags { (fs : List Bool) → starts.old.items ≡ raised fs → flag < length fs → starts.new.items ≡ raised (remove fs flag) }
    ensures len { vec_len starts.new ≤ vec_len starts.old }
    ensures capacity { vec_capacity starts.new ≡ vec_capacity starts.old }
{
    let at = number_at(starts, flag);
    leave(starts, at);
    close(starts, flag);
}

/// Puts a flag in.
pub(crate) fn put_flag(starts: &mut Vec<u32>, flag: usize, begins: bool)
    requires order { (i j d : ℕ) → i < j → j < length starts.old.items → slice_index_or starts.old.items i d < slice_index_or starts.old.items j d }
    requires small { (k d : ℕ) → k < length starts.old.items → slice_index_or starts.old.items k d + 1 < 2 ^ 32 }
    requires flag_small { flag < 2 ^ 32 }
    requires room { vec_len starts.old < vec_capacity starts.old }
    ensures flags { (fs : List Bool) → starts.old.items ≡ raised fs → flag ≤ length fs → starts.new.items ≡ raised (insert fs flag begins) }
    ensures len { vec_len starts.new ≤ vec_len starts.old + 1 }
    ensures capacity { vec_capacity starts.new ≡ vec_capacity starts.old }
{
    open(starts, flag);
    if !begins {
        return;
    }
    let at = first_from(starts, flag);
    if starts.insert(at, flag as u32).is_err() {
        unreachable!();
    }
}

/// Takes out the flag of the element that goes, if one goes, of so many.
pub(crate) fn lose(starts: &mut Vec<u32>, size: usize, going: Option<usize>)
    requires order { (i j d : ℕ) → i < j → j < length starts.old.items → slice_index_or starts.old.items i d < slice_index_or starts.old.items j d }
    requires within { ForSome going (λ o. o < size) }
    requires few { size < 2 ^ 32 }
    ensures flags { (fs : List Bool) → starts.old.items ≡ raised fs → size ≡ length fs → starts.new.items ≡ raised (without_flag fs going) }
    ensures len { vec_len starts.new ≤ vec_len starts.old }
    ensures capacity { vec_capacity starts.new ≡ vec_capacity starts.old }
{
    if let Some(at) = going {
        let flag = flag_that_goes(starts, size, at);
        take_flag(starts, flag);
    }
}

/// Where the run of a number ends: where the next begins, or with all.
pub(crate) fn run_end(starts: &[u32], size: usize, i: usize) -> usize
    requires { i < length starts.now }
    ensures { result ≡ (if nat_lt (i + 1) (length starts.now) then slice_index_or starts.now (i + 1) 0 else size) }
{
    if i + 1 < starts.len() {
        return starts[i + 1] as usize;
    }
    size
}
