//! The places where segments end, in order.
ghost use Rattle.std.specs.Prelude.{◌≡◌, ℕ, ◌+◌, ◌-◌, ◌^◌, ◌<◌, ◌≤◌, ◌++◌, length, map, take, drop, sum, slice_index, All, IfOk, OnOk};
ghost use Rattle.segments.specs.Segments.{ends_from};

use mk_value::Memory;
use std::alloc::Global;

/// The first segment that ends above a place, of those from `from` on.
pub(crate) fn first_end_above(ends: &[usize], from: usize, at: usize) -> usize
    requires from_in { from < length ends.now }
    requires below { (k : ℕ) → k < from → slice_index ends.now k ≤ at }
    requires reached { at < slice_index ends.now (length ends.now - 1) }
    requires ascending { (j k : ℕ) → j ≤ k → k < length ends.now → slice_index ends.now j ≤ slice_index ends.now k }
    ensures in_range { result < length ends.now }
    ensures above { at < slice_index ends.now result }
    ensures first { (k : ℕ) → k < result → slice_index ends.now k ≤ at }
{
    if at < ends[from] {
        return from;
    }
    let mut low = from + 1;
    let mut high = ends.len() - 1;
    while low < high {
        let middle = low + (high - low) / 2;
        if ends[middle] <= at {
            low = middle + 1;
        } else {
            high = middle;
        }
    }
    low
}

/// A copy of the first ends.
pub(crate) fn first_ends(alloc: Global, ends: &[usize], count: usize) -> Result<Vec<usize>, Memory>
    requires { count ≤ length ends.now }
    ensures { IfOk result (λ first. first.items ≡ take count ends.now) }
{
    Ok(Vec::from_slice(alloc, &ends[..count])?)
}

/// Adds the ends of segments of these counts, the first of which begins at `from`, and gives the last end.
pub(crate) fn push_ends(
    out: &mut Vec<usize>,
    from: usize,
    counts: &[usize],
) -> Result<usize, Memory>
    requires { from + sum counts.now ≤ 16777216 }
    ensures items { OnOk result (out.new.items ≡ out.old.items ++ ends_from from counts.now) }
    ensures last { IfOk result (λ last. last ≡ from + sum counts.now) }
{
    let mut end = from;
    for count in counts {
        end += *count;
        out.push(end)?;
    }
    Ok(end)
}

/// Adds the ends from number `after` on, of segments that stood from place `from` on and stand from place `to` on now.
pub(crate) fn push_moved(
    out: &mut Vec<usize>,
    ends: &[usize],
    after: usize,
    from: usize,
    to: usize,
) -> Result<(), Memory>
    requires in_range { after ≤ length ends.now }
    requires above { All (λ e. from ≤ e) (drop after ends.now) }
    requires fits { All (λ e. e - from + to < 2 ^ 64) (drop after ends.now) }
    ensures { OnOk result (out.new.items ≡ out.old.items ++ map (λ e. e - from + to) (drop after ends.now)) }
{
    let moved = &ends[after..];
    for end in moved {
        out.push(*end - from + to)?;
    }
    Ok(())
}

/// Moves the ends from number `after` on in place: those of segments that stood from place `from` on stand from place `to` on now.
pub(crate) fn move_ends(ends: &mut [usize], after: usize, from: usize, to: usize)
    requires in_range { after ≤ length ends.old }
    requires above { All (λ e. from ≤ e) (drop after ends.old) }
    requires fits { All (λ e. e - from + to < 2 ^ 64) (drop after ends.old) }
    ensures len { length ends.new ≡ length ends.old }
    ensures items { ends.new ≡ take after ends.old ++ map (λ e. e - from + to) (drop after ends.old) }
{
    for at in after..ends.len() {
        ends[at] = ends[at] - from + to;
    }
}
