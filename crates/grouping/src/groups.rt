//! The places of an order at which groups of equal keys begin and end.
ghost use Rattle.std.specs.Prelude.{◌≡◌, ◌+◌, ◌<◌, ◌≤◌, length, slice_index_or, slice_range, IfOk};
ghost use Rattle.mk_value.specs.Limits.{max_rows};
ghost use Rattle.grouping.specs.Index.{IsOrderOf, is_start, starts_below};

use crate::keys::Keys;
use mk_value::Memory;
use std::alloc::Global;

/// The places of the order at which groups begin.
pub(crate) fn starts_of<K: Keys>(alloc: Global, keys: &K, order: &[u32]) -> Result<Vec<u32>, Memory>
    requires order { IsOrderOf (K.keys keys.now) order.now }
    requires few { length order.now ≤ max_rows }
    ensures { IfOk result (λ starts. starts.items ≡ starts_below (K.keys keys.now) order.now (length order.now)) }
{
    let mut starts = Vec::new(alloc);
    for place in 0..order.len() {
        if is_start_at(keys, order, place) {
            starts.push(place as u32)?;
        }
    }
    Ok(starts)
}

/// Whether a group begins at a place of the order.
fn is_start_at<K: Keys>(keys: &K, order: &[u32], place: usize) -> bool
    requires order { IsOrderOf (K.keys keys.now) order.now }
    requires place_in { place < length order.now }
    ensures { result ≡ is_start (K.keys keys.now) order.now place }
{
    if place == 0 {
        return true;
    }
    let before = order[place - 1] as usize;
    let here = order[place] as usize;
    keys.cmp(before, here).is_ne()
}

/// The place at which a group ends: the next start, or the end of the order.
pub(crate) fn end_of(starts: &[u32], group: usize, size: usize) -> usize
    requires { group < length starts.now }
    ensures { result ≡ slice_index_or starts.now (group + 1) size }
{
    if group + 1 < starts.len() {
        return starts[group + 1] as usize;
    }
    size
}

/// The part of a list from one place up to another.
pub(crate) fn part(order: &[u32], start: usize, end: usize) -> &[u32]
    requires { (start ≤ end) × (end ≤ length order.now) }
    ensures { result.now ≡ slice_range order.now start end }
{
    &order[start..end]
}
