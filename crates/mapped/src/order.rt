//! The positions of keys in the order of the keys: what an index keeps beside them.
ghost use Rattle.std.specs.Prelude.{◌≡◌, ◌≢◌, ◌+◌, ◌<◌, ◌≤◌, ◌^◌, ℕ, [], ◌++◌, All, drop, length, map, insert, remove, take, slice_index, slice_index_or, slice_get, slice_set, vec_len, Contains, IfNone, IfSome, Some};
ghost use Rattle.std.specs.Vec.{vec_capacity};
ghost use Rattle.std.specs.declared.cmp.Ordering.TheVariants.{Less};
ghost use Rattle.relations.specs.WholeOrder.{whole_row_cmp};
ghost use Rattle.mk_value.specs.Limits.{max_rows};
ghost use Rattle.mapped.specs.Index.{AreKeys, row_of};
ghost use Rattle.mapped.specs.Order.{AreOrdered, IsIndexOf, IsOrderOf, IsOrderWithout, closed, opened};

use crate::halving::middle;
use mk_value::Row;
use places::Places;
use relations::cmp_whole_row;
use row_edits::cut_out;

/// The first place of the order whose key is not less than this one, found by halving.
pub(crate) fn place_of(keys: &[Row], order: &Places, key: &Row) -> usize
    requires { AreOrdered keys.now order.now.list }
    ensures within { result ≤ length order.now.list }
    ensures below { (k : ℕ) → k < result → whole_row_cmp (slice_index_or keys.now (slice_index order.now.list k) []) key.now ≡ Less }
    ensures from { (k : ℕ) → result ≤ k → k < length order.now.list → whole_row_cmp (slice_index_or keys.now (slice_index order.now.list k) []) key.now ≢ Less }
{
    let mut low = 0;
    let mut high = order.len();
    while low < high {
        let middle = middle(low, high);
        if cmp_whole_row(&keys[order.get(middle) as usize], key).is_lt() {
            low = middle + 1;
        } else {
            high = middle;
        }
    }
    low
}

/// The row that has the key.
pub(crate) fn find(keys: &[Row], order: &Places, key: &Row) -> Option<usize>
    requires { IsIndexOf keys.now order.now.list }
    ensures value { result ≡ row_of key.now keys.now }
    ensures found { IfSome result (λ row. slice_get keys.now row ≡ Some key.now) }
    ensures none { IfNone result (¬ Contains keys.now key.now) }
{
    let place = place_of(keys, order, key);
    if place < order.len() {
        let row = order.get(place) as usize;
        if cmp_whole_row(&keys[row], key).is_eq() {
            return Some(row);
        }
    }
    None
}

/// A key comes in at a position. The positions from there on move up by one, each in one pass; there is nothing to move where the key
/// comes last. It takes no memory.
pub(crate) fn insert(keys: &mut Vec<Row>, order: &mut Places, at: usize, key: Row)
    requires index { IsIndexOf keys.old.items order.old.list }
    requires there { at ≤ length keys.old.items }
    requires whole { AreKeys (insert keys.old.items at key) }
    requires key_room { vec_len keys.old < vec_capacity keys.old }
    requires order_room { 0 < order.old.spare }
    ensures keys { keys.new.items ≡ insert keys.old.items at key }
    ensures index { IsIndexOf keys.new.items order.new.list }
    ensures key_len { vec_len keys.new ≡ vec_len keys.old + 1 }
    ensures key_capacity { vec_capacity keys.old ≤ vec_capacity keys.new }
    ensures order_room { order.old.spare ≤ order.new.spare + 1 }
{
    make_room(order, at, keys.len());
    if keys.insert(at, key).is_err() {
        unreachable!();
    }
    enter(keys, order, at);
}

/// The key at a position goes. The positions behind it move down by one.
pub(crate) fn remove(keys: &mut Vec<Row>, order: &mut Places, at: usize)
    requires index { IsIndexOf keys.old.items order.old.list }
    requires there { at < length keys.old.items }
    ensures keys { keys.new.items ≡ remove keys.old.items at }
    ensures index { IsIndexOf keys.new.items order.new.list }
    ensures key_len { vec_len keys.new + 1 ≡ vec_len keys.old }
    ensures key_capacity { vec_capacity keys.old ≤ vec_capacity keys.new }
    ensures order_room { order.old.spare ≤ order.new.spare }
{
    leave(keys, order, at);
    keys.remove(at);
    close_gap(order, at, keys.len());
}

/// The keys at so many positions go, from one on. The positions behind them move down. It takes one pass over the keys behind and one over
/// the order, whatever the count.
pub(crate) fn remove_many(keys: &mut Vec<Row>, order: &mut Places, at: usize, count: usize)
    requires index { IsIndexOf keys.old.items order.old.list }
    requires there { at + count ≤ length keys.old.items }
    ensures keys { keys.new.items ≡ take at keys.old.items ++ drop (at + count) keys.old.items }
    ensures index { IsIndexOf keys.new.items order.new.list }
    ensures key_len { vec_len keys.new ≤ vec_len keys.old }
    ensures key_capacity { vec_capacity keys.old ≤ vec_capacity keys.new }
    ensures order_room { order.old.spare ≤ order.new.spare }
{
    order.remove_positions(at as u32, count as u32);
    cut_out(keys, at, count);
}

/// The key at a position becomes another. No position moves.
pub(crate) fn change(keys: &mut Vec<Row>, order: &mut Places, at: usize, key: Row)
    requires index { IsIndexOf keys.old.items order.old.list }
    requires there { at < length keys.old.items }
    requires whole { AreKeys (slice_set keys.old.items at key) }
    requires order_room { 0 < order.old.spare }
    ensures keys { keys.new.items ≡ slice_set keys.old.items at key }
    ensures index { IsIndexOf keys.new.items order.new.list }
    ensures key_len { vec_len keys.new ≡ vec_len keys.old }
    ensures key_capacity { vec_capacity keys.old ≤ vec_capacity keys.new }
    ensures order_room { order.old.spare ≤ order.new.spare + 1 }
{
    leave(keys, order, at);
    keys[at] = key;
    enter(keys, order, at);
}

/// Puts a position into its place in the order.
fn enter(keys: &[Row], order: &mut Places, at: usize)
    requires whole { AreKeys keys.now }
    requires there { at < length keys.now }
    requires others { IsOrderWithout at keys.now order.old.list }
    requires few { length order.old.list < max_rows }
    requires room { 0 < order.old.spare }
    ensures order { IsOrderOf keys.now order.new.list }
    ensures room { order.old.spare ≤ order.new.spare + 1 }
{
    let place = place_of(keys, order, &keys[at]);
    order.insert(place, at as u32);
}

/// Takes a position out of the order.
fn leave(keys: &[Row], order: &mut Places, at: usize)
    requires there { at < length keys.now }
    requires order { IsOrderOf keys.now order.old.list }
    ensures others { IsOrderWithout at keys.now order.new.list }
    ensures fewer { length order.new.list + 1 ≡ length order.old.list }
    ensures room { order.old.spare ≤ order.new.spare }
{
    let place = place_of(keys, order, &keys[at]);
    order.remove(place);
}

/// Moves the positions from `at` on up, of which there are none where it is the number of keys.
fn make_room(order: &mut Places, at: usize, size: usize)
    requires within { All (λ i. i < size) order.old.list }
    requires few { size ≤ max_rows }
    ensures list { order.new.list ≡ map (opened at) order.old.list }
    ensures room { order.new.spare ≡ order.old.spare }
{
    if at < size {
        order.raise(at as u32, 1);
    }
}

/// Moves the positions behind `at` down, of which there are none where it is the number of keys.
fn close_gap(order: &mut Places, at: usize, size: usize)
    requires within { All (λ i. i ≤ size) order.old.list }
    requires few { size ≤ max_rows }
    ensures list { order.new.list ≡ map (closed at) order.old.list }
    ensures room { order.new.spare ≡ order.old.spare }
{
    if at < size {
        order.lower(at as u32 + 1, 1);
    }
}
