//! A list of values that grows at its end.
ghost use Rattle.std.specs.Prelude.{◌≡◌, ℕ, ℤ, ◌+◌, ◌-◌, ◌<◌, ◌≤◌, [], ◌∷◌, ◌++◌, length, slice_get, slice_set, slice_index_or, take, drop, replicate, Some, IfOk, OnOk, OnErr};
ghost use Rattle.std.specs.Bool.{OnTrue};
ghost use Rattle.bit_pack.specs.Width.{IsLeastWidth};
ghost use Rattle.bit_pack.specs.Packed.{Packed};
ghost use Rattle.segments.specs.Joined.{joined, counts_of};
ghost use Rattle.segments.specs.Splices.{Applies, spliced};
ghost use Rattle.int_col.specs.Spine.{LastTakes};
ghost use Rattle.int_col.specs.Tail.{AreSegments};

use crate::held::Held;
use crate::segment::SEGMENT_MOST;
use crate::spine::Spine;
use crate::tail::Tail;
use bit_pack::Width;
use mk_value::Memory;
use segments::{Shared, Splice};
use std::alloc::{AllocError, Global};
use std::marker::Model;

/// The segments before the last, which copies share, and the last.
#[derive(Drop)]
struct Parts {
    head: Shared<Spine>,
    tail: Tail,
}

/// The values in segments, the last of which is no other list's. A caller sees the list of the segments.
#[derive(Drop)]
pub(crate) struct Growing {
    parts: Box<Parts>,
}

impl Model for Growing {
    ghost use Rattle.std.specs.Prelude.{List, ℤ, [], ◌∷◌, ◌++◌};
    ghost use Rattle.int_col.specs.Tail.{AreSegments};

    ghost Value = { List (List ℤ) };

    ghost view = { λ g. g.parts.value.head ++ g.parts.value.tail ∷ [] };

    ghost invariant = { λ g. AreSegments (g.parts.value.head ++ g.parts.value.tail ∷ []) };
}

impl Clone for Growing {
    ghost is_clone = { λ a b. b ≡ a };

    fn clone(&self) -> Result<Growing, AllocError> {
        let head = self.parts.head.clone()?;
        let tail = self.parts.tail.clone()?;
        let parts = Box::new(self.parts.tail.allocator(), Parts { head, tail })?;
        Ok(Growing { parts })
    }
}

impl Growing {
    /// The segments of a list, and a last one of these values.
    fn of(head: Shared<Spine>, values: &[i64]) -> Result<Growing, Memory>
        requires few { length values.now ≤ 2048 }
        requires segments { AreSegments (head ++ values.now ∷ []) }
        ensures { IfOk result (λ growing. growing ≡ head ++ values.now ∷ []) }
    {
        let alloc = head.get().allocator();
        let tail = Tail::of(alloc, values)?;
        let parts = Box::new(alloc, Parts { head, tail })?;
        Ok(Growing { parts })
    }

    /// The values of a list, and one more.
    pub(crate) fn of_spine(spine: &Shared<Spine>, value: i64) -> Result<Growing, Memory>
        requires { length (joined spine.now) < 16777216 }
        ensures { IfOk result (λ growing. joined growing ≡ joined spine.now ++ value ∷ []) }
    {
        let list = spine.get();
        if list.is_last_full() {
            return Growing::of(spine.clone()?, &[value]);
        }
        let head = Shared::of(list.allocator(), list.without_last()?)?;
        Growing::of(head, &list.last_with(value)?)
    }

    /// The same values, and one more.
    pub(crate) fn with(&self, value: i64) -> Result<Growing, Memory>
        requires { length (joined self.now) < 16777216 }
        ensures { IfOk result (λ growing. joined growing ≡ joined self.now ++ value ∷ []) }
    {
        if self.parts.tail.len() == SEGMENT_MOST {
            let head = Shared::of(self.allocator(), self.to_spine()?)?;
            return Growing::of(head, &[value]);
        }
        let values = self.parts.tail.to_segment()?.values_with(value)?;
        Growing::of(self.parts.head.clone()?, &values)
    }

    /// A list of the same segments.
    pub(crate) fn to_spine(&self) -> Result<Spine, Memory>
        ensures { IfOk result (λ spine. spine ≡ self.now) }
    {
        let last = Shared::of(self.allocator(), self.parts.tail.to_segment()?)?;
        self.parts.head.get().with_last(last)
    }

    pub(crate) fn allocator(&self) -> Global {
        self.parts.tail.allocator()
    }

    /// How many values there are.
    pub(crate) fn len(&self) -> usize
        ensures len { result ≡ length (joined self.now) }
        ensures segments { AreSegments self.now }
    {
        self.parts.head.get().len() + self.parts.tail.len()
    }

    /// How many segments there are.
    pub(crate) fn segments(&self) -> usize
        ensures { result ≡ length self.now }
    {
        self.parts.head.get().segments() + 1
    }

    /// The segment of this number, lent.
    pub(crate) fn segment(&self, k: usize) -> Held<'_>
        requires { k < length self.now }
        ensures count { result.count ≡ length (slice_index_or self.now k []) }
        ensures packed { Packed result.width (slice_index_or self.now k []) result.bytes.now }
    {
        let head = self.parts.head.get();
        if k < head.segments() {
            return head.segment(k);
        }
        self.parts.tail.lend()
    }

    /// The least width that holds all values.
    pub(crate) fn width(&self) -> Width
        ensures { IsLeastWidth result (joined self.now) }
    {
        self.parts.head.get().width().wider(self.parts.tail.width())
    }

    /// The value at a place.
    pub(crate) fn get(&self, at: usize) -> i64
        requires { at < length (joined self.now) }
        ensures { slice_get (joined self.now) at ≡ Some result }
    {
        let head = self.parts.head.get();
        let before = head.len();
        if at < before {
            return head.get(at);
        }
        self.parts.tail.get(at - before)
    }

    /// Copies the values from place `from` on.
    pub(crate) fn copy_values(&self, from: usize, into: &mut [i64])
        requires { from + length into.old ≤ length (joined self.now) }
        ensures { into.new ≡ take (length into.old) (drop from (joined self.now)) }
    {
        let head = self.parts.head.get();
        let before = head.len();
        if from >= before {
            self.parts.tail.copy_values(from - before, into);
            return;
        }
        let count = into.len().min(before - from);
        head.copy_values(from, &mut into[..count]);
        self.parts.tail.copy_values(0, &mut into[count..]);
    }

    /// Sets one value: in the list that copies share, as a list does, and in the last segment by packing it again.
    pub(crate) fn set(&mut self, at: usize, value: i64) -> Result<(), Memory>
        requires { at < length (joined self.old) }
        ensures values { OnOk result (joined self.new ≡ slice_set (joined self.old) at value) }
        ensures cuts { counts_of self.new ≡ counts_of self.old }
        ensures err { OnErr result (self.new ≡ self.old) }
    {
        let before = self.parts.head.get().len();
        if at < before {
            return set_in_list(&mut self.parts.head, at, value);
        }
        self.parts.tail.set(at - before, value)
    }

    /// A list with a splice made.
    pub(crate) fn spliced(&self, splice: &Splice, value: i64) -> Result<Spine, Memory>
        requires { Applies (length (joined self.now)) splice.now }
        ensures { IfOk result (λ spine. joined spine ≡ spliced (joined self.now) splice.now.at splice.now.end splice.now.count value) }
    {
        self.to_spine()?.spliced(splice, value)
    }

    /// Whether the last segment takes one more value.
    pub(crate) fn takes(&self, value: i64) -> bool
        ensures { OnTrue result (LastTakes self.now value) }
    {
        self.parts.tail.takes(value)
    }

    /// Adds a value that the last segment takes. It takes no memory.
    pub(crate) fn push(&mut self, value: i64)
        requires takes { LastTakes self.old value }
        requires few { length (joined self.old) < 16777216 }
        ensures { joined self.new ≡ joined self.old ++ value ∷ [] }
    {
        self.parts.tail.push(value);
    }
}

/// Sets one value of a list. Other owners keep it as it was.
fn set_in_list(list: &mut Shared<Spine>, at: usize, value: i64) -> Result<(), Memory>
    requires { at < length (joined list.old) }
    ensures values { OnOk result (joined list.new ≡ slice_set (joined list.old) at value) }
    ensures cuts { counts_of list.new ≡ counts_of list.old }
    ensures err { OnErr result (list.new ≡ list.old) }
{
    match list.sole() {
        Some(own) => own.set(at, value),
        None => list.own()?.set(at, value),
    }
}
