//! The last segment of a column that grows, which no other column shares.
ghost use Rattle.std.specs.Prelude.{◌≡◌, ℤ, ◌+◌, ◌-◌, ◌<◌, ◌≤◌, [], ◌∷◌, ◌++◌, length, slice_get, slice_set, take, drop, replicate, Some, IfOk, OnOk, OnErr, vec_capacity};
ghost use Rattle.std.specs.Bool.{OnTrue};
ghost use Rattle.bit_pack.specs.Width.{IsLeastWidth};
ghost use Rattle.bit_pack.specs.Packed.{Packed};
ghost use Rattle.int_col.specs.Segment.{Takes};

use crate::held::Held;
use crate::segment::{SEGMENT_MOST, Segment};
use bit_pack::{Width, width_for};
use mk_value::Memory;
use std::alloc::{AllocError, Global};
use std::marker::Model;

/// At most 2,048 values, packed at the least width that holds them, with room for as many of that width.
#[derive(Drop)]
pub(crate) struct Tail {
    count: usize,
    width: Width,
    bytes: Vec<u8>,
}

impl Model for Tail {
    ghost use Rattle.std.specs.Prelude.{List, ℤ, vec_capacity};
    ghost use Rattle.bit_pack.specs.Packed.{values_from};
    ghost use Rattle.int_col.specs.Tail.{IsTail};

    ghost Value = { List ℤ };

    ghost view = { λ t. values_from t.width t.bytes.items 0 t.count };

    ghost invariant = { λ t. IsTail t.count t.width t.bytes.items (vec_capacity t.bytes) };
}

impl Clone for Tail {
    ghost is_clone = { λ a b. b ≡ a };

    #[cold]
    #[inline(never)]
    fn clone(&self) -> Result<Tail, AllocError> {
        let room = self.width.packed_len(SEGMENT_MOST);
        let mut bytes = Vec::with_capacity(*self.bytes.allocator(), room)?;
        bytes.extend_from_slice(&self.bytes)?;
        Ok(Tail {
            count: self.count,
            width: self.width,
            bytes,
        })
    }
}

impl Tail {
    /// The tail of these values.
    pub(crate) fn of(alloc: Global, values: &[i64]) -> Result<Tail, Memory>
        requires { length values.now ≤ 2048 }
        ensures { IfOk result (λ tail. tail ≡ values.now) }
    {
        let width = width_for(values);
        let mut bytes = Vec::with_capacity(alloc, width.packed_len(SEGMENT_MOST))?;
        bytes.resize(width.packed_len(values.len()), 0)?;
        bit_pack::pack_into(width, values, &mut bytes);
        Ok(Tail {
            count: values.len(),
            width,
            bytes,
        })
    }

    pub(crate) fn allocator(&self) -> Global {
        *self.bytes.allocator()
    }

    /// How many values there are.
    pub(crate) fn len(&self) -> usize
        ensures count { result ≡ length self.now }
        ensures few { result ≤ 2048 }
    {
        self.count
    }

    /// The least width that holds the values, at which they are packed.
    pub(crate) fn width(&self) -> Width
        ensures { IsLeastWidth result self.now }
    {
        self.width
    }

    /// The packed values.
    pub(crate) fn lend(&self) -> Held<'_>
        ensures count { result.count ≡ length self.now }
        ensures packed { Packed result.width self.now result.bytes.now }
    {
        Held {
            count: self.count,
            width: self.width,
            bytes: &self.bytes,
        }
    }

    /// The value at a place.
    pub(crate) fn get(&self, at: usize) -> i64
        requires { at < length self.now }
        ensures { slice_get self.now at ≡ Some result }
    {
        bit_pack::get(self.width, &self.bytes, at)
    }

    /// Copies the values from place `from` on.
    pub(crate) fn copy_values(&self, from: usize, into: &mut [i64])
        requires { from + length into.old ≤ length self.now }
        ensures { into.new ≡ take (length into.old) (drop from self.now) }
    {
        bit_pack::unpack_into(self.width, &self.bytes, from, into);
    }

    /// The segment of the same values.
    pub(crate) fn to_segment(&self) -> Result<Segment, Memory>
        ensures { IfOk result (λ segment. segment ≡ self.now) }
    {
        Segment::of_packed(self.allocator(), self.width, self.count, &self.bytes)
    }

    /// Sets one value: all values are packed again.
    pub(crate) fn set(&mut self, at: usize, value: i64) -> Result<(), Memory>
        requires { at < length self.old }
        ensures ok { OnOk result (self.new ≡ slice_set self.old at value) }
        ensures len { length self.new ≡ length self.old }
        ensures err { OnErr result (self.new ≡ self.old) }
    {
        let mut segment = self.to_segment()?;
        segment.set(at, value)?;
        *self = Tail::of(self.allocator(), &segment.values()?)?;
        Ok(())
    }

    /// Whether one more value has room and is one of the width.
    pub(crate) fn takes(&self, value: i64) -> bool
        ensures { OnTrue result (Takes self.now value) }
    {
        self.count < SEGMENT_MOST && self.width.holds(value)
    }

    /// Adds a value that the tail takes. It takes no memory.
    #[inline]
    pub(crate) fn push(&mut self, value: i64)
        requires { Takes self.old value }
        ensures { self.new ≡ self.old ++ value ∷ [] }
    {
        let len = self.width.packed_len(self.count + 1);
        lengthen(&mut self.bytes, len);
        bit_pack::put(self.width, &mut self.bytes, self.count, value);
        self.count += 1;
    }
}

/// Lengthens the bytes by zeros, for which there is room. Most widths take one more byte at the most.
#[inline]
fn lengthen(bytes: &mut Vec<u8>, len: usize)
    requires { len ≤ vec_capacity bytes.old }
    ensures items { bytes.new.items ≡ take len bytes.old.items ++ replicate (len - length bytes.old.items) 0 }
    ensures room { vec_capacity bytes.old ≤ vec_capacity bytes.new }
{
    if len == bytes.len() + 1 {
        bytes.push_reserved(0);
    } else if bytes.resize(len, 0).is_err() {
        unreachable!();
    }
}
