//! A segment of values, packed.
ghost use Rattle.std.specs.Prelude.{◌≡◌, ◌≢◌, ℕ, ℤ, pos, ◌+◌, ◌-◌, ◌<◌, ◌≤◌, ◌⊎◌, [], ◌∷◌, ◌++◌, length, slice_get, slice_set, slice_index_or, take, drop, replicate, Some, IfOk, OnOk, OnErr};
ghost use Rattle.std.specs.Bool.{OnTrue};
ghost use Rattle.bit_pack.specs.declared.widths.Width.{Width};
ghost use Rattle.bit_pack.specs.Width.{Holds, HoldsAll, IsLeastWidth};
ghost use Rattle.bit_pack.specs.Packed.{Packed, PackedAt, values_from};
ghost use Rattle.segments.specs.Splices.{Applies, spliced};
ghost use Rattle.segments.specs.Together.{Together};
ghost use Rattle.int_col.specs.Segment.{Takes};

use crate::held::Held;
use crate::packed_splice::{reserve, splice_packed, unpack_around};
use bit_pack::{Width, width_for};
use mk_value::Memory;
use segments::{Shared, Splice};
use std::alloc::{AllocError, Global};
use std::marker::Model;

/// The most values of one segment.
pub(crate) const SEGMENT_MOST: usize = 2048;

/// At most 2,048 values, packed at the least width that holds them.
#[derive(Drop)]
pub(crate) struct Segment {
    count: usize,
    width: Width,
    bytes: Vec<u8>,
}

impl Model for Segment {
    ghost use Rattle.std.specs.Prelude.{List, ℤ};
    ghost use Rattle.bit_pack.specs.Packed.{values_from};
    ghost use Rattle.int_col.specs.Segment.{IsSegment};

    ghost Value = { List ℤ };

    ghost view = { λ s. values_from s.width s.bytes.items 0 s.count };

    ghost invariant = { λ s. IsSegment s.count s.width s.bytes.items };
}

impl Clone for Segment {
    ghost is_clone = { λ a b. b ≡ a };

    #[cold]
    #[inline(never)]
    fn clone(&self) -> Result<Segment, AllocError> {
        Ok(Segment {
            count: self.count,
            width: self.width,
            bytes: Vec::from_slice(*self.bytes.allocator(), &self.bytes)?,
        })
    }
}

impl Segment {
    /// The segment of these values.
    pub(crate) fn of(alloc: Global, values: &[i64]) -> Result<Segment, Memory>
        requires { length values.now ≤ 2048 }
        ensures { IfOk result (λ segment. segment ≡ values.now) }
    {
        let width = width_for(values);
        let mut bytes = vec![in alloc; 0; width.packed_len(values.len())]?;
        bit_pack::pack_into(width, values, &mut bytes);
        Ok(Segment {
            count: values.len(),
            width,
            bytes,
        })
    }

    /// The segment of the values that are packed in these bytes.
    pub(crate) fn of_packed(
        alloc: Global,
        width: Width,
        count: usize,
        bytes: &[u8],
    ) -> Result<Segment, Memory>
        requires few { count ≤ 2048 }
        requires packed { PackedAt width (values_from width bytes.now 0 count) bytes.now }
        ensures { IfOk result (λ segment. segment ≡ values_from width bytes.now 0 count) }
    {
        if !bit_pack::is_least(width, bytes, count) {
            return Segment::repacked(alloc, width, count, bytes);
        }
        Ok(Segment {
            count,
            width,
            bytes: Vec::from_slice(alloc, bytes)?,
        })
    }

    /// The same, for values that need less than this width.
    fn repacked(alloc: Global, width: Width, count: usize, bytes: &[u8]) -> Result<Segment, Memory>
        requires few { count ≤ 2048 }
        requires packed { PackedAt width (values_from width bytes.now 0 count) bytes.now }
        ensures { IfOk result (λ segment. segment ≡ values_from width bytes.now 0 count) }
    {
        let mut values = vec![in alloc; 0; count]?;
        bit_pack::unpack_into(width, bytes, 0, &mut values);
        Segment::of(alloc, &values)
    }

    pub(crate) fn allocator(&self) -> Global {
        *self.bytes.allocator()
    }

    /// How many values there are.
    pub(crate) fn len(&self) -> usize
        ensures count { result ≡ length self.now }
        ensures few { result ≤ 2048 }
    {
        self.count
    }

    /// The least width that holds the values, at which they are packed.
    pub(crate) fn width(&self) -> Width
        ensures { IsLeastWidth result self.now }
    {
        self.width
    }

    /// The packed values.
    pub(crate) fn lend(&self) -> Held<'_>
        ensures count { result.count ≡ length self.now }
        ensures packed { Packed result.width self.now result.bytes.now }
    {
        Held {
            count: self.count,
            width: self.width,
            bytes: &self.bytes,
        }
    }

    /// The value at a place.
    pub(crate) fn get(&self, at: usize) -> i64
        requires { at < length self.now }
        ensures { slice_get self.now at ≡ Some result }
    {
        bit_pack::get(self.width, &self.bytes, at)
    }

    /// Copies the values from place `from` on.
    pub(crate) fn copy_values(&self, from: usize, into: &mut [i64])
        requires { from + length into.old ≤ length self.now }
        ensures { into.new ≡ take (length into.old) (drop from self.now) }
    {
        bit_pack::unpack_into(self.width, &self.bytes, from, into);
    }

    /// Sets one value: in place, where the width stays the least that holds all, and else all values are packed again.
    pub(crate) fn set(&mut self, at: usize, value: i64) -> Result<(), Memory>
        requires { at < length self.old }
        ensures ok { OnOk result (self.new ≡ slice_set self.old at value) }
        ensures len { length self.new ≡ length self.old }
        ensures err { OnErr result (self.new ≡ self.old) }
    {
        if !self.keeps_width(at, value) {
            return self.repack_with(at, value);
        }
        bit_pack::put(self.width, &mut self.bytes, at, value);
        Ok(())
    }

    /// Whether the width is the least for the values with this one at place `at`.
    fn keeps_width(&self, at: usize, value: i64) -> bool
        requires { at < length self.now }
        ensures { OnTrue result ((w : Width) → IsLeastWidth w self.now → IsLeastWidth w (slice_set self.now at value)) }
    {
        if !self.width.holds(value) {
            return false;
        }
        match self.width.narrower() {
            None => true,
            Some(narrower) => self.exceeds_with(narrower, at, value),
        }
    }

    /// Whether a width that does not hold the values holds them not with this one at place `at` either.
    fn exceeds_with(&self, narrower: Width, at: usize, value: i64) -> bool
        requires at { at < length self.now }
        requires exceeds { HoldsAll narrower self.now → ⊥ }
        ensures { OnTrue result (HoldsAll narrower (slice_set self.now at value) → ⊥) }
    {
        if !narrower.holds(value) {
            return true;
        }
        if narrower.holds(self.get(at)) {
            return true;
        }
        self.another_exceeds(narrower, at)
    }

    /// Whether a value at another place than `at` is none of the width.
    fn another_exceeds(&self, narrower: Width, at: usize) -> bool
        ensures { OnTrue result ((k : ℕ) × (k < length self.now) × (k ≢ at) × (Holds narrower (slice_index_or self.now k (pos 0)) → ⊥)) }
    {
        for k in 0..self.count {
            if k != at && !narrower.holds(self.get(k)) {
                return true;
            }
        }
        false
    }

    /// Packs all values again with one set, at their least width.
    fn repack_with(&mut self, at: usize, value: i64) -> Result<(), Memory>
        requires { at < length self.old }
        ensures ok { OnOk result (self.new ≡ slice_set self.old at value) }
        ensures len { length self.new ≡ length self.old }
        ensures err { OnErr result (self.new ≡ self.old) }
    {
        let mut values = self.values()?;
        values[at] = value;
        *self = Segment::of(*values.allocator(), &values)?;
        Ok(())
    }

    /// Makes a splice, with copies of the value, and the call, or neither. It is done in place where the width stays the least that
    /// holds all, and else all values are packed again.
    pub(crate) fn splice_then<F: FnMut() -> Result<(), Memory>>(
        &mut self,
        splice: &Splice,
        value: i64,
        also: &mut F,
    ) -> Result<(), Memory>
        requires applies { Applies (length self.old) splice.now }
        requires room { splice.now.at + splice.now.count + (length self.old - splice.now.end) ≤ 2048 }
        requires also { F.pre also.old }
        ensures ok { OnOk result (self.new ≡ spliced self.old splice.now.at splice.now.end splice.now.count value) }
        ensures err { OnErr result (self.new ≡ self.old) }
        ensures also { Together F.step result also.old also.new }
    {
        if !self.keeps_width_after(splice, value) {
            let fresh = self.spliced(splice, value)?;
            also()?;
            *self = fresh;
            return Ok(());
        }
        let size = splice.at + splice.count + (self.count - splice.end);
        reserve(&mut self.bytes, self.width.packed_len(size))?;
        also()?;
        splice_packed(self.width, &mut self.bytes, self.count, splice, value);
        self.count = size;
        Ok(())
    }

    /// A segment with a splice made.
    fn spliced(&self, splice: &Splice, value: i64) -> Result<Segment, Memory>
        requires applies { Applies (length self.now) splice.now }
        requires room { splice.now.at + splice.now.count + (length self.now - splice.now.end) ≤ 2048 }
        ensures { IfOk result (λ segment. segment ≡ spliced self.now splice.now.at splice.now.end splice.now.count value) }
    {
        let alloc = self.allocator();
        let size = splice.at + splice.count + (self.count - splice.end);
        let mut values = vec![in alloc; value; size]?;
        unpack_around(
            self.width,
            &self.bytes,
            self.count,
            0,
            splice,
            value,
            &mut values,
        );
        Segment::of(alloc, &values)
    }

    /// Whether the width is the least for the values after a splice.
    fn keeps_width_after(&self, splice: &Splice, value: i64) -> bool
        requires { Applies (length self.now) splice.now }
        ensures { OnTrue result ((w : Width) → IsLeastWidth w self.now → IsLeastWidth w (spliced self.now splice.now.at splice.now.end splice.now.count value)) }
    {
        if !self.width.holds(value) {
            return false;
        }
        match self.width.narrower() {
            None => true,
            Some(narrower) => self.exceeds_after(narrower, splice, value),
        }
    }

    /// Whether a width that does not hold the values holds them not after a splice either.
    fn exceeds_after(&self, narrower: Width, splice: &Splice, value: i64) -> bool
        requires applies { Applies (length self.now) splice.now }
        requires exceeds { HoldsAll narrower self.now → ⊥ }
        ensures { OnTrue result (HoldsAll narrower (spliced self.now splice.now.at splice.now.end splice.now.count value) → ⊥) }
    {
        if splice.at == splice.end {
            return true;
        }
        self.another_exceeds_beside(narrower, splice.at, splice.end)
    }

    /// Whether a value before place `at` or from place `end` on is none of the width.
    fn another_exceeds_beside(&self, narrower: Width, at: usize, end: usize) -> bool
        ensures { OnTrue result ((k : ℕ) × (k < length self.now) × ((k < at) ⊎ (end ≤ k)) × (Holds narrower (slice_index_or self.now k (pos 0)) → ⊥)) }
    {
        for k in 0..self.count {
            let beside = k < at || end <= k;
            if beside && !narrower.holds(self.get(k)) {
                return true;
            }
        }
        false
    }

    /// All values.
    pub(crate) fn values(&self) -> Result<Vec<i64>, Memory>
        ensures values { IfOk result (λ values. values.items ≡ self.now) }
        ensures few { IfOk result (λ values. length values.items ≤ 2048) }
    {
        let mut values = vec![in *self.bytes.allocator(); 0; self.count]?;
        self.copy_values(0, &mut values);
        Ok(values)
    }

    /// All values, and one more.
    pub(crate) fn values_with(&self, value: i64) -> Result<Vec<i64>, Memory>
        ensures { IfOk result (λ values. values.items ≡ self.now ++ value ∷ []) }
    {
        let mut values = self.values()?;
        values.push(value)?;
        Ok(values)
    }

    /// Whether one more value has room and is one of the width.
    pub(crate) fn takes(&self, value: i64) -> bool
        ensures { OnTrue result (Takes self.now value) }
    {
        self.count < SEGMENT_MOST && self.width.holds(value)
    }

    /// Adds a value that the segment takes.
    #[inline]
    pub(crate) fn push(&mut self, value: i64) -> Result<(), Memory>
        requires { Takes self.old value }
        ensures ok { OnOk result (self.new ≡ self.old ++ value ∷ []) }
        ensures err { OnErr result (self.new ≡ self.old) }
    {
        let len = self.width.packed_len(self.count + 1);
        lengthen(&mut self.bytes, len)?;
        bit_pack::put(self.width, &mut self.bytes, self.count, value);
        self.count += 1;
        Ok(())
    }
}

/// Lengthens the bytes by zeros. Most widths take one more byte at the most, and one is sooner pushed than filled in.
#[inline]
fn lengthen(bytes: &mut Vec<u8>, len: usize) -> Result<(), Memory>
    ensures ok { OnOk result (bytes.new.items ≡ take len bytes.old.items ++ replicate (len - length bytes.old.items) 0) }
    ensures err { OnErr result (bytes.new.items ≡ bytes.old.items) }
{
    if len == bytes.len() + 1 {
        bytes.push(0)?;
    } else {
        bytes.resize(len, 0)?;
    }
    Ok(())
}

/// Sets one value of a segment. Other owners keep it as it was.
pub(crate) fn set_shared(segment: &mut Shared<Segment>, at: usize, value: i64) -> Result<(), Memory>
    requires { at < length segment.old }
    ensures ok { OnOk result (segment.new ≡ slice_set segment.old at value) }
    ensures len { length segment.new ≡ length segment.old }
    ensures err { OnErr result (segment.new ≡ segment.old) }
{
    match segment.sole() {
        Some(own) => own.set(at, value),
        None => segment.own()?.set(at, value),
    }
}

/// Makes a splice of a segment, with copies of the value, and the call, or neither. Other owners keep the segment as it was.
pub(crate) fn splice_shared<F: FnMut() -> Result<(), Memory>>(
    segment: &mut Shared<Segment>,
    splice: &Splice,
    value: i64,
    also: &mut F,
) -> Result<(), Memory>
    requires applies { Applies (length segment.old) splice.now }
    requires room { splice.now.at + splice.now.count + (length segment.old - splice.now.end) ≤ 2048 }
    requires also { F.pre also.old }
    ensures ok { OnOk result (segment.new ≡ spliced segment.old splice.now.at splice.now.end splice.now.count value) }
    ensures err { OnErr result (segment.new ≡ segment.old) }
    ensures also { Together F.step result also.old also.new }
{
    match segment.sole() {
        Some(own) => own.splice_then(splice, value, also),
        None => segment.own()?.splice_then(splice, value, also),
    }
}

/// Adds a value that the segment takes. Other owners keep it as it was.
pub(crate) fn push_shared(segment: &mut Shared<Segment>, value: i64) -> Result<(), Memory>
    requires { Takes segment.old value }
    ensures ok { OnOk result (segment.new ≡ segment.old ++ value ∷ []) }
    ensures err { OnErr result (segment.new ≡ segment.old) }
{
    match segment.sole() {
        Some(own) => own.push(value),
        None => segment.own()?.push(value),
    }
}
