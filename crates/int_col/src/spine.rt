//! The list of a column's segments.
ghost use Rattle.std.specs.Prelude.{◌≡◌, ℕ, suc, ℤ, ◌+◌, ◌-◌, ◌^◌, ◌<◌, ◌≤◌, List, [], ◌∷◌, ◌++◌, length, sum, slice_get, slice_index, slice_set, slice_index_or, take, drop, Some, All, IfOk, IfSome, OnOk, OnErr, replicate};
ghost use Rattle.std.specs.Bool.{OnTrue, OnFalse};
ghost use Rattle.bit_pack.specs.Width.{IsLeastWidth};
ghost use Rattle.bit_pack.specs.Packed.{Packed};
ghost use Rattle.segments.specs.Segments.{IsPlace};
ghost use Rattle.segments.specs.Splices.{Applies, Covers, AreApartBefore, AreApartBehind, size_after, items_after, spliced};
ghost use Rattle.segments.specs.Joined.{joined, counts_of};
ghost use Rattle.int_col.specs.Cuts.{AreCuts, full_cuts};
ghost use Rattle.int_col.specs.Spine.{LastTakes, IsLastFull, HasLastRoom};
ghost use Rattle.segments.specs.Together.{Together};
ghost use Rattle.int_col.specs.Tail.{AreSegments};
ghost use Rattle.int_col.specs.Within.{IsPlaceOrEnd, IsWithin};

use crate::cut::{cut, halves};
use crate::held::Held;
use crate::segment::{SEGMENT_MOST, Segment, push_shared, set_shared, splice_shared};
use bit_pack::Width;
use mk_value::Memory;
use segments::{Groups, Place, Replaced, Segments, Shared, Splice};
use std::alloc::{AllocError, Global};
use std::marker::Model;

/// A splice of the values of one segment, and how many it has then.
#[derive(Clone, Copy)]
pub(crate) struct Within {
    segment: usize,
    splice: Splice,
    size: usize,
}

/// The segments in order, and how they cut the list of values.
#[derive(Drop)]
pub(crate) struct Spine {
    segments: Groups<Segment>,
    ends: Segments<SEGMENT_MOST>,
}

impl Model for Spine {
    ghost use Rattle.std.specs.Prelude.{List, ℤ};
    ghost use Rattle.int_col.specs.Spine.{IsSpine};

    ghost Value = { List (List ℤ) };

    ghost view = { λ s. s.segments };

    ghost invariant = { λ s. IsSpine s.segments s.ends };
}

impl Clone for Spine {
    ghost is_clone = { λ a b. b ≡ a };

    #[cold]
    #[inline(never)]
    fn clone(&self) -> Result<Spine, AllocError> {
        Ok(Spine {
            segments: self.segments.clone()?,
            ends: self.ends.clone()?,
        })
    }
}

impl Spine {
    /// The spine of these segments.
    pub(crate) fn of_segments(segments: Vec<Shared<Segment>>) -> Result<Spine, Memory>
        requires cut { AreCuts (counts_of segments.items) }
        requires few { length (joined segments.items) ≤ 16777216 }
        ensures { IfOk result (λ spine. spine ≡ segments.items) }
    {
        let alloc = *segments.allocator();
        let counts = counts(alloc, &segments)?;
        Ok(Spine {
            segments: Groups::from_parts(segments)?,
            ends: Segments::from_counts(alloc, &counts)?,
        })
    }

    pub(crate) fn allocator(&self) -> Global {
        self.segments.allocator()
    }

    /// How many segments there are.
    pub(crate) fn segments(&self) -> usize
        ensures count { result ≡ length self.now }
        ensures few { length (joined self.now) ≤ 16777216 }
        ensures cut { AreCuts (counts_of self.now) }
    {
        self.ends.count()
    }

    /// The segment of this number, lent.
    pub(crate) fn segment(&self, k: usize) -> Held<'_>
        requires { k < length self.now }
        ensures count { result.count ≡ length (slice_index_or self.now k []) }
        ensures packed { Packed result.width (slice_index_or self.now k []) result.bytes.now }
    {
        self.segments.get(k).lend()
    }

    /// The least width that holds all values.
    pub(crate) fn width(&self) -> Width
        ensures { IsLeastWidth result (joined self.now) }
    {
        widest(&self.segments)
    }

    /// How many values there are.
    pub(crate) fn len(&self) -> usize
        ensures len { result ≡ length (joined self.now) }
        ensures few { result ≤ 16777216 }
        ensures cut { AreCuts (counts_of self.now) }
    {
        self.ends.len()
    }

    /// Where a value stands.
    fn find(&self, at: usize) -> Place
        requires { at < length (joined self.now) }
        ensures in_range { result.segment < length self.now }
        ensures place { IsPlace (counts_of self.now) at result }
    {
        self.ends.find(at)
    }

    /// The value at a place.
    pub(crate) fn get(&self, at: usize) -> i64
        requires { at < length (joined self.now) }
        ensures { slice_get (joined self.now) at ≡ Some result }
    {
        let place = self.find(at);
        let segment = self.segments.get(place.segment);
        segment.get(place.offset)
    }

    /// Sets one value.
    pub(crate) fn set(&mut self, at: usize, value: i64) -> Result<(), Memory>
        requires { at < length (joined self.old) }
        ensures values { OnOk result (joined self.new ≡ slice_set (joined self.old) at value) }
        ensures cuts { counts_of self.new ≡ counts_of self.old }
        ensures err { OnErr result (self.new ≡ self.old) }
    {
        let place = self.find(at);
        let segment = self.segments.slot(place.segment)?;
        set_shared(segment, place.offset, value)
    }

    /// Copies the values from place `from` on.
    pub(crate) fn copy_values(&self, from: usize, into: &mut [i64])
        requires { from + length into.old ≤ length (joined self.now) }
        ensures { into.new ≡ take (length into.old) (drop from (joined self.now)) }
    {
        let _few = self.len();
        let mut done = 0;
        while done < into.len() {
            done += self.copy_some(from + done, &mut into[done..]);
        }
    }

    /// Copies values of the segment that holds place `from`, as many as there are from there on and the slice takes.
    fn copy_some(&self, from: usize, into: &mut [i64]) -> usize
        requires some { 0 < length into.old }
        requires within { from + length into.old ≤ length (joined self.now) }
        ensures some_copied { 0 < result }
        ensures in_range { result ≤ length into.old }
        ensures values { into.new ≡ take result (drop from (joined self.now)) ++ drop result into.old }
    {
        let place = self.find(from);
        let segment = self.segments.get(place.segment);
        let count = (segment.len() - place.offset).min(into.len());
        segment.copy_values(place.offset, &mut into[..count]);
        count
    }

    /// The segments that a splice replaces.
    fn replaced(&self, splice: &Splice) -> Replaced
        requires { Applies (length (joined self.now)) splice.now }
        ensures covers { Covers (counts_of self.now) splice.now result }
        ensures before { AreApartBefore 2048 (counts_of self.now) result.first (size_after splice.now result) }
        ensures behind { AreApartBehind 2048 (size_after splice.now result) (drop result.after (counts_of self.now)) }
    {
        self.ends.replaced(splice)
    }

    /// The values that stand in place of those of the replaced segments.
    fn values_after(
        &self,
        splice: &Splice,
        value: i64,
        replaced: &Replaced,
    ) -> Result<Vec<i64>, Memory>
        requires applies { Applies (length (joined self.now)) splice.now }
        requires covers { Covers (counts_of self.now) splice.now replaced.now }
        ensures { IfOk result (λ values. values.items ≡ items_after (joined self.now) splice.now replaced.now value) }
    {
        let mut values = Vec::new(self.allocator());
        values.resize(splice.size_after(replaced), value)?;
        self.copy_around(splice, value, replaced, values.as_mut_slice());
        Ok(values)
    }

    /// Copies the values before and behind those that the splice replaces.
    fn copy_around(&self, splice: &Splice, value: i64, replaced: &Replaced, into: &mut [i64])
        requires applies { Applies (length (joined self.now)) splice.now }
        requires covers { Covers (counts_of self.now) splice.now replaced.now }
        requires copies { into.old ≡ replicate (size_after splice.now replaced.now) value }
        ensures { into.new ≡ items_after (joined self.now) splice.now replaced.now value }
    {
        let before = splice.at - replaced.start;
        self.copy_values(replaced.start, &mut into[..before]);
        self.copy_values(splice.end, &mut into[before + splice.count..]);
    }

    /// The one segment that a splice touches, if there is one which has some values after it, room for them, and neighbours that do not
    /// fit into it.
    pub(crate) fn within(&self, splice: &Splice) -> Option<Within>
        requires { Applies (length (joined self.now)) splice.now }
        ensures { IfSome result (IsWithin (counts_of self.now) splice.now) }
    {
        let place = self.place_of(splice.at)?;
        let count = self.count_of(place.segment);
        let end = place.offset + (splice.end - splice.at);
        if end > count {
            return None;
        }
        let size = place.offset + splice.count + (count - end);
        if !self.may_have(place.segment, size) {
            return None;
        }
        Some(Within {
            segment: place.segment,
            splice: Splice {
                at: place.offset,
                end,
                count: splice.count,
            },
            size,
        })
    }

    /// Where a splice begins. The end of the list is in its last segment.
    fn place_of(&self, at: usize) -> Option<Place>
        requires { at ≤ length (joined self.now) }
        ensures { IfSome result (IsPlaceOrEnd (counts_of self.now) at) }
    {
        if at < self.len() {
            return Some(self.find(at));
        }
        self.end_of_last()
    }

    /// The end of the list.
    fn end_of_last(&self) -> Option<Place>
        ensures { IfSome result (IsPlaceOrEnd (counts_of self.now) (length (joined self.now))) }
    {
        let count = self.segments();
        if count == 0 {
            return None;
        }
        let segment = count - 1;
        Some(Place {
            segment,
            offset: self.count_of(segment),
        })
    }

    /// How many values a segment has.
    fn count_of(&self, k: usize) -> usize
        requires { k < length self.now }
        ensures count { result ≡ slice_index (counts_of self.now) k }
        ensures few { result ≤ 2048 }
    {
        self.segments.get(k).len()
    }

    /// Whether a segment may have so many values.
    fn may_have(&self, k: usize, size: usize) -> bool
        requires in_range { k < length self.now }
        requires small { size < 2 ^ 32 }
        ensures cut { OnTrue result (AreCuts (slice_set (counts_of self.now) k size)) }
        ensures few { OnTrue result (size ≤ 2048) }
    {
        if size == 0 {
            return false;
        }
        if SEGMENT_MOST < size {
            return false;
        }
        self.is_apart(k, size)
    }

    /// Whether so many values and those of a segment beside, if there is one, are too many for one segment.
    fn is_apart(&self, k: usize, size: usize) -> bool
        requires in_range { k < length self.now }
        requires some { 0 < size }
        requires few { size ≤ 2048 }
        ensures { OnTrue result (AreCuts (slice_set (counts_of self.now) k size)) }
    {
        // The segments are cut as they have to be.
        let _segments = self.segments();
        if !self.ends_apart(k, size) {
            return false;
        }
        self.begins_apart(k + 1, size)
    }

    /// Makes a splice within one segment, with copies of the value, and the call, or neither. It is done in place where the segment and
    /// its group are this list's alone, and goes over the places where segments end.
    pub(crate) fn splice_within<F: FnMut() -> Result<(), Memory>>(
        &mut self,
        splice: &Splice,
        within: &Within,
        value: i64,
        also: &mut F,
    ) -> Result<(), Memory>
        requires applies { Applies (length (joined self.old)) splice.now }
        requires within { IsWithin (counts_of self.old) splice.now within.now }
        requires also { F.pre also.old }
        ensures ok { OnOk result (joined self.new ≡ spliced (joined self.old) splice.now.at splice.now.end splice.now.count value) }
        ensures err { OnErr result (self.new ≡ self.old) }
        ensures also { Together F.step result also.old also.new }
    {
        let segment = self.segments.slot(within.segment)?;
        splice_shared(segment, &within.splice, value, also)?;
        self.ends.recount(within.segment, within.size);
        Ok(())
    }

    /// A list with a splice made: the replaced segments are cut anew, and the others are shared.
    pub(crate) fn spliced(&self, splice: &Splice, value: i64) -> Result<Spine, Memory>
        requires { Applies (length (joined self.now)) splice.now }
        ensures { IfOk result (λ spine. joined spine ≡ spliced (joined self.now) splice.now.at splice.now.end splice.now.count value) }
    {
        let mut spine = self.clone()?;
        spine.replace(splice, value)?;
        Ok(spine)
    }

    /// Whether the last segment has no room, as where there is none.
    pub(crate) fn is_last_full(&self) -> bool
        ensures yes { OnTrue result (IsLastFull self.now) }
        ensures no { OnFalse result (HasLastRoom self.now) }
        ensures cut { AreCuts (counts_of self.now) }
    {
        match self.segments.last() {
            None => true,
            Some(last) => last.len() == SEGMENT_MOST,
        }
    }

    /// The list of the segments before the last.
    pub(crate) fn without_last(&self) -> Result<Spine, Memory>
        requires { 0 < length self.now }
        ensures { IfOk result (λ spine. spine ≡ take (length self.now - 1) self.now) }
    {
        let count = self.ends.count();
        Ok(Spine {
            segments: self.segments.without_last()?,
            ends: self.ends.spliced(count - 1, count, &[])?,
        })
    }

    /// The values of the last segment, and one more.
    pub(crate) fn last_with(&self, value: i64) -> Result<Vec<i64>, Memory>
        requires { 0 < length self.now }
        ensures { IfOk result (λ values. values.items ≡ slice_index_or self.now (length self.now - 1) [] ++ value ∷ []) }
    {
        let last = self.segments.len() - 1;
        self.segments.get(last).values_with(value)
    }

    /// The list of these segments and one more.
    pub(crate) fn with_last(&self, last: Shared<Segment>) -> Result<Spine, Memory>
        requires { AreSegments (self.now ++ last ∷ []) }
        ensures { IfOk result (λ spine. spine ≡ self.now ++ last ∷ []) }
    {
        let count = self.ends.count();
        let ends = self.ends.spliced(count, count, &[last.get().len()])?;
        let mut segments = self.segments.clone()?;
        segments.push(last)?;
        Ok(Spine { segments, ends })
    }

    /// Whether the last segment takes one more value.
    pub(crate) fn takes(&self, value: i64) -> bool
        ensures { OnTrue result (LastTakes self.now value) }
    {
        match self.segments.last() {
            None => false,
            Some(last) => last.takes(value),
        }
    }

    /// Adds a value that the last segment takes.
    pub(crate) fn push(&mut self, value: i64) -> Result<(), Memory>
        requires takes { LastTakes self.old value }
        requires few { length (joined self.old) < 16777216 }
        ensures ok { OnOk result (joined self.new ≡ joined self.old ++ value ∷ []) }
        ensures err { OnErr result (self.new ≡ self.old) }
    {
        let last = self.segments.len() - 1;
        let segment = self.segments.slot(last)?;
        push_shared(segment, value)?;
        self.ends.extend_last();
        Ok(())
    }

    /// Makes a splice, with copies of the value: the replaced segments are spliced, and all others stay.
    fn replace(&mut self, splice: &Splice, value: i64) -> Result<(), Memory>
        requires { Applies (length (joined self.old)) splice.now }
        ensures ok { OnOk result (joined self.new ≡ spliced (joined self.old) splice.now.at splice.now.end splice.now.count value) }
        ensures err { OnErr result (self.new ≡ self.old) }
    {
        let replaced = self.replaced(splice);
        let values = self.values_after(splice, value, &replaced)?;
        let fresh = self.cut_for(&replaced, &values)?;
        self.put(replaced.first, replaced.after, fresh)
    }

    /// Cuts the values that stand in place of those of the replaced segments: in two halves, which both have room, where they are too many
    /// for one segment, two may stand there and they are as many, and else into full segments and a last one.
    fn cut_for(&self, replaced: &Replaced, values: &[i64]) -> Result<Vec<Shared<Segment>>, Memory>
        requires order { replaced.now.first ≤ replaced.now.after }
        requires in_range { replaced.now.after ≤ length self.now }
        requires few { length values.now ≤ 16777216 }
        requires before { AreApartBefore 2048 (counts_of self.now) replaced.now.first (length values.now) }
        requires behind { AreApartBehind 2048 (length values.now) (drop replaced.now.after (counts_of self.now)) }
        ensures values { IfOk result (λ fresh. joined fresh.items ≡ values.now) }
        ensures cut { IfOk result (λ fresh. AreCuts (take replaced.now.first (counts_of self.now) ++ (counts_of fresh.items ++ drop replaced.now.after (counts_of self.now)))) }
    {
        let alloc = self.segments.allocator();
        let half = values.len() / 2;
        if self.may_stand(replaced, half, values.len() - half) {
            return halves(alloc, values, half);
        }
        cut(alloc, values)
    }

    /// Whether two segments of these counts may stand in place of the replaced.
    fn may_stand(&self, replaced: &Replaced, first: usize, second: usize) -> bool
        requires order { replaced.now.first ≤ replaced.now.after }
        requires in_range { replaced.now.after ≤ length self.now }
        requires first_small { first < 2 ^ 32 }
        requires second_small { second < 2 ^ 32 }
        ensures cut { OnTrue result (AreCuts (take replaced.now.first (counts_of self.now) ++ (first ∷ second ∷ drop replaced.now.after (counts_of self.now)))) }
        ensures few { OnTrue result (first ≤ 2048) }
        ensures second_few { OnTrue result (second ≤ 2048) }
    {
        // The segments are cut as they have to be.
        let _segments = self.segments();
        if SEGMENT_MOST < first {
            return false;
        }
        if SEGMENT_MOST < second {
            return false;
        }
        if first + second <= SEGMENT_MOST {
            return false;
        }
        if !self.ends_apart(replaced.first, first) {
            return false;
        }
        self.begins_apart(replaced.after, second)
    }

    /// Whether so many values and those of the segment before number `k`, if there is one, are too many for one segment.
    fn ends_apart(&self, k: usize, size: usize) -> bool
        requires in_range { k ≤ length self.now }
        requires small { size < 2 ^ 32 }
        ensures { OnTrue result ((j : ℕ) → k ≡ suc j → 2048 < slice_index (counts_of self.now) j + size) }
    {
        k == 0 || SEGMENT_MOST < self.count_of(k - 1) + size
    }

    /// Whether so many values and those of segment `k`, if there is one, are too many for one segment.
    fn begins_apart(&self, k: usize, size: usize) -> bool
        requires in_range { k ≤ length self.now }
        requires small { size < 2 ^ 32 }
        ensures { OnTrue result (k < length (counts_of self.now) → 2048 < size + slice_index (counts_of self.now) k) }
    {
        k == self.segments() || SEGMENT_MOST < size + self.count_of(k)
    }

    /// Puts segments in place of those from `first` up to `after`.
    fn put(&mut self, first: usize, after: usize, fresh: Vec<Shared<Segment>>) -> Result<(), Memory>
        requires order { first ≤ after }
        requires in_range { after ≤ length self.old }
        requires cut { AreCuts (take first (counts_of self.old) ++ (counts_of fresh.items ++ drop after (counts_of self.old))) }
        requires few { sum (take first (counts_of self.old) ++ (counts_of fresh.items ++ drop after (counts_of self.old))) ≤ 16777216 }
        ensures ok { OnOk result (self.new ≡ take first self.old ++ (fresh.items ++ drop after self.old)) }
        ensures err { OnErr result (self.new ≡ self.old) }
    {
        let counts = counts(self.allocator(), &fresh)?;
        let ends = self.ends.spliced(first, after, &counts)?;
        self.segments.replace(first, after, fresh)?;
        self.ends = ends;
        Ok(())
    }
}

/// The least width that holds the values of all segments.
fn widest(segments: &Groups<Segment>) -> Width
    ensures { IsLeastWidth result (joined segments.now) }
{
    let mut width = Width::W0;
    for k in 0..segments.len() {
        width = width.wider(segments.get(k).width());
    }
    width
}

/// How many values each segment has.
fn counts(alloc: Global, segments: &[Shared<Segment>]) -> Result<Vec<usize>, Memory>
    ensures counts { IfOk result (λ counts. counts.items ≡ counts_of segments.now) }
    ensures few { IfOk result (λ counts. All (λ n. n ≤ 2048) counts.items) }
{
    let mut counts = Vec::with_capacity(alloc, segments.len())?;
    for shared in segments {
        counts.push(shared.get().len())?;
    }
    Ok(counts)
}
