//! Where each segment ends.
ghost use Rattle.std.specs.Prelude.{◌≡◌, ℕ, ◌+◌, ◌-◌, ◌%◌, ◌^◌, ◌<◌, ◌≤◌, ◌⊎◌, [], ◌++◌, length, take, drop, sum, slice_index, slice_set, All, IfOk};
ghost use Rattle.std.specs.Bool.{OnTrue, OnFalse};
ghost use Rattle.segments.specs.Segments.{start_of, IsPlace};
ghost use Rattle.segments.specs.Splices.{Applies, Covers, HoldsItem, IsNeeded, WithBefore, WithBehind, FitsBehind, IsApartBehind, TakesNeighbors, size_after};

use crate::ends::{first_end_above, first_ends, move_ends, push_ends, push_moved};
use crate::splice::{Replaced, Splice};
use mk_value::Memory;
use std::alloc::{AllocError, Global};
use std::marker::Model;

/// Where an item stands: its segment, and its place in that segment, both counted from 0.
#[derive(Clone, Copy, Debug)]
pub struct Place {
    pub segment: usize,
    pub offset: usize,
}

/// How a list of at most 16,777,216 items is cut into segments of at most `MOST` items each. A caller sees the counts of
/// the segments, in order.
#[derive(Debug, Drop)]
pub struct Segments<const MOST: usize> {
    ends: Vec<usize>,
}

impl<const MOST: usize> Model for Segments<MOST> {
    ghost use Rattle.std.specs.Prelude.{List, ℕ};
    ghost use Rattle.segments.specs.Segments.{counts_from, AreEnds};

    ghost Value = { List ℕ };

    ghost view = { λ r. counts_from 0 r.ends.items };

    ghost invariant = { λ r. AreEnds MOST r.ends.items };
}

impl<const MOST: usize> Clone for Segments<MOST> {
    ghost is_clone = { λ a b. b ≡ a };

    fn clone(&self) -> Result<Segments<MOST>, AllocError> {
        Ok(Segments {
            ends: Vec::from_slice(*self.ends.allocator(), &self.ends)?,
        })
    }
}

impl<const MOST: usize> Segments<MOST> {
    /// No segments. It takes no memory.
    pub fn new(alloc: Global) -> Segments<MOST>
        requires { 0 < MOST }
        ensures { result ≡ [] }
    {
        Segments {
            ends: Vec::new(alloc),
        }
    }

    /// Segments of these counts.
    ///
    /// # Errors
    ///
    /// `Memory`.
    pub fn from_counts(alloc: Global, counts: &[usize]) -> Result<Segments<MOST>, Memory>
        requires some { 0 < MOST }
        requires each { All (λ n. n ≤ MOST) counts.now }
        requires few { sum counts.now ≤ 16777216 }
        ensures { IfOk result (λ segments. segments ≡ counts.now) }
    {
        let mut ends = Vec::new(alloc);
        push_ends(&mut ends, 0, counts)?;
        Ok(Segments { ends })
    }

    /// How many segments there are.
    pub fn count(&self) -> usize
        ensures count { result ≡ length self.now }
        ensures few { sum self.now ≤ 16777216 }
    {
        self.ends.len()
    }

    /// How many items there are.
    pub fn len(&self) -> usize
        ensures len { result ≡ sum self.now }
        ensures few { result ≤ 16777216 }
    {
        self.start(self.ends.len())
    }

    /// Where segment `k` begins.
    fn start(&self, k: usize) -> usize
        requires { k ≤ length self.now }
        ensures start { result ≡ start_of self.now k }
        ensures few { sum self.now ≤ 16777216 }
    {
        if k == 0 { 0 } else { self.ends[k - 1] }
    }

    /// Where the item at a place of the whole list stands.
    ///
    /// In a list of full segments it is found at once, and else by a binary search.
    pub fn find(&self, at: usize) -> Place
        requires { at < sum self.now }
        ensures { IsPlace self.now at result }
    {
        let segment = first_end_above(&self.ends, at / MOST, at);
        Place {
            segment,
            offset: at - self.start(segment),
        }
    }

    /// The segments that a splice replaces: those that hold the items from `at` up to `end`, or where there are no such
    /// items the one that holds the place between.
    ///
    /// The segment before these is taken in where it and the items after the splice fit into one segment. Then the segment behind
    /// is taken in where its items fit into the last of the segments that the others are cut into, all full but the last.
    pub fn replaced(&self, splice: &Splice) -> Replaced
        requires { Applies (sum self.now) splice.now }
        ensures covers { Covers self.now splice.now result }
        ensures neighbors { TakesNeighbors MOST self.now splice.now result }
    {
        let replaced = self.with_before(splice, self.covering(splice));
        self.with_behind(splice, replaced)
    }

    /// These segments with others in place of those from `first` up to `after`.
    ///
    /// # Errors
    ///
    /// `Memory`.
    pub fn spliced(
        &self,
        first: usize,
        after: usize,
        fresh: &[usize],
    ) -> Result<Segments<MOST>, Memory>
        requires order { first ≤ after }
        requires in_range { after ≤ length self.now }
        requires each { All (λ n. n ≤ MOST) fresh.now }
        requires few { sum (take first self.now ++ (fresh.now ++ drop after self.now)) ≤ 16777216 }
        ensures { IfOk result (λ segments. segments ≡ take first self.now ++ (fresh.now ++ drop after self.now)) }
    {
        let mut ends = first_ends(*self.ends.allocator(), &self.ends, first)?;
        let stop = push_ends(&mut ends, self.start(first), fresh)?;
        push_moved(&mut ends, &self.ends, after, self.start(after), stop)?;
        Ok(Segments { ends })
    }

    /// Adds one item to the last segment, which has room. It takes no memory.
    pub fn extend_last(&mut self)
        requires some { 0 < length self.old }
        requires room { slice_index self.old (length self.old - 1) < MOST }
        requires few { sum self.old < 16777216 }
        ensures { self.new ≡ slice_set self.old (length self.old - 1) (slice_index self.old (length self.old - 1) + 1) }
    {
        let last = self.ends.len() - 1;
        self.ends[last] += 1;
    }

    /// Gives a segment another count of items. It takes no memory, and goes over the ends of the segments from there on.
    pub fn recount(&mut self, k: usize, count: usize)
        requires in_range { k < length self.old }
        requires count { count ≤ MOST }
        requires few { sum (slice_set self.old k count) ≤ 16777216 }
        ensures { self.new ≡ slice_set self.old k count }
    {
        let from = self.ends[k];
        let to = self.start(k) + count;
        move_ends(&mut self.ends, k, from, to);
    }

    /// The segments that a splice needs.
    fn covering(&self, splice: &Splice) -> Replaced
        requires { Applies (sum self.now) splice.now }
        ensures { IsNeeded self.now splice.now result }
    {
        let first = self.first_replaced(splice.at);
        let start = self.start(first);
        let after = self.after_replaced(first, start, splice.end);
        let stop = self.start(after);
        Replaced {
            first,
            after,
            start,
            stop,
        }
    }

    /// The segment that holds place `at`, or the count of segments where none does.
    fn first_replaced(&self, at: usize) -> usize
        requires { at ≤ sum self.now }
        ensures in_range { result ≤ length self.now }
        ensures before { start_of self.now result ≤ at }
        ensures holds { at < sum self.now → HoldsItem self.now result at }
        ensures none { at ≡ sum self.now → result ≡ length self.now }
    {
        if at == self.len() {
            self.ends.len()
        } else {
            self.find(at).segment
        }
    }

    /// The segment behind the last that holds a place from `start` up to `end`, where segment `first` begins at `start`.
    fn after_replaced(&self, first: usize, start: usize, end: usize) -> usize
        requires in_range { first ≤ length self.now }
        requires start { start ≡ start_of self.now first }
        requires order { start ≤ end }
        requires within { end ≤ sum self.now }
        ensures in_range { result ≤ length self.now }
        ensures order { first ≤ result }
        ensures behind { end ≤ start_of self.now result }
        ensures holds { start < end → (k : ℕ) × (result ≡ k + 1) × HoldsItem self.now k (end - 1) }
        ensures none { end ≡ start → result ≡ first }
    {
        // The ends bound the segment.
        let _ = &self.ends;
        if end == start {
            first
        } else {
            self.find(end - 1).segment + 1
        }
    }

    /// With the segment before, where it and the items after the splice fit into one segment.
    fn with_before(&self, splice: &Splice, replaced: Replaced) -> Replaced
        requires applies { Applies (sum self.now) splice.now }
        requires covers { Covers self.now splice.now replaced }
        ensures covers { Covers self.now splice.now result }
        ensures before { WithBefore MOST self.now splice.now replaced result }
    {
        if replaced.first == 0 {
            return replaced;
        }
        let first = replaced.first - 1;
        let start = self.start(first);
        if replaced.start - start + splice.size_after(&replaced) > MOST {
            return replaced;
        }
        Replaced {
            first,
            start,
            ..replaced
        }
    }

    /// With the segment behind, where its items fit into the last segment of those in place of the replaced.
    fn with_behind(&self, splice: &Splice, replaced: Replaced) -> Replaced
        requires applies { Applies (sum self.now) splice.now }
        requires covers { Covers self.now splice.now replaced }
        ensures covers { Covers self.now splice.now result }
        ensures behind { WithBehind MOST self.now splice.now replaced result }
    {
        if replaced.after == self.ends.len() {
            return replaced;
        }
        let after = replaced.after + 1;
        let stop = self.start(after);
        if !fits_behind(MOST, splice.size_after(&replaced), stop - replaced.stop) {
            return replaced;
        }
        Replaced {
            after,
            stop,
            ..replaced
        }
    }
}

/// Whether so many items more fit into the last of the segments that `size` items are cut into, all full but the last.
fn fits_behind(most: usize, size: usize, more: usize) -> bool
    requires some { 0 < most }
    requires size_few { size ≤ 16777216 }
    requires more_few { more ≤ 16777216 }
    ensures yes { OnTrue result (FitsBehind most size more) }
    ensures no { OnFalse result (IsApartBehind most size more) }
{
    let last = size % most;
    size == 0 || (last != 0 && last + more <= most)
}
