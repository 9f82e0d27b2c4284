//! A list of values in segments, which copies of a column share.
ghost use Rattle.std.specs.Prelude.{◌≡◌, ℕ, ℤ, ◌+◌, ◌-◌, ◌<◌, ◌≤◌, List, [], ◌∷◌, ◌++◌, length, slice_get, slice_set, slice_index_or, take, drop, replicate, Some, IfOk, IfErr, OnOk, OnErr};
ghost use Rattle.std.specs.Bool.{OnTrue};
ghost use Rattle.bit_pack.specs.Width.{IsLeastWidth};
ghost use Rattle.bit_pack.specs.Packed.{Packed, PackedAt, values_from};
ghost use Rattle.segments.specs.Splices.{Applies, spliced};
ghost use Rattle.segments.specs.Joined.{joined, counts_of};
ghost use Rattle.segments.specs.Together.{Together};
ghost use Rattle.int_col.specs.Cuts.{AreCuts, full_cuts};
ghost use Rattle.int_col.specs.Segment.{Takes};
ghost use Rattle.int_col.specs.Spine.{LastTakes};
ghost use Rattle.int_col.specs.Within.{IsWithin};

use crate::cut::{cut, cut_packed};
use crate::growing::Growing;
use crate::held::Held;
use crate::segment::{SEGMENT_MOST, Segment, push_shared, set_shared, splice_shared};
use crate::spine::{Spine, Within};
use bit_pack::Width;
use mk_value::Memory;
use segments::{Shared, Splice};
use std::alloc::{AllocError, Global};
use std::marker::Model;

/// What is kept, by the number of segments.
#[derive(Drop)]
pub(crate) enum Kind {
    /// No values, which take no memory.
    Empty(Global),
    /// One segment, and no list of segments.
    One(Shared<Segment>),
    /// The list of the segments. Those that are left may be few.
    Many(Shared<Spine>),
    /// The same, with a last segment that takes values in place.
    Growing(Growing),
}

impl Clone for Kind {
    ghost is_clone = { λ a b. b ≡ a };

    fn clone(&self) -> Result<Kind, AllocError> {
        match self {
            Kind::Empty(alloc) => Ok(Kind::Empty(*alloc)),
            Kind::One(segment) => Ok(Kind::One(segment.clone()?)),
            Kind::Many(spine) => Ok(Kind::Many(spine.clone()?)),
            Kind::Growing(growing) => Ok(Kind::Growing(growing.clone()?)),
        }
    }
}

/// The values in segments. A caller sees the list of the segments, each as the list of its values.
#[derive(Drop)]
pub(crate) struct Segmented {
    kind: Kind,
}

impl Model for Segmented {
    ghost use Rattle.std.specs.Prelude.{List, ℤ};
    ghost use Rattle.int_col.specs.Segmented.{segments_of, IsSegmented};

    ghost Value = { List (List ℤ) };

    ghost view = { λ s. segments_of s.kind };

    ghost invariant = { λ s. IsSegmented s.kind };
}

impl Clone for Segmented {
    ghost is_clone = { λ a b. b ≡ a };

    fn clone(&self) -> Result<Segmented, AllocError> {
        Ok(Segmented {
            kind: self.kind.clone()?,
        })
    }
}

impl Segmented {
    /// These values, cut into full segments and a last one of what is left.
    pub(crate) fn of(alloc: Global, values: &[i64]) -> Result<Segmented, Memory>
        requires { length values.now ≤ 16777216 }
        ensures values { IfOk result (λ segments. joined segments ≡ values.now) }
        ensures cuts { IfOk result (λ segments. counts_of segments ≡ full_cuts (length values.now)) }
    {
        Segmented::of_segments(alloc, cut(alloc, values)?)
    }

    /// The values that are packed in these bytes, cut like those of `of`.
    pub(crate) fn of_packed(
        alloc: Global,
        width: Width,
        count: usize,
        bytes: &[u8],
    ) -> Result<Segmented, Memory>
        requires few { count ≤ 16777216 }
        requires packed { PackedAt width (values_from width bytes.now 0 count) bytes.now }
        ensures values { IfOk result (λ segments. joined segments ≡ values_from width bytes.now 0 count) }
        ensures cuts { IfOk result (λ segments. counts_of segments ≡ full_cuts count) }
    {
        Segmented::of_segments(alloc, cut_packed(alloc, width, count, bytes)?)
    }

    /// These segments.
    fn of_segments(alloc: Global, segments: Vec<Shared<Segment>>) -> Result<Segmented, Memory>
        requires cut { AreCuts (counts_of segments.items) }
        requires few { length (joined segments.items) ≤ 16777216 }
        ensures { IfOk result (λ segmented. segmented ≡ segments.items) }
    {
        if segments.len() > 1 {
            let spine = Spine::of_segments(segments)?;
            return Ok(Segmented {
                kind: Kind::Many(Shared::of(alloc, spine)?),
            });
        }
        Ok(Segmented::of_one(alloc, segments))
    }

    /// At most one segment.
    fn of_one(alloc: Global, mut segments: Vec<Shared<Segment>>) -> Segmented
        requires cut { AreCuts (counts_of segments.items) }
        requires few { length segments.items ≤ 1 }
        ensures { result ≡ segments.items }
    {
        match segments.pop() {
            None => Segmented {
                kind: Kind::Empty(alloc),
            },
            Some(one) => Segmented {
                kind: Kind::One(one),
            },
        }
    }

    pub(crate) fn allocator(&self) -> Global {
        match &self.kind {
            Kind::Empty(alloc) => *alloc,
            Kind::One(segment) => segment.get().allocator(),
            Kind::Many(spine) => spine.get().allocator(),
            Kind::Growing(growing) => growing.allocator(),
        }
    }

    /// How many values there are.
    pub(crate) fn len(&self) -> usize
        ensures len { result ≡ length (joined self.now) }
        ensures few { result ≤ 16777216 }
        ensures cut { AreCuts (counts_of self.now) }
    {
        match &self.kind {
            Kind::Empty(_) => 0,
            Kind::One(segment) => segment.get().len(),
            Kind::Many(spine) => spine.get().len(),
            Kind::Growing(growing) => growing.len(),
        }
    }

    /// How many segments there are.
    pub(crate) fn segments(&self) -> usize
        ensures count { result ≡ length self.now }
        ensures few { length (joined self.now) ≤ 16777216 }
        ensures cut { AreCuts (counts_of self.now) }
    {
        let _few = self.len();
        match &self.kind {
            Kind::Empty(_) => 0,
            Kind::One(_) => 1,
            Kind::Many(spine) => spine.get().segments(),
            Kind::Growing(growing) => growing.segments(),
        }
    }

    /// The segment of this number, lent.
    pub(crate) fn segment(&self, k: usize) -> Held<'_>
        requires { k < length self.now }
        ensures count { result.count ≡ length (slice_index_or self.now k []) }
        ensures packed { Packed result.width (slice_index_or self.now k []) result.bytes.now }
    {
        match &self.kind {
            Kind::Empty(_) => unreachable!(),
            Kind::One(segment) => segment.get().lend(),
            Kind::Many(spine) => spine.get().segment(k),
            Kind::Growing(growing) => growing.segment(k),
        }
    }

    /// The least width that holds all values.
    pub(crate) fn width(&self) -> Width
        ensures { IsLeastWidth result (joined self.now) }
    {
        match &self.kind {
            Kind::Empty(_) => Width::W0,
            Kind::One(segment) => segment.get().width(),
            Kind::Many(spine) => spine.get().width(),
            Kind::Growing(growing) => growing.width(),
        }
    }

    /// The value at a place.
    pub(crate) fn get(&self, at: usize) -> i64
        requires { at < length (joined self.now) }
        ensures { slice_get (joined self.now) at ≡ Some result }
    {
        match &self.kind {
            Kind::Empty(_) => unreachable!(),
            Kind::One(segment) => segment.get().get(at),
            Kind::Many(spine) => spine.get().get(at),
            Kind::Growing(growing) => growing.get(at),
        }
    }

    /// Copies the values from place `from` on.
    pub(crate) fn copy_values(&self, from: usize, into: &mut [i64])
        requires { from + length into.old ≤ length (joined self.now) }
        ensures { into.new ≡ take (length into.old) (drop from (joined self.now)) }
    {
        match &self.kind {
            Kind::Empty(_) => {}
            Kind::One(segment) => segment.get().copy_values(from, into),
            Kind::Many(spine) => spine.get().copy_values(from, into),
            Kind::Growing(growing) => growing.copy_values(from, into),
        }
    }

    /// Sets one value.
    pub(crate) fn set(&mut self, at: usize, value: i64) -> Result<(), Memory>
        requires { at < length (joined self.old) }
        ensures values { OnOk result (joined self.new ≡ slice_set (joined self.old) at value) }
        ensures cuts { counts_of self.new ≡ counts_of self.old }
        ensures err { OnErr result (self.new ≡ self.old) }
    {
        match &mut self.kind {
            Kind::Empty(_) => unreachable!(),
            Kind::One(segment) => set_shared(segment, at, value),
            Kind::Many(spine) => match spine.sole() {
                Some(own) => own.set(at, value),
                None => spine.own()?.set(at, value),
            },
            Kind::Growing(growing) => growing.set(at, value),
        }
    }

    /// Adds a value at the end.
    pub(crate) fn push(&mut self, value: i64) -> Result<(), Memory>
        requires { length (joined self.old) < 16777216 }
        ensures ok { OnOk result (joined self.new ≡ joined self.old ++ value ∷ []) }
        ensures err { OnErr result (self.new ≡ self.old) }
    {
        match &mut self.kind {
            Kind::One(segment) if segment.get().takes(value) => push_shared(segment, value),
            Kind::Many(spine) if spine.get().takes(value) => push_to_list(spine, value),
            _ => self.push_by_splice(value),
        }
    }

    /// Adds a value at the end, where it does not simply stand behind the others.
    fn push_by_splice(&mut self, value: i64) -> Result<(), Memory>
        requires { length (joined self.old) < 16777216 }
        ensures ok { OnOk result (joined self.new ≡ joined self.old ++ value ∷ []) }
        ensures err { OnErr result (self.new ≡ self.old) }
    {
        let at = self.len();
        let end = at;
        self.splice_then(&Splice { at, end, count: 1 }, value, &mut || Ok(()))
    }

    /// Makes a splice, with copies of the value, and the call, or neither. A splice of one segment is made in place, where that is not
    /// shared; else the segments that it touches are cut anew.
    pub(crate) fn splice_then<F: FnMut() -> Result<(), Memory>>(
        &mut self,
        splice: &Splice,
        value: i64,
        also: &mut F,
    ) -> Result<(), Memory>
        requires applies { Applies (length (joined self.old)) splice.now }
        requires also { F.pre also.old }
        ensures ok { OnOk result (joined self.new ≡ spliced (joined self.old) splice.now.at splice.now.end splice.now.count value) }
        ensures err { OnErr result (self.new ≡ self.old) }
        ensures also { Together F.step result also.old also.new }
    {
        match &mut self.kind {
            Kind::One(segment) if fits_in(segment.get(), splice) => {
                splice_shared(segment, splice, value, also)
            }
            Kind::Many(spine) => match spine.get().within(splice) {
                Some(within) => splice_in_list(spine, splice, &within, value, also),
                None => self.splice_anew(splice, value, also),
            },
            _ => self.splice_anew(splice, value, also),
        }
    }

    /// Makes a splice by a copy.
    fn splice_anew<F: FnMut() -> Result<(), Memory>>(
        &mut self,
        splice: &Splice,
        value: i64,
        also: &mut F,
    ) -> Result<(), Memory>
        requires applies { Applies (length (joined self.old)) splice.now }
        requires also { F.pre also.old }
        ensures ok { OnOk result (joined self.new ≡ spliced (joined self.old) splice.now.at splice.now.end splice.now.count value) }
        ensures err { OnErr result (self.new ≡ self.old) }
        ensures also { Together F.step result also.old also.new }
    {
        let fresh = self.spliced(splice, value)?;
        also()?;
        *self = fresh;
        Ok(())
    }

    /// The values with a splice made.
    fn spliced(&self, splice: &Splice, value: i64) -> Result<Segmented, Memory>
        requires { Applies (length (joined self.now)) splice.now }
        ensures { IfOk result (λ fresh. joined fresh ≡ spliced (joined self.now) splice.now.at splice.now.end splice.now.count value) }
    {
        match &self.kind {
            Kind::Many(spine) => of_list(spine.get().spliced(splice, value)?),
            Kind::Growing(growing) => of_list(growing.spliced(splice, value)?),
            _ => self.cut_anew(splice, value),
        }
    }

    /// The same values and one more. Where they are in several segments, the last of them is no other list's.
    pub(crate) fn grown(&self, value: i64) -> Result<Segmented, Memory>
        requires { length (joined self.now) < 16777216 }
        ensures { IfOk result (λ grown. joined grown ≡ joined self.now ++ value ∷ []) }
    {
        match &self.kind {
            Kind::Many(spine) => Ok(Segmented::of_growing(Growing::of_spine(spine, value)?)),
            Kind::Growing(growing) => Ok(Segmented::of_growing(growing.with(value)?)),
            _ => self.copy_with(value),
        }
    }

    /// A copy with one more value.
    fn copy_with(&self, value: i64) -> Result<Segmented, Memory>
        requires { length (joined self.now) < 16777216 }
        ensures { IfOk result (λ copy. joined copy ≡ joined self.now ++ value ∷ []) }
    {
        let mut copy = self.clone()?;
        copy.push(value)?;
        Ok(copy)
    }

    /// These values, which grow in place.
    pub(crate) fn of_growing(growing: Growing) -> Segmented
        ensures { result ≡ growing }
    {
        Segmented {
            kind: Kind::Growing(growing),
        }
    }

    /// The values as they grow, if they take one more in place.
    ///
    /// # Errors
    ///
    /// The values as they are, if they do not.
    pub(crate) fn into_growing(self, value: i64) -> Result<Growing, Segmented>
        ensures same { IfOk result (λ growing. growing ≡ self) }
        ensures takes { OnOk result (LastTakes self value) }
        ensures err { IfErr result (λ same. same ≡ self) }
    {
        let Segmented { kind } = self;
        match kind {
            Kind::Growing(growing) => growing_if(growing, value),
            kind => Err(Segmented { kind }),
        }
    }

    /// All values after a splice, cut anew.
    fn cut_anew(&self, splice: &Splice, value: i64) -> Result<Segmented, Memory>
        requires { Applies (length (joined self.now)) splice.now }
        ensures { IfOk result (λ fresh. joined fresh ≡ spliced (joined self.now) splice.now.at splice.now.end splice.now.count value) }
    {
        let values = self.values_after(splice, value)?;
        Segmented::of(*values.allocator(), &values)
    }

    /// The values after an edit.
    fn values_after(&self, splice: &Splice, value: i64) -> Result<Vec<i64>, Memory>
        requires { Applies (length (joined self.now)) splice.now }
        ensures { IfOk result (λ values. values.items ≡ spliced (joined self.now) splice.now.at splice.now.end splice.now.count value) }
    {
        let mut values = Vec::new(self.allocator());
        values.resize(splice.at + splice.count + (self.len() - splice.end), value)?;
        self.copy_around(splice, value, values.as_mut_slice());
        Ok(values)
    }

    /// Copies the values before and behind those that the edit replaces.
    fn copy_around(&self, splice: &Splice, value: i64, into: &mut [i64])
        requires applies { Applies (length (joined self.now)) splice.now }
        requires copies { into.old ≡ replicate (splice.now.at + splice.now.count + (length (joined self.now) - splice.now.end)) value }
        ensures { into.new ≡ spliced (joined self.now) splice.now.at splice.now.end splice.now.count value }
    {
        self.copy_values(0, &mut into[..splice.at]);
        self.copy_values(splice.end, &mut into[splice.at + splice.count..]);
    }
}

/// Whether a segment has some values after a splice, and room for them.
fn fits_in(segment: &Segment, splice: &Splice) -> bool
    requires { Applies (length segment.now) splice.now }
    ensures some { OnTrue result (0 < splice.now.at + splice.now.count + (length segment.now - splice.now.end)) }
    ensures room { OnTrue result (splice.now.at + splice.now.count + (length segment.now - splice.now.end) ≤ 2048) }
{
    let size = splice.at + splice.count + (segment.len() - splice.end);
    0 < size && size <= SEGMENT_MOST
}

/// The values of a list.
fn of_list(spine: Spine) -> Result<Segmented, Memory>
    ensures { IfOk result (λ segmented. segmented ≡ spine) }
{
    let alloc = spine.allocator();
    Ok(Segmented {
        kind: Kind::Many(Shared::of(alloc, spine)?),
    })
}

/// Adds a value that the last segment of a list takes. Other owners keep the list as it was.
fn push_to_list(list: &mut Shared<Spine>, value: i64) -> Result<(), Memory>
    requires takes { LastTakes list.old value }
    requires few { length (joined list.old) < 16777216 }
    ensures ok { OnOk result (joined list.new ≡ joined list.old ++ value ∷ []) }
    ensures err { OnErr result (list.new ≡ list.old) }
{
    match list.sole() {
        Some(own) => own.push(value),
        None => list.own()?.push(value),
    }
}

/// Makes a splice of one segment of a list, and the call, or neither. Other owners keep the list as it was.
fn splice_in_list<F: FnMut() -> Result<(), Memory>>(
    list: &mut Shared<Spine>,
    splice: &Splice,
    within: &Within,
    value: i64,
    also: &mut F,
) -> Result<(), Memory>
    requires applies { Applies (length (joined list.old)) splice.now }
    requires within { IsWithin (counts_of list.old) splice.now within.now }
    requires also { F.pre also.old }
    ensures ok { OnOk result (joined list.new ≡ spliced (joined list.old) splice.now.at splice.now.end splice.now.count value) }
    ensures err { OnErr result (list.new ≡ list.old) }
    ensures also { Together F.step result also.old also.new }
{
    match list.sole() {
        Some(own) => own.splice_within(splice, within, value, also),
        None => list.own()?.splice_within(splice, within, value, also),
    }
}

/// The values as they grow, if they take one more in place, and else the values as they are.
fn growing_if(growing: Growing, value: i64) -> Result<Growing, Segmented>
    ensures same { IfOk result (λ same. same ≡ growing) }
    ensures takes { OnOk result (LastTakes growing value) }
    ensures err { IfErr result (λ same. same ≡ growing) }
{
    if growing.takes(value) {
        Ok(growing)
    } else {
        Err(Segmented::of_growing(growing))
    }
}
