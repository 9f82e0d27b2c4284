//! A column of integers.
ghost use Rattle.std.specs.Prelude.{◌≡◌, ℕ, ℤ, ◌+◌, ◌-◌, ◌<◌, ◌≤◌, ◌==◌, [], ◌∷◌, ◌++◌, length, take, drop, replicate, slice_get, slice_set, sum, if◌then◌else◌, Some, None, IfOk, IfErr, OnOk, OnErr};
ghost use Rattle.bit_pack.specs.declared.widths.Width.{Width};
ghost use Rattle.bit_pack.specs.Width.{IsLeastWidth};
ghost use Rattle.bit_pack.specs.Packed.{Packed, packed};
ghost use Rattle.bit_pack.specs.Refusal.{IsRefusal};
ghost use Rattle.segments.specs.Together.{Together};
ghost use Rattle.int_col.specs.Cuts.{full_cuts};
ghost use Rattle.int_col.specs.Spine.{numbers_of, LastTakes};
ghost use Rattle.int_col.specs.Numbers.{Numbers, Push, IsColumn, segment_values, home_after, HasPackedBytes, ArePackedBytes};

use crate::growing::Growing;
use crate::held::Held;
use crate::packed::PackedBytes;
use crate::prepared::PreparedPush;
use crate::segmented::Segmented;
use bit_pack::{PackError, Width};
use mk_value::{Memory, Span};
use segments::Splice;
use std::alloc::Global;
use std::marker::Model;

/// A column of at most 16,777,216 integers, and where it stands in a file.
#[derive(Drop)]
pub struct IntCol {
    segments: Segmented,
    home: Option<Span>,
}

impl Model for IntCol {
    ghost use Rattle.int_col.specs.Numbers.{Numbers};
    ghost use Rattle.int_col.specs.Spine.{numbers_of};

    ghost Value = { Numbers };

    ghost view = { λ c. numbers_of c.segments c.home };
}

impl IntCol {
    /// The column of these values, cut into full segments and a last one of what is left.
    ///
    /// # Errors
    ///
    /// `Memory`.
    pub fn from_values(alloc: Global, values: &[i64], home: Option<Span>) -> Result<IntCol, Memory>
        requires { length values.now ≤ 16777216 }
        ensures values { IfOk result (λ column. column.values ≡ values.now) }
        ensures cuts { IfOk result (λ column. column.cuts ≡ full_cuts (length values.now)) }
        ensures home { IfOk result (λ column. column.home ≡ home) }
        ensures column { IfOk result IsColumn }
    {
        let segments = Segmented::of(alloc, values)?;
        Ok(IntCol { segments, home })
    }

    /// The column of the `count` values that these bytes are, packed at this width, cut like those of `from_values`. It goes
    /// segment by segment, and copies the bytes of each segment that needs the width itself.
    ///
    /// # Errors
    ///
    /// Those of `unpack`: `Length`, `Padding`, `NotLeast`, and `Memory`, which only bytes that are well packed can get.
    pub fn from_packed(
        alloc: Global,
        width: Width,
        count: usize,
        bytes: &[u8],
        home: Option<Span>,
    ) -> Result<IntCol, PackError>
        requires { count ≤ 16777216 }
        ensures packed { IfOk result (λ column. Packed width column.values bytes.now × (length column.values ≡ count)) }
        ensures cuts { IfOk result (λ column. column.cuts ≡ full_cuts count) }
        ensures home { IfOk result (λ column. column.home ≡ home) }
        ensures column { IfOk result IsColumn }
        ensures refused { IfErr result (IsRefusal width count bytes.now) }
    {
        bit_pack::check(width, count, bytes)?;
        match Segmented::of_packed(alloc, width, count, bytes) {
            Ok(segments) => Ok(IntCol { segments, home }),
            Err(Memory) => Err(PackError::Memory),
        }
    }

    /// How many values there are.
    pub fn len(&self) -> usize
        ensures len { result ≡ length self.now.values }
        ensures column { IsColumn self.now }
    {
        self.segments.len()
    }

    /// Whether there are no values.
    pub fn is_empty(&self) -> bool
        ensures { result ≡ (length self.now.values == 0) }
    {
        self.len() == 0
    }

    /// How many segments there are.
    pub fn segments(&self) -> usize
        ensures count { result ≡ length self.now.cuts }
        ensures column { IsColumn self.now }
    {
        self.segments.segments()
    }

    /// The segment of this number, counted from 0: how many values it holds, and their bytes, packed at their
    /// least width.
    pub fn segment(&self, k: usize) -> Held<'_>
        requires { k < length self.now.cuts }
        ensures count { slice_get self.now.cuts k ≡ Some result.count }
        ensures packed { Packed result.width (segment_values self.now k) result.bytes.now }
    {
        self.segments.segment(k)
    }

    /// The value at a place.
    pub fn get(&self, at: usize) -> i64
        requires { at < length self.now.values }
        ensures { slice_get self.now.values at ≡ Some result }
    {
        self.segments.get(at)
    }

    /// Reads the values from a place on, as many as the slice takes. It takes no memory.
    pub fn read(&self, from: usize, into: &mut [i64])
        requires { from + length into.old ≤ length self.now.values }
        ensures { into.new ≡ take (length into.old) (drop from self.now.values) }
    {
        self.segments.copy_values(from, into);
    }

    /// Sets the value at a place. The home is then none, also where the value was there before.
    ///
    /// It is done in place where the segment is not shared and the width stays the least that holds its values.
    ///
    /// # Errors
    ///
    /// `Memory`, and the column is as it was.
    pub fn set(&mut self, at: usize, value: i64) -> Result<(), Memory>
        requires { at < length self.old.values }
        ensures ok { OnOk result (self.new ≡ record self.old { values = slice_set self.old.values at value; home = None }) }
        ensures err { OnErr result (self.new ≡ self.old) }
    {
        self.segments.set(at, value)?;
        self.home = None;
        Ok(())
    }

    /// Inserts copies of a value before a place, or at the end. The home is then none, unless there are no copies.
    ///
    /// Where the segment at the place has room, it is done in its bytes, or in a copy of it where it is shared, and the places where
    /// segments end are gone over; else the segments that the copies stand in are cut anew.
    ///
    /// # Errors
    ///
    /// `Memory`, and the column is as it was.
    pub fn insert(&mut self, at: usize, value: i64, count: usize) -> Result<(), Memory>
        requires at { at ≤ length self.old.values }
        requires few { length self.old.values + count ≤ 16777216 }
        ensures values { OnOk result (self.new.values ≡ take at self.old.values ++ (replicate count value ++ drop at self.old.values)) }
        ensures home { OnOk result (self.new.home ≡ home_after count self.old.home) }
        ensures err { OnErr result (self.new ≡ self.old) }
    {
        if count == 0 {
            return Ok(());
        }
        if count == 1 && at == self.len() {
            return self.push(value);
        }
        self.insert_then(at, value, count, &mut || Ok(()))
    }

    /// Adds a value at the end.
    fn push(&mut self, value: i64) -> Result<(), Memory>
        requires { length self.old.values < 16777216 }
        ensures values { OnOk result (self.new.values ≡ self.old.values ++ value ∷ []) }
        ensures home { OnOk result (self.new.home ≡ None) }
        ensures err { OnErr result (self.new ≡ self.old) }
    {
        self.segments.push(value)?;
        self.home = None;
        Ok(())
    }

    /// Inserts copies of a value before a place, or at the end, and makes a call on the way, both or neither: the call is made when
    /// nothing can fail any more but itself. The home is then none.
    ///
    /// # Errors
    ///
    /// `Memory`, and the column is as it was; or the call's.
    pub fn insert_then<F: FnMut() -> Result<(), Memory>>(
        &mut self,
        at: usize,
        value: i64,
        count: usize,
        also: &mut F,
    ) -> Result<(), Memory>
        requires at { at ≤ length self.old.values }
        requires few { length self.old.values + count ≤ 16777216 }
        requires also { F.pre also.old }
        ensures values { OnOk result (self.new.values ≡ take at self.old.values ++ (replicate count value ++ drop at self.old.values)) }
        ensures home { OnOk result (self.new.home ≡ None) }
        ensures err { OnErr result (self.new ≡ self.old) }
        ensures also { Together F.step result also.old also.new }
    {
        let end = at;
        self.segments
            .splice_then(&Splice { at, end, count }, value, also)?;
        self.home = None;
        Ok(())
    }

    /// Makes itself ready for one more value at the end: what then is done with it cannot fail.
    ///
    /// It costs one write in the end where the last segment was made by such a push, has room, and holds the value at its width. Else the
    /// last segment is copied, and where it is full the list of segments.
    ///
    /// # Errors
    ///
    /// The column as it was, for want of memory.
    #[inline(always)]
    pub fn prepare_push(self, value: i64) -> Result<PreparedPush, IntCol>
        requires { length self.values < 16777216 }
        ensures ok { IfOk result (λ prepared. prepared ≡ record { column = self; value = value }) }
        ensures err { IfErr result (λ same. same ≡ self) }
    {
        PreparedPush::of(self, value)
    }

    pub(crate) fn allocator(&self) -> Global {
        self.segments.allocator()
    }

    /// The same values and one more, without a home.
    pub(crate) fn grown(&self, value: i64) -> Result<IntCol, Memory>
        requires { length self.now.values < 16777216 }
        ensures values { IfOk result (λ grown. grown.values ≡ self.now.values ++ value ∷ []) }
        ensures home { IfOk result (λ grown. grown.home ≡ None) }
    {
        Ok(IntCol {
            segments: self.segments.grown(value)?,
            home: None,
        })
    }

    /// The column as it grows, and its home, if it takes one more value in place.
    ///
    /// # Errors
    ///
    /// The column as it is, if it does not.
    #[inline(always)]
    pub(crate) fn into_growing(self, value: i64) -> Result<(Growing, Option<Span>), IntCol>
        ensures same { IfOk result (λ parts. numbers_of parts.0 parts.1 ≡ self) }
        ensures takes { IfOk result (λ parts. LastTakes parts.0 value) }
        ensures err { IfErr result (λ same. same ≡ self) }
    {
        let IntCol { segments, home } = self;
        match segments.into_growing(value) {
            Ok(growing) => Ok((growing, home)),
            Err(segments) => Err(IntCol { segments, home }),
        }
    }

    /// The column of these values, and where it stands in a file.
    #[inline(always)]
    pub(crate) fn of_growing(growing: Growing, home: Option<Span>) -> IntCol
        ensures { result ≡ numbers_of growing home }
    {
        IntCol {
            segments: Segmented::of_growing(growing),
            home,
        }
    }

    /// Removes as many values from a place on. The home is then none, unless none are removed.
    ///
    /// Where they stand in one segment, which has some left and neighbours that do not fit into it, it is done in its bytes, or in a
    /// copy of it where it is shared, and the places where segments end are gone over; else the segments at both ends are cut anew.
    ///
    /// # Errors
    ///
    /// `Memory`, and the column is as it was.
    pub fn remove(&mut self, at: usize, count: usize) -> Result<(), Memory>
        requires { at + count ≤ length self.old.values }
        ensures values { OnOk result (self.new.values ≡ take at self.old.values ++ drop (at + count) self.old.values) }
        ensures home { OnOk result (self.new.home ≡ home_after count self.old.home) }
        ensures err { OnErr result (self.new ≡ self.old) }
    {
        if count == 0 {
            return Ok(());
        }
        self.remove_then(at, count, &mut || Ok(()))
    }

    /// Removes as many values from a place on, and makes a call on the way, both or neither: the call is made when nothing can fail any
    /// more but itself. The home is then none.
    ///
    /// # Errors
    ///
    /// `Memory`, and the column is as it was; or the call's.
    pub fn remove_then<F: FnMut() -> Result<(), Memory>>(
        &mut self,
        at: usize,
        count: usize,
        also: &mut F,
    ) -> Result<(), Memory>
        requires within { at + count ≤ length self.old.values }
        requires also { F.pre also.old }
        ensures values { OnOk result (self.new.values ≡ take at self.old.values ++ drop (at + count) self.old.values) }
        ensures home { OnOk result (self.new.home ≡ None) }
        ensures err { OnErr result (self.new ≡ self.old) }
        ensures also { Together F.step result also.old also.new }
    {
        // The list has few values.
        let _few = self.len();
        let end = at + count;
        self.segments
            .splice_then(&Splice { at, end, count: 0 }, 0, also)?;
        self.home = None;
        Ok(())
    }

    /// The least width that holds all values.
    pub fn width(&self) -> Width
        ensures { IsLeastWidth result self.now.values }
    {
        self.segments.width()
    }

    /// Writes the packed bytes of all values, at their least width, from byte `from` on.
    pub fn fill(&self, from: usize, into: &mut [u8])
        requires { HasPackedBytes self.now.values (from + length into.old) }
        ensures { ArePackedBytes self.now.values from into.new }
    {
        self.segments.fill(self.segments.width(), from, into);
    }

    /// The packed bytes of all values, at their least width, to be written one piece after another.
    pub fn packed(&self) -> PackedBytes<'_>
        ensures { result ≡ packed self.now.values }
    {
        PackedBytes::of(&self.segments)
    }

    /// Where the column stands in a file, if it stands there as it is.
    pub fn home(&self) -> Option<Span>
        ensures { result ≡ self.now.home }
    {
        self.home
    }

    /// Sets the home, and nothing else.
    pub fn settle(&mut self, home: Span)
        ensures { self.new ≡ record self.old { home = Some home } }
    {
        self.home = Some(home);
    }

    /// A copy, which shares all segments.
    ///
    /// # Errors
    ///
    /// `Memory`, where there are as many copies as can be counted.
    pub fn same(&self) -> Result<IntCol, Memory>
        ensures { IfOk result (λ copy. copy ≡ self.now) }
    {
        Ok(IntCol {
            segments: self.segments.clone()?,
            home: self.home,
        })
    }

    /// The same values without a home, which share all segments.
    ///
    /// # Errors
    ///
    /// `Memory`, where there are as many copies as can be counted.
    pub fn unplaced(&self) -> Result<IntCol, Memory>
        ensures { IfOk result (λ copy. copy ≡ record self.now { home = None }) }
    {
        Ok(IntCol {
            segments: self.segments.clone()?,
            home: None,
        })
    }
}
