ghost use Rattle.std.specs.Prelude.{◌≡◌, ◌+◌, ◌^◌, ◌<◌, ◌≤◌, ◌∷◌, ◌↔◌, length, All, Contains, IfOk, IfErr, IsOk, IsTrue, OnOk, OnErr, IsPermutation};
ghost use Rattle.std.specs.List.Sorted.{IsPartitionPoint};
ghost use Rattle.free_space.specs.Extents.{AreApart, IsAligned, IsBlock};
ghost use Rattle.free_space.specs.Overlaps.{AreFirstToMeet, IsByPlace, OnOverlap};
ghost use Rattle.free_space.specs.FreeSpace.{IsFree, IsLaidOut, IsLeastPlace, end_of};
ghost use Rattle.free_space.specs.Cursors.{IsCursor};

use crate::cursor::{Cursor, cursors_at, find, reset};
use crate::error::FreeError;
use crate::extent::extent_end;
use crate::overlap::first_to_meet;
use mk_value::{Memory, Span};
use std::alloc::Global;
use std::marker::Model;

/// The extents of a file that are in use, and the floor, below which no block is placed.
#[derive(Debug, Drop)]
pub struct FreeMap {
    floor: u64,
    used: Vec<Span>,
    cursors: Vec<Cursor>,
}

impl Model for FreeMap {
    ghost use Rattle.std.specs.Prelude.{◌-◌, All};
    ghost use Rattle.std.specs.Vec.{vec_capacity, vec_len};
    ghost use Rattle.free_space.specs.Cursors.{IsCursor};
    ghost use Rattle.free_space.specs.Extents.{IsAligned};
    ghost use Rattle.free_space.specs.FreeSpace.{FreeSpace, IsLaidOut};

    ghost Value = { FreeSpace };

    ghost view = { λ m. record {
      floor = m.floor;
      used = m.used.items;
      spare = vec_capacity m.used - vec_len m.used;
    } };

    ghost invariant = { λ m. IsAligned m.floor × IsLaidOut m.used.items × All (IsCursor m.floor m.used.items) m.cursors.items };
}

impl FreeMap {
    /// A free map of the given spans, which may lie below the floor. It takes the time of one sort.
    ///
    /// It refuses spans of which two extents meet by `Overlap`, with the first two neighbors that meet: the spans
    /// are taken by place, and those of one place in their order in the slice. `Memory` may come at any call, and
    /// then says nothing of the spans.
    pub fn from_used(alloc: Global, floor: u64, spans: &[Span]) -> Result<FreeMap, FreeError>
        requires floor_aligned { IsAligned floor }
        requires are_blocks { All IsBlock spans.now }

        ensures floor { IfOk result (λ map. map.floor ≡ floor) }
        ensures used { IfOk result (λ map. IsByPlace spans.now map.used) }
        ensures laid_out { IfOk result (λ map. IsLaidOut map.used) }

        // `Overlap` comes exactly where two extents meet, unless memory is wanting.
        ensures apart { OnOk result (AreApart spans.now) }
        ensures meeting { IfErr result (λ error. OnOverlap error (λ _ _. ¬ AreApart spans.now)) }
        ensures overlap { IfErr result (λ error. OnOverlap error (AreFirstToMeet spans.now)) }
    {
        let mut used = Vec::from_slice(alloc, spans)?;
        used.sort_by_key(|span| span.place)?;
        let cursors = cursors_at(alloc, floor)?;
        if let Some((one, other)) = first_to_meet(&used) {
            return Err(FreeError::Overlap(one, other));
        }
        Ok(FreeMap {
            floor,
            used,
            cursors,
        })
    }

    /// The least place for a block of `len` bytes: the least multiple of 16, at or above the floor, at which its
    /// extent meets no used one. There is always one, at or below `end`, but the end of an extent there may not fit
    /// in a `u64`.
    ///
    /// It looks at no gap below the first that was free for a block of about this length when one was taken last, so
    /// blocks of few lengths are placed and taken in time that hardly grows with the number of used spans.
    pub fn place(&self, len: u64) -> u64
        requires { 0 < len }
        ensures least { IsLeastPlace self.now.floor self.now.used len result }
        ensures within { result ≤ end_of self.now.floor self.now.used }
    {
        let place = self.cursor_place(len);
        self.least_from(Cursor { len, place })
    }

    /// A place below which no block of `len` bytes can stand.
    fn cursor_place(&self, len: u64) -> u64
        requires { 0 < len }
        ensures { IsCursor self.now.floor self.now.used (record { len = len; place = result }) }
    {
        match find(&self.cursors, len) {
            Some(at) => self.cursors[at].place,
            None => self.floor,
        }
    }

    /// The least place for a block of the cursor's length. Each used span from the cursor on is looked at once at most.
    fn least_from(&self, from: Cursor) -> u64
        requires { IsCursor self.now.floor self.now.used from }
        ensures least { IsLeastPlace self.now.floor self.now.used from.len result }
        ensures within { result ≤ end_of self.now.floor self.now.used }
    {
        let mut place = from.place;
        // Of the spans that begin below the cursor only the last may end past it.
        for at in self.count_below(from.place).saturating_sub(1)..self.used.len() {
            let span = self.used[at];
            if fits_before(place, from.len, &span) {
                return place;
            }
            place = place.max(extent_end(&span));
        }
        place
    }

    /// Takes memory so that `more` further spans can be taken without any. On an error the map is as it was.
    pub fn reserve(&mut self, more: usize) -> Result<(), Memory>
        ensures floor { self.new.floor ≡ self.old.floor }
        ensures used { self.new.used ≡ self.old.used }
        ensures ok { OnOk result (more ≤ self.new.spare) }
        ensures err { OnErr result (self.new.spare ≡ self.old.spare) }
        ensures no_less { self.old.spare ≤ self.new.spare }
        ensures succeeds { more ≤ self.old.spare → IsOk result }
    {
        self.used.reserve(more)?;
        Ok(())
    }

    /// Adds a span to the used ones. It takes no memory, and lowers what is reserved by one. The spans of higher
    /// places are moved up, so its time grows with their number, as that of `give` does.
    pub fn take(&mut self, span: Span)
        requires block { IsBlock span }
        requires from_floor { self.old.floor ≤ span.place }
        requires free { IsFree self.old.used span }
        requires reserved { 0 < self.old.spare }

        ensures floor { self.new.floor ≡ self.old.floor }
        ensures used { IsPermutation (span ∷ self.old.used) self.new.used }
        ensures laid_out { IsLaidOut self.new.used }
        ensures spare { self.new.spare + 1 ≡ self.old.spare }
    {
        let at = self.count_below(span.place);
        if self.used.insert(at, span).is_err() {
            unreachable!();
        }
        self.advance(span.len);
    }

    /// Moves the cursor of a length to the least place for it.
    fn advance(&mut self, len: u64)
        ensures { self.new ≡ self.old }
    {
        if let Some(at) = find(&self.cursors, len) {
            let place = self.least_from(self.cursors[at]);
            self.cursors[at].place = place;
        }
    }

    /// Frees a used span, which leaves room for one more. The next search of each length begins at the floor again.
    pub fn give(&mut self, span: Span)
        requires { Contains self.old.used span }

        ensures floor { self.new.floor ≡ self.old.floor }
        ensures used { IsPermutation self.old.used (span ∷ self.new.used) }
        ensures laid_out { IsLaidOut self.new.used }
        ensures spare { self.new.spare ≡ self.old.spare + 1 }
    {
        let at = self.count_below(span.place);
        let _ = self.used.remove(at);
        reset(&mut self.cursors, self.floor);
    }

    /// How many used spans stand below the place.
    fn count_below(&self, place: u64) -> usize
        ensures bound { result ≤ length self.now.used }
        ensures splits { IsPartitionPoint (λ span. span.place < place) (λ span. place ≤ span.place)
            self.now.used result }
    {
        self.used.partition_point(|span| span.place < place)
    }

    /// The greatest of the floor and the ends of the used extents.
    pub fn end(&self) -> u64
        ensures { result ≡ end_of self.now.floor self.now.used }
    {
        match self.used.last() {
            Some(last) => self.floor.max(extent_end(last)),
            None => self.floor,
        }
    }
}

/// Whether a block of `len` bytes at `place` ends at or before the given span.
fn fits_before(place: u64, len: u64, span: &Span) -> bool
    ensures { IsTrue result ↔ (place + len ≤ span.now.place) }
{
    place <= span.place && len <= span.place - place
}
