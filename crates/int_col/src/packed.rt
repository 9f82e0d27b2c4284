//! The packed bytes of a column, one piece after another.
ghost use Rattle.std.specs.Prelude.{◌≡◌, ℕ, ◌+◌, ◌-◌, ◌<◌, ◌≤◌, ◌==◌, length, take, drop};
ghost use Rattle.bit_pack.specs.Packed.{packed};
ghost use Rattle.segments.specs.Joined.{joined};

use crate::segmented::Segmented;
use bit_pack::Width;
use std::marker::Model;

/// What is still to be written of the packed bytes of a column. A caller sees the bytes to come.
///
/// The width is looked up once, so that the pieces together cost about what one piece costs.
#[derive(Drop)]
pub struct PackedBytes<'a> {
    segments: &'a Segmented,
    width: Width,
    from: usize,
}

impl<'a> Model for PackedBytes<'a> {
    ghost use Rattle.std.specs.Prelude.{List, ℕ, drop};
    ghost use Rattle.bit_pack.specs.Packed.{packing};
    ghost use Rattle.segments.specs.Joined.{joined};
    ghost use Rattle.int_col.specs.Segmented.{IsCursor};

    ghost Value = { List ℕ };

    ghost view = { λ p. drop p.from (packing p.width (joined p.segments.now)) };

    ghost invariant = { λ p. IsCursor p.width (joined p.segments.now) p.from };
}

impl<'a> PackedBytes<'a> {
    /// All bytes of these values.
    pub(crate) fn of(segments: &'a Segmented) -> PackedBytes<'a>
        ensures { result ≡ packed (joined segments.now) }
    {
        let _few = segments.len();
        PackedBytes {
            segments,
            width: segments.width(),
            from: 0,
        }
    }

    /// How many bytes are to come.
    pub fn len(&self) -> usize
        ensures { result ≡ length self.now }
    {
        self.width.packed_len(self.segments.len()) - self.from
    }

    /// Whether none are to come.
    pub fn is_empty(&self) -> bool
        ensures { result ≡ (length self.now == 0) }
    {
        self.len() == 0
    }

    /// Writes the next bytes, as many as the slice takes. It takes no memory.
    pub fn fill(&mut self, into: &mut [u8])
        requires { length into.old ≤ length self.old }
        ensures bytes { into.new ≡ take (length into.old) self.old }
        ensures rest { self.new ≡ drop (length into.old) self.old }
    {
        self.segments.fill(self.width, self.from, into);
        self.from += into.len();
    }
}
