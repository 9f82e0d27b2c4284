//! The blocks of small homes, each in six bytes.
ghost use Rattle.std.specs.Prelude.{◌≡◌};
ghost use Rattle.std.specs.Bool.{OnTrue};
ghost use Rattle.tables.specs.Compact.{IsCompact};

use mk_value::Span;
use std::marker::Model;

/// A block whose place is a multiple of 16 below 2^36 and whose length is below 2^16, in six bytes. A caller sees its span.
#[derive(Clone, Copy)]
pub struct Block {
    /// The lower 16 bits of the place divided by 16.
    low: u16,
    /// The upper 16 bits of it.
    high: u16,
    /// The length in bytes.
    bytes: u16,
}

impl Model for Block {
    ghost use Rattle.mk_value.specs.declared.span.Span.{Span};

    ghost Value = { Span };

    ghost use Rattle.tables.specs.Compact.{IsInRange, inside_of, inside_again, span_of};

    ghost view = { span_of };

    ghost invariant = { IsInRange };

    ghost inverse = { inside_of };

    ghost inverse_ok = { inside_again };
}

impl Block {
    /// The block of a span.
    pub(crate) fn of(span: Span) -> Block
        requires { IsCompact span }
        ensures { result ≡ span }
    {
        let sixteenths = span.place / 16;
        Block {
            low: (sixteenths % 65_536) as u16,
            high: (sixteenths / 65_536) as u16,
            bytes: span.len as u16,
        }
    }

    /// Where the block stands, and its length, both in bytes.
    pub fn span(&self) -> Span
        ensures { result ≡ self.now }
    {
        let sixteenths = u64::from(self.low) + 65_536 * u64::from(self.high);
        Span {
            place: 16 * sixteenths,
            len: u64::from(self.bytes),
        }
    }
}

/// Whether a span goes into six bytes.
pub(crate) fn is_compact(span: Span) -> bool
    ensures { OnTrue result (IsCompact span) }
{
    span.place % 16 == 0 && span.place < 1 << 36 && span.len < 1 << 16
}
