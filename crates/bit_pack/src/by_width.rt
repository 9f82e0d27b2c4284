//! The calls of `lanes` and `runs` at a width that is known only when the program runs. The width is looked at once,
//! before the loop.
ghost use Rattle.std.specs.Prelude.{◌≡◌, ℕ, ℤ, ◌+◌, ◌^◌, ◌<◌, ◌≤◌, ◌↔◌, length, replicate, pos, fold, IsTrue};
ghost use Rattle.std.specs.Int.{int_min, int_max};
ghost use Rattle.bit_pack.specs.Width.{Holds, HoldsAll};
ghost use Rattle.bit_pack.specs.Lane.{Writes};
ghost use Rattle.bit_pack.specs.Packed.{AreBytes, Reaches, PackedAt, packed_len, value_at, values_from};

use crate::lanes::{Lane0, Lane1, Lane2, Lane4, Lane8, Lane16, Lane32, Lane64};
use crate::runs;
use crate::widths::Width;

/// Calls a function at the lane of a width.
macro_rules! at_width {
    ($width:expr, $function:ident($($argument:expr),*)) => {
        match $width {
            Width::W0 => runs::$function::<Lane0>($($argument),*),
            Width::W1 => runs::$function::<Lane1>($($argument),*),
            Width::W2 => runs::$function::<Lane2>($($argument),*),
            Width::W4 => runs::$function::<Lane4>($($argument),*),
            Width::W8 => runs::$function::<Lane8>($($argument),*),
            Width::W16 => runs::$function::<Lane16>($($argument),*),
            Width::W32 => runs::$function::<Lane32>($($argument),*),
            Width::W64 => runs::$function::<Lane64>($($argument),*),
        }
    };
}

/// The value at a place.
pub fn read_one(width: Width, bytes: &[u8], at: usize) -> i64
    requires { Reaches width bytes.now (at + 1) }
    ensures { result ≡ value_at width bytes.now at }
{
    at_width!(width, read_one(bytes, at))
}

/// Writes the value at a place.
pub fn write_one(width: Width, bytes: &mut [u8], at: usize, value: i64)
    requires reaches { Reaches width bytes.old (at + 1) }
    requires holds { Holds width value }
    ensures { AreBytes bytes.old → Writes width bytes.old bytes.new at value }
{
    at_width!(width, write_one(bytes, at, value))
}

/// Reads the values from place `from` on.
pub fn read_run(width: Width, bytes: &[u8], from: usize, into: &mut [i64])
    requires reaches { Reaches width bytes.now (from + length into.old) }
    requires fits { from + length into.old < 2 ^ 64 }
    ensures { into.new ≡ values_from width bytes.now from (length into.old) }
{
    at_width!(width, read_run(bytes, from, into))
}

/// Writes the values over zeros.
pub fn write_run(width: Width, values: &[i64], into: &mut [u8])
    requires held { HoldsAll width values.now }
    requires len { length into.old ≡ packed_len width (length values.now) }
    requires zeros { into.old ≡ replicate (length into.old) 0 }
    ensures { PackedAt width values.now into.new }
{
    at_width!(width, write_run(values, into))
}

/// Whether the width `other` holds each of the first `count` values.
pub fn all_held(width: Width, bytes: &[u8], count: usize, other: Width) -> bool
    requires { Reaches width bytes.now count }
    ensures { IsTrue result ↔ HoldsAll other (values_from width bytes.now 0 count) }
{
    at_width!(width, all_held(bytes, count, other))
}

/// The least and the greatest of the first `count` values and of 0.
pub fn range_in(width: Width, bytes: &[u8], count: usize) -> (i64, i64)
    requires { Reaches width bytes.now count }
    ensures low { result.0 ≡ fold int_min (pos 0) (values_from width bytes.now 0 count) }
    ensures high { result.1 ≡ fold int_max (pos 0) (values_from width bytes.now 0 count) }
{
    at_width!(width, range_in(bytes, count))
}
