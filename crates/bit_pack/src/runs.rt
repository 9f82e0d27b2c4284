//! One value and loops over values of a slice of bytes, over any lane.
ghost use Rattle.std.specs.Prelude.{◌≡◌, ℕ, ℤ, ◌+◌, ◌^◌, ◌<◌, ◌≤◌, ◌↔◌, length, replicate, pos, fold, IsTrue};
ghost use Rattle.std.specs.Int.{int_min, int_max};
ghost use Rattle.bit_pack.specs.Width.{Holds, HoldsAll};
ghost use Rattle.bit_pack.specs.Lane.{Writes};
ghost use Rattle.bit_pack.specs.Packed.{AreBytes, Reaches, PackedAt, packed_len, value_at, values_from};

use crate::lanes::Lane;
use crate::widths::Width;

/// The value at a place.
pub fn read_one<L: Lane>(bytes: &[u8], at: usize) -> i64
    requires { Reaches L.width bytes.now (at + 1) }
    ensures { result ≡ value_at L.width bytes.now at }
{
    L::read(bytes, at)
}

/// Writes the value at a place.
pub fn write_one<L: Lane>(bytes: &mut [u8], at: usize, value: i64)
    requires reaches { Reaches L.width bytes.old (at + 1) }
    requires holds { Holds L.width value }
    ensures { AreBytes bytes.old → Writes L.width bytes.old bytes.new at value }
{
    L::write(bytes, at, value);
}

/// Reads the values from place `from` on.
pub fn read_run<L: Lane>(bytes: &[u8], from: usize, into: &mut [i64])
    requires reaches { Reaches L.width bytes.now (from + length into.old) }
    requires fits { from + length into.old < 2 ^ 64 }
    ensures { into.new ≡ values_from L.width bytes.now from (length into.old) }
{
    for (i, value) in into.iter_mut().enumerate() {
        *value = L::read(bytes, from + i);
    }
}

/// Writes the values over zeros.
pub fn write_run<L: Lane>(values: &[i64], into: &mut [u8])
    requires held { HoldsAll L.width values.now }
    requires len { length into.old ≡ packed_len L.width (length values.now) }
    requires zeros { into.old ≡ replicate (length into.old) 0 }
    ensures { PackedAt L.width values.now into.new }
{
    for (at, value) in values.iter().enumerate() {
        L::write(into, at, *value);
    }
}

/// Whether the width holds each of the first `count` values.
pub fn all_held<L: Lane>(bytes: &[u8], count: usize, width: Width) -> bool
    requires { Reaches L.width bytes.now count }
    ensures { IsTrue result ↔ HoldsAll width (values_from L.width bytes.now 0 count) }
{
    let low = width.lowest();
    let high = width.highest();
    for at in 0..count {
        let value = L::read(bytes, at);
        if value < low || high < value {
            return false;
        }
    }
    true
}

/// The least and the greatest of the first `count` values and of 0.
pub fn range_in<L: Lane>(bytes: &[u8], count: usize) -> (i64, i64)
    requires { Reaches L.width bytes.now count }
    ensures low { result.0 ≡ fold int_min (pos 0) (values_from L.width bytes.now 0 count) }
    ensures high { result.1 ≡ fold int_max (pos 0) (values_from L.width bytes.now 0 count) }
{
    let mut low = 0i64;
    let mut high = 0i64;
    for at in 0..count {
        let value = L::read(bytes, at);
        low = low.min(value);
        high = high.max(value);
    }
    (low, high)
}
