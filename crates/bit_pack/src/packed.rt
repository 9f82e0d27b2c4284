//! Packing, unpacking, and single values of packed bytes.
ghost use Rattle.std.specs.Prelude.{◌≡◌, ◌≢◌, ℕ, ℤ, List, ◌+◌, ◌*◌, ◌^◌, ◌<◌, ◌≤◌, ◌↔◌, length, slice_get, slice_set, Some, IsTrue, IfOk, IfErr, OnOk};
ghost use Rattle.bit_pack.specs.declared.widths.Width.{Width};
ghost use Rattle.bit_pack.specs.Width.{Holds, HoldsAll, IsLeastWidth};
ghost use Rattle.bit_pack.specs.Packed.{Reaches, HasPadding, PackedAt, Packed, packed, packed_len, value_at, values_from};
ghost use Rattle.bit_pack.specs.Refusal.{IsRefusal, IsWhole};

use crate::by_width;
use crate::error::PackError;
use crate::lists::{Bytes, Values};
use crate::widths::Width;
use std::alloc::Global;

/// The most values that are unpacked at once.
pub const MOST_VALUES: usize = 16_777_216;

/// The value at place `at` of packed bytes.
pub fn get(width: Width, bytes: &[u8], at: usize) -> i64
    requires { Reaches width bytes.now (at + 1) }
    ensures value { result ≡ value_at width bytes.now at }
    ensures packed { (values : List ℤ) → PackedAt width values bytes.now → at < length values
        → slice_get values at ≡ Some result }
{
    by_width::read_one(width, bytes, at)
}

/// Puts a value at place `at` of packed bytes. Each other value stays, and so do the zero bits past the last one.
/// The width may afterwards be wider than the values need.
pub fn put(width: Width, bytes: &mut [u8], at: usize, value: i64)
    requires reaches { Reaches width bytes.old (at + 1) }
    requires holds { Holds width value }
    ensures { (values : List ℤ) → PackedAt width values bytes.old → at < length values
        → PackedAt width (slice_set values at value) bytes.new }
{
    by_width::write_one(width, bytes, at, value);
}

/// Reads the values of packed bytes from place `from` on.
pub fn unpack_into(width: Width, bytes: &[u8], from: usize, into: &mut [i64])
    requires reaches { Reaches width bytes.now (from + length into.old) }
    requires fits { from + length into.old < 2 ^ 64 }
    ensures { into.new ≡ values_from width bytes.now from (length into.old) }
{
    by_width::read_run(width, bytes, from, into);
}

/// Packs the values into bytes that have just room for them. The width need not be the least.
pub fn pack_into(width: Width, values: &[i64], into: &mut [u8])
    requires held { HoldsAll width values.now }
    requires len { length into.old ≡ packed_len width (length values.now) }
    ensures { PackedAt width values.now into.new }
{
    into.fill(0);
    by_width::write_run(width, values, into);
}

/// Whether the width is the least that holds the first `count` values of packed bytes. It stops at the first
/// value that needs the width.
pub fn is_least(width: Width, bytes: &[u8], count: usize) -> bool
    requires { Reaches width bytes.now count }
    ensures { IsTrue result ↔ IsLeastWidth width (values_from width bytes.now 0 count) }
{
    match width.narrower() {
        None => true,
        Some(narrower) => !by_width::all_held(width, bytes, count, narrower),
    }
}

/// The least width that holds the first `count` values of packed bytes.
pub fn least_width(width: Width, bytes: &[u8], count: usize) -> Width
    requires { Reaches width bytes.now count }
    ensures { IsLeastWidth result (values_from width bytes.now 0 count) }
{
    let (low, high) = by_width::range_in(width, bytes, count);
    Width::of(low).wider(Width::of(high))
}

/// Whether a bit past the last of `count` values is set.
fn has_padding(width: Width, bytes: &[u8], count: usize) -> bool
    requires { length bytes.now ≡ packed_len width count }
    ensures { IsTrue result ↔ HasPadding width bytes.now count }
{
    let used = count % 8 * usize::from(width.bits()) % 8;
    used != 0 && bytes[bytes.len() - 1] >> used != 0
}

/// Packs the values at their least width, which the caller has from `width_for`. The one error is `Memory`.
pub fn pack(alloc: Global, width: Width, values: &[i64]) -> Result<Bytes, PackError>
    requires { IsLeastWidth width values.now }
    ensures packed { IfOk result (Packed width values.now) }
    ensures value { IfOk result (λ bytes. bytes ≡ packed values.now) }
    ensures only { IfErr result (λ e. e ≡ PackError.Memory) }
{
    let mut bytes = vec![in alloc; 0; width.packed_len(values.len())]?;
    pack_into(width, values, &mut bytes);
    Ok(Bytes::from(bytes))
}

/// Whether the bytes are `count` values, packed at this width. The causes of the errors exclude one another. It takes
/// no memory.
///
/// # Errors
///
/// In this order:
/// - `Length`, where there are more or fewer bytes than so many values take: how many they take, and how
///   many there are;
/// - `Padding`, where a bit past the last value is set: the place of the last byte;
/// - `NotLeast`, where a smaller width holds the values: the width that was given, and the least one.
pub fn check(width: Width, count: usize, bytes: &[u8]) -> Result<(), PackError>
    requires { count ≤ MOST_VALUES }
    ensures packed { OnOk result (Packed width (values_from width bytes.now 0 count) bytes.now) }
    ensures whole { OnOk result (IsWhole width count bytes.now) }
    ensures refused { IfErr result (IsRefusal width count bytes.now) }
    ensures no_memory { IfErr result (λ e. e ≢ PackError.Memory) }
{
    let len = width.packed_len(count);
    if bytes.len() != len {
        return Err(PackError::Length(len as u64, bytes.len() as u64));
    }
    if has_padding(width, bytes, count) {
        return Err(PackError::Padding(len - 1));
    }
    if !is_least(width, bytes, count) {
        return Err(PackError::NotLeast(width, least_width(width, bytes, count)));
    }
    Ok(())
}

/// The `count` values that the bytes are, packed at this width.
///
/// # Errors
///
/// Those of `check`, and `Memory`, which only bytes that are well packed can get.
pub fn unpack(alloc: Global, width: Width, count: usize, bytes: &[u8]) -> Result<Values, PackError>
    requires { count ≤ MOST_VALUES }
    ensures packed { IfOk result (λ values. Packed width values bytes.now × (length values ≡ count)) }
    ensures value { IfOk result (λ values. bytes.now ≡ packed values) }
    ensures refused { IfErr result (IsRefusal width count bytes.now) }
{
    check(width, count, bytes)?;
    let mut values = vec![in alloc; 0; count]?;
    unpack_into(width, bytes, 0, &mut values);
    Ok(Values::from(values))
}
