//! Values cut into segments: full ones, and a last one of what is left.
ghost use Rattle.std.specs.Prelude.{◌≡◌, ℕ, ◌+◌, ◌-◌, ◌<◌, ◌≤◌, [], ◌∷◌, length, take, drop, IfOk};
ghost use Rattle.bit_pack.specs.Packed.{PackedAt, values_from};
ghost use Rattle.segments.specs.Joined.{joined, counts_of};
ghost use Rattle.int_col.specs.Cuts.{full_cuts};

use crate::segment::{SEGMENT_MOST, Segment};
use bit_pack::Width;
use mk_value::Memory;
use segments::Shared;
use std::alloc::Global;

/// Cuts values.
pub(crate) fn cut(alloc: Global, values: &[i64]) -> Result<Vec<Shared<Segment>>, Memory>
    requires { length values.now ≤ 16777216 }
    ensures values { IfOk result (λ segments. joined segments.items ≡ values.now) }
    ensures cuts { IfOk result (λ segments. counts_of segments.items ≡ full_cuts (length values.now)) }
{
    let mut segments = Vec::new(alloc);
    let mut from = 0;
    while from < values.len() {
        let to = (from + SEGMENT_MOST).min(values.len());
        segments.push(shared(alloc, &values[from..to])?)?;
        from = to;
    }
    Ok(segments)
}

/// Cuts values in two, the first part of which has so many.
pub(crate) fn halves(
    alloc: Global,
    values: &[i64],
    first: usize,
) -> Result<Vec<Shared<Segment>>, Memory>
    requires within { first ≤ length values.now }
    requires first_few { first ≤ 2048 }
    requires rest_few { length values.now - first ≤ 2048 }
    ensures values { IfOk result (λ segments. joined segments.items ≡ values.now) }
    ensures counts { IfOk result (λ segments. counts_of segments.items ≡ first ∷ (length values.now - first) ∷ []) }
{
    let before = shared(alloc, &values[..first])?;
    let behind = shared(alloc, &values[first..])?;
    Ok(Vec::from_array(alloc, [before, behind])?)
}

/// A segment of these values.
fn shared(alloc: Global, values: &[i64]) -> Result<Shared<Segment>, Memory>
    requires { length values.now ≤ 2048 }
    ensures { IfOk result (λ segment. segment ≡ values.now) }
{
    Shared::of(alloc, Segment::of(alloc, values)?)
}

/// Cuts packed values. The bytes of a segment that needs the width itself are copied.
pub(crate) fn cut_packed(
    alloc: Global,
    width: Width,
    count: usize,
    bytes: &[u8],
) -> Result<Vec<Shared<Segment>>, Memory>
    requires few { count ≤ 16777216 }
    requires packed { PackedAt width (values_from width bytes.now 0 count) bytes.now }
    ensures values { IfOk result (λ segments. joined segments.items ≡ values_from width bytes.now 0 count) }
    ensures cuts { IfOk result (λ segments. counts_of segments.items ≡ full_cuts count) }
{
    let mut segments = Vec::new(alloc);
    let mut from = 0;
    while from < count {
        let to = (from + SEGMENT_MOST).min(count);
        let part = &bytes[width.packed_len(from)..width.packed_len(to)];
        segments.push(shared_packed(alloc, width, to - from, part)?)?;
        from = to;
    }
    Ok(segments)
}

/// A segment of the values that are packed in these bytes.
fn shared_packed(
    alloc: Global,
    width: Width,
    count: usize,
    bytes: &[u8],
) -> Result<Shared<Segment>, Memory>
    requires few { count ≤ 2048 }
    requires packed { PackedAt width (values_from width bytes.now 0 count) bytes.now }
    ensures { IfOk result (λ segment. segment ≡ values_from width bytes.now 0 count) }
{
    Shared::of(alloc, Segment::of_packed(alloc, width, count, bytes)?)
}
