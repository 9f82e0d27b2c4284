//! Where blocks go: each to the least place.
ghost use Rattle.std.specs.Prelude.{◌≡◌, ◌<◌, ◌≤◌, All, length, map, IfOk, IfSome, IfNone};
ghost use Rattle.free_space.specs.FreeSpace.{end_of};
ghost use Rattle.free_space.specs.Extents.{extent_end as end_of_extent};
ghost use Rattle.commit_plan.specs.Following.{last_end};
ghost use Rattle.commit_plan.specs.Payloads.{payload_bytes};
ghost use Rattle.commit_plan.specs.Placing.{ArePut, IsPut, OnePasses, Passes};

use crate::parts::payload_len;
use crate::payload::Payload;
use free_space::{FreeMap, extent_end};
use mk_value::{Memory, Span};
use std::alloc::Global;

/// The last end that a file may have: the last multiple of 16 below 2^64.
pub(crate) const LAST_END: u64 = u64::MAX - 15;

/// Takes the span of a block of so many bytes at the least place: none is taken for a block of no bytes, and there is none where the
/// extent would pass the last end.
#[tactic(auto, unfolding(free_space::specs::Extents::extent_len))]
pub(crate) fn place_block(free: &mut FreeMap, len: u64) -> Option<Span>
    requires { 0 < free.old.spare }
    ensures put { IfSome result (IsPut len free.old free.new) }
    ensures passes { IfNone result (Passes len free.old) }
{
    if len == 0 {
        return Some(Span { place: 0, len: 0 });
    }
    let place = free.place(len);
    if len > LAST_END - place {
        return None;
    }
    let span = Span { place, len };
    free.take(span);
    Some(span)
}

/// Takes the spans of blocks one after another. There are none where one of them would pass the last end.
///
/// # Errors
///
/// `Memory`.
pub(crate) fn place_all(
    alloc: Global,
    free: &mut FreeMap,
    payloads: &[Payload],
) -> Result<Option<Vec<Span>>, Memory>
    requires { length payloads.now ≤ free.old.spare }
    ensures put { IfOk result (λ found. IfSome found (λ spans. ArePut (map (λ p. length (payload_bytes p)) payloads.now) free.old free.new spans.items)) }
    ensures passes { IfOk result (λ found. IfNone found (OnePasses (map (λ p. length (payload_bytes p)) payloads.now) free.old)) }
{
    let mut spans = Vec::new(alloc);
    'payloads: for payload in payloads {
        let Some(span) = place_block(free, payload_len(payload)) else {
            return Ok(None);
        };
        spans.push(span)?;
    }
    Ok(Some(spans))
}

/// The greatest of an end and the ends of these extents.
pub(crate) fn end_with(end: u64, spans: &[Span]) -> u64
    requires { All (λ s. end_of_extent s ≤ last_end) spans.now }
    ensures { result ≡ end_of end spans.now }
{
    let mut last = end;
    'spans: for span in spans {
        last = last.max(extent_end(span));
    }
    last
}
