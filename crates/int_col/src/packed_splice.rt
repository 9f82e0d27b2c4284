//! Packed values with a splice made of them in their own bytes.
ghost use Rattle.std.specs.Prelude.{◌≡◌, ◌+◌, ◌-◌, ◌%◌, ◌<◌, ◌≤◌, ◌++◌, length, take, drop, replicate, OnOk, vec_capacity};
ghost use Rattle.bit_pack.specs.Width.{Holds, HoldsAll};
ghost use Rattle.bit_pack.specs.Packed.{PackedAt, packed_len, packing, values_from};
ghost use Rattle.segments.specs.Splices.{Applies, spliced};

use crate::segment::SEGMENT_MOST;
use bit_pack::Width;
use mk_value::Memory;
use segments::Splice;

/// How many values stand before the first that is packed anew: so many that they take whole bytes at each width.
const STEP: usize = 8;

/// Makes room for so many bytes in all.
pub(crate) fn reserve(bytes: &mut Vec<u8>, len: usize) -> Result<(), Memory>
    ensures items { bytes.new.items ≡ bytes.old.items }
    ensures room { OnOk result (len ≤ vec_capacity bytes.new) }
{
    bytes.reserve(len.saturating_sub(bytes.len()))?;
    Ok(())
}

/// Makes a splice of packed values, with copies of the value, which the width holds. It takes no memory, and the values before the splice
/// are hardly looked at.
pub(crate) fn splice_packed(
    width: Width,
    bytes: &mut Vec<u8>,
    count: usize,
    splice: &Splice,
    value: i64,
)
    requires few { count ≤ 2048 }
    requires order { splice.now.at ≤ splice.now.end }
    requires within { splice.now.end ≤ count }
    requires room { splice.now.at + splice.now.count + (count - splice.now.end) ≤ 2048 }
    requires reserved { packed_len width (splice.now.at + splice.now.count + (count - splice.now.end)) ≤ vec_capacity bytes.old }
    requires packed { PackedAt width (values_from width bytes.old.items 0 count) bytes.old.items }
    requires held { HoldsAll width (spliced (values_from width bytes.old.items 0 count) splice.now.at splice.now.end splice.now.count value) }
    ensures { PackedAt width (spliced (values_from width bytes.old.items 0 count) splice.now.at splice.now.end splice.now.count value) bytes.new.items }
{
    let mut room = [value; SEGMENT_MOST];
    splice_in_room(width, bytes, count, splice, value, &mut room);
}

/// The same, with room for the values.
fn splice_in_room(
    width: Width,
    bytes: &mut Vec<u8>,
    count: usize,
    splice: &Splice,
    value: i64,
    room: &mut [i64],
)
    requires few { count ≤ 2048 }
    requires order { splice.now.at ≤ splice.now.end }
    requires within { splice.now.end ≤ count }
    requires small { splice.now.at + splice.now.count + (count - splice.now.end) ≤ 2048 }
    requires reserved { packed_len width (splice.now.at + splice.now.count + (count - splice.now.end)) ≤ vec_capacity bytes.old }
    requires packed { PackedAt width (values_from width bytes.old.items 0 count) bytes.old.items }
    requires held { HoldsAll width (spliced (values_from width bytes.old.items 0 count) splice.now.at splice.now.end splice.now.count value) }
    requires copies { room.old ≡ replicate 2048 value }
    ensures { PackedAt width (spliced (values_from width bytes.old.items 0 count) splice.now.at splice.now.end splice.now.count value) bytes.new.items }
{
    let from = splice.at - splice.at % STEP;
    let size = splice.at - from + splice.count + (count - splice.end);
    splice_behind(width, bytes, count, from, splice, value, &mut room[..size]);
}

/// The same from place `from` on, which stands at whole bytes, with room for the values from there on.
fn splice_behind(
    width: Width,
    bytes: &mut Vec<u8>,
    count: usize,
    from: usize,
    splice: &Splice,
    value: i64,
    room: &mut [i64],
)
    requires few { count ≤ 2048 }
    requires edge { from % 8 ≡ 0 }
    requires from { from ≤ splice.now.at }
    requires order { splice.now.at ≤ splice.now.end }
    requires within { splice.now.end ≤ count }
    requires small { splice.now.at + splice.now.count + (count - splice.now.end) ≤ 2048 }
    requires reserved { packed_len width (splice.now.at + splice.now.count + (count - splice.now.end)) ≤ vec_capacity bytes.old }
    requires packed { PackedAt width (values_from width bytes.old.items 0 count) bytes.old.items }
    requires held { HoldsAll width (spliced (values_from width bytes.old.items 0 count) splice.now.at splice.now.end splice.now.count value) }
    requires copies { room.old ≡ replicate ((splice.now.at - from) + splice.now.count + (count - splice.now.end)) value }
    ensures { PackedAt width (spliced (values_from width bytes.old.items 0 count) splice.now.at splice.now.end splice.now.count value) bytes.new.items }
{
    unpack_around(width, bytes, count, from, splice, value, room);
    pack_behind(width, bytes, from, room);
}

/// Reads the packed values from place `from` on as they are after a splice, over copies of the splice's value.
pub(crate) fn unpack_around(
    width: Width,
    bytes: &[u8],
    count: usize,
    from: usize,
    splice: &Splice,
    value: i64,
    into: &mut [i64],
)
    requires few { count ≤ 2048 }
    requires from { from ≤ splice.now.at }
    requires order { splice.now.at ≤ splice.now.end }
    requires within { splice.now.end ≤ count }
    requires packed { PackedAt width (values_from width bytes.now 0 count) bytes.now }
    requires copies { into.old ≡ replicate ((splice.now.at - from) + splice.now.count + (count - splice.now.end)) value }
    ensures { into.new ≡ drop from (spliced (values_from width bytes.now 0 count) splice.now.at splice.now.end splice.now.count value) }
{
    let before = splice.at - from;
    bit_pack::unpack_into(width, bytes, from, &mut into[..before]);
    bit_pack::unpack_into(width, bytes, splice.end, &mut into[before + splice.count..]);
}

/// Packs values in place of those from place `from` on, which stand at whole bytes.
fn pack_behind(width: Width, bytes: &mut Vec<u8>, from: usize, values: &[i64])
    requires small { from + length values.now ≤ 2048 }
    requires edge { from % 8 ≡ 0 }
    requires there { packed_len width from ≤ length bytes.old.items }
    requires reserved { packed_len width (from + length values.now) ≤ vec_capacity bytes.old }
    requires held { HoldsAll width values.now }
    ensures { bytes.new.items ≡ take (packed_len width from) bytes.old.items ++ packing width values.now }
{
    resize(bytes, width.packed_len(from + values.len()));
    pack_from(width, values, width.packed_len(from), bytes);
}

/// Gives the bytes another length, for which there is room.
fn resize(bytes: &mut Vec<u8>, len: usize)
    requires { len ≤ vec_capacity bytes.old }
    ensures { bytes.new.items ≡ take len bytes.old.items ++ replicate (len - length bytes.old.items) 0 }
{
    if bytes.resize(len, 0).is_err() {
        unreachable!();
    }
}

/// Packs values into the bytes from a place on, which have just room for them.
fn pack_from(width: Width, values: &[i64], start: usize, into: &mut [u8])
    requires held { HoldsAll width values.now }
    requires len { length into.old ≡ start + packed_len width (length values.now) }
    ensures { into.new ≡ take start into.old ++ packing width values.now }
{
    bit_pack::pack_into(width, values, &mut into[start..]);
}
