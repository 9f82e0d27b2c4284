//! Packed integers: worked rows, each expected value computed by hand.
use bit_pack::{
    Bytes, PackError, Values, Width, check, get, is_least, least_width, pack, pack_into, put,
    unpack, unpack_into, width_for,
};
use std::alloc::Global;
use std::process::Abort;

/// Both ends of each width, and the first value past each.
static ENDS: [(i64, Width); 22] = [
    (0, Width::W0),
    (1, Width::W1),
    (2, Width::W2),
    (3, Width::W2),
    (4, Width::W4),
    (15, Width::W4),
    (16, Width::W8),
    (127, Width::W8),
    (128, Width::W16),
    (-1, Width::W8),
    (-128, Width::W8),
    (-129, Width::W16),
    (32_767, Width::W16),
    (32_768, Width::W32),
    (-32_768, Width::W16),
    (-32_769, Width::W32),
    (2_147_483_647, Width::W32),
    (2_147_483_648, Width::W64),
    (-2_147_483_648, Width::W32),
    (-2_147_483_649, Width::W64),
    (i64::MAX, Width::W64),
    (i64::MIN, Width::W64),
];

#[test]
fn each_value_has_its_least_width(rt: HostRuntime) {
    for (value, want) in &ENDS {
        assert_eq!(rt; Width::of(*value), *want, "of {value}");
        assert_eq!(rt; width_for(&[0, *value]), *want, "for 0 and {value}");
    }
}

static LISTS: [(&[i64], Width); 3] = [
    (&[], Width::W0),
    (&[0, 3], Width::W2),
    (&[200, -1], Width::W16),
];

#[test]
fn a_list_has_the_width_of_its_widest(rt: HostRuntime) {
    for (values, want) in &LISTS {
        assert_eq!(rt; width_for(values), *want);
    }
}

static BITS: [(u8, Option<Width>); 10] = [
    (0, Some(Width::W0)),
    (1, Some(Width::W1)),
    (2, Some(Width::W2)),
    (3, None),
    (4, Some(Width::W4)),
    (8, Some(Width::W8)),
    (16, Some(Width::W16)),
    (32, Some(Width::W32)),
    (64, Some(Width::W64)),
    (65, None),
];

#[test]
fn a_width_has_its_bits(rt: HostRuntime) {
    for (bits, want) in &BITS {
        assert_eq!(rt; Width::from_bits(*bits), *want, "{bits} bits");
    }
}

#[test]
fn a_width_knows_itself(rt: HostRuntime) {
    assert_eq!(rt; Width::W32.bits(), 32);
    assert_eq!(rt; Width::W2.packed_len(5), 2);
    assert_eq!(rt; Width::W2.wider(Width::W16), Width::W16);
    assert_eq!(rt; Width::W1.narrower(), Some(Width::W0));
    assert!(rt; Width::W8.holds(-128) && !Width::W8.holds(128));
}

/// Why one byte is not so many values of a width.
fn refusal(alloc: Global, width: Width, count: u8, byte: u8) -> Option<PackError> {
    unpack(alloc, width, usize::from(count), &[byte]).err()
}

static REFUSALS: [(Width, u8, u8, PackError); 8] = [
    (Width::W8, 1, 1, PackError::NotLeast(Width::W8, Width::W1)),
    (Width::W8, 1, 15, PackError::NotLeast(Width::W8, Width::W4)),
    (Width::W4, 2, 0, PackError::NotLeast(Width::W4, Width::W0)),
    (Width::W2, 1, 7, PackError::Padding(0)),
    (Width::W1, 7, 128, PackError::Padding(0)),
    (Width::W8, 2, 1, PackError::Length(2, 1)),
    (Width::W0, 5, 0, PackError::Length(0, 1)),
    (Width::W2, 5, 255, PackError::Length(2, 1)),
];

#[test]
fn bytes_that_are_not_well_packed_are_refused(rt: HostRuntime) {
    for (width, count, byte, want) in &REFUSALS {
        assert_eq!(rt;
            refusal(rt.alloc(), *width, *count, *byte).as_ref(),
            Some(want)
        );
    }
}

#[test]
fn values_are_read_and_changed_where_they_lie(rt: HostRuntime) {
    let mut bytes = [0x93, 0x01];
    assert_eq!(rt; get(Width::W2, &bytes, 3), 2);
    put(Width::W2, &mut bytes, 3, 0);
    assert_eq!(rt; bytes.as_slice(), [0x13, 0x01].as_slice());
    put(Width::W2, &mut bytes, 4, 3);
    assert_eq!(rt; bytes.as_slice(), [0x13, 0x03].as_slice());
    let mut values = [0; 2];
    unpack_into(Width::W2, &bytes, 3, &mut values);
    assert_eq!(rt; values.as_slice(), [0, 3].as_slice());
}

#[test]
fn wide_values_are_signed(rt: HostRuntime) {
    let mut wide = [0xfe, 0xff, 0x02, 0x01];
    assert_eq!(rt; get(Width::W16, &wide, 0), -2);
    put(Width::W16, &mut wide, 1, -3);
    assert_eq!(rt; wide.as_slice(), [0xfe, 0xff, 0xfd, 0xff].as_slice());
    assert!(rt; !is_least(Width::W16, &wide, 2));
    assert_eq!(rt; least_width(Width::W16, &wide, 2), Width::W8);
}

#[test]
fn values_are_packed_over_what_was_there(rt: HostRuntime) {
    let mut packed = [0xff; 1];
    assert!(rt; Width::W4.holds(5) && Width::W4.holds(9));
    pack_into(Width::W4, &[5, 9], &mut packed);
    assert_eq!(rt; packed.as_slice(), [0x95].as_slice());
}

/// Values, their least width, and the bytes that they are packed into.
type Packed = (&'static [i64], Width, &'static [u8]);

static PACKED: [Packed; 9] = [
    (&[], Width::W0, &[]),
    (&[0, 0, 0], Width::W0, &[]),
    (&[1, 0, 0, 1, 0, 0, 0, 1, 1], Width::W1, &[0x89, 0x01]),
    (&[3, 0, 1, 2, 1], Width::W2, &[0x93, 0x01]),
    (&[15, 1, 2], Width::W4, &[0x1f, 0x02]),
    (&[-1, 127, -128], Width::W8, &[0xff, 0x7f, 0x80]),
    (&[-2, 258], Width::W16, &[0xfe, 0xff, 0x02, 0x01]),
    (
        &[-32_769, 1],
        Width::W32,
        &[0xff, 0x7f, 0xff, 0xff, 1, 0, 0, 0],
    ),
    (
        &[0x0102_0304_0506_0708, -1],
        Width::W64,
        &[
            8, 7, 6, 5, 4, 3, 2, 1, 255, 255, 255, 255, 255, 255, 255, 255,
        ],
    ),
];

/// The bytes of values of a width, which is their least.
fn packed(alloc: Global, width: Width, values: &[i64]) -> Result<Bytes, PackError> {
    if width_for(values) != width {
        return Err(PackError::NotLeast(width, width_for(values)));
    }
    pack(alloc, width_for(values), values)
}

/// The values of bytes that are well packed.
fn unpacked(
    rt: &impl Abort,
    alloc: Global,
    width: Width,
    count: usize,
    bytes: &[u8],
) -> Result<Values, PackError> {
    assert!(rt; count < 100);
    check(width, count, bytes)?;
    unpack(alloc, width, count, bytes)
}

/// Values and their bytes, both ways.
#[test]
fn packs_and_unpacks(rt: HostRuntime) -> Result<(), PackError> {
    for (values, width, bytes) in &PACKED {
        let packed = packed(rt.alloc(), *width, values)?;
        assert_eq!(rt; packed.as_slice(), *bytes);
        let back = unpacked(&rt, rt.alloc(), *width, values.len(), bytes)?;
        assert_eq!(rt; back.as_slice(), *values);
    }
    Ok(())
}

/// The list that bytes are given in.
#[test]
fn a_list_of_bytes(rt: HostRuntime) -> Result<(), PackError> {
    let mut bytes = Bytes::new(rt.alloc());
    assert!(rt; bytes.is_empty());
    bytes.push(7)?;
    assert_eq!(rt; bytes.len(), 1);
    assert_eq!(rt; bytes.into_vec().as_slice(), [7].as_slice());
    Ok(())
}

/// The list that values are given in.
#[test]
fn a_list_of_values(rt: HostRuntime) -> Result<(), PackError> {
    let mut values = Values::new(rt.alloc());
    assert!(rt; values.is_empty());
    values.push(-7)?;
    assert_eq!(rt; values.len(), 1);
    assert_eq!(rt; values.into_vec().as_slice(), [-7].as_slice());
    Ok(())
}
