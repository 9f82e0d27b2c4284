//! Columns of integers: worked rows.
use bit_pack::{PackError, Width};
use int_col::{IntCol, PackedBytes};
use mk_value::{Memory, Span};
use std::process::Abort;
use std::test::Fail;

const HOME: Span = Span { place: 192, len: 1 };

/// Asserts the count, the width and the bytes of a segment.
fn holds<R: Abort>(rt: &R, column: &IntCol, k: usize, count: usize, width: Width, bytes: &[u8]) {
    assert!(rt; k < column.segments());
    let held = column.segment(k);
    assert!(rt; held.count == count && held.width == width && held.bytes == bytes);
}

/// Asserts the packed bytes from one on.
fn fills<R: Abort>(rt: &R, column: &IntCol, from: usize, want: [u8; 2]) {
    let len = column.width().packed_len(column.len());
    assert!(rt; 2 <= len && from <= len - 2);
    let mut bytes = [0; 2];
    column.fill(from, &mut bytes);
    assert!(rt; bytes == want);
}

/// Asserts the next bytes, as one piece.
fn comes<R: Abort>(rt: &R, bytes: &mut PackedBytes<'_>, want: &[u8]) {
    let mut piece = [0u8; 4];
    assert!(rt; want.len() <= 4 && want.len() <= bytes.len());
    bytes.fill(&mut piece[..want.len()]);
    assert!(rt; &piece[..want.len()] == want);
}

/// Asserts the next byte.
fn comes_alone<R: Abort>(rt: &R, bytes: &mut PackedBytes<'_>, want: u8) {
    let mut next = [0];
    assert!(rt; !bytes.is_empty());
    bytes.fill(&mut next);
    assert_eq!(rt; next[0], want);
}

/// Asserts that the packed bytes come in pieces: half of them at once, and then one by one.
fn comes_in_pieces<R: Abort>(rt: &R, column: &IntCol, want: &[u8]) {
    let mut bytes = column.packed();
    assert_eq!(rt; bytes.len(), want.len());
    let (front, rest) = want.split_at(want.len() / 2);
    comes(rt, &mut bytes, front);
    for byte in rest {
        comes_alone(rt, &mut bytes, *byte);
    }
    assert!(rt; bytes.is_empty());
}

/// Asserts that the column has these values.
pub(crate) fn has_values<R: Abort>(rt: &R, column: &IntCol, values: &[i64]) {
    assert!(rt; column.len() == values.len() && column.is_empty() == values.is_empty());
    for (at, value) in values.iter().enumerate() {
        assert!(rt; column.get(at) == *value, "at {at}");
    }
}

/// Asserts that two columns have the same values.
fn has_values_of<R: Abort>(rt: &R, one: &IntCol, other: &IntCol) {
    assert!(rt; one.len() == other.len());
    for at in 0..one.len() {
        assert!(rt; one.get(at) == other.get(at), "at {at}");
    }
}

/// The column of so many packed values, if they are at most 100.
fn made_of<R: Abort + AllocGlobal>(
    rt: &R,
    width: Width,
    count: usize,
    bytes: &[u8],
) -> Result<IntCol, PackError> {
    assert!(rt; count <= 100);
    IntCol::from_packed(rt.alloc(), width, count, bytes, Some(HOME))
}

/// Asserts the home and the width of a column, and that its segments are full.
fn is_full<R: Abort>(rt: &R, column: &IntCol, width: Width) {
    assert!(rt; column.home() == Some(HOME) && column.width() == width);
    assert_eq!(rt; column.segments(), column.len().div_ceil(2048));
}

/// Asserts that a column is made of its packed bytes again, with the same values and full segments.
fn comes_back<R: Abort + AllocGlobal>(
    rt: &R,
    column: &IntCol,
    width: Width,
    bytes: &[u8],
) -> Result<(), Fail> {
    let back = made_of(rt, width, column.len(), bytes)?;
    is_full(rt, &back, width);
    has_values_of(rt, &back, column);
    Ok(())
}

/// Why bytes are no column of so many values.
fn refusal<R: Abort + AllocGlobal>(
    rt: &R,
    width: Width,
    count: usize,
    bytes: &[u8],
) -> Option<PackError> {
    made_of(rt, width, count, bytes).err()
}

/// Inserts a value so many times.
fn insert<R: Abort>(
    rt: &R,
    column: &mut IntCol,
    at: usize,
    value: i64,
    count: usize,
) -> Result<(), Memory> {
    assert!(rt; at <= column.len() && column.len() <= 100 && count <= 100);
    column.insert(at, value, count)
}

/// Takes so many values out.
fn remove<R: Abort>(rt: &R, column: &mut IntCol, at: usize, count: usize) -> Result<(), Memory> {
    assert!(rt; at <= column.len() && count <= column.len() - at);
    column.remove(at, count)
}

/// Puts a value in the place of another.
fn set<R: Abort>(rt: &R, column: &mut IntCol, at: usize, value: i64) -> Result<(), Memory> {
    assert!(rt; at < column.len());
    column.set(at, value)
}

/// Asserts the two values from a place on.
fn reads<R: Abort>(rt: &R, column: &IntCol, from: usize, want: [i64; 2]) {
    assert!(rt; 2 <= column.len() && from <= column.len() - 2);
    let mut read = [0; 2];
    column.read(from, &mut read);
    assert!(rt; read == want);
}

/// A column of no values.
#[test]
fn no_values(rt: HostRuntime) -> Result<(), Fail> {
    let none = IntCol::from_values(rt.alloc(), &[], None)?;
    assert!(rt; none.is_empty() && none.segments() == 0 && none.width() == Width::W0);
    comes_in_pieces(&rt, &none, &[]);
    Ok(())
}

/// A column of two values. The bytes are computed by hand: 0 and 3 at 2 bits are 0c.
#[test]
fn two_values(rt: HostRuntime) -> Result<(), Fail> {
    let column = IntCol::from_values(rt.alloc(), &[0, 3], None)?;
    has_values(&rt, &column, &[0, 3]);
    holds(&rt, &column, 0, 2, Width::W2, &[0x0c]);
    comes_in_pieces(&rt, &column, &[0x0c]);
    comes_back(&rt, &column, Width::W2, &[0x0c])
}

/// Asserts that the width follows a negative value: 0, 0xff, 0xff and 3 at 8 bits.
fn widens<R: Abort + AllocGlobal>(rt: &R, column: &mut IntCol) -> Result<(), Fail> {
    insert(rt, column, 1, -1, 2)?;
    assert_eq!(rt; column.width(), Width::W8);
    fills(rt, column, 1, [0xff, 0xff]);
    comes_in_pieces(rt, column, &[0, 0xff, 0xff, 3]);
    comes_back(rt, column, Width::W8, &[0, 0xff, 0xff, 3])
}

/// A value that takes more bits than those before it.
#[test]
fn a_wider_value(rt: HostRuntime) -> Result<(), Fail> {
    let mut column = IntCol::from_values(rt.alloc(), &[0, 3], None)?;
    widens(&rt, &mut column)
}

/// Asserts that the width follows the values: 8 bits with the negative ones, 2 bits without them, and 1 bit without the 3.
fn narrows<R: Abort>(rt: &R, column: &mut IntCol) -> Result<(), Fail> {
    assert!(rt; column.len() == 4);
    reads(rt, column, 2, [-1, 3]);
    remove(rt, column, 1, 2)?;
    holds(rt, column, 0, 2, Width::W2, &[0x0c]);
    assert!(rt; column.len() == 2);
    set(rt, column, 1, 1)?;
    assert_eq!(rt; column.width(), Width::W1);
    Ok(())
}

/// Values that take fewer bits than those that were there.
#[test]
fn a_narrower_value(rt: HostRuntime) -> Result<(), Fail> {
    let mut column = IntCol::from_values(rt.alloc(), &[0, -1, -1, 3], None)?;
    narrows(&rt, &mut column)
}

/// Asserts a segment of 2,048 ones, and one of one more.
fn has_two_segments<R: Abort>(rt: &R, column: &IntCol) {
    assert_eq!(rt; column.segments(), 2);
    holds(rt, column, 0, 2048, Width::W1, &[0xff; 256]);
    holds(rt, column, 1, 1, Width::W1, &[0x01]);
    fills(rt, column, 255, [0xff, 0x01]);
}

/// A column of one value more than a segment takes.
#[test]
fn two_segments(rt: HostRuntime) -> Result<(), Fail> {
    let column = IntCol::from_values(rt.alloc(), &[1; 2049], None)?;
    has_two_segments(&rt, &column);
    Ok(())
}

/// Bytes that are no two values at 2 bits, and why.
static REFUSALS: [(&[u8], PackError); 3] = [
    (&[0x04], PackError::NotLeast(Width::W2, Width::W1)),
    (&[0x1c], PackError::Padding(0)),
    (&[], PackError::Length(1, 0)),
];

#[test]
fn bytes_of_no_column(rt: HostRuntime) {
    for (bytes, want) in &REFUSALS {
        assert_eq!(rt; refusal(&rt, Width::W2, 2, bytes).as_ref(), Some(want));
    }
}
