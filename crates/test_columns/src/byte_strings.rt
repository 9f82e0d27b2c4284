//! Columns of byte strings: worked rows.
use crate::integers::has_values;
use bytes_col::{BlocksError, BytesCol, Memos, ShortBytes};
use int_col::IntCol;
use mk_value::{Bytes, Memory};
use std::alloc::Global;
use std::cmp::Ordering;
use std::process::Abort;
use std::test::Fail;

/// An empty value, b, the longest short value and the shortest memo.
static WORKED: [&[u8]; 4] = [b"", b"b", &[b'c'; 512], &[b'd'; 513]];

/// A copy of each value.
fn copies(alloc: Global, values: &[&[u8]]) -> Result<Vec<Bytes>, Fail> {
    let mut copies = Vec::new(alloc);
    for value in values {
        copies.push(Bytes::from_slice(alloc, value)?)?;
    }
    Ok(copies)
}

/// The column of these values.
fn column_of<R: Abort + AllocGlobal>(rt: &R, values: &[&[u8]]) -> Result<BytesCol, Fail> {
    let values = copies(rt.alloc(), values)?;
    assert!(rt; values.len() <= 100);
    Ok(BytesCol::from_values(rt.alloc(), &values, None)?)
}

/// Memos of these bytes.
fn memos_of(alloc: Global, values: &[&[u8]]) -> Result<Memos, Memory> {
    let mut memos = Memos::new(alloc);
    for value in values {
        memos.push(Bytes::from_slice(alloc, value)?)?;
    }
    Ok(memos)
}

/// So many bytes: b, and then c.
fn b_and_more(alloc: Global, count: usize) -> Result<Vec<u8>, Memory> {
    let mut bytes = Vec::new(alloc);
    for at in 0..count {
        bytes.push(if at == 0 { b'b' } else { b'c' })?;
    }
    Ok(bytes)
}

/// The column of these blocks.
fn from_blocks(
    alloc: Global,
    sizes: &IntCol,
    short: &[u8],
    memos: &Memos,
) -> Result<BytesCol, BlocksError> {
    BytesCol::from_blocks(alloc, sizes, short, memos, None)
}

/// The column of values of these sizes, the short ones of which are so many bytes.
fn made_of(
    alloc: Global,
    sizes: &IntCol,
    count: usize,
    memos: &[&[u8]],
) -> Result<BytesCol, BlocksError> {
    let short = b_and_more(alloc, count)?;
    let memos = memos_of(alloc, memos)?;
    from_blocks(alloc, sizes, &short, &memos)
}

/// Why there is no such column.
fn refusal(alloc: Global, sizes: &IntCol, count: usize, memos: &[&[u8]]) -> Option<BlocksError> {
    made_of(alloc, sizes, count, memos).err()
}

/// Asserts the value at a place.
fn holds<R: Abort>(rt: &R, column: &BytesCol, at: usize, want: &[u8]) -> Result<(), Fail> {
    assert!(rt; at < column.len());
    let value = column.get(at)?;
    assert!(rt; value.as_slice() == want, "at {at}");
    assert!(rt; column.value(at) == want, "at {at}");
    Ok(())
}

/// Asserts that these are the values of the column.
fn hold<R: Abort>(rt: &R, column: &BytesCol, values: &[&[u8]]) -> Result<(), Fail> {
    assert!(rt; column.len() == values.len());
    for (at, value) in values.iter().enumerate() {
        holds(rt, column, at, value)?;
    }
    Ok(())
}

/// Asserts how a value stands to a text.
fn compares<R: Abort>(rt: &R, column: &BytesCol, at: usize, text: &[u8], want: Ordering) {
    assert!(rt; at < column.len());
    assert_eq!(rt; column.cmp_with(at, text), want, "{text:?}");
}

/// Asserts how two values stand to each other.
fn compares_at<R: Abort>(rt: &R, column: &BytesCol, a: usize, b: usize, want: Ordering) {
    assert!(rt; a < column.len() && b < column.len());
    assert_eq!(rt; column.cmp_at(a, b), want);
}

/// Asserts that the column's one value is less than the text with a greater byte at any place, greater than the text with a less
/// one or cut off there, and equal to the text itself.
fn differs_at_each_place<R: Abort>(rt: &R, column: &BytesCol, text: &mut [u8]) {
    assert_eq!(rt; column.len(), 1);
    compares(rt, column, 0, text, Ordering::Equal);
    for at in 0..text.len() {
        let byte = text[at];
        text[at] = b'n';
        compares(rt, column, 0, text, Ordering::Less);
        text[at] = b'l';
        compares(rt, column, 0, text, Ordering::Greater);
        text[at] = byte;
        compares(rt, column, 0, &text[..at], Ordering::Greater);
    }
}

/// Asserts the next bytes, as one piece.
fn comes<R: Abort>(rt: &R, bytes: &mut ShortBytes<'_>, want: &[u8]) {
    let mut piece = [0u8; 256];
    assert!(rt; want.len() <= 256 && want.len() <= bytes.len());
    bytes.fill(&mut piece[..want.len()]);
    assert!(rt; &piece[..want.len()] == want);
}

/// Asserts the next byte.
fn comes_alone<R: Abort>(rt: &R, bytes: &mut ShortBytes<'_>, want: u8) {
    let mut next = [0];
    assert!(rt; !bytes.is_empty());
    bytes.fill(&mut next);
    assert_eq!(rt; next[0], want);
}

/// Asserts that the short bytes come in pieces: half of them at once, and then one by one.
fn comes_in_pieces<R: Abort>(rt: &R, column: &BytesCol, want: &[u8]) {
    let mut bytes = column.short();
    assert_eq!(rt; bytes.len(), want.len());
    let (front, rest) = want.split_at(want.len() / 2);
    comes(rt, &mut bytes, front);
    for byte in rest {
        comes_alone(rt, &mut bytes, *byte);
    }
    assert!(rt; bytes.is_empty());
}

/// Asserts the two short bytes from a place on.
fn fills_short<R: Abort>(rt: &R, column: &BytesCol, from: u64, want: [u8; 2]) {
    assert!(rt; 2 <= column.short_len() && from <= column.short_len() - 2);
    let mut bytes = [0; 2];
    column.fill_short(from, &mut bytes);
    assert!(rt; bytes == want);
}

/// Asserts the size of a value, and its last two bytes.
fn ends<R: Abort>(rt: &R, column: &BytesCol, at: usize, size: usize, want: [u8; 2]) {
    assert!(rt; at < column.len() && 2 <= size);
    assert_eq!(rt; column.value(at).len(), size);
    let mut bytes = [0; 2];
    column.fill_memo(at, size as u64 - 2, &mut bytes);
    assert!(rt; bytes == want);
}

/// Asserts which rows hold memos.
fn has_memos<R: Abort + AllocGlobal>(rt: &R, column: &BytesCol, want: &[u32]) -> Result<(), Fail> {
    let rows = column.memo_rows(rt.alloc())?;
    assert_eq!(rt; rows.as_slice(), want);
    Ok(())
}

/// Asserts that the worked blocks are the worked column.
fn comes_back<R: Abort + AllocGlobal>(rt: &R, sizes: &IntCol) -> Result<(), Fail> {
    let back = made_of(rt.alloc(), sizes, 513, &[&[b'd'; 513]])?;
    hold(rt, &back, &WORKED)
}

/// Blocks of an empty value, b, 512 bytes c and a memo of 513 bytes d.
#[test]
fn blocks(rt: HostRuntime) -> Result<(), Fail> {
    let column = column_of(&rt, &WORKED)?;
    comes_back(&rt, column.sizes())
}

/// What is no column of the worked sizes: how many short bytes there are, and the memos.
static NO_COLUMNS: [(usize, &[&[u8]]); 4] = [
    // A byte too few or too many beside its memo.
    (512, &[&[b'd'; 513]]),
    (514, &[&[b'd'; 513]]),
    // No memo, or one of another size.
    (513, &[]),
    (513, &[&[b'd'; 514]]),
];

/// Asserts that no column has these sizes and these blocks.
fn refuses<R: Abort + AllocGlobal>(rt: &R, sizes: &IntCol, count: usize, memos: &[&[u8]]) {
    let refusal = refusal(rt.alloc(), sizes, count, memos);
    assert_eq!(rt; refusal, Some(BlocksError::Mismatch), "{count}");
}

/// Asserts that no column has these sizes and any of the blocks.
fn refuses_all<R: Abort + AllocGlobal>(rt: &R, sizes: &IntCol) {
    for (count, memos) in &NO_COLUMNS {
        refuses(rt, sizes, *count, memos);
    }
}

/// Blocks that are no column of the worked sizes.
#[test]
fn blocks_of_no_column(rt: HostRuntime) -> Result<(), Fail> {
    let column = column_of(&rt, &WORKED)?;
    refuses_all(&rt, column.sizes());
    Ok(())
}

/// What is no column: a negative size.
#[test]
fn sizes_of_no_column(rt: HostRuntime) -> Result<(), Fail> {
    let sizes = IntCol::from_values(rt.alloc(), &[-1], None)?;
    refuses(&rt, &sizes, 0, &[]);
    Ok(())
}

/// Asserts that the column has no values.
fn has_none<R: Abort>(rt: &R, column: &BytesCol) {
    assert!(rt; column.is_empty() && column.short_len() == 0);
    comes_in_pieces(rt, column, b"");
}

/// A column of no values.
#[test]
fn no_values(rt: HostRuntime) -> Result<(), Fail> {
    let none = column_of(&rt, &[])?;
    has_none(&rt, &none);
    Ok(())
}

/// Asserts what the worked values are, and their sizes. The last is a memo.
fn has_worked_values<R: Abort + AllocGlobal>(rt: &R, column: &BytesCol) -> Result<(), Fail> {
    hold(rt, column, &WORKED)?;
    has_values(rt, column.sizes(), &[0, 1, 512, 513]);
    ends(rt, column, 3, 513, *b"dd");
    has_memos(rt, column, &[3])
}

/// Values of 0, 1, 512 and 513 bytes.
#[test]
fn worked_values(rt: HostRuntime) -> Result<(), Fail> {
    let column = column_of(&rt, &WORKED)?;
    has_worked_values(&rt, &column)
}

/// Asserts that the short values joined are b and then c 512 times.
fn has_worked_short_bytes<R: Abort + AllocGlobal>(rt: &R, column: &BytesCol) -> Result<(), Fail> {
    assert!(rt; column.short_len() == 513);
    fills_short(rt, column, 0, *b"bc");
    fills_short(rt, column, 511, *b"cc");
    let want = b_and_more(rt.alloc(), 513)?;
    comes_in_pieces(rt, column, &want);
    Ok(())
}

/// The short values of the worked column, joined.
#[test]
fn worked_short_bytes(rt: HostRuntime) -> Result<(), Fail> {
    let column = column_of(&rt, &WORKED)?;
    has_worked_short_bytes(&rt, &column)
}

/// Asserts the order of the worked values, and of one of them beside other bytes.
fn has_worked_order<R: Abort>(rt: &R, column: &BytesCol) {
    compares_at(rt, column, 0, 1, Ordering::Less);
    compares_at(rt, column, 3, 2, Ordering::Greater);
    compares(rt, column, 1, b"bb", Ordering::Less);
    compares(rt, column, 1, b"b", Ordering::Equal);
}

/// The order of the worked values.
#[test]
fn worked_order(rt: HostRuntime) -> Result<(), Fail> {
    let column = column_of(&rt, &WORKED)?;
    has_worked_order(&rt, &column);
    Ok(())
}

/// Asserts that one byte decides beside a text of this many bytes.
fn one_byte_of<R: Abort + AllocGlobal>(rt: &R, len: usize) -> Result<(), Fail> {
    let mut text = vec![in rt.alloc(); b'm'; len]?;
    let one = column_of(rt, &[&text])?;
    differs_at_each_place(rt, &one, &mut text);
    Ok(())
}

/// One byte decides, wherever it stands in the blocks in which texts are compared.
#[test]
fn one_byte_decides(rt: HostRuntime) -> Result<(), Fail> {
    for len in [1, 31, 32, 33, 63, 64, 65, 100, 513] {
        one_byte_of(&rt, len)?;
    }
    Ok(())
}
