// Blocks of each kind, written and read back. Expected bytes were worked out by hand.
ghost use Rattle.std.specs.Prelude.{◌<◌, ◌≤◌, length};
ghost use Rattle.host_io.specs.Memory.{outside_of};
ghost use Rattle.block_io.specs.Parts.{IsPart, part_bytes};

use crate::worked::host_over;
use block_io::{BlockError, Part, read_block, write_block};
use bytes_col::BytesCol;
use host_io::{Effect, Failed, Fault, MemHost};
use int_col::IntCol;
use mk_value::{Bytes, Span};
use std::alloc::Global;
use std::process::Abort;
use std::test::Fail;

/// Where the blocks of these tests stand, in a file of so many bytes.
const AT: u64 = 16;

#[tactic(auto, unfolding(free_space::specs::Extents::extent_len))]
fn write(host: &mut MemHost, part: &Part<'_>) -> Result<(), Failed>
    requires part { IsPart part.now }
    requires few { length (part_bytes part.now) < 10000 }
    requires within { 16 ≤ length (outside_of host.old).now.disk.seen }
{
    write_block(host, AT, part)
}

/// Writes a part behind 16 bytes of `ff`, and gives the bytes there.
fn written(rt: &impl Abort, alloc: Global, part: &Part<'_>) -> Result<Vec<u8>, Fail>
    requires part { IsPart part.now }
    requires few { length (part_bytes part.now) < 10000 }
{
    let mut host = host_over(alloc, &[0xff; 16], &[])?;
    assert!(rt; host.image().len() >= 16);
    write(&mut host, part)?;
    behind(rt, alloc, &host)
}

/// The bytes of the file from 16 on.
fn behind(rt: &impl Abort, alloc: Global, host: &MemHost) -> Result<Vec<u8>, Fail> {
    assert!(rt; host.image().len() >= 16);
    Ok(Vec::from_slice(alloc, &host.image()[16..])?)
}

/// What is written of bytes as they are.
fn written_raw(rt: &impl Abort, alloc: Global, bytes: &[u8]) -> Result<Vec<u8>, Fail> {
    assert!(rt; bytes.len() < 10000);
    written(rt, alloc, &Part::Raw(bytes))
}

/// What is written of a column of numbers.
fn written_numbers(rt: &impl Abort, alloc: Global, column: &IntCol) -> Result<Vec<u8>, Fail> {
    assert!(rt; column.packed().len() < 10000);
    written(rt, alloc, &Part::Ints(column))
}

/// What is written of the short texts of a column.
fn written_short(rt: &impl Abort, alloc: Global, column: &BytesCol) -> Result<Vec<u8>, Fail> {
    assert!(rt; column.short().len() < 10000);
    written(rt, alloc, &Part::Short(column))
}

/// What is written of the memo at a place of a column.
fn written_memo(
    rt: &impl Abort,
    alloc: Global,
    column: &BytesCol,
    at: usize,
) -> Result<Vec<u8>, Fail> {
    assert!(rt; at < column.len());
    assert!(rt; column.value(at).len() < 10000);
    written(rt, alloc, &Part::Memo(column, at))
}

/// So many bytes from the start of a file, read as a block.
fn read(
    rt: &impl Abort,
    alloc: Global,
    host: &mut MemHost,
    len: usize,
) -> Result<Bytes, BlockError> {
    assert!(rt; len <= host.image().len());
    let span = Span {
        place: 0,
        len: len as u64,
    };
    read_block(alloc, host, span)
}

fn repeated(alloc: Global, bytes: &[u8], byte: u8, count: usize) -> Result<Vec<u8>, Fail> {
    let mut all = Vec::from_slice(alloc, bytes)?;
    for _more in 0..count {
        all.push(byte)?;
    }
    Ok(all)
}

/// What was written is these bytes, and so many zeros.
fn is_padded(
    rt: &impl Abort,
    alloc: Global,
    written: &[u8],
    front: &[u8],
    zeros: usize,
) -> Result<(), Fail> {
    let wanted = repeated(alloc, front, 0, zeros)?;
    assert_eq!(rt; written, wanted.as_slice());
    Ok(())
}

#[test]
fn writes_numbers(rt: HostRuntime) -> Result<(), Fail> {
    let column = IntCol::from_values(rt.alloc(), &[31, 3, -1], None)?;
    let written = written_numbers(&rt, rt.alloc(), &column)?;
    is_padded(&rt, rt.alloc(), &written, &[0x1f, 0x03, 0xff], 13)
}

/// The column of Ann, a long text, and Bo.
fn texts(alloc: Global, long: &[u8]) -> Result<BytesCol, Fail> {
    let values = vec![in alloc;
        Bytes::from_slice(alloc, b"Ann")?,
        Bytes::from_slice(alloc, long)?,
        Bytes::from_slice(alloc, b"Bo")?,
    ]?;
    Ok(BytesCol::from_values(alloc, &values, None)?)
}

/// A text that is a memo.
static LONG: [u8; 600] = [b'x'; 600];

/// The short texts of Ann, the long text and Bo are written so, and the long one as a memo.
fn writes_all(rt: &impl Abort, alloc: Global, column: &BytesCol) -> Result<(), Fail> {
    let short = written_short(rt, alloc, column)?;
    is_padded(rt, alloc, &short, b"AnnBo", 11)?;
    let memo = written_memo(rt, alloc, column, 1)?;
    is_padded(rt, alloc, &memo, &LONG, 8)
}

#[test]
fn writes_texts(rt: HostRuntime) -> Result<(), Fail> {
    let column = texts(rt.alloc(), &LONG)?;
    writes_all(&rt, rt.alloc(), &column)
}

// How many bytes, and how many with their rounding. No bytes take no place; the second and the last take more than one piece.
static LENGTHS: [(usize, usize); 6] = [
    (0, 0),
    (4097, 4112),
    (1, 16),
    (16, 16),
    (4096, 4096),
    (8200, 8208),
];

/// So many bytes from the start of this file, read as a block.
fn read_of(rt: &impl Abort, alloc: Global, file: &[u8], len: usize) -> Result<Bytes, Fail> {
    let mut host = host_over(alloc, file, &[])?;
    Ok(read(rt, alloc, &mut host, len)?)
}

/// A block of this file reads so.
fn reads(rt: &impl Abort, alloc: Global, file: &[u8], want: &[u8]) -> Result<(), Fail> {
    let back = read_of(rt, alloc, file, want.len())?;
    assert_eq!(rt; back.as_slice(), want);
    Ok(())
}

/// So many bytes come back as they were written, and take so many with their rounding.
fn comes_back(rt: &impl Abort, alloc: Global, len: usize, rounded: usize) -> Result<(), Fail> {
    let bytes = repeated(alloc, b"", b'm', len)?;
    let image = written_raw(rt, alloc, &bytes)?;
    assert_eq!(rt; image.len(), rounded);
    reads(rt, alloc, &image, &bytes)
}

#[test]
fn reads_what_was_written(rt: HostRuntime) -> Result<(), Fail> {
    for (len, rounded) in &LENGTHS {
        comes_back(&rt, rt.alloc(), *len, *rounded)?;
    }
    Ok(())
}

/// The second call fails, and leaves nothing.
static SECOND_CALL: [Fault; 1] = [Fault {
    call: 1,
    effect: Effect::Nothing,
}];

#[test]
fn a_read_fails_with_the_disk(rt: HostRuntime) -> Result<(), Fail> {
    let bytes = repeated(rt.alloc(), b"", b'm', 5000)?;
    let mut host = host_over(rt.alloc(), &bytes, &SECOND_CALL)?;
    let back = read(&rt, rt.alloc(), &mut host, 5000);
    assert_eq!(rt; back.err(), Some(BlockError::Failed));
    Ok(())
}

#[test]
fn a_write_fails_with_the_disk(rt: HostRuntime) -> Result<(), Fail> {
    let bytes = repeated(rt.alloc(), b"", b'm', 5000)?;
    let mut host = host_over(rt.alloc(), &bytes, &SECOND_CALL)?;
    assert!(rt; write_raw(&rt, &mut host, &bytes).is_err());
    Ok(())
}

fn write_raw(rt: &impl Abort, host: &mut MemHost, bytes: &[u8]) -> Result<(), Failed> {
    assert!(rt; bytes.len() < 10000);
    assert!(rt; host.image().len() >= 16);
    write(host, &Part::Raw(bytes))
}
