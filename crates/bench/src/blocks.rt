//! Times the blocks of columns: their bytes written whole and in pieces, and columns made of them, in megabytes a second.

use crate::clock::nanoseconds_since;
use crate::columns::{SPREADS, Spread, samples};
use anyhow::{Result, ensure};
use bit_pack::Width;
use bytes_col::{BytesCol, Memos};
use int_col::{IntCol, PackedBytes};
use std::alloc::Global;
use std::time::Instant;

/// How many integers a column has, and how many texts.
const INTEGERS: usize = 16_777_216;

const TEXTS: usize = 1_048_576;

/// How many bytes a text has.
const TEXT: i64 = 20;

/// How many bytes are written at a time.
const PIECE: usize = 4_096;

/// The column of these values.
fn column_of(alloc: Global, values: &[i64]) -> Result<IntCol> {
    ensure!(values.len() <= INTEGERS, "too many values");
    Ok(IntCol::from_values(alloc, values, None)?)
}

/// A column of integers of a width.
fn integers(alloc: Global, spread: Spread) -> Result<IntCol> {
    column_of(alloc, &samples(alloc, spread, INTEGERS)?)
}

/// Room for so many bytes.
fn room(alloc: Global, len: usize) -> Result<Vec<u8>> {
    Ok(vec![in alloc; 0u8; len]?)
}

/// Writes as many of the bytes that are left as the room takes, and gives the first of them. Where none is left there is none.
fn write_piece(rest: &mut PackedBytes<'_>, room: &mut [u8]) -> Option<u8> {
    let len = rest.len().min(room.len());
    if len == 0 {
        return None;
    }
    rest.fill(&mut room[..len]);
    Some(room[0])
}

/// Writes the packed bytes of a column, as many at a time as the room takes, and gives the sum of the first ones.
fn write_packed(column: &IntCol, room: &mut [u8]) -> u64 {
    let mut rest = column.packed();
    let mut sum = 0u64;
    for _piece in 0..INTEGERS {
        let Some(first) = write_piece(&mut rest, room) else {
            break;
        };
        sum = sum.wrapping_add(u64::from(first));
    }
    sum
}

/// Prints the megabytes a second since `start`.
fn print_speed(rt: &HostRuntime, what: &str, start: &Instant, bytes: usize) -> Result<()> {
    let spent = nanoseconds_since(rt, start)?;
    let speed = (bytes as u64).saturating_mul(1_000) / spent.max(1);
    print!(rt; " {what} {speed}")?;
    Ok(())
}

/// Times the packed bytes of a column written as many at a time as the room takes. The sum keeps what was written.
fn time_writing(rt: &HostRuntime, what: &str, column: &IntCol, room: &mut [u8]) -> Result<()> {
    let start = Instant::now(rt)?;
    let sum = write_packed(column, room);
    print_speed(rt, what, &start, column.packed().len())?;
    print!(rt; " ({sum})")?;
    Ok(())
}

/// Times the packed bytes of a column of integers, and prints a line.
fn time_integers(rt: &HostRuntime, spread: Spread) -> Result<()> {
    print!(rt; "{} bits:", spread.bits)?;
    let column = integers(rt.alloc(), spread)?;
    time_column(rt, &column)
}

/// Times the packed bytes of a column, and ends the line.
fn time_column(rt: &HostRuntime, column: &IntCol) -> Result<()> {
    time_room(rt, "in_pieces", column, PIECE)?;
    let bytes = time_room(rt, "whole", column, column.packed().len())?;
    time_packed(rt, column, &bytes)
}

/// Times the packed bytes of a column written into room for so many bytes, and gives what was written last.
fn time_room(rt: &HostRuntime, what: &str, column: &IntCol, len: usize) -> Result<Vec<u8>> {
    let mut room = room(rt.alloc(), len)?;
    time_writing(rt, what, column, &mut room)?;
    Ok(room)
}

/// The column of so many packed integers.
fn unpacked(alloc: Global, width: Width, bytes: &[u8]) -> Result<IntCol> {
    Ok(IntCol::from_packed(alloc, width, INTEGERS, bytes, None)?)
}

/// Times a column made of the packed bytes of another, and ends the line.
fn time_packed(rt: &HostRuntime, column: &IntCol, bytes: &[u8]) -> Result<()> {
    let start = Instant::now(rt)?;
    let copy = unpacked(rt.alloc(), column.width(), bytes)?;
    end_line(rt, "from_packed", &start, bytes.len(), copy.len())
}

/// Prints the megabytes a second since `start` and how many values there are, and ends the line.
fn end_line(rt: &HostRuntime, what: &str, start: &Instant, bytes: usize, len: usize) -> Result<()> {
    print_speed(rt, what, start, bytes)?;
    println!(rt; " ({len})")?;
    Ok(())
}

/// Times a column of texts made of its blocks, and prints a line.
fn time_texts(rt: &HostRuntime) -> Result<()> {
    let sizes = text_sizes(rt.alloc())?;
    let short = room(rt.alloc(), TEXTS * TEXT as usize)?;
    print!(rt; "{TEXT} bytes:")?;
    time_blocks(rt, &sizes, &short)
}

/// How long each text is.
fn text_sizes(alloc: Global) -> Result<IntCol> {
    column_of(alloc, &vec![in alloc; TEXT; TEXTS]?)
}

/// The column of texts of these sizes and bytes.
fn from_blocks(alloc: Global, sizes: &IntCol, short: &[u8]) -> Result<BytesCol> {
    let memos = Memos::new(alloc);
    Ok(BytesCol::from_blocks(alloc, sizes, short, &memos, None)?)
}

/// Times a column made of the sizes of its texts and of their bytes, and ends the line.
fn time_blocks(rt: &HostRuntime, sizes: &IntCol, short: &[u8]) -> Result<()> {
    let start = Instant::now(rt)?;
    let column = from_blocks(rt.alloc(), sizes, short)?;
    end_line(rt, "from_blocks", &start, short.len(), column.len())
}

/// Times the blocks of columns of integers at each width, and of texts.
pub fn measure_all(rt: &HostRuntime) -> Result<()> {
    for spread in &SPREADS {
        time_integers(rt, *spread)?;
    }
    time_texts(rt)
}
