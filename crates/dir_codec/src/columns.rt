// The columns of a directory.
ghost use Rattle.std.specs.Prelude.{◌≡◌, ◌+◌, ◌<◌, ◌≤◌, ℕ, List, [], ◌∷◌, length, MatchResult};
ghost use Rattle.mk_value.specs.Limits.{max_rows};
ghost use Rattle.bit_pack.specs.Width.{bit_count};
ghost use Rattle.dir_codec.specs.Dir.{AreMemos, IsMemo, IsMemoSpan, IsNumbers, IsStrings, spelled_memo, spelled_span};
ghost use Rattle.dir_codec.specs.Dir.{IsEntry, spelled_entry};
ghost use Rattle.dir_codec.specs.Values.{entry_of};
ghost use Rattle.dir_codec.specs.Fields.{Due, memo_count, memo_row, memos_due, short_block, span_of_field};
ghost use Rattle.dir_codec.specs.Reads.{Flaws, GivesField, GivesPart, Leads, bytes_at};
ghost use Rattle.dir_codec.specs.Parts.{AreNumbers, numbers_due, spelled_memos, spelled_numbers, strings_due};
ghost use Rattle.mk_value.specs.Heading.{Domain};

use crate::dir::{DirCol, Memo, Memos};
use crate::error::DirError;
use crate::fields::{read_between, read_block, read_span, read_width, stands_in};
use bit_pack::Width;
use mk_value::{MAX_BYTES, Span};
use std::alloc::Global;

/// The most bytes of a value that stands among the short ones.
const SHORT: u64 = 512;

/// A column of so many numbers of at most so many bits.
pub(crate) fn read_numbers(
    bytes: &[u8],
    at: usize,
    end: u64,
    rows: u32,
    most: u8,
) -> Result<(DirCol, usize), DirError>
    requires within { at ≤ length bytes.now }
    requires few { rows ≤ max_rows }
    ensures { (number : ℕ) → GivesPart number end (numbers_due rows most) bytes.now at
        (λ column. AreNumbers end rows most (entry_of column)) (λ column. spelled_entry (entry_of column)) result }
{
    let width = read_width(bytes, at, most)?;
    let span = read_block(bytes, at + 1, end)?;
    if span.len != width.packed_len(rows as usize) as u64 {
        return Err(DirError::At(at as u64 + 1));
    }
    Ok((DirCol::Ints { width, span }, at + 17))
}

/// The span of a long value.
fn read_memo_span(bytes: &[u8], at: usize, end: u64) -> Result<Span, DirError>
    requires { at ≤ length bytes.now }
    ensures { GivesField bytes.now at 16
        (λ s. (s ≡ span_of_field (bytes_at at 16 bytes.now)) × (bytes_at at 16 bytes.now ≡ spelled_span s) × IsMemoSpan end s)
        (IsMemoSpan end (span_of_field (bytes_at at 16 bytes.now)) → ⊥) result }
{
    let span = read_span(bytes, at)?;
    if stands_in(end, &span) && SHORT < span.len && span.len <= MAX_BYTES as u64 {
        Ok(span)
    } else {
        Err(DirError::At(at as u64))
    }
}

/// One memo, below so many rows and from this row on.
fn read_memo(
    bytes: &[u8],
    at: usize,
    end: u64,
    rows: u32,
    least: u32,
) -> Result<(Memo, usize), DirError>
    requires within { at ≤ length bytes.now }
    requires some { 0 < rows }
    ensures { (number more : ℕ) → MatchResult result
        (λ r. IsMemo end rows least r.0 × Leads number end (memo_row more rows least ∷ []) bytes.now at
        (memos_due more rows (r.0.row + 1)) r.1 (spelled_memo r.0))
        (Flaws number end (memo_row more rows least ∷ []) bytes.now at) }
{
    let row = read_between(bytes, at, least, rows - 1)?;
    let span = read_memo_span(bytes, at + 4, end)?;
    Ok((Memo { row, span }, at + 20))
}

/// So many memos of a column of so many rows.
fn read_memos(
    alloc: Global,
    bytes: &[u8],
    at: usize,
    end: u64,
    rows: u32,
    count: u32,
) -> Result<(Memos, usize), DirError>
    requires within { at ≤ length bytes.now }
    requires few { count ≤ rows }
    ensures { (number : ℕ) → GivesPart number end (memos_due count rows 0) bytes.now at
        (λ memos. AreMemos end rows 0 memos × (length memos ≡ count)) spelled_memos result }
{
    let mut memos = Memos::new(alloc);
    let mut place = at;
    let mut least = 0;
    for done in 0..count {
        let (memo, next) = read_memo(bytes, place, end, rows, least)?;
        least = memo.row + 1;
        place = next;
        memos.push(memo)?;
    }
    Ok((memos, place))
}

/// The width and the block of the sizes of so many texts or byte strings.
fn read_sizes(bytes: &[u8], at: usize, end: u64, rows: u32) -> Result<(Width, Span), DirError>
    requires within { at ≤ length bytes.now }
    requires few { rows ≤ max_rows }
    ensures { (number : ℕ) → MatchResult result
        (λ r. IsNumbers end rows 32 r.0 r.1
        × Leads number end (strings_due rows) bytes.now at (short_block ∷ memo_count rows ∷ []) (at + 17) (spelled_numbers r))
        (Flaws number end (strings_due rows) bytes.now at) }
{
    let width = read_width(bytes, at, 32)?;
    let sizes = read_block(bytes, at + 1, end)?;
    if sizes.len == width.packed_len(rows as usize) as u64 {
        Ok((width, sizes))
    } else {
        Err(DirError::At(at as u64 + 1))
    }
}

/// A column of so many texts or byte strings.
pub(crate) fn read_strings(
    alloc: Global,
    bytes: &[u8],
    at: usize,
    end: u64,
    rows: u32,
) -> Result<(DirCol, usize), DirError>
    requires within { at ≤ length bytes.now }
    requires few { rows ≤ max_rows }
    ensures { (number : ℕ) → GivesPart number end (strings_due rows) bytes.now at
        (λ column. IsEntry end rows Domain.text (entry_of column) × IsEntry end rows Domain.bytes (entry_of column))
        (λ column. spelled_entry (entry_of column)) result }
{
    let (width, sizes) = read_sizes(bytes, at, end, rows)?;
    let short = read_block(bytes, at + 17, end)?;
    let count = read_between(bytes, at + 33, 0, rows)?;
    let (memos, next) = read_memos(alloc, bytes, at + 37, end, rows, count)?;
    let column = DirCol::Blobs {
        width,
        sizes,
        short,
        memos,
    };
    Ok((column, next))
}
