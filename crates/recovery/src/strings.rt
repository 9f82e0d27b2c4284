// Columns of texts and byte strings.
ghost use Rattle.std.specs.Prelude.{◌≡◌, ◌≢◌, ℕ, ◌+◌, ◌-◌, ◌^◌, ◌<◌, ◌≤◌, List, All, length, map, Some, IfOk, IsErrOf};
ghost use Rattle.host_io.specs.Calls.{CountsFaults, Looks};
ghost use Rattle.bytes_col.specs.Strings.{short_bytes};
ghost use Rattle.recovery.specs.Blobs.{parts_of};
ghost use Rattle.recovery.specs.Memos.{EndWithin};
ghost use Rattle.dir_codec.specs.Columns.{PlainEntry};
ghost use Rattle.tables.specs.Columns.{column_values, texts, IsColumnOf as IsStoredOf};
ghost use Rattle.recovery.specs.Found.{HasLength};
ghost use Rattle.recovery.specs.Reading.{IsColumnBy, IsColumnOf, IsReadable};
ghost use Rattle.recovery.specs.Strings.{AreAsLong, AreCounted, AreStringsAt, IsStringEntry, home_at};

use crate::contents::{Content, all_fit, are_rows_of};
use crate::error::ReadError;
use crate::long_values::read_memos;
use crate::numbers::read_ints;
use bit_pack::Width;
use block_io::read_block;
use bytes_col::{BytesCol, BytesHome};
use dir_codec::Memo;
use host_io::Disk;
use mk_value::{Bytes, Memory, Span, Spans};
use std::alloc::Global;

/// What a directory has of a column of texts or byte strings beside its memos: the width of the sizes, their block, and that of the
/// short values.
#[derive(Clone, Copy)]
pub(crate) struct StringBlocks {
    pub(crate) width: Width,
    pub(crate) sizes: Span,
    pub(crate) short: Span,
}

/// The home of a column with these blocks.
fn home_of(alloc: Global, blocks: StringBlocks, memos: &[Memo]) -> Result<BytesHome, Memory>
    ensures { IfOk result (λ home. home ≡ home_at (parts_of blocks memos.now)) }
{
    let mut spans = Spans::new(alloc);
    for memo in memos {
        spans.push(memo.span)?;
    }
    Ok(BytesHome {
        sizes: blocks.sizes,
        short: blocks.short,
        memos: spans,
    })
}

/// Reads the column that a directory has of so many texts or byte strings with these blocks and memos.
///
/// # Errors
///
/// `Unreadable`, exactly where the blocks are those of no values of the column; `Failed`, which comes only where the disk failed;
/// `Memory`. The disk is as before.
pub(crate) fn read_strings<D: Disk>(
    alloc: Global,
    disk: &mut D,
    blocks: StringBlocks,
    memos: &[Memo],
    rows: u32,
    content: Content,
) -> Result<BytesCol, ReadError>
    requires few { rows ≤ 16777216 }
    requires sizes_end { blocks.sizes.place + blocks.sizes.len < 2 ^ 64 }
    requires short_ends { blocks.short.place + blocks.short.len < 2 ^ 64 }
    requires memos_end { EndWithin (2 ^ 64 - 1) memos.now }
    requires sizes_within { D.tells → blocks.sizes.place + blocks.sizes.len ≤ length (D.outside disk.old).now.disk.seen }
    requires short_within { D.tells → blocks.short.place + blocks.short.len ≤ length (D.outside disk.old).now.disk.seen }
    requires memos_within { D.tells → EndWithin (length (D.outside disk.old).now.disk.seen) memos.now }
    ensures counts { CountsFaults (IsErrOf result ReadError.Failed) (D.outside disk.old) (D.outside disk.new) }
    ensures same { D.tells → Looks (D.outside disk.old) (D.outside disk.new) }
    ensures home { IfOk result (λ column. column.home ≡ Some (home_at (parts_of blocks memos.now))) }
    ensures whole { IfOk result (λ column. (e : PlainEntry) → IsStringEntry rows content (parts_of blocks memos.now) e
        → IsStoredOf rows e.domain (texts column)) }
    ensures made { IfOk result (λ column. (e : PlainEntry) → IsStringEntry rows content (parts_of blocks memos.now) e
        → IsColumnBy HasLength e (column_values e.domain (texts column))) }
    ensures column { D.tells → IfOk result (λ column. (e : PlainEntry) → IsStringEntry rows content (parts_of blocks memos.now) e
        → IsColumnOf (D.outside disk.old).now.disk.seen e (column_values e.domain (texts column))) }
    ensures unreadable { D.tells → IsErrOf result ReadError.Unreadable → (e : PlainEntry)
        → IsStringEntry rows content (parts_of blocks memos.now) e → ¬ IsReadable (D.outside disk.old).now.disk.seen e }
{
    let found = read_values(alloc, disk, blocks, memos, rows)?;
    let memo_rows = found.column.memo_rows(alloc)?;
    if !are_rows_of(memo_rows.as_slice(), memos) {
        return Err(ReadError::Unreadable);
    }
    let short = found.short.as_slice();
    if !all_fit(&found.column, short, memo_rows.as_slice(), content) {
        return Err(ReadError::Unreadable);
    }
    Ok(found.column)
}

/// The values that were read, and the bytes of the short ones, joined.
#[derive(Drop)]
pub(crate) struct StringValues {
    pub(crate) column: BytesCol,
    pub(crate) short: Bytes,
}

/// Reads the values that have these blocks, whatever they are and whichever rows the memos are of.
fn read_values<D: Disk>(
    alloc: Global,
    disk: &mut D,
    blocks: StringBlocks,
    memos: &[Memo],
    rows: u32,
) -> Result<StringValues, ReadError>
    requires few { rows ≤ 16777216 }
    requires sizes_end { blocks.sizes.place + blocks.sizes.len < 2 ^ 64 }
    requires short_ends { blocks.short.place + blocks.short.len < 2 ^ 64 }
    requires memos_end { EndWithin (2 ^ 64 - 1) memos.now }
    requires sizes_within { D.tells → blocks.sizes.place + blocks.sizes.len ≤ length (D.outside disk.old).now.disk.seen }
    requires short_within { D.tells → blocks.short.place + blocks.short.len ≤ length (D.outside disk.old).now.disk.seen }
    requires memos_within { D.tells → EndWithin (length (D.outside disk.old).now.disk.seen) memos.now }
    ensures counts { CountsFaults (IsErrOf result ReadError.Failed) (D.outside disk.old) (D.outside disk.new) }
    ensures same { D.tells → Looks (D.outside disk.old) (D.outside disk.new) }
    ensures home { IfOk result (λ found. found.column.home ≡ Some (home_at (parts_of blocks memos.now))) }
    ensures counted { IfOk result (λ found. AreCounted rows (parts_of blocks memos.now) found.column.values) }
    ensures long { IfOk result (λ found. AreAsLong (parts_of blocks memos.now) rows found.column.values) }
    ensures short { IfOk result (λ found. found.short.bytes ≡ short_bytes found.column.values) }
    ensures values { D.tells → IfOk result (λ found. AreStringsAt (D.outside disk.old).now.disk.seen (parts_of blocks memos.now) rows found.column.values) }
    ensures unreadable { D.tells → IsErrOf result ReadError.Unreadable → (values : List (List ℕ))
        → ¬ AreStringsAt (D.outside disk.old).now.disk.seen (parts_of blocks memos.now) rows values }
{
    let sizes = read_ints(alloc, disk, blocks.width, blocks.sizes, rows)?;
    let short = read_block(alloc, disk, blocks.short)?;
    let held = read_memos(alloc, disk, memos)?;
    let home = home_of(alloc, blocks, memos)?;
    let column = BytesCol::from_blocks(alloc, &sizes, short.as_slice(), &held, Some(home))?;
    Ok(StringValues { column, short })
}
