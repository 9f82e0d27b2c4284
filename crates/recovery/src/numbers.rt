// Columns of numbers.
ghost use Rattle.std.specs.Prelude.{◌≡◌, ℕ, ℤ, ◌+◌, ◌^◌, ◌<◌, ◌≤◌, List, length, Some, IfOk, IsErrOf};
ghost use Rattle.host_io.specs.Calls.{CountsFaults, Looks};
ghost use Rattle.dir_codec.specs.Columns.{PlainEntry};
ghost use Rattle.tables.specs.Columns.{column_values, integers, IsColumnOf as IsStoredOf};
ghost use Rattle.recovery.specs.Found.{HasLength};
ghost use Rattle.recovery.specs.Reading.{IsColumnBy, IsColumnOf, IsReadable};
ghost use Rattle.recovery.specs.Numbers.{AreHeld, AreNumbersAt, ArePackedIn, IsNumberEntry};

use crate::error::ReadError;
use bit_pack::Width;
use block_io::read_block;
use host_io::Disk;
use int_col::IntCol;
use mk_value::Span;
use std::alloc::Global;

/// Reads the column that a directory has of so many numbers at this width and block.
///
/// # Errors
///
/// `Unreadable`, exactly where the block is that of no values of the column; `Failed`, which comes only where the disk failed; `Memory`.
/// The disk is as before.
pub(crate) fn read_numbers<D: Disk>(
    alloc: Global,
    disk: &mut D,
    width: Width,
    block: Span,
    rows: u32,
) -> Result<IntCol, ReadError>
    requires few { rows ≤ 16777216 }
    requires ends { block.place + block.len < 2 ^ 64 }
    requires within { D.tells → block.place + block.len ≤ length (D.outside disk.old).now.disk.seen }
    ensures counts { CountsFaults (IsErrOf result ReadError.Failed) (D.outside disk.old) (D.outside disk.new) }
    ensures same { D.tells → Looks (D.outside disk.old) (D.outside disk.new) }
    ensures home { IfOk result (λ column. column.home ≡ Some block) }
    ensures whole { IfOk result (λ column. (e : PlainEntry) → IsNumberEntry rows width block e → IsStoredOf rows e.domain (integers column)) }
    ensures made { IfOk result (λ column. (e : PlainEntry) → IsNumberEntry rows width block e
        → IsColumnBy HasLength e (column_values e.domain (integers column))) }
    ensures column { D.tells → IfOk result (λ column. (e : PlainEntry) → IsNumberEntry rows width block e
        → IsColumnOf (D.outside disk.old).now.disk.seen e (column_values e.domain (integers column))) }
    ensures unreadable { D.tells → IsErrOf result ReadError.Unreadable → (e : PlainEntry) → IsNumberEntry rows width block e
        → ¬ IsReadable (D.outside disk.old).now.disk.seen e }
{
    let column = read_ints(alloc, disk, width, block, rows)?;
    Ok(column)
}

/// Reads the numbers of a block, one for each row, packed at this width. The column has the block for its home.
///
/// # Errors
///
/// `Unreadable`, where no numbers have this block; `Failed`, which comes only where the disk failed; `Memory`. The disk is as before.
pub(crate) fn read_ints<D: Disk>(
    alloc: Global,
    disk: &mut D,
    width: Width,
    block: Span,
    rows: u32,
) -> Result<IntCol, ReadError>
    requires few { rows ≤ 16777216 }
    requires ends { block.place + block.len < 2 ^ 64 }
    requires within { D.tells → block.place + block.len ≤ length (D.outside disk.old).now.disk.seen }
    ensures counts { CountsFaults (IsErrOf result ReadError.Failed) (D.outside disk.old) (D.outside disk.new) }
    ensures same { D.tells → Looks (D.outside disk.old) (D.outside disk.new) }
    ensures held { IfOk result (λ column. AreHeld width rows column.values) }
    ensures packed { IfOk result (λ column. ArePackedIn width block rows column.values) }
    ensures home { IfOk result (λ column. column.home ≡ Some block) }
    ensures values { D.tells → IfOk result (λ column. AreNumbersAt (D.outside disk.old).now.disk.seen width block rows column.values) }
    ensures unreadable { D.tells → IsErrOf result ReadError.Unreadable → (values : List ℤ)
        → ¬ AreNumbersAt (D.outside disk.old).now.disk.seen width block rows values }
{
    let bytes = read_block(alloc, disk, block)?;
    let column = IntCol::from_packed(alloc, width, rows as usize, bytes.as_slice(), Some(block))?;
    Ok(column)
}
