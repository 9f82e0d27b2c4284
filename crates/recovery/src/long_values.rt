// The long values of a column.
ghost use Rattle.std.specs.Prelude.{◌≡◌, ℕ, ◌+◌, ◌-◌, ◌^◌, ◌<◌, ◌≤◌, length, map, IfOk, IsErrOf};
ghost use Rattle.host_io.specs.Calls.{CountsFaults, Looks};
ghost use Rattle.recovery.specs.Memos.{EndWithin, memo_bytes};

use block_io::{BlockError, read_block};
use bytes_col::Memos;
use dir_codec::Memo;
use host_io::Disk;
use std::alloc::Global;

/// Reads the blocks of these memos, in order. The disk is as before.
pub(crate) fn read_memos<D: Disk>(
    alloc: Global,
    disk: &mut D,
    memos: &[Memo],
) -> Result<Memos, BlockError>
    requires ends { EndWithin (2 ^ 64 - 1) memos.now }
    requires within { D.tells → EndWithin (length (D.outside disk.old).now.disk.seen) memos.now }
    ensures counts { CountsFaults (IsErrOf result BlockError.Failed) (D.outside disk.old) (D.outside disk.new) }
    ensures same { D.tells → Looks (D.outside disk.old) (D.outside disk.new) }
    ensures count { IfOk result (λ held. length held ≡ length memos.now) }
    ensures lens { IfOk result (λ held. map length held ≡ map (λ m. m.span.len) memos.now) }
    ensures bytes { D.tells → IfOk result (λ held. held ≡ memo_bytes (D.outside disk.old).now.disk.seen memos.now) }
{
    let mut held = Memos::new(alloc);
    for memo in memos {
        held.push(read_block(alloc, disk, memo.span)?)?;
    }
    Ok(held)
}
