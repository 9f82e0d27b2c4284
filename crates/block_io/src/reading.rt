// A block is read in pieces, so that no more memory is asked for than the file has bytes.
ghost use Rattle.std.specs.Prelude.{◌≡◌, ℕ, ◌+◌, ◌^◌, ◌<◌, ◌≤◌, ◌++◌, length, take, drop, IfOk, IsErrOf, OnOk};
ghost use Rattle.host_io.specs.Calls.{CountsFaults, Looks};

use crate::error::BlockError;
use host_io::Disk;
use mk_value::{Bytes, Memory, Span};
use std::alloc::Global;

/// The length of the first piece.
const FIRST: u64 = 4096;

/// Reads the bytes of a span: a piece, and then as many again as were read. Memory is taken as they come, so that a span past the end of a file of
/// an unknown length fails before it takes memory for its length.
///
/// # Errors
///
/// `Failed`, which comes only where the disk failed; `Memory`. The disk is as before.
pub fn read_block<D: Disk>(alloc: Global, disk: &mut D, span: Span) -> Result<Bytes, BlockError>
    requires ends { span.place + span.len < 2 ^ 64 }
    requires within { D.tells → span.place + span.len ≤ length (D.outside disk.old).now.disk.seen }
    ensures counts { CountsFaults (IsErrOf result BlockError.Failed) (D.outside disk.old) (D.outside disk.new) }
    ensures same { D.tells → Looks (D.outside disk.old) (D.outside disk.new) }
    ensures len { IfOk result (λ b. length b.bytes ≡ span.len) }
    ensures bytes { D.tells → IfOk result (λ b. b.bytes ≡ take span.len (drop span.place (D.outside disk.old).now.disk.seen)) }
{
    let mut bytes = Vec::new(alloc);
    let mut left = span.len;
    while left > 0 {
        let count = left.min(FIRST.max(span.len - left));
        read_piece(
            disk,
            span.place + (span.len - left),
            count as usize,
            &mut bytes,
        )?;
        left -= count;
    }
    Ok(Bytes::from(bytes))
}

/// Appends so many bytes of the file from a place on.
fn read_piece<D: Disk>(
    disk: &mut D,
    place: u64,
    count: usize,
    bytes: &mut Vec<u8>,
) -> Result<(), BlockError>
    requires fits { length bytes.old.items + count < 2 ^ 64 }
    requires within { D.tells → place + count ≤ length (D.outside disk.old).now.disk.seen }
    ensures counts { CountsFaults (IsErrOf result BlockError.Failed) (D.outside disk.old) (D.outside disk.new) }
    ensures same { D.tells → Looks (D.outside disk.old) (D.outside disk.new) }
    ensures len { OnOk result (length bytes.new.items ≡ length bytes.old.items + count) }
    ensures bytes { D.tells → OnOk result (bytes.new.items ≡ bytes.old.items ++ take count (drop place (D.outside disk.old).now.disk.seen)) }
{
    let read = bytes.len();
    bytes.resize(read + count, 0).map_err(Memory::from)?;
    disk.read_at(place, &mut bytes[read..])?;
    Ok(())
}
