// A block is written in pieces of 4,096 bytes and a last one, with zeros up to the end of its extent.
ghost use Rattle.std.specs.Prelude.{◌≡◌, ◌+◌, ◌^◌, ◌<◌, ◌≤◌, IfOk, length, replicate};
ghost use Rattle.free_space.specs.Extents.{extent_len};
ghost use Rattle.host_io.specs.Calls.{CountsDisk};
ghost use Rattle.host_io.specs.Ranges.{Puts};
ghost use Rattle.block_io.specs.Parts.{IsPart, part_bytes, rounded};
ghost use Rattle.block_io.specs.Pieces.{IsPiece, IsShorter, PutsNext};

use crate::part::Part;
use crate::source::{Rest, Source};
use free_space::extent_len;
use host_io::{Disk, Failed, MAX_WRITE};

/// Writes a block with its rounding, and does not sync. It takes no memory.
///
/// At each moment of the call, and where it fails, a crash may tear the bytes of the block's extent, and no others.
pub fn write_block<D: Disk>(disk: &mut D, at: u64, part: &Part<'_>) -> Result<(), Failed>
    requires part { IsPart part.now }
    requires ends { at + extent_len (length (part_bytes part.now)) < 2 ^ 64 }
    requires within { D.tells → at ≤ length (D.outside disk.old).now.disk.seen }
    ensures counts { CountsDisk (D.outside disk.old) (D.outside disk.new) result }
    ensures writes { D.tells → Puts at (rounded (part_bytes part.now)) (D.outside disk.old) (D.outside disk.new) result }
{
    match part {
        Part::Ints(column) => write_all(disk, at, column.packed()),
        Part::Short(column) => write_all(disk, at, column.short()),
        Part::Memo(column, row) => write_all(disk, at, Rest(column.value(*row))),
        Part::Raw(bytes) => write_all(disk, at, Rest(bytes)),
    }
}

/// Writes all bytes to come with their rounding.
fn write_all<D: Disk, S: Source>(disk: &mut D, at: u64, mut source: S) -> Result<(), Failed>
    requires ends { at + extent_len (length (S.rest source)) < 2 ^ 64 }
    requires within { D.tells → at ≤ length (D.outside disk.old).now.disk.seen }
    ensures counts { CountsDisk (D.outside disk.old) (D.outside disk.new) result }
    ensures writes { D.tells → Puts at (rounded (S.rest source)) (D.outside disk.old) (D.outside disk.new) result }
{
    let mut place = at;
    'pieces: while source.left() > 0 {
        place += write_next(disk, place, &mut source)?;
    }
    Ok(())
}

/// Writes the next piece at a place, and gives its length.
fn write_next<D: Disk, S: Source>(disk: &mut D, place: u64, source: &mut S) -> Result<u64, Failed>
    requires some { 0 < length (S.rest source.old) }
    requires ends { place + length (rounded (S.rest source.old)) < 2 ^ 64 }
    requires within { D.tells → place ≤ length (D.outside disk.old).now.disk.seen }
    ensures counts { CountsDisk (D.outside disk.old) (D.outside disk.new) result }
    ensures shorter { IfOk result (λ n. IsShorter n (S.rest source.old) (S.rest source.new)) }
    ensures writes { D.tells → PutsNext place (S.rest source.old) (S.rest source.new) (D.outside disk.old) (D.outside disk.new) result }
{
    let mut piece = [0; MAX_WRITE];
    let len = fill_piece(source, &mut piece);
    disk.write_at(place, &piece[..len])?;
    Ok(len as u64)
}

/// Fills the front of a piece of zeros with the next bytes, and gives its length with their rounding.
#[tactic(auto, unfolding(free_space::specs::Extents::extent_len))]
fn fill_piece<S: Source>(source: &mut S, piece: &mut [u8]) -> usize
    requires some { 0 < length (S.rest source.old) }
    requires zeros { piece.old ≡ replicate 4096 0 }
    ensures { IsPiece piece.new result (S.rest source.old) (S.rest source.new) }
{
    let len = source.left().min(MAX_WRITE);
    source.give(&mut piece[..len]);
    extent_len(len as u64) as usize
}
