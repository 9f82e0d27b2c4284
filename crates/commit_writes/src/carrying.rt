// The three steps of a commit.
ghost use Rattle.std.specs.Prelude.{◌≡◌, ℕ, ◌≤◌, List, length};
ghost use Rattle.host_io.specs.Calls.{CountsDisk};
ghost use Rattle.commit_marks.specs.Marks.{other_slot};
ghost use Rattle.commit_writes.specs.Blocks.{AreWritable, BeginWithin};
ghost use Rattle.commit_writes.specs.Footprints.{Footprint};
ghost use Rattle.commit_writes.specs.Writing.{FillsBehind};
ghost use Rattle.commit_writes.specs.Carrying.{IsReady, Carries};

use crate::writes_blocks::WritesBlocks;
use commit_marks::{Mark, Marks, close_other, open_gate, write_body};
use host_io::{Disk, Failed};

/// Writes a commit into the slot that is not chosen: where that slot is open its gate is closed, the blocks and the body of its mark
/// are written behind the closed gate, and the gate is opened, each of the three synced before the next.
///
/// A crash at any moment of the call leaves the old commit, or the next one with the old one before it. So it does after a
/// failure, which comes only where the disk failed.
pub fn carry<D: Disk, B: WritesBlocks>(
    disk: &mut D,
    marks: &Marks,
    blocks: &B,
    next: &Mark,
) -> Result<(), Failed>
    requires low { marks.now.slot ≤ 1 }
    requires writable { AreWritable (B.blocks blocks.now) }
    requires long { D.tells → 192 ≤ length (D.outside disk.old).now.disk.seen }
    requires begins { D.tells → BeginWithin (length (D.outside disk.old).now.disk.seen) (B.blocks blocks.now) }
    ensures counts { CountsDisk (D.outside disk.old) (D.outside disk.new) result }
    ensures carries { D.tells → (old after : Footprint) →
        IsReady old after marks.now (B.blocks blocks.now) next.now (D.outside disk.old).now.disk →
        Carries old after marks.now.slot marks.now.other (B.blocks blocks.now) (D.outside disk.old) (D.outside disk.new) result }
{
    let other = 1 - marks.slot;
    close_other(disk, marks)?;
    fill_behind(disk, other, blocks, next)?;
    open_gate(disk, other)
}

/// Writes the blocks and the body of a slot whose gate is closed, and syncs them.
fn fill_behind<D: Disk, B: WritesBlocks>(
    disk: &mut D,
    slot: u8,
    blocks: &B,
    mark: &Mark,
) -> Result<(), Failed>
    requires low { slot ≤ 1 }
    requires writable { AreWritable (B.blocks blocks.now) }
    requires long { D.tells → 192 ≤ length (D.outside disk.old).now.disk.seen }
    requires begins { D.tells → BeginWithin (length (D.outside disk.old).now.disk.seen) (B.blocks blocks.now) }
    ensures counts { CountsDisk (D.outside disk.old) (D.outside disk.new) result }
    ensures fills { D.tells → FillsBehind slot (B.blocks blocks.now) mark.now (D.outside disk.old) (D.outside disk.new) result }
{
    blocks.write(disk)?;
    write_body(disk, slot, mark)?;
    disk.sync()
}
