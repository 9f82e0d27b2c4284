// The records behind a log become part of it.
ghost use Rattle.std.specs.Prelude.{◌≡◌, ◌+◌, ◌≤◌, List, length};
ghost use Rattle.host_io.specs.Calls.{CountsDisk};
ghost use Rattle.aside_disk.specs.declared.error.BaseRecord.{BaseRecord};
ghost use Rattle.aside_disk.specs.Records.{Entry};
ghost use Rattle.aside_disk.specs.Committing.{Commits, IsDue};
ghost use Rattle.host_io.specs.Ranges.{PutsAndSyncs};
ghost use Rattle.commit_marks.specs.Marks.{body_bytes, slot_place};

use commit_marks::{Mark, Marks, close_other, open_gate, write_body};
use host_io::{Disk, Failed};

/// Commits the records that stand behind the log by this mark: where the other slot is open its gate is closed, its body is written
/// behind the closed gate, and the gate is opened, each of the three synced before the next.
pub(crate) fn commit<D: Disk>(disk: &mut D, marks: &Marks, next: &Mark) -> Result<(), Failed>
    requires low { marks.now.slot ≤ 1 }
    requires long { D.tells → 192 ≤ length (D.outside disk.old).now.disk.seen }
    ensures counts { CountsDisk (D.outside disk.old) (D.outside disk.new) result }
    ensures input { D.tells → (D.outside disk.new).input ≡ (D.outside disk.old).input }
    ensures commits { D.tells → (kept : BaseRecord) (old more : List Entry) →
        IsDue kept marks.now.slot marks.now.chosen next.now marks.now.other old more (D.outside disk.old).now.disk →
        Commits kept marks.now.slot marks.now.chosen next.now marks.now.other old more (D.outside disk.old) (D.outside disk.new) result }
{
    let other = 1 - marks.slot;
    close_other(disk, marks)?;
    fill(disk, other, next)?;
    open_gate(disk, other)
}

/// Writes the body of a slot whose gate is closed, and syncs it with all that was written before.
fn fill<D: Disk>(disk: &mut D, slot: u8, mark: &Mark) -> Result<(), Failed>
    requires low { slot ≤ 1 }
    requires long { D.tells → 192 ≤ length (D.outside disk.old).now.disk.seen }
    ensures counts { CountsDisk (D.outside disk.old) (D.outside disk.new) result }
    ensures fills { D.tells → PutsAndSyncs (slot_place slot + 1) (body_bytes mark.now) (D.outside disk.old) (D.outside disk.new) result }
{
    write_body(disk, slot, mark)?;
    disk.sync()
}
