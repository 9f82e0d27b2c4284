// The three writes of a commit to its slots.
ghost use Rattle.std.specs.Prelude.{◌≡◌, ◌+◌, ◌<◌, ◌≤◌, [], ◌∷◌, length, IsOk, IsSome};
ghost use Rattle.host_io.specs.Calls.{CountsDisk};
ghost use Rattle.host_io.specs.Ranges.{Puts, PutsAndSyncs};
ghost use Rattle.commit_marks.specs.Marks.{body_bytes, open_byte, other_slot, slot_place};

use crate::mark::{Mark, Marks};
use crate::slot::{OPEN, slot_bytes};
use host_io::{Disk, Failed};

/// A gate that is closed.
const CLOSED: u8 = 0;

/// Where a slot begins, which is its gate.
pub fn slot_place(slot: u8) -> u64
    requires { slot ≤ 1 }
    ensures { result ≡ slot_place slot }
{
    64 + 64 * u64::from(slot)
}

/// Writes a gate, and makes it outlast a crash.
fn write_gate<D: Disk>(disk: &mut D, slot: u8, gate: u8) -> Result<(), Failed>
    requires low { slot ≤ 1 }
    requires long { D.tells → 192 ≤ length (D.outside disk.old).now.disk.seen }
    ensures counts { CountsDisk (D.outside disk.old) (D.outside disk.new) result }
    ensures writes { D.tells → PutsAndSyncs (slot_place slot) (gate ∷ []) (D.outside disk.old) (D.outside disk.new) result }
{
    disk.write_at(slot_place(slot), &[gate])?;
    disk.sync()
}

/// The first step of a commit: where the other slot is open its gate is closed, and the disk is synced. A gate that reads
/// closed is not written: a write that is torn might open it over a body that is not whole.
pub fn close_other<D: Disk>(disk: &mut D, marks: &Marks) -> Result<(), Failed>
    requires low { marks.now.slot ≤ 1 }
    requires long { D.tells → 192 ≤ length (D.outside disk.old).now.disk.seen }
    ensures counts { CountsDisk (D.outside disk.old) (D.outside disk.new) result }
    ensures closed { marks.now.other ≡ None → IsOk result × (disk.new ≡ disk.old) }
    ensures closes { D.tells → IsSome marks.now.other →
        PutsAndSyncs (slot_place (other_slot marks.now.slot)) (0 ∷ []) (D.outside disk.old) (D.outside disk.new) result }
{
    match marks.other {
        Some(_) => write_gate(disk, 1 - marks.slot, CLOSED),
        None => Ok(()),
    }
}

/// Writes the body of a mark, bytes 1 to 64 of a slot, and does not sync.
pub fn write_body<D: Disk>(disk: &mut D, slot: u8, mark: &Mark) -> Result<(), Failed>
    requires low { slot ≤ 1 }
    requires long { D.tells → 192 ≤ length (D.outside disk.old).now.disk.seen }
    ensures counts { CountsDisk (D.outside disk.old) (D.outside disk.new) result }
    ensures writes { D.tells → Puts (slot_place slot + 1) (body_bytes mark.now) (D.outside disk.old) (D.outside disk.new) result }
{
    let bytes = slot_bytes(mark);
    disk.write_at(slot_place(slot) + 1, &bytes[1..])
}

/// The last step of a commit: the gate of a slot is opened, and the disk is synced.
pub fn open_gate<D: Disk>(disk: &mut D, slot: u8) -> Result<(), Failed>
    requires low { slot ≤ 1 }
    requires long { D.tells → 192 ≤ length (D.outside disk.old).now.disk.seen }
    ensures counts { CountsDisk (D.outside disk.old) (D.outside disk.new) result }
    ensures writes { D.tells → PutsAndSyncs (slot_place slot) (open_byte ∷ []) (D.outside disk.old) (D.outside disk.new) result }
{
    write_gate(disk, slot, OPEN)
}
