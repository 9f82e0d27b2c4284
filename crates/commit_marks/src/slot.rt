// The 64 bytes of a slot: its gate, and the body of a mark.
ghost use Rattle.std.specs.Prelude.{◌≡◌, ◌↔◌, ◌∷◌, ◌<◌, ◌^◌, length, IsTrue, drop, slice_index};
ghost use Rattle.byteorder.specs.Endian.{little_number};
ghost use Rattle.commit_marks.specs.Marks.{IsMark, body_bytes, open_byte};
ghost use Rattle.commit_marks.specs.Slots.{IsSlot, IsParsed};

use crate::mark::Mark;
use byteorder::{ByteOrder, LittleEndian};

/// The gate of a slot that is open. With any other byte it is closed.
pub(crate) const OPEN: u8 = 0xa5;

/// The greatest number of a commit.
const MAX_NUMBER: u64 = (1 << 63) - 1;

/// What a slot holds.
#[derive(Clone, Copy)]
pub(crate) enum Slot {
    Closed,
    /// It is open, over the body of no mark.
    Spoiled,
    Open(Mark),
}

/// The 64 bytes of an open slot with this mark.
pub fn slot_bytes(mark: &Mark) -> [u8; 64]
    ensures { result ≡ open_byte ∷ body_bytes mark.now }
{
    let mut slot = [0; 64];
    slot[0] = OPEN;
    slot[1] = mark.version;
    LittleEndian::write_u64(&mut slot[8..], mark.number);
    LittleEndian::write_u64(&mut slot[16..], mark.place);
    LittleEndian::write_u64(&mut slot[24..], mark.len);
    LittleEndian::write_u64(&mut slot[32..], mark.end);
    slot
}

/// What the fields of a slot say, whether or not they are a mark's.
fn parse(slot: &[u8]) -> Mark
    requires { length slot.now ≡ 64 }
    ensures { IsParsed slot.now result }
{
    Mark {
        version: slot[1],
        number: LittleEndian::read_u64(&slot[8..]),
        place: LittleEndian::read_u64(&slot[16..]),
        len: LittleEndian::read_u64(&slot[24..]),
        end: LittleEndian::read_u64(&slot[32..]),
    }
}

/// Whether a body may say this.
fn is_mark(mark: Mark) -> bool
    ensures { IsTrue result ↔ IsMark mark }
{
    (mark.version == 1 || mark.version == 2) && mark.number <= MAX_NUMBER
}

/// Whether the bytes are those of an open slot with this mark.
fn spells(mark: &Mark, slot: &[u8]) -> bool
    ensures { IsTrue result ↔ (slot.now ≡ open_byte ∷ body_bytes mark.now) }
{
    slot == slot_bytes(mark).as_slice()
}

/// Reads a slot. It is spoiled where it is open and does not have the very bytes of the mark that its fields would be.
pub(crate) fn read_slot(slot: &[u8]) -> Slot
    requires { length slot.now ≡ 64 }
    ensures { IsSlot slot.now result }
{
    if slot[0] != OPEN {
        return Slot::Closed;
    }
    let mark = parse(slot);
    if is_mark(mark) && spells(&mark, slot) {
        Slot::Open(mark)
    } else {
        Slot::Spoiled
    }
}
