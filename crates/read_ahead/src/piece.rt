ghost use Rattle.std.specs.Prelude.{◌≡◌, ◌+◌, ◌++◌, ◌≤◌, ◌<◌, ◌^◌, [], drop, length, take, true};
ghost use Rattle.host_io.specs.Calls.{CountsFaults, Looks};
ghost use Rattle.read_ahead.specs.Pieces.{Holds};

use host_io::Disk;
use std::alloc::Global;

/// The most bytes that are read at once.
pub const PIECE: usize = 65_536;

/// A piece of a file that is at hand: its bytes from `start` on.
#[derive(Drop)]
pub(crate) struct Piece {
    pub(crate) start: u64,
    pub(crate) bytes: Vec<u8>,
}

impl Piece {
    /// A piece without a byte.
    pub fn new(alloc: Global) -> Piece
        ensures start { result.start ≡ 0 }
        ensures empty { result.bytes.items ≡ [] }
    {
        Piece {
            start: 0,
            bytes: Vec::new(alloc),
        }
    }

    /// Gives up what is at hand.
    pub fn forget(&mut self)
        ensures start { self.new.start ≡ 0 }
        ensures empty { self.new.bytes.items ≡ [] }
    {
        self.start = 0;
        self.bytes.clear();
    }

    /// Whether so many bytes from a place on are at hand.
    fn has(&self, at: u64, len: usize) -> bool
        ensures { result ≡ true → (self.now.start ≤ at) × (at + len ≤ self.now.start + length self.now.bytes.items) }
    {
        let held = self.bytes.len() as u64;
        self.start <= at && at - self.start <= held && len as u64 <= held - (at - self.start)
    }
}

/// Appends so many bytes of the file from a place on, if memory and the disk allow it.
fn append_bytes<D: Disk>(disk: &mut D, at: u64, count: usize, bytes: &mut Vec<u8>) -> bool
    requires fits { length bytes.old.items + count < 2 ^ 64 }
    requires within { D.tells → at + count ≤ length (D.outside disk.old).now.disk.seen }
    ensures counts { CountsFaults ⊥ (D.outside disk.old) (D.outside disk.new) }
    ensures same { D.tells → Looks (D.outside disk.old) (D.outside disk.new) }
    ensures len { result ≡ true → length bytes.new.items ≡ length bytes.old.items + count }
    ensures bytes { D.tells → result ≡ true → bytes.new.items ≡ bytes.old.items ++ take count (drop at (D.outside disk.old).now.disk.seen) }
{
    let held = bytes.len();
    if bytes.resize(held + count, 0).is_err() {
        return false;
    }
    disk.read_at(at, &mut bytes[held..]).is_ok()
}

/// Reads a piece from a place on, as far as the file and the greatest piece go. What can't be read is not at hand.
fn fill<D: Disk>(disk: &mut D, piece: &mut Piece, at: u64)
    ensures counts { CountsFaults ⊥ (D.outside disk.old) (D.outside disk.new) }
    ensures same { D.tells → Looks (D.outside disk.old) (D.outside disk.new) }
    ensures holds { Holds D.tells (D.outside disk.new).now.disk.seen piece.new.start piece.new.bytes.items }
{
    piece.forget();
    let Ok(len) = disk.len() else {
        return;
    };
    if len <= at {
        return;
    }
    let count = (len - at).min(PIECE as u64) as usize;
    if append_bytes(disk, at, count, &mut piece.bytes) {
        piece.start = at;
    } else {
        piece.forget();
    }
}

/// Whether so many bytes from a place on are at hand, if need be after a piece was read there.
pub(crate) fn reach<D: Disk>(disk: &mut D, piece: &mut Piece, at: u64, len: usize) -> bool
    requires { Holds D.tells (D.outside disk.old).now.disk.seen piece.old.start piece.old.bytes.items }
    ensures counts { CountsFaults ⊥ (D.outside disk.old) (D.outside disk.new) }
    ensures same { D.tells → Looks (D.outside disk.old) (D.outside disk.new) }
    ensures holds { Holds D.tells (D.outside disk.new).now.disk.seen piece.new.start piece.new.bytes.items }
    ensures there { result ≡ true → (piece.new.start ≤ at) × (at + len ≤ piece.new.start + length piece.new.bytes.items) }
{
    if !piece.has(at, len) {
        fill(disk, piece, at);
    }
    piece.has(at, len)
}
