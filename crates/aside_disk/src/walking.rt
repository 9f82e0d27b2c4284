// A walk over the records of a log, head by head.
ghost use Rattle.std.specs.Prelude.{◌≡◌, ◌+◌, ◌-◌, ◌^◌, ◌<◌, ◌≤◌, ◌++◌, length, take, drop, IfOk, OnOk, IfSome, MatchOption};
ghost use Rattle.byteorder.specs.Endian.{little_bytes};
ghost use Rattle.host_io.specs.Calls.{CountsDisk, Looks};
ghost use Rattle.aside_disk.specs.Records.{record_len};
ghost use Rattle.aside_disk.specs.Walking.{AreBounded, HasPiece, IsHeadAt, IsPiece, IsWalk, Passes, Steps};

use crate::log::MAX_LEN;
use crate::record::record_len;
use byteorder::{ByteOrder, LittleEndian};
use host_io::{Disk, Failed, MAX_WRITE};

/// What stands before the bytes of a record: where in the file they go, and how many they are.
#[derive(Clone, Copy)]
pub(crate) struct Head {
    pub(crate) place: u64,
    pub(crate) len: u64,
}

/// A record: where in the file its bytes go, how many they are, and where they stand in the log.
#[derive(Clone, Copy)]
pub(crate) struct Record {
    pub(crate) place: u64,
    pub(crate) len: u64,
    pub(crate) from: u64,
}

/// A piece of a log that was read, so that several heads come by one call.
#[derive(Drop)]
pub(crate) struct Piece {
    pub(crate) place: u64,
    pub(crate) count: usize,
    pub(crate) bytes: [u8; MAX_WRITE],
}

/// How far a walk has come in a log, and how long the file is with the records before it.
#[derive(Drop)]
pub(crate) struct Walk {
    pub(crate) at: u64,
    pub(crate) end: u64,
    pub(crate) len: u64,
    pub(crate) piece: Piece,
}

impl Walk {
    /// A walk over the records from here to the end of a log, into a file of this length.
    pub(crate) fn new(at: u64, end: u64, len: u64) -> Walk
        requires walk { IsWalk at end }
        ensures begins { result.at ≡ at }
        ensures ends { result.end ≡ end }
        ensures len { result.len ≡ len }
        ensures piece { IsPiece result.piece }
        ensures place { result.piece.place ≡ at }
        ensures nothing { result.piece.count ≡ 0 }
    {
        Walk {
            at,
            end,
            len,
            piece: Piece {
                place: at,
                count: 0,
                bytes: [0; MAX_WRITE],
            },
        }
    }
}

/// Reads the piece that begins here, as far as the log goes.
fn fill_piece<D: Disk>(disk: &mut D, piece: &mut Piece, at: u64, end: u64) -> Result<(), Failed>
    requires walk { IsWalk at end }
    requires some { at < end }
    requires within { D.tells → end ≤ length (D.outside disk.old).now.disk.seen }
    ensures counts { CountsDisk (D.outside disk.old) (D.outside disk.new) result }
    ensures same { D.tells → Looks (D.outside disk.old) (D.outside disk.new) }
    ensures piece { OnOk result (IsPiece piece.new) }
    ensures begins { OnOk result (piece.new.place ≡ at) }
    ensures reaches { OnOk result (at + 16 ≤ at + piece.new.count) }
    ensures bytes { D.tells → OnOk result (HasPiece (D.outside disk.old).now.disk.seen piece.new) }
{
    let count = (end - at).min(MAX_WRITE as u64) as usize;
    disk.read_at(at, &mut piece.bytes[..count])?;
    piece.place = at;
    piece.count = count;
    Ok(())
}

/// Sees to it that a piece holds the 16 bytes from here on.
fn reach_head<D: Disk>(disk: &mut D, piece: &mut Piece, at: u64, end: u64) -> Result<(), Failed>
    requires walk { IsWalk at end }
    requires some { at < end }
    requires piece { IsPiece piece.old }
    requires within { D.tells → end ≤ length (D.outside disk.old).now.disk.seen }
    requires bytes { D.tells → HasPiece (D.outside disk.old).now.disk.seen piece.old }
    ensures counts { CountsDisk (D.outside disk.old) (D.outside disk.new) result }
    ensures same { D.tells → Looks (D.outside disk.old) (D.outside disk.new) }
    ensures piece { OnOk result (IsPiece piece.new) }
    ensures behind { OnOk result (piece.new.place ≤ at) }
    ensures reaches { OnOk result (at + 16 ≤ piece.new.place + piece.new.count) }
    ensures bytes { D.tells → OnOk result (HasPiece (D.outside disk.old).now.disk.seen piece.new) }
{
    if at < piece.place || piece.place + (piece.count as u64) < at + 16 {
        return fill_piece(disk, piece, at, end);
    }
    Ok(())
}

/// The head that stands here.
fn head_at<D: Disk>(disk: &mut D, piece: &mut Piece, at: u64, end: u64) -> Result<Head, Failed>
    requires walk { IsWalk at end }
    requires some { at < end }
    requires piece { IsPiece piece.old }
    requires within { D.tells → end ≤ length (D.outside disk.old).now.disk.seen }
    requires bytes { D.tells → HasPiece (D.outside disk.old).now.disk.seen piece.old }
    ensures counts { CountsDisk (D.outside disk.old) (D.outside disk.new) result }
    ensures same { D.tells → Looks (D.outside disk.old) (D.outside disk.new) }
    ensures piece { OnOk result (IsPiece piece.new) }
    ensures bytes { D.tells → OnOk result (HasPiece (D.outside disk.old).now.disk.seen piece.new) }
    ensures head { D.tells → IfOk result (λ head. IsHeadAt (D.outside disk.old).now.disk.seen at head) }
{
    reach_head(disk, piece, at, end)?;
    Ok(read_head(piece, at))
}

/// The head that stands here in a piece.
fn read_head(piece: &Piece, at: u64) -> Head
    requires piece { IsPiece piece.now }
    requires behind { piece.now.place ≤ at }
    requires within { at + 16 ≤ piece.now.place + piece.now.count }
    ensures place_fits { result.place < 2 ^ 64 }
    ensures len_fits { result.len < 2 ^ 64 }
    ensures bytes { take 16 (drop (at - piece.now.place) piece.now.bytes) ≡ little_bytes 8 result.place ++ little_bytes 8 result.len }
{
    let from = (at - piece.place) as usize;
    Head {
        place: LittleEndian::read_u64(&piece.bytes[from..]),
        len: LittleEndian::read_u64(&piece.bytes[from + 8..]),
    }
}

/// Where the record with this head ends, where it has a byte at least, goes into a file of this length or to its end, and is whole
/// before the end of the log.
fn record_end(head: &Head, at: u64, end: u64, len: u64) -> Option<u64>
    requires walk { IsWalk at end }
    ensures { MatchOption result (¬ Passes head.now at end len) (λ next. Passes head.now at end len × (next ≡ at + record_len head.now.len)) }
{
    if head.len == 0 || end - at < head.len || len < head.place || MAX_LEN < head.place {
        return None;
    }
    if MAX_LEN - head.place < head.len {
        return None;
    }
    let next = at + record_len(head.len);
    if next <= end { Some(next) } else { None }
}

/// The next record of a walk: none at the end of the log, and none where no record stands.
pub(crate) fn next_record<D: Disk>(disk: &mut D, walk: &mut Walk) -> Result<Option<Record>, Failed>
    requires walk { IsWalk walk.old.at walk.old.end }
    requires piece { IsPiece walk.old.piece }
    requires within { D.tells → walk.old.end ≤ length (D.outside disk.old).now.disk.seen }
    requires bytes { D.tells → HasPiece (D.outside disk.old).now.disk.seen walk.old.piece }
    ensures counts { CountsDisk (D.outside disk.old) (D.outside disk.new) result }
    ensures same { D.tells → Looks (D.outside disk.old) (D.outside disk.new) }
    ensures ends { walk.new.end ≡ walk.old.end }
    ensures walk { OnOk result (IsWalk walk.new.at walk.old.end) }
    ensures onward { IfOk result (λ next. IfSome next (λ _. walk.old.at < walk.new.at)) }
    ensures piece { OnOk result (IsPiece walk.new.piece) }
    ensures bytes { D.tells → OnOk result (HasPiece (D.outside disk.old).now.disk.seen walk.new.piece) }
    ensures bounds { IfOk result (λ next. IfSome next (λ found. AreBounded found)) }
    ensures fits { walk.old.len < 2 ^ 63 → OnOk result (walk.new.len < 2 ^ 63) }
    ensures steps { D.tells → IfOk result (λ next. Steps (D.outside disk.old).now.disk.seen walk.old walk.new next) }
{
    if walk.at == walk.end {
        return Ok(None);
    }
    let head = head_at(disk, &mut walk.piece, walk.at, walk.end)?;
    let Some(next) = record_end(&head, walk.at, walk.end, walk.len) else {
        return Ok(None);
    };
    let from = walk.at + 16;
    walk.at = next;
    walk.len = walk.len.max(head.place + head.len);
    Ok(Some(Record {
        place: head.place,
        len: head.len,
        from,
    }))
}
