// Opening a log: the tests that an aside file passes, in their order, and what makes a new one.
ghost use Rattle.std.specs.Prelude.{◌≡◌, ◌≢◌, ◌↔◌, IsTrue, ◌^◌, ◌<◌, ◌+◌, ◌≤◌, ◌++◌, [], length, replicate, IfOk, IsErrOf, MatchOption, OnOk};
ghost use Rattle.host_io.specs.Disk.{IsSettled};
ghost use Rattle.host_io.specs.Outside.{Goes, moment};
ghost use Rattle.host_io.specs.Calls.{CountsDisk, CountsFaults, Looks};
ghost use Rattle.host_io.specs.Ranges.{PutsAndSyncs};
ghost use Rattle.commit_marks.specs.Marks.{header};
ghost use Rattle.aside_disk.specs.declared.error.BaseRecord.{BaseRecord};
ghost use Rattle.aside_disk.specs.Logical.{IsBased, IsLogMark, base_bytes};
ghost use Rattle.aside_disk.specs.Opening.{GivesLogMarks, Opens, ReadsLog, Walks, new_bytes, opened_at};
ghost use Rattle.aside_disk.specs.Told.{IsWell};
ghost use Rattle.aside_disk.specs.Walking.{IsWalk};

use crate::error::{AsideError, BaseRecord};
use crate::log::{FIRST_RECORD, LOG_PLACE, Log, is_log_mark};
use crate::walking::{Walk, next_record};
use byteorder::{ByteOrder, LittleEndian};
use commit_marks::{HEADER, Mark, Marks, read_marks, slot_bytes, slot_place};
use host_io::{Disk, Failed};

/// What the record of a base begins with: `MKASIDE` and a zero.
const BASE_HEAD: [u8; 8] = *b"MKASIDE\0";

/// The first mark of an aside file.
const FIRST_MARK: Mark = Mark {
    version: 1,
    number: 0,
    place: LOG_PLACE,
    len: 64,
    end: FIRST_RECORD,
};

/// The record of a base, as a log begins with it.
fn base_bytes(kept: &BaseRecord) -> [u8; 64]
    ensures { result ≡ base_bytes kept.now }
{
    let mut bytes = [0; 64];
    bytes[..8].copy_from_slice(&BASE_HEAD);
    LittleEndian::write_u64(&mut bytes[8..16], kept.length);
    LittleEndian::write_u64(&mut bytes[16..24], kept.number);
    bytes
}

/// Whether these bytes are the record of a base.
fn is_base(bytes: &[u8], kept: &BaseRecord) -> bool
    ensures { IsTrue result ↔ (bytes.now ≡ base_bytes kept.now) }
{
    bytes == base_bytes(kept).as_slice()
}

/// What these bytes keep of a base.
fn parse_base(bytes: &[u8]) -> Option<BaseRecord>
    requires { length bytes.now ≡ 64 }
    ensures { MatchOption result ((kept : BaseRecord) → bytes.now ≢ base_bytes kept) (λ kept. (bytes.now ≡ base_bytes kept) × (kept.length < 2 ^ 64) × (kept.number < 2 ^ 64)) }
{
    let kept = BaseRecord {
        length: LittleEndian::read_u64(&bytes[8..]),
        number: LittleEndian::read_u64(&bytes[16..]),
    };
    if is_base(bytes, &kept) {
        Some(kept)
    } else {
        None
    }
}

/// What a log keeps of its base.
fn read_base<D: Disk>(disk: &mut D) -> Result<Option<BaseRecord>, Failed>
    requires within { D.tells → 256 ≤ length (D.outside disk.old).now.disk.seen }
    ensures counts { CountsDisk (D.outside disk.old) (D.outside disk.new) result }
    ensures same { D.tells → Looks (D.outside disk.old) (D.outside disk.new) }
    ensures gives { D.tells → IfOk result (λ found. MatchOption found
        ((kept : BaseRecord) → ¬ IsBased kept (D.outside disk.old).now.disk.seen)
        (λ kept. IsBased kept (D.outside disk.old).now.disk.seen)) }
{
    let mut bytes = [0; 64];
    disk.read_at(LOG_PLACE, &mut bytes)?;
    Ok(parse_base(&bytes))
}

/// The marks of a log.
pub(crate) fn read_log_marks<D: Disk>(disk: &mut D) -> Result<Marks, AsideError>
    ensures counts { CountsFaults (IsErrOf result AsideError.Failed) (D.outside disk.old) (D.outside disk.new) }
    ensures same { D.tells → Looks (D.outside disk.old) (D.outside disk.new) }
    ensures low { IfOk result (λ marks. marks.slot ≤ 1) }
    ensures number_fits { IfOk result (λ marks. marks.chosen.number < 2 ^ 63) }
    ensures rules { IfOk result (λ marks. IsLogMark marks.chosen) }
    ensures gives { D.tells → GivesLogMarks (D.outside disk.old).now.disk.seen result }
{
    let marks = read_marks(disk)?;
    if is_log_mark(&marks.chosen) {
        Ok(marks)
    } else {
        Err(AsideError::At(slot_place(marks.slot)))
    }
}

/// The length of a file with all records of a log put into it.
fn walk_log<D: Disk>(disk: &mut D, end: u64, len: u64) -> Result<u64, AsideError>
    requires walk { IsWalk 256 end }
    requires within { D.tells → end ≤ length (D.outside disk.old).now.disk.seen }
    ensures counts { CountsFaults (IsErrOf result AsideError.Failed) (D.outside disk.old) (D.outside disk.new) }
    ensures same { D.tells → Looks (D.outside disk.old) (D.outside disk.new) }
    ensures fits { len < 2 ^ 63 → IfOk result (λ grown. grown < 2 ^ 63) }
    ensures walks { D.tells → Walks (D.outside disk.old).now.disk.seen len end result }
{
    let mut walk = Walk::new(FIRST_RECORD, end, len);
    'records: while let Some(_) = next_record(disk, &mut walk)? {}
    if walk.at < end {
        return Err(AsideError::At(walk.at));
    }
    Ok(walk.len)
}

/// Reads the log of a file that is not empty, as that of the base with this record.
fn read_log<D: Disk>(disk: &mut D, given: &BaseRecord) -> Result<Log, AsideError>
    requires fits { given.now.length < 2 ^ 63 }
    ensures counts { CountsFaults (IsErrOf result AsideError.Failed) (D.outside disk.old) (D.outside disk.new) }
    ensures same { D.tells → Looks (D.outside disk.old) (D.outside disk.new) }
    ensures well { IfOk result (λ log. IsWell log) }
    ensures reads { D.tells → ReadsLog (D.outside disk.old).now.disk.seen given.now result }
{
    let marks = read_log_marks(disk)?;
    let end = marks.chosen.end;
    let Some(kept) = read_base(disk)? else {
        return Err(AsideError::At(LOG_PLACE));
    };
    let len = walk_log(disk, end, kept.length)?;
    if kept != *given {
        return Err(AsideError::OtherBase(kept, *given));
    }
    Ok(Log {
        marks,
        end,
        len,
        unsure: false,
    })
}

/// Fills zeros with a header, a slot, one more of zeros, and the record of a base.
fn fill_new(bytes: &mut [u8], slot: &[u8], base: &[u8])
    requires zeros { bytes.old ≡ replicate 256 0 }
    requires slot { length slot.now ≡ 64 }
    requires base { length base.now ≡ 64 }
    ensures { bytes.new ≡ header ++ (slot.now ++ (replicate 64 0 ++ base.now)) }
{
    let (front, rest) = bytes.split_at_mut(64);
    front.copy_from_slice(&HEADER);
    let (first, others) = rest.split_at_mut(64);
    first.copy_from_slice(slot);
    others[64..].copy_from_slice(base);
}

/// The bytes of a new aside file.
fn new_bytes(given: &BaseRecord) -> [u8; 256]
    ensures { result ≡ new_bytes given.now }
{
    let mut bytes = [0; 256];
    fill_new(&mut bytes, &slot_bytes(&FIRST_MARK), &base_bytes(given));
    bytes
}

/// Makes the aside file of a base of a file that is empty, by one write and one sync.
fn make_log<D: Disk>(disk: &mut D, given: &BaseRecord) -> Result<(), Failed>
    ensures counts { CountsDisk (D.outside disk.old) (D.outside disk.new) result }
    ensures makes { D.tells → PutsAndSyncs 0 (new_bytes given.now) (D.outside disk.old) (D.outside disk.new) result }
    ensures since { D.tells → OnOk result (moment (D.outside disk.new) ≡ moment (D.outside disk.old) + 2) }
{
    disk.write_at(0, &new_bytes(given))?;
    disk.sync()
}

/// Opens the log of a base in memory, of so many bytes and this number, and makes it where the file is empty. It takes no memory.
///
/// # Errors
///
/// `At` comes exactly where the file is not empty and no aside file, with the place of what the first test that refuses it is about, and
/// `OtherBase` exactly where it is that of another base, with what it keeps of that one before what was given. Then the disk is as before.
/// Both yield to `Failed`, which comes only where the disk failed.
pub fn open_log<D: Disk>(disk: &mut D, given: BaseRecord) -> Result<Log, AsideError>
    requires fits { given.length < 2 ^ 63 }
    requires settled { D.tells → IsSettled (D.outside disk.old).now.disk }
    ensures counts { CountsFaults (IsErrOf result AsideError.Failed) (D.outside disk.old) (D.outside disk.new) }
    ensures well { IfOk result (λ log. IsWell log) }
    ensures opens { D.tells → Opens given (D.outside disk.old) (D.outside disk.new) result }

    // Nothing is said or taken. A file that is not empty is only looked at, whatever comes, and an empty one is made in two moments.
    ensures said { D.tells → (D.outside disk.new).now.said ≡ (D.outside disk.old).now.said }
    ensures input { D.tells → (D.outside disk.new).input ≡ (D.outside disk.old).input }
    ensures moments { D.tells → Goes (λ at. at.said ≡ (D.outside disk.old).now.said) (D.outside disk.old) (D.outside disk.new) }
    ensures untouched { D.tells → (D.outside disk.old).now.disk.seen ≢ [] → Looks (D.outside disk.old) (D.outside disk.new) }
    ensures since { D.tells → IfOk result (λ log. moment (D.outside disk.new) ≡ opened_at (D.outside disk.old)) }
{
    if disk.len()? > 0 {
        return read_log(disk, &given);
    }
    make_log(disk, &given)?;
    Ok(Log {
        marks: Marks {
            chosen: FIRST_MARK,
            slot: 0,
            other: None,
        },
        end: FIRST_RECORD,
        len: given.length,
        unsure: false,
    })
}
