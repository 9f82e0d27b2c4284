// A file is opened, and the commit before is read.
ghost use Rattle.std.specs.Prelude.{◌≡◌, ◌^◌, ◌<◌, ◌≤◌, length, None, Some, IfErr, IfOk, IfSome, IsErrOf, OnOk};
ghost use Rattle.host_io.specs.Calls.{CountsFaults, Looks};
ghost use Rattle.free_space.specs.Extents.{AreApart, IsAligned};
ghost use Rattle.free_space.specs.Sites.{IsSite, first_place};
ghost use Rattle.commit_marks.specs.Marks.{AreMarks, FitsFile, IsMark, dir_span, other_slot};
ghost use Rattle.commit_marks.specs.Slots.{AreMarksOfSome};
ghost use Rattle.dir_codec.specs.Dir.{IsDir, spelled};
ghost use Rattle.dir_codec.specs.Values.{dir_of};
ghost use Rattle.commit_writes.specs.Blocks.{StandsAt};
ghost use Rattle.recovery.specs.Commits.{IsCommit};
ghost use Rattle.recovery.specs.Found.{AreViewsFound, HasLength};
ghost use Rattle.recovery.specs.Keeping.{commit_in};
ghost use Rattle.recovery.specs.Opening.{IsKeptOf, NamesBroken, NamesCause, NamesColumn, NamesMeeting, NamesPlace, cause_of_columns, cause_of_directory, older_in};
ghost use Rattle.recovery.specs.Reading.{all_spans};
ghost use Rattle.recovery.specs.Refusals.{IsOlder};
ghost use Rattle.recovery.specs.Standing.{Stands};

use crate::directory::{DirectoryError, read_directory};
use crate::error::{ColumnsError, OpenError};
use crate::kept::Kept;
use crate::spans::spans_of;
use crate::views::read_views;
use commit_marks::{Mark, Marks, read_marks, slot_place};
use dir_codec::Dir;
use free_space::{FIRST_PLACE, FreeError, FreeMap};
use host_io::Disk;
use std::alloc::Global;

/// A file that was opened: the commit that it stands for, and its marks.
#[derive(Drop)]
pub struct Opened {
    pub kept: Kept,
    pub marks: Marks,
}

/// Opens a file: reads the commit that it stands for.
///
/// # Errors
///
/// `NotAStore` comes exactly where the file has fewer than 192 bytes or another header, and `Damaged` exactly where it stands for no
/// commit for another cause, with its place: that of a mark, 64 where no mark is open; a field of the directory; the later of two
/// extents that meet; or a column in the directory. They are looked for in this order. Each yields to `Failed`, which comes only where
/// the disk failed, and to `Memory`. The disk is as before.
pub fn open<D: Disk>(alloc: Global, disk: &mut D) -> Result<Opened, OpenError>
    ensures counts { CountsFaults (IsErrOf result OpenError.Failed) (D.outside disk.old) (D.outside disk.new) }
    ensures same { D.tells → Looks (D.outside disk.old) (D.outside disk.new) }
    ensures marks { D.tells → IfOk result (λ opened.
        AreMarks (D.outside disk.old).now.disk.seen opened.marks.slot opened.marks.chosen opened.marks.other) }
    ensures whole { IfOk result (λ opened. IsCommit (commit_in opened.kept)) }
    ensures stands { D.tells → IfOk result (λ opened. Stands (D.outside disk.old).now.disk.seen opened.marks.chosen (commit_in opened.kept)) }
    ensures refused { D.tells → IfErr result (NamesCause (D.outside disk.old).now.disk.seen) }

    // Of a disk that tells nothing too they are marks: those of some bytes.
    ensures some { IfOk result (λ opened. AreMarksOfSome opened.marks.slot opened.marks.chosen opened.marks.other) }
{
    let marks = read_marks(disk)?;
    let kept = read_chosen(alloc, disk, &marks)?;
    Ok(Opened { kept, marks })
}

/// Reads the commit under the mark of the other slot, and none where that slot has no mark.
///
/// # Errors
///
/// `Damaged` comes exactly where no commit stands under that mark any more, with its place, as `open` names it; `Failed`, which comes only
/// where the disk failed; `Memory`. `NotAStore` never comes. The disk is as before.
pub fn read_older<D: Disk>(
    alloc: Global,
    disk: &mut D,
    marks: &Marks,
) -> Result<Option<Kept>, OpenError>
    requires some { AreMarksOfSome marks.now.slot marks.now.chosen marks.now.other }
    requires marks { D.tells → AreMarks (D.outside disk.old).now.disk.seen marks.now.slot marks.now.chosen marks.now.other }
    ensures counts { CountsFaults (IsErrOf result OpenError.Failed) (D.outside disk.old) (D.outside disk.new) }
    ensures same { D.tells → Looks (D.outside disk.old) (D.outside disk.new) }
    ensures whole { IfOk result (λ found. IfSome found (λ kept. IsCommit (commit_in kept))) }
    ensures older { D.tells → IfOk result (λ found.
        IsOlder (D.outside disk.old).now.disk.seen (other_slot marks.now.slot) marks.now.other (older_in found)) }
    ensures broken { D.tells → IfErr result
        (NamesBroken (D.outside disk.old).now.disk.seen (other_slot marks.now.slot) marks.now.other) }
{
    match &marks.other {
        Some(mark) => {
            let kept = read_under(alloc, disk, 1 - marks.slot, mark)?;
            Ok(Some(kept))
        }
        None => Ok(None),
    }
}

/// Reads the commit under the chosen mark.
fn read_chosen<D: Disk>(alloc: Global, disk: &mut D, marks: &Marks) -> Result<Kept, OpenError>
    requires some { AreMarksOfSome marks.now.slot marks.now.chosen marks.now.other }
    requires marks { D.tells → AreMarks (D.outside disk.old).now.disk.seen marks.now.slot marks.now.chosen marks.now.other }
    ensures counts { CountsFaults (IsErrOf result OpenError.Failed) (D.outside disk.old) (D.outside disk.new) }
    ensures same { D.tells → Looks (D.outside disk.old) (D.outside disk.new) }
    ensures whole { IfOk result (λ kept. IsCommit (commit_in kept)) }
    ensures stands { D.tells → IfOk result (λ kept. Stands (D.outside disk.old).now.disk.seen marks.now.chosen (commit_in kept)) }
    ensures refused { D.tells → IfErr result (NamesCause (D.outside disk.old).now.disk.seen) }
{
    read_under(alloc, disk, marks.slot, &marks.chosen)
}

/// Reads the commit under the mark of a slot, whether or not the mark fits the file.
fn read_under<D: Disk>(
    alloc: Global,
    disk: &mut D,
    slot: u8,
    mark: &Mark,
) -> Result<Kept, OpenError>
    requires low { slot ≤ 1 }
    requires good { IsMark mark.now }
    ensures counts { CountsFaults (IsErrOf result OpenError.Failed) (D.outside disk.old) (D.outside disk.new) }
    ensures same { D.tells → Looks (D.outside disk.old) (D.outside disk.new) }
    ensures whole { IfOk result (λ kept. IsCommit (commit_in kept)) }
    ensures stands { D.tells → IfOk result (λ kept. Stands (D.outside disk.old).now.disk.seen mark.now (commit_in kept)) }
    ensures refused { D.tells → IfErr result (NamesPlace (D.outside disk.old).now.disk.seen slot mark.now) }
{
    let len = disk.len()?;
    if !mark.fits_file(len) {
        return Err(OpenError::Damaged(slot_place(slot)));
    }
    read_fitting(alloc, disk, slot, mark)
}

/// Reads the commit under the mark of a slot, which fits the file.
fn read_fitting<D: Disk>(
    alloc: Global,
    disk: &mut D,
    slot: u8,
    mark: &Mark,
) -> Result<Kept, OpenError>
    requires good { IsMark mark.now }
    requires aligned { IsAligned mark.now.end }
    requires behind { first_place ≤ mark.now.end }
    requires site { IsSite mark.now.end (dir_span mark.now) }
    requires fits { D.tells → FitsFile (length (D.outside disk.old).now.disk.seen) mark.now }
    ensures counts { CountsFaults (IsErrOf result OpenError.Failed) (D.outside disk.old) (D.outside disk.new) }
    ensures same { D.tells → Looks (D.outside disk.old) (D.outside disk.new) }
    ensures whole { IfOk result (λ kept. IsCommit (commit_in kept)) }
    ensures stands { D.tells → IfOk result (λ kept. Stands (D.outside disk.old).now.disk.seen mark.now (commit_in kept)) }
    ensures refused { D.tells → IfErr result (NamesPlace (D.outside disk.old).now.disk.seen slot mark.now) }
{
    let dir = match read_directory(alloc, disk, mark) {
        Ok(dir) => dir,
        Err(error) => return Err(in_directory(error, mark.place)),
    };
    check_apart(alloc, &dir, mark)?;
    read_kept(alloc, disk, mark, dir)
}

/// Whether no two extents of a directory meet, its own among them.
fn check_apart(alloc: Global, dir: &Dir, mark: &Mark) -> Result<(), OpenError>
    requires good { IsDir mark.now.version mark.now.number mark.now.end (dir_of dir.now) }
    requires site { IsSite mark.now.end (dir_span mark.now) }
    requires small { mark.now.end < 2 ^ 64 }
    ensures apart { OnOk result (AreApart (all_spans (dir_of dir.now) (dir_span mark.now))) }
    ensures meeting { IfErr result (NamesMeeting (all_spans (dir_of dir.now) (dir_span mark.now))) }
{
    let spans = spans_of(alloc, dir, mark.dir())?;
    match FreeMap::from_used(alloc, FIRST_PLACE, &spans) {
        Ok(_) => Ok(()),
        Err(FreeError::Overlap(_, later)) => Err(OpenError::Damaged(later.place)),
        Err(FreeError::Memory) => Err(OpenError::Memory),
    }
}

/// Reads the views of a directory. What is kept is the commit of the mark.
fn read_kept<D: Disk>(alloc: Global, disk: &mut D, mark: &Mark, dir: Dir) -> Result<Kept, OpenError>
    requires good { IsDir mark.now.version mark.now.number mark.now.end (dir_of dir) }
    requires room { length (spelled (dir_of dir)) < 2 ^ 64 }
    requires small { mark.now.end < 2 ^ 64 }
    requires fits { D.tells → FitsFile (length (D.outside disk.old).now.disk.seen) mark.now }
    ensures counts { CountsFaults (IsErrOf result OpenError.Failed) (D.outside disk.old) (D.outside disk.new) }
    ensures same { D.tells → Looks (D.outside disk.old) (D.outside disk.new) }
    ensures kept { IfOk result (λ kept. IsKeptOf mark.now (dir_of dir) kept) }
    ensures made { IfOk result (λ kept. AreViewsFound HasLength (dir_of dir).views kept.views) }
    ensures found { D.tells → IfOk result (λ kept. AreViewsFound (StandsAt (D.outside disk.old).now.disk.seen) (dir_of dir).views kept.views) }
    ensures unreadable { D.tells → IfErr result (NamesColumn (D.outside disk.old).now.disk.seen mark.now (dir_of dir)) }
{
    let Dir { views, notes } = dir;
    match read_views(alloc, disk, views.as_slice()) {
        Ok(views) => Ok(Kept {
            number: mark.number,
            views,
            notes,
            dir: mark.dir(),
            end: mark.end,
        }),
        Err(error) => Err(in_columns(error, mark.place)),
    }
}

/// Why a file is not opened, where the directory at this place is not read.
fn in_directory(error: DirectoryError, place: u64) -> OpenError
    ensures { result ≡ cause_of_directory place error }
{
    match error {
        DirectoryError::At(offset) => OpenError::Damaged(place.saturating_add(offset)),
        DirectoryError::Failed => OpenError::Failed,
        DirectoryError::Memory => OpenError::Memory,
    }
}

/// Why a file is not opened, where the columns of the directory at this place are not read.
fn in_columns(error: ColumnsError, place: u64) -> OpenError
    ensures { result ≡ cause_of_columns place error }
{
    match error {
        ColumnsError::At(offset) => OpenError::Damaged(place.saturating_add(offset)),
        ColumnsError::Failed => OpenError::Failed,
        ColumnsError::Memory => OpenError::Memory,
    }
}
