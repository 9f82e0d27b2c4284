ghost use Rattle.std.specs.Prelude.{◌≡◌, ◌≤◌, ℕ, List, IfOk, IsErrOf};
ghost use Rattle.host_io.specs.Calls.{CountsFaults, Looks};
ghost use Rattle.commit_marks.specs.Marks.{AreMarks};
ghost use Rattle.commit_marks.specs.Slots.{AreMarksOfSome, GivesMarks};

use crate::choosing::choose;
use crate::error::MarkError;
use crate::mark::Marks;
use free_space::FIRST_PLACE;
use host_io::Disk;

/// Reads the marks of a file.
///
/// # Errors
///
/// `NotAStore` comes exactly where the file has fewer than 192 bytes or another header. Else `BadMark` comes exactly where
/// an open slot has the body of no mark, where both are open with one number, or where the chosen mark does not fit the
/// file, with the place of the slot that is wrong; and `NoOpenMark` exactly where no slot is open. Each yields to `Failed`,
/// which comes only where the disk failed.
pub fn read_marks<D: Disk>(disk: &mut D) -> Result<Marks, MarkError>
    ensures counts { CountsFaults (IsErrOf result MarkError.Failed) (D.outside disk.old) (D.outside disk.new) }
    ensures same { D.tells → Looks (D.outside disk.old) (D.outside disk.new) }
    ensures gives { D.tells → GivesMarks (D.outside disk.old).now.disk.seen result }

    // Of a disk that tells nothing too they are marks: those of some bytes.
    ensures some { IfOk result (λ marks. AreMarksOfSome marks.slot marks.chosen marks.other) }
{
    let len = disk.len()?;
    if len < FIRST_PLACE {
        return Err(MarkError::NotAStore);
    }
    let mut head = [0; 192];
    disk.read_at(0, &mut head)?;
    choose(&head, len)
}
