// The directory under a mark.
ghost use Rattle.std.specs.Prelude.{◌≡◌, ℕ, ◌+◌, ◌^◌, ◌<◌, ◌≤◌, length, IfOk, IfErr, IsErrOf};
ghost use Rattle.host_io.specs.Calls.{CountsFaults, Looks};
ghost use Rattle.free_space.specs.Sites.{IsSite};
ghost use Rattle.commit_marks.specs.Marks.{FitsFile, IsMark, dir_span};
ghost use Rattle.dir_codec.specs.Dir.{IsDir, spelled};
ghost use Rattle.dir_codec.specs.Values.{dir_of};
ghost use Rattle.recovery.specs.Refusals.{HasDir};
ghost use Rattle.recovery.specs.Flaws.{NamesFlaw, cause_of_dir, cause_of_reading};

use block_io::{BlockError, read_block};
use commit_marks::Mark;
use dir_codec::{Dir, DirError, decode};
use host_io::Disk;
use std::alloc::Global;

/// Why a directory was not read.
#[derive(Clone, Copy, Debug, PartialEq, Eq)]
pub(crate) enum DirectoryError {
    /// The field at this offset is the first that is not as required.
    At(u64),
    /// A call of the disk failed.
    Failed,
    /// An allocation was refused.
    Memory,
}

impl From<BlockError> for DirectoryError {
    ghost from_gives = { λ b e. e ≡ cause_of_reading b };

    fn from(error: BlockError) -> DirectoryError {
        match error {
            BlockError::Failed => DirectoryError::Failed,
            BlockError::Memory => DirectoryError::Memory,
        }
    }
}

impl From<DirError> for DirectoryError {
    ghost from_gives = { λ d e. e ≡ cause_of_dir d };

    fn from(error: DirError) -> DirectoryError {
        match error {
            DirError::At(offset) => DirectoryError::At(offset),
            DirError::Memory => DirectoryError::Memory,
        }
    }
}

/// Reads the directory under a mark that fits the file.
///
/// # Errors
///
/// `At`, with the offset of the first field that is not as required; `Failed`, which comes only where the disk failed; `Memory`. The disk
/// is as before.
pub(crate) fn read_directory<D: Disk>(
    alloc: Global,
    disk: &mut D,
    mark: &Mark,
) -> Result<Dir, DirectoryError>
    requires good { IsMark mark.now }
    requires site { IsSite mark.now.end (dir_span mark.now) }
    requires fits { D.tells → FitsFile (length (D.outside disk.old).now.disk.seen) mark.now }
    ensures counts { CountsFaults (IsErrOf result DirectoryError.Failed) (D.outside disk.old) (D.outside disk.new) }
    ensures same { D.tells → Looks (D.outside disk.old) (D.outside disk.new) }
    ensures whole { IfOk result (λ dir. IsDir mark.now.version mark.now.number mark.now.end (dir_of dir)) }
    ensures long { IfOk result (λ dir. mark.now.len ≡ length (spelled (dir_of dir))) }
    ensures small { IfOk result (λ dir. length (spelled (dir_of dir)) < 2 ^ 64) }
    ensures found { D.tells → IfOk result (λ dir. HasDir (D.outside disk.old).now.disk.seen mark.now (dir_of dir)) }
    ensures flawed { D.tells → IfErr result (NamesFlaw (D.outside disk.old).now.disk.seen mark.now) }
{
    let bytes = read_block(alloc, disk, mark.dir())?;
    let dir = decode(alloc, bytes.as_slice(), mark.version, mark.number, mark.end)?;
    Ok(dir)
}
