ghost use Rattle.std.specs.Prelude.{◌≡◌};
ghost use Rattle.commit_marks.specs.declared.error.MarkError.TheVariants as mark_error;

use thiserror::Error;

/// Why a file has no marks.
#[derive(Clone, Copy, Debug, PartialEq, Eq, Error)]
pub enum MarkError {
    /// It is too short for a header and two slots, or its header is another.
    #[error("the file is no store")]
    NotAStore,
    /// Neither slot is open.
    #[error("no mark is open")]
    NoOpenMark,
    /// The slot at this place decides, and is wrong: its body is that of no mark, its number is that of the other slot,
    /// or its mark does not fit the file.
    #[error("the mark at {0} is bad")]
    BadMark(u64),
    /// A call of the disk failed.
    #[error("the disk failed")]
    Failed,
}

impl From<host_io::Failed> for MarkError {
    ghost from_gives = { λ _ e. e ≡ mark_error.Failed };

    fn from(_error: host_io::Failed) -> MarkError {
        MarkError::Failed
    }
}
