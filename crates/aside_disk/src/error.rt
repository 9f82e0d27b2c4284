ghost use Rattle.std.specs.Prelude.{◌≡◌};
ghost use Rattle.aside_disk.specs.declared.error.AsideError.TheVariants as aside_error;
ghost use Rattle.aside_disk.specs.declared.error.SyncError.TheVariants as sync_error;

use commit_marks::MarkError;
use thiserror::Error;

/// What an aside file keeps of its base: the base's length in bytes, and its number.
#[derive(Clone, Copy, Debug, PartialEq, Eq)]
pub struct BaseRecord {
    pub length: u64,
    pub number: u64,
}

/// Why a file is not opened as the aside file of a base.
#[derive(Clone, Copy, Debug, PartialEq, Eq, Error)]
pub enum AsideError {
    /// It is no aside file: what is wrong stands at this place.
    #[error("no aside file, by what stands at {0}")]
    At(u64),
    /// It is one of another base: what it keeps of its base, and what it would keep of the given one.
    #[error("the aside file of another base")]
    OtherBase(BaseRecord, BaseRecord),
    /// A call of the disk failed.
    #[error("the disk failed")]
    Failed,
}

impl From<host_io::Failed> for AsideError {
    ghost from_gives = { λ _ e. e ≡ aside_error.Failed };

    fn from(_error: host_io::Failed) -> AsideError {
        AsideError::Failed
    }
}

impl From<MarkError> for AsideError {
    ghost use Rattle.aside_disk.specs.Marked.{refusal_of};

    ghost from_gives = { λ m e. e ≡ refusal_of m };

    fn from(error: MarkError) -> AsideError {
        match error {
            MarkError::NotAStore => AsideError::At(0),
            MarkError::NoOpenMark => AsideError::At(64),
            MarkError::BadMark(place) => AsideError::At(place),
            MarkError::Failed => AsideError::Failed,
        }
    }
}

/// Why a sync failed.
#[derive(Clone, Copy, Debug, PartialEq, Eq)]
pub(crate) enum SyncError {
    /// A call of the disk failed.
    Failed,
    /// The disk was not asked: the last number is reached, or the marks are not those of a log any more.
    Refused,
}

impl From<host_io::Failed> for SyncError {
    ghost from_gives = { λ _ e. e ≡ sync_error.Failed };

    fn from(_error: host_io::Failed) -> SyncError {
        SyncError::Failed
    }
}

impl From<AsideError> for SyncError {
    ghost use Rattle.aside_disk.specs.Syncing.{sync_error_of};

    ghost from_gives = { λ a e. e ≡ sync_error_of a };

    fn from(error: AsideError) -> SyncError {
        match error {
            AsideError::At(_) | AsideError::OtherBase(_, _) => SyncError::Refused,
            AsideError::Failed => SyncError::Failed,
        }
    }
}
