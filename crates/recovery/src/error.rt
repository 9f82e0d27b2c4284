ghost use Rattle.std.specs.Prelude.{◌≡◌};
ghost use Rattle.recovery.specs.declared.error.ColumnsError.TheVariants as columns_error;
ghost use Rattle.recovery.specs.declared.error.OpenError.TheVariants as open_error;
ghost use Rattle.recovery.specs.declared.error.ReadError.TheVariants as read_error;
ghost use Rattle.recovery.specs.Causes.{cause_of_block, cause_of_column, cause_of_packing};
ghost use Rattle.recovery.specs.Opening.{cause_of_marks};

use bit_pack::PackError;
use block_io::BlockError;
use bytes_col::BlocksError;
use commit_marks::MarkError;
use host_io::Failed;
use mk_value::Memory;
use std::alloc::AllocFailed;
use thiserror::Error;

/// Why a column was not read.
#[derive(Clone, Copy, Debug, PartialEq, Eq)]
pub(crate) enum ReadError {
    /// Its blocks are those of no values.
    Unreadable,
    /// A call of the disk failed.
    Failed,
    /// An allocation was refused.
    Memory,
}

impl From<BlockError> for ReadError {
    ghost from_gives = { λ b e. e ≡ cause_of_block b };

    fn from(error: BlockError) -> ReadError {
        match error {
            BlockError::Failed => ReadError::Failed,
            BlockError::Memory => ReadError::Memory,
        }
    }
}

impl From<PackError> for ReadError {
    ghost from_gives = { λ p e. e ≡ cause_of_packing p };

    fn from(error: PackError) -> ReadError {
        match error {
            PackError::Memory => ReadError::Memory,
            _ => ReadError::Unreadable,
        }
    }
}

impl From<BlocksError> for ReadError {
    ghost from_gives = { λ b e. e ≡ cause_of_column b };

    fn from(error: BlocksError) -> ReadError {
        match error {
            BlocksError::Mismatch => ReadError::Unreadable,
            BlocksError::Memory => ReadError::Memory,
        }
    }
}

impl From<Memory> for ReadError {
    ghost from_gives = { λ _ e. e ≡ read_error.Memory };

    fn from(_error: Memory) -> ReadError {
        ReadError::Memory
    }
}

/// Why the columns of a directory were not read.
#[derive(Clone, Copy, Debug, PartialEq, Eq)]
pub(crate) enum ColumnsError {
    /// The column at this offset of the directory is the first whose blocks are those of no values.
    At(u64),
    /// A call of the disk failed.
    Failed,
    /// An allocation was refused.
    Memory,
}

impl From<Memory> for ColumnsError {
    ghost from_gives = { λ _ e. e ≡ columns_error.Memory };

    fn from(_error: Memory) -> ColumnsError {
        ColumnsError::Memory
    }
}

impl<T: Drop> From<AllocFailed<T>> for ColumnsError {
    ghost from_gives = { λ _ e. e ≡ columns_error.Memory };

    fn from(_error: AllocFailed<T>) -> ColumnsError {
        ColumnsError::Memory
    }
}

/// Why a file was not opened, or the commit before not read.
#[derive(Clone, Copy, Debug, PartialEq, Eq, Error)]
pub enum OpenError {
    /// It is too short for a header and two slots, or its header is another.
    #[error("the file is no store")]
    NotAStore,
    /// It stands for no commit, and this place is why.
    #[error("the file is damaged at {0}")]
    Damaged(u64),
    /// A call of the disk failed.
    #[error("the disk failed")]
    Failed,
    /// An allocation was refused.
    #[error("out of memory")]
    Memory,
}

impl From<Failed> for OpenError {
    ghost from_gives = { λ _ e. e ≡ open_error.Failed };

    fn from(_error: Failed) -> OpenError {
        OpenError::Failed
    }
}

impl From<Memory> for OpenError {
    ghost from_gives = { λ _ e. e ≡ open_error.Memory };

    fn from(_error: Memory) -> OpenError {
        OpenError::Memory
    }
}

impl From<MarkError> for OpenError {
    ghost from_gives = { λ m e. e ≡ cause_of_marks m };

    fn from(error: MarkError) -> OpenError {
        match error {
            MarkError::NotAStore => OpenError::NotAStore,
            MarkError::NoOpenMark => OpenError::Damaged(64),
            MarkError::BadMark(place) => OpenError::Damaged(place),
            MarkError::Failed => OpenError::Failed,
        }
    }
}
