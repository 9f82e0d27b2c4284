ghost use Rattle.std.specs.Prelude.{◌≡◌};
ghost use Rattle.clap.specs.Values.{kind_of};
ghost use Rattle.command_line.specs.Causes.{cause_of};
ghost use Rattle.command_line.specs.declared.error.WordsError.TheVariants as words_error;

use clap::error::ErrorKind;
use mk_value::Memory;
use std::alloc::AllocError;
use thiserror::Error;

/// Why words give no job.
#[derive(Clone, Copy, Debug, PartialEq, Eq, Error)]
pub enum WordsError {
    /// The words ask for nothing.
    #[error("the words are no command line")]
    Usage,
    /// An allocation was refused.
    #[error("out of memory")]
    Memory,
}

impl From<clap::Error> for WordsError {
    ghost from_gives = { λ error cause. cause ≡ cause_of (kind_of error) };

    fn from(error: clap::Error) -> WordsError {
        match error.kind() {
            ErrorKind::OutOfMemory => WordsError::Memory,
            _ => WordsError::Usage,
        }
    }
}

impl From<AllocError> for WordsError {
    ghost from_gives = { λ _ cause. cause ≡ words_error.Memory };

    fn from(_error: AllocError) -> WordsError {
        WordsError::Memory
    }
}

impl From<Memory> for WordsError {
    ghost from_gives = { λ _ cause. cause ≡ words_error.Memory };

    fn from(_error: Memory) -> WordsError {
        WordsError::Memory
    }
}
