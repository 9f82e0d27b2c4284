ghost use Rattle.std.specs.Prelude.{◌≡◌};
ghost use Rattle.block_io.specs.declared.error.BlockError.TheVariants as block_error;

use thiserror::Error;

/// Why a block was not read.
#[derive(Clone, Copy, Debug, PartialEq, Eq, Error)]
pub enum BlockError {
    /// A call of the disk failed.
    #[error("the disk failed")]
    Failed,
    /// An allocation was refused.
    #[error("out of memory")]
    Memory,
}

impl From<host_io::Failed> for BlockError {
    ghost from_gives = { λ _ e. e ≡ block_error.Failed };

    fn from(_error: host_io::Failed) -> BlockError {
        BlockError::Failed
    }
}

impl From<mk_value::Memory> for BlockError {
    ghost from_gives = { λ _ e. e ≡ block_error.Memory };

    fn from(_error: mk_value::Memory) -> BlockError {
        BlockError::Memory
    }
}
