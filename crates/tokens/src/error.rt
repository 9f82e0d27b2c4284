ghost use Rattle.std.specs.Prelude.{◌≡◌};

use mk_value::Memory;
use thiserror::Error;

/// Why no part was read from the front of pieces.
#[derive(Clone, Copy, Debug, PartialEq, Eq, Error)]
pub enum PartError {
    /// So many pieces are the front of a part, and the next, if there is one, cannot go on.
    #[error("nothing whole goes on behind {0} tokens")]
    Stuck(usize),
    /// An allocation was refused.
    #[error("out of memory")]
    Memory,
}

/// Why a text was not read as a literal.
#[derive(Clone, Copy, Debug, PartialEq, Eq, Error)]
pub enum ReadError {
    /// The text is no literal, from this byte on.
    #[error("no literal goes on so at byte {0}")]
    NotAValue(usize),
    /// An allocation was refused.
    #[error("out of memory")]
    Memory,
}

impl From<Memory> for PartError {
    ghost use Rattle.tokens.specs.declared.error.PartError.TheVariants as reason;

    ghost from_gives = { λ _ error. error ≡ reason.Memory };

    fn from(_error: Memory) -> PartError {
        PartError::Memory
    }
}

impl From<Memory> for ReadError {
    ghost use Rattle.tokens.specs.declared.error.ReadError.TheVariants as reason;

    ghost from_gives = { λ _ error. error ≡ reason.Memory };

    fn from(_error: Memory) -> ReadError {
        ReadError::Memory
    }
}
