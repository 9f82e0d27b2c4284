ghost use Rattle.std.specs.Prelude.{◌≡◌};
ghost use Rattle.live.specs.declared.error.WatchError.TheVariants as watch_error;

use mk_value::Memory;
use thiserror::Error;

/// Why a watch was refused. Where several are due, the first in this order comes.
#[derive(Debug, Drop, Error)]
pub enum WatchError {
    /// A property that is named is absent.
    #[error("no such property")]
    NoProp,
    /// A property that is named is a view, or a value does not fit it.
    #[error("a value of another kind")]
    WrongKind,
    /// The chain of watches would be more than four long.
    #[error("too many watches over one another")]
    TooDeep,
    /// An allocation was refused.
    #[error("out of memory")]
    Memory,
}

impl From<Memory> for WatchError {
    ghost from_gives = { λ _ e. e ≡ watch_error.Memory };

    fn from(_error: Memory) -> WatchError {
        WatchError::Memory
    }
}
