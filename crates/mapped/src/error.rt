ghost use Rattle.std.specs.Prelude.{◌≡◌};
ghost use Rattle.mapped.specs.declared.error.MapError.TheVariants as map_error;

use mk_value::Memory;
use thiserror::Error;

/// Why a view cannot be mapped. Where several are due, the first in this order comes.
#[derive(Debug, Drop, Error)]
pub enum MapError {
    /// There would be no key, or more than there are properties.
    #[error("no keys")]
    NoKeys,
    /// One of the first properties is a view, which has no order.
    #[error("a view is no key")]
    KeyIsView,
    /// The key of this row stood before, or does not come behind that of the row before it.
    #[error("the key of row {0} is broken")]
    KeysBroken(u64),
    /// An allocation was refused.
    #[error("out of memory")]
    Memory,
}

impl From<Memory> for MapError {
    ghost from_gives = { λ _ e. e ≡ map_error.Memory };

    fn from(_error: Memory) -> MapError {
        MapError::Memory
    }
}
