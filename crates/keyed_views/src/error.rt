ghost use Rattle.std.specs.Prelude.{◌≡◌};
ghost use Rattle.keyed_views.specs.declared.error.MappingError.TheVariants as mapping_error;

use mk_value::Memory;
use thiserror::Error;

/// Why a view cannot be mapped. Where several are due, the first in this order comes; but an index takes memory before `Keys` and `InUse` are
/// found, and `Memory` may come in place of these.
#[derive(Debug, Drop, Error)]
pub enum MappingError {
    /// One of the first properties is a view, which has no order.
    #[error("a view is no key")]
    Kind,
    /// There would be no key, or more than there are properties: so many.
    #[error("there are {0} properties")]
    Range(u64),
    /// There are as many mappings as there may be.
    #[error("too many mappings")]
    Limit,
    /// The key of this row stood before, or does not come behind that of the row before it.
    #[error("the key of row {0} is broken")]
    Keys(u64),
    /// The view has a mapping.
    #[error("the view is mapped")]
    InUse,
    /// An allocation was refused.
    #[error("out of memory")]
    Memory,
}

impl From<Memory> for MappingError {
    ghost from_gives = { λ _ e. e ≡ mapping_error.Memory };

    fn from(_error: Memory) -> MappingError {
        MappingError::Memory
    }
}
