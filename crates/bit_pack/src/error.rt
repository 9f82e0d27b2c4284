//! What can go wrong.
ghost use Rattle.std.specs.Prelude.{◌≡◌};
ghost use Rattle.bit_pack.specs.declared.error.PackError.TheVariants.{Memory};

use crate::widths::Width;
use std::alloc::{AllocError, AllocFailed};
use thiserror::Error;

/// Why bytes are not unpacked, or values not packed.
#[derive(Debug, PartialEq, Eq, Drop, Error)]
pub enum PackError {
    /// So many bytes are needed, and so many were given.
    #[error("{1} bytes in place of {0}")]
    Length(u64, u64),
    /// A bit past the last value is set, in the last byte, at this place.
    #[error("a bit past the last value is set in byte {0}")]
    Padding(usize),
    /// The width that was given is not the least: that is the second.
    #[error("width {0:?} where {1:?} holds all values")]
    NotLeast(Width, Width),
    /// Memory ran out.
    #[error("out of memory")]
    Memory,
}

impl From<AllocError> for PackError {
    ghost from_gives = { λ _ e. e ≡ Memory };

    fn from(_error: AllocError) -> PackError {
        PackError::Memory
    }
}

impl<T: Drop> From<AllocFailed<T>> for PackError {
    ghost from_gives = { λ _ e. e ≡ Memory };

    fn from(_error: AllocFailed<T>) -> PackError {
        PackError::Memory
    }
}
