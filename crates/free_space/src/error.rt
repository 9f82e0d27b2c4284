ghost use Rattle.std.specs.Prelude.{◌≡◌};
ghost use Rattle.free_space.specs.declared.error.FreeError.TheVariants as free_error;

use mk_value::Span;
use std::alloc::AllocError;
use thiserror::Error;

/// Why no free map can be made of a list of spans.
#[derive(Clone, Copy, Debug, PartialEq, Eq, Error)]
pub enum FreeError {
    /// The extents of these two spans meet. By place they are the first neighbors that do.
    #[error("two extents meet, at {} and at {}", .0.place, .1.place)]
    Overlap(Span, Span),
    /// An allocation was refused.
    #[error("out of memory")]
    Memory,
}

impl From<AllocError> for FreeError {
    ghost from_gives = { λ _ e. e ≡ free_error.Memory };

    fn from(_error: AllocError) -> FreeError {
        FreeError::Memory
    }
}
