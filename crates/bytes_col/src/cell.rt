//! Where a chunk has a value.
ghost use Rattle.std.specs.Prelude.{◌≡◌, ◌<◌, ◌≤◌, ◌+◌, ◌-◌};

use crate::memo::Memo;
use std::alloc::AllocError;

/// The most bytes of a short value.
pub(crate) const SHORT_MOST: usize = 512;

/// A part of a chunk's bytes.
#[derive(Clone, Copy)]
pub(crate) struct Piece {
    pub(crate) start: usize,
    pub(crate) len: usize,
}

/// Where a chunk has a value: among its bytes, or in memory of its own.
#[derive(Drop)]
pub(crate) enum Cell {
    Short(Piece),
    Memo(Memo),
}

impl Clone for Cell {
    ghost is_clone = { λ a b. b ≡ a };

    fn clone(&self) -> Result<Cell, AllocError> {
        match self {
            Cell::Short(piece) => Ok(Cell::Short(*piece)),
            Cell::Memo(memo) => Ok(Cell::Memo(memo.clone()?)),
        }
    }
}
