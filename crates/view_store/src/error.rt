ghost use Rattle.std.specs.Prelude.{◌≡◌};
ghost use Rattle.view_store.specs.declared.error.EditError.TheVariants as edit_error;

use mk_value::Memory;
use thiserror::Error;

/// Why an edit, or a look at a view, was refused. The first five are tested in this order, over the whole path.
#[derive(Clone, Copy, Debug, PartialEq, Eq, Error)]
pub enum EditError {
    /// The root has no view of that name.
    #[error("no such view")]
    NoView,
    /// A property that was named is absent from its schema, or more values than properties were given.
    #[error("no such property")]
    NoProp,
    /// A step goes into a property that is no view, or a value does not fit its property.
    #[error("a value of another kind")]
    WrongKind,
    /// A row or a place is out of range, the leftmost in the path. The number is the count of rows there.
    #[error("out of the range of {0} rows")]
    OutOfRange(u64),
    /// The view would have too many rows after the edit. The number is their count.
    #[error("{0} rows are too many")]
    TooMany(u64),
    /// An allocation was refused.
    #[error("out of memory")]
    Memory,
}

impl From<Memory> for EditError {
    ghost from_gives = { λ _ e. e ≡ edit_error.Memory };

    fn from(_error: Memory) -> EditError {
        EditError::Memory
    }
}
