ghost use Rattle.std.specs.Prelude.{◌≡◌};
ghost use Rattle.relations.specs.declared.error.DerivedError.TheVariants as derived_error;

use mk_value::{Memory, Name};
use thiserror::Error;

/// Why an operator was refused. Where several are due, the first in the order in which `docs/EXPRESSIONS.md` lists them comes.
#[derive(Debug, Drop, Error)]
pub enum DerivedError {
    /// No property has this name, or none would be left.
    #[error("no such property")]
    NoProp(Name),
    /// A value does not fit the property of this name, or its kind is not the one that is needed.
    #[error("a value of another kind")]
    WrongKind(Name),
    /// The property of this name is a view, which has no order.
    #[error("a view is no key")]
    KeyIsView(Name),
    /// Another property has this name.
    #[error("the name is taken")]
    NameTaken(Name),
    /// The two tables have not the same names and kinds in the same order.
    #[error("another schema")]
    OtherSchema,
    /// The step of a slice is 0.
    #[error("a step of 0")]
    ZeroStep,
    /// The table would have more than 16,777,216 rows.
    #[error("too many rows")]
    TooManyRows,
    /// The table would have more than 64 properties.
    #[error("too many properties")]
    TooWide,
    /// The schema would nest more than 8 deep.
    #[error("nested too deep")]
    TooDeep,
    /// An allocation was refused.
    #[error("out of memory")]
    Memory,
}

impl From<Memory> for DerivedError {
    ghost from_gives = { λ _ e. e ≡ derived_error.Memory };

    fn from(_error: Memory) -> DerivedError {
        DerivedError::Memory
    }
}
