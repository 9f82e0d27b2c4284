ghost use Rattle.std.specs.Prelude.{◌≡◌};
ghost use Rattle.expr_text.specs.declared.error.ExprError.TheVariants.{Memory as want_of_memory};

use mk_value::Memory;
use thiserror::Error;

/// Why a text was not read as an expression. Each place is a byte offset.
#[derive(Clone, Copy, Debug, PartialEq, Eq, Error)]
pub enum ExprError {
    /// The first piece that is no token, the first token at which no expression can go on, or the end of a text that ends too early.
    #[error("no expression from byte {0} on")]
    Syntax(usize),
    /// The name of an operator that has 15 around it, left of each other offence.
    #[error("too many operators inside one another at byte {0}")]
    TooDeep(usize),
    /// An allocation was refused.
    #[error("out of memory")]
    Memory,
}

impl From<Memory> for ExprError {
    ghost from_gives = { λ _ error. error ≡ want_of_memory };

    fn from(_error: Memory) -> ExprError {
        ExprError::Memory
    }
}
