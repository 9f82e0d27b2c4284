ghost use Rattle.std.specs.Prelude.{◌≡◌};
ghost use Rattle.eval.specs.Answers.{is_memory as is_of_memory};
ghost use Rattle.eval.specs.declared.error.EvalError.TheVariants as eval_error;
ghost use Rattle.eval.specs.declared.error.NameError.TheVariants as name_error;

use mk_value::{Memory, Name};
use relations::DerivedError;
use thiserror::Error;

/// Why a path leads to no table. They are tested in this order over the whole path, the leftmost of a kind deciding.
#[derive(Clone, Copy, Debug, PartialEq, Eq, Error)]
pub enum NameError {
    /// The name stands for nothing, or for something into which no step leads.
    #[error("no such name")]
    NoName,
    /// A step names a property that is absent.
    #[error("no such property")]
    NoProp,
    /// A step leads into a property that is no view.
    #[error("no view")]
    WrongKind,
    /// A row is not there; the number is how many there are.
    #[error("no such row")]
    OutOfRange(u64),
    /// An allocation was refused.
    #[error("out of memory")]
    Memory,
}

impl From<Memory> for NameError {
    ghost from_gives = { λ _ e. e ≡ name_error.Memory };

    fn from(_error: Memory) -> NameError {
        NameError::Memory
    }
}

/// Why an expression has no value. What stands further left decides, and what stands inside before what stands around it.
#[derive(Debug, Drop, Error)]
pub enum EvalError {
    /// A path leads to no table, or memory ran out on the way.
    #[error("a path leads nowhere")]
    Name(NameError),
    /// No viewer has this name.
    #[error("no such viewer")]
    Viewer(Name),
    /// An operator was refused, or memory ran out; the number is the size of its first table.
    #[error("an operator was refused")]
    Op(DerivedError, u64),
}

impl EvalError {
    /// Whether memory ran out: the expression may have a value all the same.
    pub fn is_memory(&self) -> bool
        ensures { result ≡ is_of_memory self.now }
    {
        matches!(
            self,
            EvalError::Name(NameError::Memory) | EvalError::Op(DerivedError::Memory, _)
        )
    }
}

impl From<Memory> for EvalError {
    ghost from_gives = { λ _ e. e ≡ eval_error.Name name_error.Memory };

    fn from(_error: Memory) -> EvalError {
        EvalError::Name(NameError::Memory)
    }
}
