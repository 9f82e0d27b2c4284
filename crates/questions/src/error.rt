ghost use Rattle.std.specs.Prelude.{◌≡◌};
ghost use Rattle.questions.specs.Told.{told_of_name, told_of_operator};
ghost use Rattle.questions.specs.declared.error.QuestionError.TheVariants as question_error;

use eval::{EvalError, NameError};
use mk_value::Memory;
use relations::DerivedError;
use thiserror::Error;

/// Why a question has no answer.
#[derive(Clone, Copy, Debug, PartialEq, Eq, Error)]
pub enum QuestionError {
    /// A name stands for nothing, or no viewer has it.
    #[error("no such name")]
    NoName,
    /// A property is to get a name that another one has.
    #[error("the name is taken")]
    Exists,
    /// A property is absent, or none would be left.
    #[error("no such property")]
    NoProp,
    /// A property or a value is of another kind, or two schemas differ.
    #[error("another kind")]
    Kind,
    /// A row or a place is past the rows; the number is how many there are.
    #[error("out of range")]
    Range(u64),
    /// The value would have too many rows or properties, or be nested too deeply.
    #[error("a limit would be passed")]
    Limit,
    /// The table is not known to be sorted by what is asked for.
    #[error("not known to be sorted so")]
    Unsorted,
    /// An allocation was refused.
    #[error("out of memory")]
    Memory,
}

impl From<Memory> for QuestionError {
    ghost from_gives = { λ _ e. e ≡ question_error.Memory };

    fn from(_error: Memory) -> QuestionError {
        QuestionError::Memory
    }
}

impl From<EvalError> for QuestionError {
    ghost use Rattle.questions.specs.Told.{told};

    ghost from_gives = { λ error e. e ≡ told error };

    /// How it is told that an expression has no value.
    fn from(error: EvalError) -> QuestionError {
        match error {
            EvalError::Name(error) => of_name(error),
            EvalError::Viewer(_) => QuestionError::NoName,
            EvalError::Op(error, size) => of_operator(error, size),
        }
    }
}

/// How it is told that a path leads to no table.
pub(crate) fn of_name(error: NameError) -> QuestionError
    ensures { result ≡ told_of_name error }
{
    match error {
        NameError::NoName => QuestionError::NoName,
        NameError::NoProp => QuestionError::NoProp,
        NameError::WrongKind => QuestionError::Kind,
        NameError::OutOfRange(size) => QuestionError::Range(size),
        NameError::Memory => QuestionError::Memory,
    }
}

/// How it is told that an operator is refused whose first table has so many rows.
pub(crate) fn of_operator(error: DerivedError, size: u64) -> QuestionError
    ensures { result ≡ told_of_operator error size }
{
    match error {
        DerivedError::NameTaken(_) => QuestionError::Exists,
        DerivedError::NoProp(_) => QuestionError::NoProp,
        DerivedError::WrongKind(_) | DerivedError::KeyIsView(_) | DerivedError::OtherSchema => {
            QuestionError::Kind
        }
        DerivedError::ZeroStep => QuestionError::Range(size),
        DerivedError::TooManyRows | DerivedError::TooWide | DerivedError::TooDeep => {
            QuestionError::Limit
        }
        DerivedError::Memory => QuestionError::Memory,
    }
}
