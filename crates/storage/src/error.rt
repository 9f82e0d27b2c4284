ghost use Rattle.std.specs.Prelude.{◌≡◌};
ghost use Rattle.storage.specs.Causes.{cause_of_plan};
ghost use Rattle.storage.specs.Reverting.{cause_of_older};
ghost use Rattle.storage.specs.declared.error.RevertError.TheVariants as revert_error;

use mk_value::Memory;
use recovery::OpenError;
use thiserror::Error;

/// Why a commit is not made.
#[derive(Clone, Copy, Debug, PartialEq, Eq, Error)]
pub enum PlanError {
    /// The store is only read.
    #[error("the store is only read")]
    ReadOnly,
    /// The last commit has the greatest number.
    #[error("the last commit has the greatest number")]
    LastNumber,
    /// The file would end here, past the cap, which comes second.
    #[error("the file would end at {0}, past its cap of {1}")]
    Full(u64, u64),
    /// An allocation was refused.
    #[error("out of memory")]
    Memory,
}

impl From<commit_plan::PlanError> for PlanError {
    ghost from_gives = { λ p e. e ≡ cause_of_plan p };

    fn from(error: commit_plan::PlanError) -> PlanError {
        match error {
            commit_plan::PlanError::LastNumber => PlanError::LastNumber,
            commit_plan::PlanError::Full(end, cap) => PlanError::Full(end, cap),
            commit_plan::PlanError::Memory => PlanError::Memory,
        }
    }
}

/// Why the views of the commit before are not brought back.
#[derive(Clone, Copy, Debug, PartialEq, Eq, Error)]
pub enum RevertError {
    /// There is no commit before.
    #[error("there is no commit before")]
    NoBefore,
    /// No commit stands any more where the one before did, and this place is why.
    #[error("the commit before is damaged at {0}")]
    Damaged(u64),
    /// A call of the disk failed.
    #[error("the disk failed")]
    Failed,
    /// An allocation was refused.
    #[error("out of memory")]
    Memory,
}

impl From<OpenError> for RevertError {
    ghost from_gives = { λ o e. e ≡ cause_of_older o };

    fn from(error: OpenError) -> RevertError {
        match error {
            OpenError::NotAStore => RevertError::Damaged(0),
            OpenError::Damaged(place) => RevertError::Damaged(place),
            OpenError::Failed => RevertError::Failed,
            OpenError::Memory => RevertError::Memory,
        }
    }
}

impl From<Memory> for RevertError {
    ghost from_gives = { λ _ e. e ≡ revert_error.Memory };

    fn from(_error: Memory) -> RevertError {
        RevertError::Memory
    }
}
