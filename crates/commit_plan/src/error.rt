ghost use Rattle.std.specs.Prelude.{◌≡◌};
ghost use Rattle.commit_plan.specs.declared.error.PlanError.TheVariants as plan_error;

use thiserror::Error;

/// Why a commit was not planned.
#[derive(Clone, Copy, Debug, PartialEq, Eq, Error)]
pub enum PlanError {
    /// The last commit has the greatest number.
    #[error("the last commit has the greatest number")]
    LastNumber,
    /// The file would end here, past the cap.
    #[error("the file would end at {0}, past its cap of {1}")]
    Full(u64, u64),
    /// Memory ran out.
    #[error("out of memory")]
    Memory,
}

impl From<mk_value::Memory> for PlanError {
    ghost from_gives = { λ _ e. e ≡ plan_error.Memory };

    fn from(_error: mk_value::Memory) -> PlanError {
        PlanError::Memory
    }
}
