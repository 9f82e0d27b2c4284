ghost use Rattle.std.specs.Prelude.{◌≡◌};
ghost use Rattle.dir_codec.specs.declared.error.DirError.TheVariants as dir_error;

use thiserror::Error;

/// Why bytes were not read as a directory.
#[derive(Clone, Copy, Debug, PartialEq, Eq, Error)]
pub enum DirError {
    /// The field at this place is the first that is not as required.
    #[error("the directory is wrong at byte {0}")]
    At(u64),
    /// Memory ran out.
    #[error("out of memory")]
    Memory,
}

impl From<mk_value::Memory> for DirError {
    ghost from_gives = { λ _ e. e ≡ dir_error.Memory };

    fn from(_error: mk_value::Memory) -> DirError {
        DirError::Memory
    }
}
