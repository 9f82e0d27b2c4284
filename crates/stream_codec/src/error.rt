ghost use Rattle.std.specs.Prelude.{◌≡◌};
ghost use Rattle.stream_codec.specs.declared.error.LoadError.TheVariants as load_error;

use thiserror::Error;

/// Why bytes were not loaded.
#[derive(Clone, Copy, Debug, PartialEq, Eq, Error)]
pub enum LoadError {
    /// The field at this place is the first that is not as required; or the bytes end within it or before it.
    #[error("the stream is wrong at byte {0}")]
    At(u64),
    /// Memory ran out.
    #[error("out of memory")]
    Memory,
}

impl From<mk_value::Memory> for LoadError {
    ghost from_gives = { λ _ e. e ≡ load_error.Memory };

    fn from(_error: mk_value::Memory) -> LoadError {
        LoadError::Memory
    }
}
