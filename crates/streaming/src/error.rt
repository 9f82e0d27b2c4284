ghost use Rattle.std.specs.Prelude.{◌≡◌};
ghost use Rattle.streaming.specs.Causes.{fault_of_stream};
ghost use Rattle.streaming.specs.declared.error.LoadFault.TheVariants as load_fault;

use stream_codec::LoadError;
use thiserror::Error;

/// Why no store was made of an input.
#[derive(Clone, Copy, Debug, PartialEq, Eq, Error)]
pub enum LoadFault {
    /// The field at this place of the input is the first that is not as required; or the input ends within it or before it.
    #[error("the stream is wrong at byte {0}")]
    BadStream(u64),
    /// More bytes came than may be taken.
    #[error("the stream is too long")]
    TooMuch,
    /// The input failed.
    #[error("the input failed")]
    TakeFailed,
    /// The file would end here, past its cap, which comes second.
    #[error("the file would end at {0}, past its cap of {1}")]
    Full(u64, u64),
    /// A call of the disk failed.
    #[error("the disk failed")]
    DiskFailed,
    /// An allocation was refused.
    #[error("out of memory")]
    Memory,
}

impl From<LoadError> for LoadFault {
    ghost from_gives = { λ l e. e ≡ fault_of_stream l };

    fn from(error: LoadError) -> LoadFault {
        match error {
            LoadError::At(place) => LoadFault::BadStream(place),
            LoadError::Memory => LoadFault::Memory,
        }
    }
}
