ghost use Rattle.std.specs.Prelude.{◌≡◌, Err, Ok};
ghost use Rattle.shell.specs.Faults.{fault_of, fault_of_load};

use crate::status::Status;
use aside_disk::BaseRecord;
use session::StartError;
use streaming::LoadFault;

/// Why a file is not served.
#[derive(Clone, Copy, Debug, PartialEq, Eq)]
pub enum FileFault {
    /// It is empty, and it is only read.
    Empty,
    /// It is not empty, and a store is made in an empty one.
    NotEmpty,
    /// It is no store.
    NotAStore,
    /// It is damaged at this byte.
    Damaged(u64),
    /// The input of which a store was to be made is no stream: this field is wrong, or the input ends within it.
    BadStream(u64),
    /// The store that was to be made would end here, past its cap, which comes second.
    Full(u64, u64),
    /// The base is empty, or stands for nothing.
    BadBase,
    /// It is no aside file, by what stands at this byte.
    NoAside(u64),
    /// It is the aside file of another base: what it keeps of that one, and what it would keep of the given one.
    OtherBase(BaseRecord, BaseRecord),
}

/// Why a file is not served, or else the status of a run in which its store was not opened.
pub(crate) fn fault_of(error: StartError) -> Result<FileFault, Status>
    ensures { result ≡ fault_of error }
{
    match error {
        StartError::Empty => Ok(FileFault::Empty),
        StartError::NotAStore => Ok(FileFault::NotAStore),
        StartError::Damaged(place) => Ok(FileFault::Damaged(place)),
        StartError::Failed => Err(Status::DiskFault),
        StartError::Memory => Err(Status::Memory),
    }
}

/// Why no store was made of an input, or else the status of a run in which the input or the disk failed, memory was wanting or too much came.
pub(crate) fn fault_of_load(cause: LoadFault) -> Result<FileFault, Status>
    ensures { result ≡ fault_of_load cause }
{
    match cause {
        LoadFault::BadStream(place) => Ok(FileFault::BadStream(place)),
        LoadFault::Full(end, cap) => Ok(FileFault::Full(end, cap)),
        LoadFault::TooMuch => Err(Status::TooMuch),
        LoadFault::TakeFailed => Err(Status::TakeFault),
        LoadFault::DiskFailed => Err(Status::DiskFault),
        LoadFault::Memory => Err(Status::Memory),
    }
}
