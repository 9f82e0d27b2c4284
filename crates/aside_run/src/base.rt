//! The base is read whole, where it stands for a commit.
ghost use Rattle.std.specs.Prelude.{◌≡◌, ◌≢◌, ◌<◌, ◌^◌, length, Err, IfOk, IsErrOf};
ghost use Rattle.host_io.specs.Calls.{CountsFaults, Looks};
ghost use Rattle.host_io.specs.Disk.{IsSettled};
ghost use Rattle.aside_run.specs.Bases.{IsBadBase, IsBase, IsReadOf};
ghost use Rattle.aside_run.specs.declared.base.BaseError.TheVariants as base_error;

use block_io::{BlockError, read_block};
use host_io::{Disk, Failed};
use mk_value::{Bytes, Span};
use recovery::OpenError;
use std::alloc::Global;
use storage::check;

/// A base: all of its bytes, and the number of the commit for which it stands.
#[derive(Drop)]
pub(crate) struct Base {
    pub bytes: Bytes,
    pub number: u64,
}

/// Why a base is not served.
#[derive(Clone, Copy, Debug, PartialEq, Eq)]
pub(crate) enum BaseError {
    /// It is empty, or stands for nothing.
    Bad,
    /// A call of its disk failed.
    Failed,
    /// An allocation was refused.
    Memory,
}

impl From<Failed> for BaseError {
    ghost from_gives = { λ _ e. e ≡ base_error.Failed };

    fn from(_error: Failed) -> BaseError {
        BaseError::Failed
    }
}

impl From<OpenError> for BaseError {
    ghost use Rattle.aside_run.specs.Bases.{cause_of_opening};

    ghost from_gives = { λ o e. e ≡ cause_of_opening o };

    fn from(error: OpenError) -> BaseError {
        match error {
            OpenError::NotAStore | OpenError::Damaged(_) => BaseError::Bad,
            OpenError::Failed => BaseError::Failed,
            OpenError::Memory => BaseError::Memory,
        }
    }
}

impl From<BlockError> for BaseError {
    ghost use Rattle.aside_run.specs.Bases.{cause_of_block};

    ghost from_gives = { λ b e. e ≡ cause_of_block b };

    fn from(error: BlockError) -> BaseError {
        match error {
            BlockError::Failed => BaseError::Failed,
            BlockError::Memory => BaseError::Memory,
        }
    }
}

/// Attaches a base for reading, checks it as a whole, and reads it.
///
/// # Errors
///
/// `Bad` where it is empty or stands for nothing, and never else. `Failed`, which comes only where its disk failed; `Memory`. The disk is as before.
pub(crate) fn open_base<B: Disk>(alloc: Global, name: &str, disk: &mut B) -> Result<Base, BaseError>
    requires settled { B.tells → IsSettled (B.outside disk.old).now.disk }
    ensures counts { CountsFaults (IsErrOf result BaseError.Failed) (B.outside disk.old) (B.outside disk.new) }
    ensures same { B.tells → Looks (B.outside disk.old) (B.outside disk.new) }
    ensures fits { IfOk result (λ base. length base.bytes.bytes < 2 ^ 63) }
    ensures reads { B.tells → IfOk result (IsReadOf (B.outside disk.old).now.disk.seen) }
    ensures bad { B.tells → result ≡ Err BaseError.Bad → IsBadBase (B.outside disk.old).now.disk.seen }
{
    disk.attach(name, false)?;
    let number = check_base(alloc, disk)?;
    let bytes = read_whole(alloc, disk)?;
    Ok(Base { bytes, number })
}

/// The number of the commit for which a base stands.
fn check_base<B: Disk>(alloc: Global, disk: &mut B) -> Result<u64, BaseError>
    requires settled { B.tells → IsSettled (B.outside disk.old).now.disk }
    ensures counts { CountsFaults (IsErrOf result BaseError.Failed) (B.outside disk.old) (B.outside disk.new) }
    ensures same { B.tells → Looks (B.outside disk.old) (B.outside disk.new) }
    ensures is { B.tells → IfOk result (IsBase (B.outside disk.old).now.disk.seen) }
    ensures bad { B.tells → result ≡ Err BaseError.Bad → IsBadBase (B.outside disk.old).now.disk.seen }
{
    Ok(check(alloc, disk)?.space.number)
}

/// All bytes of a file.
fn read_whole<B: Disk>(alloc: Global, disk: &mut B) -> Result<Bytes, BaseError>
    ensures counts { CountsFaults (IsErrOf result BaseError.Failed) (B.outside disk.old) (B.outside disk.new) }
    ensures same { B.tells → Looks (B.outside disk.old) (B.outside disk.new) }
    ensures fits { IfOk result (λ bytes. length bytes.bytes < 2 ^ 63) }
    ensures reads { B.tells → IfOk result (λ bytes. bytes.bytes ≡ (B.outside disk.old).now.disk.seen) }
    ensures good { result ≢ Err BaseError.Bad }
{
    let len = disk.len()?;
    Ok(read_block(alloc, disk, Span { place: 0, len })?)
}
