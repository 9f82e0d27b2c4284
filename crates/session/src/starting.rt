//! Opening the store of a file, or making one.
ghost use Rattle.std.specs.Prelude.{◌≡◌, ◌≢◌, ◌<◌, ◌≤◌, ◌^◌, [], IfErr, IfOk, IsErrOf};
ghost use Rattle.host_io.specs.Calls.{CountsFaults, Looks};
ghost use Rattle.host_io.specs.Disk.{IsSettled};
ghost use Rattle.host_io.specs.Outside.{Goes};
ghost use Rattle.lines.specs.Served.{state_of};
ghost use Rattle.recovery.specs.Commits.{IsCommit};
ghost use Rattle.session.specs.Disk.{IsSteady};
ghost use Rattle.session.specs.Starting.{IsStartRefusal, StartsAs, cause_of_opening};
ghost use Rattle.session.specs.World.{world_over};
ghost use Rattle.session.specs.declared.starting.StartError.TheVariants as start_error;
ghost use Rattle.storage.specs.declared.mode.Mode.TheVariants as modes;

use crate::Session;
use host_io::{Failed, Host};
use recovery::OpenError;
use std::alloc::Global;
use storage::{Mode, Store};
use thiserror::Error;

/// Why a session is not started.
#[derive(Clone, Copy, Debug, PartialEq, Eq, Error)]
pub enum StartError {
    /// The file is empty, and it is only read.
    #[error("an empty file")]
    Empty,
    /// The file is no store.
    #[error("no store")]
    NotAStore,
    /// The file is damaged at this byte.
    #[error("damaged at byte {0}")]
    Damaged(u64),
    /// The disk failed.
    #[error("the disk failed")]
    Failed,
    /// An allocation was refused.
    #[error("out of memory")]
    Memory,
}

impl From<Failed> for StartError {
    ghost from_gives = { λ _ e. e ≡ start_error.Failed };

    fn from(_error: Failed) -> StartError {
        StartError::Failed
    }
}

impl From<OpenError> for StartError {
    ghost use Rattle.session.specs.Starting.{cause_of_opening};

    ghost from_gives = { λ o e. e ≡ cause_of_opening o };

    fn from(error: OpenError) -> StartError {
        of_opening(error)
    }
}

/// How a file that is not opened is refused.
fn of_opening(error: OpenError) -> StartError
    ensures { result ≡ cause_of_opening error }
{
    match error {
        OpenError::NotAStore => StartError::NotAStore,
        OpenError::Damaged(place) => StartError::Damaged(place),
        OpenError::Failed => StartError::Failed,
        OpenError::Memory => StartError::Memory,
    }
}

/// Opens the store of the attached file, or makes one without views where the file is empty.
///
/// # Errors
///
/// `Empty` exactly where the file is empty and only read. `NotAStore` and `Damaged` with its place exactly where the file is not empty
/// and stands for no commit. `Failed`, which comes only where the disk failed; an empty file may hold any bytes then. `Memory`. But for
/// `Failed` the disk is as before.
#[tactic(auto, using(crate::proofs::Started::silent_looks, crate::proofs::Started::silent_later))]
pub fn start<H: Host>(
    alloc: Global,
    host: &mut H,
    mode: Mode,
    cap: u64,
) -> Result<Session, StartError>
    requires settled { H.tells → IsSettled (H.outside host.old).now.disk }
    requires room { 208 ≤ cap }
    requires capped { cap < 2 ^ 63 }
    ensures counts { CountsFaults (IsErrOf result StartError.Failed) (H.outside host.old) (H.outside host.new) }
    ensures moments { H.tells → Goes (λ at. at.said ≡ (H.outside host.old).now.said) (H.outside host.old) (H.outside host.new) }
    ensures said { H.tells → (H.outside host.new).now.said ≡ (H.outside host.old).now.said }
    ensures input { H.tells → (H.outside host.new).input ≡ (H.outside host.old).input }

    // A file that is not empty is read alone, and so is any file where a session is refused but for a disk that failed.
    ensures untouched { H.tells → (H.outside host.old).now.disk.seen ≢ [] → Looks (H.outside host.old) (H.outside host.new) }
    ensures refused { H.tells → IfErr result (IsStartRefusal mode (H.outside host.old) (H.outside host.new)) }

    // The session has what the file stands for.
    ensures starts { H.tells → IfOk result (λ session. StartsAs mode cap (H.outside host.old).now.disk.seen (state_of session (H.outside host.new))) }
    ensures ready { H.tells → IfOk result (λ session. IsSteady (state_of session (H.outside host.new))) }
{
    if host.len()? == 0 {
        return make(alloc, host, mode, cap);
    }
    open_store(alloc, host, mode, cap)
}

/// Opens the store of a file that is not empty.
#[tactic(auto, using(crate::proofs::Started::silent_looks))]
fn open_store<H: Host>(
    alloc: Global,
    host: &mut H,
    mode: Mode,
    cap: u64,
) -> Result<Session, StartError>
    requires settled { H.tells → IsSettled (H.outside host.old).now.disk }
    requires some { H.tells → (H.outside host.old).now.disk.seen ≢ [] }
    requires capped { cap < 2 ^ 63 }
    ensures counts { CountsFaults (IsErrOf result StartError.Failed) (H.outside host.old) (H.outside host.new) }
    ensures same { H.tells → Looks (H.outside host.old) (H.outside host.new) }
    ensures moments { H.tells → Goes (λ at. at.said ≡ (H.outside host.old).now.said) (H.outside host.old) (H.outside host.new) }
    ensures refused { H.tells → IfErr result (IsStartRefusal mode (H.outside host.old) (H.outside host.new)) }
    ensures starts { H.tells → IfOk result (λ session. StartsAs mode cap (H.outside host.old).now.disk.seen (state_of session (H.outside host.new))) }
    ensures ready { H.tells → IfOk result (λ session. IsSteady (state_of session (H.outside host.new))) }
{
    match Store::open(alloc, host, mode, cap) {
        Ok(store) => Ok(session_over(alloc, store)),
        Err(error) => Err(of_opening(error)),
    }
}

/// A session over a store, whose commit is whole.
fn session_over(alloc: Global, store: Store) -> Session
    ensures store { result ≡ world_over store }
    ensures whole { IsCommit store.kept }
{
    let _number = store.number();
    Session::over(alloc, store)
}

/// Makes a store without views in an empty file, unless it is only read.
#[tactic(auto, using(host_io::proofs::Moments::begins))]
fn make<H: Host>(alloc: Global, host: &mut H, mode: Mode, cap: u64) -> Result<Session, StartError>
    requires empty { H.tells → (H.outside host.old).now.disk.seen ≡ [] }
    requires room { 208 ≤ cap }
    requires capped { cap < 2 ^ 63 }
    ensures counts { CountsFaults (IsErrOf result StartError.Failed) (H.outside host.old) (H.outside host.new) }
    ensures moments { H.tells → Goes (λ at. at.said ≡ (H.outside host.old).now.said) (H.outside host.old) (H.outside host.new) }
    ensures said { H.tells → (H.outside host.new).now.said ≡ (H.outside host.old).now.said }
    ensures input { H.tells → (H.outside host.new).input ≡ (H.outside host.old).input }
    ensures refused { H.tells → IfErr result (IsStartRefusal mode (H.outside host.old) (H.outside host.new)) }
    ensures starts { H.tells → IfOk result (λ session. StartsAs mode cap (H.outside host.old).now.disk.seen (state_of session (H.outside host.new))) }
    ensures ready { H.tells → IfOk result (λ session. IsSteady (state_of session (H.outside host.new))) }
{
    if mode == Mode::Read {
        return Err(StartError::Empty);
    }
    let store = Store::create(alloc, host, mode, cap)?;
    Ok(session_over(alloc, store))
}
