//! The stream of the file's store is said.
ghost use Rattle.std.specs.Prelude.{◌≡◌, ◌≢◌, [], IfErr, IfOk, IsErrOf};
ghost use Rattle.host_io.specs.Calls.{CountsFaults, Looks, Rose};
ghost use Rattle.host_io.specs.Disk.{IsSettled};
ghost use Rattle.host_io.specs.Outside.{Outside};
ghost use Rattle.lines.specs.Rooms.{IsClear};
ghost use Rattle.session.specs.Starting.{IsStartRefusal};
ghost use Rattle.shell.specs.Ran.{RanSaving};
ghost use Rattle.storage.specs.declared.mode.Mode.TheVariants as modes;
ghost use Rattle.streaming.specs.Saving.{IsSavedOf};

use crate::ending::say_bytes;
use crate::fault::fault_of;
use crate::refusing::refuse;
use crate::status::Status;
use host_io::Host;
use mk_value::{Bytes, Text};
use session::StartError;
use std::alloc::Global;
use streaming::stream_of;

/// Says the stream of the file's store. It is made whole before the first byte is said.
pub(crate) fn save_file<H: Host>(alloc: Global, out: &mut Text, host: &mut H) -> Status
    requires out { IsClear out.old }
    requires settled { H.tells → IsSettled (H.outside host.old).now.disk }
    ensures ran { H.tells → RanSaving result (H.outside host.old) (H.outside host.new) }
    ensures right { result ≢ Status.Usage }
    ensures take_fault { result ≢ Status.TakeFault }
    ensures say_fault { result ≡ Status.SayFault → Rose (H.outside host.old).say_faults (H.outside host.new).say_faults }
    ensures disk_fault { result ≡ Status.DiskFault → Rose (H.outside host.old).disk_faults (H.outside host.new).disk_faults }
    ensures source { (H.outside host.new).source ≡ (H.outside host.old).source }
{
    match stream_in(alloc, host) {
        Ok(stream) => say_bytes(stream.as_slice(), host),
        Err(error) => match fault_of(error) {
            Ok(fault) => refuse(fault, out, host),
            Err(status) => status,
        },
    }
}

/// The stream of the store in a file, which is not to be empty.
fn stream_in<H: Host>(alloc: Global, host: &mut H) -> Result<Bytes, StartError>
    requires settled { H.tells → IsSettled (H.outside host.old).now.disk }
    ensures counts { CountsFaults (IsErrOf result StartError.Failed) (H.outside host.old) (H.outside host.new) }
    ensures same { H.tells → Looks (H.outside host.old) (H.outside host.new) }
    ensures saved { H.tells → IfOk result (λ stream. IsSavedOf (H.outside host.old).now.disk.seen stream.bytes) }
    ensures refused { H.tells → IfErr result (IsStartRefusal modes.Read (H.outside host.old) (H.outside host.new)) }
{
    if host.len()? == 0 {
        return Err(StartError::Empty);
    }
    stream_in_some(alloc, host)
}

/// The stream of the store in a file that is not empty.
fn stream_in_some<H: Host>(alloc: Global, host: &mut H) -> Result<Bytes, StartError>
    requires settled { H.tells → IsSettled (H.outside host.old).now.disk }
    requires some { H.tells → (H.outside host.old).now.disk.seen ≢ [] }
    ensures counts { CountsFaults (IsErrOf result StartError.Failed) (H.outside host.old) (H.outside host.new) }
    ensures same { H.tells → Looks (H.outside host.old) (H.outside host.new) }
    ensures saved { H.tells → IfOk result (λ stream. IsSavedOf (H.outside host.old).now.disk.seen stream.bytes) }
    ensures refused { H.tells → IfErr result (IsStartRefusal modes.Read (H.outside host.old) (H.outside host.new)) }
{
    match stream_of(alloc, host) {
        Ok(stream) => Ok(stream),
        Err(error) => Err(StartError::from(error)),
    }
}
