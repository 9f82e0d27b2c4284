//! A file is looked at as a whole.
ghost use Rattle.std.specs.Prelude.{◌≡◌, ◌≢◌, ◌⊎◌, [], IfErr, IfOk, IsErrOf};
ghost use Rattle.host_io.specs.Calls.{CountsFaults, Looks, Rose};
ghost use Rattle.host_io.specs.Disk.{IsSettled};
ghost use Rattle.host_io.specs.Outside.{Outside};
ghost use Rattle.lines.specs.Rooms.{IsClear};
ghost use Rattle.session.specs.Starting.{IsStartRefusal};
ghost use Rattle.shell.specs.Ran.{RanChecking, SaysReport};
ghost use Rattle.storage.specs.Spaces.{Reports};
ghost use Rattle.storage.specs.declared.mode.Mode.TheVariants as modes;

use crate::ending::say_line;
use crate::fault::fault_of;
use crate::own_lines::write_report;
use crate::refusing::refuse;
use crate::status::Status;
use host_io::Host;
use mk_value::Text;
use session::StartError;
use std::alloc::Global;
use storage::{Report, check};

/// Looks at the store of the file as a whole, and says a report on it.
pub(crate) fn check_file<H: Host>(alloc: Global, out: &mut Text, host: &mut H) -> Status
    requires out { IsClear out.old }
    requires settled { H.tells → IsSettled (H.outside host.old).now.disk }
    ensures ran { H.tells → RanChecking result (H.outside host.old) (H.outside host.new) }
    ensures right { result ≢ Status.Usage }
    ensures take_fault { result ≢ Status.TakeFault }
    ensures say_fault { result ≡ Status.SayFault → Rose (H.outside host.old).say_faults (H.outside host.new).say_faults }
    ensures disk_fault { result ≡ Status.DiskFault → Rose (H.outside host.old).disk_faults (H.outside host.new).disk_faults }
    ensures source { (H.outside host.new).source ≡ (H.outside host.old).source }
{
    match check_store(alloc, host) {
        Ok(report) => say_report(&report, out, host),
        Err(error) => match fault_of(error) {
            Ok(fault) => refuse(fault, out, host),
            Err(status) => status,
        },
    }
}

/// The report on the store of a file, which is not to be empty.
fn check_store<H: Host>(alloc: Global, host: &mut H) -> Result<Report, StartError>
    requires settled { H.tells → IsSettled (H.outside host.old).now.disk }
    ensures counts { CountsFaults (IsErrOf result StartError.Failed) (H.outside host.old) (H.outside host.new) }
    ensures same { H.tells → Looks (H.outside host.old) (H.outside host.new) }
    ensures found { H.tells → IfOk result (Reports (H.outside host.old).now.disk.seen) }
    ensures refused { H.tells → IfErr result (IsStartRefusal modes.Read (H.outside host.old) (H.outside host.new)) }
{
    if host.len()? == 0 {
        return Err(StartError::Empty);
    }
    report_on(alloc, host)
}

/// The report on the store of a file that is not empty.
fn report_on<H: Host>(alloc: Global, host: &mut H) -> Result<Report, StartError>
    requires settled { H.tells → IsSettled (H.outside host.old).now.disk }
    requires some { H.tells → (H.outside host.old).now.disk.seen ≢ [] }
    ensures counts { CountsFaults (IsErrOf result StartError.Failed) (H.outside host.old) (H.outside host.new) }
    ensures same { H.tells → Looks (H.outside host.old) (H.outside host.new) }
    ensures found { H.tells → IfOk result (Reports (H.outside host.old).now.disk.seen) }
    ensures refused { H.tells → IfErr result (IsStartRefusal modes.Read (H.outside host.old) (H.outside host.new)) }
{
    match check(alloc, host) {
        Ok(report) => Ok(report),
        Err(error) => Err(StartError::from(error)),
    }
}

/// Says a report on a file.
fn say_report<H: Host>(report: &Report, out: &mut Text, host: &mut H) -> Status
    requires { IsClear out.old }
    ensures says { H.tells → SaysReport report.now result (H.outside host.old) (H.outside host.new) }
    ensures source { (H.outside host.new).source ≡ (H.outside host.old).source }
    ensures say_fault { result ≡ Status.SayFault → Rose (H.outside host.old).say_faults (H.outside host.new).say_faults }
    ensures status { (result ≡ Status.Done) ⊎ (result ≡ Status.SayFault) }
{
    write_report(report, out);
    say_line(out, host)
}
