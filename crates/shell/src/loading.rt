//! A store is made of the input.
ghost use Rattle.std.specs.Prelude.{◌≡◌, ◌≢◌, ◌⊎◌, ◌<◌, ◌≤◌, ◌^◌, []};
ghost use Rattle.host_io.specs.Calls.{Rose};
ghost use Rattle.host_io.specs.Disk.{IsSettled};
ghost use Rattle.host_io.specs.Outside.{Goes, Outside};
ghost use Rattle.lines.specs.Rooms.{IsClear};
ghost use Rattle.lines.specs.Spoken.{IsSaying};
ghost use Rattle.shell.specs.Ran.{RanLoading, SaysLine};
ghost use Rattle.shell.specs.Said.{load_line};

use crate::ending::say_line;
use crate::fault::{FileFault, fault_of_load};
use crate::own_lines::write_loaded;
use crate::refusing::refuse;
use crate::status::Status;
use host_io::Host;
use lines::MAX_BUDGET;
use mk_value::Text;
use std::alloc::Global;
use streaming::load;

/// Makes a store of the input in the file, which is to be empty, and says a line of it.
pub(crate) fn load_file<H: Host>(alloc: Global, cap: u64, out: &mut Text, host: &mut H) -> Status
    requires out { IsClear out.old }
    requires settled { H.tells → IsSettled (H.outside host.old).now.disk }
    requires room { 208 ≤ cap }
    requires capped { cap < 2 ^ 63 }
    ensures ran { H.tells → RanLoading cap result (H.outside host.old) (H.outside host.new) }
    ensures right { result ≢ Status.Usage }
    ensures take_fault { result ≡ Status.TakeFault → Rose (H.outside host.old).take_faults (H.outside host.new).take_faults }
    ensures say_fault { result ≡ Status.SayFault → Rose (H.outside host.old).say_faults (H.outside host.new).say_faults }
    ensures disk_fault { result ≡ Status.DiskFault → Rose (H.outside host.old).disk_faults (H.outside host.new).disk_faults }
    ensures source { (H.outside host.new).source ≡ (H.outside host.old).source }
{
    let Ok(length) = host.len() else {
        return Status::DiskFault;
    };
    if length > 0 {
        return refuse(FileFault::NotEmpty, out, host);
    }
    load_empty(alloc, cap, out, host)
}

/// Makes a store of the input in an empty file, and says a line of it.
fn load_empty<H: Host>(alloc: Global, cap: u64, out: &mut Text, host: &mut H) -> Status
    requires out { IsClear out.old }
    requires room { 208 ≤ cap }
    requires capped { cap < 2 ^ 63 }
    requires empty { H.tells → (H.outside host.old).now.disk.seen ≡ [] }
    ensures ran { H.tells → RanLoading cap result (H.outside host.old) (H.outside host.new) }
    ensures right { result ≢ Status.Usage }
    ensures take_fault { result ≡ Status.TakeFault → Rose (H.outside host.old).take_faults (H.outside host.new).take_faults }
    ensures say_fault { result ≡ Status.SayFault → Rose (H.outside host.old).say_faults (H.outside host.new).say_faults }
    ensures disk_fault { result ≡ Status.DiskFault → Rose (H.outside host.old).disk_faults (H.outside host.new).disk_faults }
    ensures source { (H.outside host.new).source ≡ (H.outside host.old).source }
{
    match load(alloc, host, cap, MAX_BUDGET) {
        Ok(views) => say_loaded(views, out, host),
        Err(cause) => match fault_of_load(cause) {
            Ok(fault) => refuse(fault, out, host),
            Err(status) => status,
        },
    }
}

/// Says that a store of so many views was made, whose commit is the first.
fn say_loaded<H: Host>(views: usize, out: &mut Text, host: &mut H) -> Status
    requires { IsClear out.old }
    ensures says { H.tells → SaysLine (load_line views 1) result (H.outside host.old) (H.outside host.new) }
    ensures moments { H.tells → Goes (IsSaying (load_line views 1) (H.outside host.old).now) (H.outside host.old) (H.outside host.new) }
    ensures say_fault { result ≡ Status.SayFault → Rose (H.outside host.old).say_faults (H.outside host.new).say_faults }
    ensures source { (H.outside host.new).source ≡ (H.outside host.old).source }
    ensures status { (result ≡ Status.Done) ⊎ (result ≡ Status.SayFault) }
{
    write_loaded(views, 1, out);
    say_line(out, host)
}
