//! A store is made of the input.
ghost use Rattle.std.specs.Prelude.{◌≡◌, ◌<◌, ◌≤◌, ◌^◌, [], Err};
ghost use Rattle.host_io.specs.Calls.{Rose};
ghost use Rattle.streaming.specs.Loading.{Loads};
ghost use Rattle.streaming.specs.declared.error.LoadFault.TheVariants as load_fault;

use crate::error::LoadFault;
use crate::making::make_store;
use crate::taking::take_stream;
use host_io::Host;
use std::alloc::Global;

/// Takes the input to its end, at most so many bytes of it, as a stream, makes a store in an empty file whose first commit has its views, and
/// gives the number of views.
///
/// # Errors
///
/// `BadStream` exactly where the input is no stream, with the place of the first wrong field, or of the one that it ends within; `TooMuch` where
/// each field of the budget's bytes is right, and one byte more came; `TakeFailed`, which comes only where the input failed: the file stays
/// empty. `Full` exactly where the file would end past the cap: a store without views is left. `DiskFailed`, which comes only where the disk
/// failed: the file may hold any bytes. `Memory`: the file stays empty, or a store without views is left.
pub fn load<H: Host>(alloc: Global, host: &mut H, cap: u64, budget: u64) -> Result<usize, LoadFault>
    requires empty { H.tells → (H.outside host.old).now.disk.seen ≡ [] }
    requires room { 208 ≤ cap }
    requires capped { cap < 2 ^ 63 }
    requires budget { budget < 2 ^ 63 }
    ensures loads { H.tells → Loads budget cap (H.outside host.old) (H.outside host.new) result }

    // A fault is told only where one came.
    ensures take_fault { result ≡ Err load_fault.TakeFailed → Rose (H.outside host.old).take_faults (H.outside host.new).take_faults }
    ensures disk_fault { result ≡ Err load_fault.DiskFailed → Rose (H.outside host.old).disk_faults (H.outside host.new).disk_faults }

    // No count of faults falls, nothing is said, and what the host stands over stays.
    ensures take_faults { (H.outside host.old).take_faults ≤ (H.outside host.new).take_faults }
    ensures disk_faults { (H.outside host.old).disk_faults ≤ (H.outside host.new).disk_faults }
    ensures say_faults { (H.outside host.new).say_faults ≡ (H.outside host.old).say_faults }
    ensures source { (H.outside host.new).source ≡ (H.outside host.old).source }
{
    let root = take_stream(alloc, host, budget)?;
    make_store(alloc, host, cap, root)
}
