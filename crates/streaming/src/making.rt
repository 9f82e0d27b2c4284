//! A store is made of views, in an empty file.
ghost use Rattle.std.specs.Prelude.{◌≡◌, ◌≢◌, ◌<◌, ◌≤◌, ◌^◌, [], All, Err};
ghost use Rattle.host_io.specs.Calls.{Rose};
ghost use Rattle.streaming.specs.Causes.{IsOfNewStore, fault_of_plan};
ghost use Rattle.streaming.specs.Loading.{ComesOfViews};
ghost use Rattle.streaming.specs.declared.error.LoadFault.TheVariants as load_fault;
ghost use Rattle.tables.specs.Tables.{HasNoHomes};

use crate::error::LoadFault;
use host_io::Disk;
use mk_value::Text;
use std::alloc::Global;
use storage::{Mode, PlanError, Store};
use view_store::Root;

/// Makes a store in an empty file whose first commit has these views, none of which names a place of a file, and gives their number.
///
/// # Errors
///
/// `Full` exactly where the file would end past the cap; a store without views is left. `DiskFailed`, which comes only where the disk failed;
/// then the file may hold any bytes. `Memory`, before anything of the commit is written.
pub(crate) fn make_store<D: Disk>(
    alloc: Global,
    disk: &mut D,
    cap: u64,
    root: Root,
) -> Result<usize, LoadFault>
    requires empty { D.tells → (D.outside disk.old).now.disk.seen ≡ [] }
    requires room { 208 ≤ cap }
    requires capped { cap < 2 ^ 63 }
    requires homeless { All (λ v. HasNoHomes v.table) root }
    ensures comes { D.tells → ComesOfViews cap root (D.outside disk.old) (D.outside disk.new) result }
    ensures disk_fault { result ≡ Err load_fault.DiskFailed → Rose (D.outside disk.old).disk_faults (D.outside disk.new).disk_faults }
    ensures no_take_fault { result ≢ Err load_fault.TakeFailed }
    ensures disk_faults { (D.outside disk.old).disk_faults ≤ (D.outside disk.new).disk_faults }
    ensures take_faults { (D.outside disk.new).take_faults ≡ (D.outside disk.old).take_faults }
    ensures say_faults { (D.outside disk.new).say_faults ≡ (D.outside disk.old).say_faults }
    ensures source { (D.outside disk.new).source ≡ (D.outside disk.old).source }
{
    let Ok(mut store) = Store::create(alloc, disk, Mode::Write, cap) else {
        return Err(LoadFault::DiskFailed);
    };
    let count = root.names().len();
    store.put_views(root);
    let plan = match store.plan(alloc, &Text::new(alloc)) {
        Ok(plan) => plan,
        Err(error) => return Err(unplanned(error)),
    };
    match store.carry(disk, plan) {
        Ok(_) => Ok(count),
        Err(_) => Err(LoadFault::DiskFailed),
    }
}

/// Why the first commit was not planned. A store that was just made is not only read, and has not the last number.
fn unplanned(error: PlanError) -> LoadFault
    requires { IsOfNewStore error }
    ensures { result ≡ fault_of_plan error }
{
    match error {
        PlanError::Full(end, cap) => LoadFault::Full(end, cap),
        PlanError::Memory => LoadFault::Memory,
        PlanError::ReadOnly | PlanError::LastNumber => unreachable!(),
    }
}
