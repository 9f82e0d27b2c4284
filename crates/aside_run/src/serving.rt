//! Lines are served over a base and its aside file.
ghost use Rattle.std.specs.Prelude.{◌≡◌, ◌≢◌, ◌⊎◌, ◌<◌, ◌≤◌, ◌^◌, ℕ, [], length, map};
ghost use Rattle.host_io.specs.Calls.{Rose};
ghost use Rattle.host_io.specs.Disk.{IsSettled};
ghost use Rattle.lines.specs.Rooms.{IsClear};
ghost use Rattle.aside_disk.specs.Logical.{entries_of, record_of};
ghost use Rattle.aside_disk.specs.Opening.{IsOpened};
ghost use Rattle.aside_disk.specs.Records.{applied};
ghost use Rattle.aside_disk.specs.Shown.{shown};
ghost use Rattle.aside_disk.specs.Standing.{IsOver};
ghost use Rattle.aside_disk.specs.Told.{IsWell};
ghost use Rattle.shell.specs.Ran.{RanServing};
ghost use Rattle.aside_run.specs.RanOver.{RanOverBase};
ghost use Rattle.aside_run.specs.Steps.{EndsWith, ServesLog, WearsOut};

use crate::base::Base;
use aside_disk::{Aside, AsideError, BaseRecord, Log, open_log};
use command_line::Job;
use host_io::Host;
use mk_value::Text;
use shell::{FileFault, Rooms, Status, refuse, serve_file};
use std::alloc::Global;
use viewers::Viewer;

/// Opens the aside file of a base, or makes it where it is empty, and serves lines over the two.
pub(crate) fn serve_over<H: Host, V: Viewer>(
    alloc: Global,
    job: &Job,
    base: Base,
    viewers: &[V],
    rooms: &mut Rooms,
    host: &mut H,
) -> Status
    requires line { IsClear rooms.old.line }
    requires reply { IsClear rooms.old.reply }
    requires settled { H.tells → IsSettled (H.outside host.old).now.disk }
    requires room { 208 ≤ job.now.cap }
    requires capped { job.now.cap < 2 ^ 63 }
    requires fits { length base.bytes.bytes < 2 ^ 63 }
    ensures ran { H.tells → base.bytes.bytes ≢ [] → RanOverBase (map V.meaning viewers.now) job.now.mode job.now.cap result base.bytes.bytes base.number (H.outside host.old) (H.outside host.new) }
    ensures right { result ≢ Status.Usage }
    ensures take_fault { result ≡ Status.TakeFault → Rose (H.outside host.old).take_faults (H.outside host.new).take_faults }
    ensures say_fault { result ≡ Status.SayFault → Rose (H.outside host.old).say_faults (H.outside host.new).say_faults }
    ensures disk_fault { result ≡ Status.DiskFault → Rose (H.outside host.old).disk_faults (H.outside host.new).disk_faults
        ⊎ WearsOut H.tells (H.outside host.old).disk_faults base.bytes.bytes (H.outside host.new).now.disk.seen }
{
    if host.attach(job.file.as_str(), true).is_err() {
        return Status::DiskFault;
    }
    let given = BaseRecord {
        length: base.bytes.len() as u64,
        number: base.number,
    };
    match open_log(host, given) {
        Ok(log) => serve_log(alloc, job, base, log, viewers, rooms, host),
        Err(error) => refuse_aside(error, &mut rooms.reply, host),
    }
}

/// Says why an aside file is not opened, where that is not a fault of the disk.
fn refuse_aside<H: Host>(error: AsideError, out: &mut Text, host: &mut H) -> Status
    requires { IsClear out.old }
    ensures ends { H.tells → EndsWith error result (H.outside host.old) (H.outside host.new) }
    ensures status { (result ≡ Status.Refused) ⊎ ((result ≡ Status.DiskFault) × (error ≡ AsideError.Failed)) }
    ensures disk_faults { result ≡ Status.DiskFault → (H.outside host.new).disk_faults ≡ (H.outside host.old).disk_faults }
{
    match error {
        AsideError::At(place) => refuse(FileFault::NoAside(place), out, host),
        AsideError::OtherBase(kept, given) => refuse(FileFault::OtherBase(kept, given), out, host),
        AsideError::Failed => Status::DiskFault,
    }
}

/// Serves lines over a base and the log of its aside file, and gives the host back.
fn serve_log<H: Host, V: Viewer>(
    alloc: Global,
    job: &Job,
    base: Base,
    log: Log,
    viewers: &[V],
    rooms: &mut Rooms,
    host: &mut H,
) -> Status
    requires line { IsClear rooms.old.line }
    requires reply { IsClear rooms.old.reply }
    requires room { 208 ≤ job.now.cap }
    requires capped { job.now.cap < 2 ^ 63 }
    requires well { IsWell log }
    requires opened { H.tells → IsOpened (record_of base.bytes.bytes base.number) log (H.outside host.old) }
    ensures served { H.tells → ServesLog (map V.meaning viewers.now) job.now.mode job.now.cap result base.bytes.bytes base.number
        (applied base.bytes.bytes (entries_of (H.outside host.old).now.disk.seen log.end)) (H.outside host.old) (H.outside host.new) }
    ensures right { result ≢ Status.Usage }
    ensures take_fault { result ≡ Status.TakeFault → Rose (H.outside host.old).take_faults (H.outside host.new).take_faults }
    ensures say_fault { result ≡ Status.SayFault → Rose (H.outside host.old).say_faults (H.outside host.new).say_faults }
    ensures disk_fault { result ≡ Status.DiskFault → (faults : ℕ) → faults ≤ (H.outside host.old).disk_faults
        → Rose faults (H.outside host.new).disk_faults ⊎ WearsOut H.tells faults base.bytes.bytes (H.outside host.new).now.disk.seen }
{
    let mut aside = Aside::over(base.bytes, base.number, host, log);
    let status = serve_shown(alloc, job, viewers, rooms, &mut aside);
    let host = aside.into_disk();
    // No effect at run time. The proof reads what the host holds from this use of the reference.
    let _ = &*host;
    status
}

/// Serves lines over the file that an aside disk shows.
fn serve_shown<'a, H: Host, V: Viewer>(
    alloc: Global,
    job: &Job,
    viewers: &[V],
    rooms: &mut Rooms,
    aside: &mut Aside<'a, H>,
) -> Status
    requires line { IsClear rooms.old.line }
    requires reply { IsClear rooms.old.reply }
    requires room { 208 ≤ job.now.cap }
    requires capped { job.now.cap < 2 ^ 63 }
    requires settled { H.tells → IsSettled aside.old.1.0.now.disk }
    ensures ran { H.tells → RanServing (map V.meaning viewers.now) job.now.mode job.now.cap result
        (shown (H.outside aside.old.0.now) aside.old.1.0 aside.old.1.1) (shown (H.outside aside.new.0.now) aside.new.1.0 aside.new.1.1) }
    ensures right { result ≢ Status.Usage }
    ensures take_fault { result ≡ Status.TakeFault → Rose (H.outside aside.old.0.now).take_faults (H.outside aside.new.0.now).take_faults }
    ensures say_fault { result ≡ Status.SayFault → Rose (H.outside aside.old.0.now).say_faults (H.outside aside.new.0.now).say_faults }
    ensures disk_fault { result ≡ Status.DiskFault
        → Rose (shown (H.outside aside.old.0.now) aside.old.1.0 aside.old.1.1).disk_faults (shown (H.outside aside.new.0.now) aside.new.1.0 aside.new.1.1).disk_faults }
    // It is the same disk over the same base, and each image of the one under it stands for one of its own.
    ensures same_reference { aside.new.0.ghost_name ≡ aside.old.0.ghost_name }
    ensures same_source { aside.new.1.0.source ≡ aside.old.1.0.source }
    ensures over { IsOver H.tells aside.new.0.ghost_name (H.outside aside.new.0.now) aside.new.1.0 aside.new.1.1 }
{
    aside.look();
    let status = serve_file(alloc, job.mode, job.cap, viewers, rooms, aside);
    aside.look();
    status
}
