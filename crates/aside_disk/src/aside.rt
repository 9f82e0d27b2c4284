ghost use Rattle.std.specs.Prelude.{◌≡◌, ◌≢◌, ℕ, ◌+◌, ◌-◌, ◌^◌, ◌<◌, ◌⊎◌, [], length, min, IfErr, IfOk};
ghost use Rattle.host_io.specs.Disk.{IsSettled};
ghost use Rattle.host_io.specs.Outside.{moment};
ghost use Rattle.host_io.specs.Calls.{CountsFaults};
ghost use Rattle.aside_disk.specs.declared.error.AsideError.TheVariants as aside_error;
ghost use Rattle.aside_disk.specs.Logical.{record_of};
ghost use Rattle.aside_disk.specs.Refusals.{IsAsideRefusal};
ghost use Rattle.aside_disk.specs.Shown.{source_of};
ghost use Rattle.aside_disk.specs.Standing.{Begins};

use crate::appending::append;
use crate::error::{AsideError, BaseRecord, SyncError};
use crate::log::{Log, MAX_LEN};
use crate::opening::open_log;
use crate::reading::read_over;
use crate::record::record_len;
use crate::syncing::sync_log;
use crate::trace::Trace;
use host_io::{Disk, Failed, Host};
use mk_value::Bytes;
use std::marker::Model;

/// A disk that shows the bytes of a base with all that was written to it since, which it keeps as a log on another disk. The base is in
/// memory and never changes; the log is read record by record.
#[derive(Drop)]
pub struct Aside<'a, D: Disk> {
    base: Bytes,
    number: u64,
    disk: &'a mut D,
    log: Log,
    faults: u64,
    trace: Trace,
}

impl<'a, D: Disk> Model for Aside<'a, D> {
    ghost use Rattle.std.specs.Prelude.{ℕ};
    ghost use Rattle.std.specs.Borrow.{MutBor};
    ghost use Rattle.aside_disk.specs.Shown.{Seen};

    ghost Value = { MutBor D × (Seen × ℕ) };

    ghost use Rattle.aside_disk.specs.Standing.{Stands};

    ghost view = { λ a. (a.disk, (a.trace.seen, a.faults)) };

    ghost invariant = { λ a. Stands D.tells a.disk.ghost_name a.base.bytes a.number a.log a.faults (D.outside a.disk.now) a.trace.seen };
}

impl<'a, D: Disk> Aside<'a, D> {
    ghost use Rattle.aside_disk.specs.Opening.{IsOpened};
    ghost use Rattle.aside_disk.specs.Standing.{IsOver, first_seen};
    ghost use Rattle.aside_disk.specs.Told.{IsWell};

    /// The disk over this one, whose log was opened by [`open_log`](crate::open_log). Nobody wrote to it since.
    pub fn over(base: Bytes, number: u64, disk: &'a mut D, log: Log) -> Aside<'a, D>
        requires well { IsWell log }
        requires opened { D.tells → IsOpened (record_of base.bytes number) log (D.outside disk.old) }
        ensures same_reference { result.0.ghost_name ≡ disk.entry.ghost_name }
        ensures same { result.0.now ≡ disk.old }
        ensures begins { result.1.0 ≡ first_seen disk.entry.ghost_name number base.bytes log.end (D.outside disk.old) }
        ensures no_fault { result.1.1 ≡ 0 }
    {
        let trace = Trace::first(&base, number, &log, &disk);
        Aside {
            base,
            number,
            disk,
            log,
            faults: 0,
            trace,
        }
    }

    /// Nothing is done. A caller learns what ties this disk to the one under it: each image that a crash may leave of that one, or may have
    /// left since this one was opened, stands for one that it may leave, or may have left, of this one.
    pub fn look(&self)
        ensures over { IsOver D.tells self.now.0.ghost_name (D.outside self.now.0.now) self.now.1.0 self.now.1.1 }
    {
        let _ = &self.disk;
    }

    /// The disk under this one again.
    pub fn into_disk(self) -> &'a mut D
        ensures same_reference { result.ghost_name ≡ self.entry.0.ghost_name }
        ensures same { result.now ≡ self.entry.0.now }
    {
        let Aside {
            base: _base,
            number: _,
            disk,
            log: _,
            faults: _,
            trace: _trace,
        } = self;
        disk
    }
}

impl<'a, D: Disk> Disk for Aside<'a, D> {
    ghost use Rattle.aside_disk.specs.Shown.{shown};

    ghost tells = { D.tells };

    ghost outside = { λ a. shown (D.outside a.0.now) a.1.0 a.1.1 };

    /// Nothing is done: the disk was attached before.
    fn attach(&mut self, _name: &str, _create: bool) -> Result<(), Failed> {
        Ok(())
    }

    fn len(&mut self) -> Result<u64, Failed> {
        Ok(self.log.len)
    }

    /// Reads the base, and over it each record of the log. It takes no memory, and walks over the whole log.
    fn read_at(&mut self, at: u64, into: &mut [u8]) -> Result<(), Failed> {
        read_over(self.disk, self.base.as_slice(), self.log.end, at, into)
    }

    /// Puts a record behind the log; an empty piece writes nothing. It is refused where the log or the file would end past 2^63 - 1.
    fn write_at(&mut self, at: u64, from: &[u8]) -> Result<(), Failed> {
        let until = at + from.len() as u64;
        if until > MAX_LEN {
            rise(&mut self.faults);
            return Err(Failed);
        }
        if from.is_empty() {
            self.trace = self.trace.wrote(at, from);
            return Ok(());
        }
        let end = self.log.end + record_len(from.len() as u64);
        if end > MAX_LEN {
            rise(&mut self.faults);
            return Err(Failed);
        }
        append(self.disk, self.log.end, at, from)?;
        self.log.end = end;
        self.log.len = self.log.len.max(until);
        self.trace = self.trace.wrote(at, from);
        Ok(())
    }

    /// Makes the records behind the log a part of it. Where there is none the disk is synced. After a sync that failed the disk is
    /// synced and its marks are read first. It is refused where it would pass the number 2^63 - 1.
    fn sync(&mut self) -> Result<(), Failed> {
        match sync_log(self.disk, &mut self.log) {
            Ok(()) => {
                self.trace = self.trace.rested();
                Ok(())
            }
            Err(SyncError::Failed) => Err(Failed),
            Err(SyncError::Refused) => {
                rise(&mut self.faults);
                Err(Failed)
            }
        }
    }
}

impl<'a, D: Host> Host for Aside<'a, D> {
    fn take(&mut self, into: &mut [u8]) -> Result<usize, Failed> {
        self.disk.take(into)
    }

    fn say(&mut self, from: &[u8]) -> Result<usize, Failed> {
        let count = self.disk.say(from)?;
        self.trace = self.trace.spoke(from, count);
        Ok(count)
    }
}

/// A count goes up by one, up to the last value of its type.
fn rise(count: &mut u64)
    ensures { count.new ≡ min (count.old + 1) (2 ^ 64 - 1) }
{
    *count = count.saturating_add(1);
}

/// Opens an aside file over a base, and makes it where the file is empty. Nothing is pending on the disk, and nobody changes the base. It
/// takes no memory. A caller that has to know its disk after a refusal calls [`open_log`](crate::open_log) and [`Aside::over`].
///
/// # Errors
///
/// `At` comes exactly where the file is not empty and no aside file, with the place of what the first test that refuses it is about, and
/// `OtherBase` exactly where it is that of another base, with what it keeps of that one before what was given. Both yield to `Failed`.
pub fn open_aside<'a, D: Disk>(
    base: Bytes,
    number: u64,
    disk: &'a mut D,
) -> Result<Aside<'a, D>, AsideError>
    requires fits { length base.bytes < 2 ^ 63 }
    requires settled { D.tells → IsSettled (D.outside disk.old).now.disk }
    ensures same_reference { IfOk result (λ aside. aside.0.ghost_name ≡ disk.entry.ghost_name) }
    ensures source { IfOk result (λ aside. aside.1.0.source ≡ source_of aside.0.ghost_name (moment (D.outside aside.0.now)) 0 number base.bytes) }
    ensures no_fault { IfOk result (λ aside. aside.1.1 ≡ 0) }
    ensures counts { IfOk result (λ aside. CountsFaults ⊥ (D.outside disk.old) (D.outside aside.0.now)) }
    ensures begins { D.tells → IfOk result (λ aside. Begins base.bytes number (D.outside disk.old) (D.outside aside.0.now) aside.1.0) }
    ensures refused { D.tells → IfErr result (λ e. (e ≡ aside_error.Failed)
        ⊎ (((D.outside disk.old).now.disk.seen ≢ []) × IsAsideRefusal (D.outside disk.old).now.disk.seen (record_of base.bytes number) e)) }
{
    let given = BaseRecord {
        length: base.len() as u64,
        number,
    };
    let log = open_log(disk, given)?;
    Ok(Aside::over(base, number, disk, log))
}
