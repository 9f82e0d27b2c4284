// A sync of an aside disk: its records become part of the log.
ghost use Rattle.std.specs.Prelude.{◌≡◌, ◌≢◌, ℕ, ◌≤◌, false, List, length, IsErrOf, OnOk, Err};
ghost use Rattle.host_io.specs.Calls.{CountsFaults};
ghost use Rattle.aside_disk.specs.Shown.{Seen};
ghost use Rattle.aside_disk.specs.Syncing.{IsSpentAt, KeepsTold, after_sync};
ghost use Rattle.aside_disk.specs.Told.{IsTold, IsWell};

use crate::committing::commit;
use crate::error::SyncError;
use crate::log::{LOG_PLACE, Log, MAX_LEN};
use crate::opening::read_log_marks;
use commit_marks::{Mark, Marks};
use host_io::Disk;

/// Where a sync began and did not succeed, the disk is synced and its marks are read again.
fn settle<D: Disk>(disk: &mut D, log: &mut Log) -> Result<(), SyncError>
    requires well { IsWell log.old }
    ensures counts { CountsFaults (IsErrOf result SyncError.Failed) (D.outside disk.old) (D.outside disk.new) }
    ensures input { D.tells → (D.outside disk.new).input ≡ (D.outside disk.old).input }
    ensures well { IsWell log.new }
    ensures ends { log.new.end ≡ log.old.end }
    ensures seen { D.tells → (D.outside disk.new).now.disk.seen ≡ (D.outside disk.old).now.disk.seen }
    ensures sure { OnOk result (log.new.unsure ≡ false) }
    ensures told { D.tells → (base : List ℕ) (number lower_since upper_since : ℕ) (seen : Seen) → IsTold base number log.old lower_since upper_since (D.outside disk.old) seen
        → KeepsTold base number log.old log.new lower_since upper_since (D.outside disk.old) (D.outside disk.new) seen seen }
    // Over a disk that tells its bytes the marks are never refused.
    ensures accepted { D.tells → (base : List ℕ) (number lower_since upper_since : ℕ) (seen : Seen) → IsTold base number log.old lower_since upper_since (D.outside disk.old) seen
        → result ≢ Err SyncError.Refused }
{
    if !log.unsure {
        return Ok(());
    }
    disk.sync()?;
    log.marks = read_log_marks(disk)?;
    log.unsure = false;
    Ok(())
}

/// Syncs the disk of a log to which no record was added.
fn rest<D: Disk>(disk: &mut D, log: &mut Log) -> Result<(), SyncError>
    requires well { IsWell log.old }
    requires sure { log.old.unsure ≡ false }
    requires ended { log.old.end ≡ log.old.marks.chosen.end }
    ensures counts { CountsFaults (IsErrOf result SyncError.Failed) (D.outside disk.old) (D.outside disk.new) }
    ensures input { D.tells → (D.outside disk.new).input ≡ (D.outside disk.old).input }
    ensures well { IsWell log.new }
    ensures told { D.tells → (base : List ℕ) (number lower_since upper_since : ℕ) (seen : Seen) → IsTold base number log.old lower_since upper_since (D.outside disk.old) seen
        → KeepsTold base number log.old log.new lower_since upper_since (D.outside disk.old) (D.outside disk.new) seen (after_sync seen result) }
    ensures accepted { result ≢ Err SyncError.Refused }
{
    log.unsure = true;
    disk.sync()?;
    log.unsure = false;
    Ok(())
}

/// Commits the records behind a log, by the mark of the next number.
fn commit_next<D: Disk>(disk: &mut D, log: &mut Log) -> Result<(), SyncError>
    requires well { IsWell log.old }
    requires sure { log.old.unsure ≡ false }
    requires long { D.tells → log.old.end ≤ length (D.outside disk.old).now.disk.seen }
    ensures counts { CountsFaults (IsErrOf result SyncError.Failed) (D.outside disk.old) (D.outside disk.new) }
    ensures input { D.tells → (D.outside disk.new).input ≡ (D.outside disk.old).input }
    ensures well { IsWell log.new }
    ensures told { D.tells → (base : List ℕ) (number lower_since upper_since : ℕ) (seen : Seen) → IsTold base number log.old lower_since upper_since (D.outside disk.old) seen
        → KeepsTold base number log.old log.new lower_since upper_since (D.outside disk.old) (D.outside disk.new) seen (after_sync seen result) }
    ensures spent { D.tells → result ≡ Err SyncError.Refused → (base : List ℕ) → IsSpentAt log.new base (D.outside disk.new) }
{
    let number = log.marks.chosen.number;
    if MAX_LEN <= number {
        return Err(SyncError::Refused);
    }
    let next = Mark {
        version: 1,
        number: number + 1,
        place: LOG_PLACE,
        len: log.end - LOG_PLACE,
        end: log.end,
    };
    log.unsure = true;
    commit(disk, &log.marks, &next)?;
    log.marks = Marks {
        chosen: next,
        slot: 1 - log.marks.slot,
        other: Some(log.marks.chosen),
    };
    log.unsure = false;
    Ok(())
}

/// Makes all records outlast a crash.
pub(crate) fn sync_log<D: Disk>(disk: &mut D, log: &mut Log) -> Result<(), SyncError>
    requires well { IsWell log.old }
    requires long { D.tells → log.old.end ≤ length (D.outside disk.old).now.disk.seen }
    ensures counts { CountsFaults (IsErrOf result SyncError.Failed) (D.outside disk.old) (D.outside disk.new) }
    ensures input { D.tells → (D.outside disk.new).input ≡ (D.outside disk.old).input }
    ensures well { IsWell log.new }
    ensures told { D.tells → (base : List ℕ) (number lower_since upper_since : ℕ) (seen : Seen) → IsTold base number log.old lower_since upper_since (D.outside disk.old) seen
        → KeepsTold base number log.old log.new lower_since upper_since (D.outside disk.old) (D.outside disk.new) seen (after_sync seen result) }
    ensures spent { D.tells → (base : List ℕ) (number lower_since upper_since : ℕ) (seen : Seen) → IsTold base number log.old lower_since upper_since (D.outside disk.old) seen
        → result ≡ Err SyncError.Refused → IsSpentAt log.new base (D.outside disk.new) }
{
    settle(disk, log)?;
    if log.end == log.marks.chosen.end {
        rest(disk, log)
    } else {
        commit_next(disk, log)
    }
}
