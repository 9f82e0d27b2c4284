//! The views of the commit before are brought back.
ghost use Rattle.std.specs.Prelude.{◌≡◌, Err, None, [], map, IfErr, IfOk, IsErrOf, OnErr, false};
ghost use Rattle.host_io.specs.Calls.{CountsFaults, Looks};
ghost use Rattle.commit_marks.specs.Marks.{AreMarks};
ghost use Rattle.commit_marks.specs.Slots.{AreMarksOfSome};
ghost use Rattle.recovery.specs.Keeping.{commit_in};
ghost use Rattle.recovery.specs.declared.error.OpenError.TheVariants as open_error;
ghost use Rattle.recovery.specs.Refusals.{IsBefore, whole};
ghost use Rattle.view_store.specs.Rests.{homed_views};
ghost use Rattle.storage.specs.Reverting.{NamesRefusal, Reverts, views_without_homes, without_homes};
ghost use Rattle.storage.specs.Stored.{Rests, is_shut};
ghost use Rattle.storage.specs.declared.error.RevertError.TheVariants as revert_error;

use crate::{RevertError, Store};
use commit_marks::{Marks, read_marks};
use host_io::Disk;
use mk_value::{Memory, TableRead};
use recovery::{Kept, OpenError, read_older};
use std::alloc::Global;
use view_store::{Names, Shared, Table, Views, from_rows, share};

impl Store {
    /// Makes the views of the commit before the ones that are edited, and gives its number. No column of them has a home, so that the
    /// next commit writes all of them. It costs reading that commit whole.
    ///
    /// # Errors
    ///
    /// `NoBefore` exactly where there is no commit before, as `before` says. Else `Damaged` with its place, exactly where no commit stands there any more;
    /// `Failed`, which comes only where the disk failed; `Memory`. The store is as it was then. The disk is as before.
    pub fn revert<D: Disk>(&mut self, alloc: Global, disk: &mut D) -> Result<u64, RevertError>
        requires open { is_shut self.old ≡ false }
        requires rests { D.tells → Rests self.old (D.outside disk.old).now.disk }
        ensures counts { CountsFaults (IsErrOf result RevertError.Failed) (D.outside disk.old) (D.outside disk.new) }
        ensures same { D.tells → Looks (D.outside disk.old) (D.outside disk.new) }
        ensures none { self.old.before ≡ None → result ≡ Err revert_error.NoBefore }
        ensures ok { IfOk result (Reverts D.tells (D.outside disk.old).now.disk.seen self.old self.new) }
        ensures err { OnErr result (self.new ≡ self.old) }
        ensures refused { D.tells → IfErr result (NamesRefusal self.old (D.outside disk.old).now.disk.seen) }
    {
        let older = self.read_before(alloc, disk)?;
        let views = without_homes(alloc, &older.views)?;
        self.give_back(views);
        Ok(older.number)
    }

    /// Reads the commit before.
    fn read_before<D: Disk>(&self, alloc: Global, disk: &mut D) -> Result<Kept, RevertError>
        requires rests { D.tells → Rests self.now (D.outside disk.old).now.disk }
        ensures counts { CountsFaults (IsErrOf result RevertError.Failed) (D.outside disk.old) (D.outside disk.new) }
        ensures same { D.tells → Looks (D.outside disk.old) (D.outside disk.new) }
        ensures none { self.now.before ≡ None → result ≡ Err revert_error.NoBefore }
        ensures older { D.tells → IfOk result (λ kept. IsBefore (D.outside disk.old).now.disk.seen (whole (commit_in kept))) }
        ensures refused { D.tells → IfErr result (NamesRefusal self.now (D.outside disk.old).now.disk.seen) }
    {
        if self.before().is_none() {
            return Err(RevertError::NoBefore);
        }
        let marks = self.read_marks(disk)?;
        match read_older(alloc, disk, &marks)? {
            Some(kept) => Ok(kept),
            None => Err(RevertError::NoBefore),
        }
    }

    /// Reads the marks of the file.
    fn read_marks<D: Disk>(&self, disk: &mut D) -> Result<Marks, OpenError>
        requires rests { D.tells → Rests self.now (D.outside disk.old).now.disk }
        ensures counts { CountsFaults (IsErrOf result OpenError.Failed) (D.outside disk.old) (D.outside disk.new) }
        ensures same { D.tells → Looks (D.outside disk.old) (D.outside disk.new) }
        ensures some { IfOk result (λ marks. AreMarksOfSome marks.slot marks.chosen marks.other) }
        ensures marks { D.tells → IfOk result (λ marks. AreMarks (D.outside disk.old).now.disk.seen marks.slot marks.chosen marks.other) }
        ensures other { D.tells → IfOk result (λ marks. marks.other ≡ self.now.other) }
        ensures refused { D.tells → IfErr result (λ e. e ≡ open_error.Failed) }
    {
        Ok(read_marks(disk)?)
    }
}

/// The same views, no column of which has a home.
fn without_homes(alloc: Global, views: &Views) -> Result<Views, Memory>
    ensures value { IfOk result (λ new. new ≡ views_without_homes views.now) }
    ensures homeless { IfOk result (λ new. homed_views new ≡ []) }
{
    let mut names = Names::new(alloc);
    'names: for name in views.names().as_slice() {
        names.push(name.copy()?)?;
    }
    let tables = tables_anew(alloc, views.tables())?;
    Ok(Views::of(names, tables))
}

/// The same tables, no column of which has a home.
fn tables_anew(alloc: Global, tables: &[Shared]) -> Result<Vec<Shared>, Memory>
    ensures { IfOk result (λ new. new.items ≡ map without_homes tables.now) }
{
    let mut anew = Vec::new(alloc);
    'tables: for table in tables {
        anew.push(table_anew(alloc, table.table())?)?;
    }
    Ok(anew)
}

/// The same table, no column of which has a home.
fn table_anew(alloc: Global, table: &Table) -> Result<Shared, Memory>
    ensures { IfOk result (λ new. new ≡ without_homes table.now) }
{
    let _whole = table.len();
    let rows = table.to_rows(alloc)?;
    share(alloc, from_rows(alloc, table.schema().copy()?, &rows)?)
}
