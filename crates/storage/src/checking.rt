//! A file is looked at as a whole.
ghost use Rattle.std.specs.Prelude.{IfErr, IfOk, IsErrOf};
ghost use Rattle.host_io.specs.Calls.{CountsFaults, Looks};
ghost use Rattle.host_io.specs.Disk.{IsSettled};
ghost use Rattle.recovery.specs.Opening.{NamesCause};
ghost use Rattle.storage.specs.Spaces.{Reports};

use crate::{Mode, Report, Store};
use host_io::Disk;
use recovery::OpenError;
use std::alloc::Global;

/// Opens the store of a file, and reports what it has. It reads all blocks.
///
/// # Errors
///
/// Those of `Store::open`. The disk is as before.
pub fn check<D: Disk>(alloc: Global, disk: &mut D) -> Result<Report, OpenError>
    requires settled { D.tells → IsSettled (D.outside disk.old).now.disk }
    ensures counts { CountsFaults (IsErrOf result OpenError.Failed) (D.outside disk.old) (D.outside disk.new) }
    ensures same { D.tells → Looks (D.outside disk.old) (D.outside disk.new) }
    ensures found { D.tells → IfOk result (Reports (D.outside disk.old).now.disk.seen) }
    ensures refused { D.tells → IfErr result (NamesCause (D.outside disk.old).now.disk.seen) }
{
    let store = Store::open(alloc, disk, Mode::Read, 0)?;
    Ok(store.report())
}
