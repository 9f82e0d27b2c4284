//! The stream of the store in a file.
ghost use Rattle.std.specs.Prelude.{IfErr, IfOk, IsErrOf};
ghost use Rattle.host_io.specs.Calls.{CountsFaults, Looks};
ghost use Rattle.host_io.specs.Disk.{IsSettled};
ghost use Rattle.recovery.specs.Opening.{NamesCause};
ghost use Rattle.streaming.specs.Saving.{IsSavedOf};

use host_io::Disk;
use mk_value::Bytes;
use recovery::OpenError;
use std::alloc::Global;
use storage::{Mode, Store};
use stream_codec::save;

/// The stream of the views of the commit that a file stands for. It reads all blocks.
///
/// # Errors
///
/// Those of `Store::open`. The disk is as before.
pub fn stream_of<D: Disk>(alloc: Global, disk: &mut D) -> Result<Bytes, OpenError>
    requires settled { D.tells → IsSettled (D.outside disk.old).now.disk }
    ensures counts { CountsFaults (IsErrOf result OpenError.Failed) (D.outside disk.old) (D.outside disk.new) }
    ensures same { D.tells → Looks (D.outside disk.old) (D.outside disk.new) }
    ensures saved { D.tells → IfOk result (λ stream. IsSavedOf (D.outside disk.old).now.disk.seen stream.bytes) }
    ensures refused { D.tells → IfErr result (NamesCause (D.outside disk.old).now.disk.seen) }
{
    let store = Store::open(alloc, disk, Mode::Read, 0)?;
    let _number = store.number();
    Ok(save(alloc, store.views())?)
}
