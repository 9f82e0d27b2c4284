// The file of a new store.
ghost use Rattle.std.specs.Prelude.{◌≡◌, [], OnOk, length};
ghost use Rattle.host_io.specs.Calls.{CountsDisk};
ghost use Rattle.host_io.specs.Disk.{settled};
ghost use Rattle.host_io.specs.Outside.{Goes};
ghost use Rattle.recovery.specs.Keeping.{commit_in};
ghost use Rattle.storage.specs.NewStore.{new_commit, new_file};

use commit_marks::{HEADER, Mark, slot_bytes};
use dir_codec::Notes;
use host_io::{Disk, Failed};
use recovery::Kept;
use std::alloc::Global;
use view_store::{Names, Views};

/// The mark of commit 0: a directory of no views where the first block may stand.
const FIRST_MARK: Mark = Mark {
    version: 1,
    number: 0,
    place: 192,
    len: 4,
    end: 208,
};

/// The bytes of a store without views: a header, the first slot open, the second closed, and a directory of no views.
fn new_file() -> [u8; 208]
    ensures { result ≡ new_file }
{
    let mut file = [0; 208];
    file[..64].copy_from_slice(&HEADER);
    file[64..128].copy_from_slice(&slot_bytes(&FIRST_MARK));
    file
}

/// The commit of a new store in memory.
pub(crate) fn first_commit(alloc: Global) -> Kept
    ensures { commit_in result ≡ new_commit }
{
    Kept {
        number: FIRST_MARK.number,
        views: Views::of(Names::new(alloc), Vec::new(alloc)),
        notes: Notes::new(alloc),
        dir: FIRST_MARK.dir(),
        end: FIRST_MARK.end,
    }
}

/// Makes a store without views in an empty file.
///
/// # Errors
///
/// `Failed`, where the disk failed. Then the file may hold any bytes.
pub(crate) fn make_file<D: Disk>(disk: &mut D) -> Result<(), Failed>
    requires empty { D.tells → (D.outside disk.old).now.disk.seen ≡ [] }
    ensures counts { CountsDisk (D.outside disk.old) (D.outside disk.new) result }
    ensures made { D.tells → OnOk result ((D.outside disk.new).now.disk ≡ settled new_file) }
    ensures moments { D.tells → Goes (λ at. at.said ≡ (D.outside disk.old).now.said) (D.outside disk.old) (D.outside disk.new) }
    ensures said { D.tells → (D.outside disk.new).now.said ≡ (D.outside disk.old).now.said }
    ensures input { D.tells → (D.outside disk.new).input ≡ (D.outside disk.old).input }
{
    disk.write_at(0, &new_file())?;
    disk.sync()
}
