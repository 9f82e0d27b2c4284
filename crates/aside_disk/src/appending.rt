// Putting a record behind a log.
ghost use Rattle.std.specs.Prelude.{◌+◌, ◌^◌, ◌<◌, ◌≤◌, length};
ghost use Rattle.host_io.specs.Calls.{CountsDisk};
ghost use Rattle.aside_disk.specs.Records.{record_len};
ghost use Rattle.aside_disk.specs.Appending.{Appends, Lays};

use crate::record::{record_bytes, record_len};
use host_io::{Disk, Failed, MAX_WRITE};

/// Writes bytes at a place: by one write where they fit one, and else by two.
fn write_bytes<D: Disk>(disk: &mut D, place: u64, bytes: &[u8]) -> Result<(), Failed>
    requires short { length bytes.now ≤ 8192 }
    requires ends { place + length bytes.now < 2 ^ 63 }
    requires within { D.tells → place ≤ length (D.outside disk.old).now.disk.seen }
    ensures counts { CountsDisk (D.outside disk.old) (D.outside disk.new) result }
    ensures lays { D.tells → Lays place bytes.now (D.outside disk.old) (D.outside disk.new) result }
{
    if bytes.len() <= MAX_WRITE {
        return disk.write_at(place, bytes);
    }
    let (first, rest) = bytes.split_at(MAX_WRITE);
    disk.write_at(place, first)?;
    disk.write_at(place + MAX_WRITE as u64, rest)
}

/// Writes a record behind a log, and does not sync.
pub(crate) fn append<D: Disk>(disk: &mut D, end: u64, place: u64, from: &[u8]) -> Result<(), Failed>
    requires short { length from.now ≤ 4096 }
    requires ends { end + record_len (length from.now) < 2 ^ 63 }
    requires within { D.tells → end ≤ length (D.outside disk.old).now.disk.seen }
    ensures counts { CountsDisk (D.outside disk.old) (D.outside disk.new) result }
    ensures appends { D.tells → Appends end (record { place = place; bytes = from.now }) (D.outside disk.old) (D.outside disk.new) result }
{
    let bytes = record_bytes(place, from);
    let len = record_len(from.len() as u64) as usize;
    write_bytes(disk, end, &bytes[..len])
}
