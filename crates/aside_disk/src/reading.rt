// Reading an aside disk: the bytes of the base, and over them those of the records.
ghost use Rattle.std.specs.Prelude.{◌≡◌, ℕ, ◌+◌, ◌≤◌, List, length, take, drop, OnOk};
ghost use Rattle.host_io.specs.Calls.{CountsDisk, Looks, put_bytes};
ghost use Rattle.host_io.specs.Ranges.{bytes_in};
ghost use Rattle.aside_disk.specs.Records.{Entry, Fit, Spells, applied};
ghost use Rattle.aside_disk.specs.Logical.{records_range};
ghost use Rattle.aside_disk.specs.Walking.{AreBounded, IsWalk};
ghost use Rattle.aside_disk.specs.Reading.{Covers, IsFound};

use crate::log::FIRST_RECORD;
use crate::walking::{Record, Walk, next_record};
use host_io::{Disk, Failed};

/// Fills a piece with the bytes of the base from a place on, as far as it has any.
fn fill_from_base(base: &[u8], at: u64, into: &mut [u8])
    ensures { Covers base.now at into.new }
{
    let from = at.min(base.len() as u64) as usize;
    let count = into.len().min(base.len() - from);
    into[..count].copy_from_slice(&base[from..from + count]);
}

/// Puts the bytes of a record over those of a piece of the file that begins here, where the two meet.
fn overlay<D: Disk>(disk: &mut D, found: &Record, at: u64, into: &mut [u8]) -> Result<(), Failed>
    requires bounded { AreBounded found.now }
    requires within { D.tells → found.now.from + found.now.len ≤ length (D.outside disk.old).now.disk.seen }
    ensures counts { CountsDisk (D.outside disk.old) (D.outside disk.new) result }
    ensures same { D.tells → Looks (D.outside disk.old) (D.outside disk.new) }
    ensures covers { D.tells → (file : List ℕ) (entry : Entry) → IsFound (D.outside disk.old).now.disk.seen found.now entry → entry.place ≤ length file
        → Covers file at into.old → OnOk result (Covers (put_bytes file entry.place entry.bytes) at into.new) }
{
    let start = found.place.max(at);
    let stop = (found.place + found.len).min(at.saturating_add(into.len() as u64));
    if stop <= start {
        return Ok(());
    }
    let met = &mut into[(start - at) as usize..(stop - at) as usize];
    disk.read_at(found.from + (start - found.place), met)
}

/// Fills a piece with the bytes from a place on of the base with all records of a log put into it.
pub(crate) fn read_over<D: Disk>(
    disk: &mut D,
    base: &[u8],
    end: u64,
    at: u64,
    into: &mut [u8],
) -> Result<(), Failed>
    requires walk { IsWalk 256 end }
    requires within { D.tells → end ≤ length (D.outside disk.old).now.disk.seen }
    ensures counts { CountsDisk (D.outside disk.old) (D.outside disk.new) result }
    ensures same { D.tells → Looks (D.outside disk.old) (D.outside disk.new) }
    ensures bytes { D.tells → (entries : List Entry) → Spells entries (bytes_in (D.outside disk.old).now.disk.seen (records_range end)) → Fit (length base.now) entries
        → at + length into.old ≤ length (applied base.now entries)
        → OnOk result (into.new ≡ take (length into.old) (drop at (applied base.now entries))) }
{
    fill_from_base(base, at, into);
    let mut walk = Walk::new(FIRST_RECORD, end, base.len() as u64);
    'records: while let Some(found) = next_record(disk, &mut walk)? {
        overlay(disk, &found, at, into)?;
    }
    Ok(())
}
