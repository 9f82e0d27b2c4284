// What a crash leaves of a file, found by going through the log again.
ghost use Rattle.std.specs.Prelude.{◌≡◌, ◌≢◌, ℕ, ◌+◌, ◌-◌, ◌<◌, ◌≤◌, length, drop, IfOk, OnOk, vec_len, slice_index_or};
ghost use Rattle.host_io.specs.Disk.{DiskState, settled};
ghost use Rattle.host_io.specs.Calls.{put_bytes};
ghost use Rattle.host_io.specs.Memory.{IsLeft, left_pending};
ghost use Rattle.host_io.specs.Log.{disk_at, disk_after, piece_bytes, WriteFits, WritesFit, IsRedone, CanRedo, AreLater};
ghost use Rattle.host_io.specs.declared.entry.Entry.{Entry as EntryValue};
ghost use Rattle.host_io.specs.declared.fault.Effect.TheVariants.{Nothing};

use crate::Effect;
use crate::entry::{Entry, Event, Piece};
use crate::file::{leave, put_ones};
use std::alloc::{AllocError, Global};

/// How many of the entries, up to the newest that came within so many calls.
pub(crate) fn count_within(entries: &[Entry], calls: u64) -> usize
    ensures within { result ≤ length entries.now }
    ensures later { AreLater calls (drop result entries.now) }
    ensures newest { 0 < result → (e : EntryValue) → (slice_index_or entries.now (result - 1) e).calls ≤ calls }
{
    let mut count = entries.len();
    while count > 0 && entries[count - 1].calls > calls {
        count -= 1;
    }
    count
}

// What a crash leaves of a write that is pending.
fn leave_pending(
    image: &mut Vec<u8>,
    piece: &Piece,
    bytes: &[u8],
    choice: Effect,
) -> Result<(), AllocError>
    requires within { choice ≢ Nothing → piece.now.at ≤ vec_len image.old }
    ensures { OnOk result (image.new.items ≡ left_pending choice piece.now.left piece.now.at bytes.now image.old.items) }
{
    match choice {
        Effect::Nothing => Ok(()),
        Effect::Whole => leave(image, piece.at, bytes, piece.left),
        Effect::Ones => put_ones(image, piece.at, bytes.len()),
    }
}

// Goes on by one event, in the file as a read gives it and in the one that a crash leaves.
fn redo(
    seen: &mut Vec<u8>,
    image: &mut Vec<u8>,
    event: &Event,
    all: &[u8],
    choice: Effect,
) -> Result<(), AllocError>
    requires { CanRedo choice all.now (vec_len seen.old) (vec_len image.old) event.now }
    ensures { (disk : DiskState) → IsRedone choice disk seen.old.items image.old.items → WriteFits all.now disk event.now
        → OnOk result (IsRedone choice (disk_after all.now event.now disk) seen.new.items image.new.items) }
{
    match event {
        Event::Write(piece) => {
            let bytes = &all[piece.from..piece.from + piece.count];
            leave(seen, piece.at, bytes, piece.left)?;
            leave_pending(image, piece, bytes, choice)
        }
        Event::Sync => {
            image.clear();
            image.extend_from_slice(seen)
        }
        Event::Say(_) => Ok(()),
    }
}

/// The image that a crash after these entries leaves, of a file that was settled before them.
pub(crate) fn crash_image(
    alloc: Global,
    first: &[u8],
    all: &[u8],
    entries: &[Entry],
    choice: Effect,
) -> Result<Vec<u8>, AllocError>
    requires { WritesFit all.now (settled first.now) entries.now }
    ensures { IfOk result (λ image. IsLeft choice (disk_at all.now (settled first.now) entries.now) image.items) }
{
    let mut seen = Vec::from_slice(alloc, first)?;
    let mut image = Vec::from_slice(alloc, first)?;
    for entry in entries {
        redo(&mut seen, &mut image, &entry.event, all, choice)?;
    }
    Ok(image)
}
