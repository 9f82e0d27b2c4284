// Where the search for the place of a block begins, by the length of the block.
ghost use Rattle.std.specs.Prelude.{◌≡◌, ◌<◌, ◌≤◌, length, All, IfOk, IfSome};
ghost use Rattle.free_space.specs.Cursors.{IsAtFloor, HasLen, FitsAt};

use std::alloc::{AllocError, Global};

/// How far the search for a block of `len` bytes or more need not look: there is no place for it below `place`.
#[derive(Clone, Copy, Debug)]
pub(crate) struct Cursor {
    pub len: u64,
    pub place: u64,
}

/// How many lengths have a cursor. The longest is about 2^38.
const COUNT: usize = 256;

/// The next length that has a cursor of its own: extents of up to 16 times 16 bytes have one each, and each longer
/// one is an eighth longer at most.
fn next_len(len: u64) -> u64
    ensures { len ≤ result }
{
    let step = (len / 128).max(1).saturating_mul(16);
    len.saturating_add(step)
}

/// Cursors of ascending lengths, all at the floor.
pub(crate) fn cursors_at(alloc: Global, floor: u64) -> Result<Vec<Cursor>, AllocError>
    ensures { IfOk result (λ cursors. All (IsAtFloor floor) cursors.items) }
{
    let mut cursors = Vec::with_capacity(alloc, COUNT)?;
    let mut len = 1;
    for _step in 0..COUNT {
        cursors.push(Cursor { len, place: floor })?;
        len = next_len(len);
    }
    Ok(cursors)
}

/// Moves all cursors back to the floor.
pub(crate) fn reset(cursors: &mut [Cursor], floor: u64)
    requires { All HasLen cursors.old }
    ensures { All (IsAtFloor floor) cursors.new }
{
    for at in 0..cursors.len() {
        cursors[at].place = floor;
    }
}

/// The longest cursor that is no longer than a block of `len` bytes.
pub(crate) fn find(cursors: &[Cursor], len: u64) -> Option<usize>
    ensures within { IfSome result (λ at. at < length cursors.now) }
    ensures fits { IfSome result (FitsAt cursors.now len) }
{
    let above = cursors.partition_point(|cursor| cursor.len <= len);
    let at = above.checked_sub(1)?;
    if at < cursors.len() && cursors[at].len <= len {
        Some(at)
    } else {
        None
    }
}
