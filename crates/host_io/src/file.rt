// The bytes of a file in memory.
ghost use Rattle.std.specs.Prelude.{◌≡◌, ◌+◌, ◌^◌, ◌<◌, ◌≤◌, ◌++◌, length, max, replicate, IsOk, OnOk, vec_len, vec_capacity};
ghost use Rattle.host_io.specs.Memory.{left_by};
ghost use Rattle.host_io.specs.Calls.{put_bytes};

use crate::Effect;
use std::alloc::AllocError;

/// Puts these bytes into the file at a place within it or at its end. It fails only for want of room.
pub(crate) fn put(file: &mut Vec<u8>, at: usize, bytes: &[u8]) -> Result<(), AllocError>
    requires { at ≤ vec_len file.old }
    ensures ok { OnOk result (file.new.items ≡ put_bytes file.old.items at bytes.now) }
    ensures room { max (vec_len file.old) (at + length bytes.now) ≤ vec_capacity file.old → IsOk result }
    ensures capacity { vec_capacity file.old ≤ vec_capacity file.new }
{
    let over = bytes.len().min(file.len() - at);
    file.extend_from_slice(&bytes[over..])?;
    file[at..at + over].copy_from_slice(&bytes[..over]);
    Ok(())
}

/// Puts so many bytes of `ff` into the file at a place within it or at its end. It fails only for want of room.
pub(crate) fn put_ones(file: &mut Vec<u8>, at: usize, count: usize) -> Result<(), AllocError>
    requires within { at ≤ vec_len file.old }
    requires ends { at + count < 2 ^ 64 }
    ensures ok { OnOk result (file.new.items ≡ put_bytes file.old.items at (replicate count 255)) }
    ensures room { max (vec_len file.old) (at + count) ≤ vec_capacity file.old → IsOk result }
    ensures capacity { vec_capacity file.old ≤ vec_capacity file.new }
{
    let end = at + count;
    file.resize(end.max(file.len()), 0xff)?;
    file[at..end].fill(0xff);
    Ok(())
}

/// What a write of these bytes leaves of them, at a place within the file or at its end. It fails only for want of room.
pub(crate) fn leave(
    file: &mut Vec<u8>,
    at: usize,
    bytes: &[u8],
    left: Effect,
) -> Result<(), AllocError>
    requires within { at ≤ vec_len file.old }
    requires ends { at + length bytes.now < 2 ^ 64 }
    ensures ok { OnOk result (file.new.items ≡ left_by left at bytes.now file.old.items) }
    ensures room { max (vec_len file.old) (at + length bytes.now) ≤ vec_capacity file.old → IsOk result }
    ensures capacity { vec_capacity file.old ≤ vec_capacity file.new }
{
    match left {
        Effect::Nothing => Ok(()),
        Effect::Whole => put(file, at, bytes),
        Effect::Ones => put_ones(file, at, bytes.len()),
    }
}
