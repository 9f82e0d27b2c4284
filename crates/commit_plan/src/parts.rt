//! Payloads as blocks are written.
ghost use Rattle.std.specs.Prelude.{◌≡◌, length};
ghost use Rattle.block_io.specs.Parts.{IsPart, part_bytes};
ghost use Rattle.commit_plan.specs.Payloads.{memo_bytes, payload_bytes};

use crate::payload::{MemoValue, Payload};
use block_io::Part;

/// The payload as it is written.
pub(crate) fn part_of(payload: &Payload) -> Part<'_>
    ensures part { IsPart result }
    ensures bytes { part_bytes result ≡ payload_bytes payload.now }
{
    match payload {
        Payload::Numbers(column) => Part::Ints(column),
        Payload::Short(column) => Part::Short(column.get()),
        Payload::Memo(memo) => memo_part(memo),
        Payload::Directory(bytes) => Part::Raw(bytes.as_slice()),
    }
}

fn memo_part(memo: &MemoValue) -> Part<'_>
    ensures part { IsPart result }
    ensures bytes { part_bytes result ≡ memo_bytes memo.now }
{
    Part::Memo(memo.column.get(), memo.row)
}

/// How many bytes the block has.
pub(crate) fn payload_len(payload: &Payload) -> u64
    ensures { result ≡ length (payload_bytes payload.now) }
{
    match payload {
        Payload::Numbers(column) => column.packed().len() as u64,
        Payload::Short(column) => column.get().short_len(),
        Payload::Memo(memo) => memo_len(memo),
        Payload::Directory(bytes) => bytes.len() as u64,
    }
}

fn memo_len(memo: &MemoValue) -> u64
    ensures { result ≡ length (memo_bytes memo.now) }
{
    memo.column.get().value(memo.row).len() as u64
}
