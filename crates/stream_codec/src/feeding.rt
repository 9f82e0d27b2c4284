//! The next piece of a stream, behind the bytes that wait.
ghost use Rattle.std.specs.Prelude.{◌≡◌, ◌+◌, ◌^◌, ◌<◌, ◌++◌, [], List, length, IfErr, OnOk};
ghost use Rattle.stream_codec.specs.Feeding.{IsMissing, Loads};
ghost use Rattle.stream_codec.specs.Fields.{IsRefusedFor};
ghost use Rattle.stream_codec.specs.Loading.{IsOnWay, IsUnderWay, came, due_after};
ghost use Rattle.stream_codec.specs.Stages.{IsNextLen, IsStage, due_in};
ghost use Rattle.stream_codec.specs.Steps.{Refuses};
ghost use Rattle.view_store.specs.Views.{NamedTable};

use crate::error::LoadError;
use crate::progress::{Progress, advance, advance_along};
use crate::stage::{Stage, field_len};
use mk_value::Bytes;
use std::alloc::Global;

/// Takes the next piece, behind bytes that wait. Only the bytes of one field ever wait, and where none do the fields are taken where they
/// lie. After an error neither is of use.
pub(crate) fn load(
    alloc: Global,
    progress: &mut Progress,
    waiting: &mut Bytes,
    piece: &[u8],
) -> Result<(), LoadError>
    requires under_way { IsUnderWay progress.old waiting.old.bytes }
    requires fits { length (came progress.old) + length waiting.old.bytes + length piece.now < 2 ^ 63 }
    ensures taken { OnOk result (Loads (came progress.old ++ (waiting.old.bytes ++ piece.now)) progress.new waiting.new.bytes) }
    ensures refused { IfErr result (IsRefusedFor (came progress.old ++ (waiting.old.bytes ++ piece.now))) }
{
    if waiting.is_empty() {
        return load_along(alloc, progress, waiting, piece);
    }
    let missing = missing(&progress.stage, waiting.len());
    if piece.len() < missing {
        waiting.push_slice(piece)?;
        return Ok(());
    }
    complete(alloc, progress, waiting, &piece[..missing])?;
    load_along(alloc, progress, waiting, &piece[missing..])
}

/// How many bytes the field that is due wants behind those that wait.
fn missing(stage: &Stage, waiting: usize) -> usize
    requires { IsStage stage.now }
    ensures { (views : List NamedTable) → IsMissing (due_in views stage.now) waiting result }
{
    match field_len(stage) {
        Some(len) => len.saturating_sub(waiting),
        None => 0,
    }
}

/// Takes the field whose first bytes waited and whose last ones are these. No bytes wait then.
fn complete(
    alloc: Global,
    progress: &mut Progress,
    waiting: &mut Bytes,
    last: &[u8],
) -> Result<(), LoadError>
    requires on_way { IsOnWay progress.old }
    requires whole { IsNextLen (due_after progress.old) (length waiting.old.bytes + length last.now) }
    requires fits { length (came progress.old) + length waiting.old.bytes + length last.now < 2 ^ 63 }
    ensures on_way { OnOk result (IsOnWay progress.new) }
    ensures spells { OnOk result (came progress.new ≡ came progress.old ++ (waiting.old.bytes ++ last.now)) }
    ensures nothing { OnOk result (waiting.new.bytes ≡ []) }
    ensures refused { IfErr result (Refuses (due_after progress.old) (waiting.old.bytes ++ last.now) progress.old.place) }
{
    waiting.push_slice(last)?;
    advance(progress, alloc, waiting.as_slice())?;
    waiting.clear();
    Ok(())
}

/// Takes a piece where no bytes wait.
fn load_along(
    alloc: Global,
    progress: &mut Progress,
    waiting: &mut Bytes,
    piece: &[u8],
) -> Result<(), LoadError>
    requires on_way { IsOnWay progress.old }
    requires nothing { waiting.old.bytes ≡ [] }
    requires fits { length (came progress.old) + length piece.now < 2 ^ 63 }
    ensures taken { OnOk result (Loads (came progress.old ++ piece.now) progress.new waiting.new.bytes) }
    ensures refused { IfErr result (IsRefusedFor (came progress.old ++ piece.now)) }
{
    let count = advance_along(progress, alloc, piece)?;
    waiting.push_slice(&piece[count..])?;
    Ok(())
}
