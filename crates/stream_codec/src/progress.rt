//! Fields taken one after another.
ghost use Rattle.std.specs.Prelude.{◌+◌, ◌^◌, ◌<◌, length, IfErr, IfOk, OnOk};
ghost use Rattle.stream_codec.specs.Loading.{Reaches, ReachesAlong, due_after};
ghost use Rattle.stream_codec.specs.Progressing.{RefusesAlong};
ghost use Rattle.stream_codec.specs.Stages.{IsLoading, IsNextLen};
ghost use Rattle.stream_codec.specs.Steps.{Refuses};

use crate::error::LoadError;
use crate::stage::{Stage, field_len, take};
use std::alloc::Global;
use view_store::Root;

/// How far a stream has come: the views that came whole, what is due behind them, and the place of the field that is due.
#[derive(Drop)]
pub(crate) struct Progress {
    pub(crate) root: Root,
    pub(crate) stage: Stage,
    pub(crate) place: u64,
}

/// Takes the field that is due. After an error the progress is of no use.
pub(crate) fn advance(progress: &mut Progress, alloc: Global, field: &[u8]) -> Result<(), LoadError>
    requires whole { IsLoading progress.old.root progress.old.stage }
    requires long { IsNextLen (due_after progress.old) (length field.now) }
    requires fits { progress.old.place + length field.now < 2 ^ 63 }
    ensures taken { OnOk result (Reaches progress.old field.now progress.new) }
    ensures refused { IfErr result (Refuses (due_after progress.old) field.now progress.old.place) }
{
    take(
        &mut progress.stage,
        &mut progress.root,
        alloc,
        field,
        progress.place,
    )?;
    progress.place += field.len() as u64;
    Ok(())
}

/// Takes the fields that a piece holds whole, from its front on; and how many bytes they have. A byte behind the last field is refused.
/// After an error the progress is of no use.
pub(crate) fn advance_along(
    progress: &mut Progress,
    alloc: Global,
    piece: &[u8],
) -> Result<usize, LoadError>
    requires whole { IsLoading progress.old.root progress.old.stage }
    requires fits { progress.old.place + length piece.now < 2 ^ 63 }
    ensures taken { IfOk result (ReachesAlong progress.old piece.now progress.new) }
    ensures refused { IfErr result (RefusesAlong (due_after progress.old) piece.now progress.old.place) }
{
    let mut at = 0;
    while let Some(len) = field_len(&progress.stage) {
        if piece.len() - at < len {
            return Ok(at);
        }
        advance(progress, alloc, &piece[at..at + len])?;
        at += len;
    }
    if at < piece.len() {
        return Err(LoadError::At(progress.place));
    }
    Ok(at)
}
