//! A stream is taken in pieces, however it is cut.
ghost use Rattle.std.specs.Prelude.{◌≡◌, ◌<◌, ◌^◌, ◌+◌, ◌++◌, [], length, IfErr, IfOk};
ghost use Rattle.stream_codec.specs.Fields.{IsIncomplete, IsRefusedFor, MayGoOn};
ghost use Rattle.stream_codec.specs.Stream.{IsStream};

use crate::error::LoadError;
use crate::feeding::load;
use crate::progress::Progress;
use crate::stage::{Stage, field_len};
use mk_value::Bytes;
use std::alloc::Global;
use std::marker::Model;
use view_store::Root;

/// A stream under way. It keeps the tables of the rows that came, the values of the rows under way, and the bytes of the field that has
/// not ended: never the stream. A caller sees it as the bytes that it has taken.
#[derive(Drop)]
pub struct Loader {
    alloc: Global,
    progress: Progress,
    waiting: Bytes,
}

impl Model for Loader {
    ghost use Rattle.std.specs.Prelude.{List, ℕ, ◌++◌};

    ghost Value = { List ℕ };

    ghost use Rattle.stream_codec.specs.Loading.{IsUnderWay, came};

    ghost view = { λ l. came l.progress ++ l.waiting.bytes };

    ghost invariant = { λ l. IsUnderWay l.progress l.waiting.bytes };
}

impl Loader {
    /// It has taken no bytes.
    pub fn new(alloc: Global) -> Loader
        ensures { result ≡ [] }
    {
        Loader {
            alloc,
            progress: Progress {
                root: Root::new(alloc),
                stage: Stage::Opening,
                place: 0,
            },
            waiting: Bytes::new(alloc),
        }
    }

    /// Takes the next piece. No room is taken for rows or bytes that have not come.
    ///
    /// # Errors
    ///
    /// `At` exactly where a field that the bytes so far hold whole is not as required, with the place of the first; a byte behind the end
    /// is at its own place. Else `Memory`.
    pub fn feed(self, piece: &[u8]) -> Result<Loader, LoadError>
        requires { length self + length piece.now < 2 ^ 63 }
        ensures taken { IfOk result (λ loader. loader ≡ self ++ piece.now) }
        ensures right { IfOk result MayGoOn }
        ensures refused { IfErr result (IsRefusedFor (self ++ piece.now)) }
    {
        let Loader {
            alloc,
            mut progress,
            mut waiting,
        } = self;
        load(alloc, &mut progress, &mut waiting, piece)?;
        Ok(Loader {
            alloc,
            progress,
            waiting,
        })
    }

    /// The root whose stream was taken.
    ///
    /// # Errors
    ///
    /// `At` exactly where the bytes end within a field, or before one that is due, with its place. Else `Memory`.
    pub fn finish(self) -> Result<Root, LoadError>
        ensures whole { IfOk result (IsStream self) }
        ensures refused { IfErr result (IsIncomplete self) }
    {
        let Loader {
            alloc: _,
            progress,
            waiting: _,
        } = self;
        let Progress { root, stage, place } = progress;
        if field_len(&stage).is_some() {
            return Err(LoadError::At(place));
        }
        // Each root is whole.
        let _names = root.names();
        Ok(root)
    }
}
