//! A long value.
ghost use Rattle.std.specs.Prelude.{◌≡◌, length, IfOk};
ghost use Rattle.std.specs.Bool.{OnTrue, OnFalse};

use mk_value::Memory;
use segments::Shared;
use std::alloc::{AllocError, Global};
use std::marker::Model;

/// The bytes of a long value, in memory of their own that its owners share. They are written to only where there is one owner.
#[derive(Drop)]
pub(crate) struct Memo {
    bytes: Shared<Vec<u8>>,
}

impl Model for Memo {
    ghost use Rattle.std.specs.Prelude.{List, ℕ};

    ghost Value = { List ℕ };

    ghost view = { λ m. m.bytes.items };
}

impl Clone for Memo {
    ghost is_clone = { λ a b. b ≡ a };

    fn clone(&self) -> Result<Memo, AllocError> {
        Ok(Memo {
            bytes: self.bytes.clone()?,
        })
    }
}

impl Memo {
    /// A copy of these bytes.
    pub(crate) fn of(alloc: Global, bytes: &[u8]) -> Result<Memo, Memory>
        ensures { IfOk result (λ memo. memo ≡ bytes.now) }
    {
        Memo::from_vec(alloc, Vec::from_slice(alloc, bytes)?)
    }

    /// These bytes themselves.
    pub(crate) fn from_vec(alloc: Global, bytes: Vec<u8>) -> Result<Memo, Memory>
        ensures { IfOk result (λ memo. memo ≡ bytes.items) }
    {
        Ok(Memo {
            bytes: Shared::of(alloc, bytes)?,
        })
    }

    /// Writes other bytes over these, if they are as many and have no other owner, and says whether it did.
    pub(crate) fn overwrite(&mut self, bytes: &[u8]) -> bool
        ensures done { OnTrue result (self.new ≡ bytes.now) }
        ensures size { OnTrue result (length bytes.now ≡ length self.old) }
        ensures not_done { OnFalse result (self.new ≡ self.old) }
    {
        match self.bytes.sole() {
            Some(own) if own.len() == bytes.len() => {
                own.copy_from_slice(bytes);
                true
            }
            _ => false,
        }
    }

    pub(crate) fn bytes(&self) -> &[u8]
        ensures { result.now ≡ self.now }
    {
        self.bytes.get().as_slice()
    }
}
