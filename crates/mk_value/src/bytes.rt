ghost use Rattle.std.specs.Prelude.{◌≡◌, ◌+◌, ◌-◌, ◌≤◌, ◌++◌, ◌∷◌, ◌↔◌, [], length, take, IsTrue, IfOk, IsOk, OnOk, OnErr};

use crate::Memory;
use std::alloc::Global;
use std::marker::Model;

/// A byte string, with room for more that no call but `reserve` and `with_room` promises.
#[derive(Debug, Drop)]
pub struct Bytes {
    items: Vec<u8>,
}

impl Model for Bytes {
    ghost use Rattle.std.specs.Prelude.{◌-◌, vec_capacity, vec_len};
    ghost use Rattle.mk_value.specs.Buffer.{Buffer};

    ghost Value = { Buffer };

    ghost view = { λ b. record { bytes = b.items.items; spare = vec_capacity b.items - vec_len b.items } };
}

impl Bytes {
    /// The empty byte string, with no room.
    pub fn new(alloc: Global) -> Bytes
        ensures { result.bytes ≡ [] }
    {
        Bytes {
            items: Vec::new(alloc),
        }
    }

    /// The empty byte string, with room for `room` bytes.
    pub fn with_room(alloc: Global, room: usize) -> Result<Bytes, Memory>
        ensures empty { IfOk result (λ b. b.bytes ≡ []) }
        ensures spare { IfOk result (λ b. room ≤ b.spare) }
    {
        Ok(Bytes {
            items: Vec::with_capacity(alloc, room)?,
        })
    }

    /// A byte string of these bytes.
    pub fn from_slice(alloc: Global, bytes: &[u8]) -> Result<Bytes, Memory>
        ensures { IfOk result (λ b. b.bytes ≡ bytes.now) }
    {
        Ok(Bytes {
            items: Vec::from_slice(alloc, bytes)?,
        })
    }

    /// Makes room for `more` bytes.
    pub fn reserve(&mut self, more: usize) -> Result<(), Memory>
        ensures same { self.new.bytes ≡ self.old.bytes }
        ensures ok { OnOk result (more ≤ self.new.spare) }
        ensures roomy { more ≤ self.old.spare → IsOk result }
        ensures spare { self.old.spare ≤ self.new.spare }
    {
        self.items.reserve(more)?;
        Ok(())
    }

    /// Appends a byte.
    pub fn push(&mut self, byte: u8) -> Result<(), Memory>
        ensures ok { OnOk result (self.new.bytes ≡ self.old.bytes ++ byte ∷ []) }
        ensures err { OnErr result (self.new.bytes ≡ self.old.bytes) }
        ensures roomy { 1 ≤ self.old.spare → IsOk result }
        ensures spare { self.old.spare ≤ self.new.spare + 1 }
    {
        self.items.push(byte)?;
        Ok(())
    }

    /// Appends the bytes of a slice.
    pub fn push_slice(&mut self, bytes: &[u8]) -> Result<(), Memory>
        ensures ok { OnOk result (self.new.bytes ≡ self.old.bytes ++ bytes.now) }
        ensures err { OnErr result (self.new.bytes ≡ self.old.bytes) }
        ensures roomy { length bytes.now ≤ self.old.spare → IsOk result }
        ensures spare { self.old.spare ≤ self.new.spare + length bytes.now }
    {
        self.items.extend_from_slice(bytes)?;
        Ok(())
    }

    /// Makes the byte string empty; what its bytes took is room again.
    pub fn clear(&mut self)
        ensures empty { self.new.bytes ≡ [] }
        ensures spare { self.old.spare + length self.old.bytes ≤ self.new.spare }
    {
        self.items.clear();
    }

    /// Keeps the first `len` bytes; what the others took is room again.
    pub fn truncate(&mut self, len: usize)
        ensures front { self.new.bytes ≡ take len self.old.bytes }
        ensures spare { self.old.spare + (length self.old.bytes - len) ≤ self.new.spare }
    {
        self.items.truncate(len);
    }

    pub fn as_slice(&self) -> &[u8]
        ensures { result.now ≡ self.now.bytes }
    {
        self.items.as_slice()
    }

    /// The number of bytes.
    pub fn len(&self) -> usize
        ensures { result ≡ length self.now.bytes }
    {
        self.items.len()
    }

    pub fn is_empty(&self) -> bool
        ensures { IsTrue result ↔ (self.now.bytes ≡ []) }
    {
        self.items.is_empty()
    }

    /// A byte string of the same bytes, which has memory of its own.
    pub fn copy(&self) -> Result<Bytes, Memory>
        ensures { IfOk result (λ b. b.bytes ≡ self.now.bytes) }
    {
        Bytes::from_slice(*self.items.allocator(), self.items.as_slice())
    }

    /// Gives the vector back, without memory.
    pub fn into_vec(self) -> Vec<u8>
        ensures { result.items ≡ self.bytes }
    {
        self.items
    }
}

impl From<Vec<u8>> for Bytes {
    ghost from_gives = { λ items bytes. bytes.bytes ≡ items.items };

    fn from(items: Vec<u8>) -> Bytes {
        Bytes { items }
    }
}

impl PartialEq for Bytes {
    ghost use Rattle.mk_value.specs.Names.{same_bytes};
    ghost use Rattle.std.proofs.Common.{rules};
    ghost use Rattle.std.specs.Cmp.Rules.{comparing};

    ghost eq = { λ a b. same_bytes a.bytes b.bytes };

    ghost laws = { Prim.search (comparing, rules) };

    fn eq(&self, other: &Bytes) -> bool {
        self.items.as_slice() == other.items.as_slice()
    }
}
