//! Chunks that make up a list of values.
ghost use Rattle.std.specs.Prelude.{◌≡◌, ◌<◌, [], ◌∷◌, ◌++◌, length, replicate, IfOk, OnOk};
ghost use Rattle.bytes_col.specs.Spine.{AreSome};

use crate::chunk::Chunk;
use mk_value::Memory;
use segments::Shared;
use std::alloc::Global;
use std::marker::Model;

/// Shared chunks in order, none of which is empty. A caller sees the list of the chunks, each as the list of its values.
#[derive(Drop)]
pub(crate) struct Chunks {
    items: Vec<Shared<Chunk>>,
}

impl Model for Chunks {
    ghost use Rattle.std.specs.Prelude.{List, ℕ};
    ghost use Rattle.bytes_col.specs.Spine.{AreSome};

    ghost Value = { List (List (List ℕ)) };

    ghost view = { λ c. c.items.items };

    ghost invariant = { λ c. AreSome c.items.items };
}

impl Chunks {
    /// No chunks. It takes no memory.
    pub(crate) fn new(alloc: Global) -> Chunks
        ensures { result ≡ [] }
    {
        Chunks {
            items: Vec::new(alloc),
        }
    }

    /// One chunk.
    pub(crate) fn of_one(alloc: Global, chunk: Shared<Chunk>) -> Result<Chunks, Memory>
        requires { 0 < length chunk }
        ensures { IfOk result (λ chunks. chunks ≡ chunk ∷ []) }
    {
        Ok(Chunks {
            items: Vec::from_array(alloc, [chunk])?,
        })
    }

    pub(crate) fn allocator(&self) -> Global {
        *self.items.allocator()
    }

    /// How many chunks there are.
    pub(crate) fn len(&self) -> usize
        ensures { result ≡ length self.now }
    {
        self.items.len()
    }

    pub(crate) fn as_slice(&self) -> &[Shared<Chunk>]
        ensures items { result.now ≡ self.now }
        ensures some { AreSome self.now }
    {
        self.items.as_slice()
    }

    /// Adds a chunk at the end.
    pub(crate) fn push(&mut self, chunk: Shared<Chunk>) -> Result<(), Memory>
        requires { 0 < length chunk }
        ensures { OnOk result (self.new ≡ self.old ++ chunk ∷ []) }
    {
        self.items.push(chunk)?;
        Ok(())
    }

    /// Adds owners of a chunk at the end.
    pub(crate) fn push_clones(&mut self, chunk: &Shared<Chunk>, count: usize) -> Result<(), Memory>
        requires { 0 < length chunk.now }
        ensures { OnOk result (self.new ≡ self.old ++ replicate count chunk.now) }
    {
        for _copy in 0..count {
            self.push(chunk.clone()?)?;
        }
        Ok(())
    }

    /// The chunks as they are listed.
    pub(crate) fn into_items(self) -> Vec<Shared<Chunk>>
        ensures { result.items ≡ self }
    {
        self.items
    }
}
