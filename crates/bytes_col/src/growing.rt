//! A list of values that grows at its end.
ghost use Rattle.std.specs.Prelude.{◌≡◌, ℕ, ◌+◌, ◌-◌, ◌<◌, ◌≤◌, [], ◌∷◌, ◌++◌, length, slice_index_or, IfOk, OnOk, OnErr};
ghost use Rattle.std.specs.Bool.{OnTrue};
ghost use Rattle.segments.specs.Joined.{joined, counts_of};
ghost use Rattle.segments.specs.Segments.{IsPlace};
ghost use Rattle.bytes_col.specs.Growing.{front, EndsWithSome};
ghost use Rattle.bytes_col.specs.Strings.{short_bytes};
ghost use Rattle.bytes_col.specs.Spine.{LastTakes};

use crate::chunk::{CHUNK_MOST, Chunk};
use crate::spine::Spine;
use mk_value::Memory;
use segments::{Place, Shared};
use std::alloc::{AllocError, Global};
use std::marker::Model;

/// The chunks before the last, which copies share, and the last.
#[derive(Drop)]
struct Parts {
    head: Shared<Spine>,
    tail: Chunk,
}

/// The values in chunks, the last of which is no other list's. A caller sees the list of the chunks.
#[derive(Drop)]
pub(crate) struct Growing {
    parts: Box<Parts>,
}

impl Model for Growing {
    ghost use Rattle.std.specs.Prelude.{List, ℕ, [], ◌∷◌, ◌++◌, length, ◌≤◌};
    ghost use Rattle.segments.specs.Joined.{joined};

    ghost Value = { List (List (List ℕ)) };

    ghost view = { λ g. g.parts.value.head ++ g.parts.value.tail ∷ [] };

    ghost invariant = { λ g. length (joined (g.parts.value.head ++ g.parts.value.tail ∷ [])) ≤ 16777216 };
}

impl Clone for Growing {
    ghost is_clone = { λ a b. b ≡ a };

    fn clone(&self) -> Result<Growing, AllocError> {
        let head = self.parts.head.clone()?;
        let tail = self.parts.tail.clone()?;
        let parts = Box::new(self.parts.tail.allocator(), Parts { head, tail })?;
        Ok(Growing { parts })
    }
}

impl Growing {
    /// These chunks, and a last one.
    fn of(head: Shared<Spine>, tail: Chunk) -> Result<Growing, Memory>
        requires { length (joined (head ++ tail ∷ [])) ≤ 16777216 }
        ensures { IfOk result (λ growing. growing ≡ head ++ tail ∷ []) }
    {
        let parts = Box::new(tail.allocator(), Parts { head, tail })?;
        Ok(Growing { parts })
    }

    /// The values of a list, and one more.
    pub(crate) fn of_spine(spine: &Shared<Spine>, value: &[u8]) -> Result<Growing, Memory>
        requires { length (joined spine.now) < 16777216 }
        ensures { IfOk result (λ growing. joined growing ≡ joined spine.now ++ value.now ∷ []) }
    {
        let list = spine.get();
        if list.takes() {
            let head = Shared::of(list.allocator(), list.without_last()?)?;
            return Growing::of(head, list.last_with(value)?);
        }
        Growing::of(spine.clone()?, list.next_of(value)?)
    }

    /// The same values, and one more in a chunk of its own.
    pub(crate) fn with(&self, value: &[u8]) -> Result<Growing, Memory>
        requires { length (joined self.now) < 16777216 }
        ensures { IfOk result (λ growing. joined growing ≡ joined self.now ++ value.now ∷ []) }
    {
        let spine = self.to_spine()?;
        let next = spine.next_of(value)?;
        Growing::of(Shared::of(self.allocator(), spine)?, next)
    }

    /// A list of the same values, which has the last chunk only where that has some.
    pub(crate) fn to_spine(&self) -> Result<Spine, Memory>
        ensures { IfOk result (λ spine. joined spine ≡ joined self.now) }
    {
        let head = self.parts.head.get();
        if self.parts.tail.len() == 0 {
            return Ok(head.clone()?);
        }
        let last = Shared::of(self.allocator(), self.parts.tail.clone()?)?;
        head.with_last(last)
    }

    pub(crate) fn allocator(&self) -> Global {
        self.parts.tail.allocator()
    }

    /// How many values there are.
    pub(crate) fn len(&self) -> usize
        ensures len { result ≡ length (joined self.now) }
        ensures few { result ≤ 16777216 }
    {
        self.parts.head.get().len() + self.parts.tail.len()
    }

    /// How many bytes the short values have together.
    pub(crate) fn short_len(&self) -> usize
        ensures count { result ≡ length (short_bytes (joined self.now)) }
    {
        self.parts.head.get().short_len() + self.parts.tail.short_len()
    }

    /// Where a value stands.
    pub(crate) fn find(&self, at: usize) -> Place
        requires { at < length (joined self.now) }
        ensures { IsPlace (counts_of self.now) at result }
    {
        let head = self.parts.head.get();
        let before = head.len();
        if at < before {
            return head.find(at);
        }
        Place {
            segment: head.count(),
            offset: at - before,
        }
    }

    /// The chunk of this number.
    pub(crate) fn chunk(&self, k: usize) -> &Chunk
        requires { k < length self.now }
        ensures { result.now ≡ slice_index_or self.now k result.now }
    {
        let head = self.parts.head.get();
        if k < head.count() {
            return head.chunk(k);
        }
        &self.parts.tail
    }

    /// The value at a place.
    pub(crate) fn value(&self, at: usize) -> &[u8]
        requires { at < length (joined self.now) }
        ensures { result.now ≡ slice_index_or (joined self.now) at [] }
    {
        let place = self.find(at);
        let chunk = self.chunk(place.segment);
        chunk.value(place.offset)
    }

    /// Whether the last chunk takes one more value.
    pub(crate) fn takes(&self) -> bool
        ensures { OnTrue result (LastTakes self.now) }
    {
        self.parts.tail.len() < CHUNK_MOST
    }

    /// Adds a value that the last chunk takes.
    pub(crate) fn append(&mut self, value: &[u8]) -> Result<(), Memory>
        requires takes { LastTakes self.old }
        requires few { length (joined self.old) < 16777216 }
        ensures ok { OnOk result (joined self.new ≡ joined self.old ++ value.now ∷ []) }
        ensures some { OnOk result (EndsWithSome self.new) }
        ensures err { OnErr result (self.new ≡ self.old) }
    {
        self.parts.tail.append(value)
    }

    /// Takes the last value away. It takes no memory.
    pub(crate) fn pop(&mut self)
        requires { EndsWithSome self.old }
        ensures { joined self.new ≡ front (joined self.old) }
    {
        self.parts.tail.pop();
    }
}
