//! The lists that packing and unpacking give.
ghost use Rattle.std.specs.Prelude.{◌≡◌, ℕ, ℤ, List, [], ◌∷◌, ◌++◌, length, OnOk, OnErr, IfErr, ◌==◌};

use crate::error::PackError;
use std::alloc::Global;
use std::marker::Model;

/// A list of bytes.
#[derive(Drop)]
pub struct Bytes {
    items: Vec<u8>,
}

impl Model for Bytes {
    ghost Value = { List ℕ };

    ghost view = { λ b. b.items.items };
}

impl Bytes {
    /// No bytes. It takes no memory.
    pub fn new(alloc: Global) -> Bytes
        ensures { result ≡ [] }
    {
        Bytes {
            items: Vec::new(alloc),
        }
    }

    /// Adds a byte at the end. The one error is `Memory`, and the list is then as before.
    pub fn push(&mut self, byte: u8) -> Result<(), PackError>
        ensures ok { OnOk result (self.new ≡ self.old ++ byte ∷ []) }
        ensures err { OnErr result (self.new ≡ self.old) }
        ensures only { IfErr result (λ e. e ≡ PackError.Memory) }
    {
        self.items.push(byte)?;
        Ok(())
    }

    /// How many bytes there are.
    pub fn len(&self) -> usize
        ensures { result ≡ length self.now }
    {
        self.items.len()
    }

    /// Whether there are none.
    pub fn is_empty(&self) -> bool
        ensures { result ≡ (length self.now == 0) }
    {
        self.items.is_empty()
    }

    /// The bytes.
    pub fn as_slice(&self) -> &[u8]
        ensures { result.now ≡ self.now }
    {
        self.items.as_slice()
    }

    /// The bytes as a `Vec`. It takes no memory.
    pub fn into_vec(self) -> Vec<u8>
        ensures { result.items ≡ self }
    {
        self.items
    }
}

impl From<Vec<u8>> for Bytes {
    ghost from_gives = { λ v b. b ≡ v.items };

    fn from(items: Vec<u8>) -> Bytes {
        Bytes { items }
    }
}

/// A list of integers.
#[derive(Drop)]
pub struct Values {
    items: Vec<i64>,
}

impl Model for Values {
    ghost Value = { List ℤ };

    ghost view = { λ v. v.items.items };
}

impl Values {
    /// No values. It takes no memory.
    pub fn new(alloc: Global) -> Values
        ensures { result ≡ [] }
    {
        Values {
            items: Vec::new(alloc),
        }
    }

    /// Adds a value at the end. The one error is `Memory`, and the list is then as before.
    pub fn push(&mut self, value: i64) -> Result<(), PackError>
        ensures ok { OnOk result (self.new ≡ self.old ++ value ∷ []) }
        ensures err { OnErr result (self.new ≡ self.old) }
        ensures only { IfErr result (λ e. e ≡ PackError.Memory) }
    {
        self.items.push(value)?;
        Ok(())
    }

    /// How many values there are.
    pub fn len(&self) -> usize
        ensures { result ≡ length self.now }
    {
        self.items.len()
    }

    /// Whether there are none.
    pub fn is_empty(&self) -> bool
        ensures { result ≡ (length self.now == 0) }
    {
        self.items.is_empty()
    }

    /// The values.
    pub fn as_slice(&self) -> &[i64]
        ensures { result.now ≡ self.now }
    {
        self.items.as_slice()
    }

    /// The values as a `Vec`. It takes no memory.
    pub fn into_vec(self) -> Vec<i64>
        ensures { result.items ≡ self }
    {
        self.items
    }
}

impl From<Vec<i64>> for Values {
    ghost from_gives = { λ v l. l ≡ v.items };

    fn from(items: Vec<i64>) -> Values {
        Values { items }
    }
}
