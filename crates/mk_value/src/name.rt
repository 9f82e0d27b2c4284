ghost use Rattle.std.specs.Prelude.{◌≡◌, ◌↔◌, ◌∷◌, [], IsTrue, IsOkAnd, IfSome, IsNone};
ghost use Rattle.mk_value.specs.Names.{IsName, is_name_byte as name_byte};

use crate::Memory;
use crate::limits::MAX_NAME;
use std::marker::Model;

/// The name of a view or a property: 1 to 31 ASCII letters, digits or `_`, the first no digit. It takes no memory.
#[derive(Debug, Drop)]
pub struct Name {
    bytes: [u8; MAX_NAME],
    len: usize,
}

impl Model for Name {
    ghost use Rattle.std.specs.Prelude.{ℕ, List, take, ◌≤◌};
    ghost use Rattle.mk_value.specs.Limits.{max_name};
    ghost use Rattle.mk_value.specs.Names.{IsName};

    ghost Value = { List ℕ };

    ghost view = { λ n. take n.len n.bytes };

    ghost invariant = { λ n. (n.len ≤ max_name) × IsName (take n.len n.bytes) };
}

impl Name {
    /// Whether the text is a name.
    pub fn is_name(text: &str) -> bool
        ensures { IsTrue result ↔ IsName text.now }
    {
        let bytes = text.as_bytes();
        let Some(first) = bytes.first() else {
            return false;
        };
        bytes.len() <= MAX_NAME
            && !first.is_ascii_digit()
            && bytes.iter().all(|byte| is_name_byte(*byte))
    }

    /// The name that the bytes spell, if they spell one.
    pub fn from_bytes(bytes: &[u8]) -> Option<Name>
        ensures some { IfSome result (λ name. (name ≡ bytes.now) × IsName bytes.now) }
        ensures none { IsNone result ↔ (IsName bytes.now → ⊥) }
    {
        let first = bytes.first()?;
        if bytes.len() > MAX_NAME
            || first.is_ascii_digit()
            || !bytes.iter().all(|byte| is_name_byte(*byte))
        {
            return None;
        }
        let len = bytes.len();
        let mut held = [0; MAX_NAME];
        held[..len].copy_from_slice(bytes);
        Some(Name { bytes: held, len })
    }

    /// The name that a text spells. It needs no memory.
    pub fn of(text: &str) -> Result<Name, Memory>
        requires { IsName text.now }
        ensures { IsOkAnd result (λ name. name ≡ text.now) }
    {
        let len = text.len();
        let mut bytes = [0; MAX_NAME];
        bytes[..len].copy_from_slice(text.as_bytes());
        Ok(Name { bytes, len })
    }

    /// The name `_`, for places that hold no name yet.
    pub(crate) fn placeholder() -> Name
        ensures { result ≡ 95 ∷ [] }
    {
        Name {
            bytes: [b'_'; MAX_NAME],
            len: 1,
        }
    }

    pub fn as_bytes(&self) -> &[u8]
        ensures value { result.now ≡ self.now }
        ensures name { IsName self.now }
    {
        &self.bytes[..self.len]
    }

    pub fn as_str(&self) -> &str
        ensures value { result.now ≡ self.now }
        ensures name { IsName self.now }
    {
        str::from_utf8(self.as_bytes()).unwrap()
    }

    /// An equal name. It needs no memory.
    pub fn copy(&self) -> Result<Name, Memory>
        ensures { IsOkAnd result (λ name. name ≡ self.now) }
    {
        Ok(Name {
            bytes: self.bytes,
            len: self.len,
        })
    }
}

impl PartialEq for Name {
    ghost use Rattle.mk_value.specs.Names.{same_bytes};
    ghost use Rattle.std.proofs.Common.{rules};
    ghost use Rattle.std.specs.Cmp.Rules.{comparing};

    ghost eq = { same_bytes };

    ghost laws = { Prim.search (comparing, rules) };

    fn eq(&self, other: &Name) -> bool {
        self.as_bytes() == other.as_bytes()
    }
}

/// Whether a byte may stand in a name.
pub(crate) fn is_name_byte(byte: u8) -> bool
    ensures { result ≡ name_byte byte }
{
    byte.is_ascii_alphanumeric() || byte == b'_'
}
