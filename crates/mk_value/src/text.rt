ghost use Rattle.std.specs.Prelude.{◌≡◌, ◌+◌, ◌-◌, ◌≤◌, ◌<◌, ◌++◌, ◌↔◌, [], length, take, IsTrue, IfOk, IsOk, OnOk, OnErr};
ghost use Rattle.std.specs.String.{string_bytes};
ghost use Rattle.std.specs.Char.{encode_utf8};
ghost use Rattle.std.specs.Str.{IsUtf8};

use crate::Memory;
use itoa::Integer;
use std::alloc::Global;
use std::marker::Model;

/// A text: bytes that are UTF-8, with room for more that no call but `reserve` and `with_room` promises.
///
/// It may hold a zero byte; a value of kind S may not, which `fits` tests.
#[derive(Debug, Drop)]
pub struct Text {
    string: String,
}

impl Model for Text {
    ghost use Rattle.std.specs.Prelude.{◌-◌};
    ghost use Rattle.std.specs.String.{string_bytes, string_capacity, string_len};
    ghost use Rattle.mk_value.specs.Buffer.{Buffer};

    ghost Value = { Buffer };

    ghost view = { λ t. record { bytes = string_bytes t.string; spare = string_capacity t.string - string_len t.string } };
}

impl Text {
    /// The empty text, with no room.
    pub fn new(alloc: Global) -> Text
        ensures { result.bytes ≡ [] }
    {
        Text {
            string: String::new(alloc),
        }
    }

    /// The empty text, with room for `room` bytes.
    pub fn with_room(alloc: Global, room: usize) -> Result<Text, Memory>
        ensures empty { IfOk result (λ t. t.bytes ≡ []) }
        ensures spare { IfOk result (λ t. room ≤ t.spare) }
    {
        Ok(Text {
            string: String::with_capacity(alloc, room)?,
        })
    }

    /// A text of these characters.
    pub fn from_str(alloc: Global, text: &str) -> Result<Text, Memory>
        ensures { IfOk result (λ t. t.bytes ≡ text.now) }
    {
        Ok(Text {
            string: String::from_str(alloc, text)?,
        })
    }

    /// Makes room for `more` bytes.
    pub fn reserve(&mut self, more: usize) -> Result<(), Memory>
        ensures same { self.new.bytes ≡ self.old.bytes }
        ensures ok { OnOk result (more ≤ self.new.spare) }
        ensures roomy { more ≤ self.old.spare → IsOk result }
        ensures spare { self.old.spare ≤ self.new.spare }
    {
        self.string.reserve(more)?;
        Ok(())
    }

    /// Appends a character.
    pub fn push(&mut self, character: char) -> Result<(), Memory>
        ensures ok { OnOk result (self.new.bytes ≡ self.old.bytes ++ encode_utf8 character) }
        ensures err { OnErr result (self.new.bytes ≡ self.old.bytes) }
        ensures roomy { length (encode_utf8 character) ≤ self.old.spare → IsOk result }
        ensures spare { self.old.spare ≤ self.new.spare + length (encode_utf8 character) }
    {
        self.string.push(character)?;
        Ok(())
    }

    /// Appends a text.
    pub fn push_str(&mut self, text: &str) -> Result<(), Memory>
        ensures ok { OnOk result (self.new.bytes ≡ self.old.bytes ++ text.now) }
        ensures err { OnErr result (self.new.bytes ≡ self.old.bytes) }
        ensures roomy { length text.now ≤ self.old.spare → IsOk result }
        ensures spare { self.old.spare ≤ self.new.spare + length text.now }
    {
        self.string.push_str(text)?;
        Ok(())
    }

    /// Appends an integer in decimal.
    pub fn push_integer<I: Integer>(&mut self, number: I) -> Result<(), Memory>
        ensures ok { OnOk result (self.new.bytes ≡ self.old.bytes ++ I.text number) }
        ensures err { OnErr result (self.new.bytes ≡ self.old.bytes) }
        ensures roomy { length (I.text number) ≤ self.old.spare → IsOk result }
        ensures spare { self.old.spare ≤ self.new.spare + length (I.text number) }
    {
        let mut digits = itoa::Buffer::new();
        self.push_str(digits.format(number))
    }

    /// Makes the text empty; what its bytes took is room again.
    pub fn clear(&mut self)
        ensures empty { self.new.bytes ≡ [] }
        ensures spare { self.old.spare + length self.old.bytes ≤ self.new.spare }
    {
        self.string.clear();
    }

    /// Keeps the first `len` bytes, which are a text; what the others took is room again.
    pub fn truncate(&mut self, len: usize)
        requires { IsUtf8 (take len self.old.bytes) }
        ensures front { self.new.bytes ≡ take len self.old.bytes }
        ensures spare { self.old.spare + (length self.old.bytes - len) ≤ self.new.spare }
    {
        self.string.truncate(len);
    }

    pub fn as_str(&self) -> &str
        ensures value { result.now ≡ self.now.bytes }
        ensures utf8 { IsUtf8 self.now.bytes }
    {
        self.string.as_str()
    }

    /// The number of bytes.
    pub fn len(&self) -> usize
        ensures value { result ≡ length self.now.bytes }
        ensures utf8 { IsUtf8 self.now.bytes }
    {
        self.string.len()
    }

    pub fn is_empty(&self) -> bool
        ensures { IsTrue result ↔ (self.now.bytes ≡ []) }
    {
        self.string.is_empty()
    }

    /// A text of the same bytes, which has memory of its own.
    pub fn copy(&self) -> Result<Text, Memory>
        ensures { IfOk result (λ t. t.bytes ≡ self.now.bytes) }
    {
        Ok(Text {
            string: self.string.clone()?,
        })
    }

    /// Gives the string back, without memory.
    pub fn into_string(self) -> String
        ensures { string_bytes result ≡ self.bytes }
    {
        self.string
    }
}

impl From<String> for Text {
    ghost from_gives = { λ string text. text.bytes ≡ string_bytes string };

    fn from(string: String) -> Text {
        Text { string }
    }
}

impl PartialEq for Text {
    ghost use Rattle.mk_value.specs.Names.{same_bytes};
    ghost use Rattle.std.proofs.Common.{rules};
    ghost use Rattle.std.specs.Cmp.Rules.{comparing};

    ghost eq = { λ a b. same_bytes a.bytes b.bytes };

    ghost laws = { Prim.search (comparing, rules) };

    fn eq(&self, other: &Text) -> bool {
        self.as_str() == other.as_str()
    }
}
