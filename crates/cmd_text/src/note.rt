//! The notes of commits, and the tokens that spell them.
ghost use Rattle.std.specs.Prelude.{◌≡◌, ◌<◌, ◌↔◌, [], ℕ, List, length, IfOk, IfSome, IsNone, IsOk, IsTrue};
ghost use Rattle.mk_value.specs.Tokens.{text as a_text};
ghost use Rattle.tokens.specs.Meanings.{characters_of, escape_of as escape, token_of};
ghost use Rattle.cmd_text.specs.Notes.{IsNote, max_note};

use mk_value::{Bytes, Memory, Text, is_text};
use std::alloc::Global;
use std::marker::Model;
use tokens::Token;

/// The most bytes of a note.
const MAX_NOTE: usize = 255;

/// A note of a commit: a text of at most 255 bytes without a zero byte, or none.
#[derive(Debug, Drop)]
pub struct Note {
    text: Text,
}

impl Model for Note {
    ghost use Rattle.std.specs.Prelude.{ℕ, List};
    ghost use Rattle.cmd_text.specs.Notes.{IsNote};

    ghost Value = { List ℕ };

    ghost view = { λ note. note.text.bytes };

    ghost invariant = { λ note. IsNote note.text.bytes };
}

impl Note {
    /// Whether the text is a note.
    pub fn is_note(text: &str) -> bool
        ensures { IsTrue result ↔ IsNote text.now }
    {
        text.len() <= MAX_NOTE && is_text(text)
    }

    /// No note. It takes no memory.
    pub fn none(alloc: Global) -> Note
        ensures { result ≡ [] }
    {
        Note {
            text: Text::new(alloc),
        }
    }

    /// The note of a text.
    pub fn of(text: Text) -> Note
        requires { IsNote text.bytes }
        ensures { result ≡ text.bytes }
    {
        Note { text }
    }

    pub fn as_text(&self) -> &Text
        ensures value { result.now.bytes ≡ self.now }
        ensures whole { IsNote self.now }
    {
        &self.text
    }
}

/// The note that a token is: a text that stands for few bytes. An empty one takes no memory.
pub(crate) fn note_of(alloc: Global, token: &Token<'_>) -> Result<Option<Note>, Memory>
    ensures some { IfOk result (λ found. IfSome found (λ note. (token_of token.now ≡ a_text note) × IsNote note)) }
    ensures none { IfOk result (λ found. IsNone found → (note : List ℕ) → IsNote note → token_of token.now ≡ a_text note → ⊥) }
    ensures in_place { token_of token.now ≡ a_text [] → IsOk result }
{
    let Token::Text(written) = token else {
        return Ok(None);
    };
    let Some(content) = few_characters(alloc, written.as_bytes())? else {
        return Ok(None);
    };
    let Ok(string) = String::from_utf8(content.into_vec()) else {
        return Ok(None);
    };
    if !Note::is_note(string.as_str()) {
        return Ok(None);
    }
    Ok(Some(Note::of(Text::from(string))))
}

/// The bytes that those in quotes stand for, unless they are more than a note has.
fn few_characters(alloc: Global, written: &[u8]) -> Result<Option<Bytes>, Memory>
    ensures some { IfOk result (λ found. IfSome found (λ content. content.bytes ≡ characters_of written.now)) }
    ensures none { IfOk result (λ found. IsNone found → max_note < length (characters_of written.now)) }
    ensures in_place { characters_of written.now ≡ [] → IsOk result }
{
    let mut content = Bytes::new(alloc);
    let mut escapes = false;
    for byte in written {
        if !escapes && *byte == b'\\' {
            escapes = true;
            continue;
        }
        if content.len() == MAX_NOTE {
            return Ok(None);
        }
        content.push(if escapes { escape_of(*byte) } else { *byte })?;
        escapes = false;
    }
    Ok(Some(content))
}

/// What a byte behind a backslash stands for.
fn escape_of(byte: u8) -> u8
    ensures { result ≡ escape byte }
{
    if byte == b'n' { b'\n' } else { byte }
}
