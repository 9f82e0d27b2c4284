//! Looking at views, their sizes and their structures, and at the notes of commits.
ghost use Rattle.std.specs.Prelude.{◌≡◌, map, length, IfOk, None};
ghost use Rattle.std.specs.Result.{result_err};
ghost use Rattle.cmd_text.specs.Replies.{contents, lines_text, reply_bytes};
ghost use Rattle.struct_text.specs.Spelling.{spelling};
ghost use Rattle.dir_codec.specs.Values.{note_of};
ghost use Rattle.session.specs.Commands.{note_text, note_texts, note_texts as texts_of_notes};
ghost use Rattle.session.specs.Refusals.{AnswersDue, by_rows};
ghost use Rattle.session.specs.Structures.{structure_texts as texts_of, structures};
ghost use Rattle.session.specs.Values.{size_named};

use crate::Session;
use crate::refusals::{of_edit, of_memory};
use cmd_text::{Refusal, Reply, lines_of};
use dir_codec::Note;
use mk_value::{Memory, Name, Path, Schema, TableRead, Text, Texts, Value, print_value};
use std::alloc::Global;
use tables::Shared;

impl Session {
    /// The number of rows of a view.
    pub(crate) fn size_of(&self, path: &Path) -> Result<u64, Refusal>
        ensures due { result_err result ≡ by_rows self.now.store.views path.now }
        ensures size { IfOk result (λ size. size ≡ size_named self.now.store.views path.now) }
    {
        match self.store.views().size(path) {
            Ok(size) => Ok(size as u64),
            Err(error) => Err(of_edit(error)),
        }
    }

    /// How many views there are, and the lines of their structure texts, in the order in which they were made.
    pub(crate) fn structures(&self) -> Result<(u64, Text), Refusal>
        ensures due { AnswersDue None result }
        ensures lines { IfOk result (λ lines. reply_bytes (Reply.Lines lines.0 lines.1) ≡ lines_text (structures self.now.store.views)) }
    {
        let views = self.store.views();
        match structure_lines(self.alloc, views.names().as_slice(), views.tables()) {
            Ok(lines) => Ok(lines),
            Err(error) => Err(of_memory(error)),
        }
    }

    /// How many commits have notes, and the lines of these, the newest first.
    pub(crate) fn notes(&self) -> Result<(u64, Text), Refusal>
        ensures due { AnswersDue None result }
        ensures lines { IfOk result (λ lines. reply_bytes (Reply.Lines lines.0 lines.1) ≡ lines_text (note_texts self.now.store.kept.notes)) }
    {
        note_lines(self.alloc, self.store.notes().as_slice()).map_err(of_memory)
    }
}

/// How many texts there are, and each on a line of its own.
fn listed(alloc: Global, texts: &Texts) -> Result<(u64, Text), Memory>
    ensures { IfOk result (λ lines. reply_bytes (Reply.Lines lines.0 lines.1) ≡ lines_text (contents texts.now)) }
{
    Ok((texts.len() as u64, lines_of(alloc, texts.as_slice())?))
}

/// The notes on lines, the last first.
fn note_lines(alloc: Global, notes: &[Note]) -> Result<(u64, Text), Memory>
    ensures { IfOk result (λ lines. reply_bytes (Reply.Lines lines.0 lines.1) ≡ lines_text (texts_of_notes (map note_of notes.now))) }
{
    listed(alloc, &note_texts(alloc, notes)?)
}

/// The structure texts of names and their tables on lines.
fn structure_lines(alloc: Global, names: &[Name], tables: &[Shared]) -> Result<(u64, Text), Memory>
    requires { length names.now ≡ length tables.now }
    ensures { IfOk result (λ lines. reply_bytes (Reply.Lines lines.0 lines.1) ≡ lines_text (texts_of names.now tables.now)) }
{
    listed(alloc, &structure_texts(alloc, names, tables)?)
}

/// The texts of notes, the last first.
fn note_texts(alloc: Global, notes: &[Note]) -> Result<Texts, Memory>
    ensures { IfOk result (λ texts. contents texts ≡ texts_of_notes (map note_of notes.now)) }
{
    let mut texts = Texts::new(alloc);
    for at in 0..notes.len() {
        let note = &notes[notes.len() - 1 - at];
        texts.push(text_of_note(alloc, note)?)?;
    }
    Ok(texts)
}

/// The number of a note's commit, and the note as it is written in a row.
fn text_of_note(alloc: Global, note: &Note) -> Result<Text, Memory>
    ensures { IfOk result (λ text. text.bytes ≡ note_text (note_of note.now)) }
{
    let mut text = Text::new(alloc);
    text.push_integer(note.number)?;
    text.push_str(" ")?;
    print_value(&Value::S(note.text.copy()?), &mut text)?;
    Ok(text)
}

/// The structure texts of names and their tables.
fn structure_texts(alloc: Global, names: &[Name], tables: &[Shared]) -> Result<Texts, Memory>
    requires { length names.now ≡ length tables.now }
    ensures { IfOk result (λ texts. contents texts ≡ texts_of names.now tables.now) }
{
    let mut texts = Texts::new(alloc);
    for at in 0..names.len() {
        let text = structure_text(alloc, &names[at], tables[at].schema())?;
        texts.push(text)?;
    }
    Ok(texts)
}

/// The text of a structure.
pub(crate) fn structure_text(alloc: Global, name: &Name, schema: &Schema) -> Result<Text, Memory>
    ensures { IfOk result (λ text. text.bytes ≡ spelling name.now schema.now) }
{
    let mut text = Text::new(alloc);
    struct_text::print(name, schema, &mut text)?;
    Ok(text)
}
