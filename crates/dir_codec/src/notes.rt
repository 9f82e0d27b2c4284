// The notes of a directory.
ghost use Rattle.std.specs.Prelude.{◌≡◌, ◌+◌, ◌≤◌, ℕ, List, [], ◌∷◌, length, map, MatchResult};
ghost use Rattle.dir_codec.specs.Dir.{AreNotesFrom, spelled_note, spelled_notes};
ghost use Rattle.dir_codec.specs.Fields.{Due, note_count, note_number, notes_due};
ghost use Rattle.dir_codec.specs.Parts.{IsNote};
ghost use Rattle.dir_codec.specs.Reads.{Flaws, GivesPart, Leads};
ghost use Rattle.dir_codec.specs.Values.{note_of};

use crate::dir::{Note, Notes};
use crate::error::DirError;
use crate::fields::{read_above, read_between, read_text};
use std::alloc::Global;

/// The most bytes of the text of a note.
const LONGEST: u32 = 255;

/// The most notes of a file.
const MOST: u32 = 64;

/// One note of a commit with this number, whose own number is above that of the note before.
pub(crate) fn read_note(
    alloc: Global,
    bytes: &[u8],
    at: usize,
    number: u64,
    last: u64,
) -> Result<(Note, usize), DirError>
    requires { at ≤ length bytes.now }
    ensures { (end more : ℕ) → MatchResult result
        (λ r. IsNote number (last + 1) (note_of r.0) × Leads number end (note_number more (last + 1) ∷ []) bytes.now at
        (notes_due more (r.0.number + 1)) r.1 (spelled_note (note_of r.0)))
        (Flaws number end (note_number more (last + 1) ∷ []) bytes.now at) }
{
    let commit = read_above(bytes, at, last, number)?;
    let len = read_between(bytes, at + 8, 1, LONGEST)? as usize;
    let text = read_text(alloc, bytes, at + 12, len)?;
    let note = Note {
        number: commit,
        text,
    };
    Ok((note, at + 12 + len))
}

/// The notes of a commit with this number, of which there are some.
pub(crate) fn read_notes(
    alloc: Global,
    bytes: &[u8],
    at: usize,
    number: u64,
) -> Result<(Notes, usize), DirError>
    requires { at ≤ length bytes.now }
    ensures { (end : ℕ) → GivesPart number end (note_count ∷ []) bytes.now at
        (λ notes. AreNotesFrom number 1 (map note_of notes) × (1 ≤ length notes) × (length notes ≤ 64))
        (λ notes. spelled_notes (map note_of notes)) result }
{
    let count = read_between(bytes, at, 1, MOST)?;
    let mut notes = Notes::new(alloc);
    let mut place = at + 4;
    let mut last = 0;
    for done in 0..count {
        let (note, next) = read_note(alloc, bytes, place, number, last)?;
        last = note.number;
        place = next;
        notes.push(note)?;
    }
    Ok((notes, place))
}
