//! The notes after a commit.
ghost use Rattle.std.specs.Prelude.{◌≡◌, ◌≤◌, length, map, IfOk};
ghost use Rattle.dir_codec.specs.Values.{note_of};
ghost use Rattle.commit_plan.specs.Following.{noted};

use dir_codec::{Note, Notes};
use mk_value::{Memory, Text};
use std::alloc::Global;

/// The most notes of a file.
const MAX_NOTES: usize = 64;

/// The notes after a commit of this number: one more where its note is not empty, and of all the last 64.
///
/// # Errors
///
/// `Memory`.
pub(crate) fn notes_with(
    alloc: Global,
    notes: &Notes,
    number: u64,
    note: &Text,
) -> Result<Notes, Memory>
    requires { length notes.now ≤ 64 }
    ensures { IfOk result (λ after. map note_of after ≡ noted (map note_of notes.now) number note.now.bytes) }
{
    if note.is_empty() {
        return copy_notes(alloc, notes.as_slice());
    }
    let first = (notes.len() + 1).saturating_sub(MAX_NOTES);
    let mut after = copy_notes(alloc, &notes.as_slice()[first..])?;
    after.push(Note {
        number,
        text: Text::from_str(alloc, note.as_str())?,
    })?;
    Ok(after)
}

fn copy_notes(alloc: Global, notes: &[Note]) -> Result<Notes, Memory>
    ensures { IfOk result (λ copy. map note_of copy ≡ map note_of notes.now) }
{
    let mut copy = Notes::new(alloc);
    'notes: for note in notes {
        copy.push(Note {
            number: note.number,
            text: Text::from_str(alloc, note.text.as_str())?,
        })?;
    }
    Ok(copy)
}
