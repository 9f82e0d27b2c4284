// The mark of a commit in memory.
ghost use Rattle.std.specs.Prelude.{◌≡◌, map};
ghost use Rattle.dir_codec.specs.Values.{note_of};
ghost use Rattle.recovery.specs.Commits.{mark_of, version_of};
ghost use Rattle.recovery.specs.Keeping.{commit_in};

use commit_marks::Mark;
use dir_codec::Notes;
use recovery::Kept;

/// The mark of a commit: version 2 where it has notes, and 1 where it has none.
pub(crate) fn mark_of(kept: &Kept) -> Mark
    ensures { result ≡ mark_of (commit_in kept.now) }
{
    Mark {
        version: version_of(&kept.notes),
        number: kept.number,
        place: kept.dir.place,
        len: kept.dir.len,
        end: kept.end,
    }
}

/// The version of the mark of a commit with these notes.
fn version_of(notes: &Notes) -> u8
    ensures { result ≡ version_of (map note_of notes.now) }
{
    if notes.is_empty() {
        return 1;
    }
    2
}
