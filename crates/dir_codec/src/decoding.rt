// The bytes of a directory read as a whole.
ghost use Rattle.std.specs.Prelude.{◌≡◌, ◌≤◌, ◌⊎◌, ℕ, length, map, IfErr, IfOk, MatchResult, Err};
ghost use Rattle.dir_codec.specs.declared.error.DirError.TheVariants as dir_error;
ghost use Rattle.dir_codec.specs.Dir.{AreNotes, Dir as Directory, IsDir, spelled, spelled_notes};
ghost use Rattle.dir_codec.specs.Fields.{IsFirstFlaw};
ghost use Rattle.dir_codec.specs.Parts.{notes_behind};
ghost use Rattle.dir_codec.specs.Reads.{GivesPart, IsRefused};
ghost use Rattle.dir_codec.specs.Values.{dir_of, note_of};

use crate::dir::{Dir, Notes};
use crate::error::DirError;
use crate::notes::read_notes;
use crate::views::read_views;
use std::alloc::Global;

/// The notes behind the views, under a mark of this version.
fn read_notes_behind(
    alloc: Global,
    bytes: &[u8],
    at: usize,
    version: u8,
    number: u64,
) -> Result<(Notes, usize), DirError>
    requires within { at ≤ length bytes.now }
    requires known { (version ≡ 1) ⊎ (version ≡ 2) }
    ensures { (end : ℕ) → GivesPart number end (notes_behind version) bytes.now at
        (λ notes. AreNotes version number (map note_of notes)) (λ notes. spelled_notes (map note_of notes)) result }
{
    if version == 2 {
        read_notes(alloc, bytes, at, number)
    } else {
        Ok((Notes::new(alloc), at))
    }
}

/// The directory that the bytes spell, under a mark with this version, number and end.
///
/// `At` comes exactly where they spell none, with the offset of the first field that is not as required: a field that
/// the bytes do not hold whole is refused at its start, a span at its place, a structure text or a repeated name at the
/// start of the text, and a byte behind the last field at its own offset. `Memory` comes where memory ran out, and says
/// nothing of the bytes. A row count alone takes no memory and no time.
pub fn decode(
    alloc: Global,
    bytes: &[u8],
    version: u8,
    number: u64,
    end: u64,
) -> Result<Dir, DirError>
    requires { (version ≡ 1) ⊎ (version ≡ 2) }

    // What is read, the bytes spell; what the bytes spell is read.
    ensures found { IfOk result (λ dir. IsDir version number end (dir_of dir) × (bytes.now ≡ spelled (dir_of dir))) }
    ensures accepted { (d : Directory) → IsDir version number end d → bytes.now ≡ spelled d
        → MatchResult result (λ dir. dir_of dir ≡ d) (λ e. e ≡ dir_error.Memory) }

    // What refuses them is their first flaw; their first flaw refuses them.
    ensures refused { IfErr result (IsRefused version number end bytes.now) }
    ensures flaw { (place : ℕ) → IsFirstFlaw version number end bytes.now place
        → (result ≡ Err (dir_error.At place)) ⊎ (result ≡ Err dir_error.Memory) }
{
    read_whole(alloc, bytes, version, number, end)
}

/// The directory that the bytes spell, or their first flaw.
fn read_whole(
    alloc: Global,
    bytes: &[u8],
    version: u8,
    number: u64,
    end: u64,
) -> Result<Dir, DirError>
    requires { (version ≡ 1) ⊎ (version ≡ 2) }
    ensures found { IfOk result (λ dir. IsDir version number end (dir_of dir) × (bytes.now ≡ spelled (dir_of dir))) }
    ensures refused { IfErr result (IsRefused version number end bytes.now) }
{
    let (views, next) = read_views(alloc, bytes, end)?;
    let (notes, behind) = read_notes_behind(alloc, bytes, next, version, number)?;
    if behind < bytes.len() {
        return Err(DirError::At(behind as u64));
    }
    Ok(Dir { views, notes })
}
