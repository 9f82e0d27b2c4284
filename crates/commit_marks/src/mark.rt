// Marks: what the slots of a file say.
ghost use Rattle.std.specs.Prelude.{◌≡◌, ◌↔◌, IsTrue};
ghost use Rattle.commit_marks.specs.Marks.{FitsFile, dir_span};

use free_space::{FIRST_PLACE, is_site};
use mk_value::Span;

/// The first 64 bytes of each store's file: `MKCOLS`, a carriage return and a newline, and zeros.
pub const HEADER: [u8; 64] = [
    0x4d, 0x4b, 0x43, 0x4f, 0x4c, 0x53, 0x0d, 0x0a, 0, 0, 0, 0, 0, 0, 0, 0, 0, 0, 0, 0, 0, 0, 0, 0,
    0, 0, 0, 0, 0, 0, 0, 0, 0, 0, 0, 0, 0, 0, 0, 0, 0, 0, 0, 0, 0, 0, 0, 0, 0, 0, 0, 0, 0, 0, 0, 0,
    0, 0, 0, 0, 0, 0, 0, 0,
];

/// The mark of a commit.
#[derive(Clone, Copy, Debug, PartialEq, Eq)]
pub struct Mark {
    /// 1, or 2 where the directory ends with notes.
    pub version: u8,
    /// The number of the commit, at most 2^63 - 1.
    pub number: u64,
    /// Where the directory stands.
    pub place: u64,
    /// How many bytes the directory has.
    pub len: u64,
    /// The end of the used part of the file, a multiple of 16.
    pub end: u64,
}

/// The marks of a file: the chosen one with its slot, and that of the other slot, where it is open.
#[derive(Clone, Copy, Debug, PartialEq, Eq)]
pub struct Marks {
    pub chosen: Mark,
    pub slot: u8,
    pub other: Option<Mark>,
}

impl Mark {
    /// The span of the directory.
    pub fn dir(&self) -> Span
        ensures { result ≡ dir_span self.now }
    {
        Span {
            place: self.place,
            len: self.len,
        }
    }

    /// Whether the mark fits a file of `len` bytes: its end is within the file, and its directory within its end.
    pub fn fits_file(&self, len: u64) -> bool
        ensures { IsTrue result ↔ FitsFile len self.now }
    {
        if !self.end.is_multiple_of(16) {
            return false;
        }
        FIRST_PLACE <= self.end && self.end <= len && is_site(self.end, &self.dir())
    }
}
