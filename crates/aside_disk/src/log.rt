// The log of an aside file, between two calls.
ghost use Rattle.std.specs.Prelude.{◌↔◌, IsTrue};
ghost use Rattle.aside_disk.specs.Logical.{IsLogMark};

use commit_marks::{Mark, Marks};

/// The greatest length of a file, and the greatest number of a commit.
pub(crate) const MAX_LEN: u64 = (1 << 63) - 1;

/// Where a log begins, behind the header and the slots: with the record of its base.
pub(crate) const LOG_PLACE: u64 = 192;

/// Where the records begin.
pub(crate) const FIRST_RECORD: u64 = 256;

/// Where the log of an aside file stands.
#[derive(Clone, Copy)]
pub struct Log {
    /// The marks at the last sync that succeeded.
    pub marks: Marks,
    /// Where the next record goes: the end of all records, synced or not.
    pub end: u64,
    /// The length in bytes of the base with all of them put into it.
    pub len: u64,
    /// Whether a sync has begun and none has succeeded since, so that the marks are to be read again.
    pub unsure: bool,
}

/// Whether a mark is that of a log.
pub(crate) fn is_log_mark(mark: &Mark) -> bool
    ensures { IsTrue result ↔ IsLogMark mark.now }
{
    if mark.version != 1 || mark.place != LOG_PLACE || !mark.len.is_multiple_of(16) {
        return false;
    }
    64 <= mark.len
        && mark.end <= MAX_LEN
        && LOG_PLACE <= mark.end
        && mark.end - LOG_PLACE == mark.len
}
