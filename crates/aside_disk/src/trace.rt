//! What a disk went through, as those see it who write it. It exists only in proofs.
ghost use Rattle.std.specs.Prelude.{◌≡◌, take};
ghost use Rattle.std.specs.Borrow.{ftrue};
ghost use Rattle.aside_disk.specs.Shown.{Seen, rested, spoke, wrote};
ghost use Rattle.aside_disk.specs.Standing.{first_seen};

use crate::log::Log;
use host_io::Disk;
use mk_value::Bytes;
use std::marker::Model;

#[derive(Drop)]
pub struct Trace {
    pub ghost seen: { Seen },
}

impl Model for Trace {
    ghost also_owns = { λ _. ftrue };
}

impl Trace {
    /// The trace at these moments.
    fn at() -> Trace
        ghost told: { Seen }
        ensures { result.seen ≡ told }
    {
        Trace {}
    }

    /// The trace at the beginning.
    pub(crate) fn first<D: Disk>(_base: &Bytes, _number: u64, _log: &Log, _disk: &&mut D) -> Trace
        ensures { result.seen ≡ first_seen _disk.now.ghost_name _number _base.now.bytes _log.now.end (D.outside _disk.now.now) }
    {
        first_at(_base, _number, _log, _disk)
    }

    /// One moment more, in which the bytes were written.
    pub(crate) fn wrote(&self, _place: u64, _bytes: &[u8]) -> Trace
        ensures { result.seen ≡ wrote self.now.seen _place _bytes.now }
    {
        wrote_at(self, _place, _bytes)
    }

    /// One moment more, in which all was synced.
    pub(crate) fn rested(&self) -> Trace
        ensures { result.seen ≡ rested self.now.seen }
    {
        rested_at(self)
    }

    /// One moment more, in which the front of a piece was said.
    pub(crate) fn spoke(&self, _piece: &[u8], _count: usize) -> Trace
        ensures { result.seen ≡ spoke self.now.seen (take _count _piece.now) }
    {
        spoke_at(self, _piece, _count)
    }
}

fn first_at<D: Disk>(_base: &Bytes, _number: u64, _log: &Log, _disk: &&mut D) -> Trace
    ghost told: { Seen }
    ensures { result.seen ≡ told }
{
    Trace::at()
}

fn wrote_at(_trace: &Trace, _place: u64, _bytes: &[u8]) -> Trace
    ghost told: { Seen }
    ensures { result.seen ≡ told }
{
    Trace::at()
}

fn rested_at(_trace: &Trace) -> Trace
    ghost told: { Seen }
    ensures { result.seen ≡ told }
{
    Trace::at()
}

fn spoke_at(_trace: &Trace, _piece: &[u8], _count: usize) -> Trace
    ghost told: { Seen }
    ensures { result.seen ≡ told }
{
    Trace::at()
}
