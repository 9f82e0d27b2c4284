ghost use Rattle.std.specs.Prelude.{◌≡◌};

use crate::piece::{PIECE, Piece, reach};
use host_io::{Disk, Failed, Host};
use std::alloc::Global;
use std::marker::Model;

/// A longer read goes to the host as it is.
const SMALL: usize = PIECE / 4;

/// A host that answers small reads of its file from the last large one.
#[derive(Drop)]
pub struct Ahead<H: Disk> {
    host: H,
    piece: Piece,
}

impl<H: Disk> Model for Ahead<H> {
    ghost use Rattle.read_ahead.specs.Pieces.{Holds};

    ghost Value = { H };

    ghost view = { λ a. a.host };

    ghost invariant = { λ a. Holds H.tells (H.outside a.host).now.disk.seen a.piece.start a.piece.bytes.items };
}

impl<H: Disk> Ahead<H> {
    /// This host, read ahead. It takes up to [`PIECE`] bytes of memory when it is read, and reads as it is where there are none.
    pub fn new(alloc: Global, host: H) -> Ahead<H>
        ensures { result ≡ host }
    {
        Ahead {
            host,
            piece: Piece::new(alloc),
        }
    }

    /// The host under it again.
    pub fn into_host(self) -> H
        ensures { result ≡ self }
    {
        let Ahead {
            host,
            piece: _piece,
        } = self;
        host
    }
}

impl<H: Disk> Disk for Ahead<H> {
    ghost tells = { H.tells };

    ghost outside = { H.outside };

    fn attach(&mut self, name: &str, create: bool) -> Result<(), Failed> {
        self.piece.forget();
        self.host.attach(name, create)
    }

    fn len(&mut self) -> Result<u64, Failed> {
        self.host.len()
    }

    fn read_at(&mut self, at: u64, into: &mut [u8]) -> Result<(), Failed> {
        if into.len() > SMALL || !reach(&mut self.host, &mut self.piece, at, into.len()) {
            return self.host.read_at(at, into);
        }
        let from = (at - self.piece.start) as usize;
        into.copy_from_slice(&self.piece.bytes[from..from + into.len()]);
        Ok(())
    }

    fn write_at(&mut self, at: u64, from: &[u8]) -> Result<(), Failed> {
        self.piece.forget();
        self.host.write_at(at, from)
    }

    fn sync(&mut self) -> Result<(), Failed> {
        self.piece.forget();
        self.host.sync()
    }
}

impl<H: Host> Host for Ahead<H> {
    fn take(&mut self, into: &mut [u8]) -> Result<usize, Failed> {
        self.host.take(into)
    }

    fn say(&mut self, from: &[u8]) -> Result<usize, Failed> {
        self.host.say(from)
    }
}
