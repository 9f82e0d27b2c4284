// The bytes of a block, one piece after another.
ghost use Rattle.std.specs.Prelude.{◌≡◌, ℕ, ◌≤◌, List, length, take, drop};

use bytes_col::ShortBytes;
use int_col::PackedBytes;

/// Bytes that are to be written one piece after another.
pub(crate) trait Source: Drop {
    /// The bytes to come.
    ghost rest: { Self → List ℕ };

    /// How many bytes are to come.
    fn left(&self) -> usize
        ensures { result ≡ length (rest self.now) };

    /// Writes the next bytes into a slice, as many as it takes.
    fn give(&mut self, into: &mut [u8])
        requires { length into.old ≤ length (rest self.old) }
        ensures bytes { into.new ≡ take (length into.old) (rest self.old) }
        ensures after { rest self.new ≡ drop (length into.old) (rest self.old) };
}

impl<'a> Source for PackedBytes<'a> {
    ghost rest = { λ bytes. bytes };

    fn left(&self) -> usize {
        self.len()
    }

    fn give(&mut self, into: &mut [u8]) {
        self.fill(into);
    }
}

impl<'a> Source for ShortBytes<'a> {
    ghost rest = { λ bytes. bytes };

    fn left(&self) -> usize {
        self.len()
    }

    fn give(&mut self, into: &mut [u8]) {
        self.fill(into);
    }
}

/// The rest of bytes that are in memory as they are.
#[derive(Drop)]
pub(crate) struct Rest<'a>(pub(crate) &'a [u8]);

impl<'a> Source for Rest<'a> {
    ghost rest = { λ rest. rest.0.now };

    fn left(&self) -> usize {
        self.0.len()
    }

    fn give(&mut self, into: &mut [u8]) {
        let (front, behind) = self.0.split_at(into.len());
        into.copy_from_slice(front);
        self.0 = behind;
    }
}
