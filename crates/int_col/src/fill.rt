//! The packed bytes of a whole column, made a block of values at a time.
ghost use Rattle.std.specs.Prelude.{◌≡◌, ℕ, ◌+◌, ◌<◌, ◌≤◌, ◌++◌, length, take, drop};
ghost use Rattle.bit_pack.specs.Width.{HoldsAll, IsLeastWidth};
ghost use Rattle.bit_pack.specs.Packed.{packed_len, packing};
ghost use Rattle.segments.specs.Joined.{joined};

use crate::segmented::Segmented;
use bit_pack::Width;

/// How many values are packed at once. They are whole bytes at each width.
const BLOCK: usize = 512;

/// The bytes of a block at the widest width.
const BLOCK_MOST: usize = 4096;

impl Segmented {
    /// Writes the packed bytes of all values, at their least width, from byte `from` on.
    pub(crate) fn fill(&self, width: Width, from: usize, into: &mut [u8])
        requires least { IsLeastWidth width (joined self.now) }
        requires within { from + length into.old ≤ packed_len width (length (joined self.now)) }
        ensures { into.new ≡ take (length into.old) (drop from (packing width (joined self.now))) }
    {
        let _few = self.len();
        let mut done = 0;
        while done < into.len() {
            done += self.fill_some(width, from + done, &mut into[done..]);
        }
    }

    /// Writes packed bytes of the block that has byte `from`, as many as there are from there on and the slice takes.
    fn fill_some(&self, width: Width, from: usize, into: &mut [u8]) -> usize
        requires least { IsLeastWidth width (joined self.now) }
        requires some { 0 < length into.old }
        requires within { from + length into.old ≤ packed_len width (length (joined self.now)) }
        ensures some_filled { 0 < result }
        ensures in_range { result ≤ length into.old }
        ensures bytes { into.new ≡ take result (drop from (packing width (joined self.now))) ++ drop result into.old }
    {
        let all = self.len();
        let block_len = width.packed_len(BLOCK);
        let first = BLOCK * (from / block_len);
        let skip = from % block_len;
        let count = BLOCK.min(all - first);
        let len = width.packed_len(count);
        let mut values = [0i64; BLOCK];
        let mut packed = [0u8; BLOCK_MOST];
        self.pack_block(width, first, &mut values[..count], &mut packed[..len]);
        copy_from(&packed[..len], skip, into)
    }

    /// Packs values from place `first` on, as many as `values` takes, which has room for them.
    fn pack_block(&self, width: Width, first: usize, values: &mut [i64], into: &mut [u8])
        requires held { HoldsAll width (joined self.now) }
        requires within { first + length values.old ≤ length (joined self.now) }
        requires len { length into.old ≡ packed_len width (length values.old) }
        ensures { into.new ≡ packing width (take (length values.old) (drop first (joined self.now))) }
    {
        self.copy_values(first, values);
        bit_pack::pack_into(width, values, into);
    }
}

/// Copies bytes from byte `skip` on, as many as there are from there on and the slice takes.
fn copy_from(packed: &[u8], skip: usize, into: &mut [u8]) -> usize
    requires inside { skip < length packed.now }
    requires some { 0 < length into.old }
    ensures some_copied { 0 < result }
    ensures in_range { result ≤ length into.old }
    ensures there { skip + result ≤ length packed.now }
    ensures bytes { into.new ≡ take result (drop skip packed.now) ++ drop result into.old }
{
    let count = (packed.len() - skip).min(into.len());
    into[..count].copy_from_slice(&packed[skip..skip + count]);
    count
}
