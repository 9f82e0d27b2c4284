//! What a segment shows of itself.

use bit_pack::Width;

/// One segment of a column, lent: how many values it holds, and their bytes, packed at the least width that holds
/// them.
#[derive(Clone, Copy, Debug)]
pub struct Held<'a> {
    pub count: usize,
    pub width: Width,
    pub bytes: &'a [u8],
}
