//! Numbers that keys which are the same share, and others seldom.
ghost use Rattle.std.specs.Prelude.{◌<◌, All, length};

use mk_value::{Lent, TableRead};
use relations::Columns;

/// How many bytes of a byte string a hash takes.
const HASHED: usize = 32;

/// The hash of the values of a row in these columns.
pub(crate) fn hash_of<T: TableRead>(table: &T, columns: &Columns, row: usize) -> u64
    requires row_in { row < length (T.rows table.now) }
    requires columns_in { All (λ j. j < length (T.schema table.now)) columns.now }
{
    let mut hash = 0;
    for col in columns.as_slice() {
        hash = hash_with(hash, table.lend(row, *col));
    }
    hash
}

/// A hash that goes on with a value. Of long byte strings the first bytes count, and the length.
fn hash_with(hash: u64, lent: Lent<'_>) -> u64 {
    match lent {
        Lent::I(number) => mixed(hash, i64::from(number).cast_unsigned()),
        Lent::L(number) => mixed(hash, number.cast_unsigned()),
        Lent::S(bytes) => hash_bytes(hash, bytes),
        Lent::B(bytes) => hash_bytes(hash, bytes),
        Lent::V(count) => mixed(hash, count as u64),
    }
}

/// A hash that goes on with the first bytes of a byte string, and its length.
fn hash_bytes(hash: u64, bytes: &[u8]) -> u64 {
    let mut hash = mixed(hash, bytes.len() as u64);
    for at in 0..bytes.len().min(HASHED) {
        hash = mixed(hash, bytes[at] as u64);
    }
    hash
}

/// A hash that goes on with a word.
fn mixed(hash: u64, word: u64) -> u64 {
    let product = (hash ^ word).wrapping_mul(0x9E37_79B9_7F4A_7C15);
    product ^ (product >> 32)
}
