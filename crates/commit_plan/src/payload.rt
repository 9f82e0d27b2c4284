//! What the blocks that are due hold.

ghost use Rattle.std.specs.Prelude.{◌<◌, length};

use bytes_col::BytesCol;
use int_col::IntCol;
use mk_value::Bytes;
use segments::Shared;

/// A value of a column, by its row.
#[derive(Drop)]
pub(crate) struct MemoValue {
    pub(crate) column: Shared<BytesCol>,
    pub(crate) row: usize,
    ghost within: { row < length column.values },
}

/// What a block holds. It shares the values of its column.
#[derive(Drop)]
pub(crate) enum Payload {
    /// Numbers, packed: those of a column, or the sizes of the values of one.
    Numbers(IntCol),
    /// The values of at most 512 bytes of a column, joined.
    Short(Shared<BytesCol>),
    /// A longer one.
    Memo(MemoValue),
    /// A directory.
    Directory(Bytes),
}
