// What a block is made of.
use bytes_col::BytesCol;
use int_col::IntCol;

/// What is written as one block.
#[derive(Clone, Copy)]
pub enum Part<'a> {
    /// The values of a column, packed. The sizes of a column of texts or byte strings are such a column.
    Ints(&'a IntCol),
    /// The values of at most 512 bytes of a column, joined in the order of the rows.
    Short(&'a BytesCol),
    /// The value of this row of a column.
    Memo(&'a BytesCol, usize),
    /// These bytes, as those of a directory.
    Raw(&'a [u8]),
}
