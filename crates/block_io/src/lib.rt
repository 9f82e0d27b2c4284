//! Blocks of a store's file: written piece by piece with their rounding, and read back.
//!
//! A block is the packed values of a column, its short values joined, one long value, or bytes as they are, as those of a
//! directory. It stands on `host_io` for the disk, on `int_col` and `bytes_col` for the bytes of columns, and on `free_space` for
//! how a block's length is rounded. Where a block stands, and when the disk is synced, its callers decide.
#![tactic(auto)]

mod error;
mod part;
mod reading;
mod source;
mod writing;

pub use error::BlockError;
pub use part::Part;
pub use reading::read_block;
pub use writing::write_block;
