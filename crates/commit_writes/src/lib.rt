//! The order of writes by which a commit moves a store's file from one slot to the other, so that a crash at any moment leaves
//! the old commit or the new one.
//!
//! A commit is here what it has in the file: a mark and blocks, the directory's among them. What the blocks hold this layer does
//! not know; its caller writes them. It stands on `host_io` for the disk, on `commit_marks` for the slots, and on `free_space`
//! for where blocks stand.
#![tactic(auto)]

mod carrying;
mod writes_blocks;

pub use carrying::carry;
pub use writes_blocks::WritesBlocks;
