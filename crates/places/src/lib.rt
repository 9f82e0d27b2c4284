//! A list of positions of rows in chunks, so that one that comes in or goes moves those of one chunk and no others.
//!
//! A caller sees the list alone, and how many empty chunks lie aside. These are all the memory that an edit takes, so that whoever has reserved them
//! can edit without an answer for want of memory. It stands on `row_edits` for the words of positions that rows move when they come or go side by
//! side. It knows nothing of watches, tables or the order in which positions stand.
#![tactic(auto)]

mod chunk;
mod edits;
mod ends;
mod joins;
mod numbers;
mod places;
mod seat;

pub use places::{Places, chunks_for};
