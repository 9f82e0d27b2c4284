//! The lines of a sample: a long session that a number makes, always the same one.
//!
//! A sample gives a view its structure, edits it by so many lines, commits now and then, and commits at its end. Each edit is drawn from a
//! linear congruence of 64 bits, and edits rows that are there. The lines are written one by one into a room that is lent, and no memory
//! is taken. What a line does is not known here: this crate stands on texts alone.
#![tactic(auto)]

mod edit;
mod laws;
mod numbers;
mod place;
mod sample;

pub use laws::rows_are_added_and_removed;
pub use sample::{MAX_SAMPLE_LINE, Sample};
