//! Counts of a table's rows by their keys, which follow the table's events.
//!
//! A count is a sorting by its keys: the positions of all rows in the order of the keys, kept as a watch keeps them, and beside them the
//! places where a run of equal keys begins. A row that goes or comes takes out or puts in one place of the sorting, and one flag of the
//! runs, which is found by two comparisons at most. It keeps no values.
#![tactic(auto)]

mod beside;
mod counts;
mod filter;
mod flags;
mod kept;
mod laws;
mod making;

pub use counts::LiveCounts;
pub use filter::LiveFilter;
pub use laws::{counts_are_the_operator, filters_answer, filters_keep, runs_count_rows};
