//! Operators on two tables: side by side, matched by keys, and as sets of rows; and the rows of views inside rows beside them.
//!
//! `pair` and `product` put the rows of two tables side by side, `join` those that agree on keys, and `join_prop` each row beside
//! the rows of a view inside it; in an outer join a row that has no partner stands once, beside defaults. The rows of two tables side
//! by side are pairs of positions, so that none is made; only `join_prop` makes its rows. `union`, `intersect`, `minus` and
//! `different` take tables of one schema as sets of rows: their rows are positions in the two tables. What is looked up is looked up
//! in an index of rows, and tables of about as many rows are gone along together, each in the order of its index; so no operator goes
//! over the second table for each row of the first but `product`, which lists these very pairs.
//!
//! What each operator gives, and which refusal is due, is said by the definitions of `derived`. This crate knows nothing of
//! expressions, files or columns in memory.
#![tactic(auto)]

mod beside;
mod keys;
mod matching;
mod pairing;
mod pairs;
mod placing;
mod sets;
mod sizing;
mod unnesting;

pub use matching::join;
pub use pairing::{pair, product};
pub use sets::{different, intersect, minus, union};
pub use sizing::join_size;
pub use unnesting::join_prop;
