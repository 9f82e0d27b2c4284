//! Rows in groups: an index of rows by their whole values, one by keys, and the operators that stand on them.
//!
//! A `RowIndex` has the positions of a list of rows in an order of whole rows, views included, so that equal rows lie side by
//! side: it is sorted once, and searched by halving. A `KeyIndex` has the same of the values that the rows of a table have in some
//! columns, none of which is a view, and copies none of them. On it stand `counts` and `group_by`, a row for each distinct key, and
//! `unique`, the first of equal rows, which goes by a `RowIndex` only where a property is a view.
//!
//! What an operator gives, and which refusal is due, is said by the definitions of `derived`. Refusals are found before anything
//! is made. This crate knows nothing of expressions, files or columns in memory.
#![tactic(auto)]

mod counting;
mod entry;
mod grouped;
mod groups;
mod hashing;
mod index;
mod key_index;
mod keyed;
mod keys;
mod merging;
mod partners;
mod seen;
mod sizes;
mod uniqueness;
mod whole_rows;

pub use counting::counts;
pub use grouped::group_by;
pub use index::RowIndex;
pub use key_index::KeyIndex;
pub use relations::{cmp_whole_row, cmp_whole_value};
pub use sizes::{counts_size, group_by_size};
pub use uniqueness::unique;
pub use whole_rows::{is_plain, whole_index};
