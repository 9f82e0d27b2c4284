//! Rows and schemas by the names of properties, and what a table is asked by: the ground of all operators.
//!
//! Everything here is said of any `TableRead`: which property a name means, which columns names have, which refusal names, criteria
//! and keys are due, the positions of the rows that pass criteria and of all rows in the order of keys, where a sorted table has
//! given values, and copies of rows. Positions are what is answered, and not rows: what shows rows in an order keeps the positions
//! alone. Rows are the same where all their values are, and stand in an order as wholes, views included.
//!
//! A refusal is found before anything is made. This crate makes no table, and knows nothing of operators on tables, of expressions,
//! files or columns in memory.
#![tactic(auto)]

mod checks;
mod columns;
mod copies;
mod criteria;
mod error;
mod first_sorted;
mod lending;
mod literals;
pub mod lookup;
mod merging;
mod order;
mod passing;
mod scanning;
mod searching;
mod sorting;
mod table_cells;

pub use checks::{check_criteria, check_keys, check_named, check_plain};
pub use columns::{
    Columns, all_columns, count_distinct, named_columns, other_columns, properties_in,
    schema_of_columns, values_in,
};
pub use copies::{copy_row, copy_rows};
pub use criteria::{Criterion, Key, Named};
pub use error::DerivedError;
pub use first_sorted::first_ordered;
pub use lending::{cmp_lent, cmp_lents};
pub use literals::{LiteralBounds, check_literals, criteria_of};
pub use merging::{deciding_keys, merged};
pub use order::{cmp_whole_row, cmp_whole_value};
pub use passing::{find, is_in_range, positions_in_range};
pub use searching::{count_before, count_equal, lower};
pub use sorting::{cmp_by_columns, cmp_by_keys, positions_by_columns, positions_ordered};
