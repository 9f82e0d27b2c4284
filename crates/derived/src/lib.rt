//! Tables made of others by operators: selections, sortings, projections, slices and their kin.
//!
//! A `Derived` is a schema and rows, read value by value through what it is made of: a table, rows of its own, another derived table
//! with positions of rows or places of columns, or two of them, one under the other or side by side. So operators over n rows make
//! lists of positions alone and copy no row; `sort` copies keys while it sorts. Positions in positions, and columns of columns, are
//! looked up when they are given, and positions go below columns: through a chain on one table a value is read in as many steps as
//! through columns and positions once.
//!
//! Crates above make their tables by `held` of rows made anew, by `gather` of positions into a derived table, by `stack` of one under
//! another, by `extend` with rows behind those of one, and by `beside` of two whose rows stand side by side.
//!
//! The definitions of all operators, those of groups and joins too, stand in `specs/`: what rows, in what order, under which schema,
//! and which refusal is due; what they are said in, rows by name and their order, stands in `relations`. This crate knows nothing of
//! expressions, files or columns in memory.
#![tactic(auto)]

mod columns;
mod derived;
mod passing;
mod slicing;
mod sorting;
mod stacking;

pub use columns::{project, rename, without};
pub use derived::{Derived, beside, extend, gather, held, leaf, pick, stack};
pub use passing::{range, select};
pub use relations::{Criterion, DerivedError, Key, copy_row, copy_rows};
pub use slicing::slice;
pub use sorting::{sort, sort_first};
pub use stacking::concat;
