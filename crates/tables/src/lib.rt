//! Tables as columns: a schema, a number of rows, and one packed column for each property, each with its home in a file.
//!
//! A nested table stands in a row of a view column, and tables that are the same are shared. A caller sees a table as its schema, its
//! rows and the home of each column. It stands on the two kinds of columns, and knows nothing of names, paths or files.
#![tactic(auto)]

mod block;
mod build;
mod builder;
mod chunk;
mod cols;
mod column;
mod edits;
mod groups;
mod growing;
mod item;
mod nested;
mod pool;
mod prepared;
mod shared;
mod slice;
mod spine;
mod table;
mod tables;

pub use block::Block;
pub use build::{empty_table, from_rows};
pub use builder::TablesBuilder;
pub use cols::{Col, Cols};
pub use column::{Column, default_column};
pub use nested::Nested;
pub use shared::{Shared, share};
pub use table::Table;
pub use tables::Tables;
