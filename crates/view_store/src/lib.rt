//! Nested tables in memory: views by name, and their edits.
//!
//! A `Root` holds views by name. A view is a table of the columns of `tables`: a schema, rows, and for each column the place where it
//! was read from or written to, its home. A `Path` leads from a name over rows and view properties to a view inside another, and an
//! edit puts in, changes or removes rows there. Each call is refused exactly as the definitions say, and leaves the root as it was then.
//!
//! Tables are shared: a copy of a root, and a view that is handed out, cost a count for each table, and an edit makes a table of its own
//! of each on its path. This crate knows nothing of files, commands or the texts of structures.
#![tactic(auto)]

mod change;
mod check;
mod edit;
mod error;
mod root;
mod structure;
mod walk;

pub use error::EditError;
pub use root::{Names, Root, Root as Views};
pub use structure::structure_fits;
pub use tables::{Shared, Table, empty_table, from_rows, share};
